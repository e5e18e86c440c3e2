// What `exports::numeric_calls` exports, with its contracts.
ghost use Rattle.std.specs.Prelude.{◌≡◌};
ghost use Rattle.std.specs.Float.Ieee as Ieee;
ghost use Rattle.std.specs.Float.{binary64};
ghost use Rattle.laws.specs.Float.{is_fin};
ghost use Rattle.numeric.specs.Basic.{fabs_of, clamp_of, min_of, max_of, whole_of, real_of};
ghost use Rattle.numeric.specs.Floor.{floor_of};
ghost use Rattle.numeric.specs.Draw.{draw_of, bipolar_of};
ghost use Rattle.numeric.specs.Power.{exp2_of, pow3000_of};
ghost use Rattle.numeric.specs.Trig.{sin_of, cos_of};

#[unsafe(no_mangle)]
pub extern "C" fn gruttisol_is_finite(x: f64) -> bool
    ensures { result ≡ is_fin x }
{
    exports::numeric_calls::gruttisol_is_finite(x)
}

#[unsafe(no_mangle)]
pub extern "C" fn gruttisol_fabs(x: f64) -> f64
    ensures { result ≡ fabs_of x }
{
    exports::numeric_calls::gruttisol_fabs(x)
}

#[unsafe(no_mangle)]
pub extern "C" fn gruttisol_clamp(x: f64, lo: f64, hi: f64) -> f64
    ensures { result ≡ clamp_of x lo hi }
{
    exports::numeric_calls::gruttisol_clamp(x, lo, hi)
}

#[unsafe(no_mangle)]
pub extern "C" fn gruttisol_min(a: f64, b: f64) -> f64
    ensures { result ≡ min_of a b }
{
    exports::numeric_calls::gruttisol_min(a, b)
}

#[unsafe(no_mangle)]
pub extern "C" fn gruttisol_max(a: f64, b: f64) -> f64
    ensures { result ≡ max_of a b }
{
    exports::numeric_calls::gruttisol_max(a, b)
}

#[unsafe(no_mangle)]
pub extern "C" fn gruttisol_to_u64(x: f64) -> u64
    ensures { result ≡ whole_of x }
{
    exports::numeric_calls::gruttisol_to_u64(x)
}

#[unsafe(no_mangle)]
pub extern "C" fn gruttisol_of_u64(n: u64) -> f64
    ensures { result ≡ real_of n }
{
    exports::numeric_calls::gruttisol_of_u64(n)
}

#[unsafe(no_mangle)]
pub extern "C" fn gruttisol_bits(x: f64) -> u64
    ensures { result ≡ Ieee.to_bits binary64 x }
{
    exports::numeric_calls::gruttisol_bits(x)
}

#[unsafe(no_mangle)]
pub extern "C" fn gruttisol_of_bits(b: u64) -> f64
    ensures { result ≡ Ieee.of_bits binary64 b }
{
    exports::numeric_calls::gruttisol_of_bits(b)
}

#[unsafe(no_mangle)]
pub extern "C" fn gruttisol_floor(x: f64) -> f64
    ensures { result ≡ floor_of x }
{
    exports::numeric_calls::gruttisol_floor(x)
}

#[unsafe(no_mangle)]
pub extern "C" fn gruttisol_draw(k: u64) -> f64
    ensures { result ≡ draw_of k }
{
    exports::numeric_calls::gruttisol_draw(k)
}

#[unsafe(no_mangle)]
pub extern "C" fn gruttisol_bipolar(k: u64) -> f64
    ensures { result ≡ bipolar_of k }
{
    exports::numeric_calls::gruttisol_bipolar(k)
}

#[unsafe(no_mangle)]
pub extern "C" fn gruttisol_exp2(x: f64) -> f64
    ensures { result ≡ exp2_of x }
{
    exports::numeric_calls::gruttisol_exp2(x)
}

#[unsafe(no_mangle)]
pub extern "C" fn gruttisol_pow3000(r: f64) -> f64
    ensures { result ≡ pow3000_of r }
{
    exports::numeric_calls::gruttisol_pow3000(r)
}

#[unsafe(no_mangle)]
pub extern "C" fn gruttisol_sin(x: f64) -> f64
    ensures { result ≡ sin_of x }
{
    exports::numeric_calls::gruttisol_sin(x)
}

#[unsafe(no_mangle)]
pub extern "C" fn gruttisol_cos(x: f64) -> f64
    ensures { result ≡ cos_of x }
{
    exports::numeric_calls::gruttisol_cos(x)
}
