// What `exports::common_calls` exports, with its contracts.
ghost use Rattle.std.specs.Prelude.{◌≡◌};
ghost use Rattle.common.specs.Phase.{wrap_of, turned_of, polyblep_of, polyblamp_of};
ghost use Rattle.common.specs.Memo.{voct_to_hz_at};

#[unsafe(no_mangle)]
pub extern "C" fn gruttisol_voct_to_hz(voct: f64) -> f64
    ensures { result ≡ (voct_to_hz_at voct).0 }
{
    exports::common_calls::gruttisol_voct_to_hz(voct)
}

#[unsafe(no_mangle)]
pub extern "C" fn gruttisol_wrap_phase(x: f64) -> f64
    ensures { result ≡ wrap_of x }
{
    exports::common_calls::gruttisol_wrap_phase(x)
}

#[unsafe(no_mangle)]
pub extern "C" fn gruttisol_wrap_turned(x: f64) -> bool
    ensures { result ≡ turned_of x }
{
    exports::common_calls::gruttisol_wrap_turned(x)
}

#[unsafe(no_mangle)]
pub extern "C" fn gruttisol_polyblep(t: f64, dt: f64) -> f64
    ensures { result ≡ polyblep_of t dt }
{
    exports::common_calls::gruttisol_polyblep(t, dt)
}

#[unsafe(no_mangle)]
pub extern "C" fn gruttisol_polyblamp(t: f64, dt: f64) -> f64
    ensures { result ≡ polyblamp_of t dt }
{
    exports::common_calls::gruttisol_polyblamp(t, dt)
}
