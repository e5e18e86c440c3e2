// The helpers of common.rs for hosts: quantities go in and come out as plain numbers.
ghost use Rattle.std.specs.Prelude.{◌≡◌};
ghost use Rattle.common.specs.Phase.{wrap_of, turned_of, polyblep_of, polyblamp_of};
ghost use Rattle.common.specs.Memo.{voct_to_hz_at};

use common::{Turns, VoltsPerOctave};

#[unsafe(no_mangle)]
pub extern "C" fn gruttisol_voct_to_hz(voct: f64) -> f64
    ensures { result ≡ (voct_to_hz_at voct).0 }
{
    common::voct_to_hz(VoltsPerOctave(voct)).0
}

#[unsafe(no_mangle)]
pub extern "C" fn gruttisol_wrap_phase(x: f64) -> f64
    ensures { result ≡ wrap_of x }
{
    common::wrap_phase(Turns(x)).phase.0
}

// The other half of the same wrap's answer, in a call of its own: one number is answered.
#[unsafe(no_mangle)]
pub extern "C" fn gruttisol_wrap_turned(x: f64) -> bool
    ensures { result ≡ turned_of x }
{
    common::wrap_phase(Turns(x)).turned
}

#[unsafe(no_mangle)]
pub extern "C" fn gruttisol_polyblep(t: f64, dt: f64) -> f64
    ensures { result ≡ polyblep_of t dt }
{
    common::polyblep(Turns(t), Turns(dt))
}

#[unsafe(no_mangle)]
pub extern "C" fn gruttisol_polyblamp(t: f64, dt: f64) -> f64
    ensures { result ≡ polyblamp_of t dt }
{
    common::polyblamp(Turns(t), Turns(dt))
}
