// The Vco of oscillators.rs: sine, triangle, saw and square of one phase, with hard sync and two kinds of FM.
// In an answer's volts p10 is sin, p11 tri, p12 saw and p13 sqr.
#![tactic(auto)]

ghost use Rattle.std.specs.Prelude.{◌≡◌, true, ◌<◌, ◌*◌, length};
ghost use Rattle.laws.specs.Lists.{tab};
ghost use Rattle.numeric.specs.Basic.{clamp_of};
ghost use Rattle.common.specs.Phase.{turns};
ghost use Rattle.common.specs.Memo.{recall3};
ghost use Rattle.common.specs.Refusal.{refused_number};
ghost use Rattle.common.specs.Tests.{phase_ok};
ghost use Rattle.answer.specs.Mark.{all_numbers};
ghost use Rattle.answer.specs.Block.{after_ticks, joined, block_said, mark_at, frame_at};
ghost use Rattle.answer.specs.Calls.{making, changing};
ghost use Rattle.vco.specs.Consts.{n_ports, pw_low, pw_high};
ghost use Rattle.vco.specs.Waves.{sine_of, saw_of, level_of, sqr_of, corner_half_of, tri_of, stepped_of};
ghost use Rattle.vco.specs.Vco.{vco_refusal_of, vco_rate_refusal_of, vco_new_of, frequency_of, controls_of, vco_sound_of};
ghost use Rattle.vco.specs.Vco.{vco_tick_of, vco_told_of, vco_next_of, vco_block_of, vco_reset_of, vco_set_sample_rate_of};

mod moment;

use answer::{Made, Played, Tally, Ticked};
use common::{EdgeDetector, Hertz, Memo, Refusal, Turns, VoltsPerOctave};
use moment::{Moment, Setting};

#[derive(Clone, Copy)]
pub struct Vco {
    pub phase: Turns,
    pub sample_rate: Hertz,
    pub sync_edge: EdgeDetector,
    pub freq_memo: Memo<(u64, u64, u64), Hertz>,
}

// A volt of fm is an octave; 5 V of fm_lin are the pitch's whole frequency.
#[derive(Clone, Copy)]
pub struct VcoControls {
    pub voct: VoltsPerOctave,
    pub fm: VoltsPerOctave,
    pub pw: f64,
    pub sync: f64,
    pub fm_lin: f64,
}

// How many outputs there are.
const PORTS: usize = 4;

// The memo's closure. Linear FM may take the frequency below 0.
fn frequency(voct: VoltsPerOctave, fm: VoltsPerOctave, fm_lin: f64) -> Hertz
    ensures { result ≡ frequency_of voct.0 fm.0 fm_lin }
{
    let base_freq = common::voct_to_hz(voct);
    let freq = Hertz(base_freq.0 * numeric::exp2(fm.0));
    Hertz(freq.0 + fm_lin / 5.0 * base_freq.0)
}

// The Rust's get_or_compute([voct, fm, fm_lin], ..); its answer is the new memo's val.
#[tactic(auto, unfolding(common::specs::Memo::recall))]
fn tuned(
    memo: Memo<(u64, u64, u64), Hertz>,
    voct: VoltsPerOctave,
    fm: VoltsPerOctave,
    fm_lin: f64,
) -> Memo<(u64, u64, u64), Hertz>
    ensures { result ≡ recall3 frequency_of memo voct.0 fm.0 fm_lin }
{
    let key = common::key3(voct.0, fm.0, fm_lin);
    if memo.hits(key) {
        memo
    } else {
        Memo::filled(key, frequency(voct, fm, fm_lin))
    }
}

// The pulse width, away from 0 and from 1. The clamp lets a NaN pass.
fn width(pw: f64) -> f64
    ensures { result ≡ clamp_of pw pw_low pw_high }
{
    numeric::clamp(pw, 0.05, 0.95)
}

#[tactic(auto, unfolding(crate::specs::Waves::sine_of))]
fn sine(want: bool, phase: Turns) -> f64
    ensures { result ≡ sine_of want phase.0 }
{
    if want {
        numeric::sin(phase.0 * numeric::TAU) * 5.0
    } else {
        0.0
    }
}

// A ramp, smoothed at the wrap.
#[tactic(auto, unfolding(crate::specs::Waves::saw_of))]
fn saw(phase: Turns, wrap: f64) -> f64
    ensures { result ≡ saw_of phase.0 wrap }
{
    2.0 * phase.0 - 1.0 - wrap
}

#[tactic(auto, unfolding(crate::specs::Waves::level_of))]
fn level(phase: Turns, pw: f64) -> f64
    ensures { result ≡ level_of phase.0 pw }
{
    if phase.0 < pw { 1.0 } else { -1.0 }
}

// A pulse, smoothed at the wrap and at its falling edge.
#[tactic(auto, unfolding(crate::specs::Waves::sqr_of))]
fn square(phase: Turns, pw: f64, wrap: f64, fall: f64) -> f64
    ensures { result ≡ sqr_of phase.0 pw wrap fall }
{
    level(phase, pw) + wrap - fall
}

// The phase seen from the triangle's upper corner.
#[tactic(auto, unfolding(crate::specs::Waves::corner_half_of))]
fn corner_half(phase: Turns) -> Turns
    ensures { result ≡ turns (corner_half_of phase.0) }
{
    let x = Turns(phase.0 - 0.5);
    if x.0 < 0.0 { Turns(x.0 + 1.0) } else { x }
}

// Two slopes, smoothed at both corners.
#[tactic(auto, unfolding(crate::specs::Waves::tri_of))]
fn triangle(phase: Turns, lower: f64, upper: f64) -> f64
    ensures { result ≡ tri_of phase.0 lower upper }
{
    1.0 - 4.0 * numeric::fabs(phase.0 - 0.5) + lower - upper
}

// x smoothed once more where a sync edge made it step.
#[tactic(auto, unfolding(crate::specs::Waves::stepped_of))]
fn stepped(at: Option<f64>, x: f64, step: f64, dt_abs: Turns) -> f64
    ensures { result ≡ stepped_of at x step dt_abs.0 }
{
    match at {
        Some(frac) => {
            let equiv = Turns((1.0 - frac) * dt_abs.0);
            x + step / 2.0 * common::polyblep(equiv, dt_abs)
        }
        None => x,
    }
}

impl VcoControls {
    // Whether no control is NaN.
    fn are_numbers(self) -> bool
        ensures { result ≡ all_numbers (controls_of self) }
    {
        answer::numbers([self.voct.0, self.fm.0, self.pw, self.sync, self.fm_lin])
    }
}

// Kept: `sound`, `tick`, `run` and `block` take controls and mask apart, and `run` and `block` samples and marks: the public `tick` and `block` may not change,
// whose clauses, and `tick` and `block` of Settled, speak of each by itself.
impl Vco {
    // The bits of `wanted`, in port order.
    const WANT_SIN: u32 = 1 << 0;

    const WANT_TRI: u32 = 1 << 1;

    const WANT_SAW: u32 = 1 << 2;

    const WANT_SQR: u32 = 1 << 3;

    // Of a rate and of the threshold that its gate goes by.
    pub fn new(sample_rate: Hertz, threshold: f64) -> Made<Vco>
        ensures { making result ≡ vco_new_of sample_rate threshold }
    {
        let state = Vco {
            phase: Turns(0.0),
            sample_rate,
            sync_edge: EdgeDetector::new(threshold),
            freq_memo: Memo::new((0, 0, 0), Hertz(0.0)),
        };
        Made {
            outcome: state.refusal(),
            state,
        }
    }

    // What refuses this state: its rate, then its phase or its gate's threshold.
    #[tactic(auto, unfolding(crate::specs::Vco::vco_refusal_of))]
    fn refusal(self) -> Result<(), Refusal>
        ensures { refused_number result ≡ vco_refusal_of self }
    {
        common::gated_refusal(self.sample_rate, self.phase, self.sync_edge.threshold)
    }

    // An accepted tick.
    fn sound(self, c: VcoControls, wanted: u32) -> Ticked<Vco>
        requires { phase_ok self.phase ≡ true }
        ensures { result ≡ vco_sound_of self c wanted }
    {
        let freq_memo = tuned(self.freq_memo, c.voct, c.fm, c.fm_lin);
        let dt = common::increment(freq_memo.val, self.sample_rate);
        let crossed = self.sync_edge.rising_frac(c.sync);
        let now = Moment::new(self.phase, crossed.at);
        Ticked {
            answer: Setting::new(c, dt, wanted).heard(now),
            state: Vco {
                phase: now.next(dt).p_old,
                sync_edge: crossed.edge,
                freq_memo,
                ..self
            },
        }
    }

    pub fn tick(self, c: VcoControls, wanted: u32) -> Ticked<Vco>
        ensures { result ≡ vco_tick_of self c wanted }
    {
        match self.refusal() {
            Ok(()) => self.sound(c, wanted),
            Err(refused) => Ticked::refused(self, refused),
        }
    }

    // The ticks of a block: what memo, edge and controls say, also whether one is NaN, is worked out once.
    fn run(self, c: VcoControls, wanted: u32, samples: &mut [f64], marks: &mut [u32]) -> Self
        requires { (vco_refusal_of self ≡ 0) × (0 < length marks.old) × (length samples.old ≡ n_ports * length marks.old) }
        ensures value { result ≡ after_ticks (vco_next_of c wanted) (length marks.old) self }
        ensures samples_after { samples.new
            ≡ joined (frame_at n_ports (vco_told_of c wanted) (vco_next_of c wanted) self) (length marks.old) }
        ensures marks_after { marks.new ≡ tab (mark_at (vco_told_of c wanted) (vco_next_of c wanted) self) (length marks.old) }
    {
        let freq_memo = tuned(self.freq_memo, c.voct, c.fm, c.fm_lin);
        let dt = common::increment(freq_memo.val, self.sample_rate);
        let crossed = self.sync_edge.rising_frac(c.sync);
        let first = Moment::new(self.phase, crossed.at);
        Vco {
            phase: Setting::new(c, dt, wanted).glide(first, samples, marks),
            sync_edge: crossed.edge,
            freq_memo,
            ..self
        }
    }

    // As many ticks with these controls as there are marks. Their samples come one tick after another.
    pub fn block(
        self,
        c: VcoControls,
        wanted: u32,
        tally: Tally,
        samples: &mut [f64],
        marks: &mut [u32],
    ) -> Result<Played<Vco>, Refusal>
        ensures { block_said self tally result samples.new marks.new
            ≡ vco_block_of self c wanted tally samples.old marks.old }
    {
        let n = marks.len();
        answer::block_outcome(PORTS, samples.len(), self.refusal(), tally, n)?;
        if n == 0 {
            return Ok(Played { state: self, tally });
        }
        let state = self.run(c, wanted, samples, marks);
        Ok(Played {
            state,
            tally: tally.take_marks(marks).unwrap_or(tally),
        })
    }

    // The memo is kept.
    pub fn reset(self) -> Result<Vco, Refusal>
        ensures { changing self result ≡ vco_reset_of self }
    {
        self.refusal()?;
        Ok(Vco {
            phase: Turns(0.0),
            sync_edge: self.sync_edge.reset(),
            ..self
        })
    }

    // What refuses a rate change: the new rate or the old, then the rest of the state.
    // Kept: equal to that of other oscillators but for the state, whose own `refusal` each asks; a common one would take it as an argument and be no shorter.
    fn rate_refusal(self, sample_rate: Hertz) -> Result<(), Refusal>
        ensures { refused_number result ≡ vco_rate_refusal_of self sample_rate }
    {
        if common::rate_ok(sample_rate) {
            self.refusal()
        } else {
            Err(Refusal::Rate)
        }
    }

    // The memo is kept: no frequency depends on the rate.
    pub fn set_sample_rate(self, sample_rate: Hertz) -> Result<Vco, Refusal>
        ensures { changing self result ≡ vco_set_sample_rate_of self sample_rate }
    {
        self.rate_refusal(sample_rate)?;
        Ok(Vco {
            sample_rate,
            ..self
        })
    }
}
