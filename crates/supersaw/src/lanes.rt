// A block's ticks: the controls stand still, so that only the phases move. Each line of a tick's loop is done for all eight oscillators, the
// sub oscillator last, and a tick where none comes near its step leaves out what only a step needs: that is four times as fast.
ghost use Rattle.std.specs.Prelude.{◌≡◌, ℕ, true, ◌<◌, ◌*◌, length};
ghost use Rattle.std.specs.Float.Ieee.{lt};
ghost use Rattle.numeric.specs.Basic.{fabs_of, clamp_of};
ghost use Rattle.laws.specs.Float.{zer, one};
ghost use Rattle.laws.specs.Lists.{tab};
ghost use Rattle.common.specs.Tests.{rate_ok};
ghost use Rattle.answer.specs.Mark.{all_numbers};
ghost use Rattle.answer.specs.Block.{after_ticks, joined, mark_at, frame_at};
ghost use Rattle.supersaw.specs.Consts.{n_ports};
ghost use Rattle.supersaw.specs.Voices.{at};
ghost use Rattle.supersaw.specs.Supersaw.{controls_of};
ghost use Rattle.supersaw.specs.Shortcuts.{lanes_of, incs_of, saws_of, ramps_of, sums_of, wraps_of, lanes_finite, steady_of, lanes_steady};
ghost use Rattle.supersaw.specs.Shortcuts.{mix_to, blend_of, moved_of, stepped_of, ramped_of, quiet_of, held_told, held_next};

use super::{PORTS, Supersaw, SupersawControls, saw};
use answer::{Ticked, Volts};
use common::{Hertz, Turns};

// What stands still while the controls do: the frequency, what each phase grows by in a tick, the mix and whether no control is NaN. Of a
// frequency above 0 no phase goes back.
#[derive(Clone, Copy)]
pub struct Setting {
    pub base_freq: Hertz,
    pub dt: [f64; 8],
    pub mix: f64,
    pub numbers: bool,
    ghost forward: { lt zer base_freq.0 ≡ true → (j : ℕ) → j < 8 → fabs_of (at dt j) ≡ at dt j },
}

// The eight phases.
#[tactic(auto, unfolding(crate::specs::Shortcuts::lanes_of, laws::specs::Lists::tab))]
pub fn lanes(phases: [f64; 7], sub_phase: Turns) -> [f64; 8]
    ensures eight { result ≡ lanes_of phases sub_phase }
    ensures seven { length phases ≡ 7 }
{
    let [a, b, c, d, e, f, g] = phases;
    [a, b, c, d, e, f, g, sub_phase.0]
}

// And the seven of the voices back from them.
#[tactic(auto, unfolding(laws::specs::Lists::tab))]
pub fn voices(t: [f64; 8]) -> [f64; 7]
    ensures { result ≡ tab (at t) 7 }
{
    let [a, b, c, d, e, f, g, _] = t;
    [a, b, c, d, e, f, g]
}

// Kept: `saws`, `sums` and `all_steady` take the phases, which move, beside the increments, which stand still in a Setting.
fn saws(t: [f64; 8], dt: [f64; 8]) -> [f64; 8]
    ensures { result ≡ saws_of t dt }
{
    std::array::from_fn(|i| saw(Turns(t[i]), Turns(dt[i])))
}

// The saws where no step is near.
fn ramps(t: [f64; 8]) -> [f64; 8]
    ensures { result ≡ ramps_of t }
{
    std::array::from_fn(|i| 2.0 * t[i] - 1.0 - 0.0)
}

fn sums(t: [f64; 8], dt: [f64; 8]) -> [f64; 8]
    ensures { result ≡ sums_of t dt }
{
    std::array::from_fn(|i| t[i] + dt[i])
}

fn wraps(x: [f64; 8]) -> [f64; 8]
    ensures { result ≡ wraps_of x }
{
    std::array::from_fn(|i| common::wrap_phase(Turns(x[i])).phase.0)
}

fn all_finite(x: [f64; 8]) -> bool
    ensures { result ≡ lanes_finite x }
{
    x.iter().all(|x| numeric::is_finite(*x))
}

// More than an increment above its step, and more than one below the next.
fn steady(t: Turns, dt: Turns) -> bool
    ensures { result ≡ steady_of t.0 dt.0 }
{
    dt.0 < t.0 && t.0 + dt.0 < 1.0
}

fn all_steady(t: [f64; 8], dt: [f64; 8]) -> bool
    ensures { result ≡ lanes_steady t dt }
{
    (0..8).all(|i| steady(Turns(t[i]), Turns(dt[i])))
}

// The sum of MIX_LEVELS, as a tick's loop rounds it.
const TOTAL_MIX: f64 = 5.2;

// The seven voices at their levels.
#[tactic(auto, unfolding(crate::specs::Shortcuts::mix_to))]
fn mixed(s: [f64; 8]) -> f64
    ensures { result ≡ mix_to s 7 }
{
    let mut sum = 0.0;
    for (i, level) in Supersaw::MIX_LEVELS.iter().enumerate() {
        sum += s[i] * *level;
    }
    sum
}

// From the center voice to all seven.
#[tactic(auto, unfolding(crate::specs::Shortcuts::blend_of))]
fn blend(s: [f64; 8], mix: f64) -> f64
    ensures { result ≡ blend_of s mix }
{
    let normalized = mixed(s) / TOTAL_MIX;
    s[3] * (1.0 - mix) + normalized * mix
}

// What each phase grows by in a tick.
// Kept: a frequency and a rate, here and in `new`, as common::increment takes them.
#[tactic(auto, unfolding(crate::specs::Shortcuts::incs_of, crate::specs::Voices::dt_of, laws::specs::Lists::tab))]
fn increments(detune: f64, base_freq: Hertz, sample_rate: Hertz) -> [f64; 8]
    ensures { result ≡ incs_of detune base_freq sample_rate }
{
    let sub_dt = Supersaw::sub_increment(base_freq, sample_rate);
    std::array::from_fn(|i| {
        if i < 7 {
            common::increment(Supersaw::detuned(i, detune, base_freq), sample_rate).0
        } else {
            sub_dt.0
        }
    })
}

// A tick from its outputs, whether each phase plus its increment was finite, whether no control is NaN, and the phases after it.
#[tactic(auto, unfolding(crate::specs::Shortcuts::moved_of))]
fn answered(out: f64, sub: f64, finite: bool, numbers: bool, phases: [f64; 8]) -> Ticked<[f64; 8]>
    ensures { result ≡ moved_of out sub finite numbers phases }
{
    Ticked {
        answer: answer::mark(Volts::of([out, sub]), false, true, finite, numbers),
        state: phases,
    }
}

impl Setting {
    pub fn new(c: SupersawControls, base_freq: Hertz, sample_rate: Hertz) -> Self
        requires { rate_ok sample_rate ≡ true }
        ensures base { result.base_freq ≡ base_freq }
        ensures step { result.dt ≡ incs_of (clamp_of c.detune zer one) base_freq sample_rate }
        ensures mix { result.mix ≡ clamp_of c.mix zer one }
        ensures told { result.numbers ≡ all_numbers (controls_of c) }
    {
        Setting {
            base_freq,
            dt: increments(numeric::clamp(c.detune, 0.0, 1.0), base_freq, sample_rate),
            mix: numeric::clamp(c.mix, 0.0, 1.0),
            numbers: c.are_numbers(),
        }
    }

    // Whether no oscillator comes near its step.
    #[tactic(auto, unfolding(crate::specs::Shortcuts::quiet_of))]
    fn quiet(&self, t: [f64; 8]) -> bool
        ensures { result ≡ quiet_of self.now.base_freq t self.now.dt }
    {
        self.base_freq.0 > 0.0 && all_steady(t, self.dt)
    }

    // A quiet tick: no residual, and no wrap.
    #[tactic(auto, unfolding(crate::specs::Shortcuts::ramped_of))]
    fn ramped(&self, t: [f64; 8]) -> Ticked<[f64; 8]>
        ensures { result ≡ ramped_of t self.now.dt self.now.mix self.now.numbers }
    {
        let s = ramps(t);
        answered(
            blend(s, self.mix),
            s[7],
            true,
            self.numbers,
            sums(t, self.dt),
        )
    }

    // Any accepted tick.
    #[tactic(auto, unfolding(crate::specs::Shortcuts::stepped_of))]
    fn stepped(&self, t: [f64; 8]) -> Ticked<[f64; 8]>
        ensures { result ≡ stepped_of t self.now.dt self.now.mix self.now.numbers }
    {
        let s = saws(t, self.dt);
        let next = sums(t, self.dt);
        answered(
            blend(s, self.mix),
            s[7],
            all_finite(next),
            self.numbers,
            wraps(next),
        )
    }

    // The same tick, by the shorter way where it is quiet.
    fn turn(&self, t: [f64; 8]) -> Ticked<[f64; 8]>
        ensures { result ≡ stepped_of t self.now.dt self.now.mix self.now.numbers }
    {
        if self.quiet(t) {
            self.ramped(t)
        } else {
            self.stepped(t)
        }
    }

    // Ticks in which the memo holds: only the phases move.
    // Kept: samples and marks apart, as in `block`, whose clause speaks of each and may not change.
    pub fn glide(&self, first: [f64; 8], samples: &mut [f64], marks: &mut [u32]) -> [f64; 8]
        requires { length samples.old ≡ n_ports * length marks.old }
        ensures value { result ≡ after_ticks (held_next self.now.dt self.now.mix self.now.numbers) (length marks.old) first }
        ensures samples_after { samples.new
            ≡ joined (frame_at n_ports (held_told self.now.dt self.now.mix self.now.numbers) (held_next self.now.dt self.now.mix self.now.numbers) first)
            (length marks.old) }
        ensures marks_after { marks.new
            ≡ tab (mark_at (held_told self.now.dt self.now.mix self.now.numbers) (held_next self.now.dt self.now.mix self.now.numbers) first)
            (length marks.old) }
    {
        let mut t = first;
        // Kept: `put` is told the tick by its index, for nothing is said of what the samples end as after chunks_exact_mut or as_chunks_mut.
        for i in 0..marks.len() {
            let moved = self.turn(t);
            answer::put(moved.answer, PORTS, i, &mut *samples, &mut *marks);
            t = moved.state;
        }
        t
    }
}
