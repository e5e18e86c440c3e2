// The Lfo of oscillators.rs, in its order: a slow oscillator with rate, depth and a reset trigger.
// Its outputs: p10 sin, p11 tri, p12 saw, p13 sqr, p14 sin_uni; and p15 eoc, the end of a cycle, which is ours.
#![tactic(auto)]

ghost use Rattle.std.specs.Prelude.{◌≡◌, true, false, ◌<◌, ◌*◌, length};
ghost use Rattle.std.specs.Float.{binary64};
ghost use Rattle.std.specs.Float.Ieee.{div};
ghost use Rattle.laws.specs.Float.{is_fin};
ghost use Rattle.laws.specs.Lists.{tab};
ghost use Rattle.common.specs.Memo.{recall1};
ghost use Rattle.common.specs.Tests.{phase_ok};
ghost use Rattle.answer.specs.Mark.{all_numbers, mark_of};
ghost use Rattle.common.specs.Refusal.{refused_number};
ghost use Rattle.answer.specs.Block.{after_ticks, joined, block_said, mark_at, frame_at};
ghost use Rattle.answer.specs.Calls.{making, changing};
ghost use Rattle.lfo.specs.Consts.{n_ports, ten};
ghost use Rattle.lfo.specs.Waves.{rate_to_hz, shared_sine, sin_wave, tri_wave, saw_wave, sqr_wave, sin_uni_wave, eoc_wave};
ghost use Rattle.lfo.specs.Small.{is_small};
ghost use Rattle.lfo.specs.Shortcuts.{held_told, held_next};
ghost use Rattle.lfo.specs.Lfo.{controls_of, lfo_refusal_of, lfo_rate_refusal_of, lfo_new_of, lfo_outputs_of, lfo_sound_of, lfo_tick_of, lfo_told_of};
ghost use Rattle.lfo.specs.Lfo.{lfo_next_of, lfo_block_of, lfo_reset_of, lfo_set_sample_rate_of};

use answer::{Answer, Made, Played, Tally, Ticked, Volts};
use common::{EdgeDetector, Hertz, Memo, Refusal, Turns};

#[derive(Clone, Copy)]
pub struct Lfo {
    pub phase: Turns,
    pub sample_rate: Hertz,
    pub reset_edge: EdgeDetector,
    pub freq_memo: Memo<u64, Hertz>,
}

// The inputs, in port order.
#[derive(Clone, Copy)]
pub struct LfoControls {
    pub rate: f64,
    pub depth: f64,
    pub reset: f64,
}

// What stands still while the controls do: the outputs that are wanted, the depth, of 10 V the whole one, and whether it is small, and whether no control
// is NaN.
#[derive(Clone, Copy)]
struct Setting {
    wanted: u32,
    depth: f64,
    small: bool,
    numbers: bool,
    ghost told: { small ≡ is_small depth },
}

// How many outputs there are.
const PORTS: usize = 6;

// A rate from 0 to 1 as 0.01 Hz to 30 Hz. The clamp lets a NaN pass.
fn rate_to_hz(rate: f64) -> Hertz
    ensures { result ≡ rate_to_hz rate }
{
    Hertz(0.01 * numeric::pow3000(numeric::clamp(rate, 0.0, 1.0)))
}

// The Rust's get_or_compute([rate], ..); its answer is the new memo's val.
// Kept: alike are `Memo::voct_to_hz` and `tuned` of the Vco, which differ in what is computed, and no public function takes a closure: see `Memo`.
#[tactic(auto, unfolding(common::specs::Memo::recall))]
fn recall(memo: Memo<u64, Hertz>, rate: f64) -> Memo<u64, Hertz>
    ensures { result ≡ recall1 rate_to_hz memo rate }
{
    let key = numeric::bits(rate);
    if memo.hits(key) {
        memo
    } else {
        Memo::filled(key, rate_to_hz(rate))
    }
}

// Kept: `tri`, `saw` and `sqr` take a phase and a scale, as their definitions do: a struct of the two would be made for each.
fn sin(want: bool, sine: f64, scale: f64) -> f64
    ensures { result ≡ sin_wave want sine scale }
{
    if want { sine * scale } else { 0.0 }
}

#[tactic(auto, unfolding(crate::specs::Waves::tri_wave))]
fn tri(want: bool, phase: Turns, scale: f64) -> f64
    ensures { result ≡ tri_wave want phase.0 scale }
{
    if want {
        (1.0 - 4.0 * numeric::fabs(phase.0 - 0.5)) * scale
    } else {
        0.0
    }
}

#[tactic(auto, unfolding(crate::specs::Waves::saw_wave))]
fn saw(want: bool, phase: Turns, scale: f64) -> f64
    ensures { result ≡ saw_wave want phase.0 scale }
{
    if want {
        (2.0 * phase.0 - 1.0) * scale
    } else {
        0.0
    }
}

#[tactic(auto, unfolding(crate::specs::Waves::sqr_wave))]
fn sqr(want: bool, phase: Turns, scale: f64) -> f64
    ensures { result ≡ sqr_wave want phase.0 scale }
{
    if want {
        if phase.0 < 0.5 { scale } else { -scale }
    } else {
        0.0
    }
}

#[tactic(auto, unfolding(crate::specs::Waves::sin_uni_wave))]
fn sin_uni(want: bool, sine: f64, depth: f64) -> f64
    ensures { result ≡ sin_uni_wave want sine depth }
{
    if want {
        (sine * 0.5 + 0.5) * depth * 10.0
    } else {
        0.0
    }
}

// 5 V in the tick at whose end a whole turn is passed, whatever the depth.
#[tactic(auto, unfolding(crate::specs::Waves::eoc_wave))]
fn eoc(want: bool, turned: bool) -> f64
    ensures { result ≡ eoc_wave want turned }
{
    if want && turned { 5.0 } else { 0.0 }
}

// At this depth no output can overflow.
fn is_small(depth: f64) -> bool
    ensures { result ≡ is_small depth }
{
    depth <= 1073741824.0 && depth >= -1073741824.0
}

impl LfoControls {
    // Whether no control is NaN.
    fn are_numbers(self) -> bool
        ensures { result ≡ all_numbers (controls_of self) }
    {
        answer::numbers([self.rate, self.depth, self.reset])
    }
}

impl Setting {
    // Kept: controls and mask apart, as the public `tick` and `block` take them, which may not change, nor Settled.tick.
    fn new(c: LfoControls, wanted: u32) -> Self
        ensures mask { result.wanted ≡ wanted }
        ensures depth { result.depth ≡ div binary64 c.depth ten }
        ensures numbers { result.numbers ≡ all_numbers (controls_of c) }
    {
        let depth = c.depth / 10.0;
        Setting {
            wanted,
            depth,
            small: is_small(depth),
            numbers: c.are_numbers(),
        }
    }

    // The sine that sin and sin_uni share: the Rust computes it for each of them.
    fn shared_sine(self, phase: Turns) -> f64
        ensures { result ≡ shared_sine self.wanted phase.0 }
    {
        let shared = self.wanted & Lfo::WANT_SIN != 0 || self.wanted & Lfo::WANT_SIN_UNI != 0;
        if shared {
            numeric::sin(phase.0 * numeric::TAU)
        } else {
            0.0
        }
    }

    // The outputs, each where it is wanted. `turned`: the tick passes a whole turn.
    fn outputs(self, phase: Turns, turned: bool) -> Volts
        ensures { result ≡ lfo_outputs_of self.wanted phase.0 self.depth turned }
    {
        let sine = self.shared_sine(phase);
        let scale = 5.0 * self.depth;
        Volts::of([
            sin(self.wanted & Lfo::WANT_SIN != 0, sine, scale),
            tri(self.wanted & Lfo::WANT_TRI != 0, phase, scale),
            saw(self.wanted & Lfo::WANT_SAW != 0, phase, scale),
            sqr(self.wanted & Lfo::WANT_SQR != 0, phase, scale),
            sin_uni(self.wanted & Lfo::WANT_SIN_UNI != 0, sine, self.depth),
            eoc(self.wanted & Lfo::WANT_EOC != 0, turned),
        ])
    }

    // They with their mark; `next` is the phase before its wrap. A small depth makes no output that isn't finite, which spares the test of each.
    fn heard(self, phase: Turns, next: Turns, turned: bool) -> Answer
        requires { phase_ok phase ≡ true }
        ensures { result ≡ mark_of (lfo_outputs_of self.wanted phase.0 self.depth turned) false true (is_fin next.0) self.numbers }
    {
        let volts = self.outputs(phase, turned);
        let phases = numeric::is_finite(next.0);
        if self.small {
            answer::marked(volts, false, true, phases, self.numbers)
        } else {
            answer::mark(volts, false, true, phases, self.numbers)
        }
    }

    // Ticks in which no edge is taken and the memo holds: only the phase moves.
    // Kept: samples and marks apart, as in `block`, whose clause speaks of each and may not change.
    fn glide(self, start: Turns, step: Turns, samples: &mut [f64], marks: &mut [u32]) -> Turns
        requires { (phase_ok start ≡ true) × (length samples.old ≡ n_ports * length marks.old) }
        ensures value { result ≡ after_ticks (held_next step) (length marks.old) start }
        ensures samples_after { samples.new
            ≡ joined (frame_at n_ports (held_told self.wanted self.depth self.numbers step) (held_next step) start) (length marks.old) }
        ensures marks_after { marks.new
            ≡ tab (mark_at (held_told self.wanted self.depth self.numbers step) (held_next step) start) (length marks.old) }
    {
        let mut phase = start;
        // Kept: `put` is told the tick by its index, for nothing is said of what the samples end as after chunks_exact_mut or as_chunks_mut.
        for i in 0..marks.len() {
            let next = Turns(phase.0 + step.0);
            let wrapped = common::wrap_phase(next);
            let heard = self.heard(phase, next, wrapped.turned);
            answer::put(heard, PORTS, i, &mut *samples, &mut *marks);
            phase = wrapped.phase;
        }
        phase
    }
}

// Kept: `sound`, `tick`, `run` and `block` take controls and mask apart, and `run` and `block` samples and marks: the public `tick` and `block` may not change,
// whose clauses, and `tick` and `block` of Settled, speak of each by itself.
impl Lfo {
    // Of a rate and of the threshold that its gate goes by.
    pub fn new(sample_rate: Hertz, threshold: f64) -> Made<Lfo>
        ensures { making result ≡ lfo_new_of sample_rate threshold }
    {
        let state = Lfo {
            phase: Turns(0.0),
            sample_rate,
            reset_edge: EdgeDetector::new(threshold),
            freq_memo: Memo::new(0, Hertz(0.0)),
        };
        Made {
            outcome: state.refusal(),
            state,
        }
    }

    // Bits of `wanted`, in port order.
    const WANT_SIN: u32 = 1 << 0;

    const WANT_TRI: u32 = 1 << 1;

    const WANT_SAW: u32 = 1 << 2;

    const WANT_SQR: u32 = 1 << 3;

    const WANT_SIN_UNI: u32 = 1 << 4;

    const WANT_EOC: u32 = 1 << 5;

    // What refuses this state: its rate, then its phase or its gate's threshold.
    fn refusal(self) -> Result<(), Refusal>
        ensures { refused_number result ≡ lfo_refusal_of self }
    {
        common::gated_refusal(self.sample_rate, self.phase, self.reset_edge.threshold)
    }

    // An accepted tick: the Rust's tick_wanted.
    fn sound(self, c: LfoControls, wanted: u32) -> Ticked<Lfo>
        requires { lfo_refusal_of self ≡ 0 }
        ensures { result ≡ lfo_sound_of self c wanted }
    {
        let freq_memo = recall(self.freq_memo, c.rate);
        let risen = self.reset_edge.rising(c.reset);
        let phase = common::restart(self.phase, risen.rising);
        let by = common::increment(freq_memo.val, self.sample_rate);
        let next = Turns(phase.0 + by.0);
        let wrapped = common::wrap_phase(next);
        let turned = wrapped.turned;
        Ticked {
            answer: Setting::new(c, wanted).heard(phase, next, turned),
            state: Lfo {
                phase: wrapped.phase,
                reset_edge: risen.edge,
                freq_memo,
                ..self
            },
        }
    }

    pub fn tick(self, c: LfoControls, wanted: u32) -> Ticked<Lfo>
        ensures { result ≡ lfo_tick_of self c wanted }
    {
        match self.refusal() {
            Ok(()) => self.sound(c, wanted),
            Err(refused) => Ticked::refused(self, refused),
        }
    }

    // The ticks of a block. Only the first can take the edge, and the memo holds from then on. The controls are asked once.
    fn run(self, c: LfoControls, wanted: u32, samples: &mut [f64], marks: &mut [u32]) -> Self
        requires { (lfo_refusal_of self ≡ 0) × (0 < length marks.old) × (length samples.old ≡ n_ports * length marks.old) }
        ensures value { result ≡ after_ticks (lfo_next_of c wanted) (length marks.old) self }
        ensures samples_after { samples.new
            ≡ joined (frame_at n_ports (lfo_told_of c wanted) (lfo_next_of c wanted) self) (length marks.old) }
        ensures marks_after { marks.new ≡ tab (mark_at (lfo_told_of c wanted) (lfo_next_of c wanted) self) (length marks.old) }
    {
        let freq_memo = recall(self.freq_memo, c.rate);
        let risen = self.reset_edge.rising(c.reset);
        let start = common::restart(self.phase, risen.rising);
        let step = common::increment(freq_memo.val, self.sample_rate);
        Lfo {
            phase: Setting::new(c, wanted).glide(start, step, samples, marks),
            reset_edge: risen.edge,
            freq_memo,
            ..self
        }
    }

    // As many ticks with these controls as there are marks. Their samples come one tick after another.
    pub fn block(
        self,
        c: LfoControls,
        wanted: u32,
        tally: Tally,
        samples: &mut [f64],
        marks: &mut [u32],
    ) -> Result<Played<Lfo>, Refusal>
        ensures { block_said self tally result samples.new marks.new
            ≡ lfo_block_of self c wanted tally samples.old marks.old }
    {
        let n = marks.len();
        answer::block_outcome(PORTS, samples.len(), self.refusal(), tally, n)?;
        if n == 0 {
            return Ok(Played { state: self, tally });
        }
        let state = self.run(c, wanted, samples, marks);
        Ok(Played {
            state,
            tally: tally.take_marks(marks).unwrap_or(tally),
        })
    }

    // Phase and edge start again; the memo stays.
    pub fn reset(self) -> Result<Lfo, Refusal>
        ensures { changing self result ≡ lfo_reset_of self }
    {
        self.refusal()?;
        Ok(Lfo {
            phase: Turns(0.0),
            reset_edge: self.reset_edge.reset(),
            ..self
        })
    }

    // What refuses a rate change: the new rate or the old, then the rest of the state.
    // Kept: equal to that of other oscillators but for the state, whose own `refusal` each asks; a common one would take it as an argument and be no shorter.
    fn rate_refusal(self, sample_rate: Hertz) -> Result<(), Refusal>
        ensures { refused_number result ≡ lfo_rate_refusal_of self sample_rate }
    {
        if common::rate_ok(sample_rate) {
            self.refusal()
        } else {
            Err(Refusal::Rate)
        }
    }

    // The memo stays: no frequency depends on the rate.
    pub fn set_sample_rate(self, sample_rate: Hertz) -> Result<Lfo, Refusal>
        ensures { changing self result ≡ lfo_set_sample_rate_of self sample_rate }
    {
        self.rate_refusal(sample_rate)?;
        Ok(Lfo {
            sample_rate,
            ..self
        })
    }
}
