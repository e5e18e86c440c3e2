// The Supersaw of oscillators.rs, in its order: seven detuned saws, and a sub oscillator an octave below their center.
// Its outputs: p10 out, p11 sub.
// A tick takes one voice after another, as the Rust does; lanes.rt has the faster way of a block.
#![tactic(auto)]

ghost use Rattle.std.specs.Prelude.{◌≡◌, ◌<◌, ◌*◌, length};
ghost use Rattle.laws.specs.Lists.{tab};
ghost use Rattle.answer.specs.Mark.{all_numbers};
ghost use Rattle.answer.specs.Block.{after_ticks, joined, block_said, mark_at, frame_at};
ghost use Rattle.answer.specs.Calls.{making, changing};
ghost use Rattle.common.specs.Refusal.{refused_number};
ghost use Rattle.supersaw.specs.Consts.{n_ports};
ghost use Rattle.supersaw.specs.Voices.{freq_of, saw_of, sub_dt_of};
ghost use Rattle.supersaw.specs.Supersaw.{start_phases, phases_ok, controls_of, supersaw_refusal_of, supersaw_rate_refusal_of, supersaw_new_of};
ghost use Rattle.supersaw.specs.Supersaw.{supersaw_sound_of, supersaw_tick_of, supersaw_told_of, supersaw_next_of, supersaw_block_of, supersaw_reset_of};
ghost use Rattle.supersaw.specs.Supersaw.{supersaw_set_sample_rate_of};

mod lanes;

use answer::{Made, Played, Tally, Ticked, Volts};
use common::{Hertz, Memo, Refusal, Turns, VoltsPerOctave};
use lanes::{Setting, lanes, voices};

#[derive(Clone, Copy)]
pub struct Supersaw {
    pub phases: [f64; 7],
    pub sub_phase: Turns,
    pub sample_rate: Hertz,
    pub freq_memo: Memo<u64, Hertz>,
}

// The inputs, in port order.
#[derive(Clone, Copy)]
pub struct SupersawControls {
    pub voct: VoltsPerOctave,
    pub detune: f64,
    pub mix: f64,
}

// How many outputs there are.
const PORTS: usize = 2;

// Whether each of the seven is a phase.
fn phases_ok(phases: [f64; 7]) -> bool
    ensures { result ≡ phases_ok phases }
{
    phases.iter().all(|phase| common::phase_ok(Turns(*phase)))
}

// A band-limited saw.
#[tactic(auto, unfolding(crate::specs::Voices::saw_of))]
fn saw(t: Turns, dt: Turns) -> f64
    ensures { result ≡ saw_of t.0 dt.0 }
{
    2.0 * t.0 - 1.0 - common::polyblep(t, dt)
}

impl SupersawControls {
    // Whether no control is NaN.
    fn are_numbers(self) -> bool
        ensures { result ≡ all_numbers (controls_of self) }
    {
        answer::numbers([self.voct.0, self.detune, self.mix])
    }
}

impl Supersaw {
    // Kept: two constant arrays of the type, as the Rust has them; the scope names this form.

    // Detune amounts of the seven voices: the center and three pairs.
    const DETUNE_RATIOS: [f64; 7] = [
        -0.11002313,
        -0.06288439,
        -0.01952356,
        0.0,
        0.01991221,
        0.06216538,
        0.10745242,
    ];

    // How loud each voice is.
    const MIX_LEVELS: [f64; 7] = [0.5, 0.7, 0.9, 1.0, 0.9, 0.7, 0.5];

    // Voice i starts at i/7.
    #[tactic(auto, unfolding(crate::specs::Supersaw::start_phases, laws::specs::Lists::tab))]
    fn start() -> [f64; 7]
        ensures { result ≡ start_phases }
    {
        std::array::from_fn(|i| i as f64 / 7.0)
    }

    // What refuses this state: its rate, then one of its phases.
    #[tactic(auto, unfolding(crate::specs::Supersaw::supersaw_refusal_of, common::specs::Refusal::refused_number, common::specs::Refusal::number_of))]
    fn refusal(self) -> Result<(), Refusal>
        ensures { refused_number result ≡ supersaw_refusal_of self }
    {
        if !common::rate_ok(self.sample_rate) {
            Err(Refusal::Rate)
        } else if phases_ok(self.phases) && common::phase_ok(self.sub_phase) {
            Ok(())
        } else {
            Err(Refusal::State)
        }
    }

    pub fn new(sample_rate: Hertz) -> Made<Supersaw>
        ensures { making result ≡ supersaw_new_of sample_rate }
    {
        let state = Supersaw {
            phases: Self::start(),
            sub_phase: Turns(0.0),
            sample_rate,
            freq_memo: Memo::new(0, Hertz(0.0)),
        };
        if common::rate_ok(sample_rate) {
            Made {
                outcome: Ok(()),
                state,
            }
        } else {
            Made {
                outcome: Err(Refusal::Rate),
                state,
            }
        }
    }

    // The frequency of voice i.
    #[tactic(auto, unfolding(crate::specs::Voices::freq_of))]
    fn detuned(i: usize, detune: f64, base_freq: Hertz) -> Hertz
        requires { i < 7 }
        ensures { result ≡ freq_of i detune base_freq }
    {
        let detune_amount = Self::DETUNE_RATIOS[i] * detune;
        Hertz(base_freq.0 * (1.0 + detune_amount))
    }

    // What the sub oscillator's phase grows by in a tick: half of the center's, as the Rust rounds it.
    // Kept: a frequency and a rate, as common::increment takes them.
    #[tactic(auto, unfolding(crate::specs::Voices::sub_dt_of))]
    fn sub_increment(base_freq: Hertz, sample_rate: Hertz) -> Turns
        ensures { result ≡ sub_dt_of base_freq sample_rate }
    {
        common::increment(base_freq, Hertz(2.0 * sample_rate.0))
    }

    // An accepted tick: each voice in its turn, then the sub oscillator.
    fn sound(self, c: SupersawControls) -> Ticked<Supersaw>
        ensures { result ≡ supersaw_sound_of self c }
    {
        let detune = numeric::clamp(c.detune, 0.0, 1.0);
        let mix = numeric::clamp(c.mix, 0.0, 1.0);
        let freq_memo = self.freq_memo.voct_to_hz(c.voct);
        let base_freq = freq_memo.val;
        let mut phases = self.phases;
        let mut sum = 0.0;
        let mut total_mix = 0.0;
        let mut center_saw = 0.0;
        let mut finite = true;
        for i in 0..7 {
            let freq = Self::detuned(i, detune, base_freq);
            let dt = common::increment(freq, self.sample_rate);
            let phase = Turns(phases[i]);
            let saw = saw(phase, dt);
            if i == 3 {
                center_saw = saw;
            }
            sum += saw * Self::MIX_LEVELS[i];
            total_mix += Self::MIX_LEVELS[i];
            let next = Turns(phase.0 + dt.0);
            finite &= numeric::is_finite(next.0);
            phases[i] = common::wrap_of_several(next).phase.0;
        }
        let normalized = sum / total_mix;
        let output = center_saw * (1.0 - mix) + normalized * mix;
        let sub_dt = Self::sub_increment(base_freq, self.sample_rate);
        let sub = saw(self.sub_phase, sub_dt);
        let sub_next = Turns(self.sub_phase.0 + sub_dt.0);
        finite &= numeric::is_finite(sub_next.0);
        Ticked {
            answer: answer::mark(
                Volts::of([output, sub]),
                false,
                true,
                finite,
                c.are_numbers(),
            ),
            state: Supersaw {
                phases,
                sub_phase: common::wrap_of_several(sub_next).phase,
                freq_memo,
                ..self
            },
        }
    }

    pub fn tick(self, c: SupersawControls) -> Ticked<Supersaw>
        ensures { result ≡ supersaw_tick_of self c }
    {
        match self.refusal() {
            Ok(()) => self.sound(c),
            Err(refused) => Ticked::refused(self, refused),
        }
    }

    // Kept: `run` and `block` take samples and marks apart: the public `block` may not change, whose clause, and Settled.block, speak of each by itself.

    // The ticks of a block: the memo holds from the first on. The controls are asked once.
    fn run(self, c: SupersawControls, samples: &mut [f64], marks: &mut [u32]) -> Self
        requires { (supersaw_refusal_of self ≡ 0) × (0 < length marks.old) × (length samples.old ≡ n_ports * length marks.old) }
        ensures value { result ≡ after_ticks (supersaw_next_of c) (length marks.old) self }
        ensures samples_after { samples.new
            ≡ joined (frame_at n_ports (supersaw_told_of c) (supersaw_next_of c) self) (length marks.old) }
        ensures marks_after { marks.new ≡ tab (mark_at (supersaw_told_of c) (supersaw_next_of c) self) (length marks.old) }
    {
        let recalled = self.freq_memo.voct_to_hz(c.voct);
        let setting = Setting::new(c, recalled.val, self.sample_rate);
        let last = setting.glide(lanes(self.phases, self.sub_phase), samples, marks);
        Supersaw {
            phases: voices(last),
            sub_phase: Turns(last[7]),
            freq_memo: recalled,
            ..self
        }
    }

    // As many ticks with these controls as there are marks. Their samples come one tick after another.
    pub fn block(
        self,
        c: SupersawControls,
        tally: Tally,
        samples: &mut [f64],
        marks: &mut [u32],
    ) -> Result<Played<Supersaw>, Refusal>
        ensures { block_said self tally result samples.new marks.new
            ≡ supersaw_block_of self c tally samples.old marks.old }
    {
        let n = marks.len();
        answer::block_outcome(PORTS, samples.len(), self.refusal(), tally, n)?;
        if n == 0 {
            return Ok(Played { state: self, tally });
        }
        let state = self.run(c, samples, marks);
        Ok(Played {
            state,
            tally: tally.take_marks(marks).unwrap_or(tally),
        })
    }

    // The memo stays.
    pub fn reset(self) -> Result<Supersaw, Refusal>
        ensures { changing self result ≡ supersaw_reset_of self }
    {
        self.refusal()?;
        Ok(Supersaw {
            phases: Self::start(),
            sub_phase: Turns(0.0), // as a new one begins
            ..self
        })
    }

    // What refuses a rate change: the new rate or the old, then the rest of the state.
    // Kept: equal to that of other oscillators but for the state, whose own `refusal` each asks; a common one would take it as an argument and be no shorter.
    fn rate_refusal(self, sample_rate: Hertz) -> Result<(), Refusal>
        ensures { refused_number result ≡ supersaw_rate_refusal_of self sample_rate }
    {
        if common::rate_ok(sample_rate) {
            self.refusal()
        } else {
            Err(Refusal::Rate)
        }
    }

    // The memo stays: no frequency depends on the rate.
    pub fn set_sample_rate(self, sample_rate: Hertz) -> Result<Supersaw, Refusal>
        ensures { changing self result ≡ supersaw_set_sample_rate_of self sample_rate }
    {
        self.rate_refusal(sample_rate)?;
        Ok(Supersaw {
            sample_rate,
            ..self
        })
    }
}
