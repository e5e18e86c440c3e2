// The FormantOsc of oscillators.rs, in its order: a glottal pulse through five resonators tuned to a vowel.
// Its output: p10 out.
#![tactic(auto)]

ghost use Rattle.std.specs.Prelude.{◌≡◌, true, not, ◌&&◌, ◌≤◌, ◌<◌, length, get_or};
ghost use Rattle.std.specs.Float.{nan};
ghost use Rattle.std.specs.Float.Ieee.{eq};
ghost use Rattle.laws.specs.Float.{zer};
ghost use Rattle.laws.specs.Lists.{tab};
ghost use Rattle.common.specs.Memo.{recall1, voct_to_hz_at};
ghost use Rattle.common.specs.Phase.{turns};
ghost use Rattle.common.specs.Refusal.{refused_number};
ghost use Rattle.common.specs.Tests.{phase_ok};
ghost use Rattle.answer.specs.Answer.{host_number, volts_of};
ghost use Rattle.answer.specs.Mark.{all_numbers};
ghost use Rattle.answer.specs.Block.{after_ticks, joined, block_said, mark_at, frame_at};
ghost use Rattle.answer.specs.Calls.{making, changing};
ghost use Rattle.formant_osc.specs.Consts.{n_ports};
ghost use Rattle.formant_osc.specs.Coefs.{spot_of, formant_of, get_formants, coef_of, resonator_coefs};
ghost use Rattle.formant_osc.specs.Sound.{glottal_pulse, pitch_of, resonate_of, rung_of};
ghost use Rattle.formant_osc.specs.FormantOsc.{controls_of, formant_osc_refusal_of, formant_osc_rate_refusal_of, formant_osc_new_of, formant_osc_sound_of};
ghost use Rattle.formant_osc.specs.FormantOsc.{formant_osc_tick_of, formant_osc_told_of, formant_osc_next_of, formant_osc_block_of, formant_osc_reset_of};
ghost use Rattle.formant_osc.specs.FormantOsc.{freq_memo_of, coef_memo_of, formant_osc_set_sample_rate_of};
ghost use Rattle.formant_osc.specs.Shortcuts.{drive_next, pulse_at, flag, is_flagged, flag_at, stride_at, swayed, phase_at, phase_flag_at};
ghost use Rattle.formant_osc.specs.Shortcuts.{voiced_of, voiced_at, cells_at, vibrato_of};

use answer::{Answer, Made, Played, Tally, Ticked, Volts};
use common::{Hertz, Memo, Refusal, Turns, VoltsPerOctave};

// The Rust's Memo<3, [[f64; 3]; 5]>: b0/norm, a1/norm and a2/norm of each of the five resonators, one after another.
// Kept: fifteen in a row, and ten cells in a row below, since ReadBack of exports_formant_osc and Spoiled count them so.
pub type CoefMemo = Memo<(u64, u64, u64), [f64; 15]>;

// The resonators' cells stand one after another, two for each.
#[derive(Clone, Copy)]
pub struct FormantOsc {
    pub phase: Turns,
    pub vibrato_phase: Turns,
    pub resonator_state: [f64; 10],
    pub sample_rate: Hertz,
    pub freq_memo: Memo<u64, Hertz>,
    pub coef_memo: CoefMemo,
}

// The inputs, in port order.
#[derive(Clone, Copy)]
pub struct FormantOscControls {
    pub v_oct: VoltsPerOctave,
    pub vowel: f64,
    pub formant_shift: f64,
    pub vibrato: f64,
}

// The lower vowel of two, and how much of the upper.
#[derive(Clone, Copy)]
struct Spot {
    index: usize,
    frac: f64,
}

// One resonator's coefficients.
#[derive(Clone, Copy)]
struct Coef {
    b0: f64,
    a1: f64,
    a2: f64,
}

// What one resonator gives, and its cells after it.
#[derive(Clone, Copy)]
struct Resonated {
    out: f64,
    s0: f64,
    s1: f64,
}

// A pitch that swings about its middle, and how far.
#[derive(Clone, Copy)]
struct Vibrato {
    v_oct: VoltsPerOctave,
    depth: f64,
}

// What drives the resonators: all of the state that moves in a block but their cells.
#[derive(Clone, Copy)]
struct Driver {
    phase: Turns,
    vibrato_phase: Turns,
    freq_memo: Memo<u64, Hertz>,
}

// What the five give together, and their cells after it.
#[derive(Clone, Copy)]
struct Rung {
    sum: f64,
    state: [f64; 10],
}

// Formant frequencies of the five vowels.
const FORMANTS: [[f64; 5]; 5] = [
    [700.0, 1220.0, 2600.0, 3500.0, 4500.0],
    [530.0, 1840.0, 2480.0, 3500.0, 4500.0],
    [280.0, 2250.0, 2890.0, 3500.0, 4500.0],
    [500.0, 700.0, 2350.0, 3500.0, 4500.0],
    [300.0, 870.0, 2250.0, 3500.0, 4500.0],
];

// The bandwidth of each formant, and how loud it is.
// Kept: two rows side by side, as the Rust has them and the definitions `bandwidth_of` and `amplitude_of` do, and each is read in a loop of its own.
const BANDWIDTHS: [f64; 5] = [80.0, 90.0, 120.0, 150.0, 200.0];

const AMPLITUDES: [f64; 5] = [1.0, 0.5, 0.25, 0.1, 0.05];

// In hertz.
const VIBRATO_RATE: f64 = 5.5;

// Outputs.
const PORTS: usize = 1;

// Where a vowel lies among the five.
#[tactic(auto, unfolding(crate::specs::Coefs::spot_of))]
fn spot_of(vowel: f64) -> Spot
    ensures value { result ≡ spot_of vowel }
    ensures few { result.index ≤ 3 }
{
    let idx = numeric::clamp(vowel, 0.0, 1.0) * 4.0;
    let index = numeric::to_usize(idx).min(3);
    let frac = idx - std::num::nearest_usize_to_f64(index);
    Spot { index, frac }
}

impl Spot {
    // The i-th formant between two vowels.
    #[tactic(auto, unfolding(crate::specs::Coefs::formant_of))]
    fn formant(self, i: usize, shift_mult: f64) -> f64
        requires { (self.index ≤ 3) × (i < 5) }
        ensures { result ≡ formant_of self i shift_mult }
    {
        let f0 = FORMANTS[self.index][i];
        let f1 = FORMANTS[self.index + 1][i];
        (f0 * (1.0 - self.frac) + f1 * self.frac) * shift_mult
    }
}

#[tactic(auto, unfolding(crate::specs::Coefs::get_formants, laws::specs::Lists::tab))]
fn get_formants(vowel: f64, shift: f64) -> [f64; 5]
    ensures { result ≡ get_formants vowel shift }
{
    let at = spot_of(vowel);
    let shift_mult = numeric::exp2(shift / 5.0);
    std::array::from_fn(|i| at.formant(i, shift_mult))
}

// Turn i of the loop in resonator_coefs.
#[tactic(auto, unfolding(crate::specs::Coefs::coef_of))]
fn one_coef(freq: Hertz, bandwidth: f64, sample_rate: Hertz) -> Coef
    ensures { result ≡ coef_of freq.0 bandwidth sample_rate.0 }
{
    let omega = numeric::clamp(
        2.0 * numeric::PI * freq.0 / sample_rate.0,
        0.01,
        numeric::PI * 0.45,
    );
    let q = freq.0 / bandwidth;
    let alpha = numeric::sin(omega) / (2.0 * q);
    let a1 = -2.0 * numeric::cos(omega);
    let norm = 1.0 + alpha;
    Coef {
        b0: alpha / norm,
        a1: a1 / norm,
        a2: (1.0 - alpha) / norm,
    }
}

fn resonator_coefs(vowel: f64, shift: f64, sample_rate: Hertz) -> [f64; 15]
    ensures { result ≡ resonator_coefs vowel shift sample_rate.0 }
{
    let freqs = get_formants(vowel, shift);
    let mut rows = [0.0; 15];
    for i in 0..5 {
        let coef = one_coef(Hertz(freqs[i]), BANDWIDTHS[i], sample_rate);
        rows[3 * i] = coef.b0;
        rows[3 * i + 1] = coef.a1;
        rows[3 * i + 2] = coef.a2;
    }
    rows
}

// A quick rise to 0.4 of the turn, a slower fall to 0.8, then nothing.
#[tactic(auto, unfolding(crate::specs::Sound::glottal_pulse))]
fn glottal_pulse(phase: Turns) -> f64
    ensures { result ≡ glottal_pulse phase.0 }
{
    let p = phase.0;
    if p < 0.4 {
        numeric::sin(p / 0.4 * numeric::PI * 0.5)
    } else if p < 0.8 {
        numeric::cos((p - 0.4) / 0.4 * numeric::PI * 0.5)
    } else {
        0.0
    }
}

impl Vibrato {
    // Of no depth it adds a zero, which leaves every pitch that isn't one itself.
    fn is_still(self) -> bool
        ensures { result ≡ (eq self.depth zer && not (eq self.v_oct.0 zer)) }
    {
        self.depth == 0.0 && self.v_oct.0 != 0.0
    }

    // The pitch with its vibrato, at most half a semitone either way.
    #[tactic(auto, unfolding(crate::specs::Sound::pitch_of))]
    fn swung(self, phase: Turns) -> VoltsPerOctave
        ensures { result ≡ pitch_of self.v_oct self.depth phase.0 }
    {
        let vibrato = numeric::sin(phase.0 * 2.0 * numeric::PI);
        let semitones = vibrato * self.depth * 0.5;
        VoltsPerOctave(self.v_oct.0 + semitones / 12.0)
    }

    // The same, without a sine where the pitch is still.
    fn pitch(self, phase: Turns) -> VoltsPerOctave
        ensures { result ≡ pitch_of self.v_oct self.depth phase.0 }
    {
        if common::phase_ok(phase) && self.is_still() {
            self.v_oct
        } else {
            self.swung(phase)
        }
    }

    // The memo after a tick. Where the pitch stands still it holds it already.
    fn tuned(self, still: bool, memo: Memo<u64, Hertz>, phase: Turns) -> Memo<u64, Hertz>
        requires { still ≡ true → recall1 voct_to_hz_at memo (pitch_of self.v_oct self.depth phase.0).0 ≡ memo }
        ensures { result ≡ recall1 voct_to_hz_at memo (pitch_of self.v_oct self.depth phase.0).0 }
    {
        if still {
            memo
        } else {
            memo.voct_to_hz(self.swung(phase))
        }
    }
}

impl Coef {
    // One resonator, Direct Form II transposed.
    #[tactic(auto, unfolding(crate::specs::Sound::resonate_of))]
    fn resonate(self, s0: f64, s1: f64, excitation: f64) -> Resonated
        ensures { result ≡ resonate_of self.b0 self.a1 self.a2 s0 s1 excitation }
    {
        let out = self.b0 * excitation + s0;
        Resonated {
            out,
            s0: -self.a1 * out + s1,
            s1: -self.b0 * excitation - self.a2 * out,
        }
    }
}

// The five side by side, and their sum in order, from 0.0.
fn ring(c: [f64; 15], s: [f64; 10], x: f64) -> Rung
    ensures { result ≡ rung_of c s x }
{
    let mut sum = 0.0;
    let mut state = s;
    for i in 0..5 {
        let coef = Coef {
            b0: c[3 * i],
            a1: c[3 * i + 1],
            a2: c[3 * i + 2],
        };
        let rung = coef.resonate(s[2 * i], s[2 * i + 1], x);
        sum += rung.out * AMPLITUDES[i];
        state[2 * i] = rung.s0;
        state[2 * i + 1] = rung.s1;
    }
    Rung { sum, state }
}

// Turns wait as a plain number in the place of tick i's sample, which a caller lends: `sway` puts them there, and this fetches them.
fn kept_turns(samples: &[f64], i: usize) -> Turns
    requires { i < length samples.now }
    ensures { result ≡ turns (get_or samples.now i nan) }
{
    Turns(samples[i])
}

// Whether a phase stays finite waits in the place of tick i's mark. It is no mark.
// Kept: a bool as 1 or 0, here and in `is_flagged`: a block has no memory of its own for as many bools as there are marks (fixed memory).
#[tactic(auto, unfolding(crate::specs::Shortcuts::flag))]
fn flag(b: bool) -> u32
    ensures { result ≡ flag b }
{
    b as u32
}

#[tactic(auto, unfolding(crate::specs::Shortcuts::is_flagged))]
fn is_flagged(n: u32) -> bool
    ensures { result ≡ is_flagged n }
{
    n != 0
}

// What a tick answers to the resonators' sum.
#[tactic(auto, unfolding(crate::specs::Shortcuts::voiced_of))]
fn voiced(sum: f64, phases: bool, numbers: bool) -> Answer
    ensures { result ≡ voiced_of sum phases numbers }
{
    let volts = Volts::of([numeric::clamp(sum, -1.0, 1.0) * 5.0]);
    answer::mark(volts, false, numeric::is_finite(sum), phases, numbers)
}

// A block goes over its ticks three times, each time with little to wait for, so that a processor works at several ticks at
// once; with all in one loop it couldn't. The first time: what the phase grows by, in the place of the sample. The vibrato's
// phase moves too, and stays finite.
fn sway(start: Driver, vibrato: Vibrato, sample_rate: Hertz, samples: &mut [f64]) -> Driver
    requires { (phase_ok start.vibrato_phase ≡ true)
        × (recall1 voct_to_hz_at start.freq_memo (pitch_of vibrato.v_oct vibrato.depth start.vibrato_phase.0).0 ≡ start.freq_memo) }
    ensures value { result ≡ swayed vibrato.v_oct vibrato.depth sample_rate (length samples.old) start }
    ensures samples_after { samples.new ≡ tab (λ i. (stride_at vibrato.v_oct vibrato.depth sample_rate start i).0) (length samples.old) }
{
    let still = vibrato.is_still();
    let vibrato_step = common::increment(Hertz(VIBRATO_RATE), sample_rate);
    let mut vibrato_phase = start.vibrato_phase;
    let mut freq_memo = start.freq_memo;
    for sample in samples.iter_mut() {
        let next = Turns(vibrato_phase.0 + vibrato_step.0);
        freq_memo = vibrato.tuned(still, freq_memo, vibrato_phase);
        *sample = common::increment(freq_memo.val, sample_rate).0;
        vibrato_phase = common::wrap_of_several(next).phase;
    }
    Driver {
        vibrato_phase,
        freq_memo,
        ..start
    }
}

// The second time: the pulse that goes into the resonators, and in the mark's place whether the phase stays finite.
// Kept: here and in `drive`, `voice`, `run` and `block` samples and marks one by one, and in each contract that they are as many: `block`'s contract says of
// each what it becomes, and of marks how many ticks there are.
fn pulse(start: Turns, samples: &mut [f64], marks: &mut [u32]) -> Turns
    requires { length samples.old ≡ length marks.old }
    ensures value { result ≡ phase_at samples.old start (length marks.old) }
    ensures samples_after { samples.new
        ≡ tab (λ i. glottal_pulse (phase_at samples.old start i).0) (length marks.old) }
    ensures marks_after { marks.new ≡ tab (phase_flag_at samples.old start) (length marks.old) }
{
    let mut phase = start;
    // Kept: a tick by its index: a proof knows no number of samples or marks after a zip of their iter_mut.
    for i in 0..marks.len() {
        let next = Turns(phase.0 + kept_turns(samples, i).0);
        samples[i] = glottal_pulse(phase);
        marks[i] = flag(numeric::is_finite(next.0));
        phase = common::wrap_of_several(next).phase;
    }
    phase
}

// Both.
fn drive(
    start: Driver,
    vibrato: Vibrato,
    sample_rate: Hertz,
    samples: &mut [f64],
    marks: &mut [u32],
) -> Driver
    requires { (phase_ok start.vibrato_phase ≡ true)
        × (recall1 voct_to_hz_at start.freq_memo (pitch_of vibrato.v_oct vibrato.depth start.vibrato_phase.0).0 ≡ start.freq_memo)
        × (length samples.old ≡ length marks.old) }
    ensures value { result ≡ after_ticks (drive_next vibrato.v_oct vibrato.depth sample_rate) (length marks.old) start }
    ensures samples_after { samples.new ≡ tab (pulse_at vibrato.v_oct vibrato.depth sample_rate start) (length marks.old) }
    ensures marks_after { marks.new ≡ tab (flag_at vibrato.v_oct vibrato.depth sample_rate start) (length marks.old) }
{
    let swayed = sway(start, vibrato, sample_rate, &mut *samples);
    Driver {
        phase: pulse(start.phase, samples, marks),
        ..swayed
    }
}

// The third time: each pulse becomes the sample that the resonators make of it.
fn voice(
    c: [f64; 15],
    start: [f64; 10],
    numbers: bool,
    samples: &mut [f64],
    marks: &mut [u32],
) -> [f64; 10]
    requires { length samples.old ≡ length marks.old }
    ensures value { result ≡ cells_at c samples.old start (length marks.old) }
    ensures samples_after { samples.new
        ≡ tab (λ i. (volts_of (voiced_at numbers c start samples.old marks.old i)).p10) (length marks.old) }
    ensures marks_after { marks.new
        ≡ tab (λ i. host_number (voiced_at numbers c start samples.old marks.old i)) (length marks.old) }
{
    let mut cells = start;
    // Kept: a tick by its index: answer::put is told it so, since a proof knows no number of samples or marks after a zip of their iter_mut.
    for i in 0..marks.len() {
        let rung = ring(c, cells, samples[i]);
        let heard = voiced(rung.sum, is_flagged(marks[i]), numbers);
        answer::put(heard, PORTS, i, &mut *samples, &mut *marks);
        cells = rung.state;
    }
    cells
}

impl FormantOscControls {
    // Whether no control is NaN.
    fn are_numbers(self) -> bool
        ensures { result ≡ all_numbers (controls_of self) }
    {
        answer::numbers([self.v_oct.0, self.vowel, self.formant_shift, self.vibrato])
    }

    // Its depth is brought into 0 to 1.
    fn vibrato(self) -> Vibrato
        ensures { result ≡ vibrato_of self }
    {
        Vibrato {
            v_oct: self.v_oct,
            depth: numeric::clamp(self.vibrato, 0.0, 1.0),
        }
    }
}

impl FormantOsc {
    // What refuses this state: its rate, then a phase.
    #[tactic(auto, unfolding(crate::specs::FormantOsc::formant_osc_refusal_of, common::specs::Refusal::refused_number, common::specs::Refusal::number_of))]
    fn refusal(self) -> Result<(), Refusal>
        ensures { refused_number result ≡ formant_osc_refusal_of self }
    {
        if !common::rate_ok(self.sample_rate) {
            return Err(Refusal::Rate);
        }
        if common::phase_ok(self.phase) && common::phase_ok(self.vibrato_phase) {
            Ok(())
        } else {
            Err(Refusal::State)
        }
    }

    // What refuses a change to this rate: the new rate or the old, then a phase.
    // Kept: the Wavetable's has the same body, but each asks its own state's `refusal`; a trait would need that one's contract as a law, for two of them.
    #[tactic(auto, unfolding(crate::specs::FormantOsc::formant_osc_rate_refusal_of, common::specs::Refusal::refused_number, common::specs::Refusal::number_of))]
    fn rate_refusal(self, sample_rate: Hertz) -> Result<(), Refusal>
        ensures { refused_number result ≡ formant_osc_rate_refusal_of self sample_rate }
    {
        if common::rate_ok(sample_rate) {
            self.refusal()
        } else {
            Err(Refusal::Rate)
        }
    }

    // A refused new hands out the state with the bad rate, which every later call refuses.
    pub fn new(sample_rate: Hertz) -> Made<FormantOsc>
        ensures { making result ≡ formant_osc_new_of sample_rate }
    {
        let state = FormantOsc {
            phase: Turns(0.0),
            vibrato_phase: Turns(0.0),
            resonator_state: [0.0; 10],
            sample_rate,
            freq_memo: Memo::new(0, Hertz(0.0)),
            coef_memo: Memo::new((0, 0, 0), [0.0; 15]),
        };
        Made {
            outcome: state.refusal(),
            state,
        }
    }

    // The memos after a tick. Inlined, for with a call in the place of each a tick takes a tenth longer.
    #[inline(always)]
    #[tactic(auto, unfolding(crate::specs::FormantOsc::freq_memo_of))]
    fn freqs(self, c: FormantOscControls) -> Memo<u64, Hertz>
        ensures { result ≡ freq_memo_of self c }
    {
        self.freq_memo
            .voct_to_hz(c.vibrato().pitch(self.vibrato_phase))
    }

    #[inline(always)]
    #[tactic(auto, unfolding(crate::specs::FormantOsc::coef_memo_of))]
    fn coefs(self, c: FormantOscControls) -> CoefMemo
        ensures { result ≡ coef_memo_of self c }
    {
        let vowel = numeric::clamp(c.vowel, 0.0, 1.0);
        let shift = c.formant_shift;
        let rate = self.sample_rate;
        let key = common::key3(vowel, shift, rate.0);
        if self.coef_memo.hits(key) {
            self.coef_memo
        } else {
            Memo::filled(key, resonator_coefs(vowel, shift, rate))
        }
    }

    // An accepted tick: the Rust's tick_generic.
    #[tactic(auto, unfolding(crate::specs::FormantOsc::formant_osc_sound_of, crate::specs::FormantOsc::formant_osc_rung, crate::specs::Shortcuts::voiced_of))]
    fn sound(self, c: FormantOscControls) -> Ticked<FormantOsc>
        ensures { result ≡ formant_osc_sound_of self c }
    {
        // Here, far from the other phase: side by side the two become one pair, which the next tick can't read before the
        // whole of this one is done.
        let vibrato_inc = common::increment(Hertz(VIBRATO_RATE), self.sample_rate);
        let vibrato_next = Turns(self.vibrato_phase.0 + vibrato_inc.0);
        let vibrato_moved = common::wrap_of_several(vibrato_next).phase;
        let freq_memo = self.freqs(c);
        let phase_inc = common::increment(freq_memo.val, self.sample_rate);
        let excitation = glottal_pulse(self.phase);
        let coef_memo = self.coefs(c);
        let rung = ring(coef_memo.val, self.resonator_state, excitation);
        let resonator_state = rung.state;
        let next = Turns(self.phase.0 + phase_inc.0);
        let moved = common::wrap_of_several(next).phase;
        let phases = numeric::is_finite(next.0) && numeric::is_finite(vibrato_next.0);
        Ticked {
            answer: voiced(rung.sum, phases, c.are_numbers()),
            state: FormantOsc {
                phase: moved,
                vibrato_phase: vibrato_moved,
                resonator_state,
                freq_memo,
                coef_memo,
                ..self
            },
        }
    }

    pub fn tick(self, c: FormantOscControls) -> Ticked<FormantOsc>
        ensures { result ≡ formant_osc_tick_of self c }
    {
        match self.refusal() {
            Ok(()) => self.sound(c),
            Err(refused) => Ticked::refused(self, refused),
        }
    }

    // The ticks of a block, whose coefficients are those of the first. The controls are asked once.
    fn run(self, c: FormantOscControls, samples: &mut [f64], marks: &mut [u32]) -> Self
        requires { (formant_osc_refusal_of self ≡ 0) × (0 < length marks.old) × (length samples.old ≡ length marks.old) }
        ensures value { result ≡ after_ticks (formant_osc_next_of c) (length marks.old) self }
        ensures samples_after { samples.new ≡ joined (frame_at n_ports (formant_osc_told_of c) (formant_osc_next_of c) self) (length marks.old) }
        ensures marks_after { marks.new ≡ tab (mark_at (formant_osc_told_of c) (formant_osc_next_of c) self) (length marks.old) }
    {
        let start = Driver {
            phase: self.phase,
            vibrato_phase: self.vibrato_phase,
            freq_memo: self.freqs(c),
        };
        let coef_memo = self.coefs(c);
        let end = drive(
            start,
            c.vibrato(),
            self.sample_rate,
            &mut *samples,
            &mut *marks,
        );
        let numbers = c.are_numbers();
        FormantOsc {
            phase: end.phase,
            vibrato_phase: end.vibrato_phase,
            resonator_state: voice(coef_memo.val, self.resonator_state, numbers, samples, marks),
            freq_memo: end.freq_memo,
            coef_memo,
            ..self
        }
    }

    // As many ticks with these controls as there are marks, a sample each.
    pub fn block(
        self,
        c: FormantOscControls,
        tally: Tally,
        samples: &mut [f64],
        marks: &mut [u32],
    ) -> Result<Played<FormantOsc>, Refusal>
        ensures { block_said self tally result samples.new marks.new
            ≡ formant_osc_block_of self c tally samples.old marks.old }
    {
        let n = marks.len();
        answer::block_outcome(PORTS, samples.len(), self.refusal(), tally, n)?;
        if n == 0 {
            return Ok(Played { state: self, tally });
        }
        let state = self.run(c, samples, marks);
        Ok(Played {
            state,
            tally: tally.take_marks(marks).unwrap_or(tally),
        })
    }

    // The phases and the resonators start again; the memos stay.
    pub fn reset(self) -> Result<FormantOsc, Refusal>
        ensures { changing self result ≡ formant_osc_reset_of self }
    {
        self.refusal()?;
        let start = Turns(0.0);
        Ok(FormantOsc {
            phase: start,
            vibrato_phase: start,
            resonator_state: [0.0; 10],
            ..self
        })
    }

    pub fn set_sample_rate(self, sample_rate: Hertz) -> Result<FormantOsc, Refusal>
        ensures { changing self result ≡ formant_osc_set_sample_rate_of self sample_rate }
    {
        self.rate_refusal(sample_rate)?;
        Ok(FormantOsc {
            sample_rate,
            ..self
        })
    }
}
