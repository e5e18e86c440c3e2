// The Wavetable of oscillators.rs, in its order: two neighbouring tables of a bank, each read at the level that the pitch
// allows, and blended. The bank is a slice that the caller lends; bank.rt fills it. Its output: p10 out.
#![tactic(auto)]

pub mod bank;

ghost use Rattle.std.specs.Prelude.{◌≡◌, ◌≤◌, ◌<◌, ◌+◌, ◌*◌, length, true, false};
ghost use Rattle.std.specs.Result.{ForOk};
ghost use Rattle.std.specs.Float.{binary64};
ghost use Rattle.std.specs.Float.Ieee.{sub};
ghost use Rattle.laws.specs.Lists.{tab};
ghost use Rattle.answer.specs.Answer.{volts1};
ghost use Rattle.answer.specs.Mark.{all_numbers, mark_of};
ghost use Rattle.answer.specs.Block.{after_ticks, joined, block_said, mark_at, frame_at};
ghost use Rattle.answer.specs.Calls.{making, changing};
ghost use Rattle.common.specs.Edge.{rising_of};
ghost use Rattle.common.specs.Refusal.{refused_number};
ghost use Rattle.numeric.specs.Basic.{whole_of, real_of};
ghost use Rattle.numeric.specs.Floor.{floor_of};
ghost use Rattle.wavetable.specs.Consts.{n_ports, table_size, num_tables, num_mips, bank_size};
ghost use Rattle.wavetable.specs.Harmonics.{max_harmonic};
ghost use Rattle.wavetable.specs.Reads.{allowed_of, level_from, start_of, between, table_pos_of, table_index_of, blend_of};
ghost use Rattle.wavetable.specs.Shortcuts.{PairFits, pair_of, mix_at, held_answer, held_next};
ghost use Rattle.wavetable.specs.Wavetable.{controls_of, wavetable_refusal_of, wavetable_tick_refusal_of, wavetable_rate_refusal_of, wavetable_sound_of};
ghost use Rattle.wavetable.specs.Wavetable.{wavetable_new_of, wavetable_tick_of, wavetable_told_of, wavetable_next_of, wavetable_block_of};
ghost use Rattle.wavetable.specs.Wavetable.{wavetable_reset_of, wavetable_set_sample_rate_of};

use answer::{Answer, Made, Played, Tally, Ticked, Volts};
use common::{EdgeDetector, Hertz, Memo, Refusal, Turns, VoltsPerOctave};

// Kept: `prev_sync` and `threshold` are the fields of an edge record, but the Rust keeps its last sample plain, and the definitions restarted and rated name
// both so.
#[derive(Clone, Copy)]
pub struct Wavetable {
    pub phase: Turns,
    pub prev_sync: f64,
    pub threshold: f64,
    pub sample_rate: Hertz,
    pub freq_memo: Memo<u64, Hertz>,
}

// The inputs, in port order.
#[derive(Clone, Copy)]
pub struct WavetableControls {
    pub v_oct: VoltsPerOctave,
    pub table: f64,
    pub morph: f64,
    pub sync: f64,
}

// What is read of the bank: where the levels of two neighbouring tables begin, and how much of the upper one is heard.
#[derive(Clone, Copy)]
struct Pair {
    first0: usize,
    first1: usize,
    blend: f64,
}

// Numbers in a level of a table, tables in a bank, and levels of a table.
const TABLE_SIZE: usize = 256;

const NUM_TABLES: usize = 8;

const NUM_MIPS: usize = 8;

// Numbers in a table with all its levels, and in the bank.
const PART_SIZE: usize = NUM_MIPS * TABLE_SIZE;

const BANK_SIZE: usize = NUM_TABLES * PART_SIZE;

// Outputs.
const PORTS: usize = 1;

// The largest harmonic in each level of each table: the designers' sheet, docs/HARMONICS.md. A row is a table, named as in the Rust's WavetableType, and a
// column is a level. The numbers are short, since a call that reads one first writes the whole table to its stack.
const MAX_HARMONICS: [[u16; 8]; 8] = [
    // level 0, 1, 2, 3, 4, 5, 6, 7
    [1, 1, 1, 1, 1, 1, 1, 1], // Sine
    [31, 15, 7, 3, 1, 1, 1, 1], // Triangle
    [64, 32, 16, 8, 4, 2, 1, 1], // Saw
    [63, 31, 15, 7, 3, 1, 1, 1], // Square
    [64, 32, 16, 8, 4, 2, 1, 1], // Pulse25
    [64, 32, 16, 8, 4, 2, 1, 1], // Pulse12
    [10, 5, 2, 1, 1, 1, 1, 1], // FormantA
    [10, 5, 2, 1, 1, 1, 1, 1], // FormantO
];

// Rust's `as f64`.
fn real(n: usize) -> f64
    ensures { result ≡ real_of n }
{
    std::num::nearest_usize_to_f64(n)
}

// Kept: `max_harmonic` asks that a level is below 8, and so do `terms`, `vowel` and `cell` of bank.rt, which call it: a type of levels would be made of a
// loop's own number, or of a quotient, at each call, and be taken apart for this one index.

// The largest harmonic in a level of a table. The Rust halves the first level's from level to level, to at least 1.
fn max_harmonic(table: usize, level: usize) -> usize
    requires { (table < num_tables) × (level < num_mips) }
    ensures { result ≡ max_harmonic table level }
{
    MAX_HARMONICS[table][level] as usize
}

// The highest harmonic that stays below half the sample rate. The Rust works it out for each table.
#[tactic(auto, unfolding(crate::specs::Reads::allowed_of))]
fn allowed(phase_inc: Turns) -> f64
    ensures { result ≡ allowed_of phase_inc.0 }
{
    numeric::floor(0.5 / numeric::max(numeric::fabs(phase_inc.0), 1e-9))
}

// The first level of a table whose harmonics are all allowed, or else the last.
fn select_level(table: usize, allowed: f64) -> usize
    requires { table < num_tables }
    ensures { result ≡ level_from table allowed num_mips }
{
    (0..NUM_MIPS)
        .find(|level| real(max_harmonic(table, *level)) <= allowed)
        .unwrap_or(NUM_MIPS - 1)
}

// Where a level of a table begins in the bank.
#[tactic(auto, unfolding(crate::specs::Reads::start_of))]
fn start(table_idx: usize, level: usize) -> usize
    ensures { result ≡ start_of table_idx level }
{
    table_idx % NUM_TABLES * PART_SIZE + level.min(NUM_MIPS - 1) * TABLE_SIZE
}

// The level that begins there, between two of its numbers.
fn read_table(bank: &[f64; BANK_SIZE], first: usize, idx0: usize, frac: f64) -> f64
    requires { (first + table_size ≤ bank_size) × (idx0 < table_size) }
    ensures { result ≡ between bank.now first idx0 frac }
{
    let idx1 = (idx0 + 1) % TABLE_SIZE;
    bank[first + idx0] * (1.0 - frac) + bank[first + idx1] * frac
}

// How far pos is past its whole number. A floor would branch on which way pos rounds, and no guess of that is good.
fn fraction(pos: f64, whole: usize) -> f64
    requires { whole ≡ whole_of pos }
    ensures { result ≡ sub binary64 pos (floor_of pos) }
{
    if pos > 0.0 && pos < 256.0 {
        pos - real(whole)
    } else {
        pos - numeric::floor(pos)
    }
}

// Whether the sync input has an edge. The Rust keeps its last sample plain; the rule is the edge record's.
fn synced(prev_sync: f64, threshold: f64, sync: f64) -> bool
    ensures { result ≡ (rising_of (record { prev = prev_sync; threshold = threshold }) sync).rising }
{
    let edge = EdgeDetector {
        prev: prev_sync,
        threshold,
    };
    edge.rising(sync).rising
}

// From 0, the first table, to 7, the last. The clamp lets a NaN pass.
#[tactic(auto, unfolding(crate::specs::Reads::table_pos_of))]
fn table_pos(table: f64) -> f64
    ensures { result ≡ table_pos_of table }
{
    numeric::clamp(table, 0.0, 1.0) * 7.0
}

// The lower of the two tables.
#[tactic(auto, unfolding(crate::specs::Reads::table_index_of))]
fn table_index(pos: f64) -> usize
    ensures { result ≡ table_index_of pos }
{
    numeric::to_usize(pos).min(NUM_TABLES - 2)
}

// How much of the upper table; 1 where a control is NaN, since `min` gives the other number.
#[tactic(auto, unfolding(crate::specs::Reads::blend_of))]
fn blended(pos: f64, index: usize, morph: f64) -> f64
    ensures { result ≡ blend_of pos index morph }
{
    let frac = pos - real(index);
    numeric::min(frac + numeric::clamp(morph, 0.0, 1.0), 1.0)
}

// The tables that the controls ask for, at the levels that the pitch allows.
#[tactic(auto, using(crate::proofs::Accepted::index_few), unfolding(crate::specs::Shortcuts::pair_of, crate::specs::Reads::select_level))]
fn choose(table: f64, morph: f64, phase_inc: Turns) -> Pair
    ensures { result ≡ pair_of table morph phase_inc.0 }
{
    let pos = table_pos(table);
    let index = table_index(pos);
    let allowed = allowed(phase_inc);
    let first0 = start(index, select_level(index, allowed));
    let first1 = start(index + 1, select_level(index + 1, allowed));
    Pair {
        first0,
        first1,
        blend: blended(pos, index, morph),
    }
}

// The sample in volts: both tables at their levels, blended. What the two reads share is worked out once.
#[tactic(auto, unfolding(crate::specs::Shortcuts::mix_at))]
fn mix(bank: &[f64; BANK_SIZE], pair: Pair, phase: Turns) -> f64
    requires { PairFits pair }
    ensures { result ≡ mix_at bank.now pair phase.0 }
{
    let blend = pair.blend;
    let pos = phase.0 * 256.0;
    let whole = numeric::to_usize(pos);
    let idx0 = whole % TABLE_SIZE;
    let frac = fraction(pos, whole);
    let sample0 = read_table(bank, pair.first0, idx0, frac);
    let sample1 = read_table(bank, pair.first1, idx0, frac);
    (sample0 * (1.0 - blend) + sample1 * blend) * 5.0
}

// The sample with its mark.
fn heard(out: f64, phases: bool, numbers: bool) -> Answer
    ensures { result ≡ mark_of (volts1 out) false true phases numbers }
{
    answer::mark(Volts::of([out]), false, true, phases, numbers)
}

impl WavetableControls {
    // Whether no control is NaN.
    fn are_numbers(self) -> bool
        ensures { result ≡ all_numbers (controls_of self) }
    {
        answer::numbers([self.v_oct.0, self.table, self.morph, self.sync])
    }
}

// Kept: `glide`, `run` and `block` take samples and marks one by one, since `block`'s contract says of each what it becomes, and of marks how many ticks
// there are; a pair of them would be made in `block` and taken apart in `glide`.
impl Wavetable {
    // Of a rate and of the threshold that its gate goes by. A refused new hands out the state with the bad one, which every later call refuses.
    #[tactic(auto, unfolding(crate::specs::Wavetable::wavetable_new_of, crate::specs::Wavetable::new_wavetable, answer::specs::Calls::made_unless))]
    pub fn new(sample_rate: Hertz, threshold: f64) -> Made<Wavetable>
        ensures { making result ≡ wavetable_new_of sample_rate threshold }
    {
        let state = Wavetable {
            phase: Turns(0.0), // as in the Rust
            prev_sync: 0.0,
            threshold,
            sample_rate,
            freq_memo: Memo::new(0, Hertz(0.0)),
        };
        Made {
            outcome: state.refusal(),
            state,
        }
    }

    // What refuses this state: its rate, then its phase or its gate's threshold.
    #[tactic(auto, unfolding(crate::specs::Wavetable::wavetable_refusal_of))]
    fn refusal(self) -> Result<(), Refusal>
        ensures { refused_number result ≡ wavetable_refusal_of self }
    {
        common::gated_refusal(self.sample_rate, self.phase, self.threshold)
    }

    // The bank, where neither this state is refused nor a bank of another size.
    #[tactic(auto, unfolding(crate::specs::Wavetable::wavetable_tick_refusal_of, common::specs::Refusal::refused_number))]
    fn lent<'a>(self, bank: &'a [f64]) -> Result<&'a [f64; BANK_SIZE], Refusal>
        ensures number { refused_number result ≡ wavetable_tick_refusal_of self (length bank.now) }
        ensures value { ForOk result (λ lent. lent.now ≡ bank.now) }
    {
        self.refusal()?;
        bank.as_array().ok_or(Refusal::Bank)
    }

    // What refuses a change to this rate: the new rate or the old, then the rest of the state.
    // Kept: the FormantOsc's has the same body, but each asks its own state's `refusal`; a trait would need that one's contract as a law, for two of them.
    #[tactic(auto, unfolding(crate::specs::Wavetable::wavetable_rate_refusal_of, common::specs::Refusal::refused_number, common::specs::Refusal::number_of))]
    fn rate_refusal(self, sample_rate: Hertz) -> Result<(), Refusal>
        ensures { refused_number result ≡ wavetable_rate_refusal_of self sample_rate }
    {
        if common::rate_ok(sample_rate) {
            self.refusal()
        } else {
            Err(Refusal::Rate)
        }
    }

    // An accepted tick: the Rust's tick_generic.
    #[tactic(auto, using(crate::proofs::Accepted::pair_fits, crate::proofs::Held::mix_pair), unfolding(crate::specs::Wavetable::wavetable_sound_of))]
    fn sound(self, c: WavetableControls, bank: &[f64; BANK_SIZE]) -> Ticked<Wavetable>
        ensures { result ≡ wavetable_sound_of self c bank.now }
    {
        let numbers = c.are_numbers();
        let phase = common::restart(self.phase, synced(self.prev_sync, self.threshold, c.sync));
        let freq_memo = self.freq_memo.voct_to_hz(c.v_oct);
        let phase_inc = common::increment(freq_memo.val, self.sample_rate);
        let out = mix(bank, choose(c.table, c.morph, phase_inc), phase);
        let next = Turns(phase.0 + phase_inc.0);
        // The phase is wrapped before the mark is asked for: after it a tick with a moving pitch took 53 ns instead of 50.
        let moved = common::wrap_phase(next).phase;
        Ticked {
            answer: heard(out, numeric::is_finite(next.0), numbers),
            state: Wavetable {
                phase: moved,
                prev_sync: c.sync,
                freq_memo,
                ..self
            },
        }
    }

    pub fn tick(self, c: WavetableControls, bank: &[f64]) -> Ticked<Wavetable>
        ensures { result ≡ wavetable_tick_of self c bank.now }
    {
        match self.lent(bank) {
            Ok(lent) => self.sound(c, lent),
            Err(refused) => Ticked::refused(self, refused),
        }
    }

    // Ticks in which no edge is taken and the memo holds: only the phase moves.
    fn glide(
        pair: Pair,
        first: Turns,
        step: Turns,
        numbers: bool,
        bank: &[f64; BANK_SIZE],
        samples: &mut [f64],
        marks: &mut [u32],
    ) -> Turns
        requires { PairFits pair × (length samples.old ≡ n_ports * length marks.old) }
        ensures value { result ≡ after_ticks (held_next step) (length marks.old) first }
        ensures samples_after { samples.new
            ≡ joined (frame_at n_ports (held_answer bank.now pair numbers step) (held_next step) first) (length marks.old) }
        ensures marks_after { marks.new
            ≡ tab (mark_at (held_answer bank.now pair numbers step) (held_next step) first) (length marks.old) }
    {
        let mut phase = first;
        // Kept: a tick by its index: answer::put is told it so, since a proof knows no number of samples after their chunks_exact_mut.
        for i in 0..marks.len() {
            let next = Turns(phase.0 + step.0);
            let out = mix(bank, pair, phase);
            let told = heard(out, numeric::is_finite(next.0), numbers);
            answer::put(told, PORTS, i, samples, marks);
            phase = common::wrap_phase(next).phase;
        }
        phase
    }

    // The ticks of a block. Only the first can take the edge, and the memo holds from then on. The controls are asked once.
    fn run(
        self,
        c: WavetableControls,
        bank: &[f64; BANK_SIZE],
        samples: &mut [f64],
        marks: &mut [u32],
    ) -> Self
        requires { (wavetable_tick_refusal_of self (length bank.now) ≡ 0) × (0 < length marks.old) × (length samples.old ≡ n_ports * length marks.old) }
        ensures value { result ≡ after_ticks (wavetable_next_of c bank.now) (length marks.old) self }
        ensures samples_after { samples.new
            ≡ joined (frame_at n_ports (wavetable_told_of c bank.now) (wavetable_next_of c bank.now) self) (length marks.old) }
        ensures marks_after { marks.new
            ≡ tab (mark_at (wavetable_told_of c bank.now) (wavetable_next_of c bank.now) self) (length marks.old) }
    {
        let numbers = c.are_numbers();
        let first = common::restart(self.phase, synced(self.prev_sync, self.threshold, c.sync));
        let freq_memo = self.freq_memo.voct_to_hz(c.v_oct);
        let step = common::increment(freq_memo.val, self.sample_rate);
        let pair = choose(c.table, c.morph, step);
        Wavetable {
            phase: Self::glide(pair, first, step, numbers, bank, samples, marks),
            prev_sync: c.sync,
            freq_memo,
            ..self
        }
    }

    // As many ticks with these controls as there are marks. Their samples come one tick after another.
    pub fn block(
        self,
        c: WavetableControls,
        tally: Tally,
        bank: &[f64],
        samples: &mut [f64],
        marks: &mut [u32],
    ) -> Result<Played<Wavetable>, Refusal>
        ensures { block_said self tally result samples.new marks.new
            ≡ wavetable_block_of self c tally bank.now samples.old marks.old }
    {
        let n = marks.len();
        let lent = self.lent(bank);
        answer::block_outcome(PORTS, samples.len(), lent.and(Ok(())), tally, n)?;
        if n == 0 {
            return Ok(Played { state: self, tally });
        }
        let state = self.run(c, lent?, samples, marks); // a bank that isn't lent is refused above
        Ok(Played {
            state,
            tally: tally.take_marks(marks).unwrap_or(tally),
        })
    }

    // Phase and last sync sample start again; the memo stays.
    pub fn reset(self) -> Result<Wavetable, Refusal>
        ensures { changing self result ≡ wavetable_reset_of self }
    {
        self.refusal()?;
        Ok(Wavetable {
            phase: Turns(0.0),
            prev_sync: 0.0, // the threshold stays
            ..self
        })
    }

    pub fn set_sample_rate(self, sample_rate: Hertz) -> Result<Wavetable, Refusal>
        ensures { changing self result ≡ wavetable_set_sample_rate_of self sample_rate }
    {
        self.rate_refusal(sample_rate)?;
        Ok(Wavetable {
            sample_rate,
            ..self
        })
    }
}
