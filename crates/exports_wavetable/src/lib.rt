// The Wavetable for hosts, over lent slices. A state is floats [phase, sample_rate, prev_sync, threshold, freq_memo.val] and
// wholes [freq_memo.key, freq_memo.valid], the last 0 or not; samples are [out]. The bank is 16,384 numbers.
// Each call answers a number: 0 done; of an accepted tick what its mark is told by; of a refused call 1 to 7 as the scope has
// them, or 50, 51, 52, 53 where floats, wholes, samples or counts have another length. A refused call writes nothing. A block
// answers 0, with the ticks' samples one after another, their marks by the same numbers, and the tally's counts.
#![tactic(auto)]

ghost use Rattle.std.specs.Prelude.{◌≡◌};
ghost use Rattle.common.specs.Refusal.{refused_number};
ghost use Rattle.boundary.specs.Flat.{kept, heard, played};
ghost use Rattle.exports_wavetable.specs.State.{n_floats, n_wholes, n_samples, state_of, floats_of, wholes_of, samples_of};
ghost use Rattle.exports_wavetable.specs.Calls.{wavetable_new_at, wavetable_tick_at, wavetable_block_at, wavetable_reset_at};
ghost use Rattle.exports_wavetable.specs.Calls.{wavetable_set_sample_rate_at, filled_with, wavetable_fill_bank_at, wavetable_fill_table_at};

use answer::Volts;
use boundary::Layout;
use common::{EdgeDetector, Hertz, Memo, Refusal, Turns, VoltsPerOctave};
use wavetable::{Wavetable, WavetableControls};

// Kept, below: the controls, floats, wholes, bank, counts, samples and marks stand beside one another, as the C interface lends them, and each call stands
// under its C name with its own contract, though bodies are alike in seven crates. `put` writes the samples that `samples_of` names.

// Where the edge record's floats begin, and what stands after them.
const EDGE: usize = 2;

const VAL: usize = EDGE + boundary::EDGE_FLOATS;

// How a Wavetable lies in the slices.
struct Cells;

impl Layout for Cells {
    type State = Wavetable;

    const FLOATS: usize = VAL + 1;

    const WHOLES: usize = 2;

    const SAMPLES: usize = 1;

    ghost FLOATS = { n_floats };

    ghost WHOLES = { n_wholes };

    ghost SAMPLES = { n_samples };

    ghost state_of = { state_of };

    ghost floats_of = { floats_of };

    ghost wholes_of = { wholes_of };

    ghost samples_of = { samples_of };

    fn state(floats: &[f64], wholes: &[u64]) -> Wavetable {
        let edge = boundary::edge_of(&floats[EDGE..VAL]);
        Wavetable {
            phase: Turns(floats[0]),
            prev_sync: edge.prev,
            threshold: edge.threshold,
            sample_rate: Hertz(floats[1]),
            freq_memo: Memo {
                key: wholes[0],
                val: Hertz(floats[VAL]),
                valid: wholes[1] != 0,
            },
        }
    }

    fn store(s: Wavetable, floats: &mut [f64], wholes: &mut [u64]) {
        let edge = EdgeDetector {
            prev: s.prev_sync,
            threshold: s.threshold,
        };
        floats[0] = s.phase.0;
        floats[1] = s.sample_rate.0;
        boundary::put_edge(edge, &mut floats[EDGE..VAL]);
        floats[VAL] = s.freq_memo.val.0;
        wholes[0] = s.freq_memo.key;
        wholes[1] = s.freq_memo.valid as u64;
    }

    fn put(v: Volts, samples: &mut [f64]) {
        samples[0] = v.p10;
    }
}

#[unsafe(no_mangle)]
pub extern "C" fn gruttisol_wavetable_new(
    sample_rate: f64,
    threshold: f64,
    floats: &mut [f64],
    wholes: &mut [u64],
) -> u32
    ensures { kept result floats.new wholes.new ≡ wavetable_new_at sample_rate threshold floats.old wholes.old }
{
    let made = Wavetable::new(Hertz(sample_rate), threshold);
    boundary::keep::<Cells>(made.accepted(), floats, wholes)
}

#[unsafe(no_mangle)]
pub extern "C" fn gruttisol_wavetable_tick(
    v_oct: f64,
    table: f64,
    morph: f64,
    sync: f64,
    floats: &mut [f64],
    wholes: &mut [u64],
    bank: &[f64],
    samples: &mut [f64],
) -> u32
    ensures { heard result floats.new wholes.new samples.new
        ≡ wavetable_tick_at v_oct table morph sync bank.now floats.old wholes.old samples.old }
{
    match boundary::tick_state::<Cells>(floats, wholes, samples) {
        Ok(wavetable) => {
            let c = WavetableControls {
                v_oct: VoltsPerOctave(v_oct),
                table,
                morph,
                sync,
            };
            boundary::hear::<Cells>(wavetable.tick(c, bank), floats, wholes, samples)
        }
        Err(refused) => refused.number(),
    }
}

#[unsafe(no_mangle)]
pub extern "C" fn gruttisol_wavetable_block(
    v_oct: f64,
    table: f64,
    morph: f64,
    sync: f64,
    floats: &mut [f64],
    wholes: &mut [u64],
    bank: &[f64],
    counts: &mut [u32],
    samples: &mut [f64],
    marks: &mut [u32],
) -> u32
    ensures { played result floats.new wholes.new counts.new samples.new marks.new
        ≡ wavetable_block_at v_oct table morph sync bank.now floats.old wholes.old counts.old
        samples.old marks.old }
{
    match boundary::block_state::<Cells>(floats, wholes, counts) {
        Ok(begun) => {
            let c = WavetableControls {
                v_oct: VoltsPerOctave(v_oct),
                table,
                morph,
                sync,
            };
            let played = begun.state.block(c, begun.tally, bank, samples, marks);
            boundary::keep_block::<Cells>(played, floats, wholes, counts)
        }
        Err(refused) => refused.number(), // of lengths or counts
    }
}

#[unsafe(no_mangle)]
pub extern "C" fn gruttisol_wavetable_reset(floats: &mut [f64], wholes: &mut [u64]) -> u32
    ensures { kept result floats.new wholes.new ≡ wavetable_reset_at floats.old wholes.old }
{
    match boundary::state::<Cells>(floats, wholes) {
        Ok(wavetable) => boundary::keep::<Cells>(wavetable.reset(), floats, wholes),
        Err(refused) => refused.number(),
    }
}

#[unsafe(no_mangle)]
pub extern "C" fn gruttisol_wavetable_set_sample_rate(
    sample_rate: f64,
    floats: &mut [f64],
    wholes: &mut [u64],
) -> u32
    ensures { kept result floats.new wholes.new ≡ wavetable_set_sample_rate_at sample_rate floats.old wholes.old }
{
    match boundary::state::<Cells>(floats, wholes) {
        Ok(wavetable) => {
            let rated = wavetable.set_sample_rate(Hertz(sample_rate));
            boundary::keep::<Cells>(rated, floats, wholes)
        }
        Err(refused) => refused.number(),
    }
}

// 0, or the number of what refused the fill.
// Kept: 0 for done is the C interface's. boundary::keep answers so too, but of a state that it stores, and a fill has none.
#[tactic(auto, unfolding(common::specs::Refusal::refused_number))]
fn fill_number(filled: Result<(), Refusal>) -> u32
    ensures { result ≡ refused_number filled }
{
    match filled {
        Ok(()) => 0,
        Err(refused) => refused.number(),
    }
}

#[tactic(auto, unfolding(crate::specs::Calls::wavetable_fill_bank_at, crate::specs::Calls::numbered))]
#[unsafe(no_mangle)]
pub extern "C" fn gruttisol_wavetable_fill_bank(bank: &mut [f64]) -> u32
    ensures { filled_with result bank.new ≡ wavetable_fill_bank_at bank.old }
{
    fill_number(wavetable::bank::fill_bank(bank))
}

#[tactic(auto, unfolding(crate::specs::Calls::wavetable_fill_table_at, crate::specs::Calls::numbered))]
#[unsafe(no_mangle)]
pub extern "C" fn gruttisol_wavetable_fill_table(table: u64, part: &mut [f64]) -> u32
    ensures { filled_with result part.new ≡ wavetable_fill_table_at table part.old }
{
    fill_number(wavetable::bank::fill_table(part, table as usize))
}
