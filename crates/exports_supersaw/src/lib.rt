// The Supersaw for hosts, over lent slices. A state is floats [phases 0 to 6, sub_phase, sample_rate, freq_memo.val] and
// wholes [freq_memo.key, freq_memo.valid], the last 0 or not; samples are [out, sub].
// Each call answers a number: 0 done; of an accepted tick what its mark is told by; of a refused call 1 to 7 as the scope has
// them, or 50, 51, 52, 53 where floats, wholes, samples or counts have another length. A refused call writes nothing. A block
// answers 0, with the ticks' samples one after another, their marks by the same numbers, and the tally's counts.
#![tactic(auto)]

ghost use Rattle.std.specs.Prelude.{◌≡◌};
ghost use Rattle.boundary.specs.Flat.{kept, heard, played};
ghost use Rattle.exports_supersaw.specs.State.{n_floats, n_wholes, n_samples, state_of, floats_of, wholes_of, samples_of};
ghost use Rattle.exports_supersaw.specs.Calls.{supersaw_new_at, supersaw_tick_at, supersaw_block_at, supersaw_reset_at, supersaw_set_sample_rate_at};

use answer::Volts;
use boundary::Layout;
use common::{Hertz, Memo, Turns, VoltsPerOctave};
use supersaw::{Supersaw, SupersawControls};

// Kept, below: controls, floats, wholes, counts, samples and marks stand beside one another, as the C interface lends them; each call stands under its C name
// with its own contract, so that the bodies of reset, set_sample_rate, tick and block are alike in seven crates; and `put` writes the samples that `samples_of`
// names, one by one.

// How a Supersaw lies in the slices.
struct Cells;

impl Layout for Cells {
    type State = Supersaw;

    const FLOATS: usize = 10;

    const WHOLES: usize = 2;

    const SAMPLES: usize = 2;

    ghost FLOATS = { n_floats };

    ghost WHOLES = { n_wholes };

    ghost SAMPLES = { n_samples };

    ghost state_of = { state_of };

    ghost floats_of = { floats_of };

    ghost wholes_of = { wholes_of };

    ghost samples_of = { samples_of };

    fn state(floats: &[f64], wholes: &[u64]) -> Supersaw {
        Supersaw {
            phases: *floats.first_chunk().unwrap(),
            sub_phase: Turns(floats[7]),
            sample_rate: Hertz(floats[8]),
            freq_memo: Memo {
                key: wholes[0],
                val: Hertz(floats[9]),
                valid: wholes[1] != 0,
            },
        }
    }

    fn store(s: Supersaw, floats: &mut [f64], wholes: &mut [u64]) {
        floats[..7].copy_from_slice(&s.phases);
        floats[7] = s.sub_phase.0;
        floats[8] = s.sample_rate.0;
        floats[9] = s.freq_memo.val.0;
        wholes[0] = s.freq_memo.key;
        wholes[1] = s.freq_memo.valid as u64;
    }

    fn put(v: Volts, samples: &mut [f64]) {
        samples[0] = v.p10;
        samples[1] = v.p11;
    }
}

#[unsafe(no_mangle)]
pub extern "C" fn gruttisol_supersaw_new(
    sample_rate: f64,
    floats: &mut [f64],
    wholes: &mut [u64],
) -> u32
    ensures { kept result floats.new wholes.new
        ≡ supersaw_new_at sample_rate floats.old wholes.old }
{
    let made = Supersaw::new(Hertz(sample_rate));
    boundary::keep::<Cells>(made.accepted(), floats, wholes)
}

#[unsafe(no_mangle)]
pub extern "C" fn gruttisol_supersaw_tick(
    voct: f64,
    detune: f64,
    mix: f64,
    floats: &mut [f64],
    wholes: &mut [u64],
    samples: &mut [f64],
) -> u32
    ensures { heard result floats.new wholes.new samples.new
        ≡ supersaw_tick_at voct detune mix floats.old wholes.old samples.old }
{
    match boundary::tick_state::<Cells>(floats, wholes, samples) {
        Ok(supersaw) => {
            let c = SupersawControls {
                voct: VoltsPerOctave(voct),
                detune,
                mix,
            };
            boundary::hear::<Cells>(supersaw.tick(c), floats, wholes, samples)
        }
        Err(refused) => refused.number(),
    }
}

#[unsafe(no_mangle)]
pub extern "C" fn gruttisol_supersaw_block(
    voct: f64,
    detune: f64,
    mix: f64,
    floats: &mut [f64],
    wholes: &mut [u64],
    counts: &mut [u32],
    samples: &mut [f64],
    marks: &mut [u32],
) -> u32
    ensures { played result floats.new wholes.new counts.new samples.new marks.new
        ≡ supersaw_block_at voct detune mix
        floats.old wholes.old counts.old samples.old marks.old }
{
    match boundary::block_state::<Cells>(floats, wholes, counts) {
        Ok(begun) => {
            let c = SupersawControls {
                voct: VoltsPerOctave(voct),
                detune,
                mix,
            };
            let played = begun.state.block(c, begun.tally, samples, marks);
            boundary::keep_block::<Cells>(played, floats, wholes, counts)
        }
        Err(refused) => refused.number(), // of lengths or counts
    }
}

#[unsafe(no_mangle)]
pub extern "C" fn gruttisol_supersaw_reset(floats: &mut [f64], wholes: &mut [u64]) -> u32
    ensures { kept result floats.new wholes.new
        ≡ supersaw_reset_at floats.old wholes.old }
{
    match boundary::state::<Cells>(floats, wholes) {
        Ok(supersaw) => boundary::keep::<Cells>(supersaw.reset(), floats, wholes),
        Err(refused) => refused.number(),
    }
}

#[unsafe(no_mangle)]
pub extern "C" fn gruttisol_supersaw_set_sample_rate(
    sample_rate: f64,
    floats: &mut [f64],
    wholes: &mut [u64],
) -> u32
    ensures { kept result floats.new wholes.new
        ≡ supersaw_set_sample_rate_at sample_rate floats.old wholes.old }
{
    match boundary::state::<Cells>(floats, wholes) {
        Ok(supersaw) => boundary::keep::<Cells>(
            supersaw.set_sample_rate(Hertz(sample_rate)),
            floats,
            wholes,
        ),
        Err(refused) => refused.number(),
    }
}
