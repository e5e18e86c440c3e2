// The Vco for hosts, over lent slices. A state is floats [phase, sample_rate, sync_edge.prev, sync_edge.threshold, freq_memo.val] and
// wholes [freq_memo.key 0 to 2, freq_memo.valid], the last 0 or not; samples are [sin, tri, saw, sqr].
// Each call answers a number: 0 done; of an accepted tick what its mark is told by; of a refused call 1 to 7 as the scope has
// them, or 50, 51, 52, 53 where floats, wholes, samples or counts have another length. A refused call writes nothing. A block
// answers 0, with the ticks' samples one after another, their marks by the same numbers, and the tally's counts.
#![tactic(auto)]

ghost use Rattle.std.specs.Prelude.{◌≡◌};
ghost use Rattle.boundary.specs.Flat.{kept, heard, played};
ghost use Rattle.exports_vco.specs.State.{n_floats, n_wholes, n_samples, state_of, floats_of, wholes_of, samples_of};
ghost use Rattle.exports_vco.specs.Calls.{vco_new_at, vco_reset_at, vco_set_sample_rate_at, controls_of, vco_tick_at, vco_block_at};

use answer::Volts;
use boundary::Layout;
use common::{Hertz, Memo, Turns, VoltsPerOctave};
use vco::{Vco, VcoControls};

// Where the edge record's floats begin, and what stands after them.
const EDGE: usize = 2;

const VAL: usize = EDGE + boundary::EDGE_FLOATS;

// Kept, below: controls, floats, wholes, counts, samples and marks stand beside one another, as the C interface lends them; each call stands under its C name
// with its own contract, so that the bodies of reset, set_sample_rate, tick and block are alike in seven crates; and `put` writes the samples that `samples_of`
// names, one by one.

// How a Vco lies in the slices.
struct Cells;

impl Layout for Cells {
    type State = Vco;

    const FLOATS: usize = VAL + 1;

    const WHOLES: usize = 4;

    const SAMPLES: usize = 4;

    ghost FLOATS = { n_floats };

    ghost WHOLES = { n_wholes };

    ghost SAMPLES = { n_samples };

    ghost state_of = { state_of };

    ghost floats_of = { floats_of };

    ghost wholes_of = { wholes_of };

    ghost samples_of = { samples_of };

    fn state(floats: &[f64], wholes: &[u64]) -> Vco {
        Vco {
            phase: Turns(floats[0]),
            sample_rate: Hertz(floats[1]),
            sync_edge: boundary::edge_of(&floats[EDGE..VAL]),
            freq_memo: Memo {
                key: (wholes[0], wholes[1], wholes[2]),
                val: Hertz(floats[VAL]),
                valid: wholes[3] != 0,
            },
        }
    }

    fn store(s: Vco, floats: &mut [f64], wholes: &mut [u64]) {
        floats[0] = s.phase.0;
        floats[1] = s.sample_rate.0;
        boundary::put_edge(s.sync_edge, &mut floats[EDGE..VAL]);
        floats[VAL] = s.freq_memo.val.0;
        wholes[0] = s.freq_memo.key.0;
        wholes[1] = s.freq_memo.key.1;
        wholes[2] = s.freq_memo.key.2;
        wholes[3] = s.freq_memo.valid as u64;
    }

    fn put(v: Volts, samples: &mut [f64]) {
        samples[0] = v.p10;
        samples[1] = v.p11;
        samples[2] = v.p12;
        samples[3] = v.p13;
    }
}

#[unsafe(no_mangle)]
pub extern "C" fn gruttisol_vco_new(
    sample_rate: f64,
    threshold: f64,
    floats: &mut [f64],
    wholes: &mut [u64],
) -> u32
    ensures { kept result floats.new wholes.new ≡ vco_new_at sample_rate threshold floats.old wholes.old }
{
    let made = Vco::new(Hertz(sample_rate), threshold);
    boundary::keep::<Cells>(made.accepted(), floats, wholes)
}

#[unsafe(no_mangle)]
pub extern "C" fn gruttisol_vco_tick(
    voct: f64,
    fm: f64,
    pw: f64,
    sync: f64,
    fm_lin: f64,
    wanted: u32,
    floats: &mut [f64],
    wholes: &mut [u64],
    samples: &mut [f64],
) -> u32
    ensures { heard result floats.new wholes.new samples.new
        ≡ vco_tick_at (controls_of voct fm pw sync fm_lin) wanted floats.old wholes.old samples.old }
{
    match boundary::tick_state::<Cells>(floats, wholes, samples) {
        Ok(vco) => {
            let c = VcoControls {
                voct: VoltsPerOctave(voct),
                fm: VoltsPerOctave(fm),
                pw,
                sync,
                fm_lin,
            };
            boundary::hear::<Cells>(vco.tick(c, wanted), floats, wholes, samples)
        }
        Err(refused) => refused.number(),
    }
}

#[unsafe(no_mangle)]
pub extern "C" fn gruttisol_vco_block(
    voct: f64,
    fm: f64,
    pw: f64,
    sync: f64,
    fm_lin: f64,
    wanted: u32,
    floats: &mut [f64],
    wholes: &mut [u64],
    counts: &mut [u32],
    samples: &mut [f64],
    marks: &mut [u32],
) -> u32
    ensures { played result floats.new wholes.new counts.new samples.new marks.new
        ≡ vco_block_at (controls_of voct fm pw sync fm_lin) wanted floats.old wholes.old counts.old
        samples.old marks.old }
{
    match boundary::block_state::<Cells>(floats, wholes, counts) {
        Ok(begun) => {
            let c = VcoControls {
                voct: VoltsPerOctave(voct),
                fm: VoltsPerOctave(fm),
                pw,
                sync,
                fm_lin,
            };
            let played = begun.state.block(c, wanted, begun.tally, samples, marks);
            boundary::keep_block::<Cells>(played, floats, wholes, counts)
        }
        Err(refused) => refused.number(), // of lengths or counts
    }
}

#[unsafe(no_mangle)]
pub extern "C" fn gruttisol_vco_reset(floats: &mut [f64], wholes: &mut [u64]) -> u32
    ensures { kept result floats.new wholes.new ≡ vco_reset_at floats.old wholes.old }
{
    match boundary::state::<Cells>(floats, wholes) {
        Ok(vco) => boundary::keep::<Cells>(vco.reset(), floats, wholes),
        Err(refused) => refused.number(),
    }
}

#[unsafe(no_mangle)]
pub extern "C" fn gruttisol_vco_set_sample_rate(
    sample_rate: f64,
    floats: &mut [f64],
    wholes: &mut [u64],
) -> u32
    ensures { kept result floats.new wholes.new ≡ vco_set_sample_rate_at sample_rate floats.old wholes.old }
{
    match boundary::state::<Cells>(floats, wholes) {
        Ok(vco) => boundary::keep::<Cells>(vco.set_sample_rate(Hertz(sample_rate)), floats, wholes),
        Err(refused) => refused.number(),
    }
}
