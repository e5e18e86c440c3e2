// The KarplusStrong for hosts, over lent slices. A state is floats [sample_rate, lp_state, ap_x1, ap_y1, trigger_edge.prev, trigger_edge.threshold,
// freq_memo.val] and wholes [len, write_pos, freq_memo.key, freq_memo.valid], the last 0 or not; samples are [out].
// Each call but `cells` answers a number: 0 done; of an accepted tick what its mark is told by; of a refused call 1 to 7 as the
// scope has them, or 50, 51, 52, 53 where floats, wholes, samples or counts have another length. A refused call writes nothing. A
// block answers 0, with the ticks' samples one after another, their marks by the same numbers, and the tally's counts.
#![tactic(auto)]

ghost use Rattle.std.specs.Prelude.{◌≡◌};
ghost use Rattle.boundary.specs.Flat.{kept, heard, played};
ghost use Rattle.exports_karplus_strong.specs.State.{n_floats, n_wholes, n_samples, state_of, floats_of, wholes_of, samples_of};
ghost use Rattle.exports_karplus_strong.specs.Calls.{left, sounded, rung, karplus_strong_cells_at};
ghost use Rattle.exports_karplus_strong.specs.Calls.{karplus_strong_new_at, karplus_strong_tick_at, karplus_strong_block_at};
ghost use Rattle.exports_karplus_strong.specs.Calls.{karplus_strong_reset_at, karplus_strong_set_sample_rate_at};

use answer::Volts;
use boundary::Layout;
use common::{Hertz, Memo, VoltsPerOctave};
use karplus_strong::{KarplusStrong, KarplusStrongControls};

// Where the edge record's floats begin, and what stands after them.
const EDGE: usize = 4;

const VAL: usize = EDGE + boundary::EDGE_FLOATS;

// Kept, below: the controls, floats, wholes, line, draws, counts, samples and marks stand beside one another, as the C interface lends them, and each call
// stands under its C name with its own contract, though bodies are alike in seven crates. `put` writes the samples that `samples_of` names.

// How a KarplusStrong lies in the slices.
struct Cells;

impl Layout for Cells {
    type State = KarplusStrong;

    const FLOATS: usize = VAL + 1;

    const WHOLES: usize = 4;

    const SAMPLES: usize = 1;

    ghost FLOATS = { n_floats };

    ghost WHOLES = { n_wholes };

    ghost SAMPLES = { n_samples };

    ghost state_of = { state_of };

    ghost floats_of = { floats_of };

    ghost wholes_of = { wholes_of };

    ghost samples_of = { samples_of };

    fn state(floats: &[f64], wholes: &[u64]) -> KarplusStrong {
        KarplusStrong {
            len: wholes[0] as usize,
            write_pos: wholes[1] as usize,
            sample_rate: Hertz(floats[0]),
            lp_state: floats[1],
            ap_x1: floats[2],
            ap_y1: floats[3],
            trigger_edge: boundary::edge_of(&floats[EDGE..VAL]),
            freq_memo: Memo {
                key: wholes[2],
                val: Hertz(floats[VAL]),
                valid: wholes[3] != 0,
            },
        }
    }

    fn store(s: KarplusStrong, floats: &mut [f64], wholes: &mut [u64]) {
        floats[0] = s.sample_rate.0;
        floats[1] = s.lp_state;
        floats[2] = s.ap_x1;
        floats[3] = s.ap_y1;
        boundary::put_edge(s.trigger_edge, &mut floats[EDGE..VAL]);
        floats[VAL] = s.freq_memo.val.0;
        wholes[0] = s.len as u64;
        wholes[1] = s.write_pos as u64;
        wholes[2] = s.freq_memo.key;
        wholes[3] = s.freq_memo.valid as u64;
    }

    fn put(v: Volts, samples: &mut [f64]) {
        samples[0] = v.p10;
    }
}

// The cells that a line needs at a sample rate, or 0 of a rate that every call refuses.
#[unsafe(no_mangle)]
pub extern "C" fn gruttisol_karplus_strong_cells(sample_rate: f64) -> u64
    ensures { result ≡ karplus_strong_cells_at sample_rate }
{
    KarplusStrong::cells(Hertz(sample_rate)) as u64
}

// The lengths are asked before the line is written.
#[unsafe(no_mangle)]
pub extern "C" fn gruttisol_karplus_strong_new(
    sample_rate: f64,
    threshold: f64,
    floats: &mut [f64],
    wholes: &mut [u64],
    line: &mut [f64],
) -> u32
    ensures { left (kept result floats.new wholes.new) line.new
        ≡ karplus_strong_new_at sample_rate threshold floats.old wholes.old line.old }
{
    match boundary::sizes(Cells::FLOATS, Cells::WHOLES, floats, wholes) {
        Ok(()) => {
            let made = KarplusStrong::new(Hertz(sample_rate), threshold, line);
            boundary::keep::<Cells>(made.accepted(), floats, wholes)
        }
        Err(refused) => refused.number(),
    }
}

#[unsafe(no_mangle)]
pub extern "C" fn gruttisol_karplus_strong_tick(
    voct: f64,
    trigger: f64,
    damping: f64,
    brightness: f64,
    stretch: f64,
    floats: &mut [f64],
    wholes: &mut [u64],
    line: &mut [f64],
    draws: &[u64],
    samples: &mut [f64],
) -> u32
    ensures { sounded (heard result floats.new wholes.new samples.new) line.new
        ≡ karplus_strong_tick_at voct trigger damping brightness stretch floats.old wholes.old line.old
        draws.now samples.old }
{
    match boundary::tick_state::<Cells>(floats, wholes, samples) {
        Ok(string) => {
            let c = KarplusStrongControls {
                voct: VoltsPerOctave(voct),
                trigger,
                damping,
                brightness,
                stretch,
            };
            boundary::hear::<Cells>(string.tick(c, draws, line), floats, wholes, samples)
        }
        Err(refused) => refused.number(),
    }
}

#[unsafe(no_mangle)]
pub extern "C" fn gruttisol_karplus_strong_block(
    voct: f64,
    trigger: f64,
    damping: f64,
    brightness: f64,
    stretch: f64,
    floats: &mut [f64],
    wholes: &mut [u64],
    line: &mut [f64],
    draws: &[u64],
    counts: &mut [u32],
    samples: &mut [f64],
    marks: &mut [u32],
) -> u32
    ensures { rung (played result floats.new wholes.new counts.new samples.new marks.new) line.new
        ≡ karplus_strong_block_at voct trigger damping brightness stretch floats.old wholes.old line.old draws.now
        counts.old samples.old marks.old }
{
    match boundary::block_state::<Cells>(floats, wholes, counts) {
        Ok(begun) => {
            let c = KarplusStrongControls {
                voct: VoltsPerOctave(voct),
                trigger,
                damping,
                brightness,
                stretch,
            };
            let played = begun
                .state
                .block(c, draws, begun.tally, line, samples, marks);
            boundary::keep_block::<Cells>(played, floats, wholes, counts)
        }
        Err(refused) => refused.number(), // of lengths or counts
    }
}

#[unsafe(no_mangle)]
pub extern "C" fn gruttisol_karplus_strong_reset(
    floats: &mut [f64],
    wholes: &mut [u64],
    line: &mut [f64],
) -> u32
    ensures { left (kept result floats.new wholes.new) line.new
        ≡ karplus_strong_reset_at floats.old wholes.old line.old }
{
    match boundary::state::<Cells>(floats, wholes) {
        Ok(string) => boundary::keep::<Cells>(string.reset(line), floats, wholes),
        Err(refused) => refused.number(),
    }
}

#[unsafe(no_mangle)]
pub extern "C" fn gruttisol_karplus_strong_set_sample_rate(
    sample_rate: f64,
    floats: &mut [f64],
    wholes: &mut [u64],
    line: &mut [f64],
) -> u32
    ensures { left (kept result floats.new wholes.new) line.new
        ≡ karplus_strong_set_sample_rate_at sample_rate floats.old wholes.old line.old }
{
    match boundary::state::<Cells>(floats, wholes) {
        Ok(string) => {
            let rated = string.set_sample_rate(Hertz(sample_rate), line);
            boundary::keep::<Cells>(rated, floats, wholes)
        }
        Err(refused) => refused.number(),
    }
}
