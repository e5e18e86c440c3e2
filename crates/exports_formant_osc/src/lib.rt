// The FormantOsc for hosts, over lent slices. A state is floats [phase, vibrato_phase, the ten cells of resonator_state,
// sample_rate, freq_memo.val, the fifteen of coef_memo.val] and wholes [freq_memo.key, freq_memo.valid, the three of coef_memo.key,
// coef_memo.valid], a valid being 0 or not; samples are [out].
// Each call answers a number: 0 done; of an accepted tick what its mark is told by; of a refused call 1 to 7 as the scope has
// them, or 50, 51, 52, 53 where floats, wholes, samples or counts have another length. A refused call writes nothing. A block
// answers 0, with the ticks' samples one after another, their marks by the same numbers, and the tally's counts.
#![tactic(auto)]

ghost use Rattle.std.specs.Prelude.{◌≡◌, ◌+◌, ◌≤◌, length};
ghost use Rattle.std.proofs.lemmas.List.Edits.{sets};
ghost use Rattle.boundary.specs.Flat.{kept, heard, played};
ghost use Rattle.exports_formant_osc.specs.State.{n_floats, n_wholes, n_samples, part, state_of, floats_of, wholes_of, samples_of};
ghost use Rattle.exports_formant_osc.specs.Calls.{formant_osc_new_at, formant_osc_tick_at, formant_osc_block_at};
ghost use Rattle.exports_formant_osc.specs.Calls.{formant_osc_reset_at, formant_osc_set_sample_rate_at};

use answer::Volts;
use boundary::Layout;
use common::{Hertz, Memo, Turns, VoltsPerOctave};
use formant_osc::{FormantOsc, FormantOscControls};

// Cells one after another, the first from the place `at`. The arrays are filled so: a state read float by float is dear to prove.
fn load_cells(floats: &[f64], at: usize, cells: &mut [f64])
    requires { at + length cells.old ≤ length floats.now }
    ensures { cells.new ≡ part floats.now at (length cells.old) }
{
    let n = cells.len();
    cells.copy_from_slice(&floats[at..at + n]);
}

// The cells one after another, the first at the place `at`.
fn store_cells(cells: &[f64], at: usize, floats: &mut [f64])
    requires { at + length cells.now ≤ length floats.old }
    ensures { floats.new ≡ sets floats.old at cells.now }
{
    floats[at..at + cells.len()].copy_from_slice(cells);
}

// Where in the floats the resonators' cells begin, and their coefficients.
const CELLS: usize = 2;

const COEFS: usize = 14;

// Kept, below: the controls, floats, wholes, counts, samples and marks stand beside one another, as the C interface lends them, and each call stands under its
// C name with its own contract, though bodies are alike in seven crates. `put` writes the samples that `samples_of` names.

// How a FormantOsc lies in the slices.
struct Cells;

impl Layout for Cells {
    type State = FormantOsc;

    const FLOATS: usize = 29;

    const WHOLES: usize = 6;

    const SAMPLES: usize = 1;

    ghost FLOATS = { n_floats };

    ghost WHOLES = { n_wholes };

    ghost SAMPLES = { n_samples };

    ghost state_of = { state_of };

    ghost floats_of = { floats_of };

    ghost wholes_of = { wholes_of };

    ghost samples_of = { samples_of };

    fn state(floats: &[f64], wholes: &[u64]) -> FormantOsc {
        let mut resonator_state = [0.0; 10];
        load_cells(floats, CELLS, &mut resonator_state);
        let mut val = [0.0; 15];
        load_cells(floats, COEFS, &mut val);
        FormantOsc {
            phase: Turns(floats[0]),
            vibrato_phase: Turns(floats[1]),
            resonator_state,
            sample_rate: Hertz(floats[12]),
            freq_memo: Memo {
                key: wholes[0],
                val: Hertz(floats[13]),
                valid: wholes[1] != 0,
            },
            coef_memo: Memo {
                key: (wholes[2], wholes[3], wholes[4]),
                val,
                valid: wholes[5] != 0,
            },
        }
    }

    fn store(s: FormantOsc, floats: &mut [f64], wholes: &mut [u64]) {
        store_cells(&s.resonator_state, CELLS, &mut *floats);
        store_cells(&s.coef_memo.val, COEFS, &mut *floats);
        floats[0] = s.phase.0;
        floats[1] = s.vibrato_phase.0;
        floats[12] = s.sample_rate.0;
        floats[13] = s.freq_memo.val.0;
        wholes[0] = s.freq_memo.key;
        wholes[1] = s.freq_memo.valid as u64;
        wholes[2] = s.coef_memo.key.0;
        wholes[3] = s.coef_memo.key.1;
        wholes[4] = s.coef_memo.key.2;
        wholes[5] = s.coef_memo.valid as u64;
    }

    fn put(v: Volts, samples: &mut [f64]) {
        samples[0] = v.p10;
    }
}

#[unsafe(no_mangle)]
pub extern "C" fn gruttisol_formant_osc_new(
    sample_rate: f64,
    floats: &mut [f64],
    wholes: &mut [u64],
) -> u32
    ensures { kept result floats.new wholes.new ≡ formant_osc_new_at sample_rate floats.old wholes.old }
{
    let made = FormantOsc::new(Hertz(sample_rate));
    boundary::keep::<Cells>(made.accepted(), floats, wholes)
}

#[unsafe(no_mangle)]
pub extern "C" fn gruttisol_formant_osc_tick(
    v_oct: f64,
    vowel: f64,
    formant_shift: f64,
    vibrato: f64,
    floats: &mut [f64],
    wholes: &mut [u64],
    samples: &mut [f64],
) -> u32
    ensures { heard result floats.new wholes.new samples.new
        ≡ formant_osc_tick_at v_oct vowel formant_shift vibrato floats.old wholes.old samples.old }
{
    match boundary::tick_state::<Cells>(floats, wholes, samples) {
        Ok(formant_osc) => {
            let c = FormantOscControls {
                v_oct: VoltsPerOctave(v_oct),
                vowel,
                formant_shift,
                vibrato,
            };
            boundary::hear::<Cells>(formant_osc.tick(c), floats, wholes, samples)
        }
        Err(refused) => refused.number(),
    }
}

#[unsafe(no_mangle)]
pub extern "C" fn gruttisol_formant_osc_block(
    v_oct: f64,
    vowel: f64,
    formant_shift: f64,
    vibrato: f64,
    floats: &mut [f64],
    wholes: &mut [u64],
    counts: &mut [u32],
    samples: &mut [f64],
    marks: &mut [u32],
) -> u32
    ensures { played result floats.new wholes.new counts.new samples.new marks.new
        ≡ formant_osc_block_at v_oct vowel formant_shift vibrato floats.old wholes.old counts.old samples.old
        marks.old }
{
    match boundary::block_state::<Cells>(floats, wholes, counts) {
        Ok(begun) => {
            let c = FormantOscControls {
                v_oct: VoltsPerOctave(v_oct),
                vowel,
                formant_shift,
                vibrato,
            };
            let played = begun.state.block(c, begun.tally, samples, marks);
            boundary::keep_block::<Cells>(played, floats, wholes, counts)
        }
        Err(refused) => refused.number(), // of lengths or counts
    }
}

#[unsafe(no_mangle)]
pub extern "C" fn gruttisol_formant_osc_reset(floats: &mut [f64], wholes: &mut [u64]) -> u32
    ensures { kept result floats.new wholes.new ≡ formant_osc_reset_at floats.old wholes.old }
{
    match boundary::state::<Cells>(floats, wholes) {
        Ok(formant_osc) => boundary::keep::<Cells>(formant_osc.reset(), floats, wholes),
        Err(refused) => refused.number(),
    }
}

#[unsafe(no_mangle)]
pub extern "C" fn gruttisol_formant_osc_set_sample_rate(
    sample_rate: f64,
    floats: &mut [f64],
    wholes: &mut [u64],
) -> u32
    ensures { kept result floats.new wholes.new ≡ formant_osc_set_sample_rate_at sample_rate floats.old wholes.old }
{
    match boundary::state::<Cells>(floats, wholes) {
        Ok(formant_osc) => {
            boundary::keep::<Cells>(
                formant_osc.set_sample_rate(Hertz(sample_rate)),
                floats,
                wholes,
            )
        }
        Err(refused) => refused.number(),
    }
}
