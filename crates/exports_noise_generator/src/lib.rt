// The NoiseGenerator for hosts, over lent slices. A state is floats [pink.rows 0 to 15, pink.running_sum, pink2.rows 0 to 15,
// pink2.running_sum, correlation, last_white] and wholes [pink.index, pink2.index], of each the low 32 bits; samples are
// [white, pink, white2, pink2]. A `given` of 0 leaves a tick's correlation to the stored one.
// Each call but `needed` and `needed_by` answers a number: 0 done; of an accepted tick what its mark, notfinite, steered or clean,
// is told by; of a refused call 5 to 7 as the scope has them, or 50, 51, 52, 53 where floats, wholes, samples or counts have
// another length. A refused call writes nothing. A block answers 0, with the ticks' samples one after another, their marks by the
// same numbers, and the tally's counts.
#![tactic(auto)]

ghost use Rattle.std.specs.Prelude.{◌≡◌, ◌+◌, ◌≤◌, length};
ghost use Rattle.std.proofs.lemmas.List.Edits.{sets};
ghost use Rattle.boundary.specs.Flat.{kept, heard, played};
ghost use Rattle.exports_noise_generator.specs.State.{n_floats, n_wholes, n_samples, rows_at, counter_of, state_of, floats_of, wholes_of, samples_of};
ghost use Rattle.exports_noise_generator.specs.Calls.{noise_generator_new_at, noise_generator_with_correlation_at};
ghost use Rattle.exports_noise_generator.specs.Calls.{noise_generator_needed_at, noise_generator_needed_by_at};
ghost use Rattle.exports_noise_generator.specs.Calls.{controls_of, noise_generator_tick_at, noise_generator_block_at};
ghost use Rattle.exports_noise_generator.specs.Calls.{noise_generator_reset_at, noise_generator_set_sample_rate_at};

use answer::Volts;
use boundary::Layout;
use common::Hertz;
use noise_generator::{NoiseGenerator, NoiseGeneratorControls, PinkNoiseState};

// How many rows a pink has.
const ROWS: usize = 16;

// The rows that stand from a place on.
fn rows_at(floats: &[f64], at: usize) -> [f64; ROWS]
    requires { at + 16 ≤ length floats.now }
    ensures { result ≡ rows_at floats.now at }
{
    std::array::from_fn(|i| floats[at + i])
}

fn put_rows(rows: [f64; ROWS], at: usize, floats: &mut [f64])
    requires { at + 16 ≤ length floats.old }
    ensures { floats.new ≡ sets floats.old at rows }
{
    // Kept: row by row, since by copy_from_slice a tick took 41 ns instead of 22.
    for i in 0..ROWS {
        floats[at + i] = rows[i];
    }
}

// Nothing refuses a larger number, so its low 32 bits count.
#[tactic(auto, unfolding(crate::specs::State::counter_of))]
fn counter(w: u64) -> u32
    ensures { result ≡ counter_of w }
{
    // Kept: `as` is proved to lose nothing here. u32::try_from of the remainder would be no plainer, with an Err to answer for that never comes.
    (w % 4294967296) as u32
}

// Kept, below: `given` and the correlation, floats, wholes, draws, counts, samples and marks stand beside one another, as the C interface lends them, and each
// call stands under its C name with its own contract, though bodies are alike in seven crates. `put` writes the samples that `samples_of` names.

// How a NoiseGenerator lies in the slices.
struct Cells;

impl Layout for Cells {
    type State = NoiseGenerator;

    const FLOATS: usize = 36;

    const WHOLES: usize = 2;

    const SAMPLES: usize = 4;

    ghost FLOATS = { n_floats };

    ghost WHOLES = { n_wholes };

    ghost SAMPLES = { n_samples };

    ghost state_of = { state_of };

    ghost floats_of = { floats_of };

    ghost wholes_of = { wholes_of };

    ghost samples_of = { samples_of };

    #[tactic(auto, unfolding(crate::specs::State::state_of))]
    fn state(floats: &[f64], wholes: &[u64]) -> NoiseGenerator {
        NoiseGenerator {
            pink: PinkNoiseState {
                rows: rows_at(floats, 0),
                running_sum: floats[16],
                index: counter(wholes[0]),
            },
            pink2: PinkNoiseState {
                rows: rows_at(floats, 17),
                running_sum: floats[33],
                index: counter(wholes[1]),
            },
            correlation: floats[34],
            last_white: floats[35],
        }
    }

    fn store(s: NoiseGenerator, floats: &mut [f64], wholes: &mut [u64]) {
        put_rows(s.pink.rows, 0, floats);
        floats[16] = s.pink.running_sum;
        put_rows(s.pink2.rows, 17, floats);
        floats[33] = s.pink2.running_sum;
        floats[34] = s.correlation;
        floats[35] = s.last_white;
        wholes[0] = s.pink.index as u64;
        wholes[1] = s.pink2.index as u64;
    }

    fn put(v: Volts, samples: &mut [f64]) {
        samples[0] = v.p10;
        samples[1] = v.p11;
        samples[2] = v.p12;
        samples[3] = v.p13;
    }
}

#[tactic(auto, unfolding(crate::specs::Calls::noise_generator_new_at, boundary::specs::Flat::kept_result))]
#[unsafe(no_mangle)]
pub extern "C" fn gruttisol_noise_generator_new(floats: &mut [f64], wholes: &mut [u64]) -> u32
    ensures { kept result floats.new wholes.new ≡ noise_generator_new_at floats.old wholes.old }
{
    boundary::keep::<Cells>(Ok(NoiseGenerator::new()), floats, wholes)
}

#[tactic(auto, unfolding(crate::specs::Calls::noise_generator_with_correlation_at, boundary::specs::Flat::kept_result))]
#[unsafe(no_mangle)]
pub extern "C" fn gruttisol_noise_generator_with_correlation(
    correlation: f64,
    floats: &mut [f64],
    wholes: &mut [u64],
) -> u32
    ensures { kept result floats.new wholes.new
        ≡ noise_generator_with_correlation_at correlation floats.old wholes.old }
{
    let noise = NoiseGenerator::with_correlation(correlation);
    boundary::keep::<Cells>(Ok(noise), floats, wholes)
}

// The counters settle what is needed: any floats do.
const ANY: [f64; Cells::FLOATS] = [0.0; Cells::FLOATS];

// How many draws the next tick needs, or 0 where wholes has another length.
#[unsafe(no_mangle)]
pub extern "C" fn gruttisol_noise_generator_needed(wholes: &[u64]) -> u64
    ensures { result ≡ noise_generator_needed_at wholes.now }
{
    boundary::state::<Cells>(&ANY, wholes).map_or(0, |noise| noise.needed() as u64)
}

// How many the next so many ticks need together, likewise.
#[unsafe(no_mangle)]
pub extern "C" fn gruttisol_noise_generator_needed_by(ticks: u32, wholes: &[u64]) -> u64
    ensures { result ≡ noise_generator_needed_by_at ticks wholes.now }
{
    boundary::state::<Cells>(&ANY, wholes).map_or(0, |noise| noise.needed_by(ticks))
}

#[tactic(auto, unfolding(crate::specs::Calls::controls_of))]
fn controls(given: u32, correlation: f64) -> NoiseGeneratorControls
    ensures { result ≡ controls_of given correlation }
{
    NoiseGeneratorControls {
        correlation: if given == 0 { None } else { Some(correlation) },
    }
}

#[unsafe(no_mangle)]
pub extern "C" fn gruttisol_noise_generator_tick(
    given: u32,
    correlation: f64,
    wanted: u32,
    floats: &mut [f64],
    wholes: &mut [u64],
    draws: &[u64],
    samples: &mut [f64],
) -> u32
    ensures { heard result floats.new wholes.new samples.new
        ≡ noise_generator_tick_at given correlation wanted floats.old wholes.old draws.now samples.old }
{
    match boundary::tick_state::<Cells>(floats, wholes, samples) {
        Ok(noise) => {
            let c = controls(given, correlation);
            let ticked = noise.tick(c, wanted, draws);
            boundary::hear::<Cells>(ticked, floats, wholes, samples)
        }
        Err(refused) => refused.number(),
    }
}

#[unsafe(no_mangle)]
pub extern "C" fn gruttisol_noise_generator_block(
    given: u32,
    correlation: f64,
    wanted: u32,
    floats: &mut [f64],
    wholes: &mut [u64],
    draws: &[u64],
    counts: &mut [u32],
    samples: &mut [f64],
    marks: &mut [u32],
) -> u32
    ensures { played result floats.new wholes.new counts.new samples.new marks.new
        ≡ noise_generator_block_at given correlation wanted floats.old wholes.old
        draws.now counts.old samples.old marks.old }
{
    match boundary::block_state::<Cells>(floats, wholes, counts) {
        Ok(begun) => {
            let c = controls(given, correlation);
            let played = begun
                .state
                .block(c, wanted, draws, begun.tally, samples, marks);
            boundary::keep_block::<Cells>(played, floats, wholes, counts)
        }
        Err(refused) => refused.number(),
    }
}

#[unsafe(no_mangle)]
pub extern "C" fn gruttisol_noise_generator_reset(floats: &mut [f64], wholes: &mut [u64]) -> u32
    ensures { kept result floats.new wholes.new ≡ noise_generator_reset_at floats.old wholes.old }
{
    match boundary::state::<Cells>(floats, wholes) {
        Ok(noise) => boundary::keep::<Cells>(Ok(noise.reset()), floats, wholes),
        Err(refused) => refused.number(),
    }
}

#[unsafe(no_mangle)]
pub extern "C" fn gruttisol_noise_generator_set_sample_rate(
    sample_rate: f64,
    floats: &mut [f64],
    wholes: &mut [u64],
) -> u32
    ensures { kept result floats.new wholes.new
        ≡ noise_generator_set_sample_rate_at sample_rate floats.old wholes.old }
{
    match boundary::state::<Cells>(floats, wholes) {
        Ok(noise) => {
            let rated = noise.set_sample_rate(Hertz(sample_rate));
            boundary::keep::<Cells>(Ok(rated), floats, wholes)
        }
        Err(refused) => refused.number(),
    }
}
