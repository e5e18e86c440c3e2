// PinkNoiseState and NoiseGenerator of oscillators.rs: white and pink noise, and beside each a second one that is correlated with it.
// The draws of its noise are lent to each tick. Its outputs: p10 white, p11 pink, p12 white2, p13 pink2.
// A tick changes few rows, so inside the crate they are lent and changed in place: a block copies them once, not at each tick.
#![tactic(auto)]

ghost use Rattle.std.specs.Prelude.{◌≡◌, ℕ, ◌+◌, ◌*◌, ◌<◌, ◌≤◌, true, false, length, slice_index, slice_index_or, Float};
ghost use Rattle.std.specs.Float.{nan};
ghost use Rattle.laws.specs.Float.{InUnit};
ghost use Rattle.numeric.specs.Draw.{bipolar_of};
ghost use Rattle.common.specs.Refusal.{refused_number};
ghost use Rattle.common.specs.Tests.{draws_refusal_of};
ghost use Rattle.answer.specs.Block.{block_said};
ghost use Rattle.answer.specs.Mark.{all_finite, all_numbers, mark_of};
ghost use Rattle.noise_generator.specs.Pink.{new_pink, next_index, changed_of, sampled_of};
ghost use Rattle.noise_generator.specs.NoiseGenerator.{generator, new_noise_generator, with_correlation, needed_of, changed_by, needed_by};
ghost use Rattle.noise_generator.specs.NoiseGenerator.{mix_of, noise_generator_volts_of, turn_of, correlation_of};
ghost use Rattle.noise_generator.specs.NoiseGenerator.{noise_generator_tick_of, noise_generator_block_of, controls_of, restarted, rated};
ghost use Rattle.noise_generator.specs.Shortcuts.{pink_at, needed_at, ticked, turn_volts, Calm, climbed_of};
ghost use Rattle.noise_generator.specs.Promises.{Bounded};

use answer::{Answer, Played, Tally, Ticked, Volts};
use common::{Hertz, Refusal};

// Pink noise: rows of which the counter changes row k at every 2^k-th sample, and their sum as it was rounded on the way.
#[derive(Clone, Copy)]
pub struct PinkNoiseState {
    pub rows: [f64; ROWS],
    pub running_sum: f64,
    pub index: u32,
}

// The Rust's fields less the random stream, which is lent.
#[derive(Clone, Copy)]
pub struct NoiseGenerator {
    pub pink: PinkNoiseState,
    pub pink2: PinkNoiseState,
    pub correlation: f64,
    pub last_white: f64,
}

// The one input: given to this tick, or left to the stored one.
#[derive(Clone, Copy)]
pub struct NoiseGeneratorControls {
    pub correlation: Option<f64>,
}

// How many rows a pink has.
const ROWS: usize = 16;

// How many outputs there are.
const PORTS: usize = 4;

// What a turn goes by beside its draws: the clamped correlation, the mask, whether its outputs are known to be finite, and whether no NaN was given.
#[derive(Clone, Copy)]
struct Asked {
    correlation: f64,
    wanted: u32,
    calm: bool,
    numbers: bool,
}

// A pink without its rows, which are lent beside it.
// Kept: so much apart from the rows, since with both pinks changed in place by `&mut self` a tick took 26 ns instead of 22.
#[derive(Clone, Copy)]
struct Rowless {
    running_sum: f64,
    index: u32,
}

// What a turn leaves beside the rows, and how many draws it took.
#[derive(Clone, Copy)]
struct Turned {
    answer: Answer,
    pink: Rowless,
    pink2: Rowless,
    last_white: f64,
    taken: usize,
}

// next_bipolar of a draw that is known to be below 2^53: no digit is lost on the way, so that 2^-53 and 2.0 may be one factor.
// Kept: beside numeric::bipolar, which is of every draw: by that one a tick took 43.3 ns instead of 39.4 (docs/BENCH.md: 8.8 %).
fn bipolar(draw: u64) -> f64
    requires { draw < 9007199254740992 }
    ensures { result ≡ bipolar_of draw }
{
    (draw as f64) * 2.220446049250313e-16 - 1.0
}

// The row counter's step, from its top back to 0.
#[tactic(auto, unfolding(crate::specs::Pink::next_index))]
fn next_index(index: u32) -> u32
    ensures { result ≡ next_index index }
{
    index.wrapping_add(1)
}

// How many rows change when the counter comes to an index: at 0 all sixteen.
#[tactic(auto, using(crate::proofs::PinkLaws::rows_that_change))]
fn changed(index: u32) -> usize
    ensures { result ≡ changed_of index }
{
    let changed_bits = (index ^ index.wrapping_sub(1)).trailing_ones();
    (changed_bits as usize).min(ROWS)
}

// From -1 to 1. A NaN isn't.
fn in_unit(x: f64) -> bool
    ensures { result ≡ true → InUnit x }
{
    x >= -1.0 && x <= 1.0
}

fn rows_in_unit(rows: [f64; ROWS]) -> bool
    ensures { result ≡ true → (i : ℕ) → i < 16 → InUnit (slice_index_or rows i nan) }
{
    rows.iter().all(|row| in_unit(*row))
}

impl PinkNoiseState {
    #[tactic(auto, unfolding(crate::specs::Pink::new_pink, laws::specs::Lists::tab))]
    fn new() -> Self
        ensures { result ≡ new_pink }
    {
        PinkNoiseState {
            rows: [0.0; ROWS],
            running_sum: 0.0,
            index: 0,
        }
    }

    fn rowless(self) -> Rowless
        ensures { pink_at self.rows result ≡ self }
    {
        Rowless {
            running_sum: self.running_sum,
            index: self.index,
        }
    }

    // Whether its rows lie from -1 to 1 and their sum from -2^54 to 2^54: a sample leaves it so, since 1 more or less is rounded
    // away there.
    fn bounded(self) -> bool
        ensures { result ≡ true → Bounded self }
    {
        self.running_sum >= -18014398509481984.0
            && self.running_sum <= 18014398509481984.0
            && rows_in_unit(self.rows)
    }
}

impl Rowless {
    // The pink of these rows.
    fn with_rows(self, rows: [f64; ROWS]) -> PinkNoiseState
        ensures { result ≡ pink_at rows self }
    {
        PinkNoiseState {
            rows,
            running_sum: self.running_sum,
            index: self.index,
        }
    }

    // The Rust's sample but for what it answers: each row that changes is drawn, the draws standing from place `at` on.
    #[tactic(auto, using(crate::proofs::RowLaws::changed_most), unfolding(crate::specs::Pink::rows_of))]
    fn sample(self, rows: &mut [f64; ROWS], draws: &[u64], at: usize) -> Self
        requires { let n = changed_of (next_index self.index) in
            (at + n ≤ length draws.now) × ((i : ℕ) → i < n → slice_index draws.now (at + i) < 9007199254740992) }
        ensures state { pink_at rows.new result ≡ sampled_of draws.now at (pink_at rows.old self) }
        ensures index { result.index ≡ next_index self.index }
    {
        let index = next_index(self.index);
        let mut running_sum = self.running_sum;
        for i in 0..changed(index) {
            let row = bipolar(draws[at + i]);
            running_sum = running_sum - rows[i] + row;
            rows[i] = row;
        }
        Rowless { running_sum, index }
    }
}

// a where the correlation is 1, b where it is 0.
#[tactic(auto, unfolding(crate::specs::NoiseGenerator::mix_of))]
fn mix(a: f64, b: f64, correlation: f64) -> f64
    ensures { result ≡ mix_of a b correlation }
{
    a * correlation + b * (1.0 - correlation)
}

// How often sixteen rows change while a counter climbs from 0 to n: row k at each multiple of 2^k.
fn climbed(n: u64) -> u64
    requires { n < 9223372036854775808 }
    ensures { result ≡ climbed_of 16 n }
{
    let mut sum = 0;
    let mut rest = n;
    for _ in 0..ROWS {
        sum += rest;
        rest /= 2;
    }
    sum
}

// The rows that change in n ticks.
#[tactic(auto, using(crate::proofs::CountLaws::changed_by_lem))]
fn changed_by(index: u32, n: u64) -> u64
    requires { n < 1152921504606846976 }
    ensures { result ≡ changed_by index n }
{
    let first = index as u64;
    climbed(first + n) - climbed(first)
}

impl NoiseGeneratorControls {
    // Whether no control that is given is NaN.
    #[tactic(auto, unfolding(crate::specs::NoiseGenerator::given_in, answer::specs::Mark::all_numbers))]
    fn are_numbers(self) -> bool
        ensures { result ≡ all_numbers (controls_of self) }
    {
        self.correlation
            .is_none_or(|correlation| answer::numbers([correlation]))
    }
}

impl Asked {
    // The samples with their mark. Where `calm` says that they are finite, none is tested.
    #[tactic(auto, using(answer::proofs::Laws::mark_known), unfolding(crate::specs::NoiseGenerator::noise_generator_volts_of))]
    fn heard(self, white1: f64, independent: f64, pink1: f64, pink2_independent: f64) -> Answer
        requires { self.calm ≡ true
            → all_finite (noise_generator_volts_of self.correlation white1 independent pink1 pink2_independent self.wanted) ≡ true }
        ensures { result ≡ mark_of (noise_generator_volts_of self.correlation white1 independent pink1 pink2_independent self.wanted)
            false true true self.numbers }
    {
        let white2 = mix(white1, independent, self.correlation);
        let pink2 = mix(pink1, pink2_independent, self.correlation);
        let volts = Volts::of([
            common::out(self.wanted & NoiseGenerator::WANT_WHITE != 0, white1),
            common::out(self.wanted & NoiseGenerator::WANT_PINK != 0, pink1),
            common::out(self.wanted & NoiseGenerator::WANT_WHITE2 != 0, white2),
            common::out(self.wanted & NoiseGenerator::WANT_PINK2 != 0, pink2),
        ]);
        if self.calm {
            answer::marked(volts, false, true, true, self.numbers)
        } else {
            answer::mark(volts, false, true, true, self.numbers)
        }
    }
}

impl NoiseGenerator {
    // The bits of `wanted`, in port order.
    const WANT_WHITE: u32 = 1 << 0;

    const WANT_PINK: u32 = 1 << 1;

    const WANT_WHITE2: u32 = 1 << 2;

    const WANT_PINK2: u32 = 1 << 3;

    #[tactic(auto, unfolding(crate::specs::NoiseGenerator::new_noise_generator))]
    pub fn new() -> Self
        ensures { result ≡ new_noise_generator }
    {
        NoiseGenerator {
            pink: PinkNoiseState::new(),
            pink2: PinkNoiseState::new(),
            correlation: 0.3,
            last_white: 0.0,
        }
    }

    // A new one with another correlation. The clamp lets a NaN pass.
    #[tactic(auto, unfolding(crate::specs::NoiseGenerator::with_correlation, crate::specs::NoiseGenerator::new_noise_generator))]
    pub fn with_correlation(correlation: f64) -> Self
        ensures { result ≡ with_correlation correlation }
    {
        NoiseGenerator {
            correlation: numeric::clamp(correlation, 0.0, 1.0),
            ..NoiseGenerator::new()
        }
    }

    // How many draws the next tick needs: white's, independent's, and one for each row that changes.
    #[tactic(auto, using(crate::proofs::RowLaws::changed_most), unfolding(crate::specs::NoiseGenerator::needed_of))]
    pub fn needed(self) -> usize
        ensures { result ≡ needed_of self }
    {
        2 + changed(next_index(self.pink.index)) + changed(next_index(self.pink2.index))
    }

    // The same of n ticks together.
    #[tactic(auto, using(crate::proofs::CountLaws::changed_by_most), unfolding(crate::specs::NoiseGenerator::needed_by))]
    fn needed_in(self, n: u64) -> u64
        requires { n < 1152921504606846976 }
        ensures { result ≡ needed_by self n }
    {
        2 * n + changed_by(self.pink.index, n) + changed_by(self.pink2.index, n)
    }

    // How many draws the next so many ticks need together.
    pub fn needed_by(self, ticks: u32) -> u64
        ensures { result ≡ needed_by self ticks }
    {
        self.needed_in(ticks as u64)
    }

    // The correlation that a tick goes by: the one it is given or the stored one, clamped.
    #[tactic(auto, unfolding(crate::specs::NoiseGenerator::correlation_of, crate::specs::NoiseGenerator::given_or))]
    fn clamped(self, c: NoiseGeneratorControls) -> f64
        ensures { result ≡ correlation_of self c }
    {
        numeric::clamp(c.correlation.unwrap_or(self.correlation), 0.0, 1.0)
    }

    // Whether every tick from here on with these controls has finite outputs. It has from every state that calls reach, unless the
    // correlation is a NaN.
    fn calm(self, c: NoiseGeneratorControls) -> bool
        ensures { result ≡ true → Calm self (correlation_of self c) }
    {
        in_unit(self.clamped(c)) && self.pink.bounded() && self.pink2.bounded()
    }

    // An accepted tick: white's draw, independent's, those of pink and of pink2.
    #[tactic(auto, using(crate::proofs::TurnLaws::turning), unfolding(crate::specs::NoiseGenerator::turn_of, crate::specs::Shortcuts::needed_at))]
    fn turn(
        rows: &mut [f64; ROWS],
        rows2: &mut [f64; ROWS],
        pink: Rowless,
        pink2: Rowless,
        asked: Asked,
        draws: &[u64],
    ) -> Turned
        requires draws_value { draws_refusal_of (needed_at pink pink2) draws.now ≡ 0 }
        requires calm_value { asked.calm ≡ true
            → all_finite (turn_volts asked.correlation (pink_at rows.old pink) (pink_at rows2.old pink2) asked.wanted draws.now) ≡ true }
        ensures state { (stored white : Float)
            → ticked result.answer (generator (pink_at rows.new result.pink) (pink_at rows2.new result.pink2) stored result.last_white)
            ≡ turn_of asked.correlation asked.numbers (generator (pink_at rows.old pink) (pink_at rows2.old pink2) stored white) asked.wanted draws.now }
        ensures taken { result.taken ≡ needed_at pink pink2 }
    {
        let white1 = bipolar(draws[0]);
        let independent = bipolar(draws[1]);
        let after = pink.sample(rows, draws, 2);
        let n = changed(after.index);
        let after2 = pink2.sample(rows2, draws, 2 + n);
        let n2 = changed(after2.index);
        Turned {
            answer: asked.heard(
                white1,
                independent,
                after.running_sum / 16.0,
                after2.running_sum / 16.0,
            ),
            pink: after,
            pink2: after2,
            last_white: white1,
            taken: 2 + n + n2,
        }
    }

    // An accepted tick.
    #[tactic(auto, unfolding(crate::specs::Shortcuts::needed_at, crate::specs::NoiseGenerator::needed_of))]
    fn sound(self, asked: Asked, draws: &[u64]) -> Ticked<NoiseGenerator>
        requires draws_value { draws_refusal_of (needed_of self) draws.now ≡ 0 }
        requires calm_value { asked.calm ≡ true → all_finite (turn_volts asked.correlation self.pink self.pink2 asked.wanted draws.now) ≡ true }
        ensures { result ≡ turn_of asked.correlation asked.numbers self asked.wanted draws.now }
    {
        let mut rows = self.pink.rows;
        let mut rows2 = self.pink2.rows;
        let turned = Self::turn(
            &mut rows,
            &mut rows2,
            self.pink.rowless(),
            self.pink2.rowless(),
            asked,
            draws,
        );
        Ticked {
            answer: turned.answer,
            state: NoiseGenerator {
                pink: turned.pink.with_rows(rows),
                pink2: turned.pink2.with_rows(rows2),
                last_white: turned.last_white,
                ..self
            },
        }
    }

    #[tactic(auto, unfolding(crate::specs::NoiseGenerator::noise_generator_tick_of, common::specs::Refusal::refused_number))]
    pub fn tick(
        self,
        c: NoiseGeneratorControls,
        wanted: u32,
        draws: &[u64],
    ) -> Ticked<NoiseGenerator>
        ensures { result ≡ noise_generator_tick_of self c wanted draws.now }
    {
        match common::draws_refusal(self.needed(), draws) {
            Ok(()) => {
                // One tick alone would pay more for the question whether its state is calm than the answer saves it.
                let asked = Asked {
                    correlation: self.clamped(c),
                    wanted,
                    calm: false,
                    numbers: c.are_numbers(),
                };
                self.sound(asked, draws)
            }
            Err(refused) => Ticked::refused(self, refused),
        }
    }

    // What refuses the draws of n ticks. A tick needs four draws at least: where these are there, no count is too large.
    fn draws_refusal(self, n: usize, draws: &[u64]) -> Result<(), Refusal>
        ensures { refused_number result ≡ draws_refusal_of (needed_by self n) draws.now }
    {
        if draws.len() / 4 < n {
            Err(Refusal::FewDraws)
        } else {
            common::draws_refusal(self.needed_in(n as u64) as usize, draws)
        }
    }

    // As many ticks with these controls as there are marks, each with the draws that those before it left. Their samples come one tick after another.
    // Whether the state is calm, which each tick leaves so, and whether a NaN is given are asked once.
    pub fn block(
        self,
        c: NoiseGeneratorControls,
        wanted: u32,
        draws: &[u64],
        tally: Tally,
        samples: &mut [f64],
        marks: &mut [u32],
    ) -> Result<Played<NoiseGenerator>, Refusal>
        ensures { block_said self tally result samples.new marks.new
            ≡ noise_generator_block_of self c wanted draws.now tally samples.old marks.old }
    {
        let n = marks.len();
        let first = self.draws_refusal(n, draws);
        answer::block_outcome(PORTS, samples.len(), first, tally, n)?;
        let asked = Asked {
            correlation: self.clamped(c),
            wanted,
            calm: self.calm(c),
            numbers: c.are_numbers(),
        };
        let mut rows = self.pink.rows;
        let mut rows2 = self.pink2.rows;
        let mut pink = self.pink.rowless();
        let mut pink2 = self.pink2.rowless();
        let mut last_white = self.last_white;
        let mut at = 0;
        // Kept: a tick by its index: answer::put is told it so, since a proof knows no number of samples after their chunks_exact_mut.
        for i in 0..n {
            let turned = Self::turn(&mut rows, &mut rows2, pink, pink2, asked, &draws[at..]);
            answer::put(turned.answer, PORTS, i, samples, marks);
            pink = turned.pink;
            pink2 = turned.pink2;
            last_white = turned.last_white;
            at += turned.taken;
        }
        Ok(Played {
            state: NoiseGenerator {
                pink: pink.with_rows(rows),
                pink2: pink2.with_rows(rows2),
                last_white,
                ..self
            },
            tally: tally.take_marks(marks).unwrap_or(tally),
        })
    }

    // The correlation stays.
    #[tactic(auto, unfolding(crate::specs::NoiseGenerator::restarted, crate::specs::NoiseGenerator::new_noise_generator))]
    pub fn reset(self) -> Self
        ensures { result ≡ restarted self }
    {
        NoiseGenerator {
            correlation: self.correlation,
            ..NoiseGenerator::new()
        }
    }

    // Nothing of it depends on the rate.
    #[tactic(auto, unfolding(crate::specs::NoiseGenerator::rated))]
    pub fn set_sample_rate(self, sample_rate: Hertz) -> Self
        ensures { result ≡ rated self sample_rate }
    {
        self
    }
}
