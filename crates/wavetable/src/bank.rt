// The bank: 8 tables (sine, triangle, saw, square, pulse of 25 % and of 12.5 %, vowels ah and oh), each of 8 levels, each
// of 256 numbers, in that order. The Rust's generate_tables works out every number by itself; here the levels of a series
// share their terms, since the sum of a poorer level is where that of a richer one begins.
ghost use Rattle.std.specs.Prelude.{◌≡◌, ◌≤◌, ◌<◌, ◌+◌, fold};
ghost use Rattle.numeric.specs.Basic.{real_of};
ghost use Rattle.std.specs.Float.Ieee.{neg};
ghost use Rattle.laws.specs.Float.{zer};
ghost use Rattle.laws.specs.Lists.{tab};
ghost use Rattle.wavetable.specs.Bank.{partial_of, harmonic_of, turned, term_of, terms_of, sum_of, scale_of, gated_of};
ghost use Rattle.wavetable.specs.Bank.{vowel_of, plain_of, table_of, filled, fill_table_of, fill_bank_of};
ghost use Rattle.wavetable.specs.Consts.{table_size, num_mips};
ghost use Rattle.wavetable.specs.Harmonics.{max_harmonic};
ghost use Rattle.wavetable.specs.Shortcuts.{series_number, plain_number, number_of, IsTable, first_sign, factor_of, Right};

use common::Refusal;

// The tables that are sums of harmonics, by their numbers in the bank.
#[derive(Clone, Copy)]
enum Series {
    Triangle = 1,
    Saw = 2,
    Square = 3,
    Pulse25 = 4,
    Pulse12 = 5,
}

// The others: a sine, and two vowels.
#[derive(Clone, Copy)]
enum Plain {
    Sine = 0,
    FormantA = 6,
    FormantO = 7,
}

// A table of the bank. Kept: neither an Option nor a Result, since each of the two cases is a table.
#[derive(Clone, Copy)]
enum WavetableType {
    Series(Series),
    Plain(Plain),
}

impl TryFrom<usize> for WavetableType {
    type Error = Refusal;

    ghost try_from_gives = { IsTable };

    fn try_from(number: usize) -> Result<Self, Refusal> {
        match number {
            0 => Ok(WavetableType::Plain(Plain::Sine)),
            1 => Ok(WavetableType::Series(Series::Triangle)),
            2 => Ok(WavetableType::Series(Series::Saw)),
            3 => Ok(WavetableType::Series(Series::Square)),
            4 => Ok(WavetableType::Series(Series::Pulse25)),
            5 => Ok(WavetableType::Series(Series::Pulse12)),
            6 => Ok(WavetableType::Plain(Plain::FormantA)),
            7 => Ok(WavetableType::Plain(Plain::FormantO)),
            _ => Err(Refusal::Bank),
        }
    }
}

// A sine of this harmonic at place i of 256.
#[tactic(auto, unfolding(crate::specs::Bank::partial_of))]
fn partial(harmonic: f64, i: usize) -> f64
    ensures { result ≡ partial_of harmonic i }
{
    let phase = crate::real(i) / 256.0;
    numeric::sin(phase * harmonic * 2.0 * numeric::PI)
}

// Kept: `harmonic`, `factor` and `term` ask that k is below 64, which keeps 2 * k + 1 in range, and `terms`, `vowel` and `cell` that a level is below 8, as
// `max_harmonic` does, which they call. Types of such numbers would be made of a loop's own number at each call and be taken apart again in it.
impl Series {
    // The harmonic of term k: odd ones only in triangle and square.
    #[tactic(auto, unfolding(crate::specs::Bank::harmonic_of))]
    fn harmonic(self, k: usize) -> usize
        requires { k < 64 }
        ensures { result ≡ harmonic_of (series_number self) k }
    {
        match self {
            Series::Triangle | Series::Square => 2 * k + 1,
            _ => k + 1,
        }
    }

    #[tactic(auto, unfolding(crate::specs::Shortcuts::first_sign))]
    fn first_sign(self) -> f64
        ensures { result ≡ first_sign (series_number self) }
    {
        match self {
            Series::Triangle => 1.0,
            _ => -1.0,
        }
    }

    // What term k's partial is multiplied by, whatever the place: a sign, or a pulse's coefficient.
    #[tactic(auto, unfolding(crate::specs::Shortcuts::factor_of, crate::specs::Bank::coef_of))]
    fn factor(self, k: usize, sign: f64) -> f64
        requires { (k < 64) × (sign ≡ turned k (first_sign (series_number self))) }
        ensures { result ≡ factor_of (series_number self) k }
    {
        let h = crate::real(self.harmonic(k));
        match self {
            Series::Pulse25 => numeric::sin(numeric::PI * h * 0.25) / h,
            Series::Pulse12 => numeric::sin(numeric::PI * h * 0.125) / h,
            _ => sign,
        }
    }

    fn factors(self) -> [f64; 64]
        ensures { result ≡ tab (factor_of (series_number self)) 64 }
    {
        let mut factors = [0.0; 64];
        let mut sign = self.first_sign();
        for (k, f) in factors.iter_mut().enumerate() {
            *f = self.factor(k, sign);
            sign = -sign;
        }
        factors
    }

    // Term k at place i.
    #[tactic(auto, unfolding(crate::specs::Bank::term_of, crate::specs::Shortcuts::factor_of, crate::specs::Shortcuts::first_sign))]
    fn term(self, k: usize, i: usize, a: f64) -> f64
        requires { (k < 64) × (a ≡ factor_of (series_number self) k) }
        ensures { result ≡ term_of (series_number self) k i }
    {
        let h = crate::real(self.harmonic(k));
        let p = partial(h, i);
        match self {
            Series::Triangle => a * p / (h * h),
            Series::Saw => a * p / h,
            Series::Square => p / h,
            _ => a * p,
        }
    }

    // How many terms a level has.
    #[tactic(auto, using(crate::proofs::Counts::harmonics_most), unfolding(crate::specs::Bank::terms_of))]
    fn terms(self, level: usize) -> usize
        requires { level < num_mips }
        ensures { result ≡ terms_of (series_number self) level }
    {
        let n = crate::max_harmonic(self as usize, level);
        match self {
            Series::Triangle | Series::Square => (n + 1) / 2,
            _ => n,
        }
    }

    // The sum of the first n terms, from that of the first k.
    fn extend(self, i: usize, factors: &[f64; 64], from: f64, k: usize, n: usize) -> f64
        requires { (k ≤ n) × (n ≤ 64) × (from ≡ sum_of (series_number self) k i) × (factors.now ≡ tab (factor_of (series_number self)) 64) }
        ensures { result ≡ sum_of (series_number self) n i }
    {
        let mut sum = from;
        for j in k..n {
            sum += self.term(j, i, factors[j]);
        }
        sum
    }

    #[tactic(auto, unfolding(crate::specs::Bank::scale_of))]
    fn scale(self) -> f64
        ensures { result ≡ scale_of (series_number self) }
    {
        match self {
            Series::Triangle => 8.0 / (numeric::PI * numeric::PI),
            Series::Saw => 2.0 / numeric::PI,
            Series::Square => 4.0 / numeric::PI,
            _ => 2.0,
        }
    }

    // Place i of each level, from the poorest level to the richest: each goes on where the last stopped.
    fn column(self, part: &mut [f64; crate::PART_SIZE], i: usize, factors: &[f64; 64])
        requires { (i < table_size) × (factors.now ≡ tab (factor_of (series_number self)) 64) × Right (series_number self) part.old i num_mips }
        ensures { Right (series_number self) part.new (i + 1) num_mips }
    {
        let by = self.scale();
        let mut k = 0;
        let mut sum = 0.0;
        for level in (0..crate::NUM_MIPS).rev() {
            let n = self.terms(level);
            sum = self.extend(i, factors, sum, k, n);
            part[crate::TABLE_SIZE * level + i] = sum * by;
            k = n;
        }
    }

    fn fill(self, part: &mut [f64; crate::PART_SIZE])
        ensures { part.new ≡ table_of (series_number self) }
    {
        let factors = self.factors();
        for i in 0..crate::TABLE_SIZE {
            self.column(part, i, &factors);
        }
    }
}

// One more partial of a vowel, where the level has it.
#[tactic(auto, unfolding(crate::specs::Bank::gated_of))]
fn gated(most: f64, i: usize, sum: f64, harmonic: f64, amp: f64) -> f64
    ensures { result ≡ gated_of most i sum harmonic amp }
{
    if harmonic <= most {
        sum + partial(harmonic, i) * amp
    } else {
        sum
    }
}

// The sum of those partials that the level has, each by its harmonic and its amplitude. The Rust's sum of an iterator starts from -0.0.
fn partials(most: f64, i: usize, all: &[(f64, f64)]) -> f64
    ensures { result ≡ fold (λ sum p. gated_of most i sum p.0 p.1) (neg zer) all.now }
{
    all.iter().fold(
        -0.0,
        |sum, (harmonic, amp)| gated(most, i, sum, *harmonic, *amp),
    )
}

impl Plain {
    #[tactic(auto, unfolding(crate::specs::Bank::vowel_of))]
    fn vowel(self, level: usize, i: usize) -> f64
        requires { level < num_mips }
        ensures { result ≡ vowel_of (plain_number self) (real_of (max_harmonic (plain_number self) level)) i }
    {
        let most = crate::real(crate::max_harmonic(self as usize, level));
        match self {
            Plain::FormantA => partials(
                most,
                i,
                &[(1.0, 1.0), (2.7, 0.5), (4.6, 0.3), (9.6, 0.15)],
            ),
            _ => partials(most, i, &[(1.0, 1.0), (1.5, 0.6), (3.0, 0.4), (10.0, 0.15)]),
        }
    }

    // A number of the table.
    #[tactic(auto, unfolding(crate::specs::Bank::plain_of))]
    fn cell(self, level: usize, i: usize) -> f64
        requires { level < num_mips }
        ensures { result ≡ plain_of (plain_number self) level i }
    {
        match self {
            Plain::Sine => partial(1.0, i),
            _ => self.vowel(level, i) * 0.5,
        }
    }

    fn fill(self, part: &mut [f64; crate::PART_SIZE])
        ensures { part.new ≡ table_of (plain_number self) }
    {
        for (j, x) in part.iter_mut().enumerate() {
            *x = self.cell(j / crate::TABLE_SIZE, j % crate::TABLE_SIZE);
        }
    }
}

impl WavetableType {
    // In the bank's order.
    const ALL: [WavetableType; crate::NUM_TABLES] = [
        WavetableType::Plain(Plain::Sine),
        WavetableType::Series(Series::Triangle),
        WavetableType::Series(Series::Saw),
        WavetableType::Series(Series::Square),
        WavetableType::Series(Series::Pulse25),
        WavetableType::Series(Series::Pulse12),
        WavetableType::Plain(Plain::FormantA),
        WavetableType::Plain(Plain::FormantO),
    ];

    // The table into a part of a bank. Refused: a part of another size.
    #[tactic(auto, unfolding(crate::specs::Bank::fill_table_of))]
    fn fill(self, part: &mut [f64]) -> Result<(), Refusal>
        ensures { filled result part.new ≡ fill_table_of (number_of self) part.old }
    {
        let part = part.as_mut_array().ok_or(Refusal::Bank)?;
        match self {
            WavetableType::Series(series) => series.fill(part),
            WavetableType::Plain(plain) => plain.fill(part),
        }
        Ok(())
    }
}

// One table into a part of a bank. Refused: a part of another size, or no such table.
#[tactic(auto, unfolding(crate::specs::Bank::fill_table_of))]
pub fn fill_table(part: &mut [f64], table: usize) -> Result<(), Refusal>
    ensures { filled result part.new ≡ fill_table_of table part.old }
{
    WavetableType::try_from(table)?.fill(part)
}

// Every table. Refused: a bank of another size.
pub fn fill_bank(bank: &mut [f64]) -> Result<(), Refusal>
    ensures { filled result bank.new ≡ fill_bank_of bank.old }
{
    if bank.len() != crate::BANK_SIZE {
        return Err(Refusal::Bank);
    }
    // Kept: each part by its place, since a proof knows no number of a bank after its chunks_exact_mut.
    for (number, table) in WavetableType::ALL.iter().enumerate() {
        let start = crate::PART_SIZE * number;
        table.fill(&mut bank[start..start + crate::PART_SIZE])?;
    }
    Ok(())
}
