// Reads cases from standard input, a line each, runs each and says how many there are and how many differ.
// A case is a name and words, each a space and 16 hexadecimal digits: what goes in, and then what must come out. Of an oscillator a state,
// controls and what is lent go in; the tick's number, the state after it, the samples and a string's line must come out.
// What is printed is held to the file `stdout`. A contract here says only what the safety of its callers needs, but for `find`, which was a library's.
#![tactic(auto)]

ghost use Rattle.std.specs.Prelude.{◌≡◌, ◌≢◌, ℕ, ◌+◌, ◌≤◌, ◌<◌, length, slice_index, IfOk};
ghost use Rattle.std.specs.Counts.{IsPrefixLen};

use exports_formant_osc::gruttisol_formant_osc_tick;
use exports_karplus_strong::gruttisol_karplus_strong_tick;
use exports_lfo::gruttisol_lfo_tick;
use exports_noise_generator::gruttisol_noise_generator_tick;
use exports_supersaw::gruttisol_supersaw_tick;
use exports_vco::gruttisol_vco_tick;
use exports_wavetable::{gruttisol_wavetable_fill_bank, gruttisol_wavetable_tick};
use numeric::bits;
use std::io;
use std::io::Read;
use std::num::{wrapping_add_u64, wrapping_sub_u64};

// What a case is of, in the order in which they are said. A further kind is a case at the end, also of `KINDS`, a name, its words, and an arm of `same_case`
// or of `answer`.
#[derive(Clone, Copy)]
enum Kind {
    Sin,
    Cos,
    Exp2,
    Pow3000,
    Floor,
    Fabs,
    IsFinite,
    Clamp,
    Min,
    Max,
    ToU64,
    OfU64,
    Bits,
    Draw,
    Bipolar,
    Lfo,
    Vco,
    Supersaw,
    Formant,
    Wavetable,
    KarplusStrong,
    NoiseGenerator,
}

const KINDS: [Kind; 22] = [
    Kind::Sin,
    Kind::Cos,
    Kind::Exp2,
    Kind::Pow3000,
    Kind::Floor,
    Kind::Fabs,
    Kind::IsFinite,
    Kind::Clamp,
    Kind::Min,
    Kind::Max,
    Kind::ToU64,
    Kind::OfU64,
    Kind::Bits,
    Kind::Draw,
    Kind::Bipolar,
    Kind::Lfo,
    Kind::Vco,
    Kind::Supersaw,
    Kind::Formant,
    Kind::Wavetable,
    Kind::KarplusStrong,
    Kind::NoiseGenerator,
];

impl Kind {
    fn name(self) -> &'static [u8] {
        match self {
            Kind::Sin => b"sin",
            Kind::Cos => b"cos",
            Kind::Exp2 => b"exp2",
            Kind::Pow3000 => b"pow3000",
            Kind::Floor => b"floor",
            Kind::Fabs => b"fabs",
            Kind::IsFinite => b"is_finite",
            Kind::Clamp => b"clamp",
            Kind::Min => b"min",
            Kind::Max => b"max",
            Kind::ToU64 => b"to_u64",
            Kind::OfU64 => b"of_u64",
            Kind::Bits => b"bits",
            Kind::Draw => b"draw",
            Kind::Bipolar => b"bipolar",
            Kind::Lfo => b"lfo_tick",
            Kind::Vco => b"vco_tick",
            Kind::Supersaw => b"supersaw_tick",
            Kind::Formant => b"formant_tick",
            Kind::Wavetable => b"wavetable_tick",
            Kind::KarplusStrong => b"karplus_strong_tick",
            Kind::NoiseGenerator => b"noise_generator_tick",
        }
    }

    // How many words a case has.
    fn words(self) -> usize {
        match self {
            Kind::Clamp => 4,
            Kind::Min | Kind::Max => 3,
            Kind::Lfo => 25,
            Kind::Vco => 29,
            Kind::Supersaw => 30,
            Kind::Formant => 76,
            Kind::Wavetable => 20,
            Kind::KarplusStrong => 215,
            Kind::NoiseGenerator => 118,
            _ => 2,
        }
    }
}

// ---- the words of a case

// The number of a word.
fn number(word: &[u8; 17]) -> Option<u64> {
    if word[0] == b' ' {
        text::read_hex(&word[1..])
    } else {
        None
    }
}

#[derive(Clone, Copy)]
struct Words<'a> {
    each: &'a [[u8; 17]],
}

impl<'a> Words<'a> {
    // So many words, and nothing else.
    fn of(text: &'a [u8], n: usize) -> Option<Words<'a>> {
        let (each, rest) = text.as_chunks();
        let are_words = rest.is_empty()
            && each.len() == n
            && each.iter().all(|word| number(word).is_some());
        are_words.then_some(Words { each })
    }

    // The number of the k-th, 0 where it is none.
    fn value(self, k: usize) -> u64 {
        self.each.get(k).and_then(number).unwrap_or(0)
    }

    // The number of the last.
    fn last(self) -> u64 {
        self.each.last().and_then(number).unwrap_or(0)
    }

    // The f64 that the k-th stands for.
    fn real(self, k: usize) -> f64 {
        numeric::of_bits(self.value(k))
    }

    // It as a mask of outputs.
    // Kept: the low half, whatever stands above it; a `try_from` would refuse lines that the program takes.
    fn mask(self, k: usize) -> u32 {
        (self.value(k) % 4294967296) as u32
    }

    // So many from one on.
    fn values<const N: usize>(self, from: usize) -> [u64; N]
        requires { from + N ≤ 1000 }
    {
        // Kept: by index, since the edit word_past_the_room writes a word where no room is.
        let mut out = [0; N];
        for i in 0..N {
            out[i] = self.value(from + i);
        }
        out
    }

    fn reals<const N: usize>(self, from: usize) -> [f64; N]
        requires { from + N ≤ 1000 }
    {
        self.values::<N>(from).map(numeric::of_bits)
    }
}

// ---- an oscillator's tick

// What comes out of a tick: its number, the state's floats and whole numbers, the samples, and a string's line.
#[derive(Clone, Copy)]
struct Told<'a> {
    code: u32,
    floats: &'a [f64],
    wholes: &'a [u64],
    samples: &'a [f64],
    line: &'a [f64],
}

impl Told<'_> {
    // Word i of it, 0 past the last.
    // Kept: part by part. By `nth` of a chain of the parts each word goes over all that stand before it, and the list takes 5 % more instructions.
    fn word(self, i: usize) -> u64 {
        if i == 0 {
            return u64::from(self.code);
        }
        let i = i - 1;
        if i < self.floats.len() {
            return bits(self.floats[i]);
        }
        let i = i - self.floats.len();
        if i < self.wholes.len() {
            return self.wholes[i];
        }
        let i = i - self.wholes.len();
        if i < self.samples.len() {
            return bits(self.samples[i]);
        }
        let i = i - self.samples.len();
        if i < self.line.len() {
            bits(self.line[i])
        } else {
            0
        }
    }
}

impl Words<'_> {
    // Those from one on are what comes out.
    fn say(self, from: usize, told: Told) -> bool {
        (from..self.each.len()).all(|k| self.value(k) == told.word(k - from))
    }

    // Those from one on are what comes out of a tick of the state that the first are: so many floats and whole numbers. It has so many samples.
    fn say_tick<
        const F: usize,
        const W: usize,
        const S: usize,
        T: FnOnce(&mut [f64], &mut [u64], &mut [f64]) -> u32,
    >(self, from: usize, tick: T) -> bool
        requires few { F + W + S ≤ 1000 }
        requires callable { T.IsAlwaysCallable tick }
    {
        let mut floats = self.reals::<F>(0);
        let mut wholes = self.values::<W>(F);
        let mut samples = [0.0; S];
        let code = tick(&mut floats, &mut wholes, &mut samples);
        self.say(
            from,
            Told {
                code,
                floats: &floats,
                wholes: &wholes,
                samples: &samples,
                line: &[],
            },
        )
    }
}

fn same_lfo(words: Words) -> bool {
    words.say_tick::<5, 2, 6, _>(11, |floats, wholes, samples| {
        gruttisol_lfo_tick(
            words.real(7),
            words.real(8),
            words.real(9),
            words.mask(10),
            floats,
            wholes,
            samples,
        )
    })
}

fn same_vco(words: Words) -> bool {
    words.say_tick::<5, 4, 4, _>(15, |floats, wholes, samples| {
        gruttisol_vco_tick(
            words.real(9),
            words.real(10),
            words.real(11),
            words.real(12),
            words.real(13),
            words.mask(14),
            floats,
            wholes,
            samples,
        )
    })
}

fn same_supersaw(words: Words) -> bool {
    words.say_tick::<10, 2, 2, _>(15, |floats, wholes, samples| {
        gruttisol_supersaw_tick(
            words.real(12),
            words.real(13),
            words.real(14),
            floats,
            wholes,
            samples,
        )
    })
}

fn same_formant(words: Words) -> bool {
    words.say_tick::<29, 6, 1, _>(39, |floats, wholes, samples| {
        gruttisol_formant_osc_tick(
            words.real(35),
            words.real(36),
            words.real(37),
            words.real(38),
            floats,
            wholes,
            samples,
        )
    })
}

// The bank is the one that our fill makes.
fn same_wavetable(words: Words, bank: &[f64]) -> bool {
    words.say_tick::<5, 2, 1, _>(11, |floats, wholes, samples| {
        gruttisol_wavetable_tick(
            words.real(7),
            words.real(8),
            words.real(9),
            words.real(10),
            floats,
            wholes,
            bank,
            samples,
        )
    })
}

// A line and draws of 62, which is what a string at 1,000 Hz needs.
// Kept: no `say_tick`, which lends no line; with one that it lends and tells, the six other kinds would each hand over an empty one.
fn same_karplus_strong(words: Words) -> bool {
    let mut floats = words.reals::<7>(0);
    let mut wholes = words.values::<4>(7);
    let mut line = words.reals::<62>(16);
    let draws = words.values::<62>(78);
    let mut samples = [0.0; 1];
    let code = gruttisol_karplus_strong_tick(
        words.real(11),
        words.real(12),
        words.real(13),
        words.real(14),
        words.real(15),
        &mut floats,
        &mut wholes,
        &mut line,
        &draws,
        &mut samples,
    );
    words.say(
        140,
        Told {
            code,
            floats: &floats,
            wholes: &wholes,
            samples: &samples,
            line: &line,
        },
    )
}

// 34 draws are the most that a tick needs.
fn same_noise_generator(words: Words) -> bool {
    let draws = words.values::<34>(41);
    words.say_tick::<36, 2, 4, _>(75, |floats, wholes, samples| {
        gruttisol_noise_generator_tick(
            words.mask(40),
            words.real(38),
            words.mask(39),
            floats,
            wholes,
            &draws,
            samples,
        )
    })
}

// ---- a case

// What comes out of a case that is no tick.
// Kept: all kinds are known here, so a match and no table of functions; `same_case` too.
fn answer(kind: Kind, words: Words) -> u64 {
    let x = words.real(0);
    let y = words.real(1);
    match kind {
        Kind::Sin => bits(numeric::sin(x)),
        Kind::Cos => bits(numeric::cos(x)),
        Kind::Exp2 => bits(numeric::exp2(x)),
        Kind::Pow3000 => bits(numeric::pow3000(x)),
        Kind::Floor => bits(numeric::floor(x)),
        Kind::Fabs => bits(numeric::fabs(x)),
        Kind::IsFinite => u64::from(numeric::is_finite(x)),
        Kind::Clamp => bits(numeric::clamp(x, y, words.real(2))),
        Kind::Min => bits(numeric::min(x, y)),
        Kind::Max => bits(numeric::max(x, y)),
        Kind::ToU64 => numeric::to_u64(x),
        Kind::OfU64 => bits(numeric::of_u64(words.value(0))),
        Kind::Draw => bits(numeric::draw(words.value(0))),
        Kind::Bipolar => bits(numeric::bipolar(words.value(0))),
        _ => bits(x),
    }
}

// What comes out of the words of a case is what they say.
fn same_case(kind: Kind, words: Words, bank: &[f64]) -> bool {
    match kind {
        Kind::Lfo => same_lfo(words),
        Kind::Vco => same_vco(words),
        Kind::Supersaw => same_supersaw(words),
        Kind::Formant => same_formant(words),
        Kind::Wavetable => same_wavetable(words, bank),
        Kind::KarplusStrong => same_karplus_strong(words),
        Kind::NoiseGenerator => same_noise_generator(words),
        _ => words.last() == answer(kind, words),
    }
}

// ---- the list

// Where such a byte first stands, from one place on and before another, which is the answer where none stands there.
fn find(text: &[u8], from: usize, end: usize, byte: u8) -> usize
    requires { (from ≤ end) × (end ≤ length text.now) }
    ensures low { from ≤ result }
    ensures high { result ≤ end }
    ensures before { (k : ℕ) → from ≤ k → k < result → slice_index text.now k ≢ byte }
    ensures found { result < end → slice_index text.now result ≡ byte }
{
    text[from..end]
        .iter()
        .position(|b| *b == byte)
        .map_or(end, |n| from + n)
}

// Whether a line that is a case of this kind comes out as it says; no other line is said of.
fn verdict(line: &[u8], kind: Kind, bank: &[f64]) -> Option<bool> {
    let n = find(line, 0, line.len(), b' ');
    if &line[..n] != kind.name() {
        return None;
    }
    let words = Words::of(&line[n..], kind.words())?;
    Some(same_case(kind, words, bank))
}

#[derive(Drop)]
struct Tally {
    lines: u64,
    cases: u64,
    differences: u64,
}

// The lines of a text, the cases of a kind and those that differ. No text has so many that a sum wraps.
fn tallied(text: &[u8], kind: Kind, bank: &[f64]) -> Tally {
    let mut tally = Tally {
        lines: 0,
        cases: 0,
        differences: 0,
    };
    let mut from = 0;
    // Kept: the edit empty_line_for_ever leaves out the step behind a line, which no iterator has.
    while from < text.len() {
        let end = find(text, from, text.len(), b'\n');
        tally.lines = wrapping_add_u64(tally.lines, 1);
        if let Some(same) = verdict(&text[from..end], kind, bank) {
            tally.cases = wrapping_add_u64(tally.cases, 1);
            tally.differences = wrapping_add_u64(tally.differences, u64::from(!same));
        }
        from = end + 1;
    }
    tally
}

fn say_kind(rt: &impl Print, kind: Kind, tally: &Tally) -> io::Result<()> {
    let cases = tally.cases;
    let differences = tally.differences;
    rt.write_all(kind.name())?;
    println!(rt; " cases={cases} differences={differences}")
}

fn say_lines(rt: &impl Print, lines: u64, malformed: u64) -> io::Result<()> {
    println!(rt; "lines={lines} malformed={malformed}")
}

// A line for each kind, and one for the whole text. No line is a case of two kinds, so what is left over is malformed.
fn replay(rt: &impl Print, text: &[u8], bank: &[f64]) -> io::Result<()> {
    let mut lines = 0;
    let mut cases = 0;
    for kind in KINDS {
        let tally = tallied(text, kind, bank);
        say_kind(rt, kind, &tally)?;
        lines = tally.lines;
        cases = wrapping_add_u64(cases, tally.cases);
    }
    say_lines(rt, lines, wrapping_sub_u64(lines, cases))
}

// Room for a whole list.
fn room() -> [u8; 2097152]
    ensures { 2097152 ≡ length result }
{
    [0; 2097152]
}

// Reads until the room is full or the input ends, and says how many bytes came.
// Kept: its like is `read_text` of the program render, which tells a failed read as None, since FailedRead has it so; this one hands the error on.
fn read_full(from: &mut impl Read, room: &mut [u8]) -> io::Result<usize>
    ensures { IfOk result (λ n. IsPrefixLen n room.new) }
{
    let mut done = 0;
    // Kept: no heap, and the library reads an unknown number of bytes into a Vec alone.
    while done < room.len() {
        let more = from.read(&mut room[done..])?;
        if more == 0 {
            break;
        }
        done += more;
    }
    Ok(done)
}

fn main(rt: HostRuntime) -> io::Result<()> {
    let mut input = room();
    let n = read_full(&mut rt.stdin(), &mut input)?;
    if n == input.len() {
        return println!(rt; "too long");
    }
    let mut bank = [0.0; 16384];
    gruttisol_wavetable_fill_bank(&mut bank);
    replay(&rt, &input[..n], &bank)
}
