// Added by the scope: what a tick answers, how it is marked, and the tally of the answers. One text for all oscillators.
#![tactic(auto)]

ghost use Rattle.std.specs.Prelude.{◌≡◌, ◌<◌, ◌≤◌, ◌+◌, ◌*◌, length, get_or, set, eqb};
ghost use Rattle.std.proofs.lemmas.List.Edits.{sets};
ghost use Rattle.laws.specs.Float.{zer};
ghost use Rattle.common.specs.Refusal.{refused_number};
ghost use Rattle.answer.specs.Answer.{volts_from, mark_number, host_number, volts_of, accepted, answer_of};
ghost use Rattle.answer.specs.Calls.{refused_tick, making, changing};
ghost use Rattle.answer.specs.Mark.{all_finite, all_numbers, marked_of, mark_of};
ghost use Rattle.answer.specs.Tally.{new_tally, sum_of, adds_up, one_if, counted, tally_of};
ghost use Rattle.answer.specs.Block.{many_to, cells_of, room_for, grown_by, marks_taken, ports_of, framed, block_refusal_of};

use common::Refusal;

// Sample volts: a field for each output port number of the Rust, and p15, which is ours. An output that an oscillator doesn't have, or
// that isn't wanted, reads 0.0.
#[derive(Clone, Copy)]
pub struct Volts {
    pub p10: f64,
    pub p11: f64,
    pub p12: f64,
    pub p13: f64,
    pub p14: f64,
    pub p15: f64,
}

// Output i of so many.
fn port(ports: &[f64], i: usize) -> f64
    ensures { result ≡ get_or ports.now i zer }
{
    ports.get(i).copied().unwrap_or(0.0)
}

impl Volts {
    // Of an oscillator with so many outputs, in port order.
    pub fn of<const N: usize>(ports: [f64; N]) -> Self
        ensures { result ≡ volts_from ports.entry }
    {
        Volts {
            p10: port(&ports, 0),
            p11: port(&ports, 1),
            p12: port(&ports, 2),
            p13: port(&ports, 3),
            p14: port(&ports, 4),
            p15: port(&ports, 5),
        }
    }
}

// The marks' numbers. A number keeps its meaning: the first four are those of the scope's rules, and steered, whose rule comes before
// clean's, came later.
// Kept: numbers, and 0 of a refused tick, for they are public, and ToldNumbers and the tally's definitions speak of them.
pub const CLEARED: u32 = 1;

pub const NOTFINITE: u32 = 2;

pub const LOST: u32 = 3;

pub const CLEAN: u32 = 4;

pub const STEERED: u32 = 5;

// What a host is told of each, by a tick and in the marks of a block.
const TOLD_CLEARED: u32 = 10 + CLEARED;

const TOLD_NOTFINITE: u32 = 10 + NOTFINITE;

const TOLD_LOST: u32 = 10 + LOST;

const TOLD_CLEAN: u32 = 10 + CLEAN;

const TOLD_STEERED: u32 = 10 + STEERED;

// What a tick answers: its mark with its samples, or the number that refused it. The marks stand in the order of their numbers, so
// that a number is computed, and not looked up.
// Kept: no Result of a mark, for the scope names this form, marks that carry samples beside a refused case with a number; and that number may be any that a
// host was told, also one of no Refusal: ToldNumbers speaks of each.
#[derive(Clone, Copy)]
pub enum Answer {
    Cleared(Volts),
    NotFinite(Volts),
    Lost(Volts),
    Clean(Volts),
    Steered(Volts),
    Refused(u32),
}

// What a tick leaves: its answer, and the oscillator after it.
#[derive(Clone, Copy)]
pub struct Ticked<S> {
    pub answer: Answer,
    pub state: S,
}

impl<S: Copy> Ticked<S> {
    // A refused one leaves the state that it was given.
    pub fn refused(state: S, why: Refusal) -> Self
        ensures { result ≡ refused_tick state why }
    {
        Ticked {
            answer: Answer::Refused(why.number()),
            state,
        }
    }
}

// What making an oscillator leaves.
// Kept: no Result, for a refused `new` leaves a state too, which every call refuses, as making it was refused.
#[derive(Clone, Copy)]
pub struct Made<S> {
    pub outcome: Result<(), Refusal>,
    pub state: S,
}

impl<S: Copy> Made<S> {
    // The state, where nothing refused its making.
    #[tactic(auto, unfolding(crate::specs::Calls::changing, common::specs::Refusal::refused_number))]
    pub fn accepted(self) -> Result<S, Refusal>
        ensures { changing self.state result ≡ making self }
    {
        match self.outcome {
            Ok(()) => Ok(self.state),
            Err(refused) => Err(refused),
        }
    }
}

// What an accepted block leaves beside its samples and marks.
#[derive(Clone, Copy)]
pub struct Played<S> {
    pub state: S,
    pub tally: Tally,
}

// The number of an answer's mark; 0 of a refused tick.
pub fn mark_number(a: Answer) -> u32
    ensures { result ≡ mark_number a }
{
    match a {
        Answer::Cleared(_) => CLEARED,
        Answer::NotFinite(_) => NOTFINITE,
        Answer::Lost(_) => LOST,
        Answer::Clean(_) => CLEAN,
        Answer::Steered(_) => STEERED,
        Answer::Refused(_) => 0,
    }
}

pub fn is_accepted(a: Answer) -> bool
    ensures { result ≡ accepted a }
{
    mark_number(a) != 0
}

// What a host is told of an answer: its mark, or the number that refused the tick.
pub fn host_number(a: Answer) -> u32
    ensures { result ≡ host_number a }
{
    match a {
        Answer::Cleared(_) => TOLD_CLEARED,
        Answer::NotFinite(_) => TOLD_NOTFINITE,
        Answer::Lost(_) => TOLD_LOST,
        Answer::Clean(_) => TOLD_CLEAN,
        Answer::Steered(_) => TOLD_STEERED,
        Answer::Refused(n) => n,
    }
}

// The samples; a refused tick has none.
pub fn samples(a: Answer) -> Volts
    ensures { result ≡ volts_of a }
{
    match a {
        Answer::Cleared(v) => v,
        Answer::NotFinite(v) => v,
        Answer::Lost(v) => v,
        Answer::Clean(v) => v,
        Answer::Steered(v) => v,
        Answer::Refused(_) => Volts::of([0.0]),
    }
}

// And back: the answer that a host was told by this number, with its volts. A number that is no mark's refuses.
// Kept: no From, for it is public, and Settled speaks of it; no TryFrom, for each number has its answer.
pub fn answer_of(number: u32, v: Volts) -> Answer
    ensures { result ≡ answer_of number v }
{
    if number == TOLD_CLEARED {
        Answer::Cleared(v)
    } else if number == TOLD_NOTFINITE {
        Answer::NotFinite(v)
    } else if number == TOLD_LOST {
        Answer::Lost(v)
    } else if number == TOLD_STEERED {
        Answer::Steered(v)
    } else if number == TOLD_CLEAN {
        Answer::Clean(v)
    } else {
        Answer::Refused(number)
    }
}

#[tactic(auto, unfolding(crate::specs::Mark::all_finite))]
fn all_finite(v: Volts) -> bool
    ensures { result ≡ all_finite v }
{
    numeric::is_finite(v.p10)
        && numeric::is_finite(v.p11)
        && numeric::is_finite(v.p12)
        && numeric::is_finite(v.p13)
        && numeric::is_finite(v.p14)
        && numeric::is_finite(v.p15)
}

// Whether no control is NaN; an infinity is a number. Each is asked by itself: a sum of numbers can be NaN.
pub fn numbers<const N: usize>(controls: [f64; N]) -> bool
    ensures { result ≡ all_numbers controls.entry }
{
    controls.iter().all(|x| !x.is_nan())
}

// A tick's answer, by the first rule that applies: each mark is made here. `zeroed`: the string zeroed its line. `finite`: the
// volts are, and what stands before an output's clamp. `phases`: each phase plus its increment is finite. `numbers`: no control
// given to the tick is NaN.
#[tactic(auto, unfolding(crate::specs::Mark::marked_of, crate::specs::Mark::rule_of, crate::specs::Answer::answer_of))]
pub fn marked(v: Volts, zeroed: bool, finite: bool, phases: bool, numbers: bool) -> Answer
    ensures { result ≡ marked_of v zeroed finite phases numbers }
{
    if zeroed {
        Answer::Cleared(v)
    } else if finite {
        if phases {
            if numbers {
                Answer::Clean(v)
            } else {
                Answer::Steered(v)
            }
        } else {
            Answer::Lost(v)
        }
    } else {
        Answer::NotFinite(v)
    }
}

// The same where the volts are still to be tested. `sums`: what stands before an output's clamp is finite.
pub fn mark(v: Volts, zeroed: bool, sums: bool, phases: bool, numbers: bool) -> Answer
    ensures { result ≡ mark_of v zeroed sums phases numbers }
{
    marked(v, zeroed, sums && all_finite(v), phases, numbers)
}

// The counts of the answers that it took: begun is their sum.
#[derive(Clone, Copy)]
pub struct Tally {
    pub begun: u32,
    pub finished: u32,
    pub cleared: u32,
    pub notfinite: u32,
    pub lost: u32,
    pub steered: u32,
}

fn one_if(n: u32, k: u32) -> u32
    ensures { result ≡ one_if n k }
{
    if n == k { 1 } else { 0 }
}

// How many of the marks are k.
fn count_of(marks: &[u32], k: u32) -> u32
    requires { length marks.now ≤ 4294967295 }
    ensures { result ≡ many_to k (cells_of marks.now) (length marks.now) }
{
    let mut many = 0;
    for mark in marks {
        many += one_if(*mark, k);
    }
    many
}

impl Tally {
    pub fn new() -> Self
        ensures { result ≡ new_tally }
    {
        Tally {
            begun: 0,
            finished: 0,
            cleared: 0,
            notfinite: 0,
            lost: 0,
            steered: 0,
        }
    }

    // The sum in 64 bits, so that it can't wrap.
    fn adds_up(self) -> bool
        ensures { result ≡ adds_up self }
    {
        let sum = (self.finished as u64)
            + (self.cleared as u64)
            + (self.notfinite as u64)
            + (self.lost as u64)
            + (self.steered as u64);
        self.begun as u64 == sum
    }

    // One more answer with the mark n.
    fn count(self, n: u32) -> Self
        requires { (self.begun < 4294967295) × (self.begun ≡ sum_of self) }
        ensures { result ≡ counted self n }
    {
        Tally {
            begun: self.begun + 1,
            finished: self.finished + one_if(n, CLEAN),
            cleared: self.cleared + one_if(n, CLEARED),
            notfinite: self.notfinite + one_if(n, NOTFINITE),
            lost: self.lost + one_if(n, LOST),
            steered: self.steered + one_if(n, STEERED),
        }
    }

    // The tally given a tick's answer. A refused tick counts nowhere.
    pub fn take(self, a: Answer) -> Result<Tally, Refusal>
        ensures { result ≡ tally_of self a }
    {
        if !self.adds_up() {
            return Err(Refusal::Tally);
        }
        let n = mark_number(a);
        if n == 0 {
            Ok(self)
        } else if self.begun == u32::MAX {
            Err(Refusal::Tally)
        } else {
            Ok(self.count(n))
        }
    }

    // Whether n more answers can be taken.
    pub fn has_room(self, n: usize) -> bool
        ensures { result ≡ room_for self n }
    {
        self.adds_up() && n <= 4294967295 - (self.begun as usize)
    }

    // So many more answers of each mark.
    fn grown(self, clean: u32, cleared: u32, notfinite: u32, lost: u32, steered: u32) -> Self
        requires { (self.begun ≡ sum_of self) × (self.begun + (clean + cleared + notfinite + lost + steered) ≤ 4294967295) }
        ensures { result ≡ grown_by self clean cleared notfinite lost steered }
    {
        Tally {
            begun: self.begun + (clean + cleared + notfinite + lost + steered),
            finished: self.finished + clean,
            cleared: self.cleared + cleared,
            notfinite: self.notfinite + notfinite,
            lost: self.lost + lost,
            steered: self.steered + steered,
        }
    }

    // The tally given the marks of a block, by the numbers that a host is told; 7 without room for all of them. A number that is no
    // mark's counts nowhere. Where all are clean, as in nearly every block, the others aren't counted.
    pub fn take_marks(self, marks: &[u32]) -> Result<Tally, Refusal>
        ensures { result ≡ marks_taken self marks.now }
    {
        if !self.has_room(marks.len()) {
            return Err(Refusal::Tally);
        }
        let clean = count_of(marks, TOLD_CLEAN);
        if clean as usize == marks.len() {
            Ok(self.grown(clean, 0, 0, 0, 0))
        } else {
            Ok(self.grown(
                clean,
                count_of(marks, TOLD_CLEARED),
                count_of(marks, TOLD_NOTFINITE),
                count_of(marks, TOLD_LOST),
                count_of(marks, TOLD_STEERED),
            ))
        }
    }
}

// Whether so many samples are those of n ticks with so many outputs each. A product could be too large.
// Kept: outputs, samples and ticks are told apart, here and below, as the contract of the public `block_refusal` does.
fn fits(ports: usize, samples: usize, n: usize) -> bool
    ensures { result ≡ eqb samples (ports * n) }
{
    if ports == 0 {
        samples == 0
    } else {
        samples % ports == 0 && samples / ports == n
    }
}

// 0, or what refuses a block of n ticks with so many outputs each: 52 where it isn't lent so many samples, then what refuses its first
// tick, then 7 where the tally has no room for n answers.
// Kept: public, and of any number, also one of no Refusal: `block_refusal_of` and Settled speak of each.
pub fn block_refusal(ports: usize, samples: usize, number: u32, tally: Tally, n: usize) -> u32
    ensures { result ≡ block_refusal_of (eqb samples (ports * n)) number tally n }
{
    if number == 0 {
        match block_outcome(ports, samples, Ok(()), tally, n) {
            Ok(()) => 0,
            Err(refused) => refused.number(),
        }
    } else if fits(ports, samples, n) {
        number
    } else {
        Refusal::Samples.number()
    }
}

// The same where a Result tells what refuses its first tick.
// Kept: outputs, samples and ticks are told apart, as above.
pub fn block_outcome(
    ports: usize,
    samples: usize,
    first: Result<(), Refusal>,
    tally: Tally,
    n: usize,
) -> Result<(), Refusal>
    ensures { refused_number result ≡ block_refusal_of (eqb samples (ports * n)) (refused_number first) tally n }
{
    if !fits(ports, samples, n) {
        return Err(Refusal::Samples);
    }
    first?;
    if tally.has_room(n) {
        Ok(())
    } else {
        Err(Refusal::Tally)
    }
}

// A tick's outputs into its part of a block's samples, as many as the part has cells.
// Kept: cell by cell, which the compiler cuts to the cells that there are: by copy_from_slice a block of the Lfo took 9.9 ns a tick instead of 5.1, one of the
// Vco 9.9 instead of 6.9.
fn put_volts(v: Volts, part: &mut [f64])
    ensures { part.new ≡ sets part.old 0 (ports_of (length part.old) v) }
{
    let n = part.len();
    if n < 1 {
        return;
    }
    part[0] = v.p10;
    if n < 2 {
        return;
    }
    part[1] = v.p11;
    if n < 3 {
        return;
    }
    part[2] = v.p12;
    if n < 4 {
        return;
    }
    part[3] = v.p13;
    if n < 5 {
        return;
    }
    part[4] = v.p14;
    if n < 6 {
        return;
    }
    part[5] = v.p15;
}

// The outputs of tick i among the samples of n ticks with so many outputs each. Samples that aren't those are left: a block has asked that
// already, and in its loop no test is left of it.
fn put_frame(v: Volts, ports: usize, n: usize, i: usize, samples: &mut [f64])
    ensures { samples.new ≡ framed ports n i v samples.old }
{
    if fits(ports, samples.len(), n) && i < n {
        let at = ports * i;
        put_volts(v, &mut samples[at..at + ports]);
    }
}

fn put_mark(number: u32, i: usize, marks: &mut [u32])
    ensures { marks.new ≡ set marks.old i number }
{
    if i < marks.len() {
        marks[i] = number;
    }
}

// What tick i of a block answers, of an oscillator with so many outputs: its samples, and the number that a host is told of it.
pub fn put(a: Answer, ports: usize, i: usize, samples: &mut [f64], marks: &mut [u32])
    ensures samples_after { samples.new ≡ framed ports (length marks.old) i (volts_of a) samples.old }
    ensures marks_after { marks.new ≡ set marks.old i (host_number a) }
{
    put_frame(crate::samples(a), ports, marks.len(), i, samples);
    put_mark(host_number(a), i, marks);
}
