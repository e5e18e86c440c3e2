// The score: osc, hz, the gate where it is said, frames and then the oscillator's inputs, a line each.
#![tactic(auto)]

ghost use Rattle.std.specs.Prelude.{◌≡◌, [], ◌∷◌, MatchResult};
ghost use Rattle.std.specs.List.{find};
ghost use Rattle.line.specs.Bytes.{same_of};
ghost use Rattle.score.specs.Control.{volts_of, number_in};
ghost use Rattle.score.specs.Keys.{hz_key, frames_key, owner_of, name_of};
ghost use Rattle.score.specs.Lines.{osc_of, within_of, control_of};
ghost use Rattle.score.specs.Refusal.{refusal_number};
ghost use Rattle.score.specs.Score.{osc, whole, gate, control, head_of, inputs, score_of};
ghost use Rattle.score.specs.Taken.{IsTaken, IsOther, Takes};
ghost use Rattle.score.specs.declared.Osc.TheVariants as O;

use line::{Number, Reader};

// ---- what a score says

#[derive(Clone, Copy)]
pub enum Osc {
    Vco,
    Lfo,
    Supersaw,
    Formant,
}

impl Osc {
    // As its line has it.
    pub fn name(self) -> &'static [u8]
        ensures { result.now ≡ name_of self }
    {
        match self {
            Osc::Vco => b"vco",
            Osc::Lfo => b"lfo",
            Osc::Supersaw => b"supersaw",
            Osc::Formant => b"formant",
        }
    }
}

// An input, for all frames: whole microvolts, or nan.
// Kept: nan is a value that an input may hold, and not that it holds none, so this is no Option<i32>.
#[derive(Clone, Copy)]
pub enum Control {
    Microvolts(i32),
    Nan,
}

// The inputs have the Rust's port order and names.
#[derive(Clone, Copy)]
pub struct VcoInputs {
    pub voct: Control,
    pub fm: Control,
    pub pw: Control,
    pub sync: Control,
    pub fm_lin: Control,
}

#[derive(Clone, Copy)]
pub struct LfoInputs {
    pub rate: Control,
    pub depth: Control,
    pub reset: Control,
}

#[derive(Clone, Copy)]
pub struct SupersawInputs {
    pub voct: Control,
    pub detune: Control,
    pub mix: Control,
}

#[derive(Clone, Copy)]
pub struct FormantInputs {
    pub v_oct: Control,
    pub vowel: Control,
    pub formant_shift: Control,
    pub vibrato: Control,
}

#[derive(Clone, Copy)]
pub enum Inputs {
    Vco(VcoInputs),
    Lfo(LfoInputs),
    Supersaw(SupersawInputs),
    Formant(FormantInputs),
}

// The lines between the oscillator and its inputs, with the ranges of their numbers. The gate's is the issue of the bank that a preset belongs to, which says
// where its gates count as high; None where no line says it.
#[derive(Clone, Copy)]
pub struct Head {
    pub hz: u32,
    pub gate: Option<u32>,
    pub frames: u32,
}

// The least and the most that a line's number may be.
#[derive(Clone, Copy)]
pub struct Range {
    pub least: u32,
    pub most: u32,
}

pub const HZ: Range = Range {
    least: 1000,
    most: 192000,
};

pub const GATE: Range = Range { least: 1, most: 2 };

pub const FRAMES: Range = Range {
    least: 1,
    most: 480000,
};

#[derive(Clone, Copy)]
pub struct Score {
    pub head: Head,
    pub inputs: Inputs,
}

// Why a text is no score, or a score isn't written.
#[derive(Clone, Copy, PartialEq, Eq, Debug)]
pub enum Refusal {
    // More than 1,024 bytes.
    TooLong = 20,
    // Another line than the one that comes here.
    WrongLine = 21,
    // A value that is no number, or nan where the line can't hold it.
    Malformed = 22,
    // A number past its line's range.
    OutOfRange = 23,
    // Too little room for the text of a score.
    NoRoom = 24,
}

impl Refusal {
    // The number by which hosts see it.
    pub fn number(self) -> u32
        ensures { result ≡ refusal_number self }
    {
        self as u32
    }
}

// An i32 is exact as an f64, so the division is the one rounding.
#[tactic(auto, unfolding(crate::specs::Control::volts_of))]
pub fn volts(c: Control) -> f64
    ensures { result ≡ volts_of c }
{
    match c {
        Control::Microvolts(n) => n as f64 / 1000000.0,
        Control::Nan => f64::NAN,
    }
}

// The number that an input's line holds: a sign and a size, or nan.
// Kept: a public function, of which Settled.number_in speaks, so no `From` stands in its place.
pub fn number_in(c: Control) -> Number
    ensures { result ≡ number_in c }
{
    match c {
        Control::Microvolts(n) => Number::Whole {
            minus: n < 0,
            size: u64::from(n.unsigned_abs()),
        },
        Control::Nan => Number::Nan,
    }
}

// The oscillator whose inputs they are.
// Kept: four kinds, all known here, so a match and no `dyn`; `take_inputs` too. And it is a public function, of which Settled.owner_of speaks, so no `From`
// stands in its place.
pub fn owner_of(inputs: Inputs) -> Osc
    ensures { result ≡ owner_of inputs }
{
    match inputs {
        Inputs::Vco(_) => Osc::Vco,
        Inputs::Lfo(_) => Osc::Lfo,
        Inputs::Supersaw(_) => Osc::Supersaw,
        Inputs::Formant(_) => Osc::Formant,
    }
}

// ---- what a line's value says, or its refusal

// The oscillator of this name.
fn named(value: &[u8]) -> Option<Osc>
    ensures { result ≡ find (λ o. same_of value.now (name_of o)) (O.Vco ∷ O.Lfo ∷ O.Supersaw ∷ O.Formant ∷ []) }
{
    [Osc::Vco, Osc::Lfo, Osc::Supersaw, Osc::Formant]
        .into_iter()
        .find(|osc| line::same(value, osc.name()))
}

fn osc_of(value: &[u8]) -> Result<Osc, Refusal>
    ensures { result ≡ osc_of value.now }
{
    named(value).ok_or(Refusal::WrongLine)
}

// `within` and `control_of` take what `line::number_of` answers, so that a value that is no number is refused here, beside the numbers that a line can't hold.
#[tactic(auto, unfolding(crate::specs::Lines::within_of))]
pub fn within(n: Option<Number>, range: Range) -> Result<u32, Refusal>
    ensures { result ≡ within_of range.least range.most n }
{
    match n {
        Some(Number::Whole { minus, size }) => {
            if minus || size < u64::from(range.least) || u64::from(range.most) < size {
                Err(Refusal::OutOfRange)
            } else {
                Ok(size as u32)
            }
        }
        None | Some(Number::Nan) => Err(Refusal::Malformed),
    }
}

// An input is at most 10 V, above 0 or below.
const MICROVOLTS_MOST: u64 = 10000000;

// Kept: a public function, of which Settled.control_of speaks, so no `TryFrom` stands in its place.
#[tactic(auto, unfolding(crate::specs::Lines::control_of))]
pub fn control_of(n: Option<Number>) -> Result<Control, Refusal>
    ensures { result ≡ control_of n }
{
    match n {
        Some(Number::Whole { size, .. }) if MICROVOLTS_MOST < size => Err(Refusal::OutOfRange),
        Some(Number::Whole { minus: true, size }) => Ok(Control::Microvolts(-(size as i32))),
        Some(Number::Whole { minus: false, size }) => Ok(Control::Microvolts(size as i32)),
        Some(Number::Nan) => Ok(Control::Nan),
        None => Err(Refusal::Malformed),
    }
}

// ---- one line after the other: what it says, and the reader is at the next one

// The value of the line here, which is to be one of this key.
fn take_value<'a>(lines: &mut Reader<'a>, key: &[u8]) -> Result<&'a [u8], Refusal>
    ensures { MatchResult result (λ v. IsTaken key.now lines.old v.now lines.new) (λ why. IsOther key.now lines.old why) }
{
    if !lines.is_line(key) {
        return Err(Refusal::WrongLine);
    }
    let value = lines.value();
    *lines = lines.next();
    Ok(value)
}

fn take_osc(lines: &mut Reader) -> Result<Osc, Refusal>
    ensures { Takes osc lines.old result lines.new }
{
    let value = take_value(lines, b"osc")?;
    osc_of(value)
}

// Kept: `take_whole`, `take_gate` and `take_control` share `take_value`; what differs is a line, and a closure for it would be longer.
fn take_whole(lines: &mut Reader, key: &[u8], range: Range) -> Result<u32, Refusal>
    ensures { Takes (whole key.now range.least range.most) lines.old result lines.new }
{
    let value = take_value(lines, key)?;
    within(line::number_of(value), range)
}

// The gate's line may be left out.
fn take_gate(lines: &mut Reader) -> Result<Option<u32>, Refusal>
    ensures { Takes gate lines.old result lines.new }
{
    if lines.is_line(b"gate") {
        let issue = take_whole(lines, b"gate", GATE)?;
        Ok(Some(issue))
    } else {
        Ok(None)
    }
}

fn take_head(lines: &mut Reader) -> Result<Head, Refusal>
    ensures { Takes head_of lines.old result lines.new }
{
    let hz = take_whole(lines, b"hz", HZ)?;
    let gate = take_gate(lines)?;
    let frames = take_whole(lines, b"frames", FRAMES)?;
    Ok(Head { hz, gate, frames })
}

fn take_control(lines: &mut Reader, key: &[u8]) -> Result<Control, Refusal>
    ensures { Takes (control key.now) lines.old result lines.new }
{
    let value = take_value(lines, key)?;
    control_of(line::number_of(value))
}

// Kept: in `take_vco`, `take_lfo`, `take_supersaw` and `take_formant` the keys alone differ, but a list of the controls that one function took would have to be
// taken apart again, field by field.
fn take_vco(lines: &mut Reader) -> Result<Inputs, Refusal>
    ensures { Takes (inputs O.Vco) lines.old result lines.new }
{
    Ok(Inputs::Vco(VcoInputs {
        voct: take_control(lines, b"voct")?,
        fm: take_control(lines, b"fm")?,
        pw: take_control(lines, b"pw")?,
        sync: take_control(lines, b"sync")?,
        fm_lin: take_control(lines, b"fm_lin")?,
    }))
}

fn take_lfo(lines: &mut Reader) -> Result<Inputs, Refusal>
    ensures { Takes (inputs O.Lfo) lines.old result lines.new }
{
    Ok(Inputs::Lfo(LfoInputs {
        rate: take_control(lines, b"rate")?,
        depth: take_control(lines, b"depth")?,
        reset: take_control(lines, b"reset")?,
    }))
}

fn take_supersaw(lines: &mut Reader) -> Result<Inputs, Refusal>
    ensures { Takes (inputs O.Supersaw) lines.old result lines.new }
{
    Ok(Inputs::Supersaw(SupersawInputs {
        voct: take_control(lines, b"voct")?,
        detune: take_control(lines, b"detune")?,
        mix: take_control(lines, b"mix")?,
    }))
}

fn take_formant(lines: &mut Reader) -> Result<Inputs, Refusal>
    ensures { Takes (inputs O.Formant) lines.old result lines.new }
{
    Ok(Inputs::Formant(FormantInputs {
        v_oct: take_control(lines, b"v_oct")?,
        vowel: take_control(lines, b"vowel")?,
        formant_shift: take_control(lines, b"formant_shift")?,
        vibrato: take_control(lines, b"vibrato")?,
    }))
}

fn take_inputs(lines: &mut Reader, osc: Osc) -> Result<Inputs, Refusal>
    ensures { Takes (inputs osc) lines.old result lines.new }
{
    match osc {
        Osc::Vco => take_vco(lines),
        Osc::Lfo => take_lfo(lines),
        Osc::Supersaw => take_supersaw(lines),
        Osc::Formant => take_formant(lines),
    }
}

// ---- the whole score

pub fn read(text: &[u8]) -> Result<Score, Refusal>
    ensures { result ≡ score_of text.now }
{
    if 1024 < text.len() {
        return Err(Refusal::TooLong);
    }
    let mut lines = Reader { text, at: 0 };
    let osc = take_osc(&mut lines)?;
    let head = take_head(&mut lines)?;
    let inputs = take_inputs(&mut lines, osc)?;
    if lines.at < lines.text.len() {
        return Err(Refusal::WrongLine);
    }
    Ok(Score { head, inputs })
}
