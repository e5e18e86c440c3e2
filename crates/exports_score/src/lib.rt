// The score's reader and writer for hosts, over lent slices. A score is wholes [osc, hz, frames, gate], with osc 0 vco, 1 lfo, 2 supersaw,
// 3 formant and gate 0 where it has no line, and its inputs in port order: as floats, the volts, 0.0 past the oscillator's last one, or as
// microvolts, whole numbers with -2147483648 for nan, 0 past the last one. Volts are for playing it; microvolts can be written again.
// A call answers a number: 0 done; before all, 50, 54, 51 and 55 where floats, microvolts, wholes or written have another length;
// of a text 20 to 23 as the scope refuses it; of a score that is handed over 23 where no text reads as it, and last 24 where its text
// has no room. A refused call writes nothing.
#![tactic(auto)]

ghost use Rattle.std.specs.Prelude.{◌≡◌, map, length};
ghost use Rattle.boundary.specs.Flat.{kept};
ghost use Rattle.score.specs.Keys.{input_keys};
ghost use Rattle.score.specs.Score.{score_of};
ghost use Rattle.exports_score.specs.Cells.{osc_number, ports_of, gate_number, floats_of, wholes_of, cell_of, microvolts_of};
ghost use Rattle.exports_score.specs.Cells.{control_at, is_zero, zeros, inputs_in, osc_at, gate_at};
ghost use Rattle.exports_score.specs.Shortcuts.{u32_of, held_at};
ghost use Rattle.exports_score.specs.Calls.{code_of, kept_of, score_read_at, told, told_of, score_values_at, saved, saved_of, score_write_at};

use score::{
    Control, FormantInputs, Head, Inputs, LfoInputs, Osc, Refusal, Score, SupersawInputs, VcoInputs,
};

// How many floats, wholes, microvolts and lengths a host lends.
const FLOATS: usize = 5;

const WHOLES: usize = 4;

const MICROVOLTS: usize = 5;

const WRITTEN: usize = 1;

// What refuses microvolts and written of another length; the numbers of floats and wholes are `common::Refusal`'s.
const WRONG_MICROVOLTS: u32 = 54;

const WRONG_WRITTEN: u32 = 55;

// The mark of nan, which is no score's microvolts.
const NAN: i32 = -2147483648;

// 0 where it is done.
// Kept: C reads a number, and score's refusals have numbers of their own, 20 to 24, which `common::Refusal` doesn't have.
fn code_of(done: Result<(), Refusal>) -> u32
    ensures { result ≡ code_of done }
{
    match done {
        Ok(()) => 0,
        Err(why) => why.number(),
    }
}

// ---- the cells of a score

// Kept: `osc_number`, `gate_number`, `cell_of`, `osc_at`, `control_at`, `inputs_at` and `gate_at` are functions and no `From` or `TryFrom`: they are between
// score's types and the cells of the C interface, which are numbers, so neither side of such an impl is of this crate.
// Kept: four kinds, all known here, so a match and no `dyn`; `ports_of`, `inputs_of` and `inputs_at` too.
fn osc_number(osc: Osc) -> u64
    ensures { result ≡ osc_number osc }
{
    match osc {
        Osc::Vco => 0,
        Osc::Lfo => 1,
        Osc::Supersaw => 2,
        Osc::Formant => 3,
    }
}

// What stands past the last input.
const NONE: Control = Control::Microvolts(0);

// The inputs in port order.
#[tactic(auto, unfolding(crate::specs::Cells::ports_of))]
fn ports_of(inputs: Inputs) -> [Control; 5]
    ensures { result ≡ ports_of inputs }
{
    match inputs {
        Inputs::Vco(i) => [i.voct, i.fm, i.pw, i.sync, i.fm_lin],
        Inputs::Lfo(i) => [i.rate, i.depth, i.reset, NONE, NONE],
        Inputs::Supersaw(i) => [i.voct, i.detune, i.mix, NONE, NONE],
        Inputs::Formant(i) => [i.v_oct, i.vowel, i.formant_shift, i.vibrato, NONE],
    }
}

// 0 where it is absent.
#[tactic(auto, unfolding(crate::specs::Cells::gate_number))]
fn gate_number(gate: Option<u32>) -> u64
    ensures { result ≡ gate_number gate }
{
    gate.map_or(0, u64::from)
}

#[tactic(auto, unfolding(crate::specs::Cells::wholes_of))]
fn wholes_of(s: Score) -> [u64; 4]
    ensures { result ≡ wholes_of s }
{
    [
        osc_number(score::owner_of(s.inputs)),
        u64::from(s.head.hz),
        u64::from(s.head.frames),
        gate_number(s.head.gate),
    ]
}

// ---- the volts

#[tactic(auto, unfolding(crate::specs::Cells::floats_of))]
fn floats_of(s: Score) -> [f64; 5]
    ensures { result ≡ floats_of s }
{
    ports_of(s.inputs).map(score::volts)
}

// Kept: this and `read_microvolts` are two. Each is two copies, of other types by another function, and their contracts end in records of their own, Kept and
// Told; one generic function would take the type, the function and the record, which is no plainer.
fn read_volts(text: &[u8], floats: &mut [f64], wholes: &mut [u64]) -> Result<(), Refusal>
    requires { (length floats.old ≡ 5) × (length wholes.old ≡ 4) }
    ensures { kept (code_of result) floats.new wholes.new ≡ kept_of (score_of text.now) floats.old wholes.old }
{
    let s = score::read(text)?;
    floats.copy_from_slice(&floats_of(s));
    wholes.copy_from_slice(&wholes_of(s));
    Ok(())
}

#[unsafe(no_mangle)]
pub extern "C" fn gruttisol_score_read(text: &[u8], floats: &mut [f64], wholes: &mut [u64]) -> u32
    ensures { kept result floats.new wholes.new ≡ score_read_at text.now floats.old wholes.old }
{
    match boundary::sizes(FLOATS, WHOLES, floats, wholes) {
        Ok(()) => code_of(read_volts(text, floats, wholes)),
        Err(refused) => refused.number(),
    }
}

// ---- the whole microvolts

#[tactic(auto, unfolding(crate::specs::Cells::cell_of))]
fn cell_of(c: Control) -> i32
    ensures { result ≡ cell_of c }
{
    match c {
        Control::Microvolts(n) => n,
        Control::Nan => NAN,
    }
}

#[tactic(auto, unfolding(crate::specs::Cells::microvolts_of))]
fn microvolts_of(s: Score) -> [i32; 5]
    ensures { result ≡ microvolts_of s }
{
    ports_of(s.inputs).map(cell_of)
}

fn read_microvolts(text: &[u8], microvolts: &mut [i32], wholes: &mut [u64]) -> Result<(), Refusal>
    requires { (length microvolts.old ≡ 5) × (length wholes.old ≡ 4) }
    ensures { told (code_of result) microvolts.new wholes.new
        ≡ told_of (score_of text.now) microvolts.old wholes.old }
{
    let s = score::read(text)?;
    microvolts.copy_from_slice(&microvolts_of(s));
    wholes.copy_from_slice(&wholes_of(s));
    Ok(())
}

// Kept: here and in `gruttisol_score_write` a wrong length is answered by its number, which C reads: score's Refusal, by which the rest goes, has none for it.
#[unsafe(no_mangle)]
pub extern "C" fn gruttisol_score_values(
    text: &[u8],
    microvolts: &mut [i32],
    wholes: &mut [u64],
) -> u32
    ensures { told result microvolts.new wholes.new
        ≡ score_values_at text.now microvolts.old wholes.old }
{
    if microvolts.len() != MICROVOLTS {
        return WRONG_MICROVOLTS;
    }
    if wholes.len() != WHOLES {
        return common::Refusal::Wholes.number();
    }
    code_of(read_microvolts(text, microvolts, wholes))
}

// ---- the score of a host's cells; out of range where they are none's. Whether its numbers are in range the writer asks

#[tactic(auto, unfolding(crate::specs::Cells::osc_at))]
fn osc_at(n: u64) -> Result<Osc, Refusal>
    ensures { result ≡ osc_at n }
{
    match n {
        0 => Ok(Osc::Vco),
        1 => Ok(Osc::Lfo),
        2 => Ok(Osc::Supersaw),
        3 => Ok(Osc::Formant),
        _ => Err(Refusal::OutOfRange),
    }
}

fn control_at(cell: i32) -> Control
    ensures { result ≡ control_at cell }
{
    if cell == NAN {
        Control::Nan
    } else {
        Control::Microvolts(cell)
    }
}

// How many of the cells are inputs; those past them are 0.
fn inputs_of(osc: Osc) -> usize
    ensures { result ≡ length (input_keys osc) }
{
    match osc {
        Osc::Vco => 5,
        Osc::Lfo => 3,
        Osc::Supersaw => 3,
        Osc::Formant => 4,
    }
}

fn is_zero(cell: i32) -> bool
    ensures { result ≡ is_zero cell }
{
    cell == 0
}

fn are_zeros(cells: &[i32]) -> bool
    ensures { result ≡ zeros cells.now }
{
    cells.iter().all(|cell| is_zero(*cell))
}

fn controls_at(microvolts: &[i32; 5]) -> [Control; 5]
    ensures { result ≡ map control_at microvolts.now }
{
    microvolts.map(control_at)
}

fn inputs_at(osc: Osc, microvolts: &[i32; 5]) -> Result<Inputs, Refusal>
    ensures { result ≡ inputs_in osc microvolts.now }
{
    if !are_zeros(&microvolts[inputs_of(osc)..]) {
        return Err(Refusal::OutOfRange);
    }
    let controls = controls_at(microvolts);
    Ok(match osc {
        Osc::Vco => Inputs::Vco(VcoInputs {
            voct: controls[0],
            fm: controls[1],
            pw: controls[2],
            sync: controls[3],
            fm_lin: controls[4],
        }),
        Osc::Lfo => Inputs::Lfo(LfoInputs {
            rate: controls[0],
            depth: controls[1],
            reset: controls[2],
        }),
        Osc::Supersaw => Inputs::Supersaw(SupersawInputs {
            voct: controls[0],
            detune: controls[1],
            mix: controls[2],
        }),
        Osc::Formant => Inputs::Formant(FormantInputs {
            v_oct: controls[0],
            vowel: controls[1],
            formant_shift: controls[2],
            vibrato: controls[3],
        }),
    })
}

// 0 is no issue.
#[tactic(auto, unfolding(crate::specs::Cells::gate_at))]
fn gate_at(n: u32) -> Option<u32>
    ensures { result ≡ gate_at n }
{
    if n == 0 { None } else { Some(n) }
}

// What no u32 holds is out of range as hz, as frames and as an issue.
#[tactic(auto, unfolding(crate::specs::Shortcuts::u32_of))]
fn u32_of(n: u64) -> Result<u32, Refusal>
    ensures { result ≡ u32_of n }
{
    u32::try_from(n).map_err(|_| Refusal::OutOfRange)
}

fn score_at(microvolts: &[i32; 5], wholes: &[u64; 4]) -> Result<Score, Refusal>
    ensures { result ≡ held_at microvolts.now wholes.now }
{
    let hz = u32_of(wholes[1])?;
    let frames = u32_of(wholes[2])?;
    let issue = u32_of(wholes[3])?;
    let osc = osc_at(wholes[0])?;
    let inputs = inputs_at(osc, microvolts)?;
    let head = Head {
        hz,
        gate: gate_at(issue),
        frames,
    };
    Ok(Score { head, inputs })
}

fn save(
    microvolts: &[i32; 5],
    wholes: &[u64; 4],
    text: &mut [u8],
    written: &mut [u64],
) -> Result<(), Refusal>
    requires { length written.old ≡ 1 }
    ensures { saved (code_of result) text.new written.new
        ≡ saved_of (held_at microvolts.now wholes.now) text.old written.old }
{
    let s = score_at(microvolts, wholes)?;
    let n = score_writer::write(s, text)?;
    written[0] = n as u64;
    Ok(())
}

#[unsafe(no_mangle)]
pub extern "C" fn gruttisol_score_write(
    microvolts: &[i32],
    wholes: &[u64],
    text: &mut [u8],
    written: &mut [u64],
) -> u32
    ensures { saved result text.new written.new
        ≡ score_write_at microvolts.now wholes.now text.old written.old }
{
    let Some(microvolts) = microvolts.as_array() else {
        return WRONG_MICROVOLTS;
    };
    let Some(wholes) = wholes.as_array() else {
        return common::Refusal::Wholes.number();
    };
    if written.len() != WRITTEN {
        return WRONG_WRITTEN;
    }
    code_of(save(microvolts, wholes, text, written))
}
