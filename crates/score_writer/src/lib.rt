// The writer of a score: values as the reader gives them, written as the only text that reads back to them. The contracts are over the
// reader's own definitions of the keys and their order, of the ranges and of the form of a number.
#![tactic(auto)]

ghost use Rattle.std.specs.Prelude.{◌≡◌, length};
ghost use Rattle.std.proofs.lemmas.List.Edits.{sets};
ghost use Rattle.text.specs.Page.{with_text};
ghost use Rattle.text.specs.Put.{place_of};
ghost use Rattle.text.specs.Lines.{word_line};
ghost use Rattle.line.specs.Number.{number_text};
ghost use Rattle.score.specs.Keys.{osc_key, name_of, controls_of};
ghost use Rattle.score.specs.Text.{control_text, line_text, gate_text, head_text, inputs_text, text_of};
ghost use Rattle.score.specs.declared.Inputs.TheVariants as I;
ghost use Rattle.score_writer.specs.Writing.{whole_refusal, control_refusal, gate_refusal, head_refusal, controls_refusal, refusal_of};
ghost use Rattle.score_writer.specs.Writing.{writing_of, written_of};

use line::Number;
use score::{
    Control, FormantInputs, Head, Inputs, LfoInputs, Osc, Range, Refusal, Score, SupersawInputs,
    VcoInputs,
};
use text::Page;

// Room for every text: the longest has so many bytes.
const LONGEST: usize = 117;

// ---- what refuses the values, line by line

#[tactic(auto, unfolding(crate::specs::Writing::whole_refusal))]
fn check_whole(n: u32, range: Range) -> Result<(), Refusal>
    ensures { result ≡ whole_refusal range.least range.most n }
{
    let number = Number::Whole {
        minus: false,
        size: u64::from(n),
    };
    score::within(Some(number), range)?;
    Ok(())
}

#[tactic(auto, unfolding(crate::specs::Writing::control_refusal))]
fn check_control(c: Control) -> Result<(), Refusal>
    ensures { result ≡ control_refusal c }
{
    score::control_of(Some(score::number_in(c)))?;
    Ok(())
}

fn check_controls(controls: &[Control]) -> Result<(), Refusal>
    ensures { result ≡ controls_refusal controls.now }
{
    for c in controls {
        check_control(*c)?;
    }
    Ok(())
}

// Kept: four kinds, all known here, so a match and no `dyn`, here and in `put_inputs`.
fn check_inputs(inputs: Inputs) -> Result<(), Refusal>
    ensures { result ≡ controls_refusal (controls_of inputs) }
{
    match inputs {
        Inputs::Vco(i) => check_controls(&[i.voct, i.fm, i.pw, i.sync, i.fm_lin]),
        Inputs::Lfo(i) => check_controls(&[i.rate, i.depth, i.reset]),
        Inputs::Supersaw(i) => check_controls(&[i.voct, i.detune, i.mix]),
        Inputs::Formant(i) => check_controls(&[i.v_oct, i.vowel, i.formant_shift, i.vibrato]),
    }
}

fn check_gate(gate: Option<u32>) -> Result<(), Refusal>
    ensures { result ≡ gate_refusal gate }
{
    match gate {
        None => Ok(()),
        Some(issue) => check_whole(issue, score::GATE),
    }
}

fn check_head(head: Head) -> Result<(), Refusal>
    ensures { result ≡ head_refusal head }
{
    check_whole(head.hz, score::HZ)?;
    check_gate(head.gate)?;
    check_whole(head.frames, score::FRAMES)
}

#[tactic(auto, unfolding(crate::specs::Writing::refusal_of))]
fn check(score: Score) -> Result<(), Refusal>
    ensures { result ≡ refusal_of score }
{
    check_head(score.head)?;
    check_inputs(score.inputs)
}

// ---- lines

// A number's line: its key with the equals sign, the number's text, a line feed.
#[tactic(auto, unfolding(line::specs::Number::number_text, text::specs::Lines::word_line, text::specs::Lines::count_line))]
fn put_number(page: &mut Page, key: &[u8], n: Number)
    ensures { page.new ≡ with_text page.old (word_line key.now (number_text n)) }
{
    match n {
        Number::Whole { minus: true, size } => {
            page.text(key);
            page.count(b"-", size);
        }
        Number::Whole { minus: false, size } => page.count(key, size),
        Number::Nan => page.word(key, b"nan"),
    }
}

fn put_control(page: &mut Page, key: &[u8], c: Control)
    ensures { page.new ≡ with_text page.old (word_line key.now (control_text c)) }
{
    put_number(page, key, score::number_in(c));
}

fn put_osc(page: &mut Page, osc: Osc)
    ensures { page.new ≡ with_text page.old (line_text osc_key (name_of osc)) }
{
    page.word(b"osc=", osc.name());
}

// No line where the gate is absent.
#[tactic(auto, unfolding(line::specs::Number::number_text, text::specs::Lines::count_line))]
fn put_gate(page: &mut Page, gate: Option<u32>)
    ensures { page.new ≡ with_text page.old (gate_text gate) }
{
    match gate {
        None => page.text(b""),
        Some(issue) => page.count(b"gate=", u64::from(issue)),
    }
}

#[tactic(auto, using(text::proofs::PageLaws::page_then), unfolding(line::specs::Number::number_text, text::specs::Lines::count_line))]
fn put_head(page: &mut Page, head: Head)
    ensures { page.new ≡ with_text page.old (head_text head) }
{
    page.count(b"hz=", u64::from(head.hz));
    put_gate(page, head.gate);
    page.count(b"frames=", u64::from(head.frames));
}

// ---- the inputs, in the Rust's port order and names

// Kept: `put_vco`, `put_lfo`, `put_supersaw` and `put_formant` differ in their keys alone, but one function over a list is no plainer: each line
// `put_control(page, key, field)` would be a pair `(key, field)` of the list, and a loop over it would come to them, with its invariant.

#[tactic(auto, using(text::proofs::PageLaws::page_then, crate::proofs::Ended::ended))]
fn put_vco(page: &mut Page, i: VcoInputs)
    ensures { page.new ≡ with_text page.old (inputs_text (I.Vco i)) }
{
    put_control(page, b"voct=", i.voct);
    put_control(page, b"fm=", i.fm);
    put_control(page, b"pw=", i.pw);
    put_control(page, b"sync=", i.sync);
    put_control(page, b"fm_lin=", i.fm_lin);
}

#[tactic(auto, using(text::proofs::PageLaws::page_then, crate::proofs::Ended::ended))]
fn put_lfo(page: &mut Page, i: LfoInputs)
    ensures { page.new ≡ with_text page.old (inputs_text (I.Lfo i)) }
{
    put_control(page, b"rate=", i.rate);
    put_control(page, b"depth=", i.depth);
    put_control(page, b"reset=", i.reset);
}

#[tactic(auto, using(text::proofs::PageLaws::page_then, crate::proofs::Ended::ended))]
fn put_supersaw(page: &mut Page, i: SupersawInputs)
    ensures { page.new ≡ with_text page.old (inputs_text (I.Supersaw i)) }
{
    put_control(page, b"voct=", i.voct);
    put_control(page, b"detune=", i.detune);
    put_control(page, b"mix=", i.mix);
}

#[tactic(auto, using(text::proofs::PageLaws::page_then, crate::proofs::Ended::ended))]
fn put_formant(page: &mut Page, i: FormantInputs)
    ensures { page.new ≡ with_text page.old (inputs_text (I.Formant i)) }
{
    put_control(page, b"v_oct=", i.v_oct);
    put_control(page, b"vowel=", i.vowel);
    put_control(page, b"formant_shift=", i.formant_shift);
    put_control(page, b"vibrato=", i.vibrato);
}

fn put_inputs(page: &mut Page, inputs: Inputs)
    ensures { page.new ≡ with_text page.old (inputs_text inputs) }
{
    match inputs {
        Inputs::Vco(i) => put_vco(page, i),
        Inputs::Lfo(i) => put_lfo(page, i),
        Inputs::Supersaw(i) => put_supersaw(page, i),
        Inputs::Formant(i) => put_formant(page, i),
    }
}

// ---- the whole score

#[tactic(auto, using(text::proofs::PageLaws::page_then), unfolding(score::specs::Text::text_of))]
fn put_lines(page: &mut Page, score: Score)
    ensures { page.new ≡ with_text page.old (text_of score) }
{
    put_osc(page, score::owner_of(score.inputs));
    put_head(page, score.head);
    put_inputs(page, score.inputs);
}

#[tactic(auto, unfolding(text::specs::Page::with_text, text::specs::Page::page_at))]
fn put_score(bytes: &mut [u8], score: Score) -> usize
    ensures value { result ≡ place_of bytes.old 0 (text_of score) }
    ensures bytes_after { bytes.new ≡ sets bytes.old 0 (text_of score) }
{
    let mut page = Page::new(&mut *bytes, 0);
    put_lines(&mut page, score);
    page.place()
}

// The text is put together in bytes of its own and only then copied to `out`, so a refusal writes nothing there.
pub fn write(score: Score, out: &mut [u8]) -> Result<usize, Refusal>
    ensures value { result ≡ writing_of score (length out.old) }
    ensures out_after { out.new ≡ written_of score out.old }
{
    check(score)?;
    // Kept: an array and how many of its bytes are the text's, for there is no heap.
    let mut bytes = [0u8; LONGEST];
    let n = put_score(&mut bytes, score);
    if out.len() < n {
        return Err(Refusal::NoRoom);
    }
    out[..n].copy_from_slice(&bytes[..n]);
    Ok(n)
}
