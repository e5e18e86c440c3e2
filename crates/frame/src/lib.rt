// What `render` prints: the text of a frame, of the end and of a refusal. A text is put on a page as crates/text puts one.
#![tactic(auto)]

ghost use Rattle.std.specs.Prelude.{◌≡◌, ◌≤◌, ◌+◌, ◌*◌, length};
ghost use Rattle.text.specs.Page.{with_text};
ghost use Rattle.frame.specs.Frame.{sample_line, waves_text, outputs_text, marked_text, frame_text};
ghost use Rattle.frame.specs.Frames.{ports_in, output_at, volts_at, told_texts, are_frames, played_text};
ghost use Rattle.frame.specs.End.{counts_text, claimed_of, end_text, refused_text};

use answer::{Answer, Tally, Volts};
use score::Osc;
use text::Page;

// ---- a frame

// A sample's line: the bits of an f64 in hexadecimal.
#[tactic(auto, using(text::proofs::PageLaws::page_then), unfolding(crate::specs::Frame::sample_line, text::specs::Lines::word_line))]
fn put_sample(page: &mut Page, key: &[u8], x: f64)
    ensures { page.new ≡ with_text page.old (sample_line key.now x) }
{
    page.text(key);
    page.hex(numeric::bits(x));
    page.byte(b'\n');
}

// The four waves that Vco and Lfo have.
#[tactic(auto, using(text::proofs::PageLaws::page_then), unfolding(crate::specs::Frame::waves_text))]
fn put_waves(page: &mut Page, v: Volts)
    ensures { page.new ≡ with_text page.old (waves_text v) }
{
    put_sample(page, b"sin=", v.p10);
    put_sample(page, b"tri=", v.p11);
    put_sample(page, b"saw=", v.p12);
    put_sample(page, b"sqr=", v.p13);
}

// Kept: four kinds, all known here, so a match and no `dyn`; `ports_of` too. And `put_outputs`, `put_marked`, `put_frame` and `put_frames` take the page
// beside what they put on it, as a page's own methods do.
#[tactic(auto, using(text::proofs::PageLaws::page_then), unfolding(crate::specs::Frame::outputs_text))]
fn put_outputs(page: &mut Page, osc: Osc, v: Volts)
    ensures { page.new ≡ with_text page.old (outputs_text osc v) }
{
    match osc {
        Osc::Vco => put_waves(page, v),
        Osc::Lfo => {
            put_waves(page, v);
            put_sample(page, b"sin_uni=", v.p14);
            put_sample(page, b"eoc=", v.p15);
        }
        Osc::Supersaw => {
            put_sample(page, b"out=", v.p10);
            put_sample(page, b"sub=", v.p11);
        }
        Osc::Formant => put_sample(page, b"out=", v.p10),
    }
}

#[tactic(auto, using(text::proofs::PageLaws::page_then), unfolding(crate::specs::Frame::marked_text))]
fn put_marked(page: &mut Page, osc: Osc, n: u32, mark: &[u8], v: Volts)
    ensures { page.new ≡ with_text page.old (marked_text osc n mark.now v) }
{
    page.count(b"n=", n as u64);
    page.word(b"mark=", mark);
    put_outputs(page, osc, v);
}

// A refused tick has no text.
#[tactic(auto, unfolding(crate::specs::Frame::frame_text))]
pub fn put_frame(page: &mut Page, osc: Osc, n: u32, a: Answer)
    ensures { page.new ≡ with_text page.old (frame_text osc n a) }
{
    match a {
        Answer::Cleared(v) => put_marked(page, osc, n, b"cleared", v),
        Answer::NotFinite(v) => put_marked(page, osc, n, b"notfinite", v),
        Answer::Lost(v) => put_marked(page, osc, n, b"lost", v),
        Answer::Clean(v) => put_marked(page, osc, n, b"clean", v),
        Answer::Steered(v) => put_marked(page, osc, n, b"steered", v),
        Answer::Refused(_) => page.text(b""),
    }
}

// ---- frames that were played, told by samples and marks

// How many outputs it has: so many samples are a frame's.
#[tactic(auto, unfolding(crate::specs::Frames::ports_in))]
pub fn ports_of(osc: Osc) -> usize
    ensures { result ≡ ports_in osc }
{
    match osc {
        Osc::Vco => 4,
        Osc::Lfo => 6,
        Osc::Supersaw => 2,
        Osc::Formant => 1,
    }
}

// Output j of frame i; 0.0 where there is no such output.
// Kept: `i` counts the frames here and in `volts_at` and `put_frames`, and no chunks of the samples do: the number `first + i` of each frame needs it in any
// case, and `frame.get(j)` with its default would be no shorter than the test below.
#[tactic(auto, unfolding(crate::specs::Frames::output_at))]
fn output_at(ports: usize, samples: &[f64], i: usize, j: usize) -> f64
    requires { ports * (i + 1) ≤ length samples.now }
    ensures { result ≡ output_at ports samples.now i j }
{
    if j < ports {
        samples[ports * i + j]
    } else {
        0.0
    }
}

#[tactic(auto, unfolding(crate::specs::Frames::volts_at))]
fn volts_at(ports: usize, samples: &[f64], i: usize) -> Volts
    requires { ports * (i + 1) ≤ length samples.now }
    ensures { result ≡ volts_at ports samples.now i }
{
    Volts::of([
        output_at(ports, samples, i, 0),
        output_at(ports, samples, i, 1),
        output_at(ports, samples, i, 2),
        output_at(ports, samples, i, 3),
        output_at(ports, samples, i, 4),
        output_at(ports, samples, i, 5),
    ])
}

// Whether so many samples are those of n frames, and a u32 can number these from `first` on.
// Kept: `fits` of crates/answer, which asks the same of samples, is private there, and asks of no outputs besides; here it is half a line.
fn are_frames(osc: Osc, first: u32, samples: usize, n: usize) -> bool
    ensures { result ≡ are_frames osc first samples n }
{
    let ports = ports_of(osc);
    samples % ports == 0 && samples / ports == n && n <= (u32::MAX - first) as usize
}

// The texts of frames, numbered from `first` on. Samples and marks that aren't those of frames have no text.
pub fn put_frames(page: &mut Page, osc: Osc, first: u32, samples: &[f64], marks: &[u32])
    ensures { page.new ≡ with_text page.old (played_text osc first samples.now marks.now) }
{
    // the text of no frame: a place past the end becomes the end
    page.text(b"");
    if are_frames(osc, first, samples.len(), marks.len()) {
        let ports = ports_of(osc);
        for (i, mark) in marks.iter().enumerate() {
            let told = answer::answer_of(*mark, volts_at(ports, samples, i));
            put_frame(page, osc, first + i as u32, told);
        }
    }
}

// ---- the end

#[tactic(auto, using(text::proofs::PageLaws::page_then), unfolding(crate::specs::End::counts_text))]
fn put_counts(page: &mut Page, t: Tally)
    ensures { page.new ≡ with_text page.old (counts_text t) }
{
    page.count(b"begun=", t.begun as u64);
    page.count(b"finished=", t.finished as u64);
    page.count(b"cleared=", t.cleared as u64);
    page.count(b"notfinite=", t.notfinite as u64);
    page.count(b"lost=", t.lost as u64);
    page.count(b"steered=", t.steered as u64);
}

// Whether the render may be called finished: each of its frames began, and each was clean.
#[tactic(auto, unfolding(crate::specs::End::claimed_of))]
pub fn claimed(frames: u32, t: Tally) -> bool
    ensures { result ≡ claimed_of frames t }
{
    t.finished == t.begun && t.begun == frames
}

#[tactic(auto, using(text::proofs::PageLaws::page_then), unfolding(crate::specs::End::end_text))]
pub fn put_end(page: &mut Page, frames: u32, t: Tally)
    ensures { page.new ≡ with_text page.old (end_text frames t) }
{
    put_counts(page, t);
    if claimed(frames, t) {
        page.word(b"claimed=", b"yes");
    } else {
        page.word(b"claimed=", b"no");
    }
}

// ---- a score that is refused

#[tactic(auto, unfolding(crate::specs::End::refused_text))]
pub fn put_refused(page: &mut Page, n: u32)
    ensures { page.new ≡ with_text page.old (refused_text n) }
{
    page.count(b"refused=", n as u64);
}
