// Some values of the numeric functions: the call, and its answer's bits in hexadecimal, a line each.
#![tactic(auto)]

ghost use Rattle.std.specs.Prelude.{◌≡◌};
ghost use Rattle.text.specs.Page.{with_text};
ghost use Rattle.values.specs.Line.{line_of};

use std::io;
use text::Page;

// Kept: by hand, and no Display: its text is line_of, whose digits are hex_text, of which the theorem HexRead of crates/text speaks.
#[tactic(auto, using(text::proofs::PageLaws::page_then), unfolding(crate::specs::Line::line_of))]
fn put_line(page: &mut Page, call: &[u8], x: f64)
    ensures { page.new ≡ with_text page.old (line_of call.now x) }
{
    page.text(call);
    page.byte(b'=');
    page.hex(numeric::bits(x));
    page.byte(b'\n');
}

#[tactic(auto, unfolding(text::specs::Page::with_text, text::specs::Page::page_at, text::specs::Put::place_of))]
fn show(rt: &impl Print, call: &[u8], x: f64) -> io::Result<()> {
    let mut out = [0u8; 64];
    let mut page = Page::new(&mut out, 0);
    put_line(&mut page, call, x);
    let n = page.place();
    rt.write_all(&out[..n])
}

fn main(rt: HostRuntime) -> io::Result<()> {
    let lines: [(&[u8], f64); 15] = [
        (b"sin(1.0)", numeric::sin(1.0)),
        (b"sin(-400.5)", numeric::sin(-400.5)),
        (b"sin(513.0)", numeric::sin(513.0)),
        (b"cos(0.0)", numeric::cos(0.0)),
        (b"cos(1.0)", numeric::cos(1.0)),
        (b"exp2(0.5)", numeric::exp2(0.5)),
        (b"exp2(-1022.0)", numeric::exp2(-1022.0)),
        (b"exp2(1024.0)", numeric::exp2(1024.0)),
        (b"pow3000(0.5)", numeric::pow3000(0.5)),
        (b"pow3000(1.0)", numeric::pow3000(1.0)),
        (b"floor(-0.25)", numeric::floor(-0.25)),
        (b"floor(2.5)", numeric::floor(2.5)),
        (b"bipolar(0)", numeric::bipolar(0)),
        (
            b"bipolar(4503599627370496)",
            numeric::bipolar(4503599627370496),
        ),
        (
            b"bipolar(9007199254740991)",
            numeric::bipolar(9007199254740991),
        ),
    ];
    for (call, x) in lines {
        show(&rt, call, x)?;
    }
    Ok(())
}
