// Numbers as text. A text is put on a page: bytes that were lent, and the place in them where the next text goes. What has no room is
// cut off, so that one text put after another is the two put as one.
#![tactic(auto)]

ghost use Rattle.std.specs.Prelude.{◌≡◌, [], ◌∷◌, ◌<◌};
ghost use Rattle.std.proofs.lemmas.List.Edits.{sets};
ghost use Rattle.text.specs.Page.{page_at, with_text, place_on};
ghost use Rattle.text.specs.Put.{place_of};
ghost use Rattle.text.specs.Hex.{glyph, hex_text, nibble_of, word_of};
ghost use Rattle.text.specs.Decimal.{decimal_text};
ghost use Rattle.text.specs.Lines.{word_line, count_line};

// ---- a digit

// Kept: `digit` and `nibble` know capitals alone; the library's digits are small letters too.
#[tactic(auto, unfolding(crate::specs::Hex::glyph))]
fn digit(d: u64) -> u8
    requires { d < 16 }
    ensures { result ≡ glyph d }
{
    if d < 10 {
        b'0' + d as u8
    } else {
        b'A' + (d - 10) as u8
    }
}

#[tactic(auto, unfolding(crate::specs::Hex::nibble_of))]
fn nibble(b: u8) -> Option<u64>
    ensures { result ≡ nibble_of b }
{
    match b {
        b'0'..=b'9' => Some((b - b'0') as u64),
        b'A'..=b'F' => Some((b - b'A') as u64 + 10),
        _ => None,
    }
}

// ---- writing

// Kept: `put_byte`, `put_text` and `put_hex` have the bytes and the place apart, which the compiler keeps in registers: byte by byte through a page a render
// of 480,000 frames took 0.063 s instead of 0.041.
fn put_byte(out: &mut [u8], at: usize, b: u8) -> usize
    ensures value { result ≡ place_of out.old at (b ∷ []) }
    ensures out_after { out.new ≡ sets out.old at (b ∷ []) }
{
    if at < out.len() {
        out[at] = b;
        at + 1
    } else {
        out.len()
    }
}

// Kept: byte by byte. `copy_from_slice` was tried, and proved: a render of 20,000 frames then took 31.4 million instructions instead of 30.3, for the texts are
// short.
fn put_text(out: &mut [u8], at: usize, t: &[u8]) -> usize
    ensures value { result ≡ place_of out.old at t.now }
    ensures out_after { out.new ≡ sets out.old at t.now }
{
    let mut to = out.len().min(at);
    for b in t {
        to = put_byte(&mut *out, to, *b);
    }
    to
}

// 16 digits, in capitals.
fn put_hex(out: &mut [u8], at: usize, x: u64) -> usize
    ensures value { result ≡ place_of out.old at (hex_text x) }
    ensures out_after { out.new ≡ sets out.old at (hex_text x) }
{
    let mut to = out.len().min(at);
    for k in (0..16u32).rev() {
        to = put_byte(&mut *out, to, digit((x >> (4 * k)) % 16));
    }
    to
}

// Kept: lent bytes with a place beside them, and no Vec or String, for there is no heap.
#[derive(Drop)]
pub struct Page<'a> {
    out: &'a mut [u8],
    at: usize,
}

impl<'a> Page<'a> {
    #[tactic(auto, unfolding(crate::specs::Page::page_at))]
    pub fn new(out: &'a mut [u8], at: usize) -> Page<'a>
        ensures { result ≡ page_at out.entry at }
    {
        Page { out, at }
    }

    // The place after what was put, at most the number of bytes.
    pub fn place(&self) -> usize
        ensures { result ≡ place_on self.now }
    {
        self.at // where the next text goes
    }

    pub fn byte(&mut self, b: u8)
        ensures { self.new ≡ with_text self.old (b ∷ []) }
    {
        self.at = put_byte(&mut *self.out, self.at, b);
    }

    pub fn text(&mut self, t: &[u8])
        ensures { self.new ≡ with_text self.old t.now }
    {
        self.at = put_text(&mut *self.out, self.at, t);
    }

    // 16 digits, in capitals.
    // Kept: digit by digit, and no Display, here and in `decimal`: the texts are the theorems', hex_text of HexRead and decimal_text of DecimalRead,
    // DecimalDigits, DecimalFirst and DecimalShort.
    pub fn hex(&mut self, x: u64)
        ensures { self.new ≡ with_text self.old (hex_text x) }
    {
        self.at = put_hex(&mut *self.out, self.at, x);
    }

    // The digits with no leading zero: first those of n / 10, then the last.
    #[tactic(auto, using(crate::proofs::PageLaws::page_then))]
    pub fn decimal(&mut self, n: u64)
        ensures { self.new ≡ with_text self.old (decimal_text n) }
    {
        if n >= 10 {
            self.decimal(n / 10);
        }
        self.byte(digit(n % 10));
    }

    // ---- a line: its key with the equals sign, its value, a line feed

    #[tactic(auto, using(crate::proofs::PageLaws::page_then), unfolding(crate::specs::Lines::word_line))]
    pub fn word(&mut self, key: &[u8], word: &[u8])
        ensures { self.new ≡ with_text self.old (word_line key.now word.now) }
    {
        self.text(key);
        self.text(word);
        self.byte(b'\n');
    }

    #[tactic(auto, using(crate::proofs::PageLaws::page_then), unfolding(crate::specs::Lines::word_line, crate::specs::Lines::count_line))]
    pub fn count(&mut self, key: &[u8], n: u64)
        ensures { self.new ≡ with_text self.old (count_line key.now n) }
    {
        self.text(key);
        self.decimal(n);
        self.byte(b'\n');
    }
}

// ---- reading

// Exactly 16 digits, in capitals.
pub fn read_hex(t: &[u8]) -> Option<u64>
    ensures { result ≡ word_of t.now }
{
    if t.len() != 16 {
        return None;
    }
    let mut x = 0;
    for b in t {
        x = x * 16 + nibble(*b)?;
    }
    Some(x)
}
