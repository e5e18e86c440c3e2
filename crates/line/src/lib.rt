// Lines of a text, each a key, an equals sign, a value and a line feed; and the one form of a number.
#![tactic(auto)]

ghost use Rattle.std.specs.Prelude.{◌≡◌, ◌==◌, length, drop};
ghost use Rattle.std.specs.List.{position_from};
ghost use Rattle.line.specs.Bytes.{same_of, has_of, until_of, past_of};
ghost use Rattle.line.specs.Line.{value_of, is_line, next_of, moved_on};
ghost use Rattle.line.specs.Number.{digits_of, negative_of, signed_of, number_of};

// ---- parts of a text, uncopied

// Kept: `place_of`, `count_until`, `has`, `until` and `past` take a text and a byte, as the library's `position` does: a struct of the two would be made
// for each call.

// The text from `at` on; nothing past its end.
fn from(t: &[u8], at: usize) -> &[u8]
    ensures { result.now ≡ drop at t.now }
{
    t.get(at..).unwrap_or(&[])
}

// Where the first `byte` stands.
fn place_of(t: &[u8], byte: u8) -> Option<usize>
    ensures { result ≡ position_from (λ b. b == byte) 0 t.now }
{
    t.iter().position(|b| *b == byte)
}

// How many bytes stand before the first `byte`: all of them where there is none.
fn count_until(t: &[u8], byte: u8) -> usize
    ensures { result ≡ length (until_of byte t.now) }
{
    place_of(t, byte).unwrap_or(t.len())
}

fn has(t: &[u8], byte: u8) -> bool
    ensures { result ≡ has_of byte t.now }
{
    t.contains(&byte)
}

fn until(t: &[u8], byte: u8) -> &[u8]
    ensures { result.now ≡ until_of byte t.now }
{
    let n = count_until(t, byte);
    &t[..n]
}

fn past(t: &[u8], byte: u8) -> &[u8]
    ensures { result.now ≡ past_of byte t.now }
{
    from(t, count_until(t, byte) + 1)
}

// Kept: a public function, of which Settled.same speaks; what the lines and the numbers are defined by is same_of, and this says so to callers of the
// library's ==.
pub fn same(a: &[u8], b: &[u8]) -> bool
    ensures { result ≡ same_of a.now b.now }
{
    a == b
}

// ---- the line at a place

// Kept: `is_line`, `line_value` and `line_end` are the functions of a text and a place that the scope wants below the reader.

// Whether a line of this key stands at `at`.
fn is_line(text: &[u8], at: usize, key: &[u8]) -> bool
    ensures { result ≡ is_line key.now (drop at text.now) }
{
    let rest = from(text, at);
    let line = until(rest, b'\n');
    has(rest, b'\n') && has(line, b'=') && same(until(line, b'='), key)
}

// The value of the line at `at`.
fn line_value(text: &[u8], at: usize) -> &[u8]
    ensures { result.now ≡ value_of (drop at text.now) }
{
    past(until(from(text, at), b'\n'), b'=')
}

// The place after the line at `at`.
fn line_end(text: &[u8], at: usize) -> usize
    ensures { result ≡ next_of text.now at }
{
    text.len() - past(from(text, at), b'\n').len()
}

// ---- a reader, which keeps the text together with its place

// Kept: the scope names this form, a small struct of the slice and a place, its methods thin above functions of the two, and its value a part of the slice.
#[derive(Clone, Copy)]
pub struct Reader<'a> {
    pub text: &'a [u8],
    pub at: usize,
}

impl<'a> Reader<'a> {
    // Whether the line here is one of this key.
    pub fn is_line(self, key: &[u8]) -> bool
        ensures { result ≡ is_line key.now (drop self.entry.at self.entry.text.now) }
    {
        is_line(self.text, self.at, key)
    }

    // The value of the line here, a part of the text.
    pub fn value(self) -> &'a [u8]
        ensures { result.now ≡ value_of (drop self.entry.at self.entry.text.now) }
    {
        line_value(self.text, self.at)
    }

    // The reader at the next line.
    pub fn next(self) -> Reader<'a>
        ensures { result ≡ moved_on self.entry }
    {
        let at = line_end(self.text, self.at);
        Reader {
            text: self.text,
            at,
        }
    }
}

// ---- numbers

// Kept: nan is one of the texts that are numbers, and None stands for those that are none.
#[derive(Clone, Copy)]
pub enum Number {
    Whole { minus: bool, size: u64 },
    Nan,
}

const MOST_DIGITS: usize = 12;

// 1 to 12 digits, of which the first is 0 only where it is the only one.
fn digits_of(v: &[u8]) -> Option<Number>
    ensures { result ≡ digits_of v.now }
{
    if v.is_empty() || MOST_DIGITS < v.len() {
        return None;
    }
    if v[0] == b'0' && v.len() != 1 {
        return None;
    }
    let mut size: u64 = 0;
    for &b in v {
        if !b.is_ascii_digit() {
            return None;
        }
        size = size * 10 + u64::from(b - b'0');
    }
    Some(Number::Whole { minus: false, size })
}

// A number with a minus sign before it; -0 is none.
#[tactic(auto, unfolding(crate::specs::Number::negative_of))]
fn negative_of(n: Number) -> Option<Number>
    ensures { result ≡ negative_of n }
{
    match n {
        Number::Whole { size, .. } if size != 0 => Some(Number::Whole { minus: true, size }),
        _ => None,
    }
}

fn signed_of(v: &[u8]) -> Option<Number>
    ensures { result ≡ signed_of v.now }
{
    match v.strip_prefix(b"-") {
        Some(digits) => negative_of(digits_of(digits)?),
        None => digits_of(v),
    }
}

// None where it is no number.
pub fn number_of(v: &[u8]) -> Option<Number>
    ensures { result ≡ number_of v.now }
{
    if same(v, b"nan") {
        Some(Number::Nan)
    } else {
        signed_of(v)
    }
}
