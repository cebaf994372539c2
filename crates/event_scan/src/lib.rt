// Event lines: the escapes of a value, what of a line is judged, and in `fields` and `event_line` its attributes and what it is.
#![tactic(auto)]

ghost use Rattle.std.specs.Prelude.{◌≡◌, not, true, eqb, length, set};
ghost use Rattle.base.specs.Bytes.{all};
ghost use Rattle.event.specs.Event.{body, legal_line};
ghost use Rattle.little.specs.Little.{over};
ghost use Rattle.text.specs.Escape.{meaning, unescape};
ghost use Rattle.event_scan.specs.Piece.{there, piece_in, value_text};

pub mod event_line;
pub mod fields;
pub mod located;

// "2 over 16,384 bytes without its line feed"
pub const MAX_LINE: usize = 16384;

// Whether a byte is nowhere in a run.
pub fn lacks(t: &[u8], c: u8) -> bool
    ensures { result ≡ all (λ b. not (eqb b c)) t.now }
{
    text::search::byte_position(t, c).is_none()
}

// ---- escapes

// A byte of a value's text, and how many bytes write it.
#[derive(Clone, Copy, PartialEq, Eq, Debug)]
struct Piece {
    byte: u8,
    size: usize,
}

// The byte that an escape stands for, by its letter.
fn letter(m: u8) -> Option<u8>
    ensures { result ≡ meaning m }
{
    match m {
        b't' => Some(b'\t'),
        b'n' => Some(b'\n'),
        b'r' => Some(b'\r'),
        b'\\' => Some(b'\\'),
        _ => None,
    }
}

// What a value begins with, if it begins with a byte or a right escape.
fn first_piece(v: &[u8]) -> Option<Piece>
    ensures { result ≡ piece_in v.now }
{
    match v {
        [b'\\', m, ..] => {
            let byte = letter(*m)?;
            Some(Piece { byte, size: 2 })
        }
        [b'\\'] => None,
        [byte, ..] => Some(Piece {
            byte: *byte,
            size: 1,
        }),
        [] => None,
    }
}

// Whether a value's escapes are right, from piece to piece.
fn pieces_right(v: &[u8]) -> bool
    ensures { result ≡ there (unescape v.now) }
{
    let mut rest = v;
    while let Some(piece) = first_piece(rest) {
        rest = &rest[piece.size..];
    }
    rest.is_empty()
}

// Whether a value's escapes are right: without a backslash it has none.
fn escapes_right(v: &[u8]) -> bool
    ensures { result ≡ there (unescape v.now) }
{
    if lacks(v, b'\\') {
        return true;
    }
    pieces_right(v)
}

// A byte at a place, where there is room. `get_mut` was tried: what it leaves of the slice is not known behind it.
fn put(out: &mut [u8], at: usize, b: u8)
    ensures { out.new ≡ set out.old at b }
{
    if at < out.len() {
        out[at] = b;
    }
}

// The text of a value whose escapes are right. The loop is no `for`: a piece tells where the next one begins, and what is written is counted past the room too.
fn write(out: &mut [u8], v: &[u8]) -> usize
    requires { there (unescape v.now) ≡ true }
    ensures { (out.new ≡ over out.old 0 (value_text v.now)) × (result ≡ length (value_text v.now)) }
{
    let mut rest = v;
    let mut n: usize = 0;
    while let Some(piece) = first_piece(rest) {
        put(out, n, piece.byte);
        rest = &rest[piece.size..];
        n += 1;
    }
    n
}

// The text of a value at the start of what is lent, as far as there is room; its whole length is answered. A value with another escape stands for an empty text, whose length is 0.
pub fn unescape_into(out: &mut [u8], value: &[u8]) -> usize
    ensures { (out.new ≡ over out.old 0 (value_text value.now)) × (result ≡ length (value_text value.now)) }
{
    if escapes_right(value) {
        return write(out, value);
    }
    0
}

// ---- lines

// Whether a line without its line feed is text without a carriage return.
fn legal_line(t: &[u8]) -> bool
    ensures { result ≡ legal_line t.now }
{
    if text::is_text(t) {
        return lacks(t, b'\r');
    }
    false
}

// How long a line is without its line feed: places in the line are places in so many of its bytes.
pub fn body_length(line: &[u8]) -> usize
    ensures { result ≡ length (body line.now) }
{
    let n = line.len();
    if n == 0 {
        return 0;
    }
    if line[n - 1] == b'\n' {
        return n - 1;
    }
    n
}
