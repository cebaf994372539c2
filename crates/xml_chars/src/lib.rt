// Characters of a file from its bytes, one byte at a time: a reader keeps the bytes of a character that is not whole yet.
#![tactic(auto)]

ghost use Rattle.std.specs.Prelude.{◌≡◌, ◌+◌, ◌-◌, ◌*◌, ◌<◌, ◌≤◌, [], ◌∷◌, cond, leb};
ghost use Rattle.base.specs.Bytes.{both};
ghost use Rattle.text.specs.Char.{from_to, xml_char};
ghost use Rattle.markup.specs.Automaton.{completes, malformed};
ghost use Rattle.markup.specs.MarkupBytes.{second_byte, begins_char, char_step};
ghost use Rattle.xml_chars.specs.Chars.{bytes_in, char_moved, begun, whole_char};

// The bytes so far of a character that is not whole yet.
#[derive(Clone, Copy, PartialEq, Eq, Debug)]
pub enum CharBytes {
    None,
    One(u8),
    Two(u8, u8),
    Three(u8, u8, u8),
}

// What a byte more comes to.
#[derive(Clone, Copy, PartialEq, Eq, Debug)]
pub enum CharMoved {
    Continues(CharBytes),
    Completes(u32),
    Malformed,
}

// Whether a byte is from one to another.
fn in_range(lo: u8, hi: u8, byte: u8) -> bool
    ensures { result ≡ from_to lo hi byte }
{
    (lo <= byte) & (byte <= hi)
}

// Whether a byte can be the second of a character that begins with another: table 3-7.
fn is_second(first: u8, byte: u8) -> bool
    ensures { result ≡ second_byte first byte }
{
    match first {
        0xe0 => in_range(0xa0, 0xbf, byte),
        0xed => in_range(0x80, 0x9f, byte),
        0xf0 => in_range(0x90, 0xbf, byte),
        0xf4 => in_range(0x80, 0x8f, byte),
        _ => in_range(0x80, 0xbf, byte),
    }
}

// Whether a character begins with two bytes, and has a third.
fn begins_with_two(a: u8, b: u8) -> bool
    ensures { result ≡ begins_char (a ∷ b ∷ []) }
{
    in_range(0xe0, 0xf4, a) & is_second(a, b)
}

// Whether a character begins with three bytes, and has a fourth.
fn begins_with_three(a: u8, b: u8, c: u8) -> bool
    ensures { result ≡ begins_char (a ∷ b ∷ c ∷ []) }
{
    in_range(0xf0, 0xf4, a) & is_second(a, b) & in_range(0x80, 0xbf, c)
}

// Whether a code point from the blank on is a legal character: production 2.
fn is_legal(point: u32) -> bool
    requires { 0x20 ≤ point }
    ensures { result ≡ xml_char point }
{
    matches!(point, 0x20..=0xd7ff | 0xe000..=0xfffd | 0x10000..=0x10ffff)
}

// The bits of a character so far with the six of a byte that continues it: table 3-6.
fn joined(bits: u32, byte: u8) -> u32
    requires bits { bits < 0x10000 }
    requires byte { 0x80 ≤ byte }
    ensures { result ≡ bits * 64 + (byte - 0x80) }
{
    bits * 64 + u32::from(byte - 0x80)
}

// The character of a code point, where it is legal and not below the least of as many bytes.
fn completed(least: u32, point: u32) -> CharMoved
    requires { 0x20 ≤ least }
    ensures { char_moved result ≡ cond (both (leb least point) (xml_char point)) (completes point) malformed }
{
    if least <= point && is_legal(point) {
        CharMoved::Completes(point)
    } else {
        CharMoved::Malformed
    }
}

// The character of two bytes.
fn whole_of_two(a: u8, b: u8) -> CharMoved
    ensures { char_moved result ≡ whole_char (a ∷ b ∷ []) }
{
    if in_range(0xc2, 0xdf, a) & in_range(0x80, 0xbf, b) {
        CharMoved::Completes(joined(u32::from(a - 0xc0), b))
    } else {
        CharMoved::Malformed
    }
}

// The character of three bytes.
fn whole_of_three(a: u8, b: u8, c: u8) -> CharMoved
    ensures { char_moved result ≡ whole_char (a ∷ b ∷ c ∷ []) }
{
    if in_range(0xe0, 0xef, a) & in_range(0x80, 0xbf, b) & in_range(0x80, 0xbf, c) {
        completed(0x800, joined(joined(u32::from(a - 0xe0), b), c))
    } else {
        CharMoved::Malformed
    }
}

// The character of four bytes.
fn whole_of_four(a: u8, b: u8, c: u8, d: u8) -> CharMoved
    ensures { char_moved result ≡ whole_char (a ∷ b ∷ c ∷ d ∷ []) }
{
    if in_range(0xf0, 0xf4, a)
        & in_range(0x80, 0xbf, b)
        & in_range(0x80, 0xbf, c)
        & in_range(0x80, 0xbf, d)
    {
        completed(
            0x10000,
            joined(joined(joined(u32::from(a - 0xf0), b), c), d),
        )
    } else {
        CharMoved::Malformed
    }
}

// A byte with nothing before it.
fn first_step(byte: u8) -> CharMoved
    ensures { char_moved result ≡ char_step [] byte }
{
    match byte {
        0x20..=0x7f | 0x9 | 0xa | 0xd => CharMoved::Completes(u32::from(byte)),
        0xc2..=0xf4 => CharMoved::Continues(CharBytes::One(byte)),
        _ => CharMoved::Malformed,
    }
}

// A byte behind another.
fn second_step(a: u8, byte: u8) -> CharMoved
    ensures { char_moved result ≡ char_step (a ∷ []) byte }
{
    if begins_with_two(a, byte) {
        CharMoved::Continues(CharBytes::Two(a, byte))
    } else {
        whole_of_two(a, byte)
    }
}

// A byte behind two others.
fn third_step(a: u8, b: u8, byte: u8) -> CharMoved
    ensures { char_moved result ≡ char_step (a ∷ b ∷ []) byte }
{
    if begins_with_three(a, b, byte) {
        CharMoved::Continues(CharBytes::Three(a, b, byte))
    } else {
        whole_of_three(a, b, byte)
    }
}

// A byte more, by the bytes before it.
fn step_by_size(so_far: CharBytes, byte: u8) -> CharMoved
    ensures { char_moved result ≡ char_step (bytes_in so_far) byte }
{
    match so_far {
        CharBytes::None => first_step(byte),
        CharBytes::One(a) => second_step(a, byte),
        CharBytes::Two(a, b) => third_step(a, b, byte),
        CharBytes::Three(a, b, c) => whole_of_four(a, b, c, byte),
    }
}

// A byte more of a character: production 2 of XML 1.0, in UTF-8 by table 3-7 of the Unicode standard.
// Most bytes are characters of ASCII from the blank on: one test, by `&`, tells these from all others.
#[inline(always)]
pub fn char_step(so_far: CharBytes, byte: u8) -> CharMoved
    ensures { char_moved result ≡ char_step (bytes_in so_far) byte }
{
    if matches!(so_far, CharBytes::None) & in_range(0x20, 0x7f, byte) {
        CharMoved::Completes(u32::from(byte))
    } else {
        step_by_size(so_far, byte)
    }
}

// Whether bytes are ones with which a character begins, or none: what a reader can be left with between two bytes.
pub fn is_begun(so_far: CharBytes) -> bool
    ensures { result ≡ begun (bytes_in so_far) }
{
    match so_far {
        CharBytes::None => true,
        CharBytes::One(a) => in_range(0xc2, 0xf4, a),
        CharBytes::Two(a, b) => begins_with_two(a, b),
        CharBytes::Three(a, b, c) => begins_with_three(a, b, c),
    }
}
