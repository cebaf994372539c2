// Single characters: those of XML, and digits.

ghost use Rattle.std.specs.Prelude.{◌≡◌, cond, not, eqb, Some, None};
ghost use Rattle.base.specs.Bytes.{both, is_digit};
ghost use Rattle.text.specs.Char.{from_to, xml_char};
ghost use Rattle.markup.specs.Signs.{less_than_sign};
ghost use Rattle.markup.specs.References.{hex_digit, digit_value};
ghost use Rattle.markup_tags.specs.Characters.{other_char};

// Whether a code point is from one to another.
fn in_range(lo: u32, hi: u32, c: u32) -> bool
    ensures { result ≡ from_to lo hi c }
{
    (lo <= c) & (c <= hi)
}

// Whether a code point is one of the other characters of XML: white space below the blank, or beyond the surrogates.
fn is_other_char(c: u32) -> bool
    ensures { result ≡ other_char c }
{
    (c == 0x9)
        | (c == 0xa)
        | (c == 0xd)
        | in_range(0xe000, 0xfffd, c)
        | in_range(0x10000, 0x10ffff, c)
}

// Whether a code point is a character of XML: production 2. Most stand from the blank on, before the surrogates.
pub fn is_xml_char(c: u32) -> bool
    ensures { result ≡ xml_char c }
{
    in_range(0x20, 0xd7ff, c) || is_other_char(c)
}

// Whether a character stands for itself in a value: it is one of XML, and no `<`.
pub fn is_value_char(c: u32) -> bool
    ensures { result ≡ both (not (eqb c less_than_sign)) (xml_char c) }
{
    is_xml_char(c) & (c != 0x3c)
}

// What a decimal digit stands for.
pub fn decimal_digit_value(c: u32) -> Option<u32>
    ensures { result ≡ cond (is_digit c) (Some (digit_value c)) None }
{
    match c {
        48..=57 => Some(c - 48),
        _ => None,
    }
}

// What a hexadecimal digit stands for, in either case.
pub fn hex_digit_value(c: u32) -> Option<u32>
    ensures { result ≡ cond (hex_digit c) (Some (digit_value c)) None }
{
    match c {
        48..=57 => Some(c - 48),
        65..=70 => Some(c - 55),
        97..=102 => Some(c - 87),
        _ => None,
    }
}
