// Names and white space of XML 1.0, fifth edition, character by character.
#![tactic(auto)]

ghost use Rattle.std.specs.Prelude.{◌≡◌};
ghost use Rattle.text.specs.Char.{from_to};
ghost use Rattle.markup.specs.Names.{white_space, name_start_char, name_char};
ghost use Rattle.xml_names.specs.Ranges.{name_start_ascii, name_start_beyond, name_char_only};

// Whether a code point is from one to another.
fn in_range(lo: u32, hi: u32, c: u32) -> bool
    ensures { result ≡ from_to lo hi c }
{
    (lo <= c) & (c <= hi)
}

// Whether a code point is white space: production 3.
pub fn is_white_space(c: u32) -> bool
    ensures { result ≡ white_space c }
{
    (c == 0x20) | (c == 0x9) | (c == 0xd) | (c == 0xa)
}

// Whether a name can begin with a character of ASCII.
fn starts_in_ascii(c: u32) -> bool
    ensures { result ≡ name_start_ascii c }
{
    (c == 0x3a) | in_range(0x41, 0x5a, c) | (c == 0x5f) | in_range(0x61, 0x7a, c)
}

// Whether a name can begin with a character beyond ASCII.
fn starts_beyond(c: u32) -> bool
    ensures { result ≡ name_start_beyond c }
{
    in_range(0xc0, 0xd6, c)
        | in_range(0xd8, 0xf6, c)
        | in_range(0xf8, 0x2ff, c)
        | in_range(0x370, 0x37d, c)
        | in_range(0x37f, 0x1fff, c)
        | in_range(0x200c, 0x200d, c)
        | in_range(0x2070, 0x218f, c)
        | in_range(0x2c00, 0x2fef, c)
        | in_range(0x3001, 0xd7ff, c)
        | in_range(0xf900, 0xfdcf, c)
        | in_range(0xfdf0, 0xfffd, c)
        | in_range(0x10000, 0xeffff, c)
}

// Whether a name can begin with a code point: production 4. Most names are of ASCII.
pub fn is_name_start_char(c: u32) -> bool
    ensures { result ≡ name_start_char c }
{
    if c < 0x80 {
        starts_in_ascii(c)
    } else {
        starts_beyond(c)
    }
}

// Whether a code point is one with which a name can go on and not begin.
fn only_goes_on(c: u32) -> bool
    ensures { result ≡ name_char_only c }
{
    (c == 0x2d)
        | (c == 0x2e)
        | in_range(0x30, 0x39, c)
        | (c == 0xb7)
        | in_range(0x300, 0x36f, c)
        | in_range(0x203f, 0x2040, c)
}

// Whether a name can go on with a code point: production 4a.
pub fn is_name_char(c: u32) -> bool
    ensures { result ≡ name_char c }
{
    is_name_start_char(c) || only_goes_on(c)
}
