// What a character adds to the line of an event, written into the room of that line.

ghost use Rattle.std.specs.Prelude.{◌≡◌, ◌<◌, ◌≤◌, true, [], ◌∷◌};
ghost use Rattle.base.specs.Bytes.{all};
ghost use Rattle.text.specs.Char.{utf8};
ghost use Rattle.text.specs.Escape.{escape};
ghost use Rattle.little.specs.Little.{is_byte};
ghost use Rattle.markup_tags.specs.Output.{written_by};
ghost use Rattle.file_lexer.specs.Line.{line_grown};

use crate::{KEPT, WORD};
use little::copy_at;
use markup_tags::Output;

// A byte more of a line. The answer, here and below, is how many bytes are kept of it.
#[inline(always)]
fn put_byte(bytes: &mut [u8], used: usize, byte: u8) -> usize
    ensures { record { bytes = bytes.new; used = result } ≡ line_grown bytes.old used (byte ∷ []) }
{
    if KEPT <= used {
        return KEPT;
    }
    let at = WORD + used;
    if at < bytes.len() {
        bytes[at] = byte;
        return used + 1;
    }
    used + 1
}

#[inline(always)]
fn put_two(bytes: &mut [u8], used: usize, first: u8, second: u8) -> usize
    ensures { record { bytes = bytes.new; used = result } ≡ line_grown bytes.old used (first ∷ second ∷ []) }
{
    let behind = put_byte(bytes, used, first);
    put_byte(bytes, behind, second)
}

// A character of three bytes, or of four: the Unicode standard, table 3-6.
fn put_long(bytes: &mut [u8], used: usize, c: u32) -> usize
    requires least { 2048 ≤ c }
    requires most { c < 4194304 }
    ensures { record { bytes = bytes.new; used = result } ≡ line_grown bytes.old used (utf8 c) }
{
    let third = (0x80 + c / 64 % 64) as u8;
    let last = (0x80 + c % 64) as u8;
    if c < 0x10000 {
        let behind = put_byte(bytes, used, (0xe0 + c / 4096) as u8);
        return put_two(bytes, behind, third, last);
    }
    let behind = put_two(
        bytes,
        used,
        (0xf0 + c / 262144) as u8,
        (0x80 + c / 4096 % 64) as u8,
    );
    put_two(bytes, behind, third, last)
}

// A character, in UTF-8.
#[inline(always)]
fn put_char(bytes: &mut [u8], used: usize, c: u32) -> usize
    requires { c < 4194304 }
    ensures { record { bytes = bytes.new; used = result } ≡ line_grown bytes.old used (utf8 c) }
{
    if c < 0x80 {
        return put_byte(bytes, used, c as u8);
    }
    if c < 0x800 {
        return put_two(bytes, used, (0xc0 + c / 64) as u8, (0x80 + c % 64) as u8);
    }
    put_long(bytes, used, c)
}

// A character of a value: "in values `\t`, `\n`, `\r`, `\\` stand for tab, line feed, carriage return, backslash".
fn put_escaped(bytes: &mut [u8], used: usize, c: u32) -> usize
    requires { c < 4194304 }
    ensures { record { bytes = bytes.new; used = result } ≡ line_grown bytes.old used (escape (utf8 c)) }
{
    match c {
        0x9 => put_two(bytes, used, b'\\', b't'),
        0xa => put_two(bytes, used, b'\\', b'n'),
        0xd => put_two(bytes, used, b'\\', b'r'),
        0x5c => put_two(bytes, used, b'\\', b'\\'),
        _ => put_char(bytes, used, c),
    }
}

// What a character adds to the line.
#[inline(always)]
pub fn put_output(bytes: &mut [u8], used: usize, output: Output) -> usize
    requires { all is_byte (written_by output) ≡ true }
    ensures { record { bytes = bytes.new; used = result } ≡ line_grown bytes.old used (written_by output) }
{
    match output {
        Output::Nothing => used.min(KEPT),
        Output::Plain(c) => put_char(bytes, used, c),
        Output::Tabbed(c) => {
            let behind = put_byte(bytes, used, b'\t');
            put_char(bytes, behind, c)
        }
        Output::EqualsSign => put_byte(bytes, used, b'='),
        Output::Escaped(c) => put_escaped(bytes, used, c),
    }
}

// Bytes that stand for themselves, as they are.
#[inline(always)]
pub fn put_run(bytes: &mut [u8], used: usize, s: &[u8]) -> usize
    ensures { record { bytes = bytes.new; used = result } ≡ line_grown bytes.old used s.now }
{
    if KEPT <= used {
        return KEPT;
    }
    let room = KEPT - used;
    if s.len() <= room {
        copy_at(bytes, WORD + used, s);
        return used + s.len();
    }
    copy_at(bytes, WORD + used, &s[..room]);
    KEPT
}
