// A byte more of a file: of the text between markups, or of a markup.

ghost use Rattle.std.specs.Prelude.{◌≡◌, true};
ghost use Rattle.base.specs.Bytes.{Bytes};
ghost use Rattle.text.specs.Char.{xml_char};
ghost use Rattle.markup.specs.Automaton.{markup_step};
ghost use Rattle.markup.specs.MarkupBytes.{char_step};
ghost use Rattle.xml_chars.specs.Chars.{bytes_in};
ghost use Rattle.markup_steps.specs.Held.{markup_for};
ghost use Rattle.file_lexer.specs.Lexing.{between, before_step, is_first, counted, lex_at, char_taken, byte_taken, lex_byte};
ghost use Rattle.file_lexer.specs.Held.{lexing_of, lexed_byte_of};

use crate::output::put_output;
use crate::{Before, FilePlace, Lexer, Told};
use markup_steps::{MarkupMoved, MarkupPlace, markup_step};
use xml_chars::{CharBytes, CharMoved, char_step};

// The lexer after a byte, the line feeds so far, and what was told.
#[derive(Clone, Copy, PartialEq, Eq, Debug)]
pub struct LexedByte {
    pub lexer: Lexer,
    pub lines: u64,
    pub told: Told,
}

// The line feeds so far, up to the largest number.
#[inline(always)]
fn counted(lines: u64, byte: u8) -> u64
    ensures { result ≡ counted byte lines }
{
    if byte != b'\n' {
        return lines;
    }
    if lines == u64::MAX {
        return lines;
    }
    lines + 1
}

// What stands before the byte behind this one, which is of no markup.
fn before_step(before: Before, byte: u8) -> Before
    ensures { result ≡ before_step before byte }
{
    match before {
        Before::Nothing => {
            if byte == 0xef {
                return Before::MarkFirst;
            }
            Before::Text
        }
        Before::MarkFirst => {
            if byte == 0xbb {
                return Before::MarkSecond;
            }
            Before::Text
        }
        Before::MarkSecond => {
            if byte == 0xbf {
                return Before::Mark;
            }
            Before::Text
        }
        Before::Mark => Before::Text,
        Before::Text => Before::Text,
    }
}

// Whether a markup may be the declaration.
fn is_first(before: Before) -> bool
    ensures { result ≡ is_first before }
{
    match before {
        Before::Nothing => true,
        Before::MarkFirst => false,
        Before::MarkSecond => false,
        Before::Mark => true,
        Before::Text => false,
    }
}

// A byte between markups. A markup has the line feeds before its first byte.
#[inline(always)]
fn text_byte(lexer: Lexer, before: Before, lines: u64, byte: u8) -> LexedByte
    ensures { (bytes : Bytes) → lexed_byte_of result bytes ≡ lex_at (between before) byte (lexing_of lexer lines bytes) }
{
    if byte == b'<' {
        return LexedByte {
            lexer: Lexer {
                place: FilePlace::Markup(MarkupPlace::Begun(is_first(before)), CharBytes::None),
                feeds: lines,
                used: 0,
            },
            lines,
            told: Told::More,
        };
    }
    LexedByte {
        lexer: Lexer {
            place: FilePlace::Text(before_step(before, byte)),
            feeds: lexer.feeds,
            used: lexer.used,
        },
        lines: counted(lines, byte),
        told: Told::More,
    }
}

// A character of a markup, with its last byte.
#[inline(always)]
fn markup_char(
    lexer: Lexer,
    place: MarkupPlace,
    lines: u64,
    bytes: &mut [u8],
    byte: u8,
    c: u32,
) -> LexedByte
    requires { xml_char c ≡ true }
    ensures { lexed_byte_of result bytes.new ≡ char_taken byte (markup_for place) (lexing_of lexer lines bytes.old) (markup_step (markup_for place) c) }
{
    let taken = markup_step(place, c);
    match taken.moved {
        MarkupMoved::Continues(next) => {
            let used = put_output(bytes, lexer.used, taken.output);
            LexedByte {
                lexer: Lexer {
                    place: FilePlace::Markup(next, CharBytes::None),
                    feeds: lexer.feeds,
                    used,
                },
                lines: counted(lines, byte),
                told: Told::More,
            }
        }
        MarkupMoved::Completes(ended) => LexedByte {
            lexer: Lexer {
                place: FilePlace::Text(Before::Text),
                feeds: lexer.feeds,
                used: lexer.used,
            },
            lines,
            told: Told::Markup(ended),
        },
        MarkupMoved::Malformed => LexedByte {
            lexer,
            lines,
            told: Told::NotMarkup,
        },
    }
}

// A byte of a markup, behind those that are read of its next character.
#[inline(always)]
fn markup_byte(
    lexer: Lexer,
    place: MarkupPlace,
    so_far: CharBytes,
    lines: u64,
    bytes: &mut [u8],
    byte: u8,
) -> LexedByte
    ensures { lexed_byte_of result bytes.new ≡ byte_taken byte (markup_for place) (lexing_of lexer lines bytes.old) (char_step (bytes_in so_far) byte) }
{
    match char_step(so_far, byte) {
        CharMoved::Continues(next) => LexedByte {
            lexer: Lexer {
                place: FilePlace::Markup(place, next),
                feeds: lexer.feeds,
                used: lexer.used,
            },
            lines,
            told: Told::More,
        },
        CharMoved::Completes(c) => markup_char(lexer, place, lines, bytes, byte, c),
        CharMoved::Malformed => LexedByte {
            lexer,
            lines,
            told: Told::NotMarkup,
        },
    }
}

// A byte more.
#[inline(always)]
pub fn lex_byte(lexer: Lexer, lines: u64, bytes: &mut [u8], byte: u8) -> LexedByte
    ensures { lexed_byte_of result bytes.new ≡ lex_byte (lexing_of lexer lines bytes.old) byte }
{
    match lexer.place {
        FilePlace::Text(before) => text_byte(lexer, before, lines, byte),
        FilePlace::Markup(place, so_far) => markup_byte(lexer, place, so_far, lines, bytes, byte),
    }
}
