// The markups of a file, byte by byte, in pieces of any size: where a reader of a file stands between two bytes, and the line of an event as its tag is read.
#![tactic(auto)]

ghost use Rattle.std.specs.Prelude.{◌≡◌, ◌≤◌, length, drop};
ghost use Rattle.file_lexer.specs.Lexing.{lex_run};
ghost use Rattle.file_lexer.specs.Held.{lexing_of, lexed_of};

mod byte;
mod output;
mod passing;

use markup_steps::{Ended, MarkupPlace};
use xml_chars::CharBytes;

// Where the line of an event begins behind its first word, which is `open` or `empty` with a tab: which one, the end of the tag tells.
pub const WORD: usize = 6;

// How many bytes of it are kept behind that word: one more than either word leaves of a line's 16,384, which tells that it is too long.
pub const KEPT: usize = 16380;

// The line in its room: the word, what is kept, and a line feed.
pub const LINE: usize = WORD + KEPT + 1;

// The room of a line, and behind it that of the name of an open element.
pub const FILE_BYTES: usize = LINE + 16384;

// What stands before the next byte between markups: nothing; the bytes so far of the mark of byte order, which a file may begin with; or text.
#[derive(Clone, Copy, PartialEq, Eq, Debug)]
pub enum Before {
    Nothing,
    MarkFirst,
    MarkSecond,
    Mark,
    Text,
}

// Where in a file a reader stands between two bytes.
#[derive(Clone, Copy, PartialEq, Eq, Debug)]
pub enum FilePlace {
    Text(Before),
    Markup(MarkupPlace, CharBytes),
}

// That, with the line feeds before the markup, and how many bytes are kept of its line; between markups both are 0.
#[derive(Clone, Copy, PartialEq, Eq, Debug)]
pub struct Lexer {
    pub place: FilePlace,
    pub feeds: u64,
    pub used: usize,
}

// What bytes came to: they ended, or a markup did, or no legal markup is written so.
#[derive(Clone, Copy, PartialEq, Eq, Debug)]
pub enum Told {
    More,
    Markup(Ended),
    NotMarkup,
}

// The lexer after a run, or after the first of its markups that ended; the line feeds so far; what was told, and how many bytes were taken.
#[derive(Clone, Copy, PartialEq, Eq, Debug)]
pub struct Lexed {
    pub lexer: Lexer,
    pub lines: u64,
    pub told: Told,
    pub taken: usize,
}

// The same over bytes of any length: at each turn the plain bytes that come first, and one byte more.
fn lex_bytes(first: Lexer, first_lines: u64, bytes: &mut [u8], run: &[u8]) -> Lexed
    ensures value { lexed_of result bytes.new run.now ≡ lex_run (lexing_of first first_lines bytes.old) run.now }
    ensures taken_in_bounds { result.taken ≤ length run.now }
{
    let mut lexer = first;
    let mut lines = first_lines;
    let mut at: usize = 0;
    while at < run.len() {
        let passed = passing::pass(lexer, lines, bytes, &run[at..]);
        let here = at + passed.taken;
        if here == run.len() {
            return Lexed {
                lexer: passed.lexer,
                lines: passed.lines,
                told: Told::More,
                taken: here,
            };
        }
        let step = byte::lex_byte(passed.lexer, passed.lines, bytes, run[here]);
        match step.told {
            Told::More => {
                lexer = step.lexer;
                lines = step.lines;
                at = here + 1;
            }
            Told::Markup(ended) => {
                return Lexed {
                    lexer: step.lexer,
                    lines: step.lines,
                    told: Told::Markup(ended),
                    taken: here + 1,
                };
            }
            Told::NotMarkup => {
                return Lexed {
                    lexer: step.lexer,
                    lines: step.lines,
                    told: Told::NotMarkup,
                    taken: here,
                };
            }
        }
    }
    Lexed {
        lexer,
        lines,
        told: Told::More,
        taken: at,
    }
}

// A run up to the end of its first markup, or to a byte with which no legal markup goes on, which is not taken. At a markup's end the lexer still has its line
// feeds and its line's bytes.
pub fn lex(lexer: Lexer, lines: u64, bytes: &mut [u8; FILE_BYTES], run: &[u8]) -> Lexed
    ensures value { lexed_of result bytes.new run.now ≡ lex_run (lexing_of lexer lines bytes.old) run.now }
    ensures taken_in_bounds { result.taken ≤ length run.now }
{
    lex_bytes(lexer, lines, bytes, run)
}
