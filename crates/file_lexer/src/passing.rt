// Runs of plain bytes, which are passed over many at a time: text between markups, names, values, comments and the data of instructions.

ghost use Rattle.std.specs.Prelude.{◌≡◌, ◌≤◌, ◌<◌, ℕ, true, length, take, min, eqb, count_by, slice_index_or};
ghost use Rattle.base.specs.Bytes.{Bytes, all};
ghost use Rattle.markup.specs.Markup.{mark_char};
ghost use Rattle.markup_tags.specs.StartTags.{mark_for};
ghost use Rattle.markup_steps.specs.Held.{markup_for};
ghost use Rattle.file_lexer.specs.Lexing.{lex_run};
ghost use Rattle.file_lexer.specs.Line.{line_of, line_grown};
ghost use Rattle.file_lexer.specs.Plain.{plain_but, plain_of_value, plain_of_name, counted_on, in_text, in_markup};
ghost use Rattle.file_lexer.specs.Plain.{value_state, name_state, attribute_name_state, end_name_state, comment_state, data_state};
ghost use Rattle.file_lexer.specs.Held.{lexing_of, passed_run};

use crate::output::put_run;
use crate::{Before, FilePlace, KEPT, Lexer};
use markup_skipped::comments::CommentPlace;
use markup_skipped::instructions::InstructionPlace;
use markup_steps::MarkupPlace;
use markup_tags::end_tags::EndTagPlace;
use markup_tags::start_tags::{QuoteMark, StartTagPlace};
use text::search::byte_position;
use xml_chars::CharBytes;

// The lexer behind a run of plain bytes, the line feeds so far, and how many bytes the run has.
#[derive(Clone, Copy, PartialEq, Eq, Debug)]
pub struct Passed {
    pub lexer: Lexer,
    pub lines: u64,
    pub taken: usize,
}

// ---- how long a run is

#[inline(always)]
fn is_plain(stop: u8, byte: u8) -> bool
    ensures { result ≡ plain_but stop byte }
{
    (0x20 <= byte) & (byte <= 0x7e) & (byte != stop)
}

#[inline(always)]
fn is_plain_of_value(quote: u8, byte: u8) -> bool
    ensures { result ≡ plain_of_value quote byte }
{
    is_plain(quote, byte) & (byte != b'&') & (byte != b'<') & (byte != b'\\')
}

// How many plain bytes come first.
fn plain_length(s: &[u8], stop: u8) -> usize
    ensures in_bounds { result ≤ length s.now }
    ensures plain { all (plain_but stop) (take result s.now) ≡ true }
{
    let mut n: usize = 0;
    while n < s.len() {
        if is_plain(stop, s[n]) {
            n += 1;
            continue;
        }
        return n;
    }
    n
}

// How many plain bytes of a value come first.
#[inline(always)]
fn value_length(s: &[u8], quote: u8) -> usize
    ensures in_bounds { result ≤ length s.now }
    ensures plain { all (plain_of_value quote) (take result s.now) ≡ true }
{
    let mut n: usize = 0;
    while n < s.len() {
        if is_plain_of_value(quote, s[n]) {
            n += 1;
            continue;
        }
        return n;
    }
    n
}

#[inline(always)]
fn is_plain_of_name(byte: u8) -> bool
    ensures { result ≡ plain_of_name byte }
{
    ((b'a' <= byte) & (byte <= b'z')) | ((b'A' <= byte) & (byte <= b'Z')) | (byte == b'_')
}

// How many plain bytes of a name come first.
#[inline(always)]
fn name_length(s: &[u8]) -> usize
    ensures in_bounds { result ≤ length s.now }
    ensures plain { all plain_of_name (take result s.now) ≡ true }
{
    let mut n: usize = 0;
    while n < s.len() {
        if is_plain_of_name(s[n]) {
            n += 1;
            continue;
        }
        return n;
    }
    n
}

// How many bytes stand before the next markup.
fn text_length(s: &[u8]) -> usize
    ensures in_bounds { result ≤ length s.now }
    ensures text { (k : ℕ) → k < result → slice_index_or s.now k 0 ≡ 60 → ⊥ }
{
    match byte_position(s, b'<') {
        Some(n) => n,
        None => s.len(),
    }
}

// ---- the line feeds of a run

fn feeds_in(s: &[u8]) -> usize
    ensures { result ≡ count_by (λ b. eqb b 10) s.now }
{
    s.iter().filter(|b| **b == b'\n').count()
}

fn counted_on(lines: u64, s: &[u8]) -> u64
    ensures { result ≡ counted_on lines s.now }
{
    let feeds = feeds_in(s) as u64;
    if feeds <= u64::MAX - lines {
        return lines + feeds;
    }
    u64::MAX
}

// ---- each kind of run

// Text between markups.
fn pass_text(feeds: u64, used: usize, lines: u64, rest: &[u8]) -> Passed
    ensures in_bounds { result.taken ≤ length rest.now }
    ensures still { (bytes : Bytes) → passed_run result bytes rest.now ≡ lex_run (in_text feeds lines (line_of bytes used)) rest.now }
{
    let taken = text_length(rest);
    Passed {
        lexer: Lexer {
            place: FilePlace::Text(Before::Text),
            feeds,
            used,
        },
        lines: counted_on(lines, &rest[..taken]),
        taken,
    }
}

#[inline(always)]
fn quote_of(mark: QuoteMark) -> u8
    ensures { result ≡ mark_char (mark_for mark) }
{
    match mark {
        QuoteMark::Double => b'"',
        QuoteMark::Single => b'\'',
    }
}

// The first bytes of a run copied into the line, if there are any.
#[inline(always)]
fn put_first(bytes: &mut [u8], used: usize, rest: &[u8], taken: usize) -> usize
    requires { taken ≤ length rest.now }
    ensures none { taken ≡ 0 → line_of bytes.new result ≡ line_of bytes.old used }
    ensures some { 0 < taken → line_of bytes.new result ≡ line_grown bytes.old used (take taken rest.now) }
{
    if taken == 0 {
        return used;
    }
    put_run(bytes, used, &rest[..taken])
}

// A value.
#[inline(always)]
fn pass_value(
    mark: QuoteMark,
    feeds: u64,
    used: usize,
    lines: u64,
    bytes: &mut [u8],
    rest: &[u8],
) -> Passed
    ensures in_bounds { result.taken ≤ length rest.now }
    ensures still { passed_run result bytes.new rest.now ≡ lex_run (in_markup (value_state (mark_for mark)) feeds lines (line_of bytes.old used)) rest.now }
{
    let taken = value_length(rest, quote_of(mark));
    let used = put_first(bytes, used, rest, taken);
    Passed {
        lexer: Lexer {
            place: FilePlace::Markup(
                MarkupPlace::StartTag(StartTagPlace::Value(mark, false)),
                CharBytes::None,
            ),
            feeds,
            used,
        },
        lines,
        taken,
    }
}

// The name of an element.
#[inline(always)]
fn pass_name(feeds: u64, used: usize, lines: u64, bytes: &mut [u8], rest: &[u8]) -> Passed
    ensures in_bounds { result.taken ≤ length rest.now }
    ensures still { passed_run result bytes.new rest.now ≡ lex_run (in_markup name_state feeds lines (line_of bytes.old used)) rest.now }
{
    let taken = name_length(rest);
    let used = put_first(bytes, used, rest, taken);
    Passed {
        lexer: Lexer {
            place: FilePlace::Markup(MarkupPlace::StartTag(StartTagPlace::Name), CharBytes::None),
            feeds,
            used,
        },
        lines,
        taken,
    }
}

// The name of an attribute.
#[inline(always)]
fn pass_attribute_name(feeds: u64, used: usize, lines: u64, bytes: &mut [u8], rest: &[u8]) -> Passed
    ensures in_bounds { result.taken ≤ length rest.now }
    ensures still { passed_run result bytes.new rest.now ≡ lex_run (in_markup attribute_name_state feeds lines (line_of bytes.old used)) rest.now }
{
    let taken = name_length(rest);
    let used = put_first(bytes, used, rest, taken);
    Passed {
        lexer: Lexer {
            place: FilePlace::Markup(
                MarkupPlace::StartTag(StartTagPlace::AttributeName),
                CharBytes::None,
            ),
            feeds,
            used,
        },
        lines,
        taken,
    }
}

// The name in an end tag.
#[inline(always)]
fn pass_end_name(feeds: u64, used: usize, lines: u64, bytes: &mut [u8], rest: &[u8]) -> Passed
    ensures in_bounds { result.taken ≤ length rest.now }
    ensures still { passed_run result bytes.new rest.now ≡ lex_run (in_markup end_name_state feeds lines (line_of bytes.old used)) rest.now }
{
    let taken = name_length(rest);
    let used = put_first(bytes, used, rest, taken);
    Passed {
        lexer: Lexer {
            place: FilePlace::Markup(MarkupPlace::EndTag(EndTagPlace::Name), CharBytes::None),
            feeds,
            used,
        },
        lines,
        taken,
    }
}

// How many bytes are kept of the line, where bytes were passed over that are not in it.
fn used_past(used: usize, taken: usize) -> usize
    ensures none { taken ≡ 0 → result ≡ used }
    ensures some { 0 < taken → result ≡ min 16380 used }
{
    if taken == 0 {
        return used;
    }
    used.min(KEPT)
}

// A comment.
fn pass_comment(feeds: u64, used: usize, lines: u64, rest: &[u8]) -> Passed
    ensures in_bounds { result.taken ≤ length rest.now }
    ensures still { (bytes : Bytes) → passed_run result bytes rest.now ≡ lex_run (in_markup comment_state feeds lines (line_of bytes used)) rest.now }
{
    let taken = plain_length(rest, b'-');
    Passed {
        lexer: Lexer {
            place: FilePlace::Markup(
                MarkupPlace::Bang(CommentPlace::Inside(false)),
                CharBytes::None,
            ),
            feeds,
            used: used_past(used, taken),
        },
        lines,
        taken,
    }
}

// The data of an instruction.
fn pass_data(feeds: u64, used: usize, lines: u64, rest: &[u8]) -> Passed
    ensures in_bounds { result.taken ≤ length rest.now }
    ensures still { (bytes : Bytes) → passed_run result bytes rest.now ≡ lex_run (in_markup data_state feeds lines (line_of bytes used)) rest.now }
{
    let taken = plain_length(rest, b'?');
    Passed {
        lexer: Lexer {
            place: FilePlace::Markup(
                MarkupPlace::Instruction(InstructionPlace::Data(false)),
                CharBytes::None,
            ),
            feeds,
            used: used_past(used, taken),
        },
        lines,
        taken,
    }
}

// ---- the plain bytes that come first, wherever a reader stands

#[inline(always)]
fn pass_markup(
    place: MarkupPlace,
    feeds: u64,
    used: usize,
    lines: u64,
    bytes: &mut [u8],
    rest: &[u8],
) -> Passed
    ensures in_bounds { result.taken ≤ length rest.now }
    ensures still { passed_run result bytes.new rest.now ≡ lex_run (in_markup (markup_for place) feeds lines (line_of bytes.old used)) rest.now }
{
    match place {
        MarkupPlace::StartTag(StartTagPlace::Value(mark, false)) => pass_value(
            mark, feeds, used, lines, bytes, rest,
        ),
        MarkupPlace::StartTag(StartTagPlace::Name) => pass_name(feeds, used, lines, bytes, rest),
        MarkupPlace::StartTag(StartTagPlace::AttributeName) => pass_attribute_name(
            feeds, used, lines, bytes, rest,
        ),
        MarkupPlace::EndTag(EndTagPlace::Name) => pass_end_name(feeds, used, lines, bytes, rest),
        MarkupPlace::Bang(CommentPlace::Inside(false)) => pass_comment(feeds, used, lines, rest),
        MarkupPlace::Instruction(InstructionPlace::Data(false)) => pass_data(
            feeds, used, lines, rest,
        ),
        _ => Passed {
            lexer: Lexer {
                place: FilePlace::Markup(place, CharBytes::None),
                feeds,
                used,
            },
            lines,
            taken: 0,
        },
    }
}

#[inline(always)]
pub fn pass(lexer: Lexer, lines: u64, bytes: &mut [u8], rest: &[u8]) -> Passed
    ensures in_bounds { result.taken ≤ length rest.now }
    ensures still { passed_run result bytes.new rest.now ≡ lex_run (lexing_of lexer lines bytes.old) rest.now }
{
    match lexer.place {
        FilePlace::Text(Before::Text) => pass_text(lexer.feeds, lexer.used, lines, rest),
        FilePlace::Markup(place, CharBytes::None) => pass_markup(
            place,
            lexer.feeds,
            lexer.used,
            lines,
            bytes,
            rest,
        ),
        _ => Passed {
            lexer,
            lines,
            taken: 0,
        },
    }
}
