// The line of a tag, put together in the lent bytes; and the name of an open element, kept behind it and compared.

ghost use Rattle.std.specs.Prelude.{◌≡◌, ◌≤◌, ◌+◌, ◌∷◌, [], ◌++◌, length, take, drop};
ghost use Rattle.base.specs.Bytes.{same};
ghost use Rattle.base.specs.Chars.{horizontal_tab};
ghost use Rattle.little.specs.Little.{over};
ghost use Rattle.event.specs.Event.{start_word};
ghost use Rattle.file_reader.specs.File.{keeps_name, action_bytes, kind_bytes, open_at, is_open, line_start, before_tab};
ghost use Rattle.file_reader.specs.Tags.{written_in, line_in, name_in, named_room, named_length};

use file_lexer::{LINE, WORD};
use kind::Kind;
use nesting::{Action, Level, Place};

// The n bytes from a place on, of which those past the end are left out.
fn part(bytes: &[u8], at: usize, n: usize) -> &[u8]
    ensures { result.now ≡ take n (drop at bytes.now) }
{
    let rest = &bytes[at.min(bytes.len())..];
    &rest[..n.min(rest.len())]
}

// ---- the line

// The first word of a line with its tab. `open` begins one byte further on, so that the rest of both lines stands at one place.
fn write_word(bytes: &mut [u8], empty: bool)
    ensures { bytes.new ≡ over bytes.old (line_start empty) (start_word empty ++ (horizontal_tab ∷ [])) }
{
    if empty {
        little::copy_at(bytes, 0, b"empty\t".as_slice());
        return;
    }
    little::copy_at(bytes, 1, b"open\t".as_slice());
}

// That word before what is kept of a line, and a line feed behind it.
pub(crate) fn write_line(bytes: &mut [u8], used: usize, empty: bool)
    requires { WORD + used ≤ length bytes.old }
    ensures { bytes.new ≡ written_in empty used bytes.old }
{
    write_word(bytes, empty);
    little::copy_at(bytes, WORD + used, b"\n".as_slice());
}

// The line.
pub(crate) fn line_in(bytes: &[u8], used: usize, empty: bool) -> &[u8]
    requires { WORD + used ≤ length bytes.now }
    ensures { result.now ≡ line_in empty used bytes.now }
{
    if empty {
        return part(bytes, 0, WORD + used + 1);
    }
    part(bytes, 1, WORD + used)
}

// ---- the name of an open element

// How long the name is that the rest of a tag's line begins with: up to its first tab.
fn name_length(rest: &[u8]) -> usize
    ensures name { take result rest.now ≡ before_tab rest.now }
    ensures in_bounds { result ≤ length rest.now }
{
    match text::search::byte_position(rest, b'\t') {
        Some(i) => i,
        None => rest.len(),
    }
}

// A tag's name is kept behind the room of its line, as far as there is room. The answer is how long it is.
fn keep_name(bytes: &mut [u8], used: usize) -> usize
    requires used { WORD + used ≤ length bytes.old }
    requires room { LINE ≤ length bytes.old }
    ensures bytes { bytes.new ≡ over bytes.old LINE (name_in used bytes.old) }
    ensures named { result ≡ length (name_in used bytes.old) }
{
    let named = name_length(part(bytes, WORD, used));
    let kept = named.min(bytes.len() - LINE);
    bytes.copy_within(WORD..WORD + kept, LINE);
    named
}

// Whether an element of a level has a name that is to be kept.
#[tactic(auto, unfolding(crate::specs::File::keeps_name))]
pub(crate) fn keeps_name(level: Level) -> bool
    ensures { result ≡ keeps_name level }
{
    matches!(level, Level::Leaf | Level::Other)
}

// Behind a start tag: its name is kept where the level that it leaves asks for it. The answer is how long the kept name is.
pub(crate) fn name_behind(level: Level, bytes: &mut [u8], used: usize) -> usize
    requires used { WORD + used ≤ length bytes.old }
    requires room { LINE ≤ length bytes.old }
    ensures bytes { bytes.new ≡ named_room (keeps_name level) used bytes.old }
    ensures named { result ≡ named_length (keeps_name level) used bytes.old }
{
    if keeps_name(level) {
        return keep_name(bytes, used);
    }
    0
}

// ---- an end tag's name

fn is_action_name(name: &[u8], action: Action) -> bool
    ensures { result ≡ same name.now (action_bytes action) }
{
    match action {
        Action::Create => distinct::equal(name, b"create".as_slice()),
        Action::Modify => distinct::equal(name, b"modify".as_slice()),
        Action::Delete => distinct::equal(name, b"delete".as_slice()),
    }
}

fn is_kind_name(name: &[u8], kind: Kind) -> bool
    ensures { result ≡ same name.now (kind_bytes kind) }
{
    match kind {
        Kind::Node => distinct::equal(name, b"node".as_slice()),
        Kind::Way => distinct::equal(name, b"way".as_slice()),
        Kind::Relation => distinct::equal(name, b"relation".as_slice()),
    }
}

// Whether a name is that of the open element, by what is kept of it.
fn is_open(name: &[u8], place: Place, kept: &[u8]) -> bool
    ensures { result ≡ is_open name.now (open_at place.level place kept.now) }
{
    let level = place.level;
    match level {
        Level::Doc => false,
        Level::Root => distinct::equal(name, b"osmChange".as_slice()),
        Level::Section => is_action_name(name, place.section),
        Level::Element => is_kind_name(name, place.kind),
        Level::Leaf => distinct::equal(name, kept),
        Level::Other => distinct::equal(name, kept),
        Level::Done => false,
    }
}

// Whether the name of an end tag, which is all that is kept of its line, is that of the open element.
pub(crate) fn open_name_is(place: Place, bytes: &[u8], named: usize, used: usize) -> bool
    ensures { result ≡ is_open (take used (drop WORD bytes.now)) (open_at place.level place (take named (drop LINE bytes.now))) }
{
    is_open(part(bytes, WORD, used), place, part(bytes, LINE, named))
}
