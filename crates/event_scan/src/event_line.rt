// An event's line: what it is, with its name and its attributes as they are written.

ghost use Rattle.std.specs.Prelude.{◌≡◌, ◌≤◌, ◌<◌, true, not, List, map, option_map, length, take, drop, IfOk, IfSome};
ghost use Rattle.std.specs.Borrow.{Bor};
ghost use Rattle.base.specs.Bytes.{Bytes, both};
ghost use Rattle.line.specs.Line.{fields};
ghost use Rattle.event.specs.Event.{body, event_of, event_from, starts_from, attr_of, attrs_of, none_twice};
ghost use Rattle.distinct.specs.Distinct.{runs_in};
ghost use Rattle.event_scan.specs.Names.{names_of, among, new_name, texts_of};
ghost use Rattle.event_scan.specs.Piece.{there};
ghost use Rattle.event_scan.specs.Parts.{name_seen, text_left, fields_size, attributes_in};
ghost use Rattle.event_scan.specs.Fields.{fields_left, attributes_left};
ghost use Rattle.event_scan.specs.Scan.{stand, lone};
ghost use Rattle.event_scan.specs.Line.{line_means, InBounds, Spells};

use crate::fields::{Attributes, Fields, attribute_name, name_length};
use crate::{MAX_LINE, body_length, lacks, legal_line};
use distinct::NotedRuns;
use refusal::Refusal;

// ---- whether attributes stand: each field is one, and no name is there twice

fn all_right(rest: &Fields<'_, MAX_LINE>) -> bool
    ensures { result ≡ there (attrs_of (fields_left rest.now)) }
{
    for field in *rest {
        if attribute_name(field).is_none() {
            return false;
        }
    }
    true
}

// Whether a name is one of some.
fn seen(name: &[u8], names: &[&[u8]]) -> bool
    ensures { result ≡ among name.now (texts_of names.now) }
{
    names.iter().any(|known| distinct::equal(known, name))
}

// The name of the attribute that a field is, if it is none of some names.
fn new_name<'a>(field: &'a [u8], names: &[&[u8]]) -> Option<&'a [u8]>
    ensures { name_seen result ≡ new_name (attr_of field.now) (texts_of names.now) }
{
    let name = attribute_name(field)?;
    if seen(name, names) {
        return None;
    }
    Some(name)
}

// Whether at most sixteen fields stand as attributes: their names are kept, and each is compared with those before it. Of more nothing is told. The names
// lie in an array, since the library has no heap; how many they are is counted, since a name is compared with those that are there.
fn few_stand(rest: &Fields<'_, MAX_LINE>) -> Option<bool>
    ensures { IfSome result (λ stands. stands ≡ stand (attrs_of (fields_left rest.now))) }
{
    let mut names = [b"".as_slice(); 16];
    let mut n: usize = 0;
    for field in *rest {
        if n == 16 {
            return None;
        }
        let Some(name) = new_name(field, &names[..n]) else {
            return Some(false);
        };
        names[n] = name;
        n += 1;
    }
    Some(true)
}

// ---- many attributes

// The words of the names of fields as attributes, as far as there is room. How many names there are is answered: both counts stand still where the fields end, and no iterator gives the place.
fn note_names(rest: &Fields<'_, MAX_LINE>, words: &mut [u64]) -> usize
    ensures { result ≤ length words.new → names_of (attributes_in (fields_left rest.now)) ≡ runs_in (text_left rest.now.rest) (take result words.new) }
{
    let Some(text) = rest.rest else {
        return 0;
    };
    let mut n: usize = 0;
    let mut at: usize = 0;
    for field in *rest {
        distinct::put_word(words, n, distinct::run_word(text, at, name_length(field)));
        n += 1;
        at += field.len() + 1;
    }
    n
}

// The names of attributes, to be told apart by their words.
impl NotedRuns for Attributes<'_, MAX_LINE> {
    ghost within = { λ attributes. text_left attributes.fields.rest };

    ghost asked = { λ attributes. none_twice (attributes_left attributes) };

    fn bytes(&self) -> &[u8] {
        match self.fields.rest {
            Some(text) => text,
            None => &[],
        }
    }

    fn note(&self, words: &mut [u64]) -> Option<usize> {
        Some(note_names(&self.fields, words))
    }
}

// Whether no two attributes have one name: by the words of the names, and where these do not tell it they are compared in pairs.
fn once(rest: &Fields<'_, MAX_LINE>) -> bool
    ensures { result ≡ none_twice (attributes_in (fields_left rest.now)) }
{
    let attributes = Attributes { fields: *rest };
    // Bound before the call: of a closure written inside this call the check infers nothing of its answer.
    let pairs = || attributes.once_in_pairs();
    distinct::noted_differ(&attributes).unwrap_or_else(pairs)
}

fn many_stand(rest: &Fields<'_, MAX_LINE>) -> bool
    ensures { result ≡ stand (attrs_of (fields_left rest.now)) }
{
    all_right(rest) && once(rest)
}

// Whether fields stand as attributes, however many they are.
fn attributes_stand(rest: &Fields<'_, MAX_LINE>) -> bool
    ensures { result ≡ stand (attrs_of (fields_left rest.now)) }
{
    // Bound before the call, as in `once`.
    let many = || many_stand(rest);
    few_stand(rest).unwrap_or_else(many)
}

// ---- a line

// A line: an open or, where `empty` is true, an empty element, with its attributes; a close; anything else.
#[derive(Clone, Copy, Debug)]
pub enum EventLine<'a> {
    Starts {
        empty: bool,
        name: &'a [u8],
        attributes: Attributes<'a, MAX_LINE>,
    },
    Closes,
    Others,
}

// An open or an empty element, by the fields behind its first word. Inlined at both its calls, so that its answer is not handed on through memory.
#[inline(always)]
fn starts<'a>(empty: bool, fields: &Fields<'a, MAX_LINE>) -> Result<EventLine<'a>, Refusal>
    ensures means { line_means result ≡ starts_from empty (fields_left fields.now) }
    ensures in_bounds { IfOk result (InBounds (fields_size (fields_left fields.now))) }
    ensures written { IfOk result (Spells (fields_left fields.now)) }
{
    let mut rest = *fields;
    let Some(name) = rest.next() else {
        return Err(Refusal::NotEventLine);
    };
    if name.is_empty() {
        return Err(Refusal::NotEventLine);
    }
    if attributes_stand(&rest) {
        let attributes = Attributes { fields: rest };
        return Ok(EventLine::Starts {
            empty,
            name,
            attributes,
        });
    }
    Err(Refusal::NotEventLine)
}

// A line that is one word, which starts no element.
fn alone(word: &[u8]) -> Result<EventLine<'_>, Refusal>
    ensures means { line_means result ≡ lone word.now }
    ensures in_bounds { IfOk result (InBounds (length word.now)) }
    ensures written { (fs : List Bytes) → IfOk result (Spells fs) }
{
    if distinct::equal(word, b"close".as_slice()) {
        return Ok(EventLine::Closes);
    }
    if distinct::equal(word, b"other".as_slice()) {
        return Ok(EventLine::Others);
    }
    Err(Refusal::NotEventLine)
}

// The event of a text's fields.
fn event(text: &[u8]) -> Result<EventLine<'_>, Refusal>
    requires { length text.now ≤ MAX_LINE }
    ensures means { line_means result ≡ event_from (fields text.now) }
    ensures in_bounds { IfOk result (InBounds (length text.now)) }
    ensures written { IfOk result (Spells (drop 1 (fields text.now))) }
{
    let mut rest = Fields::new(text);
    let Some(word) = rest.next() else {
        return Err(Refusal::NotEventLine);
    };
    if distinct::equal(word, b"open".as_slice()) {
        return starts(false, &rest);
    }
    if distinct::equal(word, b"empty".as_slice()) {
        return starts(true, &rest);
    }
    match rest.next() {
        Some(_) => Err(Refusal::NotEventLine),
        None => alone(word),
    }
}

// What a line with its line feed is, or its refusal. Plain bytes are legal, and none of them is a line feed.
pub fn read(line: &[u8]) -> Result<EventLine<'_>, Refusal>
    ensures means { line_means result ≡ event_of line.now }
    ensures in_bounds { IfOk result (InBounds (length (body line.now))) }
    ensures written { IfOk result (Spells (drop 1 (fields (body line.now)))) }
{
    let n = body_length(line);
    if MAX_LINE < n {
        return Err(Refusal::LongLine);
    }
    let text = &line[..n];
    if text::plain(text) {
        if n == line.len() {
            return Err(Refusal::NotEventLine);
        }
        return event(text);
    }
    if legal_line(text) {
        if n == line.len() {
            return Err(Refusal::NotEventLine);
        }
        if lacks(text, b'\n') {
            return event(text);
        }
        return Err(Refusal::NotEventLine);
    }
    Err(Refusal::NotText)
}
