// The XML declaration, behind its `<?xml`.

ghost use Rattle.std.specs.Prelude.{◌≡◌, false, cond, [], ◌∷◌, ◌++◌};
ghost use Rattle.base.specs.Bytes.{is_digit};
ghost use Rattle.markup.specs.Markup.{mark_char, standalone_key, upper_case};
ghost use Rattle.markup.specs.Automaton.{continues, malformed, between_items, in_keyword, behind_key_equals, in_key_value, behind_items, item_follows, version_read, keyword_begun, keyword_ended, declaration_step};
ghost use Rattle.markup_tags.specs.StartTags.{mark_for};
ghost use Rattle.markup_skipped.specs.Declarations.{key_for, last_for, keyword_rest, keyword_end, value_key, value_letters, value_grown, value_end, declaration_for, declaration_moved, declaration_forgotten};

use crate::Moved;
use markup_tags::start_tags::{QuoteMark, mark_char};
use xml_names::is_white_space;

// What an item of the declaration says.
#[derive(Clone, Copy, PartialEq, Eq, Debug)]
pub enum DeclarationKey {
    Version,
    Encoding,
    Standalone,
}

// The value so far: of a version nothing, `1`, `1.`, and a whole one; of the encoding as many characters of `UTF-8`; of `standalone` its letters.
#[derive(Clone, Copy, PartialEq, Eq, Debug)]
pub enum ValueLetters {
    Version0,
    Version1,
    Version2,
    Version3,
    Encoding0,
    Encoding1,
    Encoding2,
    Encoding3,
    Encoding4,
    Encoding5,
    Standalone0,
    Y,
    Ye,
    Yes,
    N,
    No,
}

// Where in the declaration a reader stands. Between items: behind which, and whether white space stands before. In a keyword: how many of its letters are still to come.
#[derive(Clone, Copy, PartialEq, Eq, Debug)]
pub enum DeclarationPlace {
    Between(Option<DeclarationKey>, bool),
    Keyword(DeclarationKey, u8),
    BehindKeyword(DeclarationKey),
    EqualsSign(DeclarationKey),
    Value(QuoteMark, ValueLetters),
    Behind,
}

// Whether an item of a key may stand behind the last one.
fn follows(last: Option<DeclarationKey>, key: DeclarationKey) -> bool
    ensures { result ≡ item_follows (last_for last) (key_for key) }
{
    match (last, key) {
        (None, DeclarationKey::Version) => true,
        (Some(DeclarationKey::Version), DeclarationKey::Encoding) => true,
        (Some(DeclarationKey::Version), DeclarationKey::Standalone) => true,
        (Some(DeclarationKey::Encoding), DeclarationKey::Standalone) => true,
        _ => false,
    }
}

// The first letter of a keyword, which tells it from the others.
fn keyword_begun(last: Option<DeclarationKey>, c: u32) -> Moved<DeclarationPlace>
    ensures { declaration_moved result ≡ declaration_forgotten (keyword_begun (last_for last) c) }
{
    if follows(last, DeclarationKey::Version) & (c == 0x76) {
        Moved::Continues(DeclarationPlace::Keyword(DeclarationKey::Version, 6))
    } else if follows(last, DeclarationKey::Encoding) & (c == 0x65) {
        Moved::Continues(DeclarationPlace::Keyword(DeclarationKey::Encoding, 7))
    } else if follows(last, DeclarationKey::Standalone) & (c == 0x73) {
        Moved::Continues(DeclarationPlace::Keyword(DeclarationKey::Standalone, 9))
    } else {
        Moved::Malformed
    }
}

// Whether the version stands before, without which the declaration does not end.
fn version_read(last: Option<DeclarationKey>) -> bool
    ensures { result ≡ version_read (last_for last) }
{
    match last {
        Some(_) => true,
        None => false,
    }
}

fn between_step(last: Option<DeclarationKey>, spaced: bool, c: u32) -> Moved<DeclarationPlace>
    ensures { declaration_moved result ≡ declaration_forgotten (declaration_step (between_items (last_for last) spaced) c) }
{
    if is_white_space(c) {
        Moved::Continues(DeclarationPlace::Between(last, true))
    } else if version_read(last) & (c == 0x3f) {
        Moved::Continues(DeclarationPlace::Behind)
    } else if spaced {
        keyword_begun(last, c)
    } else {
        Moved::Malformed
    }
}

// What stands behind a keyword: production 25.
fn keyword_ended(key: DeclarationKey, c: u32) -> Moved<DeclarationPlace>
    ensures { declaration_moved result ≡ declaration_forgotten (keyword_ended (key_for key) c) }
{
    if is_white_space(c) {
        Moved::Continues(DeclarationPlace::BehindKeyword(key))
    } else if c == 0x3d {
        Moved::Continues(DeclarationPlace::EqualsSign(key))
    } else {
        Moved::Malformed
    }
}

// A keyword behind its first letter.
fn keyword_rest(key: DeclarationKey) -> &'static [u8]
    ensures { result.now ≡ keyword_rest (key_for key) }
{
    match key {
        DeclarationKey::Version => b"ersion",
        DeclarationKey::Encoding => b"ncoding",
        DeclarationKey::Standalone => b"tandalone",
    }
}

fn keyword_step(key: DeclarationKey, to_come: u8, c: u32) -> Moved<DeclarationPlace>
    ensures { declaration_moved result ≡ declaration_forgotten (declaration_step (in_keyword (key_for key) (keyword_end (key_for key) to_come)) c) }
{
    let rest = keyword_rest(key);
    let left = (to_come as usize).min(rest.len());
    if left == 0 {
        keyword_ended(key, c)
    } else if c == rest[rest.len() - left] as u32 {
        Moved::Continues(DeclarationPlace::Keyword(key, (left - 1) as u8))
    } else {
        Moved::Malformed
    }
}

// The value of a key, of which nothing is read yet.
fn no_letters(key: DeclarationKey) -> ValueLetters
    ensures key { value_key result ≡ key_for key }
    ensures letters { value_letters result ≡ [] }
{
    match key {
        DeclarationKey::Version => ValueLetters::Version0,
        DeclarationKey::Encoding => ValueLetters::Encoding0,
        DeclarationKey::Standalone => ValueLetters::Standalone0,
    }
}

fn equals_sign_step(key: DeclarationKey, c: u32) -> Moved<DeclarationPlace>
    ensures { declaration_moved result ≡ declaration_forgotten (declaration_step (behind_key_equals (key_for key)) c) }
{
    if is_white_space(c) {
        Moved::Continues(DeclarationPlace::EqualsSign(key))
    } else if c == 0x22 {
        Moved::Continues(DeclarationPlace::Value(QuoteMark::Double, no_letters(key)))
    } else if c == 0x27 {
        Moved::Continues(DeclarationPlace::Value(QuoteMark::Single, no_letters(key)))
    } else {
        Moved::Malformed
    }
}

// What the quote mark behind a value comes to: productions 26, 32 and, of 80, the one encoding that is read.
fn value_ended(letters: ValueLetters) -> Moved<DeclarationPlace>
    ensures { declaration_moved result ≡ declaration_forgotten (value_end (value_key letters) (value_letters letters)) }
{
    match letters {
        ValueLetters::Version3 => Moved::Continues(DeclarationPlace::Between(
            Some(DeclarationKey::Version),
            false,
        )),
        ValueLetters::Encoding5 => Moved::Continues(DeclarationPlace::Between(
            Some(DeclarationKey::Encoding),
            false,
        )),
        ValueLetters::Yes | ValueLetters::No => Moved::Continues(DeclarationPlace::Between(
            Some(DeclarationKey::Standalone),
            false,
        )),
        _ => Moved::Malformed,
    }
}

// The letters that are next, where the character is theirs.
fn taken_if(fits: bool, mark: QuoteMark, next: ValueLetters) -> Moved<DeclarationPlace>
    ensures { declaration_moved result ≡ cond fits (continues (in_key_value (value_key next) (mark_for mark) (value_letters next))) malformed }
{
    if fits {
        Moved::Continues(DeclarationPlace::Value(mark, next))
    } else {
        Moved::Malformed
    }
}

// The capital of a small letter, and any other character as it is.
fn upper_case(c: u32) -> u32
    ensures { result ≡ upper_case c }
{
    if (0x61 <= c) & (c <= 0x7a) { c - 32 } else { c }
}

fn is_digit(c: u32) -> bool
    ensures { result ≡ is_digit c }
{
    (0x30 <= c) & (c <= 0x39)
}

// The first letter of `yes` or `no`: production 32.
fn standalone_begun(mark: QuoteMark, c: u32) -> Moved<DeclarationPlace>
    ensures { declaration_moved result ≡ declaration_forgotten (value_grown standalone_key (mark_for mark) (c ∷ [])) }
{
    if c == 0x79 {
        Moved::Continues(DeclarationPlace::Value(mark, ValueLetters::Y))
    } else {
        taken_if(c == 0x6e, mark, ValueLetters::N)
    }
}

// A character more of a value, which is no quote mark.
fn value_taken(mark: QuoteMark, letters: ValueLetters, c: u32) -> Moved<DeclarationPlace>
    ensures { declaration_moved result ≡ declaration_forgotten (value_grown (value_key letters) (mark_for mark) (value_letters letters ++ (c ∷ []))) }
{
    match letters {
        ValueLetters::Version0 => taken_if(c == 0x31, mark, ValueLetters::Version1),
        ValueLetters::Version1 => taken_if(c == 0x2e, mark, ValueLetters::Version2),
        ValueLetters::Version2 => taken_if(is_digit(c), mark, ValueLetters::Version3),
        ValueLetters::Version3 => taken_if(is_digit(c), mark, ValueLetters::Version3),
        ValueLetters::Encoding0 => taken_if(upper_case(c) == 0x55, mark, ValueLetters::Encoding1),
        ValueLetters::Encoding1 => taken_if(upper_case(c) == 0x54, mark, ValueLetters::Encoding2),
        ValueLetters::Encoding2 => taken_if(upper_case(c) == 0x46, mark, ValueLetters::Encoding3),
        ValueLetters::Encoding3 => taken_if(upper_case(c) == 0x2d, mark, ValueLetters::Encoding4),
        ValueLetters::Encoding4 => taken_if(upper_case(c) == 0x38, mark, ValueLetters::Encoding5),
        ValueLetters::Standalone0 => standalone_begun(mark, c),
        ValueLetters::Y => taken_if(c == 0x65, mark, ValueLetters::Ye),
        ValueLetters::Ye => taken_if(c == 0x73, mark, ValueLetters::Yes),
        ValueLetters::N => taken_if(c == 0x6f, mark, ValueLetters::No),
        ValueLetters::Encoding5 | ValueLetters::Yes | ValueLetters::No => Moved::Malformed,
    }
}

fn value_step(mark: QuoteMark, letters: ValueLetters, c: u32) -> Moved<DeclarationPlace>
    ensures { declaration_moved result ≡ declaration_forgotten (declaration_step (in_key_value (value_key letters) (mark_for mark) (value_letters letters)) c) }
{
    if c == mark_char(mark) {
        value_ended(letters)
    } else {
        value_taken(mark, letters, c)
    }
}

fn behind_step(c: u32) -> Moved<DeclarationPlace>
    ensures { declaration_moved result ≡ declaration_forgotten (declaration_step behind_items c) }
{
    if c == 0x3e {
        Moved::Completes
    } else {
        Moved::Malformed
    }
}

// A character more of the declaration: production 23.
pub fn declaration_step(place: DeclarationPlace, c: u32) -> Moved<DeclarationPlace>
    ensures { declaration_moved result ≡ declaration_forgotten (declaration_step (declaration_for place) c) }
{
    match place {
        DeclarationPlace::Between(last, spaced) => between_step(last, spaced, c),
        DeclarationPlace::Keyword(key, to_come) => keyword_step(key, to_come, c),
        DeclarationPlace::BehindKeyword(key) => keyword_ended(key, c),
        DeclarationPlace::EqualsSign(key) => equals_sign_step(key, c),
        DeclarationPlace::Value(mark, letters) => value_step(mark, letters, c),
        DeclarationPlace::Behind => behind_step(c),
    }
}
