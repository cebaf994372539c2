// A reference to a character, behind its `&`.

ghost use Rattle.std.specs.Prelude.{◌≡◌, [], ◌∷◌, ◌++◌, cond, eqb};
ghost use Rattle.markup.specs.Automaton.{continues, malformed, behind_ampersand, in_entity, behind_hash, in_decimal, behind_x, in_hex};
ghost use Rattle.markup.specs.Automaton.{entity_of, letter_taken, digit_taken, referred_char, reference_step};
ghost use Rattle.markup_tags.specs.declared.references.EntityLetters.TheVariants.{A};
ghost use Rattle.markup_tags.specs.References.{letters_in, reference_for, reference_moved};

use crate::chars::{decimal_digit_value, hex_digit_value, is_xml_char};

// The letters so far of an entity's name.
#[derive(Clone, Copy, PartialEq, Eq, Debug)]
pub enum EntityLetters {
    A,
    Am,
    Amp,
    Ap,
    Apo,
    Apos,
    L,
    Lt,
    G,
    Gt,
    Q,
    Qu,
    Quo,
    Quot,
}

// Where in a reference a reader stands: the letters or the number so far.
#[derive(Clone, Copy, PartialEq, Eq, Debug)]
pub enum ReferencePlace {
    Ampersand,
    Entity(EntityLetters),
    Hash,
    Decimal(u32),
    HexBegun,
    Hex(u32),
}

// What a character more comes to.
#[derive(Clone, Copy, PartialEq, Eq, Debug)]
pub enum ReferenceMoved {
    Continues(ReferencePlace),
    Completes(u32),
    Malformed,
}

// The first letter of an entity's name, or the sign of a number.
fn ampersand_step(c: u32) -> ReferenceMoved
    ensures { reference_moved result ≡ reference_step behind_ampersand c }
{
    match c {
        0x23 => ReferenceMoved::Continues(ReferencePlace::Hash),
        0x61 => ReferenceMoved::Continues(ReferencePlace::Entity(EntityLetters::A)),
        0x67 => ReferenceMoved::Continues(ReferencePlace::Entity(EntityLetters::G)),
        0x6c => ReferenceMoved::Continues(ReferencePlace::Entity(EntityLetters::L)),
        0x71 => ReferenceMoved::Continues(ReferencePlace::Entity(EntityLetters::Q)),
        _ => ReferenceMoved::Malformed,
    }
}

// The entity whose name has been read, behind its semicolon.
fn entity_ended(letters: EntityLetters) -> ReferenceMoved
    ensures { reference_moved result ≡ entity_of (letters_in letters) }
{
    match letters {
        EntityLetters::Amp => ReferenceMoved::Completes(0x26),
        EntityLetters::Apos => ReferenceMoved::Completes(0x27),
        EntityLetters::Gt => ReferenceMoved::Completes(0x3e),
        EntityLetters::Lt => ReferenceMoved::Completes(0x3c),
        EntityLetters::Quot => ReferenceMoved::Completes(0x22),
        _ => ReferenceMoved::Malformed,
    }
}

// A letter that alone can stand here.
fn only_letter(letter: u32, letters: EntityLetters, c: u32) -> ReferenceMoved
    ensures { reference_moved result ≡ cond (eqb c letter) (continues (in_entity (letters_in letters))) malformed }
{
    if c == letter {
        ReferenceMoved::Continues(ReferencePlace::Entity(letters))
    } else {
        ReferenceMoved::Malformed
    }
}

// The second letter behind an `a`.
fn behind_letter_a(c: u32) -> ReferenceMoved
    ensures { reference_moved result ≡ letter_taken (letters_in A ++ (c ∷ [])) }
{
    match c {
        0x6d => ReferenceMoved::Continues(ReferencePlace::Entity(EntityLetters::Am)),
        0x70 => ReferenceMoved::Continues(ReferencePlace::Entity(EntityLetters::Ap)),
        _ => ReferenceMoved::Malformed,
    }
}

// A letter more of an entity's name.
fn entity_letter(letters: EntityLetters, c: u32) -> ReferenceMoved
    ensures { reference_moved result ≡ letter_taken (letters_in letters ++ (c ∷ [])) }
{
    match letters {
        EntityLetters::A => behind_letter_a(c),
        EntityLetters::Am => only_letter(0x70, EntityLetters::Amp, c),
        EntityLetters::Ap => only_letter(0x6f, EntityLetters::Apo, c),
        EntityLetters::Apo => only_letter(0x73, EntityLetters::Apos, c),
        EntityLetters::G => only_letter(0x74, EntityLetters::Gt, c),
        EntityLetters::L => only_letter(0x74, EntityLetters::Lt, c),
        EntityLetters::Q => only_letter(0x75, EntityLetters::Qu, c),
        EntityLetters::Qu => only_letter(0x6f, EntityLetters::Quo, c),
        EntityLetters::Quo => only_letter(0x74, EntityLetters::Quot, c),
        _ => ReferenceMoved::Malformed,
    }
}

// A letter more, or the semicolon behind the name.
fn entity_step(letters: EntityLetters, c: u32) -> ReferenceMoved
    ensures { reference_moved result ≡ reference_step (in_entity (letters_in letters)) c }
{
    if c == 0x3b {
        entity_ended(letters)
    } else {
        entity_letter(letters, c)
    }
}

// A decimal number that has a digit more: past the last character of Unicode it is none.
fn decimal_taken(v: u64) -> ReferenceMoved
    ensures { reference_moved result ≡ digit_taken in_decimal v }
{
    if v <= 0x10ffff {
        ReferenceMoved::Continues(ReferencePlace::Decimal(v as u32))
    } else {
        ReferenceMoved::Malformed
    }
}

// A hexadecimal number that has a digit more.
fn hex_taken(v: u64) -> ReferenceMoved
    ensures { reference_moved result ≡ digit_taken in_hex v }
{
    if v <= 0x10ffff {
        ReferenceMoved::Continues(ReferencePlace::Hex(v as u32))
    } else {
        ReferenceMoved::Malformed
    }
}

// The character of a number: 4.1, Legal Character.
fn referred_char(v: u32) -> ReferenceMoved
    ensures { reference_moved result ≡ referred_char v }
{
    if is_xml_char(v) {
        ReferenceMoved::Completes(v)
    } else {
        ReferenceMoved::Malformed
    }
}

// The first digit of a decimal number, or the sign of a hexadecimal one.
fn hash_step(c: u32) -> ReferenceMoved
    ensures { reference_moved result ≡ reference_step behind_hash c }
{
    if c == 0x78 {
        return ReferenceMoved::Continues(ReferencePlace::HexBegun);
    }
    match decimal_digit_value(c) {
        Some(digit) => decimal_taken(u64::from(digit)),
        None => ReferenceMoved::Malformed,
    }
}

// A digit more of a decimal number, or the semicolon behind it.
fn decimal_step(v: u32, c: u32) -> ReferenceMoved
    ensures { reference_moved result ≡ reference_step (in_decimal v) c }
{
    if c == 0x3b {
        return referred_char(v);
    }
    match decimal_digit_value(c) {
        Some(digit) => decimal_taken(u64::from(v) * 10 + u64::from(digit)),
        None => ReferenceMoved::Malformed,
    }
}

// The first digit of a hexadecimal number.
fn hex_begun_step(c: u32) -> ReferenceMoved
    ensures { reference_moved result ≡ reference_step behind_x c }
{
    match hex_digit_value(c) {
        Some(digit) => hex_taken(u64::from(digit)),
        None => ReferenceMoved::Malformed,
    }
}

// A digit more of a hexadecimal number, or the semicolon behind it.
fn hex_step(v: u32, c: u32) -> ReferenceMoved
    ensures { reference_moved result ≡ reference_step (in_hex v) c }
{
    if c == 0x3b {
        return referred_char(v);
    }
    match hex_digit_value(c) {
        Some(digit) => hex_taken(u64::from(v) * 16 + u64::from(digit)),
        None => ReferenceMoved::Malformed,
    }
}

// A character more of a reference: productions 66 and 68, and the five entities.
pub fn reference_step(place: ReferencePlace, c: u32) -> ReferenceMoved
    ensures { reference_moved result ≡ reference_step (reference_for place) c }
{
    match place {
        ReferencePlace::Ampersand => ampersand_step(c),
        ReferencePlace::Entity(letters) => entity_step(letters, c),
        ReferencePlace::Hash => hash_step(c),
        ReferencePlace::Decimal(v) => decimal_step(v, c),
        ReferencePlace::HexBegun => hex_begun_step(c),
        ReferencePlace::Hex(v) => hex_step(v, c),
    }
}
