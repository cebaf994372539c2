// A start tag or an empty-element tag, behind the first character of its name.

ghost use Rattle.std.specs.Prelude.{◌≡◌, []};
ghost use Rattle.markup.specs.Markup.{mark_char};
ghost use Rattle.markup.specs.Automaton.{raw_step, in_value, attribute_name_ended, start_tag_step};
ghost use Rattle.markup.specs.Automaton.{in_name, behind_part, in_attribute_name, behind_equals_sign, behind_slash};
ghost use Rattle.markup_tags.specs.Output.{written_by};
ghost use Rattle.markup_tags.specs.StartTags.{no_parts, mark_for, in_held_value, in_held_reference, value_taken, first_of_attribute, where_continued};
ghost use Rattle.markup_tags.specs.StartTags.{start_tag_for, start_tag_moved, start_tag_forgotten, start_tag_grown};

use crate::Output;
use crate::chars::is_value_char;
use crate::references::{ReferenceMoved, ReferencePlace, reference_step};
use xml_names::{is_name_char, is_name_start_char, is_white_space};

#[derive(Clone, Copy, PartialEq, Eq, Debug)]
pub enum QuoteMark {
    Double,
    Single,
}

// Where in a tag a reader stands. Behind a part the test says that white space stands before; in a value, that the character before is a raw carriage return.
#[derive(Clone, Copy, PartialEq, Eq, Debug)]
pub enum StartTagPlace {
    Name,
    Behind(bool),
    AttributeName,
    BehindAttributeName,
    BehindEqualsSign,
    Value(QuoteMark, bool),
    Reference(QuoteMark, ReferencePlace),
    Slash,
}

// What a character more comes to; where it completes the tag, whether that is an empty-element tag.
#[derive(Clone, Copy, PartialEq, Eq, Debug)]
pub enum StartTagMoved {
    Continues(StartTagPlace),
    Completes(bool),
    Malformed,
}

// That, and what the character adds to the line.
#[derive(Clone, Copy, PartialEq, Eq, Debug)]
pub struct StartTagTaken {
    pub moved: StartTagMoved,
    pub output: Output,
}

// The first character of an attribute's name, which stands behind white space.
fn attribute_begun(spaced: bool, c: u32) -> StartTagTaken
    ensures moved { start_tag_moved result.moved ≡ start_tag_forgotten (first_of_attribute spaced c) }
    ensures output { written_by result.output ≡ start_tag_grown (behind_part no_parts spaced) (first_of_attribute spaced c) }
{
    let begins = spaced & is_name_start_char(c);
    if begins {
        StartTagTaken {
            moved: StartTagMoved::Continues(StartTagPlace::AttributeName),
            output: Output::Tabbed(c),
        }
    } else {
        StartTagTaken {
            moved: StartTagMoved::Malformed,
            output: Output::Nothing,
        }
    }
}

// A character behind the name or an attribute.
fn part_ended(spaced: bool, c: u32) -> StartTagTaken
    ensures moved { start_tag_moved result.moved ≡ start_tag_forgotten (start_tag_step (behind_part no_parts spaced) c) }
    ensures output { written_by result.output ≡ start_tag_grown (behind_part no_parts spaced) (start_tag_step (behind_part no_parts spaced) c) }
{
    if is_white_space(c) {
        StartTagTaken {
            moved: StartTagMoved::Continues(StartTagPlace::Behind(true)),
            output: Output::Nothing,
        }
    } else if c == 0x2f {
        StartTagTaken {
            moved: StartTagMoved::Continues(StartTagPlace::Slash),
            output: Output::Nothing,
        }
    } else if c == 0x3e {
        StartTagTaken {
            moved: StartTagMoved::Completes(false),
            output: Output::Nothing,
        }
    } else {
        attribute_begun(spaced, c)
    }
}

// A character more of the name, or one behind it.
fn name_step(c: u32) -> StartTagTaken
    ensures moved { start_tag_moved result.moved ≡ start_tag_forgotten (start_tag_step (in_name []) c) }
    ensures output { written_by result.output ≡ start_tag_grown (in_name []) (start_tag_step (in_name []) c) }
{
    if is_name_char(c) {
        StartTagTaken {
            moved: StartTagMoved::Continues(StartTagPlace::Name),
            output: Output::Plain(c),
        }
    } else {
        part_ended(false, c)
    }
}

// A character behind an attribute's name; where that ends right before it, the line's equals sign is written.
fn attribute_name_ended(output: Output, c: u32) -> StartTagTaken
    ensures moved { start_tag_moved result.moved ≡ start_tag_forgotten (attribute_name_ended no_parts [] c) }
    ensures output { written_by result.output ≡ where_continued (written_by output) (attribute_name_ended no_parts [] c) }
{
    if is_white_space(c) {
        StartTagTaken {
            moved: StartTagMoved::Continues(StartTagPlace::BehindAttributeName),
            output,
        }
    } else if c == 0x3d {
        StartTagTaken {
            moved: StartTagMoved::Continues(StartTagPlace::BehindEqualsSign),
            output,
        }
    } else {
        StartTagTaken {
            moved: StartTagMoved::Malformed,
            output: Output::Nothing,
        }
    }
}

// A character more of an attribute's name, or one behind it.
fn attribute_name_step(c: u32) -> StartTagTaken
    ensures moved { start_tag_moved result.moved ≡ start_tag_forgotten (start_tag_step (in_attribute_name no_parts []) c) }
    ensures output { written_by result.output ≡ start_tag_grown (in_attribute_name no_parts []) (start_tag_step (in_attribute_name no_parts []) c) }
{
    if is_name_char(c) {
        StartTagTaken {
            moved: StartTagMoved::Continues(StartTagPlace::AttributeName),
            output: Output::Plain(c),
        }
    } else {
        attribute_name_ended(Output::EqualsSign, c)
    }
}

// A character behind an attribute's equals sign.
fn equals_sign_step(c: u32) -> StartTagTaken
    ensures moved { start_tag_moved result.moved ≡ start_tag_forgotten (start_tag_step (behind_equals_sign no_parts []) c) }
    ensures output { written_by result.output ≡ start_tag_grown (behind_equals_sign no_parts []) (start_tag_step (behind_equals_sign no_parts []) c) }
{
    if is_white_space(c) {
        StartTagTaken {
            moved: StartTagMoved::Continues(StartTagPlace::BehindEqualsSign),
            output: Output::Nothing,
        }
    } else if c == 0x22 {
        StartTagTaken {
            moved: StartTagMoved::Continues(StartTagPlace::Value(QuoteMark::Double, false)),
            output: Output::Nothing,
        }
    } else if c == 0x27 {
        StartTagTaken {
            moved: StartTagMoved::Continues(StartTagPlace::Value(QuoteMark::Single, false)),
            output: Output::Nothing,
        }
    } else {
        StartTagTaken {
            moved: StartTagMoved::Malformed,
            output: Output::Nothing,
        }
    }
}

// The character of a quote mark.
pub fn mark_char(mark: QuoteMark) -> u32
    ensures { result ≡ mark_char (mark_for mark) }
{
    match mark {
        QuoteMark::Double => 0x22,
        QuoteMark::Single => 0x27,
    }
}

// A raw character of a value: 2.11 and 3.3.3. A line feed behind a carriage return is a part of it, and white space comes to a blank.
fn raw_step(mark: QuoteMark, returned: bool, c: u32) -> StartTagTaken
    ensures moved { start_tag_moved result.moved ≡ start_tag_forgotten (value_taken mark (raw_step returned [] c)) }
    ensures output { written_by result.output ≡ start_tag_grown (in_held_value mark (in_value returned [])) (value_taken mark (raw_step returned [] c)) }
{
    let feed_behind_return = returned & (c == 0xa);
    if feed_behind_return {
        StartTagTaken {
            moved: StartTagMoved::Continues(StartTagPlace::Value(mark, false)),
            output: Output::Nothing,
        }
    } else if is_white_space(c) {
        StartTagTaken {
            moved: StartTagMoved::Continues(StartTagPlace::Value(mark, c == 0xd)),
            output: Output::Escaped(0x20),
        }
    } else {
        StartTagTaken {
            moved: StartTagMoved::Continues(StartTagPlace::Value(mark, false)),
            output: Output::Escaped(c),
        }
    }
}

// A character more of a value.
fn value_step(mark: QuoteMark, returned: bool, c: u32) -> StartTagTaken
    ensures moved { start_tag_moved result.moved ≡ start_tag_forgotten (start_tag_step (in_held_value mark (in_value returned [])) c) }
    ensures output { written_by result.output ≡ start_tag_grown (in_held_value mark (in_value returned [])) (start_tag_step (in_held_value mark (in_value returned [])) c) }
{
    let quote = mark_char(mark);
    if c == quote {
        StartTagTaken {
            moved: StartTagMoved::Continues(StartTagPlace::Behind(false)),
            output: Output::Nothing,
        }
    } else if c == 0x26 {
        StartTagTaken {
            moved: StartTagMoved::Continues(StartTagPlace::Reference(
                mark,
                ReferencePlace::Ampersand,
            )),
            output: Output::Nothing,
        }
    } else if is_value_char(c) {
        raw_step(mark, returned, c)
    } else {
        StartTagTaken {
            moved: StartTagMoved::Malformed,
            output: Output::Nothing,
        }
    }
}

// A character more of a reference in a value.
fn value_reference_step(mark: QuoteMark, place: ReferencePlace, c: u32) -> StartTagTaken
    ensures moved { start_tag_moved result.moved ≡ start_tag_forgotten (start_tag_step (in_held_reference mark place) c) }
    ensures output { written_by result.output ≡ start_tag_grown (in_held_reference mark place) (start_tag_step (in_held_reference mark place) c) }
{
    match reference_step(place, c) {
        ReferenceMoved::Continues(next) => StartTagTaken {
            moved: StartTagMoved::Continues(StartTagPlace::Reference(mark, next)),
            output: Output::Nothing,
        },
        ReferenceMoved::Completes(referred) => StartTagTaken {
            moved: StartTagMoved::Continues(StartTagPlace::Value(mark, false)),
            output: Output::Escaped(referred),
        },
        ReferenceMoved::Malformed => StartTagTaken {
            moved: StartTagMoved::Malformed,
            output: Output::Nothing,
        },
    }
}

// A character behind the slash of an empty-element tag.
fn slash_step(c: u32) -> StartTagTaken
    ensures moved { start_tag_moved result.moved ≡ start_tag_forgotten (start_tag_step (behind_slash no_parts) c) }
    ensures output { written_by result.output ≡ start_tag_grown (behind_slash no_parts) (start_tag_step (behind_slash no_parts) c) }
{
    if c == 0x3e {
        StartTagTaken {
            moved: StartTagMoved::Completes(true),
            output: Output::Nothing,
        }
    } else {
        StartTagTaken {
            moved: StartTagMoved::Malformed,
            output: Output::Nothing,
        }
    }
}

// A character more of a tag: productions 40, 41, 44 and 10.
pub fn start_tag_step(place: StartTagPlace, c: u32) -> StartTagTaken
    ensures moved { start_tag_moved result.moved ≡ start_tag_forgotten (start_tag_step (start_tag_for place) c) }
    ensures output { written_by result.output ≡ start_tag_grown (start_tag_for place) (start_tag_step (start_tag_for place) c) }
{
    match place {
        StartTagPlace::Name => name_step(c),
        StartTagPlace::Behind(spaced) => part_ended(spaced, c),
        StartTagPlace::AttributeName => attribute_name_step(c),
        StartTagPlace::BehindAttributeName => attribute_name_ended(Output::Nothing, c),
        StartTagPlace::BehindEqualsSign => equals_sign_step(c),
        StartTagPlace::Value(mark, returned) => value_step(mark, returned, c),
        StartTagPlace::Reference(mark, place) => value_reference_step(mark, place, c),
        StartTagPlace::Slash => slash_step(c),
    }
}
