// An end tag, behind its `</`.

ghost use Rattle.std.specs.Prelude.{◌≡◌, []};
ghost use Rattle.markup.specs.Automaton.{end_tag_step, behind_end_slash, in_end_name, behind_end_name};
ghost use Rattle.markup_tags.specs.Output.{written_by};
ghost use Rattle.markup_tags.specs.EndTags.{end_tag_for, end_tag_moved, end_tag_forgotten, end_tag_grown};

use crate::Output;
use xml_names::{is_name_char, is_name_start_char, is_white_space};

// Where in an end tag a reader stands.
#[derive(Clone, Copy, PartialEq, Eq, Debug)]
pub enum EndTagPlace {
    Slash,
    Name,
    Behind,
}

// What a character more comes to.
#[derive(Clone, Copy, PartialEq, Eq, Debug)]
pub enum EndTagMoved {
    Continues(EndTagPlace),
    Completes,
    Malformed,
}

// That, and what the character adds to the line, which is the name alone.
#[derive(Clone, Copy, PartialEq, Eq, Debug)]
pub struct EndTagTaken {
    pub moved: EndTagMoved,
    pub output: Output,
}

// The first character of the name.
fn slash_step(c: u32) -> EndTagTaken
    ensures moved { end_tag_moved result.moved ≡ end_tag_forgotten (end_tag_step behind_end_slash c) }
    ensures output { written_by result.output ≡ end_tag_grown behind_end_slash (end_tag_step behind_end_slash c) }
{
    if is_name_start_char(c) {
        EndTagTaken {
            moved: EndTagMoved::Continues(EndTagPlace::Name),
            output: Output::Plain(c),
        }
    } else {
        EndTagTaken {
            moved: EndTagMoved::Malformed,
            output: Output::Nothing,
        }
    }
}

// A character behind the name.
fn name_ended(c: u32) -> EndTagTaken
    ensures moved { end_tag_moved result.moved ≡ end_tag_forgotten (end_tag_step (behind_end_name []) c) }
    ensures output { written_by result.output ≡ end_tag_grown (behind_end_name []) (end_tag_step (behind_end_name []) c) }
{
    if is_white_space(c) {
        EndTagTaken {
            moved: EndTagMoved::Continues(EndTagPlace::Behind),
            output: Output::Nothing,
        }
    } else if c == 0x3e {
        EndTagTaken {
            moved: EndTagMoved::Completes,
            output: Output::Nothing,
        }
    } else {
        EndTagTaken {
            moved: EndTagMoved::Malformed,
            output: Output::Nothing,
        }
    }
}

// A character more of the name, or one behind it.
fn name_step(c: u32) -> EndTagTaken
    ensures moved { end_tag_moved result.moved ≡ end_tag_forgotten (end_tag_step (in_end_name []) c) }
    ensures output { written_by result.output ≡ end_tag_grown (in_end_name []) (end_tag_step (in_end_name []) c) }
{
    if is_name_char(c) {
        EndTagTaken {
            moved: EndTagMoved::Continues(EndTagPlace::Name),
            output: Output::Plain(c),
        }
    } else {
        name_ended(c)
    }
}

// A character more of an end tag: production 42.
pub fn end_tag_step(place: EndTagPlace, c: u32) -> EndTagTaken
    ensures moved { end_tag_moved result.moved ≡ end_tag_forgotten (end_tag_step (end_tag_for place) c) }
    ensures output { written_by result.output ≡ end_tag_grown (end_tag_for place) (end_tag_step (end_tag_for place) c) }
{
    match place {
        EndTagPlace::Slash => slash_step(c),
        EndTagPlace::Name => name_step(c),
        EndTagPlace::Behind => name_ended(c),
    }
}
