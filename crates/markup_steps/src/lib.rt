// A markup of a file, behind its `<`, character by character: where in it a reader stands, and what a character adds to the line of its event.
#![tactic(auto)]

ghost use Rattle.std.specs.Prelude.{◌≡◌};
ghost use Rattle.markup.specs.Automaton.{wrapped_step, behind_less_than_sign, in_start_tag, in_end_tag, in_bang, in_instruction, markup_begun, markup_step};
ghost use Rattle.markup_skipped.specs.Comments.{comment_for, comment_moved};
ghost use Rattle.markup_skipped.specs.Instructions.{instruction_for, instruction_moved};
ghost use Rattle.markup_tags.specs.EndTags.{end_tag_for, end_tag_moved};
ghost use Rattle.markup_tags.specs.Output.{written_by};
ghost use Rattle.markup_tags.specs.StartTags.{start_tag_for, start_tag_moved};
ghost use Rattle.markup_steps.specs.Held.{markup_for, markup_moved, markup_forgotten, markup_grown};

use markup_skipped::Moved;
use markup_skipped::comments::{CommentPlace, comment_step};
use markup_skipped::instructions::{InstructionPlace, instruction_step};
use markup_tags::Output;
use markup_tags::end_tags::{EndTagMoved, EndTagPlace, end_tag_step};
use markup_tags::start_tags::{StartTagMoved, StartTagPlace, start_tag_step};
use xml_names::is_name_start_char;

// Where in a markup a reader stands; at its beginning, whether nothing stands before it.
#[derive(Clone, Copy, PartialEq, Eq, Debug)]
pub enum MarkupPlace {
    Begun(bool),
    StartTag(StartTagPlace),
    EndTag(EndTagPlace),
    Bang(CommentPlace),
    Instruction(InstructionPlace),
}

// What a markup was, at its end: a start tag or, where the test is true, an empty-element tag; an end tag; none of our events.
#[derive(Clone, Copy, PartialEq, Eq, Debug)]
pub enum Ended {
    StartTag(bool),
    EndTag,
    Skipped,
}

// What a character more comes to.
#[derive(Clone, Copy, PartialEq, Eq, Debug)]
pub enum MarkupMoved {
    Continues(MarkupPlace),
    Completes(Ended),
    Malformed,
}

// That, and what the character adds to the line.
#[derive(Clone, Copy, PartialEq, Eq, Debug)]
pub struct MarkupTaken {
    pub moved: MarkupMoved,
    pub output: Output,
}

// The first character behind the `<`, which tells the kinds of markup apart.
fn begun_step(first: bool, c: u32) -> MarkupTaken
    ensures moved { markup_moved result.moved ≡ markup_forgotten (markup_begun first c) }
    ensures output { written_by result.output ≡ markup_grown (behind_less_than_sign first) (markup_begun first c) }
{
    if c == 0x2f {
        MarkupTaken {
            moved: MarkupMoved::Continues(MarkupPlace::EndTag(EndTagPlace::Slash)),
            output: Output::Nothing,
        }
    } else if c == 0x21 {
        MarkupTaken {
            moved: MarkupMoved::Continues(MarkupPlace::Bang(CommentPlace::Bang)),
            output: Output::Nothing,
        }
    } else if c == 0x3f {
        let place = InstructionPlace::Question(first);
        MarkupTaken {
            moved: MarkupMoved::Continues(MarkupPlace::Instruction(place)),
            output: Output::Nothing,
        }
    } else if is_name_start_char(c) {
        MarkupTaken {
            moved: MarkupMoved::Continues(MarkupPlace::StartTag(StartTagPlace::Name)),
            output: Output::Plain(c),
        }
    } else {
        MarkupTaken {
            moved: MarkupMoved::Malformed,
            output: Output::Nothing,
        }
    }
}

// What a start tag came to, as a markup.
fn of_start_tag(moved: StartTagMoved) -> MarkupMoved
    ensures { markup_moved result ≡ wrapped_step in_start_tag (start_tag_moved moved) }
{
    match moved {
        StartTagMoved::Continues(place) => MarkupMoved::Continues(MarkupPlace::StartTag(place)),
        StartTagMoved::Completes(empty) => MarkupMoved::Completes(Ended::StartTag(empty)),
        StartTagMoved::Malformed => MarkupMoved::Malformed,
    }
}

// A character more of a start tag.
fn in_start_tag(place: StartTagPlace, c: u32) -> MarkupTaken
    ensures moved { markup_moved result.moved ≡ markup_forgotten (markup_step (in_start_tag (start_tag_for place)) c) }
    ensures output { written_by result.output ≡ markup_grown (in_start_tag (start_tag_for place)) (markup_step (in_start_tag (start_tag_for place)) c) }
{
    let taken = start_tag_step(place, c);
    MarkupTaken {
        moved: of_start_tag(taken.moved),
        output: taken.output,
    }
}

// What an end tag came to.
fn of_end_tag(moved: EndTagMoved) -> MarkupMoved
    ensures { markup_moved result ≡ wrapped_step in_end_tag (end_tag_moved moved) }
{
    match moved {
        EndTagMoved::Continues(place) => MarkupMoved::Continues(MarkupPlace::EndTag(place)),
        EndTagMoved::Completes => MarkupMoved::Completes(Ended::EndTag),
        EndTagMoved::Malformed => MarkupMoved::Malformed,
    }
}

// A character more of an end tag.
fn in_end_tag(place: EndTagPlace, c: u32) -> MarkupTaken
    ensures moved { markup_moved result.moved ≡ markup_forgotten (markup_step (in_end_tag (end_tag_for place)) c) }
    ensures output { written_by result.output ≡ markup_grown (in_end_tag (end_tag_for place)) (markup_step (in_end_tag (end_tag_for place)) c) }
{
    let taken = end_tag_step(place, c);
    MarkupTaken {
        moved: of_end_tag(taken.moved),
        output: taken.output,
    }
}

// What a comment came to.
fn of_comment(moved: Moved<CommentPlace>) -> MarkupMoved
    ensures { markup_moved result ≡ wrapped_step in_bang (comment_moved moved) }
{
    match moved {
        Moved::Continues(place) => MarkupMoved::Continues(MarkupPlace::Bang(place)),
        Moved::Completes => MarkupMoved::Completes(Ended::Skipped),
        Moved::Malformed => MarkupMoved::Malformed,
    }
}

// A character more of a comment, which adds nothing to a line.
fn in_bang(place: CommentPlace, c: u32) -> MarkupTaken
    ensures moved { markup_moved result.moved ≡ markup_forgotten (markup_step (in_bang (comment_for place)) c) }
    ensures output { written_by result.output ≡ markup_grown (in_bang (comment_for place)) (markup_step (in_bang (comment_for place)) c) }
{
    MarkupTaken {
        moved: of_comment(comment_step(place, c)),
        output: Output::Nothing,
    }
}

// What an instruction or the declaration came to.
fn of_instruction(moved: Moved<InstructionPlace>) -> MarkupMoved
    ensures { markup_moved result ≡ wrapped_step in_instruction (instruction_moved moved) }
{
    match moved {
        Moved::Continues(place) => MarkupMoved::Continues(MarkupPlace::Instruction(place)),
        Moved::Completes => MarkupMoved::Completes(Ended::Skipped),
        Moved::Malformed => MarkupMoved::Malformed,
    }
}

// A character more of an instruction or the declaration.
fn in_instruction(place: InstructionPlace, c: u32) -> MarkupTaken
    ensures moved { markup_moved result.moved ≡ markup_forgotten (markup_step (in_instruction (instruction_for place)) c) }
    ensures output { written_by result.output ≡ markup_grown (in_instruction (instruction_for place)) (markup_step (in_instruction (instruction_for place)) c) }
{
    MarkupTaken {
        moved: of_instruction(instruction_step(place, c)),
        output: Output::Nothing,
    }
}

// A character more of a markup.
pub fn markup_step(place: MarkupPlace, c: u32) -> MarkupTaken
    ensures moved { markup_moved result.moved ≡ markup_forgotten (markup_step (markup_for place) c) }
    ensures output { written_by result.output ≡ markup_grown (markup_for place) (markup_step (markup_for place) c) }
{
    match place {
        MarkupPlace::Begun(first) => begun_step(first, c),
        MarkupPlace::StartTag(place) => in_start_tag(place, c),
        MarkupPlace::EndTag(place) => in_end_tag(place, c),
        MarkupPlace::Bang(place) => in_bang(place, c),
        MarkupPlace::Instruction(place) => in_instruction(place, c),
    }
}
