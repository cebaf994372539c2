// A processing instruction or, where nothing stands before it, the XML declaration, behind its `<?`.

ghost use Rattle.std.specs.Prelude.{◌≡◌, cond, [], ◌∷◌, ◌++◌};
ghost use Rattle.base.specs.Ascii.{ascii};
ghost use Rattle.markup.specs.Markup.{reserved_target};
ghost use Rattle.markup.specs.Automaton.{behind_question_mark, in_target, behind_target, in_data, in_declaration, wrapped_step, target_ended, reserved_ended, instruction_step};
ghost use Rattle.markup_skipped.specs.Declarations.{declaration_moved};
ghost use Rattle.markup_skipped.specs.Instructions.{target_kept, target_letters, instruction_for, instruction_moved, instruction_forgotten};

use crate::Moved;
use crate::declarations::{DeclarationPlace, declaration_step};
use markup_tags::chars::is_xml_char;
use xml_names::{is_name_char, is_name_start_char, is_white_space};

// The target so far: `x`, `xm` or `xml`, the same in another case, or any other name.
#[derive(Clone, Copy, PartialEq, Eq, Debug)]
pub enum TargetLetters {
    X,
    Xm,
    Xml,
    UpperX,
    UpperXm,
    UpperXml,
    Other,
}

// Where in an instruction a reader stands. Behind `<?` and in the target the test says that nothing stands before the instruction; in the data, that a `?` stands before.
#[derive(Clone, Copy, PartialEq, Eq, Debug)]
pub enum InstructionPlace {
    Question(bool),
    Target(bool, TargetLetters),
    BehindTarget,
    Data(bool),
    Declaration(DeclarationPlace),
}

fn first_letter(c: u32) -> TargetLetters
    ensures { target_letters result ≡ target_kept (c ∷ []) }
{
    if c == 0x78 {
        TargetLetters::X
    } else if c == 0x58 {
        TargetLetters::UpperX
    } else {
        TargetLetters::Other
    }
}

fn question_step(first: bool, c: u32) -> Moved<InstructionPlace>
    ensures { instruction_moved result ≡ instruction_forgotten (instruction_step (behind_question_mark first) c) }
{
    if is_name_start_char(c) {
        Moved::Continues(InstructionPlace::Target(first, first_letter(c)))
    } else {
        Moved::Malformed
    }
}

// The second letter behind an `x` or, where the test says so, an `X`.
fn second_letter(upper: bool, c: u32) -> TargetLetters
    ensures { target_letters result ≡ target_kept (cond upper 88 120 ∷ c ∷ []) }
{
    if c == 0x4d {
        TargetLetters::UpperXm
    } else if c != 0x6d {
        TargetLetters::Other
    } else if upper {
        TargetLetters::UpperXm
    } else {
        TargetLetters::Xm
    }
}

// The third letter behind `xm` or, where the test says so, `XM`.
fn third_letter(upper: bool, c: u32) -> TargetLetters
    ensures { target_letters result ≡ target_kept (cond upper 88 120 ∷ cond upper 77 109 ∷ c ∷ []) }
{
    if c == 0x4c {
        TargetLetters::UpperXml
    } else if c != 0x6c {
        TargetLetters::Other
    } else if upper {
        TargetLetters::UpperXml
    } else {
        TargetLetters::Xml
    }
}

fn next_letter(letters: TargetLetters, c: u32) -> TargetLetters
    ensures { target_letters result ≡ target_kept (target_letters letters ++ (c ∷ [])) }
{
    match letters {
        TargetLetters::X => second_letter(false, c),
        TargetLetters::UpperX => second_letter(true, c),
        TargetLetters::Xm => third_letter(false, c),
        TargetLetters::UpperXm => third_letter(true, c),
        _ => TargetLetters::Other,
    }
}

// What stands behind a target: production 16.
fn target_ended(c: u32) -> Moved<InstructionPlace>
    ensures { instruction_moved result ≡ instruction_forgotten (target_ended c) }
{
    if is_white_space(c) {
        Moved::Continues(InstructionPlace::Data(false))
    } else if c == 0x3f {
        Moved::Continues(InstructionPlace::BehindTarget)
    } else {
        Moved::Malformed
    }
}

// What the declaration comes to, as an instruction.
fn declared(moved: Moved<DeclarationPlace>) -> Moved<InstructionPlace>
    ensures { instruction_moved result ≡ wrapped_step in_declaration (declaration_moved moved) }
{
    match moved {
        Moved::Continues(place) => Moved::Continues(InstructionPlace::Declaration(place)),
        Moved::Completes => Moved::Completes,
        Moved::Malformed => Moved::Malformed,
    }
}

// What stands behind `<?xml`, which begins the declaration, and may at the beginning of a file alone.
fn declaration_begun(first: bool, c: u32) -> Moved<InstructionPlace>
    ensures { instruction_moved result ≡ instruction_forgotten (reserved_ended first (ascii "xml") c) }
{
    if first {
        declared(declaration_step(DeclarationPlace::Between(None, false), c))
    } else {
        Moved::Malformed
    }
}

fn name_ended(first: bool, letters: TargetLetters, c: u32) -> Moved<InstructionPlace>
    ensures { instruction_moved result
        ≡ instruction_forgotten (cond (reserved_target (target_letters letters)) (reserved_ended first (target_letters letters) c) (target_ended c)) }
{
    match letters {
        TargetLetters::Xml => declaration_begun(first, c),
        TargetLetters::UpperXml => Moved::Malformed,
        _ => target_ended(c),
    }
}

fn target_step(first: bool, letters: TargetLetters, c: u32) -> Moved<InstructionPlace>
    ensures { instruction_moved result ≡ instruction_forgotten (instruction_step (in_target first (target_letters letters)) c) }
{
    if is_name_char(c) {
        Moved::Continues(InstructionPlace::Target(first, next_letter(letters, c)))
    } else {
        name_ended(first, letters, c)
    }
}

fn behind_target_step(c: u32) -> Moved<InstructionPlace>
    ensures { instruction_moved result ≡ instruction_forgotten (instruction_step behind_target c) }
{
    if c == 0x3e {
        Moved::Completes
    } else {
        Moved::Malformed
    }
}

fn data_step(question: bool, c: u32) -> Moved<InstructionPlace>
    ensures { instruction_moved result ≡ instruction_forgotten (instruction_step (in_data question) c) }
{
    if question & (c == 0x3e) {
        Moved::Completes
    } else if is_xml_char(c) {
        Moved::Continues(InstructionPlace::Data(c == 0x3f))
    } else {
        Moved::Malformed
    }
}

// A character more of an instruction: productions 16 and 17, and 23 at the beginning of a file.
pub fn instruction_step(place: InstructionPlace, c: u32) -> Moved<InstructionPlace>
    ensures { instruction_moved result ≡ instruction_forgotten (instruction_step (instruction_for place) c) }
{
    match place {
        InstructionPlace::Question(first) => question_step(first, c),
        InstructionPlace::Target(first, letters) => target_step(first, letters, c),
        InstructionPlace::BehindTarget => behind_target_step(c),
        InstructionPlace::Data(question) => data_step(question, c),
        InstructionPlace::Declaration(place) => declared(declaration_step(place, c)),
    }
}
