// The markups of a file that are no events, character by character: comments, processing instructions and the XML declaration.
#![tactic(auto)]

ghost use Rattle.std.specs.Prelude.{◌≡◌};
ghost use Rattle.text.specs.Char.{xml_char};

pub mod comments;
pub mod declarations;
pub mod instructions;

// What a character more comes to, of a comment, an instruction or the declaration: they all end in the same way.
#[derive(Clone, Copy, PartialEq, Eq, Debug)]
pub enum Moved<P> {
    Continues(P),
    Completes,
    Malformed,
}
