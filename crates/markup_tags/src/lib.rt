// The tags of a file, character by character: where in one a reader stands, and what a character adds to the line of its event.
#![tactic(auto)]

ghost use Rattle.std.specs.Prelude.{◌≡◌};

pub mod chars;
pub mod end_tags;
pub mod references;
pub mod start_tags;

// What a character adds to the line: nothing, a name's character, one behind a tab, an equals sign, or a value's character with its escape.
#[derive(Clone, Copy, PartialEq, Eq, Debug)]
pub enum Output {
    Nothing,
    Plain(u32),
    Tabbed(u32),
    EqualsSign,
    Escaped(u32),
}
