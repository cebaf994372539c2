// The three kinds of element, and their numbers: 0 node, 1 way, 2 relation.
#![tactic(auto)]

ghost use Rattle.std.specs.Prelude.{◌≡◌};
ghost use Rattle.kind.specs.Kind.{kind_number, Numbered};

#[derive(Clone, Copy, Debug, PartialEq, Eq)]
pub enum Kind {
    Node = 0,
    Way = 1,
    Relation = 2,
}

// A number that names no kind.
#[derive(Clone, Copy, Debug, PartialEq, Eq)]
pub struct UnknownKind(pub u8);

impl From<Kind> for u8 {
    ghost from_gives = { λ k n. n ≡ kind_number k };

    fn from(kind: Kind) -> u8 {
        kind as u8
    }
}

impl TryFrom<u8> for Kind {
    type Error = UnknownKind;

    ghost try_from_gives = { Numbered };

    #[tactic(auto, using(crate::proofs::Numbers::above), unfolding(crate::specs::Kind::of_number))]
    fn try_from(number: u8) -> Result<Self, UnknownKind> {
        match number {
            0 => Ok(Kind::Node),
            1 => Ok(Kind::Way),
            2 => Ok(Kind::Relation),
            _ => Err(UnknownKind(number)),
        }
    }
}
