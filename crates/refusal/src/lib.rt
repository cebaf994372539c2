// The refusals of document 01 ("What is returned, by place of the check") and of document 02: one enum, and one definition of its numbers.
#![tactic(auto)]

ghost use Rattle.std.specs.Prelude.{◌≡◌};
ghost use Rattle.refusal.specs.Refusal.{plain_reply, reply_of};

#[derive(Clone, Copy, Debug, PartialEq, Eq)]
pub enum Refusal {
    // set-up
    Size,
    // line
    LongLine,
    NotText,
    NotEventLine,
    // file
    NotMarkup,
    UnmatchedEndTag,
    // nesting
    Misplaced,
    OutsideSection,
    // fields
    Missing,
    NotInteger,
    NotTimestamp,
    CoordinateRange,
    MemberType,
    NotDegrees,
    BothForms,
    // store; a regression carries the known version
    Regression(i32),
    StringsFull,
    IdsFull,
    ArenaFull,
    TooManyParts,
    // direct call
    BadRecord,
    // end and listing
    Unfinished,
    ShortOutput,
    // lookup
    NotInOrder,
    NoSuchNumber,
    // each call but lookups in lists
    Unsound,
}

// A reply at the C boundary: 0 for what is accepted, else the refusal's number, with the known version for 12.
#[repr(C)]
#[derive(Clone, Copy, Debug, PartialEq, Eq)]
pub struct Reply {
    pub number: u32,
    pub held: i32,
}

fn plain(number: u32) -> Reply
    ensures { result ≡ plain_reply number }
{
    Reply { number, held: 0 }
}

impl From<Refusal> for Reply {
    ghost from_gives = { λ r reply. reply ≡ reply_of r };

    #[tactic(auto, unfolding(crate::specs::Refusal::reply_of))]
    fn from(refusal: Refusal) -> Reply {
        match refusal {
            Refusal::Size => plain(1),
            Refusal::LongLine => plain(2),
            Refusal::NotText => plain(3),
            Refusal::NotEventLine => plain(4),
            Refusal::Misplaced => plain(5),
            Refusal::OutsideSection => plain(6),
            Refusal::Missing => plain(7),
            Refusal::NotInteger => plain(8),
            Refusal::NotTimestamp => plain(9),
            Refusal::CoordinateRange => plain(10),
            Refusal::MemberType => plain(11),
            Refusal::Regression(known) => Reply {
                number: 12,
                held: known,
            },
            Refusal::StringsFull => plain(13),
            Refusal::IdsFull => plain(14),
            Refusal::ArenaFull => plain(15),
            Refusal::TooManyParts => plain(16),
            Refusal::BadRecord => plain(17),
            Refusal::Unfinished => plain(18),
            Refusal::ShortOutput => plain(19),
            Refusal::NotInOrder => plain(20),
            Refusal::NoSuchNumber => plain(21),
            Refusal::Unsound => plain(22),
            Refusal::NotDegrees => plain(23),
            Refusal::BothForms => plain(24),
            Refusal::NotMarkup => plain(25),
            Refusal::UnmatchedEndTag => plain(26),
        }
    }
}
