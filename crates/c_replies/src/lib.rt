// What the C entries reply: a struct of numbers for each kind of answer, and each answer converted to its struct. The structs are alike where the header has a name of its own for
// each field: `Number`, `Text` and `ListingReply` are the C interface's.
#![tactic(auto)]

ghost use Rattle.std.specs.Prelude.{◌≡◌};
ghost use Rattle.c_replies.specs.Listings.{listed_reply};
ghost use Rattle.c_replies.specs.Lookups.{span_places, seek_place, place_word, sought_cursor};
ghost use Rattle.c_replies.specs.Numbers.{order_number};
ghost use Rattle.c_replies.specs.Overlays.{kept_reply, handle_text, texts_reply};
ghost use Rattle.c_replies.specs.Readers.{answer_reply, taken_reply};
ghost use Rattle.c_replies.specs.Readings.{read_number, view_part, unknown_kind};
ghost use Rattle.c_replies.specs.Records.{refused_head, node_reply, way_reply, relation_reply, meta_reply, ref_reply, member_reply, tag_reply};

use compact::{
    ArenaMeta, CompactNode, CompactRelation, CompactWay, MemberPart, PushHead, RecordHead, RefPart,
    TagPart,
};
use little::Span;
use reader::RefusedAt;
use refusal::{Refusal, Reply};
use sorted::IdRange;
use std::cmp::Ordering;

// ---- ids, versions, integer and timestamp fields, and text

// A number that was read: 0 with it, or the refusal with 0.
#[repr(C)]
#[derive(Clone, Copy, PartialEq, Eq, Debug)]
pub struct Number {
    pub number: u32,
    pub value: u64,
}

// 0 less, 1 equal, 2 greater. Rust's own numbers are -1, 0 and 1.
pub fn order_number(order: Ordering) -> u8
    ensures { result ≡ order_number order }
{
    match order {
        Ordering::Less => 0,
        Ordering::Equal => 1,
        Ordering::Greater => 2,
    }
}

impl From<Result<u64, Refusal>> for Number {
    ghost from_gives = { λ read number. number ≡ read_number read };

    #[tactic(auto, unfolding(refusal::specs::Refusal::reply_of))]
    fn from(read: Result<u64, Refusal>) -> Number {
        match read {
            Ok(value) => Number { number: 0, value },
            Err(refusal) => Number {
                number: Reply::from(refusal).number,
                value: 0,
            },
        }
    }
}

// ---- an overlay

// What `intern` replies: 0 with the text's handle, or the refusal with 0.
#[repr(C)]
#[derive(Clone, Copy, PartialEq, Eq, Debug)]
pub struct Text {
    pub number: u32,
    pub handle: u64,
}

// A function, since both types are of the crate refusal: there a conversion would want the definitions of answers to C, which are of this crate.
pub fn kept_reply(answer: Result<(), Refusal>) -> Reply
    ensures { result ≡ kept_reply answer }
{
    match answer {
        Ok(()) => Reply { number: 0, held: 0 },
        Err(refusal) => Reply::from(refusal),
    }
}

impl From<Result<u64, Refusal>> for Text {
    ghost from_gives = { λ answer text. text ≡ handle_text answer };

    #[tactic(auto, unfolding(refusal::specs::Refusal::reply_of))]
    fn from(answer: Result<u64, Refusal>) -> Text {
        let read = Number::from(answer);
        Text {
            number: read.number,
            handle: read.value,
        }
    }
}

// What `intern_texts` replies: 0 or the refusal, and how many texts were taken in.
#[repr(C)]
#[derive(Clone, Copy, PartialEq, Eq, Debug)]
pub struct TextsReply {
    pub number: u32,
    pub taken: usize,
}

// A function of two values, as `events_reply` is.
#[tactic(auto, unfolding(refusal::specs::Refusal::reply_of))]
pub fn texts_reply(answer: Result<(), Refusal>, taken: usize) -> TextsReply
    ensures { result ≡ texts_reply answer taken }
{
    let number = match answer {
        Ok(()) => 0,
        Err(refusal) => Reply::from(refusal).number,
    };
    TextsReply { number, taken }
}

// The refusal where a kind's number means no kind: 22, else 17.
pub fn unknown_kind(sound: bool) -> Refusal
    ensures { result ≡ unknown_kind sound }
{
    if sound {
        return Refusal::BadRecord;
    }
    Refusal::Unsound
}

// ---- a reader

// 0 for what is accepted, with zeros; else the refusal's number, with the known version for 12 and the event's line.
#[repr(C)]
#[derive(Clone, Copy, PartialEq, Eq, Debug)]
pub struct EventReply {
    pub number: u32,
    pub held: i32,
    pub line: u64,
}

impl From<Result<(), RefusedAt>> for EventReply {
    ghost from_gives = { λ answer reply. reply ≡ answer_reply answer };

    fn from(answer: Result<(), RefusedAt>) -> EventReply {
        match answer {
            Ok(()) => EventReply {
                number: 0,
                held: 0,
                line: 0,
            },
            Err(at) => {
                let reply = Reply::from(at.refusal);
                EventReply {
                    number: reply.number,
                    held: reply.held,
                    line: at.line,
                }
            }
        }
    }
}

// The same for a run, with how many of its bytes were taken.
#[repr(C)]
#[derive(Clone, Copy, PartialEq, Eq, Debug)]
pub struct EventsReply {
    pub number: u32,
    pub held: i32,
    pub line: u64,
    pub taken: usize,
}

// A function of two values: a conversion of a pair would be no plainer.
pub fn events_reply(answer: Result<(), RefusedAt>, taken: usize) -> EventsReply
    ensures { result ≡ taken_reply (answer_reply answer) taken }
{
    let reply = EventReply::from(answer);
    EventsReply {
        number: reply.number,
        held: reply.held,
        line: reply.line,
        taken,
    }
}

// ---- the readings

// Where something lies: 0 and found 1 with its start and length; 0 and found 0 where there is nothing; or the refusal.
#[repr(C)]
#[derive(Clone, Copy, PartialEq, Eq, Debug, Default)]
pub struct Part {
    pub number: u32,
    pub found: u32,
    pub start: usize,
    pub len: usize,
}

impl From<Result<Option<Span>, Refusal>> for Part {
    ghost from_gives = { λ view part. part ≡ view_part view };

    #[tactic(auto, unfolding(refusal::specs::Refusal::reply_of))]
    fn from(view: Result<Option<Span>, Refusal>) -> Part {
        match view {
            Ok(Some(at)) => Part {
                number: 0,
                found: 1,
                start: at.start,
                len: at.len,
            },
            Ok(None) => Part::default(),
            Err(refusal) => Part {
                number: Reply::from(refusal).number,
                ..Part::default()
            },
        }
    }
}

// ---- a record's bytes

// 0 with a record's head in bits, where its refs or members begin, and where its tags do; or the refusal with zeros.
#[repr(C)]
#[derive(Clone, Copy, PartialEq, Eq, Debug)]
pub struct HeadReply {
    pub number: u32,
    pub head: PushHead,
    pub parts_at: usize,
    pub tags_at: usize,
}

// 0 with a record's metadata in bits, or the refusal with zeros.
#[repr(C)]
#[derive(Clone, Copy, PartialEq, Eq, Debug)]
pub struct MetaReply {
    pub number: u32,
    pub meta: ArenaMeta,
}

// What a step over refs replies: 0 and found 1 with a ref in bits and the offset of the next; 0 and found 0 where none remains; or the refusal.
#[repr(C)]
#[derive(Clone, Copy, PartialEq, Eq, Debug, Default)]
pub struct RefReply {
    pub number: u32,
    pub found: u32,
    pub value: u64,
    pub next: usize,
}

// The same over members.
#[repr(C)]
#[derive(Clone, Copy, PartialEq, Eq, Debug, Default)]
pub struct MemberReply {
    pub number: u32,
    pub found: u32,
    pub reference: u64,
    pub kind: u8,
    pub role: u32,
    pub next: usize,
}

// The same over tags: the key's handle, and where the value lies. The next tag stands where the value ends.
#[repr(C)]
#[derive(Clone, Copy, PartialEq, Eq, Debug, Default)]
pub struct TagReply {
    pub number: u32,
    pub found: u32,
    pub key: u32,
    pub start: usize,
    pub len: usize,
}

impl HeadReply {
    // The refusal with zeros, of whatever kind the record was to be.
    #[tactic(auto, unfolding(refusal::specs::Refusal::reply_of))]
    pub fn refused(refusal: Refusal) -> HeadReply
        ensures { result ≡ refused_head refusal }
    {
        HeadReply {
            number: Reply::from(refusal).number,
            head: PushHead {
                id: 0,
                lat: 0,
                lon: 0,
                count: 0,
                tags: 0,
            },
            parts_at: 0,
            tags_at: 0,
        }
    }
}

impl From<Result<CompactNode, Refusal>> for HeadReply {
    ghost from_gives = { λ read reply. reply ≡ node_reply read };

    #[tactic(auto, unfolding(compact::specs::View::tags_at, compact::specs::Held::node_head))]
    fn from(read: Result<CompactNode, Refusal>) -> HeadReply {
        match read {
            Ok(node) => HeadReply {
                number: 0,
                head: PushHead {
                    id: node.id,
                    lat: node.lat,
                    lon: node.lon,
                    count: 0,
                    tags: node.tag_count,
                },
                parts_at: CompactNode::parts_at(),
                tags_at: node.tags_at(),
            },
            Err(refusal) => HeadReply::refused(refusal),
        }
    }
}

impl From<Result<CompactWay, Refusal>> for HeadReply {
    ghost from_gives = { λ read reply. reply ≡ way_reply read };

    #[tactic(auto, unfolding(compact::specs::View::tags_at, compact::specs::Held::way_head, compact::specs::Held::counts_head))]
    fn from(read: Result<CompactWay, Refusal>) -> HeadReply {
        match read {
            Ok(way) => HeadReply {
                number: 0,
                head: PushHead {
                    id: way.id,
                    lat: 0,
                    lon: 0,
                    count: way.ref_count,
                    tags: way.tag_count,
                },
                parts_at: CompactWay::parts_at(),
                tags_at: way.tags_at(),
            },
            Err(refusal) => HeadReply::refused(refusal),
        }
    }
}

impl From<Result<CompactRelation, Refusal>> for HeadReply {
    ghost from_gives = { λ read reply. reply ≡ relation_reply read };

    #[tactic(auto, unfolding(compact::specs::View::tags_at, compact::specs::Held::relation_head, compact::specs::Held::counts_head))]
    fn from(read: Result<CompactRelation, Refusal>) -> HeadReply {
        match read {
            Ok(relation) => HeadReply {
                number: 0,
                head: PushHead {
                    id: relation.id,
                    lat: 0,
                    lon: 0,
                    count: relation.member_count,
                    tags: relation.tag_count,
                },
                parts_at: CompactRelation::parts_at(),
                tags_at: relation.tags_at(),
            },
            Err(refusal) => HeadReply::refused(refusal),
        }
    }
}

impl From<Result<ArenaMeta, Refusal>> for MetaReply {
    ghost from_gives = { λ read reply. reply ≡ meta_reply read };

    #[tactic(auto, unfolding(refusal::specs::Refusal::reply_of))]
    fn from(read: Result<ArenaMeta, Refusal>) -> MetaReply {
        match read {
            Ok(meta) => MetaReply { number: 0, meta },
            Err(refusal) => MetaReply {
                number: Reply::from(refusal).number,
                meta: ArenaMeta {
                    flags: 0,
                    version: 0,
                    timestamp: 0,
                    changeset: 0,
                    uid: 0,
                    user: 0,
                },
            },
        }
    }
}

impl From<Result<Option<RefPart>, Refusal>> for RefReply {
    ghost from_gives = { λ step reply. reply ≡ ref_reply step };

    #[tactic(auto, unfolding(refusal::specs::Refusal::reply_of))]
    fn from(step: Result<Option<RefPart>, Refusal>) -> RefReply {
        match step {
            Ok(Some(part)) => RefReply {
                number: 0,
                found: 1,
                value: part.value,
                next: part.next,
            },
            Ok(None) => RefReply::default(),
            Err(refusal) => RefReply {
                number: Reply::from(refusal).number,
                ..RefReply::default()
            },
        }
    }
}

impl From<Result<Option<MemberPart>, Refusal>> for MemberReply {
    ghost from_gives = { λ step reply. reply ≡ member_reply step };

    #[tactic(auto, unfolding(refusal::specs::Refusal::reply_of))]
    fn from(step: Result<Option<MemberPart>, Refusal>) -> MemberReply {
        match step {
            Ok(Some(part)) => MemberReply {
                number: 0,
                found: 1,
                reference: part.reference,
                kind: u8::from(part.kind),
                role: part.role,
                next: part.next,
            },
            Ok(None) => MemberReply::default(),
            Err(refusal) => MemberReply {
                number: Reply::from(refusal).number,
                ..MemberReply::default()
            },
        }
    }
}

impl From<Result<Option<TagPart>, Refusal>> for TagReply {
    ghost from_gives = { λ step reply. reply ≡ tag_reply step };

    #[tactic(auto, unfolding(refusal::specs::Refusal::reply_of))]
    fn from(step: Result<Option<TagPart>, Refusal>) -> TagReply {
        match step {
            Ok(Some(part)) => TagReply {
                number: 0,
                found: 1,
                key: part.key,
                start: part.start,
                len: part.len,
            },
            Ok(None) => TagReply::default(),
            Err(refusal) => TagReply {
                number: Reply::from(refusal).number,
                ..TagReply::default()
            },
        }
    }
}

// ---- the lookups in lists

// 0 with the first place and one past the last, or 20 with 0 and 0.
#[repr(C)]
#[derive(Clone, Copy, PartialEq, Eq, Debug)]
pub struct Places {
    pub number: u32,
    pub from: usize,
    pub to: usize,
}

// 0 or 20; where an id was found; where the cursor stands.
#[repr(C)]
#[derive(Clone, Copy, PartialEq, Eq, Debug)]
pub struct Cursor {
    pub number: u32,
    pub found: usize,
    pub place: usize,
}

// A word from here on is no place.
const NO_PLACE: usize = 9223372036854775808;

impl From<Result<IdRange, Refusal>> for Places {
    ghost from_gives = { λ answer places. places ≡ span_places answer };

    #[tactic(auto, unfolding(refusal::specs::Refusal::reply_of))]
    fn from(answer: Result<IdRange, Refusal>) -> Places {
        match answer {
            Ok(range) => Places {
                number: 0,
                from: range.from,
                to: range.to,
            },
            Err(refusal) => Places {
                number: Reply::from(refusal).number,
                from: 0,
                to: 0,
            },
        }
    }
}

// The place that a word of C means. No `From`, since both types are the language's own.
pub fn place_of(word: usize) -> Option<usize>
    ensures { result ≡ seek_place word }
{
    (word < NO_PLACE).then_some(word)
}

// The word of C that means a place, or none. No `From`, as for `place_of`.
pub fn place_word(place: Option<usize>) -> usize
    ensures { result ≡ place_word place }
{
    place.unwrap_or(NO_PLACE)
}

// A function of two values, as `events_reply` is.
#[tactic(auto, unfolding(refusal::specs::Refusal::reply_of))]
pub fn cursor_reply(answer: Result<Option<usize>, Refusal>, place: Option<usize>) -> Cursor
    ensures { result ≡ sought_cursor answer (place_word place) }
{
    let place = place_word(place);
    match answer {
        Ok(at) => Cursor {
            number: 0,
            found: place_word(at),
            place,
        },
        Err(refusal) => Cursor {
            number: Reply::from(refusal).number,
            found: NO_PLACE,
            place,
        },
    }
}

// ---- the listing

// 0 with the listing's length, or the refusal with 0.
#[repr(C)]
#[derive(Clone, Copy, PartialEq, Eq, Debug)]
pub struct ListingReply {
    pub number: u32,
    pub length: usize,
}

impl From<Result<usize, Refusal>> for ListingReply {
    ghost from_gives = { λ answer reply. reply ≡ listed_reply answer };

    #[tactic(auto, unfolding(refusal::specs::Refusal::reply_of))]
    fn from(answer: Result<usize, Refusal>) -> ListingReply {
        match answer {
            Ok(length) => ListingReply { number: 0, length },
            Err(refusal) => ListingReply {
                number: Reply::from(refusal).number,
                length: 0,
            },
        }
    }
}
