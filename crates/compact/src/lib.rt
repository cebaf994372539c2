// Records (compact.rs): how nodes, ways and relations lie in an arena, and how they are read. Crate `compact_append` writes them.
// Signed numbers are held as their bits.
#![tactic(auto)]

ghost use Rattle.std.specs.Prelude.{◌≡◌, ◌≤◌, ◌<◌, ◌+◌, ℕ, length, refl, IfOk, Ok, Option};
ghost use Rattle.base.specs.Bytes.{Bytes};
ghost use Rattle.kind.specs.declared.Kind.{Kind};
ghost use Rattle.kind.specs.declared.Kind.TheVariants.{Node, Way, Relation};
ghost use Rattle.model.specs.Record.{claim_of, flagged};
ghost use Rattle.compact.specs.Layout.{Head, head_len};
ghost use Rattle.compact.specs.Held.{meta_of, node_head, way_head, relation_head, node_bits, way_bits, relation_bits, head_in};
ghost use Rattle.compact.specs.View.{node_at, way_at, relation_at, head_at, meta_at, ref_at, member_at, tags_at};
ghost use Rattle.compact.specs.View.{unsound_number, read_as, meta_read, ref_there, member_there, tag_there, part_step, ref_step, member_step, tag_step};
ghost use Rattle.compact.specs.Tags.{tag_place, tag_turn, tags_of, tag_next};

use kind::Kind;
use refusal::{Refusal, Reply};

// "Metadata, `META_LEN` 29 bytes"
pub const META_LEN: usize = 29;

// The metadata of a record. It crosses to C, so the flags stay a byte; the methods say what they mean.
#[repr(C)]
#[derive(Clone, Copy, PartialEq, Eq, Debug)]
pub struct ArenaMeta {
    pub flags: u8,
    pub version: u32,
    pub timestamp: u64,
    pub changeset: u64,
    pub uid: u32,
    pub user: u32,
}

impl ArenaMeta {
    // Whether a flag is set: a power of 2.
    #[tactic(auto, unfolding(model::specs::Record::flagged))]
    fn has(self, flag: u8) -> bool
        requires { 0 < flag }
        ensures { result ≡ flagged flag self.flags }
    {
        self.flags / flag % 2 == 1
    }

    // "Flags: 1 present, 2 hidden, 4 has user, 8 has version"
    pub fn is_present(self) -> bool
        ensures { result ≡ flagged 1 self.flags }
    {
        self.has(1)
    }

    pub fn has_user(self) -> bool
        ensures { result ≡ flagged 4 self.flags }
    {
        self.has(4)
    }

    pub fn has_version(self) -> bool
        ensures { result ≡ flagged 8 self.flags }
    {
        self.has(8)
    }

    // The version that the metadata claims, or none.
    pub fn claim(self) -> Option<i32>
        ensures { result ≡ claim_of (meta_of self) }
    {
        if self.has_version() {
            Some(self.version.cast_signed())
        } else {
            None
        }
    }
}

// The head of a node's record.
#[derive(Clone, Copy, PartialEq, Eq, Debug)]
pub struct CompactNode {
    pub id: u64,
    pub lat: u32,
    pub lon: u32,
    pub tag_count: u32,
}

// The head of a way's record.
#[derive(Clone, Copy, PartialEq, Eq, Debug)]
pub struct CompactWay {
    pub id: u64,
    pub ref_count: u32,
    pub tag_count: u32,
}

// The head of a relation's record. Its fields stand where those of a `CompactWay` stand, but what it counts is another thing and of another size, so the two are two types, each with its
// `read`, `tags_at` and `from`.
#[derive(Clone, Copy, PartialEq, Eq, Debug)]
pub struct CompactRelation {
    pub id: u64,
    pub member_count: u32,
    pub tag_count: u32,
}

// A record's head as a direct push gives it, in bits. A node's count is not looked at, nor a way's or a relation's place. It crosses to C.
#[repr(C)]
#[derive(Clone, Copy, PartialEq, Eq, Debug)]
pub struct PushHead {
    pub id: u64,
    pub lat: u32,
    pub lon: u32,
    pub count: u32,
    pub tags: u32,
}

// A record as a direct push gives it: the parts are refs or members and then tags, laid out as in a record.
#[derive(Clone, Copy, PartialEq, Eq, Debug)]
pub struct PushRecord<'a> {
    pub kind: Kind,
    pub head: PushHead,
    pub meta: ArenaMeta,
    pub parts: &'a [u8],
}

// A member as it stands in a record. Its type is the byte that stands there, whatever it says: the listing promises what it prints of any bytes.
#[derive(Clone, Copy, PartialEq, Eq, Debug)]
pub struct CompactMember {
    pub reference: u64,
    pub kind: u8,
    pub role: u32,
}

// A ref that a step yields, in bits, and the offset of the next.
#[derive(Clone, Copy, PartialEq, Eq, Debug)]
pub struct RefPart {
    pub value: u64,
    pub next: usize,
}

// A member that a step yields, its ref in bits, and the offset of the next.
#[derive(Clone, Copy, PartialEq, Eq, Debug)]
pub struct MemberPart {
    pub reference: u64,
    pub kind: Kind,
    pub role: u32,
    pub next: usize,
}

// A tag that a step yields: its key's handle, and where its value lies. The next tag stands at the value's end, so that is told by numbers.
#[derive(Clone, Copy, PartialEq, Eq, Debug)]
pub struct TagPart {
    pub key: u32,
    pub start: usize,
    pub len: usize,
}

// Where a record's tags begin or go on, and how many remain there: of a caller that holds the record's bytes apart. `CompactTagIter` holds them too.
#[derive(Clone, Copy, PartialEq, Eq, Debug)]
pub struct TagPlace {
    pub offset: usize,
    pub remaining: u32,
}

// "`CompactTagIter` carries the record's bytes with the offset and the tags remaining".
#[derive(Clone, Copy, PartialEq, Eq, Debug)]
pub struct CompactTagIter<'a> {
    pub bytes: &'a [u8],
    pub offset: usize,
    pub remaining: u32,
}

// ---- a record's fields at their places, and a user's readers of heads
// `read`, `read_meta`, `ref_at` and `member_at` are for the library's own code, on bytes that it has checked: bytes that are missing read as 0.
// A user of a record's view has `try_read`, `try_read_meta`, `ref_step`, `member_step` and `tag_step`, which answer 22 there.

// What the heads of the three kinds have in common.
pub trait RecordHead: Copy {
    // How long the head is. The metadata follow it.
    const LEN: usize;

    ghost LEN: { ℕ };

    ghost kind: { Kind };

    // What the head says, and the head that says so.
    ghost says: { Self → Head };

    ghost saying: { Head → Self };

    // The head at the front of some bytes.
    ghost front: { Bytes → Self };

    fn read(bytes: &[u8]) -> Self
        ensures front { result ≡ front bytes.now }
        ensures says { says result ≡ head_at kind bytes.now }
        ensures same { LEN ≤ length bytes.now → Ok result ≡ read_as saying kind bytes.now };

    // Where the first tag stands.
    fn tags_at(self) -> usize
        ensures { result ≡ tags_at kind (says self).count };

    fn tag_count(self) -> u32
        ensures { result ≡ (says self).tags };

    final fn try_read(bytes: &[u8]) -> Result<Self, Refusal>
        ensures read { result ≡ read_as saying kind bytes.now }
        ensures says { IfOk result (λ h. says h ≡ head_at kind bytes.now) }
    {
        if bytes.len() < Self::LEN {
            return Err(Refusal::Unsound);
        }
        Ok(Self::read(bytes))
    }

    // Where refs, members or tags begin: behind the head and the metadata.
    final fn parts_at() -> usize
        ensures { result ≡ head_len kind + 29 }
    {
        Self::LEN + META_LEN
    }

    ghost is_long: { LEN ≡ head_len kind };
}

impl CompactNode {
    // After id, latitude, longitude and tag count.
    pub const META_OFF: usize = 20;

    pub const HEADER_LEN: usize = CompactNode::META_OFF + META_LEN;
}

impl RecordHead for CompactNode {
    const LEN: usize = CompactNode::META_OFF;

    ghost LEN = { 20 };

    ghost kind = { Node };

    ghost says = { node_head };

    ghost saying = { node_bits };

    ghost front = { node_at };

    fn read(bytes: &[u8]) -> Self {
        CompactNode {
            id: little::get_u64(bytes, 0),
            lat: little::get_u32(bytes, 8),
            lon: little::get_u32(bytes, 12),
            tag_count: little::get_u32(bytes, 16),
        }
    }

    #[tactic(auto, unfolding(crate::specs::View::tags_at))]
    fn tags_at(self) -> usize {
        CompactNode::HEADER_LEN
    }

    #[tactic(auto, unfolding(crate::specs::Held::node_head))]
    fn tag_count(self) -> u32 {
        self.tag_count
    }

    ghost is_long = { refl };
}

impl CompactWay {
    // After id, ref count and tag count.
    pub const META_OFF: usize = 16;

    pub const HEADER_LEN: usize = CompactWay::META_OFF + META_LEN;

    pub const REF_SIZE: usize = 8;
}

impl RecordHead for CompactWay {
    const LEN: usize = CompactWay::META_OFF;

    ghost LEN = { 16 };

    ghost kind = { Way };

    ghost says = { way_head };

    ghost saying = { way_bits };

    ghost front = { way_at };

    fn read(bytes: &[u8]) -> Self {
        CompactWay {
            id: little::get_u64(bytes, 0),
            ref_count: little::get_u32(bytes, 8),
            tag_count: little::get_u32(bytes, 12),
        }
    }

    #[tactic(auto, unfolding(crate::specs::View::tags_at, crate::specs::Held::way_head, crate::specs::Held::counts_head))]
    fn tags_at(self) -> usize {
        CompactWay::HEADER_LEN + CompactWay::REF_SIZE * (self.ref_count as usize)
    }

    #[tactic(auto, unfolding(crate::specs::Held::way_head, crate::specs::Held::counts_head))]
    fn tag_count(self) -> u32 {
        self.tag_count
    }

    ghost is_long = { refl };
}

impl CompactRelation {
    // After id, member count and tag count.
    pub const META_OFF: usize = 16;

    pub const HEADER_LEN: usize = CompactRelation::META_OFF + META_LEN;
    // Ref, type and role.
    pub const MEMBER_SIZE: usize = 13;
}

impl RecordHead for CompactRelation {
    const LEN: usize = CompactRelation::META_OFF;

    ghost LEN = { 16 };

    ghost kind = { Relation };

    ghost says = { relation_head };

    ghost saying = { relation_bits };

    ghost front = { relation_at };

    fn read(bytes: &[u8]) -> Self {
        CompactRelation {
            id: little::get_u64(bytes, 0),
            member_count: little::get_u32(bytes, 8),
            tag_count: little::get_u32(bytes, 12),
        }
    }

    #[tactic(auto, unfolding(crate::specs::View::tags_at, crate::specs::Held::relation_head, crate::specs::Held::counts_head))]
    fn tags_at(self) -> usize {
        CompactRelation::HEADER_LEN + CompactRelation::MEMBER_SIZE * (self.member_count as usize)
    }

    #[tactic(auto, unfolding(crate::specs::Held::relation_head, crate::specs::Held::counts_head))]
    fn tag_count(self) -> u32 {
        self.tag_count
    }

    ghost is_long = { refl };
}

// ---- the head of a push as the head of a kind

impl From<PushHead> for CompactNode {
    ghost from_gives = { λ p h. node_head h ≡ head_in Node p };

    #[tactic(auto, unfolding(crate::specs::Held::head_in))]
    fn from(head: PushHead) -> Self {
        CompactNode {
            id: head.id,
            lat: head.lat,
            lon: head.lon,
            tag_count: head.tags,
        }
    }
}

impl From<PushHead> for CompactWay {
    ghost from_gives = { λ p h. way_head h ≡ head_in Way p };

    #[tactic(auto, unfolding(crate::specs::Held::head_in, crate::specs::Held::way_head))]
    fn from(head: PushHead) -> Self {
        CompactWay {
            id: head.id,
            ref_count: head.count,
            tag_count: head.tags,
        }
    }
}

impl From<PushHead> for CompactRelation {
    ghost from_gives = { λ p h. relation_head h ≡ head_in Relation p };

    #[tactic(auto, unfolding(crate::specs::Held::head_in, crate::specs::Held::relation_head))]
    fn from(head: PushHead) -> Self {
        CompactRelation {
            id: head.id,
            member_count: head.count,
            tag_count: head.tags,
        }
    }
}

// The metadata from a place on. A place goes along: metadata stand a constant behind where the record starts.
pub fn read_meta(bytes: &[u8], at: usize) -> ArenaMeta
    ensures { result ≡ meta_at bytes.now at }
{
    // No Option: what a push and the listing promise of any bytes reads those that are missing as 0, so each caller would put the zeros in again.
    let rest = &bytes[at.min(bytes.len())..];
    ArenaMeta {
        flags: little::get_u8(rest, 0),
        version: little::get_u32(rest, 1),
        timestamp: little::get_u64(rest, 5),
        changeset: little::get_u64(rest, 13),
        uid: little::get_u32(rest, 21),
        user: little::get_u32(rest, 25),
    }
}

// The i-th ref of a way, from 0.
pub fn ref_at(bytes: &[u8], i: u32) -> u64
    ensures { result ≡ ref_at bytes.now i }
{
    little::get_u64(
        bytes,
        CompactWay::HEADER_LEN + CompactWay::REF_SIZE * (i as usize),
    )
}

// The i-th member of a relation, from 0.
pub fn member_at(bytes: &[u8], i: u32) -> CompactMember
    ensures { result ≡ member_at bytes.now i }
{
    let at = CompactRelation::HEADER_LEN + CompactRelation::MEMBER_SIZE * (i as usize);
    CompactMember {
        reference: little::get_u64(bytes, at),
        kind: little::get_u8(bytes, at + 8),
        role: little::get_u32(bytes, at + 9),
    }
}

// ---- a user's reader of metadata, and a user's steps

// The number of every `Unsound`: "`arena_invariant_broken`: refusal 22".
pub fn unsound_number() -> u32
    ensures { result ≡ unsound_number }
{
    Reply::from(Refusal::Unsound).number
}

// The metadata from a place on.
pub fn try_read_meta(bytes: &[u8], at: usize) -> Result<ArenaMeta, Refusal>
    ensures { result ≡ meta_read bytes.now at }
{
    if !little::within(at, META_LEN, bytes.len()) {
        return Err(Refusal::Unsound);
    }
    Ok(read_meta(bytes, at))
}

// What refs, members and tags have in common: whether one stands at an offset.
trait Part: Copy {
    ghost there: { Bytes → ℕ → Option Self };

    fn there(bytes: &[u8], offset: usize) -> Option<Self>
        ensures { result ≡ there bytes.now offset };
}

impl Part for RefPart {
    ghost there = { ref_there };

    fn there(bytes: &[u8], offset: usize) -> Option<Self> {
        let next = little::end_within(offset, CompactWay::REF_SIZE, bytes.len())?;
        Some(RefPart {
            value: little::get_u64(bytes, offset),
            next,
        })
    }
}

impl Part for MemberPart {
    ghost there = { member_there };

    fn there(bytes: &[u8], offset: usize) -> Option<Self> {
        let next = little::end_within(offset, CompactRelation::MEMBER_SIZE, bytes.len())?;
        let kind = Kind::try_from(little::get_u8(bytes, offset + 8)).ok()?;
        Some(MemberPart {
            reference: little::get_u64(bytes, offset),
            kind,
            role: little::get_u32(bytes, offset + 9),
            next,
        })
    }
}

impl Part for TagPart {
    ghost there = { tag_there };

    fn there(bytes: &[u8], offset: usize) -> Option<Self> {
        let start = little::end_within(offset, 8, bytes.len())?;
        let len = little::get_u32(bytes, offset + 4) as usize;
        let end = little::end_within(start, len, bytes.len())?;
        text::is_text(&bytes[start..end]).then_some(TagPart {
            key: little::get_u32(bytes, offset),
            start,
            len,
        })
    }
}

// The part at an offset, with so many remaining: none where none remain, 22 where none stands there.
fn step<P: Part>(bytes: &[u8], offset: usize, remaining: u32) -> Result<Option<P>, Refusal>
    ensures { result ≡ part_step P.there bytes.now offset remaining }
{
    if remaining == 0 {
        return Ok(None);
    }
    let part = P::there(bytes, offset).ok_or(Refusal::Unsound)?;
    Ok(Some(part))
}

// The ref at an offset. The bytes, the offset and the count come apart: a caller holds them so, one step a call; over tags, `CompactTagIter` holds them.
pub fn ref_step(bytes: &[u8], offset: usize, remaining: u32) -> Result<Option<RefPart>, Refusal>
    ensures { result ≡ ref_step bytes.now offset remaining }
{
    step(bytes, offset, remaining)
}

// The same for a member: 22 also where its type byte is none of 0, 1 and 2.
pub fn member_step(
    bytes: &[u8],
    offset: usize,
    remaining: u32,
) -> Result<Option<MemberPart>, Refusal>
    ensures { result ≡ member_step bytes.now offset remaining }
{
    step(bytes, offset, remaining)
}

// The same for a tag: 22 also where its value runs past the bytes or is not text.
pub fn tag_step(bytes: &[u8], offset: usize, remaining: u32) -> Result<Option<TagPart>, Refusal>
    ensures { result ≡ tag_step bytes.now offset remaining }
{
    step::<TagPart>(bytes, offset, remaining)
}

// ---- walks over a record's tags: by a place, for callers that hold the bytes apart, and by an iterator that holds them

fn first_tag<H: RecordHead>(bytes: &[u8]) -> TagPlace
    ensures { result ≡ tag_place H.kind bytes.now }
{
    match H::try_read(bytes) {
        Ok(head) => TagPlace {
            offset: head.tags_at(),
            remaining: head.tag_count(),
        },
        // Past the bytes with a tag remaining, so that a step from there answers 22: a place has no room for a refusal, nor has the iterator.
        Err(_) => TagPlace {
            offset: bytes.len(),
            remaining: 1,
        },
    }
}

// Where the tags of a record of a kind begin.
pub fn tag_place(kind: Kind, bytes: &[u8]) -> TagPlace
    ensures { result ≡ tag_place kind bytes.now }
{
    match kind {
        Kind::Node => first_tag::<CompactNode>(bytes),
        Kind::Way => first_tag::<CompactWay>(bytes),
        Kind::Relation => first_tag::<CompactRelation>(bytes),
    }
}

impl TagPlace {
    // The tag at the place. The place goes on behind the tag that it yields; else it stays.
    pub fn next(&mut self, bytes: &[u8]) -> Result<Option<TagPart>, Refusal>
        ensures { record { step = result; place = self.new } ≡ tag_turn bytes.now self.old }
    {
        let step = tag_step(bytes, self.offset, self.remaining);
        let Ok(Some(tag)) = step else {
            return step;
        };
        self.offset = tag.start + tag.len;
        self.remaining -= 1;
        step
    }
}

impl<'a> CompactTagIter<'a> {
    // Over the tags of a record of a kind.
    pub fn of(kind: Kind, bytes: &'a [u8]) -> CompactTagIter<'a>
        ensures { result ≡ tags_of kind bytes.entry }
    {
        let place = tag_place(kind, bytes);
        CompactTagIter {
            bytes,
            offset: place.offset,
            remaining: place.remaining,
        }
    }

    // The next tag. Where none remains or none stands there (22), the iterator is unchanged.
    pub fn next(&mut self) -> Result<Option<TagPart>, Refusal>
        ensures { record { step = result; iter = self.new } ≡ tag_next self.old }
    {
        let mut place = TagPlace {
            offset: self.offset,
            remaining: self.remaining,
        };
        let step = place.next(self.bytes);
        self.offset = place.offset;
        self.remaining = place.remaining;
        step
    }
}
