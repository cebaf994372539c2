// Which records are legal, and the one check that decides it: for a direct push, and for the records of an arena.
#![tactic(auto)]

ghost use Rattle.std.specs.Prelude.{◌≡◌, ◌≤◌, ◌+◌, IfSome, leb, nat_abs, length};
ghost use Rattle.std.specs.Int.{w32};
ghost use Rattle.std.proofs.Common.{to_z};
ghost use Rattle.compact.specs.Cut.{pushed_record};
ghost use Rattle.compact.specs.Held.{meta_of};
ghost use Rattle.compact.specs.Push.{record_given};
ghost use Rattle.compact.specs.Legal.{limits, legal_meta};
ghost use Rattle.compact_legal.specs.Judge.{fault_for, record_end, member_end, members_end, tag_end, tags_end, body_end, place_in_range, count_within, few, chosen, walk_of};

use compact::{ArenaMeta, CompactNode, CompactRelation, CompactWay, PushRecord, RecordHead};
use kind::Kind;
use model::{MAX_LAT7, MAX_LON7, MAX_MEMBERS, MAX_REFS, MAX_TAG_VALUE_BYTES, MAX_TAGS};
use refusal::Refusal;

// The records of a kind that bytes hold, and how many strings are held.
#[derive(Clone, Copy)]
pub struct Records<'a> {
    pub kind: Kind,
    pub bytes: &'a [u8],
    pub strings: u64,
}

// Bytes with the parts of a record among them, and how many strings are held: a handle below that number is held.
#[derive(Clone, Copy)]
struct PartBytes<'a> {
    bytes: &'a [u8],
    strings: u64,
}

// Where tags end, each whole and of a key that is held; and whether each value is text.
#[derive(Clone, Copy, PartialEq, Eq, Debug)]
struct TagRun {
    end: usize,
    text: bool,
}

// Where the parts of a record end whose handles are held, how many bytes the tags' values take, and whether each value is text.
#[derive(Clone, Copy, PartialEq, Eq, Debug)]
struct Walk {
    end: usize,
    values: usize,
    text: bool,
}

// ---- metadata

pub fn legal_meta(m: ArenaMeta, strings: u64) -> bool
    ensures { result ≡ legal_meta strings (meta_of m) }
{
    let present = m.is_present();
    let named = m.has_user();
    let versioned = m.has_version();
    let flags = (m.flags <= 15) & (present | (m.flags == 0));
    let version = versioned | (m.version == 0);
    let fields = present | ((m.timestamp == 0) & ((m.changeset == 0) & (m.uid == 0)));
    let user = (named | (m.user == 0)) & ((m.user as u64) < strings);
    flags & (version & (fields & user))
}

// ---- parts from an offset on
// An offset goes along and not the rest of the bytes: each function answers where something ends, and a rest would tell that by its length alone. That it lies within the bytes
// is a premise of each: a type of such offsets would hold the bytes too, which are in `self`.

impl PartBytes<'_> {
    // A member of 13 bytes with a type of at most 2 and a role that is held.
    fn member_end(&self, at: usize) -> Option<usize>
        requires { at ≤ length self.now.bytes.now }
        ensures { result ≡ member_end self.now.strings self.now.bytes.now at }
    {
        let end = little::end_within(at, CompactRelation::MEMBER_SIZE, self.bytes.len())?;
        let known = little::get_u8(self.bytes, at + 8) < 3;
        let held = (little::get_u32(self.bytes, at + 9) as u64) < self.strings;
        (known & held).then_some(end)
    }

    // A tag: a key's handle, a length and as many bytes.
    fn tag_end(&self, at: usize) -> Option<usize>
        requires { at ≤ length self.now.bytes.now }
        ensures ends { result ≡ tag_end self.now.bytes.now at }
        ensures within { IfSome result (λ e. (at + 8 ≤ e) × (e ≤ length self.now.bytes.now)) }
    {
        let value = little::end_within(at, 8, self.bytes.len())?;
        let n = little::get_u32(self.bytes, at + 4) as usize;
        little::end_within(value, n, self.bytes.len())
    }

    // So many members, one after the other. Each takes bytes, so a count that the bytes cannot hold ends at the last of them.
    fn members_end(&self, at: usize, n: u32) -> Option<usize>
        requires { at ≤ length self.now.bytes.now }
        ensures { result ≡ members_end self.now.strings n self.now.bytes.now at }
    {
        let mut offset = at;
        for _ in 0..n {
            offset = self.member_end(offset)?;
        }
        Some(offset)
    }

    // The same of tags; each is looked at once.
    fn tags_end(&self, at: usize, n: u32) -> Option<TagRun>
        requires { at ≤ length self.now.bytes.now }
        ensures { result ≡ tags_end self.now.strings n self.now.bytes.now at }
    {
        let mut offset = at;
        let mut text = true;
        for _ in 0..n {
            let next = self.tag_end(offset)?;
            if little::get_u32(self.bytes, offset) as u64 >= self.strings {
                return None;
            }
            let from = offset + 8;
            text = text & text::is_text(&self.bytes[from..next]);
            offset = next;
        }
        Some(TagRun { end: offset, text })
    }

    // The parts that begin at an offset: refs or members and then tags, of the counts that a head gives.
    fn walk<H: JudgedHead>(&self, head: H, at: usize) -> Option<Walk>
        requires { at ≤ length self.now.bytes.now }
        ensures { result ≡ walk_of self.now.strings H.kind (H.says head) self.now.bytes.now at }
    {
        let count = head.tag_count();
        let tags = head.body_end(self, at)?;
        let tagged = self.tags_end(tags, count)?;
        Some(Walk {
            end: tagged.end,
            values: tagged.end - tags - 8 * (count as usize),
            text: tagged.text,
        })
    }
}

// ---- range and limits

// Whether a signed number of 32 bits is within a bound on either side of 0.
fn within(bits: u32, bound: u32) -> bool
    ensures { result ≡ leb (nat_abs (to_z w32 bits)) bound }
{
    bits.cast_signed().unsigned_abs() <= bound
}

// 17, then 3, then 10, then 16.
#[tactic(auto, unfolding(crate::specs::Judge::chosen))]
fn choose(held: bool, text: bool, inside: bool, few: bool, e: usize) -> Result<usize, Refusal>
    ensures { result ≡ chosen held text inside few e }
{
    if !held {
        return Err(Refusal::BadRecord);
    }
    if !text {
        return Err(Refusal::NotText);
    }
    if !inside {
        return Err(Refusal::CoordinateRange);
    }
    if !few {
        return Err(Refusal::TooManyParts);
    }
    Ok(e)
}

// What the heads of the three kinds ask of a record.
trait JudgedHead: RecordHead {
    // Where the refs or members end that the head counts.
    fn body_end(self, parts: &PartBytes, at: usize) -> Option<usize>
        requires { at ≤ length parts.now.bytes.now }
        ensures { result ≡ body_end parts.now.strings Self.kind (Self.says self) parts.now.bytes.now at };

    // Whether the place is in range.
    fn in_place(self) -> bool
        ensures { result ≡ place_in_range Self.kind (Self.says self).lat (Self.says self).lon };

    // Whether the refs or members are within their limit.
    fn few_items(self) -> bool
        ensures { result ≡ count_within limits Self.kind (Self.says self).count };

    final fn few_parts(self, values: usize) -> bool
        ensures { result ≡ few Self.kind (Self.says self).count (Self.says self).tags values }
    {
        (self.tag_count() <= MAX_TAGS) & (self.few_items() & (values <= MAX_TAG_VALUE_BYTES))
    }

    final fn verdict(self, walk: Walk, held: bool) -> Result<usize, Refusal>
        ensures { result
            ≡ chosen held walk.text (place_in_range Self.kind (Self.says self).lat (Self.says self).lon)
            (few Self.kind (Self.says self).count (Self.says self).tags walk.values) walk.end }
    {
        let inside = self.in_place();
        let few = self.few_parts(walk.values);
        choose(held, walk.text, inside, few, walk.end)
    }
}

impl JudgedHead for CompactNode {
    fn body_end(self, parts: &PartBytes, at: usize) -> Option<usize> {
        Some(at)
    }

    fn in_place(self) -> bool {
        within(self.lat, MAX_LAT7) & within(self.lon, MAX_LON7)
    }

    fn few_items(self) -> bool {
        true
    }
}

impl JudgedHead for CompactWay {
    // Refs are 8 bytes each, whatever they say.
    fn body_end(self, parts: &PartBytes, at: usize) -> Option<usize> {
        let refs = CompactWay::REF_SIZE * (self.ref_count as usize);
        little::end_within(at, refs, parts.bytes.len())
    }

    #[tactic(auto, unfolding(crate::specs::Judge::place_in_range))]
    fn in_place(self) -> bool {
        true
    }

    #[tactic(auto, unfolding(compact::specs::Held::way_head, compact::specs::Held::counts_head))]
    fn few_items(self) -> bool {
        self.ref_count <= MAX_REFS
    }
}

impl JudgedHead for CompactRelation {
    fn body_end(self, parts: &PartBytes, at: usize) -> Option<usize> {
        parts.members_end(at, self.member_count)
    }

    #[tactic(auto, unfolding(crate::specs::Judge::place_in_range))]
    fn in_place(self) -> bool {
        true
    }

    #[tactic(auto, unfolding(compact::specs::Held::relation_head, compact::specs::Held::counts_head))]
    fn few_items(self) -> bool {
        self.member_count <= MAX_MEMBERS
    }
}

// ---- a direct push

// The parts end where the bytes end.
fn parts_fault<H: JudgedHead>(head: H, meta: ArenaMeta, parts: &PartBytes) -> Result<(), Refusal>
    ensures { result ≡ fault_for parts.now.strings (pushed_record H.kind (H.says head) (meta_of meta) parts.now.bytes.now) }
{
    let walk = parts.walk(head, 0).ok_or(Refusal::BadRecord)?;
    let held = legal_meta(meta, parts.strings) & (walk.end == parts.bytes.len());
    head.verdict(walk, held)?;
    Ok(())
}

// The direct push's check.
pub fn record_fault(push: &PushRecord, strings: u64) -> Result<(), Refusal>
    ensures { result ≡ fault_for strings (record_given push.now) }
{
    let parts = PartBytes {
        bytes: push.parts,
        strings,
    };
    match push.kind {
        Kind::Node => parts_fault(CompactNode::from(push.head), push.meta, &parts),
        Kind::Way => parts_fault(CompactWay::from(push.head), push.meta, &parts),
        Kind::Relation => parts_fault(CompactRelation::from(push.head), push.meta, &parts),
    }
}

// ---- records of an arena

impl PartBytes<'_> {
    // Where the legal record ends that the bytes begin with. More may follow it.
    fn front_end<H: JudgedHead>(&self) -> Option<usize>
        ensures { result ≡ record_end self.now.strings H.kind self.now.bytes.now 0 }
    {
        let at = H::parts_at();
        if self.bytes.len() < at {
            return None;
        }
        let head = H::read(self.bytes);
        let meta = compact::read_meta(self.bytes, H::LEN);
        let walk = self.walk(head, at)?;
        head.verdict(walk, legal_meta(meta, self.strings)).ok()
    }

    fn front_end_of(&self, kind: Kind) -> Option<usize>
        ensures { result ≡ record_end self.now.strings kind self.now.bytes.now 0 }
    {
        match kind {
            Kind::Node => self.front_end::<CompactNode>(),
            Kind::Way => self.front_end::<CompactWay>(),
            Kind::Relation => self.front_end::<CompactRelation>(),
        }
    }
}

impl Records<'_> {
    // Where the legal record ends that starts at an offset.
    pub fn end(&self, at: usize) -> Option<usize>
        ensures { result ≡ record_end self.now.strings self.now.kind self.now.bytes.now at }
    {
        if at < self.bytes.len() {
            let rest = PartBytes {
                bytes: &self.bytes[at..],
                strings: self.strings,
            };
            let n = rest.front_end_of(self.kind)?;
            return Some(at + n);
        }
        None
    }
}
