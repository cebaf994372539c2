// Appends to an arena (compact.rs): a record's head, its metadata and its parts, written into the unused bytes.
#![tactic(auto)]

ghost use Rattle.std.specs.Prelude.{◌≡◌, ◌≤◌, ◌+◌, length};
ghost use Rattle.kind.specs.declared.Kind.TheVariants.{Way};
ghost use Rattle.little.specs.Little.{over};
ghost use Rattle.compact.specs.Layout.{meta_bytes, head_bytes, head_len};
ghost use Rattle.compact.specs.Held.{meta_of, counts_head};
ghost use Rattle.compact.specs.Push.{bytes_given};
ghost use Rattle.compact_append.specs.Append.{record_written, append};

use compact::{ArenaMeta, CompactNode, CompactRelation, CompactWay, PushRecord, RecordHead};
use kind::Kind;

// ---- field writers: each is lent the arena from its place on

fn put_meta(out: &mut [u8], meta: ArenaMeta)
    ensures { out.new ≡ over out.old 0 (meta_bytes (meta_of meta)) }
{
    little::put_at(out, 0, 1, meta.flags as u64);
    little::put_at(out, 1, 4, meta.version as u64);
    little::put_at(out, 5, 8, meta.timestamp);
    little::put_at(out, 13, 8, meta.changeset);
    little::put_at(out, 21, 4, meta.uid as u64);
    little::put_at(out, 25, 4, meta.user as u64);
}

// The head of a way or a relation: an id and two counts.
fn put_counts(out: &mut [u8], id: u64, count: u32, tags: u32)
    ensures { out.new ≡ over out.old 0 (head_bytes Way (counts_head id count tags)) }
{
    little::put_at(out, 0, 8, id);
    little::put_at(out, 8, 4, count as u64);
    little::put_at(out, 12, 4, tags as u64);
}

// A head as it is written.
pub trait WrittenHead: RecordHead {
    fn put(self, out: &mut [u8])
        ensures { out.new ≡ over out.old 0 (head_bytes Self.kind (Self.says self)) };
}

impl WrittenHead for CompactNode {
    fn put(self, out: &mut [u8]) {
        little::put_at(out, 0, 8, self.id);
        little::put_at(out, 8, 4, self.lat as u64);
        little::put_at(out, 12, 4, self.lon as u64);
        little::put_at(out, 16, 4, self.tag_count as u64);
    }
}

impl WrittenHead for CompactWay {
    #[tactic(auto, unfolding(compact::specs::Held::way_head))]
    fn put(self, out: &mut [u8]) {
        put_counts(out, self.id, self.ref_count, self.tag_count);
    }
}

impl WrittenHead for CompactRelation {
    #[tactic(auto, unfolding(compact::specs::Held::relation_head, compact::specs::Layout::head_bytes))]
    fn put(self, out: &mut [u8]) {
        put_counts(out, self.id, self.member_count, self.tag_count);
    }
}

fn put_record<H: WrittenHead>(out: &mut [u8], head: H, meta: ArenaMeta, parts: &[u8])
    requires { head_len H.kind + 29 ≤ length out.old }
    ensures { out.new ≡ over out.old 0 (record_written H.kind (H.says head) (meta_of meta) parts.now) }
{
    head.put(out);
    put_meta(&mut out[H::LEN..], meta);
    little::copy_in(&mut out[H::parts_at()..], parts);
}

// ---- appends: the parts are refs or members and then tags, laid out as in a record

// Where the record ends that was appended, or none where it has no room. The arena and its used count come apart: the one caller would
// make a struct of both for this call, and take the count back.
pub fn append<H: WrittenHead>(
    arena: &mut [u8],
    used: usize,
    head: H,
    meta: ArenaMeta,
    parts: &[u8],
) -> Option<usize>
    ensures { record { arena = arena.new; answer = result } ≡ append arena.old used (record_written H.kind (H.says head) (meta_of meta) parts.now) }
{
    let end = little::end_within(used, H::parts_at() + parts.len(), arena.len())?;
    put_record(&mut arena[used..], head, meta, parts);
    Some(end)
}

// The same of a record of any kind.
pub fn append_record(arena: &mut [u8], used: usize, push: &PushRecord) -> Option<usize>
    ensures { record { arena = arena.new; answer = result } ≡ append arena.old used (bytes_given push.now) }
{
    match push.kind {
        Kind::Node => append(
            arena,
            used,
            CompactNode::from(push.head),
            push.meta,
            push.parts,
        ),
        Kind::Way => append(
            arena,
            used,
            CompactWay::from(push.head),
            push.meta,
            push.parts,
        ),
        Kind::Relation => append(
            arena,
            used,
            CompactRelation::from(push.head),
            push.meta,
            push.parts,
        ),
    }
}
