// A record read from its bytes, as a view of it names them: the head, the metadata, and a step over refs, members and tags. No overlay is looked at, so the bytes may be any.
ghost use Rattle.std.specs.Prelude.{◌≡◌};
ghost use Rattle.kind.specs.Kind.{of_number};
ghost use Rattle.compact.specs.Layout.{head_len};
ghost use Rattle.compact.specs.View.{ref_step, member_step, tag_step};
ghost use Rattle.c_replies.specs.Records.{ref_reply, member_reply, tag_reply};
ghost use Rattle.torvaskin.specs.Records.{head_named, meta_named};

use c_replies::{HeadReply, MemberReply, MetaReply, RefReply, TagReply};
use compact::{CompactNode, CompactRelation, CompactWay, RecordHead};
use kind::Kind;
use refusal::Refusal;

// The head of a record of a kind: 17 for a number that means no kind, 22 where bytes are missing, or what it says, in bits.
#[tactic(auto, unfolding(compact::specs::View::node_read, compact::specs::View::way_read, compact::specs::View::relation_read))]
#[unsafe(no_mangle)]
pub extern "C" fn tvk_record_head(kind: u8, bytes: &[u8]) -> HeadReply
    ensures { result ≡ head_named (of_number kind) bytes.now }
{
    match Kind::try_from(kind) {
        Ok(Kind::Node) => HeadReply::from(CompactNode::try_read(bytes)),
        Ok(Kind::Way) => HeadReply::from(CompactWay::try_read(bytes)),
        Ok(Kind::Relation) => HeadReply::from(CompactRelation::try_read(bytes)),
        Err(_) => HeadReply::refused(Refusal::BadRecord),
    }
}

// Where the metadata of a record of a kind begin.
fn meta_offset(kind: Kind) -> usize
    ensures { result ≡ head_len kind }
{
    match kind {
        Kind::Node => CompactNode::META_OFF,
        Kind::Way => CompactWay::META_OFF,
        Kind::Relation => CompactRelation::META_OFF,
    }
}

// Its metadata: 17, 22, or what they say, in bits.
#[unsafe(no_mangle)]
pub extern "C" fn tvk_record_meta(kind: u8, bytes: &[u8]) -> MetaReply
    ensures { result ≡ meta_named (of_number kind) bytes.now }
{
    match Kind::try_from(kind) {
        Ok(kind) => MetaReply::from(compact::try_read_meta(bytes, meta_offset(kind))),
        Err(_) => MetaReply::from(Err(Refusal::BadRecord)),
    }
}

// The ref at an offset: none where none remains, 22 where none stands there.
#[unsafe(no_mangle)]
pub extern "C" fn tvk_record_ref(bytes: &[u8], offset: usize, remaining: u32) -> RefReply
    ensures { result ≡ ref_reply (ref_step bytes.now offset remaining) }
{
    RefReply::from(compact::ref_step(bytes, offset, remaining))
}

// The same for a member.
#[unsafe(no_mangle)]
pub extern "C" fn tvk_record_member(bytes: &[u8], offset: usize, remaining: u32) -> MemberReply
    ensures { result ≡ member_reply (member_step bytes.now offset remaining) }
{
    MemberReply::from(compact::member_step(bytes, offset, remaining))
}

// The same for a tag.
#[unsafe(no_mangle)]
pub extern "C" fn tvk_record_tag(bytes: &[u8], offset: usize, remaining: u32) -> TagReply
    ensures { result ≡ tag_reply (tag_step bytes.now offset remaining) }
{
    TagReply::from(compact::tag_step(bytes, offset, remaining))
}
