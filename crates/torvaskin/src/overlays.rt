// An overlay: set-up, soundness, the regression setting, intern of one text and of many, direct push and direct delete. Signed numbers in a head and in metadata cross as their bits, which is how C
// and Rust hold them.
ghost use Rattle.std.specs.Prelude.{◌≡◌};
ghost use Rattle.compact.specs.Held.{meta_of};
ghost use Rattle.overlay.specs.Lent.{lent, left, lent_for, left_for};
ghost use Rattle.overlay.specs.Lent.{overlay_seen};
ghost use Rattle.overlay.specs.Sound.{is_sound};
ghost use Rattle.kind.specs.Kind.{of_number};
ghost use Rattle.c_replies.specs.Overlays.{sound_reply};
ghost use Rattle.torvaskin.specs.Overlays.{kind_answer, set_up_reply, allow_reply, intern_reply, intern_texts_reply, push_reply, delete_reply};

use c_replies::{Text, TextsReply};
use compact::{ArenaMeta, PushHead, PushRecord};
use kind::Kind;
use overlay::{Storage, StorageMut, StorageTables};
use overlay_blocks::{COUNTERS, Sizes};
use overlay_texts::JoinedTexts;
use refusal::{Refusal, Reply};

// 1 for a size outside, or sizes that are not those of the blocks, else an empty overlay. Setting 0 refuses regression, any other allows it.
#[tactic(auto, using(crate::proofs::OverlayReplies::replied_is), unfolding(crate::specs::Overlays::set_up_reply))]
#[unsafe(no_mangle)]
pub extern "C" fn tvk_set_up(
    words: &mut [u64],
    bytes: &[u8],
    counters: &mut [u64; COUNTERS],
    sizes: Sizes,
    setting: u64,
) -> Reply
    ensures { record { overlay = left_for sizes words.new bytes.now counters.new; reply = result }
        ≡ set_up_reply sizes setting (lent_for sizes words.old bytes.now counters.old) }
{
    let mut tables = StorageTables {
        words,
        bytes,
        counters,
    };
    c_replies::kept_reply(tables.set_up(sizes, setting))
}

// 22 for an unsound overlay, else 0.
#[unsafe(no_mangle)]
pub extern "C" fn tvk_is_sound(words: &[u64], bytes: &[u8], counters: &[u64; COUNTERS]) -> Reply
    ensures { result ≡ sound_reply (is_sound (lent words.now bytes.now counters.now)) }
{
    let storage = Storage {
        words,
        bytes,
        counters,
    };
    c_replies::kept_reply(storage.check_sound())
}

// The kind that a number means; or 22, else 17.
pub fn named_kind(storage: &Storage<'_>, kind: u8) -> Result<Kind, Refusal>
    ensures { result ≡ kind_answer (of_number kind) (overlay_seen storage.now) }
{
    let refusal = |_| c_replies::unknown_kind(storage.is_sound());
    Kind::try_from(kind).map_err(refusal)
}

// Sets the regression setting: 0 refuses regression, any other number allows it.
#[unsafe(no_mangle)]
pub extern "C" fn tvk_allow_version_regression(
    words: &[u64],
    bytes: &[u8],
    counters: &mut [u64; COUNTERS],
    setting: u64,
) -> Reply
    ensures { record { overlay = left words.now bytes.now counters.new; reply = result }
        ≡ allow_reply setting (lent words.now bytes.now counters.old) }
{
    c_replies::kept_reply(overlay::allow_version_regression(words, bytes, counters, setting))
}

// Takes a text in: 22, 3, 13, or its handle.
#[tactic(auto, using(crate::proofs::OverlayReplies::interned_is), unfolding(crate::specs::Overlays::intern_reply))]
#[unsafe(no_mangle)]
pub extern "C" fn tvk_intern(
    words: &mut [u64],
    bytes: &mut [u8],
    counters: &mut [u64; COUNTERS],
    text: &[u8],
) -> Text
    ensures { record { overlay = left words.new bytes.new counters.new; reply = result }
        ≡ intern_reply text.now (lent words.old bytes.old counters.old) }
{
    let mut storage = StorageMut {
        words,
        bytes,
        counters,
    };
    Text::from(overlay_direct::intern(&mut storage, text))
}

// Takes many texts in, which lie end to end: 22; 17 where their lengths do not add up to the bytes; 19 where the list is shorter than the texts are many; then 3 or 13 of the first text that is
// refused. Those before it are taken in, and their handles stand at the start of the list.
#[tactic(auto, using(crate::proofs::OverlayReplies::all_interned_is), unfolding(crate::specs::Overlays::intern_texts_reply))]
#[unsafe(no_mangle)]
pub extern "C" fn tvk_intern_texts(
    words: &mut [u64],
    bytes: &mut [u8],
    counters: &mut [u64; COUNTERS],
    texts: &[u8],
    lengths: &[usize],
    handles: &mut [u64],
) -> TextsReply
    ensures { record { overlay = left words.new bytes.new counters.new; handles = handles.new; reply = result }
        ≡ intern_texts_reply lengths.now texts.now handles.old (lent words.old bytes.old counters.old) }
{
    let mut storage = StorageMut {
        words,
        bytes,
        counters,
    };
    let joined = JoinedTexts {
        bytes: texts,
        lengths,
    };
    let done = overlay_texts::intern_texts(&mut storage, &joined, handles);
    c_replies::texts_reply(done.answer, done.taken)
}

// A direct push of a node (kind 0), way (1) or relation (2).
#[tactic(auto, using(crate::proofs::OverlayReplies::replied_is, crate::proofs::OverlayReplies::kind_told, crate::proofs::OverlayReplies::kind_untold, crate::proofs::OverlayReplies::unknown_is), unfolding(crate::specs::Overlays::push_reply))]
#[unsafe(no_mangle)]
pub extern "C" fn tvk_push(
    words: &mut [u64],
    bytes: &mut [u8],
    counters: &mut [u64; COUNTERS],
    kind: u8,
    head: PushHead,
    meta: ArenaMeta,
    parts: &[u8],
) -> Reply
    ensures { record { overlay = left words.new bytes.new counters.new; reply = result }
        ≡ push_reply kind head meta parts.now (lent words.old bytes.old counters.old) }
{
    let mut storage = StorageMut {
        words,
        bytes,
        counters,
    };
    match named_kind(&storage.storage(), kind) {
        Ok(kind) => {
            let push = PushRecord {
                kind,
                head,
                meta,
                parts,
            };
            c_replies::kept_reply(overlay_direct::push(&mut storage, &push))
        }
        Err(refusal) => Reply::from(refusal),
    }
}

// A direct delete.
#[tactic(auto, using(crate::proofs::OverlayReplies::replied_is, crate::proofs::OverlayReplies::kind_told, crate::proofs::OverlayReplies::kind_untold, crate::proofs::OverlayReplies::unknown_is, signed::proofs::Bits::bits_back), unfolding(crate::specs::Overlays::delete_reply))]
#[unsafe(no_mangle)]
pub extern "C" fn tvk_delete(
    words: &mut [u64],
    bytes: &[u8],
    counters: &mut [u64; COUNTERS],
    kind: u8,
    id: i64,
    meta: ArenaMeta,
) -> Reply
    ensures { record { overlay = left words.new bytes.now counters.new; reply = result }
        ≡ delete_reply kind id (meta_of meta) (lent words.old bytes.now counters.old) }
{
    let mut tables = StorageTables {
        words,
        bytes,
        counters,
    };
    let bits = id.cast_unsigned();
    match named_kind(&tables.storage(), kind) {
        Ok(k) => c_replies::kept_reply(overlay_direct::delete(&mut tables, k, bits, meta)),
        Err(refusal) => Reply::from(refusal),
    }
}
