// Children of the element that a reader is putting together: one tag, ref or member more. A refused child changes nothing, so the limits are asked before a text is taken in.
// A text of any length may be given; a child is promised where its texts are no longer than a line may be.
#![tactic(auto)]

ghost use Rattle.std.specs.Prelude.{◌≡◌, ◌+◌, ◌++◌, ◌≤◌, ◌<◌, length, max};
ghost use Rattle.std.specs.Int.{w64};
ghost use Rattle.std.proofs.Common.{to_z};
ghost use Rattle.event_scan.specs.Fields.{text_written};
ghost use Rattle.event_decision.specs.Decision.{tags, refers, joins};
ghost use Rattle.text_index.specs.Chained.{ChainsServe};
ghost use Rattle.text_index.specs.Lent.{chains_seen};
ghost use Rattle.overlay.specs.Overlay.{Overlay};
ghost use Rattle.overlay.specs.Lent.{overlay_seen};
ghost use Rattle.overlay_store.specs.Calls.{store_text};
ghost use Rattle.reader.specs.Lent.{state_held, IsSameState};
ghost use Rattle.reader.specs.State.{middle, values_in, more_parts};
ghost use Rattle.reader.specs.Done.{Works};
ghost use Rattle.reader_stage.specs.Stage.{staged};
ghost use Rattle.reader_parts.specs.Parts.{StepGiven, tag_fits, part_fits, refusal_over, pending_with, with_overlay, child_worked, add_tag, add_ref};

use compact::{CompactMember, CompactRelation, CompactWay, PushHead};
use event_scan::MAX_LINE;
use event_scan::fields::Value;
use kind::Kind;
use model::{MAX_MEMBERS, MAX_REFS, MAX_TAG_VALUE_BYTES, MAX_TAGS};
use overlay::{Storage, StorageMut};
use reader::{Pending, ReaderState};
use reader_stage::{STAGED, Staged};
use refusal::Refusal;
use text_index::Chains;

// ---- the limits: 16

// How many bytes the refs or members take. It is no method of the heads: the kind is a value here, so a match as long as this one would have to pick the head's type.
fn middle_size(kind: Kind, count: u32) -> usize
    ensures { result ≡ middle kind count }
{
    match kind {
        Kind::Node => 0,
        Kind::Way => CompactWay::REF_SIZE * count as usize,
        Kind::Relation => CompactRelation::MEMBER_SIZE * count as usize,
    }
}

// How many the tag values take.
fn values_size(kind: Kind, head: PushHead, used: usize) -> usize
    ensures { result ≡ values_in kind head used }
{
    let before = middle_size(kind, head.count) + 8 * head.tags as usize;
    if before < used { used - before } else { 0 }
}

// Whether one tag more, with so many value bytes, is within the limits.
fn tag_fits(kind: Kind, pending: Pending, len: usize) -> bool
    ensures { result ≡ tag_fits kind pending len }
{
    let head = pending.head;
    if head.tags < MAX_TAGS {
        let held = values_size(kind, head, pending.used);
        if held <= MAX_TAG_VALUE_BYTES {
            return len <= MAX_TAG_VALUE_BYTES - held;
        }
        return false;
    }
    false
}

// Whether one ref or member more is.
fn part_fits(pending: Pending, limit: u32) -> bool
    ensures { result ≡ part_fits pending limit }
{
    let head = pending.head;
    head.count < limit
}

// What a child with a text is answered that is not within them: 13 if its text would be refused, else 16.
fn over_limit<const N: usize>(
    storage: &Storage<'_>,
    chains: &Chains<'_>,
    text: &Value<'_, N>,
) -> Result<(), Refusal>
    ensures { length text.now.bytes.now ≤ MAX_LINE → ChainsServe (chains_seen chains.now) (overlay_seen storage.now).texts
        → result ≡ Err (refusal_over (store_text (text_written text.now) (overlay_seen storage.now)).answer) }
{
    reader_texts::text_handle(storage, chains, text)?;
    Err(Refusal::TooManyParts)
}

// ---- a part staged

// The element with a part more, by its head then: the part's numbers, and the bytes of a value behind them, put in at a place as `Vec::insert` does.
fn stage_part(
    parts: &mut [u8; STAGED],
    pending: Pending,
    head: PushHead,
    at: usize,
    numbers: &[u8],
    value: &[u8],
) -> Pending
    requires { (length numbers.now ≤ 13) × (length value.now ≤ MAX_TAG_VALUE_BYTES) }
    ensures parts { parts.new ≡ staged parts.old pending.used at (numbers.now ++ value.now) }
    ensures pending { pending.used ≤ length parts.old → result ≡ pending_with head (numbers.now ++ value.now) pending }
{
    let mut staged = Staged {
        parts: &mut parts[..],
        used: pending.used,
    };
    staged.insert(at, numbers, value);
    Pending {
        head,
        meta: pending.meta,
        used: staged.used,
    }
}

// A ref or a member more, by its bytes: they lie behind those before it.
fn stage_middle(parts: &mut [u8; STAGED], kind: Kind, pending: Pending, part: &[u8]) -> Pending
    requires { (pending.head.count < max MAX_REFS MAX_MEMBERS) × (length part.now ≤ 13) }
    ensures parts { parts.new ≡ staged parts.old pending.used (middle kind pending.head.count) part.now }
    ensures pending { pending.used ≤ length parts.old → result ≡ pending_with (more_parts pending.head) part.now pending }
{
    let at = middle_size(kind, pending.head.count);
    let head = PushHead {
        count: pending.head.count + 1,
        ..pending.head
    };
    stage_part(parts, pending, head, at, part, &[])
}

// ---- a child with a text

// Takes its text in: 13, or its handle.
fn take_text<const N: usize>(
    state: &mut ReaderState<'_>,
    chains: &Chains<'_>,
    text: &Value<'_, N>,
) -> Result<u64, Refusal>
    ensures same { IsSameState state.new state.old }
    ensures rest { state_held state.new ≡ with_overlay (state_held state.new).overlay (state_held state.old) }
    ensures taken { length text.now.bytes.now ≤ MAX_LINE → ChainsServe (chains_seen chains.now) (state_held state.old).overlay.texts
        → record { overlay = (state_held state.new).overlay; answer = result } ≡ store_text (text_written text.now) (state_held state.old).overlay }
{
    let mut storage = StorageMut {
        words: state.words,
        bytes: state.bytes,
        counters: state.counters,
    };
    reader_texts::take_text(&mut storage, chains, text)
}

// The same, its handle in 32 bits: sound storage has no handle that they do not hold.
fn take_handle<const N: usize>(
    state: &mut ReaderState<'_>,
    chains: &Chains<'_>,
    text: &Value<'_, N>,
) -> Result<u32, Refusal>
    ensures same { IsSameState state.new state.old }
    ensures rest { state_held state.new ≡ with_overlay (state_held state.new).overlay (state_held state.old) }
    ensures taken { length text.now.bytes.now ≤ MAX_LINE → StepGiven (chains_seen chains.now) (state_held state.old)
        → record { overlay = (state_held state.new).overlay; answer = result } ≡ store_text (text_written text.now) (state_held state.old).overlay }
{
    let handle = take_text(state, chains, text)?;
    u32::try_from(handle).or(Err(Refusal::StringsFull))
}

// A tag by its value's text.
fn tag_with<const N: usize>(
    state: &mut ReaderState<'_>,
    chains: &Chains<'_>,
    key: &Value<'_, N>,
    value: &[u8],
) -> Result<(), Refusal>
    ensures same { IsSameState state.new state.old }
    ensures place { state.new.reader.place ≡ state.old.reader.place }
    ensures worked { length key.now.bytes.now ≤ MAX_LINE → StepGiven (chains_seen chains.now) (state_held state.old)
        → record { state = state_held state.new; answer = result } ≡ child_worked (state_held state.old)
        (add_tag state.old.reader.place.kind state.old.reader.pending (record { key = text_written key.now; value = value.now })
        state.old.parts.now (state_held state.old).overlay) }
{
    let pending = state.reader.pending;
    if tag_fits(state.reader.place.kind, pending, value.len()) {
        let handle = take_handle(state, chains, key)?;
        let head = PushHead {
            tags: pending.head.tags + 1,
            ..pending.head
        };
        let numbers = reader_stage::tag_bytes(handle, value.len());
        state.reader.pending = stage_part(
            state.parts,
            pending,
            head,
            pending.used,
            &numbers,
            value,
        );
        return Ok(());
    }
    over_limit(&state.view().storage(), chains, key)
}

// With its value's escapes resolved: an array holds the text. The library has no heap. It is not inlined, so that a tag without an escape makes no room for the array.
#[inline(never)]
fn tag_resolved<const N: usize>(
    state: &mut ReaderState<'_>,
    chains: &Chains<'_>,
    key: &Value<'_, N>,
    value: &Value<'_, N>,
) -> Result<(), Refusal>
    ensures same { IsSameState state.new state.old }
    ensures place { state.new.reader.place ≡ state.old.reader.place }
    ensures worked { length key.now.bytes.now ≤ MAX_LINE → length value.now.bytes.now ≤ MAX_LINE → StepGiven (chains_seen chains.now) (state_held state.old)
        → record { state = state_held state.new; answer = result } ≡ child_worked (state_held state.old)
        (add_tag state.old.reader.place.kind state.old.reader.pending (record { key = text_written key.now; value = text_written value.now })
        state.old.parts.now (state_held state.old).overlay) }
{
    let mut room = [0u8; MAX_LINE];
    let text = reader_texts::resolved(&mut room, value);
    tag_with(state, chains, key, text)
}

// A tag more, its key and its value as they are written: 13 of its key, 16, or the tag staged.
pub fn add_tag<const N: usize>(
    state: &mut ReaderState<'_>,
    chains: &Chains<'_>,
    key: &Value<'_, N>,
    value: &Value<'_, N>,
) -> Result<(), Refusal>
    ensures same { IsSameState state.new state.old }
    ensures place { state.new.reader.place ≡ state.old.reader.place }
    ensures works { length key.now.bytes.now ≤ MAX_LINE → length value.now.bytes.now ≤ MAX_LINE → StepGiven (chains_seen chains.now) (state_held state.old)
        → Works (λ p. tags p (record { key = text_written key.now; value = text_written value.now })) (state_held state.old)
        (record { state = state_held state.new; answer = result }) }
{
    if event_scan::lacks(value.bytes, b'\\') {
        return tag_with(state, chains, key, value.bytes);
    }
    tag_resolved(state, chains, key, value)
}

// ---- a ref and a member

// A ref more: 16, or the ref staged.
pub fn add_ref(
    parts: &mut [u8; STAGED],
    kind: Kind,
    pending: Pending,
    reference: u64,
) -> Result<Pending, Refusal>
    ensures { (o : Overlay) → pending.used ≤ length parts.old
        → record { overlay = o; parts = parts.new; answer = result } ≡ add_ref kind pending (to_z w64 reference) parts.old o }
{
    if part_fits(pending, MAX_REFS) {
        return Ok(stage_middle(parts, kind, pending, &reader_stage::ref_bytes(reference)));
    }
    Err(Refusal::TooManyParts)
}

// A member more, its role as it is written: 13 of its role, 16, or the member staged.
pub fn add_member<const N: usize>(
    state: &mut ReaderState<'_>,
    chains: &Chains<'_>,
    reference: u64,
    kind: Kind,
    role: &Value<'_, N>,
) -> Result<(), Refusal>
    ensures same { IsSameState state.new state.old }
    ensures place { state.new.reader.place ≡ state.old.reader.place }
    ensures works { length role.now.bytes.now ≤ MAX_LINE → StepGiven (chains_seen chains.now) (state_held state.old)
        → Works (λ p. joins p (record { ref = to_z w64 reference; type = kind; role = text_written role.now })) (state_held state.old)
        (record { state = state_held state.new; answer = result }) }
{
    let reader = state.reader;
    if part_fits(reader.pending, MAX_MEMBERS) {
        let role = take_handle(state, chains, role)?;
        let member = CompactMember {
            reference,
            kind: u8::from(kind),
            role,
        };
        let part = reader_stage::member_bytes(member);
        state.reader.pending = stage_middle(state.parts, reader.place.kind, reader.pending, &part);
        return Ok(());
    }
    over_limit(&state.view().storage(), chains, role)
}
