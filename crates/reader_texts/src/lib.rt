// A text that stands in an event's line as a value with its escapes: taken in, or only asked for. A value without an escape is the text. Of another an array holds the text: a
// line has at most 16,384 bytes. A value of any length may be given; the text is promised of one that is no longer than a line may be.
#![tactic(auto)]

ghost use Rattle.std.specs.Prelude.{◌≡◌, ◌≤◌, length};
ghost use Rattle.event_scan.specs.Fields.{text_written};
ghost use Rattle.text_index.specs.Chained.{ChainsServe};
ghost use Rattle.text_index.specs.Lent.{chains_seen};
ghost use Rattle.overlay.specs.Lent.{overlay_seen, overlay_held, IsSameStorage};
ghost use Rattle.overlay_store.specs.Calls.{store_text};

use event_scan::MAX_LINE;
use event_scan::fields::Value;
use overlay::{Storage, StorageMut};
use refusal::Refusal;
use text_index::Chains;

// The text that a value writes, its escapes resolved, in an array that holds it: empty where it has another escape. The library has no heap.
pub fn resolved<'a, const N: usize>(room: &'a mut [u8; MAX_LINE], value: &Value<'_, N>) -> &'a [u8]
    ensures { length value.now.bytes.now ≤ MAX_LINE → result.now ≡ text_written value.now }
{
    let n = event_scan::unescape_into(room, value.bytes);
    let end = n.min(MAX_LINE);
    &room[..end]
}

// ---- a text taken in

// One with an escape. It and `handle_resolved` differ by what is done with the text: a closure was tried, and what it leaves of the storage that it captures is not known behind it.
// It is not inlined, nor is `handle_resolved`, so that a text without an escape makes no room for the array.
#[inline(never)]
fn take_resolved<const N: usize>(
    storage: &mut StorageMut<'_>,
    chains: &Chains<'_>,
    value: &Value<'_, N>,
) -> Result<u64, Refusal>
    ensures same { IsSameStorage storage.new storage.old }
    ensures taken { length value.now.bytes.now ≤ MAX_LINE → ChainsServe (chains_seen chains.now) (overlay_held storage.old).texts
        → record { overlay = overlay_held storage.new; answer = result } ≡ store_text (text_written value.now) (overlay_held storage.old) }
{
    let mut room = [0u8; MAX_LINE];
    let text = resolved(&mut room, value);
    overlay_store::intern(storage, chains, text)
}

// Takes the text of a value in: 13, or its handle. Chains of handles find it among the held texts; where none are kept, empty ones serve.
pub fn take_text<const N: usize>(
    storage: &mut StorageMut<'_>,
    chains: &Chains<'_>,
    value: &Value<'_, N>,
) -> Result<u64, Refusal>
    ensures same { IsSameStorage storage.new storage.old }
    ensures taken { length value.now.bytes.now ≤ MAX_LINE → ChainsServe (chains_seen chains.now) (overlay_held storage.old).texts
        → record { overlay = overlay_held storage.new; answer = result } ≡ store_text (text_written value.now) (overlay_held storage.old) }
{
    if event_scan::lacks(value.bytes, b'\\') {
        return overlay_store::intern(storage, chains, value.bytes);
    }
    take_resolved(storage, chains, value)
}

// ---- a text only asked for

// One with an escape.
#[inline(never)]
fn handle_resolved<const N: usize>(
    storage: &Storage<'_>,
    chains: &Chains<'_>,
    value: &Value<'_, N>,
) -> Result<u64, Refusal>
    ensures { length value.now.bytes.now ≤ MAX_LINE → ChainsServe (chains_seen chains.now) (overlay_seen storage.now).texts
        → result ≡ (store_text (text_written value.now) (overlay_seen storage.now)).answer }
{
    let mut room = [0u8; MAX_LINE];
    let text = resolved(&mut room, value);
    overlay_store::handle(storage, chains, text)
}

// What the text of a value would be answered, with nothing taken in: 13, or the handle that it has or would get.
pub fn text_handle<const N: usize>(
    storage: &Storage<'_>,
    chains: &Chains<'_>,
    value: &Value<'_, N>,
) -> Result<u64, Refusal>
    ensures { length value.now.bytes.now ≤ MAX_LINE → ChainsServe (chains_seen chains.now) (overlay_seen storage.now).texts
        → result ≡ (store_text (text_written value.now) (overlay_seen storage.now)).answer }
{
    if event_scan::lacks(value.bytes, b'\\') {
        return overlay_store::handle(storage, chains, value.bytes);
    }
    handle_resolved(storage, chains, value)
}
