// The store's row of the table, over what is lent and with no test of soundness: 13 for a text, 12, 14, 15 for a push, 12, 14 for a delete.
// A caller makes the tests of the rows before it first.
#![tactic(auto)]

ghost use Rattle.std.specs.Prelude.{◌≡◌, ◌+◌, ◌≤◌, ◌<◌};
ghost use Rattle.std.specs.Int.{w64};
ghost use Rattle.std.proofs.Common.{to_z};
ghost use Rattle.model.specs.Record.{claim_of};
ghost use Rattle.compact.specs.Held.{meta_of};
ghost use Rattle.kind_store.specs.KindStore.{pushed, deleted};
ghost use Rattle.interner.specs.Strings.{intern};
ghost use Rattle.interner.specs.Texts.{handle_answered};
ghost use Rattle.text_index.specs.Chained.{StoreChained, ChainsServe};
ghost use Rattle.text_index.specs.Lent.{chains_seen, chains_held, IsSameChains};
ghost use Rattle.overlay.specs.Lent.{overlay_seen, overlay_held, overlay_tabled, IsSameStorage, IsSameTables};
ghost use Rattle.overlay_store.specs.Lent.{kind_store_lent, kind_store_left, setting_in, strings_at, OthersKept};
ghost use Rattle.overlay_store.specs.Calls.{bytes_of, store_push, store_delete, store_text};

use compact::PushRecord;
use interner::StringsMut;
use kind::Kind;
use kind_store::{KindStorageMut, KindStorageTable};
use overlay::{Storage, StorageMut, StorageTables};
use overlay_blocks::{ARENA, COUNTERS, SETTING, STRING_BYTES, STRINGS, Sizes};
use refusal::Refusal;
use text_index::{Chains, ChainsMut, HANDLES};

// ---- a text

// Takes a text in among the strings, and counts it. A function of its own, since the check covers no struct of two `&mut` slices of one struct's fields.
fn intern_in(
    chains: &Chains<'_>,
    spans: &mut [u64],
    bytes: &mut [u8],
    counters: &mut [u64; COUNTERS],
    text: &[u8],
) -> Option<u64>
    ensures others { OthersKept STRINGS STRING_BYTES counters.old counters.new }
    ensures store { ChainsServe (chains_seen chains.now) (strings_at spans.old bytes.old counters.old) → strings_at spans.new bytes.new counters.new
        ≡ (intern (strings_at spans.old bytes.old counters.old) text.now).store }
    ensures handle { ChainsServe (chains_seen chains.now) (strings_at spans.old bytes.old counters.old) → result
        ≡ handle_answered (intern (strings_at spans.old bytes.old counters.old) text.now).answer }
{
    let mut strings = StringsMut {
        spans,
        bytes,
        count: counters[STRINGS],
        used: counters[STRING_BYTES],
    };
    let handle = chains.intern(&mut strings, text);
    counters[STRINGS] = strings.count;
    counters[STRING_BYTES] = strings.used;
    handle
}

// Takes a text in: 13, or its handle. Chains of handles find it among the held ones; where none are kept, empty ones serve.
pub fn intern(
    storage: &mut StorageMut<'_>,
    chains: &Chains<'_>,
    text: &[u8],
) -> Result<u64, Refusal>
    ensures same { IsSameStorage storage.new storage.old }
    ensures done { ChainsServe (chains_seen chains.now) (overlay_held storage.old).texts
        → record { overlay = overlay_held storage.new; answer = result } ≡ store_text text.now (overlay_held storage.old) }
{
    let t = Sizes::from(&*storage.counters).texts(storage.words.len(), storage.bytes.len());
    let handle = intern_in(
        chains,
        &mut storage.words[t.spans..],
        &mut storage.bytes[t.bytes..],
        storage.counters,
        text,
    );
    handle.ok_or(Refusal::StringsFull)
}

// The same where no chains are kept: the held texts are searched one by one.
pub fn store_text(storage: &mut StorageMut<'_>, text: &[u8]) -> Result<u64, Refusal>
    ensures same { IsSameStorage storage.new storage.old }
    ensures done { record { overlay = overlay_held storage.new; answer = result } ≡ store_text text.now (overlay_held storage.old) }
{
    intern(storage, &Chains::none(), text)
}

// What that would answer, with nothing taken in: 13, or the handle that the text has or would get.
pub fn handle(storage: &Storage<'_>, chains: &Chains<'_>, text: &[u8]) -> Result<u64, Refusal>
    ensures { ChainsServe (chains_seen chains.now) (overlay_seen storage.now).texts → result ≡ (store_text text.now (overlay_seen storage.now)).answer }
{
    chains
        .answer(&storage.strings(), text)
        .ok_or(Refusal::StringsFull)
}

// Brings chains up to date with the held texts.
pub fn chain_texts(chains: &mut ChainsMut<'_>, storage: &Storage<'_>)
    ensures same { IsSameChains chains.new chains.old }
    ensures chains { StoreChained (chains_held chains.old) (overlay_seen storage.now).texts → StoreChained (chains_held chains.new) (overlay_seen storage.now).texts }
    ensures few { chains.old.handles ≤ HANDLES → chains.new.handles ≤ HANDLES }
{
    if (chains.handles as u64) < storage.counters[STRINGS] {
        chains.index(&storage.strings());
    }
}

// ---- an act on one kind

// A push on the kind whose counters stand at `at` and three behind it: two words of the one array that C lends, so that no slice has just these. A function of its own for the same reason as
// `intern_in`.
fn push_in(
    at: usize,
    table: &mut [u64],
    arena: &mut [u8],
    counters: &mut [u64; COUNTERS],
    push: &PushRecord<'_>,
) -> Result<(), Refusal>
    requires { at < 3 }
    ensures { (record { kind_store = kind_store_left at table.new arena.new counters.new; answer = result }
        ≡ pushed push.now.kind (setting_in counters.old) (kind_store_lent at table.old arena.old counters.old) (to_z w64 push.now.head.id) (claim_of (meta_of push.now.meta)) (bytes_of push.now.kind push.now.head push.now.meta push.now.parts.now))
        × OthersKept at (at + ARENA) counters.old counters.new }
{
    let setting = counters[SETTING];
    let mut part = KindStorageMut {
        kind: push.kind,
        table,
        ids: counters[at],
        arena,
        used: counters[at + ARENA],
    };
    let answer = part.push(setting.into(), push);
    counters[at] = part.ids;
    counters[at + ARENA] = part.used;
    answer
}

// A push whose record is legal: 12, 14, 15, or taken.
pub fn push(storage: &mut StorageMut<'_>, push: &PushRecord<'_>) -> Result<(), Refusal>
    ensures same { IsSameStorage storage.new storage.old }
    ensures done { record { overlay = overlay_held storage.new; answer = result }
        ≡ store_push push.now.kind push.now.head push.now.meta push.now.parts.now (overlay_held storage.old) }
{
    let p = Sizes::from(&*storage.counters).part(
        push.kind,
        storage.words.len(),
        storage.bytes.len(),
    );
    push_in(
        p.at,
        &mut storage.words[p.from..p.to],
        &mut storage.bytes[p.first..p.end],
        storage.counters,
        push,
    )
}

// A delete on the kind whose counters stand at `at` and three behind it. The place and a function of its own for the same reasons as in `push_in`.
fn delete_in(
    at: usize,
    kind: Kind,
    table: &mut [u64],
    arena: &[u8],
    counters: &mut [u64; COUNTERS],
    id: u64,
    claim: Option<i32>,
) -> Result<(), Refusal>
    requires { at < 3 }
    ensures { (record { kind_store = kind_store_left at table.new arena.now counters.new; answer = result }
        ≡ deleted kind (setting_in counters.old) (kind_store_lent at table.old arena.now counters.old) (to_z w64 id) claim)
        × OthersKept at (at + ARENA) counters.old counters.new }
{
    let setting = counters[SETTING];
    let mut part = KindStorageTable {
        kind,
        table,
        ids: counters[at],
        arena,
        used: counters[at + ARENA],
    };
    let answer = part.delete(setting.into(), id, claim);
    counters[at] = part.ids;
    counters[at + ARENA] = part.used;
    answer
}

// A delete whose metadata is legal: 12, 14, or taken. Kind, id and claim go one by one, as C gives them.
pub fn delete(
    tables: &mut StorageTables<'_>,
    kind: Kind,
    id: u64,
    claim: Option<i32>,
) -> Result<(), Refusal>
    ensures same { IsSameTables tables.new tables.old }
    ensures done { record { overlay = overlay_tabled tables.new; answer = result } ≡ store_delete kind (to_z w64 id) claim (overlay_tabled tables.old) }
{
    let p = Sizes::from(&*tables.counters).part(kind, tables.words.len(), tables.bytes.len());
    delete_in(
        p.at,
        kind,
        &mut tables.words[p.from..p.to],
        &tables.bytes[p.first..p.end],
        tables.counters,
        id,
        claim,
    )
}
