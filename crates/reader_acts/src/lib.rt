// The acts of an event, over what is lent: an element that begins, the push of an empty element or of one whose parts are staged, a delete.
// What is refused changes nothing lent: the handle that the user's text has or will get is found first, the act is done with it, and the text is taken in behind an act that was taken.
#![tactic(auto)]

ghost use Rattle.std.specs.Prelude.{◌≡◌, ◌<◌, ℕ, Option, is_some, unwrap_or, IfOk};
ghost use Rattle.std.specs.Int.{w64};
ghost use Rattle.std.proofs.Common.{to_z};
ghost use Rattle.base.specs.Bytes.{Bytes};
ghost use Rattle.model.specs.Record.{claim_of};
ghost use Rattle.compact.specs.Held.{meta_of};
ghost use Rattle.overlay.specs.Lent.{overlay_in, overlay_seen, overlay_held, IsSameStorage};
ghost use Rattle.text_index.specs.Chained.{ChainsServe};
ghost use Rattle.text_index.specs.Lent.{chains_seen};
ghost use Rattle.overlay_store.specs.Calls.{store_delete};
ghost use Rattle.event_values.specs.Value.{body_in};
ghost use Rattle.reader.specs.Step.{bits_with_user, head_for};
ghost use Rattle.reader_acts.specs.Acts.{claim_answer, begin_on, handle_for, with_user, push_empty_on, delete_element_on, push_staged_on, handle_or_zero, first_refusal, before_act, meta_named, act_means, ActGiven, UserIs, UserShort};

use compact::{ArenaMeta, PushHead, PushRecord};
use event_scan::fields::Value;
use event_values::Coordinates;
use kind::Kind;
use kind_store::VersionRegression;
use overlay::{Storage, StorageMut, StorageTables};
use overlay_blocks::{COUNTERS, SETTING, STRINGS};
use reader::Pending;
use reader_stage::STAGED;
use refusal::Refusal;
use text_index::Chains;

// An act on an element: its kind and id, its metadata in bits, but for its user, and the text of the user that it names, as it is written. It may have any length; what is promised
// of an act that names a user is promised of one whose text is no longer than a line may be.
#[derive(Clone, Copy)]
pub struct Act<'a, const N: usize> {
    pub kind: Kind,
    pub id: u64,
    pub meta: ArenaMeta,
    pub user: Option<Value<'a, N>>,
}

// ---- in bits

// The head of an element that begins; only a node has coordinates. It is no method of `Act`: that a number fits its type is known of a parameter, and of no field behind a reference (tried).
pub fn head_for(kind: Kind, id: u64, lat: u32, lon: u32) -> PushHead
    ensures id { result.id ≡ id }
    ensures bits { result ≡ head_for (to_z w64 id) (body_in kind lat lon) }
{
    let head = PushHead {
        id,
        lat: 0,
        lon: 0,
        count: 0,
        tags: 0,
    };
    match kind {
        Kind::Node => PushHead { lat, lon, ..head },
        Kind::Way | Kind::Relation => head,
    }
}

// Metadata with the handle of the user that it names, and the flag 4, "has user"; without a user both are 0. A handle of more than 32 bits is stored as 0: a sound overlay has none.
fn with_user(meta: ArenaMeta, handle: Option<u64>) -> ArenaMeta
    ensures claim { claim_of (meta_of result) ≡ claim_of (meta_of meta) }
    ensures bits { (user : Bytes) → unwrap_or handle 0 < 4294967296 → result
        ≡ bits_with_user (meta_named meta (is_some handle) user) (unwrap_or handle 0) }
{
    let user_flag = if handle.is_some() { 4 } else { 0 };
    let handle = handle.unwrap_or(0);
    ArenaMeta {
        flags: meta.flags / 8 * 8 + user_flag + meta.flags % 4,
        user: u32::try_from(handle).unwrap_or(0),
        ..meta
    }
}

// ---- an element that begins

// An element begins: 13, or its metadata with its user's handle.
pub fn begin_element<const N: usize>(
    storage: &mut StorageMut<'_>,
    chains: &Chains<'_>,
    act: &Act<'_, N>,
) -> Result<ArenaMeta, Refusal>
    ensures same { IsSameStorage storage.new storage.old }
    ensures begun { UserShort act.now.user → ActGiven (chains_seen chains.now) (overlay_held storage.old)
        → record { overlay = overlay_held storage.new; answer = result } ≡ begin_on (act_means act.now) (overlay_held storage.old) }
{
    let Some(user) = act.user else {
        return Ok(with_user(act.meta, None));
    };
    let handle = reader_texts::take_text(storage, chains, &user)?;
    Ok(with_user(act.meta, Some(handle)))
}

// ---- an element that ends

// Pushes the element whose parts are staged: 12, 14, 15, or taken.
pub fn push_staged(
    storage: &mut StorageMut<'_>,
    kind: Kind,
    pending: Pending,
    parts: &[u8; STAGED],
) -> Result<(), Refusal>
    ensures same { IsSameStorage storage.new storage.old }
    ensures pushed { record { overlay = overlay_held storage.new; answer = result } ≡ push_staged_on kind pending parts.now (overlay_held storage.old) }
{
    let used = pending.used.min(parts.len());
    let record = PushRecord {
        kind,
        head: pending.head,
        meta: pending.meta,
        parts: &parts[..used],
    };
    overlay_store::push(storage, &record)
}

// ---- an act and the user that its metadata names

// 12: where regression is refused, a claim is checked against the known version of its id.
#[tactic(auto, using(kind_store::proofs::Settings::checked_by))]
pub fn check_claim(
    storage: &Storage<'_>,
    kind: Kind,
    id: u64,
    claim: Option<i32>,
) -> Result<(), i32>
    ensures { result ≡ claim_answer kind (to_z w64 id) claim (overlay_seen storage.now) }
{
    let regression = VersionRegression::from(storage.counters[SETTING]);
    regression.check(storage.kind_storage(kind).known_version(id), claim)
}

// The refusal of an act whose user's text is refused: 12 if its claim is below the known version, else that of the text.
fn first_refusal<const N: usize>(
    storage: &Storage<'_>,
    act: &Act<'_, N>,
    refusal: Refusal,
) -> Refusal
    ensures { result ≡ first_refusal (claim_answer act.now.kind (to_z w64 act.now.id) (claim_of (act_means act.now)) (overlay_seen storage.now)) refusal }
{
    let claim = act.meta.claim();
    match check_claim(storage, act.kind, act.id, claim) {
        Ok(()) => refusal,
        Err(held) => Refusal::Regression(held),
    }
}

// What is asked before an act: the handle that the user's text has or will get, none without a user; or the refusal of the act.
fn user_before<const N: usize>(
    storage: &Storage<'_>,
    chains: &Chains<'_>,
    act: &Act<'_, N>,
) -> Result<Option<u64>, Refusal>
    ensures named { IfOk result (λ (h : Option ℕ). is_some h ≡ is_some act.now.user) }
    ensures asked { UserShort act.now.user → ChainsServe (chains_seen chains.now) (overlay_seen storage.now).texts
        → handle_or_zero result ≡ before_act act.now.kind (to_z w64 act.now.id) (act_means act.now) (overlay_seen storage.now) }
{
    let Some(user) = act.user else {
        return Ok(None);
    };
    match reader_texts::text_handle(storage, chains, &user) {
        Ok(handle) => Ok(Some(handle)),
        Err(refusal) => Err(first_refusal(storage, act, refusal)),
    }
}

// What follows an act: the user's text is taken in, unless its handle is below the count: then it is held.
fn take_user<const N: usize>(
    storage: &mut StorageMut<'_>,
    chains: &Chains<'_>,
    act: &Act<'_, N>,
    handle: Option<u64>,
)
    ensures same { IsSameStorage storage.new storage.old }
    ensures taken { UserShort act.now.user → ChainsServe (chains_seen chains.now) (overlay_held storage.old).texts
        → UserIs (act_means act.now) (overlay_held storage.old) (unwrap_or handle 0)
        → overlay_held storage.new ≡ with_user (act_means act.now) (overlay_held storage.old) }
{
    let Some(user) = act.user else {
        return;
    };
    match handle {
        Some(handle) if handle < storage.counters[STRINGS] => {}
        _ => {
            // its answer is known: there is room for it
            let _ = reader_texts::take_text(storage, chains, &user);
        }
    }
}

// ---- an element that begins and ends at once, and a delete

// Pushes an empty element, a node with its coordinates: 12, 13, 14, 15, or taken.
pub fn push_empty<const N: usize>(
    storage: &mut StorageMut<'_>,
    chains: &Chains<'_>,
    act: &Act<'_, N>,
    coordinates: Coordinates,
) -> Result<(), Refusal>
    ensures same { IsSameStorage storage.new storage.old }
    ensures pushed { UserShort act.now.user → ActGiven (chains_seen chains.now) (overlay_held storage.old)
        → record { overlay = overlay_held storage.new; answer = result }
        ≡ push_empty_on (to_z w64 act.now.id) (act_means act.now) (body_in act.now.kind coordinates.lat coordinates.lon) (overlay_held storage.old) }
{
    let user = user_before(&storage.storage(), chains, act)?;
    let record = PushRecord {
        kind: act.kind,
        head: head_for(act.kind, act.id, coordinates.lat, coordinates.lon),
        meta: with_user(act.meta, user),
        parts: &[],
    };
    overlay_store::push(storage, &record)?;
    take_user(storage, chains, act, user);
    Ok(())
}

// The store's delete. Only here are the bytes lent to be read, since beside fields that are lent to be written no field of a struct of references can be.
fn store_delete(
    words: &mut [u64],
    bytes: &mut [u8],
    counters: &mut [u64; COUNTERS],
    kind: Kind,
    id: u64,
    claim: Option<i32>,
) -> Result<(), Refusal>
    ensures { record { overlay = overlay_in words.new bytes.new counters.new; answer = result }
        ≡ store_delete kind (to_z w64 id) claim (overlay_in words.old bytes.old counters.old) }
{
    let mut tables = StorageTables {
        words,
        bytes,
        counters,
    };
    overlay_store::delete(&mut tables, kind, id, claim)
}

// Deletes an id: 12, 13, 14, or taken.
pub fn delete_element<const N: usize>(
    storage: &mut StorageMut<'_>,
    chains: &Chains<'_>,
    act: &Act<'_, N>,
) -> Result<(), Refusal>
    ensures same { IsSameStorage storage.new storage.old }
    ensures deleted { UserShort act.now.user → ChainsServe (chains_seen chains.now) (overlay_held storage.old).texts
        → record { overlay = overlay_held storage.new; answer = result }
        ≡ delete_element_on act.now.kind (to_z w64 act.now.id) (act_means act.now) (overlay_held storage.old) }
{
    let user = user_before(&storage.storage(), chains, act)?;
    let claim = act.meta.claim();
    store_delete(
        storage.words,
        storage.bytes,
        storage.counters,
        act.kind,
        act.id,
        claim,
    )?;
    take_user(storage, chains, act, user);
    Ok(())
}
