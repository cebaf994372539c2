// The direct calls: `intern`, direct push and direct delete. Each tests first that the overlay is sound (22), then what it is given (17, 3, 10, 16), and leaves
// the rest to the store.
#![tactic(auto)]

ghost use Rattle.std.specs.Prelude.{◌≡◌};
ghost use Rattle.std.specs.Int.{w64};
ghost use Rattle.std.proofs.Common.{to_z};
ghost use Rattle.compact.specs.Held.{meta_of};
ghost use Rattle.overlay.specs.Lent.{overlay_held, overlay_tabled, IsSameStorage, IsSameTables};
ghost use Rattle.overlay_direct.specs.Calls.{intern_on, push_on, delete_on};

use compact::{ArenaMeta, PushRecord};
use kind::Kind;
use overlay::{StorageMut, StorageTables};
use overlay_blocks::STRINGS;
use refusal::Refusal;

// Takes a text in: 22, 3, 13, or its handle.
#[tactic(auto, using(overlay::proofs::Checked::checked_unsound, overlay::proofs::Checked::checked_sound), unfolding(crate::specs::Calls::intern_on))]
pub fn intern(storage: &mut StorageMut<'_>, text: &[u8]) -> Result<u64, Refusal>
    ensures same { IsSameStorage storage.new storage.old }
    ensures done { record { overlay = overlay_held storage.new; answer = result } ≡ intern_on text.now (overlay_held storage.old) }
{
    storage.check_sound()?;
    if text::is_text(text) {
        return overlay_store::store_text(storage, text);
    }
    Err(Refusal::NotText)
}

// A direct push of a node, way or relation: 22; 17, 3, 10, 16; then 12, 14, 15.
#[tactic(auto, using(overlay::proofs::Checked::checked_unsound, overlay::proofs::Checked::checked_sound, std::proofs::lemmas::Result::err_from_is_err_and), unfolding(crate::specs::Calls::push_on))]
pub fn push(storage: &mut StorageMut<'_>, push: &PushRecord<'_>) -> Result<(), Refusal>
    ensures same { IsSameStorage storage.new storage.old }
    ensures done { record { overlay = overlay_held storage.new; answer = result }
        ≡ push_on push.now.kind push.now.head push.now.meta push.now.parts.now (overlay_held storage.old) }
{
    storage.check_sound()?;
    compact_legal::record_fault(push, storage.counters[STRINGS])?;
    overlay_store::push(storage, push)
}

// A direct delete: 22; 17 of its metadata; then 12, 14.
#[tactic(auto, using(overlay::proofs::Checked::checked_unsound, overlay::proofs::Checked::checked_sound), unfolding(crate::specs::Calls::delete_on))]
pub fn delete(
    tables: &mut StorageTables<'_>,
    kind: Kind,
    id: u64,
    meta: ArenaMeta,
) -> Result<(), Refusal>
    ensures same { IsSameTables tables.new tables.old }
    ensures done { record { overlay = overlay_tabled tables.new; answer = result } ≡ delete_on kind (to_z w64 id) (meta_of meta) (overlay_tabled tables.old) }
{
    tables.check_sound()?;
    if compact_legal::legal_meta(meta, tables.counters[STRINGS]) {
        return overlay_store::delete(tables, kind, id, meta.claim());
    }
    Err(Refusal::BadRecord)
}
