// What is read of an overlay: counts, ids and records by number, what is known of an id, and texts by handle. Each reading first tests that
// the overlay is sound (22).
// A kind and an id, and a kind and a side, are taken as two: a struct of both would be made at each entry of C and taken apart here, where only the id is handed on.
#![tactic(auto, using(overlay::proofs::Checked::checked_unsound, overlay::proofs::Checked::checked_sound), unfolding(crate::specs::Reading::count_on, crate::specs::Reading::is_empty_on, crate::specs::Reading::no_ids, crate::specs::Reading::id_on, crate::specs::Reading::record_on, crate::specs::Reading::get_on, crate::specs::Reading::has_on, crate::specs::Reading::is_deleted_on, crate::specs::Reading::known_on, crate::specs::Reading::text_on, crate::specs::Reading::standing_on, base::specs::Bytes::both))]

ghost use Rattle.std.specs.Prelude.{◌≡◌};
ghost use Rattle.std.specs.Int.{w64};
ghost use Rattle.std.proofs.Common.{to_z, of_z};
ghost use Rattle.osm_id.specs.Order.{id_of};
ghost use Rattle.overlay.specs.Lent.{overlay_seen};
ghost use Rattle.overlay_reading.specs.Reading.{count_on, is_empty_on, id_on, record_on, standing_on, get_on, has_on, is_deleted_on, known_on, text_on, in_number, in_word};

use kind::Kind;
use kind_reading::{Side, Standing};
use kind_table::Row;
use little::Span;
use overlay::Storage;
use overlay_blocks::STRINGS;
use refusal::Refusal;

// ---- counts

// How many ids of a kind are live, or deleted.
pub fn count(storage: &Storage<'_>, kind: Kind, side: Side) -> Result<u64, Refusal>
    ensures { result ≡ count_on kind side (overlay_seen storage.now) }
{
    storage.check_sound()?;
    Ok(kind_reading::listed_count(&storage.kind_storage(kind), side))
}

// Whether no id of any kind is known.
pub fn is_empty(storage: &Storage<'_>) -> Result<bool, Refusal>
    ensures { in_number result ≡ is_empty_on (overlay_seen storage.now) }
{
    storage.check_sound()?;
    let [nodes, ways, relations, ..] = storage.counters;
    Ok(*nodes == 0 && *ways == 0 && *relations == 0)
}

// ---- ids and records by number

// The bits of a row's id.
pub fn row_id(row: Row) -> u64
    ensures { result ≡ of_z w64 (id_of row.rank) }
{
    osm_id::osm_id_of_rank(row.rank).cast_unsigned()
}

// The bits of the n-th live or deleted id of a kind in OSM order, or 21.
pub fn id_at(storage: &Storage<'_>, kind: Kind, side: Side, n: u64) -> Result<u64, Refusal>
    ensures { result ≡ id_on kind side n (overlay_seen storage.now) }
{
    storage.check_sound()?;
    let row = kind_reading::listed_row(&storage.kind_storage(kind), side, n);
    Ok(row_id(row.ok_or(Refusal::NoSuchNumber)?))
}

// The view of the record of the n-th live id of a kind, or 21.
pub fn record_at(storage: &Storage<'_>, kind: Kind, n: u64) -> Result<Option<Span>, Refusal>
    ensures { result ≡ record_on kind n (overlay_seen storage.now) }
{
    storage.check_sound()?;
    let held = storage.kind_storage(kind);
    let row = kind_reading::listed_row(&held, Side::Live, n).ok_or(Refusal::NoSuchNumber)?;
    kind_reading::record_view(&held, storage.counters[STRINGS], row.offset)
}

// ---- by id, which is given in bits

// What is known of an id of a sound overlay.
fn standing(storage: &Storage<'_>, kind: Kind, id: u64) -> Result<Standing, Refusal>
    ensures { result ≡ standing_on kind (to_z w64 id) (overlay_seen storage.now) }
{
    storage.check_sound()?;
    Ok(kind_reading::known_standing(&storage.kind_storage(kind), id))
}

// The view of an id's record, if the id is live.
pub fn get(storage: &Storage<'_>, kind: Kind, id: u64) -> Result<Option<Span>, Refusal>
    ensures { result ≡ get_on kind (to_z w64 id) (overlay_seen storage.now) }
{
    match standing(storage, kind, id)? {
        Standing::Live(at) => {
            kind_reading::record_view(&storage.kind_storage(kind), storage.counters[STRINGS], at)
        }
        Standing::Deleted | Standing::Unknown => Ok(None),
    }
}

// Whether an id is live.
pub fn has(storage: &Storage<'_>, kind: Kind, id: u64) -> Result<bool, Refusal>
    ensures { in_number result ≡ has_on kind (to_z w64 id) (overlay_seen storage.now) }
{
    Ok(matches!(standing(storage, kind, id)?, Standing::Live(_)))
}

// Whether an id is deleted.
pub fn is_deleted(storage: &Storage<'_>, kind: Kind, id: u64) -> Result<bool, Refusal>
    ensures { in_number result ≡ is_deleted_on kind (to_z w64 id) (overlay_seen storage.now) }
{
    Ok(matches!(standing(storage, kind, id)?, Standing::Deleted))
}

// The known version of an id, if it has one.
pub fn known_version(storage: &Storage<'_>, kind: Kind, id: u64) -> Result<Option<i32>, Refusal>
    ensures { in_word result ≡ known_on kind (to_z w64 id) (overlay_seen storage.now) }
{
    storage.check_sound()?;
    Ok(storage.kind_storage(kind).known_version(id))
}

// ---- texts

// Where the text of a handle lies among the string bytes, or 21.
pub fn text(storage: &Storage<'_>, handle: u64) -> Result<Option<Span>, Refusal>
    ensures { result ≡ text_on handle (overlay_seen storage.now) }
{
    storage.check_sound()?;
    let span = storage
        .strings()
        .resolve(handle)
        .ok_or(Refusal::NoSuchNumber)?;
    Ok(Some(span))
}
