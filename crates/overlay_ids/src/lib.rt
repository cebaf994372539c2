// All ids of a kind that are live, or all that are deleted, each with its known version, into two lent lists in one call. It first tests that the
// overlay is sound (22).
// The ids and the versions are two lists and no pairs, since C lends two.
#![tactic(auto)]

ghost use Rattle.std.specs.Prelude.{◌≡◌, true, map, ◌≤◌, length};
ghost use Rattle.little.specs.Little.{over};
ghost use Rattle.kind_table.specs.Words.{sound_table};
ghost use Rattle.kind_store.specs.Lent.{kind_seen};
ghost use Rattle.kind_reading.specs.Listed.{rows_read, rows_on};
ghost use Rattle.overlay.specs.Lent.{overlay_seen};
ghost use Rattle.overlay_ids.specs.Bulk.{all_ids_on};
ghost use Rattle.overlay_ids.specs.Rows.{row_id, row_version, kind_ids};

use kind::Kind;
use kind_reading::Side;
use kind_store::KindStorage;
use kind_table::Row;
use overlay::Storage;
use refusal::Refusal;

// The ids of a list's rows and their known versions over the first words of two lists. In a sound table the known version of an id is that of its row, and no row is looked for. It counts what it wrote: `enumerate` over a filter takes a closure for the one test, and makes each row of its words twice.
fn put_rows(held: &KindStorage<'_>, side: Side, ids: &mut [u64], versions: &mut [u64])
    requires { (sound_table held.now.table.now held.now.ids ≡ true)
        × (length (rows_on side (rows_read held.now.table.now held.now.ids)) ≤ length ids.old)
        × (length (rows_on side (rows_read held.now.table.now held.now.ids)) ≤ length versions.old) }
    ensures { (ids.new ≡ over ids.old 0 (map row_id (rows_on side (rows_read held.now.table.now held.now.ids))))
        × (versions.new
        ≡ over versions.old 0 (map (row_version held.now.kind (kind_seen held.now)) (rows_on side (rows_read held.now.table.now held.now.ids)))) }
{
    let table = held.rows();
    let mut n: usize = 0;
    for words in table.rows() {
        let row = Row::from(*words);
        if side.has(row) {
            ids[n] = overlay_reading::row_id(row);
            versions[n] = version_floor::version_word(held.row_version(row));
            n += 1;
        }
    }
}

// One kind's list: 19, or how many ids were written.
#[tactic(auto, using(crate::proofs::Numbers::kind_written, crate::proofs::Numbers::kind_short))]
fn put_kind(
    held: &KindStorage<'_>,
    side: Side,
    ids: &mut [u64],
    versions: &mut [u64],
) -> Result<u64, Refusal>
    requires { sound_table held.now.table.now held.now.ids ≡ true }
    ensures { record { ids = ids.new; versions = versions.new; answer = result }
        ≡ kind_ids held.now.kind side (kind_seen held.now) ids.old versions.old }
{
    let n = kind_reading::listed_count(held, side);
    if n <= little::lesser(ids.len(), versions.len()) as u64 {
        put_rows(held, side, ids, versions);
        return Ok(n);
    }
    Err(Refusal::ShortOutput)
}

// The bits of all live or all deleted ids of a kind in OSM order, and the known version of each as a word: 22, 19, or how many they are.
pub fn all_ids(
    storage: &Storage<'_>,
    kind: Kind,
    side: Side,
    ids: &mut [u64],
    versions: &mut [u64],
) -> Result<u64, Refusal>
    ensures { record { ids = ids.new; versions = versions.new; answer = result }
        ≡ all_ids_on kind side ids.old versions.old (overlay_seen storage.now) }
{
    storage.check_sound()?;
    put_kind(&storage.kind_storage(kind), side, ids, versions)
}
