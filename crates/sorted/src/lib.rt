// Lookups in lent lists of ids (sorted.rs): a list is the bits of its ids. Each answers NotInOrder (20) where a list is not strictly in OSM order.
#![tactic(auto)]

ghost use Rattle.std.specs.Prelude.{◌≡◌, true, false};
ghost use Rattle.std.specs.Int.{w64};
ghost use Rattle.std.proofs.Common.{to_z};
ghost use Rattle.osm_id.specs.Order.{before, osm_key_of};
ghost use Rattle.sorted.specs.Lookup.{ids_of, count, in_order, any_within, overlap_of, under, range_of, reached, found_of};

use osm_id::OsmIdKey;
use refusal::Refusal;

// The places of the ids from a first to before a second.
#[derive(Clone, Copy, Debug, PartialEq, Eq)]
pub struct IdRange {
    pub from: usize,
    pub to: usize,
}

// ---- ids in order

// The key of an id, which is given in bits.
fn key_of(id: u64) -> OsmIdKey
    ensures { result ≡ osm_key_of (to_z w64 id) }
{
    osm_id::osm_id_key(id.cast_signed())
}

// Whether ids stand strictly in OSM order.
#[tactic(auto, using(osm_id::proofs::Orders::key_lt, osm_id::proofs::Orders::key_before))]
fn in_order(ids: &[u64]) -> bool
    ensures { result ≡ in_order (ids_of ids.now) }
{
    ids.is_sorted_by(
        |a, b|
            ensures { result ≡ before (to_z w64 a.now) (to_z w64 b.now) }
        { key_of(*a) < key_of(*b) },
    )
}

// Ids that stand strictly in OSM order, given in bits.
#[derive(Clone, Copy, Debug)]
pub struct SortedIds<'a> {
    pub ids: &'a [u64],
    ghost rising: { in_order (ids_of ids.now) ≡ true },
}

impl<'a> SortedIds<'a> {
    ghost use Rattle.sorted.specs.Sorted.{ids_answered, sorted_of};

    // The list, if its ids stand in order.
    pub fn of(ids: &'a [u64]) -> Result<SortedIds<'a>, Refusal>
        ensures { ids_answered result ≡ sorted_of ids.now }
    {
        if in_order(ids) {
            return Ok(SortedIds { ids });
        }
        Err(Refusal::NotInOrder)
    }

    // How many ids have a key smaller than a key. The next function differs in `<=` alone, and stands apart: the comparison as a parameter would be a flag.
    #[tactic(auto, using(osm_id::proofs::Orders::key_lt), unfolding(crate::specs::Lookup::under))]
    fn count_below(&self, key: OsmIdKey) -> usize
        ensures { result ≡ count (under false key) (ids_of self.now.ids.now) }
    {
        self.ids.partition_point(
            |id|
                ensures { result ≡ under false key (to_z w64 id.now) }
            { key_of(*id) < key },
        )
    }

    // How many ids have a key that is not larger than a key.
    #[tactic(auto, using(osm_id::proofs::Orders::key_le), unfolding(crate::specs::Lookup::under))]
    fn count_up_to(&self, key: OsmIdKey) -> usize
        ensures { result ≡ count (under true key) (ids_of self.now.ids.now) }
    {
        self.ids.partition_point(
            |id|
                ensures { result ≡ under true key (to_z w64 id.now) }
            { key_of(*id) <= key },
        )
    }

    // Whether an id has its key from first to last.
    fn any_in(&self, first: OsmIdKey, last: OsmIdKey) -> bool
        ensures { result ≡ any_within first last (ids_of self.now.ids.now) }
    {
        self.count_below(first) < self.count_up_to(last)
    }

    // Where a cursor stands once it was asked for an id: it moves forward alone.
    fn reach(&self, place: Option<usize>, id: i64) -> usize
        ensures { result ≡ reached place id (ids_of self.now.ids.now) }
    {
        let at = self.count_below(osm_id::osm_id_key(id));
        match place {
            None => at,
            Some(p) => p.max(at),
        }
    }
}

// ---- lookups

// Whether an upserted or deleted id could lie in a blob that claims the numbers from min_id to max_id.
// The two numbers stand apart, as C lends them and as osm_id's keys of a blob take them: a struct of both would be made and taken apart in this one function.
pub fn range_overlaps(
    live: &[u64],
    deleted: &[u64],
    min_id: i64,
    max_id: i64,
) -> Result<bool, Refusal>
    ensures { result ≡ overlap_of (ids_of live.now) (ids_of deleted.now) min_id max_id }
{
    let live = SortedIds::of(live)?;
    let deleted = SortedIds::of(deleted)?;
    let first = osm_id::blob_osm_first_key(min_id, max_id);
    let last = osm_id::blob_osm_last_key(min_id, max_id);
    Ok(live.any_in(first, last) || deleted.any_in(first, last))
}

// The places of the ids from first to last, in OSM order.
pub fn upsert_range(ids: &[u64], first: i64, last: i64) -> Result<IdRange, Refusal>
    ensures { result ≡ range_of (ids_of ids.now) first last }
{
    let ids = SortedIds::of(ids)?;
    let from = ids.count_below(osm_id::osm_id_key(first));
    let to = ids.count_up_to(osm_id::osm_id_key(last));
    Ok(IdRange {
        from,
        to: from.max(to),
    })
}

// A forward cursor, for ids that are asked for in OSM order.
#[derive(Clone, Copy, Debug, PartialEq, Eq, Default)]
pub struct Seek {
    pub place: Option<usize>,
}

impl Seek {
    ghost use Rattle.std.specs.Prelude.{None};

    pub fn new() -> Self
        ensures { result.place ≡ None }
    {
        Seek::default()
    }

    // The place of an id, if the cursor has not passed it. The cursor moves to the id's place, or to where it would stand.
    pub fn find(&mut self, ids: &[u64], id: i64) -> Result<Option<usize>, Refusal>
        ensures { record { place = self.new.place; answer = result } ≡ found_of self.old.place (ids_of ids.now) id }
    {
        let ids = SortedIds::of(ids)?;
        let at = ids.reach(self.place, id);
        let stands = at < ids.count_up_to(osm_id::osm_id_key(id));
        self.place = Some(at);
        Ok(stands.then_some(at))
    }
}
