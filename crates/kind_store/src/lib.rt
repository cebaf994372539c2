// One kind's id table and arena (parse.rs): the known version of an id, a push and a delete.
#![tactic(auto)]

ghost use Rattle.std.specs.Prelude.{◌≡◌};
ghost use Rattle.std.specs.Int.{w64};
ghost use Rattle.std.proofs.Common.{to_z};
ghost use Rattle.model.specs.Record.{claim_of};
ghost use Rattle.compact.specs.Layout.{head_len};
ghost use Rattle.compact.specs.Held.{meta_of};
ghost use Rattle.compact.specs.Push.{bytes_given};
ghost use Rattle.kind_store.specs.KindStore.{live_version, known_of, known_version, checked, room_at, floor_after, pushed, deleted};
ghost use Rattle.kind_store.specs.Lent.{kind_seen, kind_held, kind_rows_held, IsSameKindStorage, IsSameKindStorageTable};
ghost use Rattle.kind_store.specs.Seats.{regression_in, setting_of, seat_of, seated};

use compact::{CompactNode, CompactRelation, CompactWay, PushRecord, RecordHead};
use kind::Kind;
use kind_table::{DELETED, Row, Table, TableMut};
use refusal::Refusal;
use version_floor::VersionFloor;

// Whether a version below the known one is refused, as the setting says: its word is 0, or another.
#[derive(Clone, Copy, PartialEq, Eq, Debug)]
pub enum VersionRegression {
    Refused,
    Allowed,
}

// What is lent for one kind, to be read: its id table with the count of its ids, and its arena with the count of its used bytes.
#[derive(Clone, Copy)]
pub struct KindStorage<'a> {
    pub kind: Kind,
    pub table: &'a [u64],
    pub ids: u64,
    pub arena: &'a [u8],
    pub used: u64,
}

// What is lent for one kind, to be changed.
#[derive(Drop)]
pub struct KindStorageMut<'a> {
    pub kind: Kind,
    pub table: &'a mut [u64],
    pub ids: u64,
    pub arena: &'a mut [u8],
    pub used: u64,
}

// What is lent for one kind, with the id table alone to be changed. It is a type of its own, with its own `storage`: C lends the arena of a delete as const, so
// no `&mut` of it can be made, and a trait over both types would want that one expression from each.
#[derive(Drop)]
pub struct KindStorageTable<'a> {
    pub kind: Kind,
    pub table: &'a mut [u64],
    pub ids: u64,
    pub arena: &'a [u8],
    pub used: u64,
}

// Where the row of an act's id stands or belongs, with the id's known version and its floor. The floor is the word that stands in the row: a push that
// keeps the floor keeps that word, and each word from 2^32 on means none.
#[derive(Clone, Copy, PartialEq, Eq, Debug)]
struct Seat {
    found: Result<usize, usize>,
    known: Option<i32>,
    floor: u64,
}

impl From<u64> for VersionRegression {
    ghost from_gives = { λ setting regression. regression ≡ regression_in setting };

    fn from(setting: u64) -> Self {
        if setting == 0 {
            VersionRegression::Refused
        } else {
            VersionRegression::Allowed
        }
    }
}

impl VersionRegression {
    // 12: where regression is refused, a claim is checked against the known version.
    pub fn check(self, known: Option<i32>, claim: Option<i32>) -> Result<(), i32>
        ensures { result ≡ checked (setting_of self) known claim }
    {
        match self {
            VersionRegression::Refused => VersionFloor::new(known).admit(claim),
            VersionRegression::Allowed => Ok(()),
        }
    }

    // The floor word that a push leaves: without a version it carries the known one, only while regression is refused.
    fn floor_after(self, known: Option<i32>, claim: Option<i32>, floor: u64) -> u64
        ensures { result ≡ floor_after (setting_of self) known claim floor }
    {
        match (self, claim) {
            (VersionRegression::Refused, None) => version_floor::version_word(known),
            _ => floor,
        }
    }
}

// ---- what is known of an id

// Where the metadata of a kind's record stand. It is a match and no method of `Kind`: the lengths are constants of the three heads, which lie in a crate
// above that of `Kind`.
fn meta_off(kind: Kind) -> usize
    ensures { result ≡ head_len kind }
{
    match kind {
        Kind::Node => CompactNode::LEN,
        Kind::Way => CompactWay::LEN,
        Kind::Relation => CompactRelation::LEN,
    }
}

impl KindStorage<'_> {
    // The id table.
    pub fn rows(&self) -> Table<'_>
        ensures { (result.words.now ≡ self.now.table.now) × (result.count ≡ self.now.ids) }
    {
        Table {
            words: self.table,
            count: self.ids,
        }
    }

    // The version that a row's record claims, or none for a deleted id.
    fn live_version(&self, row: Row) -> Option<i32>
        ensures { result ≡ live_version self.now.kind self.now.arena.now row }
    {
        let offset = row.record_offset()?;
        let at = offset as usize + meta_off(self.kind);
        compact::read_meta(self.arena, at).claim()
    }

    // The known version that a row says: the larger of its record's and its floor, or the one that exists.
    pub fn row_version(&self, row: Row) -> Option<i32>
        ensures { result ≡ known_of self.now.kind self.now.arena.now row }
    {
        let floor = version_floor::version_of_word(row.floor);
        version_floor::higher_of(self.live_version(row), floor)
    }

    // The known version of an id, which is given in bits.
    pub fn known_version(&self, id: u64) -> Option<i32>
        ensures { result ≡ known_version self.now.kind (kind_seen self.now) (to_z w64 id) }
    {
        let row = self.rows().find(osm_id::rank_of_bits(id))?;
        self.row_version(row)
    }

    // ---- the checks of an act

    fn seat(&self, id: u64) -> Seat
        ensures { result ≡ seat_of self.now.kind (kind_seen self.now) (to_z w64 id) }
    {
        let rows = self.rows();
        let found = rows.find_row(osm_id::rank_of_bits(id));
        match rows.found_row(found) {
            Some(row) => Seat {
                found,
                known: self.row_version(row),
                floor: row.floor,
            },
            None => Seat {
                found,
                known: None,
                floor: version_floor::NO_VERSION,
            },
        }
    }

    // 14: whether a row that was found, or one more, has room.
    fn has_room(&self, found: Result<usize, usize>) -> bool
        ensures { result ≡ room_at self.now.table.now self.now.ids found }
    {
        found.is_ok() || (self.ids as usize) < self.table.len() / 3
    }

    // 12, then 14.
    fn admitted(
        &self,
        regression: VersionRegression,
        id: u64,
        claim: Option<i32>,
    ) -> Result<Seat, Refusal>
        ensures { result ≡ seated self.now.kind (setting_of regression) (kind_seen self.now) (to_z w64 id) claim }
    {
        let seat = self.seat(id);
        // The answer is taken apart by `let Err(..) = .. else`, as document 01's table asks (DECISIONS, "Forms"), and not by `?`.
        let Err(held) = regression.check(seat.known, claim) else {
            if self.has_room(seat.found) {
                return Ok(seat);
            }
            return Err(Refusal::IdsFull);
        };
        Err(Refusal::Regression(held))
    }
}

// ---- push

impl KindStorageMut<'_> {
    // The same, to be read.
    fn storage(&self) -> KindStorage<'_>
        ensures { (kind_seen result ≡ kind_held self.now) × (result.kind ≡ self.now.kind) }
    {
        KindStorage {
            kind: self.kind,
            table: self.table,
            ids: self.ids,
            arena: self.arena,
            used: self.used,
        }
    }

    // A push whose record is legal: 12, 14, 15, or taken.
    pub fn push(
        &mut self,
        regression: VersionRegression,
        push: &PushRecord<'_>,
    ) -> Result<(), Refusal>
        ensures same { IsSameKindStorage self.new self.old }
        ensures done { record { kind_store = kind_held self.new; answer = result }
            ≡ pushed self.old.kind (setting_of regression) (kind_held self.old) (to_z w64 push.now.head.id) (claim_of (meta_of push.now.meta)) (bytes_given push.now) }
    {
        let id = push.head.id;
        let claim = push.meta.claim();
        let seat = self.storage().admitted(regression, id, claim)?;
        let offset = self.used;
        let end = compact_append::append_record(self.arena, offset as usize, push).ok_or(
            Refusal::ArenaFull,
        )?;
        let row = Row {
            rank: osm_id::rank_of_bits(id),
            offset,
            floor: regression.floor_after(seat.known, claim, seat.floor),
        };
        let mut rows = TableMut {
            words: self.table,
            count: self.ids,
        };
        rows.put_row(seat.found, row);
        self.ids = rows.count;
        self.used = end as u64;
        Ok(())
    }
}

// ---- delete

impl KindStorageTable<'_> {
    // The same, to be read.
    fn storage(&self) -> KindStorage<'_>
        ensures { (kind_seen result ≡ kind_rows_held self.now) × (result.kind ≡ self.now.kind) }
    {
        KindStorage {
            kind: self.kind,
            table: self.table,
            ids: self.ids,
            arena: self.arena,
            used: self.used,
        }
    }

    // A delete whose metadata is legal: 12, 14, or the floor raised and the id deleted.
    pub fn delete(
        &mut self,
        regression: VersionRegression,
        id: u64,
        claim: Option<i32>,
    ) -> Result<(), Refusal>
        ensures same { IsSameKindStorageTable self.new self.old }
        ensures done { record { kind_store = kind_rows_held self.new; answer = result }
            ≡ deleted self.old.kind (setting_of regression) (kind_rows_held self.old) (to_z w64 id) claim }
    {
        let seat = self.storage().admitted(regression, id, claim)?;
        let row = Row {
            rank: osm_id::rank_of_bits(id),
            offset: DELETED,
            floor: version_floor::version_word(version_floor::higher_of(seat.known, claim)),
        };
        let mut rows = TableMut {
            words: self.table,
            count: self.ids,
        };
        rows.put_row(seat.found, row);
        self.ids = rows.count;
        Ok(())
    }
}
