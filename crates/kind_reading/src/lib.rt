// What one kind holds, read: live and deleted rows by number, what is known of an id, and a record's view.
#![tactic(auto)]

ghost use Rattle.std.specs.Prelude.{◌≡◌, length};
ghost use Rattle.std.specs.Int.{w64};
ghost use Rattle.std.proofs.Common.{to_z};
ghost use Rattle.kind_reading.specs.Listed.{rows_read, is_on, rows_on, nth, row_standing, standing_of, view_at};

use compact_legal::Records;
use kind_store::KindStorage;
use kind_table::Row;
use little::Span;
use refusal::Refusal;

// One of a kind's two lists. It is a value with a method that tells a row's list, and no predicate that is passed on: so a contract says which rows are
// meant by `rows_on side`, and asks nothing of a predicate's calls.
#[derive(Clone, Copy, PartialEq, Eq, Debug)]
pub enum Side {
    Live,
    Deleted,
}

// What is known of an id: live with the offset of its record, deleted, or nothing. It is an enum: an Option of an Option would not say which of its two
// `None` is the deleted id.
#[derive(Clone, Copy, PartialEq, Eq, Debug)]
pub enum Standing {
    Live(u64),
    Deleted,
    Unknown,
}

impl Side {
    // Whether a row is on the list.
    pub fn has(self, row: Row) -> bool
        ensures { result ≡ is_on self row }
    {
        match self {
            Side::Live => row.record_offset().is_some(),
            Side::Deleted => row.record_offset().is_none(),
        }
    }
}

impl From<Row> for Standing {
    ghost from_gives = { λ row standing. standing ≡ row_standing row };

    fn from(row: Row) -> Self {
        match row.record_offset() {
            Some(offset) => Standing::Live(offset),
            None => Standing::Deleted,
        }
    }
}

// How many rows are on a list. It counts in a loop: for `filter(..).count()`, with a closure that promises `is_on`, the search did not close the return.
pub fn listed_count(storage: &KindStorage<'_>, side: Side) -> u64
    ensures { result ≡ length (rows_on side (rows_read storage.now.table.now storage.now.ids)) }
{
    let table = storage.rows();
    let mut count: u64 = 0;
    for words in table.rows() {
        if side.has(Row::from(*words)) {
            count += 1;
        }
    }
    count
}

// The row of a number on a list. It counts in a loop: `filter(..).nth(n)` gives a row's words, made a row once more, and takes a `usize` where `n` is a word of C's.
pub fn listed_row(storage: &KindStorage<'_>, side: Side, n: u64) -> Option<Row>
    ensures { result ≡ nth (rows_on side (rows_read storage.now.table.now storage.now.ids)) n }
{
    let table = storage.rows();
    let mut left = n;
    for words in table.rows() {
        let row = Row::from(*words);
        if side.has(row) {
            if left == 0 {
                return Some(row);
            }
            left -= 1;
        }
    }
    None
}

// What is known of an id, which is given in bits.
pub fn known_standing(storage: &KindStorage<'_>, id: u64) -> Standing
    ensures { result ≡ standing_of storage.now.table.now storage.now.ids (to_z w64 id) }
{
    match storage.rows().find(osm_id::rank_of_bits(id)) {
        Some(row) => Standing::from(row),
        None => Standing::Unknown,
    }
}

// A record's view: from its offset to its end.
pub fn record_view(
    storage: &KindStorage<'_>,
    strings: u64,
    at: u64,
) -> Result<Option<Span>, Refusal>
    ensures { result ≡ view_at strings storage.now.kind storage.now.arena.now storage.now.used at }
{
    let n = storage.arena.len().min(storage.used as usize);
    let start = at as usize;
    let records = Records {
        kind: storage.kind,
        bytes: &storage.arena[..n],
        strings,
    };
    let e = records.end(start).ok_or(Refusal::Unsound)?;
    Ok(Some(Span {
        start,
        len: e - start,
    }))
}
