// Soundness of what is lent for one kind, decided.
#![tactic(auto)]

ghost use Rattle.std.specs.Prelude.{◌≡◌, true, ◌/◌, ◌<◌, length, set};
ghost use Rattle.std.specs.Int.{w64};
ghost use Rattle.std.proofs.Common.{to_z};
ghost use Rattle.base.specs.Bytes.{both, all};
ghost use Rattle.little.specs.Little.{value_at};
ghost use Rattle.osm_id.specs.Order.{rank, id_of};
ghost use Rattle.compact_legal.specs.Whole.{whole_records};
ghost use Rattle.kind_table.specs.Words.{held, rows_of};
ghost use Rattle.kind_store.specs.Lent.{kind_seen};
ghost use Rattle.kind_sound.specs.Check.{comes_to, row_passes, sound_kind_store};
ghost use Rattle.kind_sound.specs.Cells.{cell_of, Empty, Noted};

use compact_legal::Records;
use kind::Kind;
use kind_store::KindStorage;
use kind_table::{Row, Table};

// The bytes of a cell, the least that a record has: no two records start in one cell.
const CELL_BYTES: usize = 45;

// How many cells there are: they cover 1 MiB, the largest arena that set-up takes.
const CELLS: usize = 23302;

// How many are tried for few bytes: clearing all takes longer than judging a few records.
const FEW_CELLS: usize = 512;

// Records with where each of them starts. A cell says by how many bytes behind its first a record starts, plus 1, or 0 where none does.
#[derive(Clone, Copy)]
struct Starts<'a> {
    records: Records<'a>,
    cells: &'a [u8],
    ghost noted: { Noted records.strings records.kind records.bytes.now cells.now },
}

// The rank of the id that stands at an offset.
fn rank_there(bytes: &[u8], offset: usize) -> u64
    ensures { (result ≡ rank (to_z w64 (value_at 8 bytes.now offset))) × (id_of result ≡ to_z w64 (value_at 8 bytes.now offset)) }
{
    osm_id::rank_of_bits(little::get_u64(bytes, offset))
}

// ---- where records start

// It takes the cells and an offset, and no part of them: which cell an offset has and what the cell holds are told by the offset, and a part would tell neither.
fn note(cells: &mut [u8], at: usize)
    ensures { cells.new ≡ set cells.old (at / 45) (cell_of at) }
{
    let i = at / CELL_BYTES;
    if i < cells.len() {
        cells[i] = (at % CELL_BYTES + 1) as u8;
    }
}

// One walk from record to record: whether all are whole and legal, with their starts noted. It is a `while`, here and in `comes_to`: each record tells where
// the next one starts, so no range or slice has the offsets to go over.
fn note_starts(records: &Records<'_>, cells: &mut [u8]) -> bool
    requires { Empty cells.old }
    ensures whole { result ≡ whole_records records.now.strings records.now.kind records.now.bytes.now }
    ensures noted { result ≡ true → Noted records.now.strings records.now.kind records.now.bytes.now cells.new }
{
    let mut at: usize = 0;
    while at < records.bytes.len() {
        let Some(e) = records.end(at) else {
            return false;
        };
        note(cells, at);
        at = e;
    }
    true
}

// Whether a walk from record to record comes to an offset.
fn comes_to(records: &Records<'_>, offset: usize) -> bool
    ensures { result ≡ comes_to records.now.strings records.now.kind records.now.bytes.now offset offset 0 }
{
    let mut at: usize = 0;
    while at < offset {
        let Some(e) = records.end(at) else {
            return false;
        };
        at = e;
    }
    at == offset
}

impl Starts<'_> {
    // Whether a walk from record to record comes to an offset in the bytes, by its cell; past the cells by that walk.
    fn starts_at(&self, offset: usize) -> bool
        requires { offset < length self.now.records.bytes.now }
        ensures { result ≡ comes_to self.now.records.strings self.now.records.kind self.now.records.bytes.now offset offset 0 }
    {
        let i = offset / CELL_BYTES;
        if i < self.cells.len() {
            return self.cells[i] == (offset % CELL_BYTES + 1) as u8;
        }
        comes_to(&self.records, offset)
    }

    // A row of a deleted id, or one at whose offset a record of its id starts.
    fn row_passes(&self, row: Row) -> bool
        ensures { result ≡ row_passes self.now.records.strings self.now.records.kind self.now.records.bytes.now row }
    {
        let Some(offset) = row.record_offset() else {
            return true;
        };
        let at = offset as usize;
        if at < self.records.bytes.len() {
            let same = rank_there(self.records.bytes, at) == row.rank;
            return same & self.starts_at(at);
        }
        false
    }

    fn rows_pass(&self, table: &Table<'_>) -> bool
        ensures { result
            ≡ all (row_passes self.now.records.strings self.now.records.kind self.now.records.bytes.now) (rows_of table.now.words.now (held table.now.words.now table.now.count)) }
    {
        table
            .rows()
            .iter()
            .all(|words| self.row_passes(Row::from(*words)))
    }
}

// The used bytes, then the rows.
fn cells_pass(records: &Records<'_>, table: &Table<'_>, cells: &mut [u8]) -> bool
    requires { Empty cells.old }
    ensures { result
        ≡ both (whole_records records.now.strings records.now.kind records.now.bytes.now) (all (row_passes records.now.strings records.now.kind records.now.bytes.now) (rows_of table.now.words.now (held table.now.words.now table.now.count))) }
{
    if note_starts(records, cells) {
        let starts = Starts {
            records: *records,
            cells,
        };
        return starts.rows_pass(table);
    }
    false
}

// The same with cells for few bytes. Neither this nor `many_cells_pass` is inlined: its array would lie in the caller's frame. They are on the stack: the library has no heap.
#[inline(never)]
fn few_cells_pass(records: &Records<'_>, table: &Table<'_>) -> bool
    ensures { result
        ≡ both (whole_records records.now.strings records.now.kind records.now.bytes.now) (all (row_passes records.now.strings records.now.kind records.now.bytes.now) (rows_of table.now.words.now (held table.now.words.now table.now.count))) }
{
    let mut cells = [0; FEW_CELLS];
    cells_pass(records, table, &mut cells)
}

// With all cells.
#[inline(never)]
fn many_cells_pass(records: &Records<'_>, table: &Table<'_>) -> bool
    ensures { result
        ≡ both (whole_records records.now.strings records.now.kind records.now.bytes.now) (all (row_passes records.now.strings records.now.kind records.now.bytes.now) (rows_of table.now.words.now (held table.now.words.now table.now.count))) }
{
    let mut cells = [0; CELLS];
    cells_pass(records, table, &mut cells)
}

// The used bytes, then the rows, with as many cells as are worth clearing.
fn used_passes(records: &Records<'_>, table: &Table<'_>) -> bool
    ensures { result
        ≡ both (whole_records records.now.strings records.now.kind records.now.bytes.now) (all (row_passes records.now.strings records.now.kind records.now.bytes.now) (rows_of table.now.words.now (held table.now.words.now table.now.count))) }
{
    if records.bytes.len() <= FEW_CELLS * CELL_BYTES {
        return few_cells_pass(records, table);
    }
    many_cells_pass(records, table)
}

// Whether what is lent for one kind is sound, given how many strings are held: the used count, the table, the used bytes, the rows.
pub fn is_sound(storage: &KindStorage<'_>, strings: u64) -> bool
    ensures { result ≡ sound_kind_store strings storage.now.kind (kind_seen storage.now) }
{
    let n = storage.used as usize;
    let table = storage.rows();
    if storage.arena.len() < n || !table.is_rising() {
        return false;
    }
    let records = Records {
        kind: storage.kind,
        bytes: &storage.arena[..n],
        strings,
    };
    used_passes(&records, &table)
}
