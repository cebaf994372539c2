// Id tables over lent words: three words a row, in OSM order of the ids.
#![tactic(auto)]

ghost use Rattle.std.specs.Prelude.{◌≡◌, ℕ, ◌+◌, ◌*◌, ◌≤◌, ◌<◌, length};
ghost use Rattle.std.specs.Simd.{first_chunks};
ghost use Rattle.kind_table.specs.Words.{row_given, row_by, row_found, record_offset, words_in, row_of_words, sound_table, held, halve, lookup, row_over, inserted, table_after};
ghost use Rattle.kind_table.specs.Lent.{IsSameTable};

// The word that stands in place of an offset where the id is deleted, and each above it.
pub const DELETED: u64 = 0x8000_0000_0000_0000;

// A row as its three words stand in the id table: the id's rank in OSM order; where its record starts, or that it is deleted; its floor. Every word
// means something.
#[derive(Clone, Copy, PartialEq, Eq, Debug)]
pub struct Row {
    pub rank: u64,
    pub offset: u64,
    pub floor: u64,
}

// An id table as it is lent to be read: its words, and how many rows are counted.
#[derive(Clone, Copy)]
pub struct Table<'a> {
    pub words: &'a [u64],
    pub count: u64,
}

// An id table as it is lent to be changed. C lends the words, three a row: that is the storage format.
#[derive(Drop)]
pub struct TableMut<'a> {
    pub words: &'a mut [u64],
    pub count: u64,
}

impl Row {
    // Where the record of a live id starts, or none for a deleted id.
    pub fn record_offset(self) -> Option<u64>
        ensures { result ≡ record_offset self.offset }
    {
        if self.offset < DELETED {
            Some(self.offset)
        } else {
            None
        }
    }

    fn words(self) -> [u64; 3]
        ensures { result ≡ words_in self }
    {
        [self.rank, self.offset, self.floor]
    }
}

impl From<[u64; 3]> for Row {
    ghost from_gives = { λ words row. row ≡ row_of_words words };

    fn from(words: [u64; 3]) -> Row {
        let [rank, offset, floor] = words;
        Row {
            rank,
            offset,
            floor,
        }
    }
}

impl Table<'_> {
    // The rows that are read, each in three words: those counted, as far as the words go.
    pub fn rows(&self) -> &[[u64; 3]]
        ensures value { result.now ≡ first_chunks 3 (held self.now.words.now self.now.count) self.now.words.now }
        ensures len { length result.now ≡ held self.now.words.now self.now.count }
    {
        let (rows, _) = self.words.as_chunks::<3>();
        let n = rows.len().min(self.count as usize);
        &rows[..n]
    }

    // The i-th row, or none where fewer are read.
    pub fn row(&self, i: usize) -> Option<Row>
        ensures { result ≡ row_given self.now.words.now (held self.now.words.now self.now.count) i }
    {
        let words = self.rows().get(i)?;
        Some(Row::from(*words))
    }

    // Whether the words hold the counted rows and their ranks strictly rise.
    pub fn is_rising(&self) -> bool
        ensures { result ≡ sound_table self.now.words.now self.now.count }
    {
        let rows = self.rows();
        if rows.len() < self.count as usize {
            return false;
        }
        rows.is_sorted_by(|a, b| a[0] < b[0])
    }

    // Where a rank belongs among the rows, by halves. It is a loop: `find_row` also promises what this search answers where ranks do not rise, which the
    // library's `partition_point` and `binary_search_by_key` leave open.
    fn place_of(&self, rank: u64) -> usize
        ensures { result ≡ halve (held self.now.words.now self.now.count) self.now.words.now rank 0 (held self.now.words.now self.now.count) }
    {
        let rows = self.rows();
        let mut lo: usize = 0;
        let mut hi = rows.len();
        while lo < hi {
            let mid = (lo + hi) / 2;
            if rows[mid][0] < rank {
                lo = mid + 1;
            } else {
                hi = mid;
            }
        }
        lo
    }

    // The row of a rank, or its place behind the rows of smaller ranks.
    pub fn find_row(&self, rank: u64) -> Result<usize, usize>
        ensures { result ≡ lookup self.now.words.now self.now.count rank }
    {
        let rows = self.rows();
        let p = self.place_of(rank);
        if p < rows.len() && rows[p][0] == rank {
            Ok(p)
        } else {
            Err(p)
        }
    }

    // The row that a search found, or none.
    pub fn found_row(&self, found: Result<usize, usize>) -> Option<Row>
        ensures { result ≡ row_by self.now.words.now (held self.now.words.now self.now.count) found }
    {
        let i = found.ok()?;
        self.row(i)
    }

    // The row of a rank, or none.
    pub fn find(&self, rank: u64) -> Option<Row>
        ensures { result ≡ row_found self.now.words.now (lookup self.now.words.now self.now.count rank) }
    {
        self.found_row(self.find_row(rank))
    }
}

impl TableMut<'_> {
    // A row over the i-th. Rows are stored over the words: the library says nothing of what the slice ends as after `as_chunks_mut`.
    fn store_row(&mut self, i: usize, row: Row)
        requires { 3 * i + 3 ≤ length self.old.words.now }
        ensures same { IsSameTable self.new self.old }
        ensures count { self.new.count ≡ self.old.count }
        ensures stored { self.new.words.now ≡ row_over self.old.words.now i row }
    {
        let at = 3 * i;
        self.words[at..at + 3].copy_from_slice(&row.words());
    }

    // A row before the p-th of the counted rows, which then are one more.
    fn insert_row(&mut self, p: usize, row: Row)
        requires { (p ≤ self.old.count) × (3 * self.old.count + 3 ≤ length self.old.words.now) }
        ensures same { IsSameTable self.new self.old }
        ensures count { self.new.count ≡ self.old.count + 1 }
        ensures inserted { self.new.words.now ≡ inserted self.old.words.now p self.old.count row }
    {
        let used = 3 * self.count as usize;
        let at = 3 * p;
        // From place 0 of the rest on, so that it is compiled to one block move.
        self.words[at..].copy_within(0..used - at, 3);
        self.store_row(p, row);
        self.count += 1;
    }

    // Stores a row by where its rank was found: over the row there, or inserted in its place and the later rows moved up by one. Says whether it is
    // stored: where the rank is new and there is no room for one more row, nothing is.
    pub fn put_row(&mut self, found: Result<usize, usize>, row: Row) -> bool
        ensures same { IsSameTable self.new self.old }
        ensures count_in_bounds { self.old.count < self.new.count → 3 * self.old.count + 3 ≤ length self.old.words.now }
        ensures done { found ≡ lookup self.old.words.now self.old.count row.rank
            → record { words = self.new.words.now; count = self.new.count; answer = result } ≡ table_after self.old.words.now self.old.count row }
    {
        let n = self.count as usize;
        let most = self.words.len() / 3;
        match found {
            Ok(i) if i < most => {
                self.store_row(i, row);
                true
            }
            Err(p) if p <= n && n < most => {
                self.insert_row(p, row);
                true
            }
            _ => false,
        }
    }
}
