// The two blocks that an overlay is lent in, and how they are cut into its parts by the sizes behind its counters.
// The words: the id tables of nodes, ways, relations, three words a row; behind them the spans, two words a string.
// The bytes: the arenas of nodes, ways, relations; behind them the string bytes.
// The counters: used ids of nodes, ways, relations; used arena bytes of the same; held strings; used string bytes; the regression setting, 0 while regression is
// refused; and behind them, in the same order, the sizes that set-up was given: ids of nodes, ways, relations; arena bytes of the same; strings; string bytes.
#![tactic(auto)]

ghost use Rattle.std.specs.Prelude.{◌≡◌, ◌*◌, ◌≤◌, min};
ghost use Rattle.overlay_blocks.specs.Blocks.{sizes_in, ends_of, InOrder, word_ends, byte_ends, part_of, Within, part_in, text_part_of, text_part_in};
ghost use Rattle.overlay_blocks.specs.Sizes.{largest, kind_fits, strings_fit, sizes_in_range, Small, filled, fitted};

use kind::Kind;

// The largest lent sizes: ids and arena bytes of a kind, strings, string bytes. `largest` (specs/Sizes) says them for the proofs.
pub const MAX_IDS: u64 = 4096;

pub const MAX_ARENA: u64 = 1048576;

pub const MAX_STRINGS: u64 = 4096;

pub const MAX_STRING_BYTES: u64 = 65536;

pub const COUNTERS: usize = 17;

// The places of the counters: first the used ids of each kind.
const NODES: usize = 0;

const WAYS: usize = 1;

const RELATIONS: usize = 2;

// A kind's used arena bytes stand so far behind its used ids.
pub const ARENA: usize = 3;

pub const STRINGS: usize = 6;

pub const STRING_BYTES: usize = 7;

pub const SETTING: usize = 8;

const SIZES_NODES: usize = 9;

const SIZES_WAYS: usize = 10;

const SIZES_RELATIONS: usize = 11;

const SIZES_NODE_ARENA: usize = 12;

const SIZES_WAY_ARENA: usize = 13;

const SIZES_RELATION_ARENA: usize = 14;

const SIZES_STRINGS: usize = 15;

const SIZES_STRING_BYTES: usize = 16;

// The lent sizes of a kind: rows of its id table, bytes of its arena.
#[repr(C)]
#[derive(Clone, Copy, PartialEq, Eq, Debug)]
pub struct KindSize {
    pub ids: u64,
    pub bytes: u64,
}

// The lent sizes, as set-up is given them and the counters hold them.
#[repr(C)]
#[derive(Clone, Copy, PartialEq, Eq, Debug)]
pub struct Sizes {
    pub nodes: KindSize,
    pub ways: KindSize,
    pub relations: KindSize,
    pub strings: u64,
    pub string_bytes: u64,
}

// Where the parts of the three kinds end in a block. What lies behind them is the strings'.
#[derive(Clone, Copy, PartialEq, Eq, Debug)]
pub struct Ends {
    pub nodes: usize,
    pub ways: usize,
    pub relations: usize,
}

// What the blocks have of one kind: words `from` to `to`, bytes `first` to `end`; and the place of its used ids among the counters, its used bytes three behind.
// They are places and no slices: one part serves blocks that are read and blocks that are written, and a method that cut them would ask that it lies within them.
#[derive(Clone, Copy, PartialEq, Eq, Debug)]
pub struct KindPart {
    pub at: usize,
    pub from: usize,
    pub to: usize,
    pub first: usize,
    pub end: usize,
}

// Where the blocks have the strings: their spans and their bytes from there on.
#[derive(Clone, Copy, PartialEq, Eq, Debug)]
pub struct TextPart {
    pub spans: usize,
    pub bytes: usize,
}

// ---- where parts end

// The words of a table of so many rows, as far as there are words.
fn rows_within(rows: u64, words: usize) -> usize
    ensures { result ≡ min (3 * rows) words }
{
    if rows <= (words / 3) as u64 {
        return 3 * rows as usize;
    }
    words
}

impl Ends {
    // Where parts of three sizes end in a block: what it does not have is missing at its end.
    #[tactic(auto, using(crate::proofs::Orders::in_order), unfolding(crate::specs::Blocks::ends_of))]
    fn within(nodes: usize, ways: usize, relations: usize, block: usize) -> Ends
        ensures { (result ≡ ends_of nodes ways relations block) × InOrder result block }
    {
        let a = little::lesser(nodes, block);
        let b = a + little::lesser(ways, block - a);
        let c = b + little::lesser(relations, block - b);
        Ends {
            nodes: a,
            ways: b,
            relations: c,
        }
    }
}

impl KindPart {
    // The part of a kind between the ends of the parts.
    fn between(kind: Kind, words: Ends, bytes: Ends) -> KindPart
        ensures { result ≡ part_of kind words bytes }
    {
        match kind {
            Kind::Node => KindPart {
                at: NODES,
                from: 0,
                to: words.nodes,
                first: 0,
                end: bytes.nodes,
            },
            Kind::Way => KindPart {
                at: WAYS,
                from: words.nodes,
                to: words.ways,
                first: bytes.nodes,
                end: bytes.ways,
            },
            Kind::Relation => KindPart {
                at: RELATIONS,
                from: words.ways,
                to: words.relations,
                first: bytes.ways,
                end: bytes.relations,
            },
        }
    }
}

// ---- by the sizes

impl KindSize {
    #[tactic(auto, unfolding(crate::specs::Sizes::kind_fits, base::specs::Bytes::both))]
    fn fits(self) -> bool
        ensures { result ≡ kind_fits largest self }
    {
        1 <= self.ids && self.ids <= MAX_IDS && self.bytes <= MAX_ARENA
    }
}

// The sizes behind the counters.
impl From<&[u64; COUNTERS]> for Sizes {
    ghost from_gives = { λ counters sizes. sizes ≡ sizes_in counters.now };

    fn from(counters: &[u64; COUNTERS]) -> Sizes {
        Sizes {
            nodes: KindSize {
                ids: counters[SIZES_NODES],
                bytes: counters[SIZES_NODE_ARENA],
            },
            ways: KindSize {
                ids: counters[SIZES_WAYS],
                bytes: counters[SIZES_WAY_ARENA],
            },
            relations: KindSize {
                ids: counters[SIZES_RELATIONS],
                bytes: counters[SIZES_RELATION_ARENA],
            },
            strings: counters[SIZES_STRINGS],
            string_bytes: counters[SIZES_STRING_BYTES],
        }
    }
}

impl Sizes {
    // Where the id tables end in a block of so many words.
    #[tactic(auto, using(crate::proofs::Orders::ends_rows))]
    fn word_ends(&self, words: usize) -> Ends
        ensures { (result ≡ word_ends self.now words) × InOrder result words }
    {
        let nodes = rows_within(self.nodes.ids, words);
        let ways = rows_within(self.ways.ids, words);
        let relations = rows_within(self.relations.ids, words);
        Ends::within(nodes, ways, relations, words)
    }

    // Where the arenas end in a block of so many bytes.
    fn byte_ends(&self, bytes: usize) -> Ends
        ensures { (result ≡ byte_ends self.now bytes) × InOrder result bytes }
    {
        let nodes = self.nodes.bytes as usize;
        let ways = self.ways.bytes as usize;
        let relations = self.relations.bytes as usize;
        Ends::within(nodes, ways, relations, bytes)
    }

    // The part of a kind in blocks of these lengths.
    pub fn part(&self, kind: Kind, words: usize, bytes: usize) -> KindPart
        ensures { (result ≡ part_in kind self.now words bytes) × Within result words bytes }
    {
        let w = self.word_ends(words);
        let b = self.byte_ends(bytes);
        KindPart::between(kind, w, b)
    }

    // The strings' part.
    pub fn texts(&self, words: usize, bytes: usize) -> TextPart
        ensures { (result ≡ text_part_in self.now words bytes) × ((result.spans ≤ words) × (result.bytes ≤ bytes)) }
    {
        let w = self.word_ends(words);
        let b = self.byte_ends(bytes);
        TextPart {
            spans: w.relations,
            bytes: b.relations,
        }
    }

    // No `KindSize`: the largest number of bytes is another.
    #[tactic(auto, unfolding(crate::specs::Sizes::strings_fit, base::specs::Bytes::both))]
    fn strings_fit(&self) -> bool
        ensures { result ≡ strings_fit largest self.now.strings self.now.string_bytes }
    {
        1 <= self.strings && self.strings <= MAX_STRINGS && self.string_bytes <= MAX_STRING_BYTES
    }

    // Whether each size is one that set-up takes.
    #[tactic(auto, unfolding(crate::specs::Sizes::sizes_in_range, base::specs::Bytes::both))]
    fn in_range(&self) -> bool
        ensures { result ≡ sizes_in_range largest self.now }
    {
        self.nodes.fits() && self.ways.fits() && self.relations.fits() && self.strings_fit()
    }

    // Whether the parts are all of the blocks.
    #[tactic(auto, unfolding(crate::specs::Sizes::filled, base::specs::Bytes::both))]
    fn fill(&self, words: usize, bytes: usize) -> bool
        requires { Small self.now }
        ensures { result ≡ filled self.now words bytes }
    {
        let w = 3 * (self.nodes.ids + self.ways.ids + self.relations.ids) + 2 * self.strings;
        let b = self.nodes.bytes + self.ways.bytes + self.relations.bytes + self.string_bytes;
        w == words as u64 && b == bytes as u64
    }

    // Whether the sizes are in range and tile the blocks.
    #[tactic(auto, using(crate::proofs::Ranges::small), unfolding(crate::specs::Sizes::fitted, base::specs::Bytes::both))]
    pub fn fit(&self, words: usize, bytes: usize) -> bool
        ensures { result ≡ fitted largest self.now words bytes }
    {
        self.in_range() && self.fill(words, bytes)
    }
}
