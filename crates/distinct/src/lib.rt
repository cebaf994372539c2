// Runs of bytes compared: whether two are the same, and whether no two of many are. Many are sorted, and then neighbours are compared. Of the order of the sort nothing is proved;
// where the neighbours do not rise, nothing is told.
#![tactic(auto)]

ghost use Rattle.std.specs.Prelude.{◌≡◌, Bool, ◌+◌, ◌<◌, ◌≤◌, length, take, drop, set, IsPermutation};
ghost use Rattle.base.specs.Bytes.{Bytes, same};
ghost use Rattle.distinct.specs.Distinct.{distinct, run_start, run_length, run_in, runs_in, RightOf};
ghost use Rattle.distinct.specs.Check.{run_cmp, NotedAs};

use std::cmp::Ordering;

// Whether two runs of bytes are the same. Most that are not differ in length, which is told with no call.
#[inline(always)]
pub fn equal(a: &[u8], b: &[u8]) -> bool
    ensures { result ≡ same a.now b.now }
{
    if a.len() != b.len() {
        return false;
    }
    a == b
}

// ---- a run as one word: its start and its length, and above them a number by which most runs are sorted

// A byte of a run. Behind a run stand zeros: they fill its sort key, and mean no missing byte.
fn byte_at(run: &[u8], i: usize) -> u8 {
    run.get(i).copied().unwrap_or(0)
}

// The length of a run up to 63, and its first three bytes: no greater for a run that is less.
fn sort_key(run: &[u8]) -> u64
    ensures { result < 1073741824 }
{
    let size = run.len().min(63) as u64;
    let first = u64::from(byte_at(run, 0));
    let second = u64::from(byte_at(run, 1));
    let third = u64::from(byte_at(run, 2));
    size * 16777216 + first * 65536 + second * 256 + third
}

// A struct of three numbers was tried in place of the word: 640 runs took a third longer to sort.
#[tactic(auto, unfolding(crate::specs::Distinct::run_start, crate::specs::Distinct::run_length))]
fn pack(key: u64, start: usize, len: usize) -> u64
    requires { (key < 1073741824) × ((start < 131072) × (len < 131072)) }
    ensures { (run_start result ≡ start) × (run_length result ≡ len) }
{
    key * 17179869184 + start as u64 * 131072 + len as u64
}

// The word of a run that lies among fewer than 131,072 bytes. It is made of the place and not of the run alone, since the word holds where the run starts. For any other run it is 0: each
// caller has found its run among the bytes, and has no arm for none.
pub fn run_word(bytes: &[u8], start: usize, len: usize) -> u64
    ensures { start + len ≤ length bytes.now → length bytes.now < 131072 → run_in bytes.now result ≡ take len (drop start bytes.now) }
{
    match bytes.get(start..start.saturating_add(len)) {
        Some(run) if bytes.len() < 131072 => pack(sort_key(run), start, len),
        _ => 0,
    }
}

// A word at a place, where there is room.
pub fn put_word(words: &mut [u64], i: usize, w: u64)
    ensures { words.new ≡ set words.old i w }
{
    // Of a slice after `get_mut` a proof knows no element, so it is written by its place.
    if i < words.len() {
        words[i] = w;
    }
}

fn key_of(w: u64) -> u64 {
    w / 17179869184
}

#[tactic(auto, unfolding(crate::specs::Distinct::run_start))]
fn start_of(w: u64) -> usize
    ensures { (result ≡ run_start w) × (result < 131072) }
{
    (w / 131072 % 131072) as usize
}

#[tactic(auto, unfolding(crate::specs::Distinct::run_length))]
fn length_of(w: u64) -> usize
    ensures { (result ≡ run_length w) × (result < 131072) }
{
    (w % 131072) as usize
}

// The run of a word, as far as it lies among the bytes.
fn run_of(bytes: &[u8], w: u64) -> &[u8]
    ensures { result.now ≡ run_in bytes.now w }
{
    let from = start_of(w).min(bytes.len());
    let to = (from + length_of(w)).min(bytes.len());
    &bytes[from..to]
}

// ---- the sort

// Shorter runs are less, those of one length are compared as in a dictionary.
fn compare(a: &[u8], b: &[u8]) -> Ordering
    ensures { result ≡ run_cmp a.now b.now }
{
    match a.len().cmp(&b.len()) {
        Ordering::Equal => a.cmp(b),
        other => other,
    }
}

// Words of one key, sorted by their runs.
fn sort_part(bytes: &[u8], words: &mut [u64])
    ensures { IsPermutation words.old words.new }
{
    words.sort_unstable_by(|v, w| compare(run_of(bytes, *v), run_of(bytes, *w)));
}

// Words that stand by their keys, sorted by their runs where their keys are the same. Neighbours are compared by their places: the second one's is where a part begins.
fn sort_parts(bytes: &[u8], words: &mut [u64])
    ensures { IsPermutation words.old words.new }
{
    let mut from = 0;
    for to in 1..words.len() {
        if key_of(words[to - 1]) != key_of(words[to]) {
            sort_part(bytes, &mut words[from..to]);
            from = to;
        }
    }
    sort_part(bytes, &mut words[from..]);
}

// What neighbours tell.
fn rises(bytes: &[u8], words: &[u64]) -> Option<bool>
    ensures { RightOf result (distinct (runs_in bytes.now words.now)) }
{
    for [v, w] in words.array_windows::<2>() {
        match compare(run_of(bytes, *v), run_of(bytes, *w)) {
            Ordering::Less => {}
            Ordering::Equal => {
                return Some(false);
            }
            Ordering::Greater => {
                return None;
            }
        }
    }
    Some(true)
}

// Whether no two of the runs of some words are equal, where it is told. The words are sorted: most by their keys alone.
fn sorted_differ(bytes: &[u8], words: &mut [u64]) -> Option<bool>
    ensures { RightOf result (distinct (runs_in bytes.now words.old)) }
{
    words.sort_unstable();
    sort_parts(bytes, words);
    rises(bytes, words)
}

// ---- runs whose words are noted one by one

// How many words there is room for, where many runs are told apart. The library has no heap.
const ROOM: usize = 5460;

// How many where there are likely to be few, and up to how many bytes that is.
const FEW: usize = 512;

const FEW_BYTES: usize = 4096;

// Whether no two of the runs of at most 5,460 words are equal, where it is told; of more nothing is. A copy of the words is sorted: who has them to give up, as `noted_differ`, sorts them in place.
pub fn runs_differ(bytes: &[u8], words: &[u64]) -> Option<bool>
    ensures { RightOf result (distinct (runs_in bytes.now words.now)) }
{
    if ROOM < words.len() {
        return None;
    }
    let mut copy = [0u64; ROOM];
    let sorted = &mut copy[..words.len()];
    sorted.copy_from_slice(words);
    sorted_differ(bytes, sorted)
}

// Runs of some bytes that can note their words: the bytes, and what is asked of the runs, which is whether all are noted and no two are equal.
pub trait NotedRuns {
    ghost within: { Self → Bytes };

    ghost asked: { Self → Bool };

    fn bytes(&self) -> &[u8]
        ensures { result.now ≡ within self.now };

    // Notes the words of all runs, as far as there is room. The answer is how many there are, or none where what is asked is no already. A word has 17 bits for a place, so the bytes are below 131,072: a
    // premise, since it is asked when the words are noted and not when the runs are made.
    fn note(&self, words: &mut [u64]) -> Option<usize>
        ensures { length (within self.now) < 131072 → NotedAs (within self.now) words.new result (asked self.now) };
}

// What `noted_differ` tells, with the words in what is lent.
fn noted_differ_in<R: NotedRuns>(runs: &R, words: &mut [u64]) -> Option<bool>
    ensures { RightOf result (R.asked runs.now) }
{
    let bytes = runs.bytes();
    if 131072 <= bytes.len() {
        return None;
    }
    match runs.note(words) {
        Some(n) if n <= words.len() => sorted_differ(bytes, &mut words[..n]),
        Some(_) => None,
        None => Some(false),
    }
}

// The same with room for a few. Neither this nor `many_differ` is inlined: where its array lay in a caller's frame, clang's stack probe stood behind the caller's first tests.
#[inline(never)]
fn few_differ<R: NotedRuns>(runs: &R) -> Option<bool>
    ensures { RightOf result (R.asked runs.now) }
{
    let mut words = [0u64; FEW];
    noted_differ_in(runs, &mut words)
}

// With all the room that there is.
#[inline(never)]
fn many_differ<R: NotedRuns>(runs: &R) -> Option<bool>
    ensures { RightOf result (R.asked runs.now) }
{
    let mut words = [0u64; ROOM];
    noted_differ_in(runs, &mut words)
}

// What is asked of runs, as far as there is room for their words, where it is told. A large array takes longer to clear than a few runs take to sort.
pub fn noted_differ<R: NotedRuns>(runs: &R) -> Option<bool>
    ensures { RightOf result (R.asked runs.now) }
{
    if runs.bytes().len() <= FEW_BYTES {
        let differ = few_differ(runs);
        if differ.is_some() {
            return differ;
        }
    }
    many_differ(runs)
}
