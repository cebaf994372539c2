// The readings of an overlay.
ghost use Rattle.std.specs.Prelude.{◌≡◌, ℕ, Result};
ghost use Rattle.kind.specs.Kind.{of_number};
ghost use Rattle.kind_reading.specs.declared.Side.TheVariants.{Live, Deleted};
ghost use Rattle.overlay.specs.Lent.{lent, overlay_seen};
ghost use Rattle.overlay_reading.specs.Reading.{is_empty_on, text_on, in_number, in_word};
ghost use Rattle.c_replies.specs.Readings.{read_number, view_part};
ghost use Rattle.torvaskin.specs.Readings.{reading_for, count_number, id_number, record_part, get_part, has_number, is_deleted_number, known_number, ids_reply};

use crate::overlays::named_kind;
use c_replies::{Number, Part};
use kind::Kind;
use kind_reading::Side;
use overlay::Storage;
use overlay_blocks::COUNTERS;
use refusal::Refusal;

// What a reading answers of the kind that a number means; or 22, else 17.
fn of_kind<T, F: FnOnce(Kind) -> Result<T, Refusal>>(
    storage: &Storage<'_>,
    kind: u8,
    reading: F,
) -> Result<T, Refusal>
    requires { F.IsAlwaysCallable reading }
    ensures { (f : Kind → Result T Refusal) → ((k : Kind) (r : Result T Refusal) → F.post reading k r → r ≡ f k)
        → result ≡ reading_for (of_number kind) f (overlay_seen storage.now) }
{
    reading(named_kind(storage, kind)?)
}

// C's words for no and yes: 0 and 1.
fn truth_read(answer: Result<bool, Refusal>) -> Result<u64, Refusal>
    ensures { result ≡ in_number answer }
{
    answer.map(u64::from)
}

// C's word for a version: below 2^32 its bits, else none.
fn version_read(answer: Result<Option<i32>, Refusal>) -> Result<u64, Refusal>
    ensures { result ≡ in_word answer }
{
    answer.map(version_floor::version_word)
}

// How many ids of a kind are live, or how many are deleted; or 22, else 17.
fn side_count(
    words: &[u64],
    bytes: &[u8],
    counters: &[u64; COUNTERS],
    kind: u8,
    side: Side,
) -> Number
    ensures { result ≡ count_number kind side (lent words.now bytes.now counters.now) }
{
    let storage = Storage {
        words,
        bytes,
        counters,
    };
    let reading = |k| overlay_reading::count(&storage, k, side);
    Number::from(of_kind(&storage, kind, reading))
}

// How many ids of a kind are live.
#[unsafe(no_mangle)]
pub extern "C" fn tvk_live_count(
    words: &[u64],
    bytes: &[u8],
    counters: &[u64; COUNTERS],
    kind: u8,
) -> Number
    ensures { result ≡ count_number kind Live (lent words.now bytes.now counters.now) }
{
    side_count(words, bytes, counters, kind, Side::Live)
}

// How many are deleted.
#[unsafe(no_mangle)]
pub extern "C" fn tvk_deleted_count(
    words: &[u64],
    bytes: &[u8],
    counters: &[u64; COUNTERS],
    kind: u8,
) -> Number
    ensures { result ≡ count_number kind Deleted (lent words.now bytes.now counters.now) }
{
    side_count(words, bytes, counters, kind, Side::Deleted)
}

// 1 where no id of any kind is known, else 0.
#[unsafe(no_mangle)]
pub extern "C" fn tvk_is_empty(words: &[u64], bytes: &[u8], counters: &[u64; COUNTERS]) -> Number
    ensures { result ≡ read_number (is_empty_on (lent words.now bytes.now counters.now)) }
{
    let storage = Storage {
        words,
        bytes,
        counters,
    };
    Number::from(truth_read(overlay_reading::is_empty(&storage)))
}

// The bits of the n-th live or the n-th deleted id of a kind in OSM order; or 22, 17, 21.
fn side_id(
    words: &[u64],
    bytes: &[u8],
    counters: &[u64; COUNTERS],
    kind: u8,
    side: Side,
    n: u64,
) -> Number
    ensures { result ≡ id_number kind side n (lent words.now bytes.now counters.now) }
{
    let storage = Storage {
        words,
        bytes,
        counters,
    };
    let reading = |k| overlay_reading::id_at(&storage, k, side, n);
    Number::from(of_kind(&storage, kind, reading))
}

// The bits of the n-th live id in OSM order, or 21.
#[unsafe(no_mangle)]
pub extern "C" fn tvk_live_id(
    words: &[u64],
    bytes: &[u8],
    counters: &[u64; COUNTERS],
    kind: u8,
    n: u64,
) -> Number
    ensures { result ≡ id_number kind Live n (lent words.now bytes.now counters.now) }
{
    side_id(words, bytes, counters, kind, Side::Live, n)
}

// The bits of the n-th deleted id in OSM order, or 21.
#[unsafe(no_mangle)]
pub extern "C" fn tvk_deleted_id(
    words: &[u64],
    bytes: &[u8],
    counters: &[u64; COUNTERS],
    kind: u8,
    n: u64,
) -> Number
    ensures { result ≡ id_number kind Deleted n (lent words.now bytes.now counters.now) }
{
    side_id(words, bytes, counters, kind, Side::Deleted, n)
}

// Where the record of the n-th live id lies in its kind's arena, or 21.
#[unsafe(no_mangle)]
pub extern "C" fn tvk_record(
    words: &[u64],
    bytes: &[u8],
    counters: &[u64; COUNTERS],
    kind: u8,
    n: u64,
) -> Part
    ensures { result ≡ record_part kind n (lent words.now bytes.now counters.now) }
{
    let storage = Storage {
        words,
        bytes,
        counters,
    };
    let reading = |k| overlay_reading::record_at(&storage, k, n);
    Part::from(of_kind(&storage, kind, reading))
}

// Where the record of an id lies, if the id is live.
#[unsafe(no_mangle)]
pub extern "C" fn tvk_get(
    words: &[u64],
    bytes: &[u8],
    counters: &[u64; COUNTERS],
    kind: u8,
    id: i64,
) -> Part
    ensures { result ≡ get_part kind id (lent words.now bytes.now counters.now) }
{
    let storage = Storage {
        words,
        bytes,
        counters,
    };
    let bits = id.cast_unsigned();
    let reading = |k| overlay_reading::get(&storage, k, bits);
    Part::from(of_kind(&storage, kind, reading))
}

// 1 where an id is live, else 0.
#[unsafe(no_mangle)]
pub extern "C" fn tvk_has(
    words: &[u64],
    bytes: &[u8],
    counters: &[u64; COUNTERS],
    kind: u8,
    id: i64,
) -> Number
    ensures { result ≡ has_number kind id (lent words.now bytes.now counters.now) }
{
    let storage = Storage {
        words,
        bytes,
        counters,
    };
    let bits = id.cast_unsigned();
    let reading = |k| truth_read(overlay_reading::has(&storage, k, bits));
    Number::from(of_kind(&storage, kind, reading))
}

// 1 where an id is deleted, else 0.
#[unsafe(no_mangle)]
pub extern "C" fn tvk_is_deleted(
    words: &[u64],
    bytes: &[u8],
    counters: &[u64; COUNTERS],
    kind: u8,
    id: i64,
) -> Number
    ensures { result ≡ is_deleted_number kind id (lent words.now bytes.now counters.now) }
{
    let storage = Storage {
        words,
        bytes,
        counters,
    };
    let bits = id.cast_unsigned();
    let reading = |k| truth_read(overlay_reading::is_deleted(&storage, k, bits));
    Number::from(of_kind(&storage, kind, reading))
}

// The known version of an id as a word: below 2^32 its bits, else none.
#[unsafe(no_mangle)]
pub extern "C" fn tvk_known_version(
    words: &[u64],
    bytes: &[u8],
    counters: &[u64; COUNTERS],
    kind: u8,
    id: i64,
) -> Number
    ensures { result ≡ known_number kind id (lent words.now bytes.now counters.now) }
{
    let storage = Storage {
        words,
        bytes,
        counters,
    };
    let bits = id.cast_unsigned();
    let reading = |k| version_read(overlay_reading::known_version(&storage, k, bits));
    Number::from(of_kind(&storage, kind, reading))
}

// Where the text of a handle lies among the string bytes, or 21.
#[unsafe(no_mangle)]
pub extern "C" fn tvk_text(
    words: &[u64],
    bytes: &[u8],
    counters: &[u64; COUNTERS],
    handle: u64,
) -> Part
    ensures { result ≡ view_part (text_on handle (lent words.now bytes.now counters.now)) }
{
    let storage = Storage {
        words,
        bytes,
        counters,
    };
    Part::from(overlay_reading::text(&storage, handle))
}

// All live or all deleted ids of a kind in OSM order and the known version of each: 22, 17, 19, or how many they are.
// The ids and the versions are two lists, as C lends them, here and in the two entries below. `of_kind` is for readings that change nothing: its contract says nothing of the lists that a reading fills.
fn ids_number(
    words: &[u64],
    bytes: &[u8],
    counters: &[u64; COUNTERS],
    kind: u8,
    side: Side,
    ids: &mut [u64],
    versions: &mut [u64],
) -> Number
    ensures { record { ids = ids.new; versions = versions.new; reply = result }
        ≡ ids_reply kind side ids.old versions.old (lent words.now bytes.now counters.now) }
{
    let storage = Storage {
        words,
        bytes,
        counters,
    };
    match named_kind(&storage, kind) {
        Ok(k) => Number::from(overlay_ids::all_ids(&storage, k, side, ids, versions)),
        Err(refusal) => Number::from(Err(refusal)),
    }
}

// The bits of all live ids of a kind, and their known versions as words.
#[unsafe(no_mangle)]
pub extern "C" fn tvk_live_ids(
    words: &[u64],
    bytes: &[u8],
    counters: &[u64; COUNTERS],
    kind: u8,
    ids: &mut [u64],
    versions: &mut [u64],
) -> Number
    ensures { record { ids = ids.new; versions = versions.new; reply = result }
        ≡ ids_reply kind Live ids.old versions.old (lent words.now bytes.now counters.now) }
{
    ids_number(words, bytes, counters, kind, Side::Live, ids, versions)
}

// The bits of all deleted ids of a kind, and their known versions as words.
#[unsafe(no_mangle)]
pub extern "C" fn tvk_deleted_ids(
    words: &[u64],
    bytes: &[u8],
    counters: &[u64; COUNTERS],
    kind: u8,
    ids: &mut [u64],
    versions: &mut [u64],
) -> Number
    ensures { record { ids = ids.new; versions = versions.new; reply = result }
        ≡ ids_reply kind Deleted ids.old versions.old (lent words.now bytes.now counters.now) }
{
    ids_number(words, bytes, counters, kind, Side::Deleted, ids, versions)
}
