// The lookups in lists (sorted.rs). The ids of a list cross as their bits.
ghost use Rattle.std.specs.Prelude.{◌≡◌};
ghost use Rattle.sorted.specs.Lookup.{ids_of, overlap_of, range_of, found_of};
ghost use Rattle.c_replies.specs.Lookups.{overlap_number, span_places, seek_place, found_cursor};

use c_replies::{Cursor, Number, Places};
use sorted::Seek;

#[unsafe(no_mangle)]
pub extern "C" fn tvk_range_overlaps(live: &[u64], deleted: &[u64], min: i64, max: i64) -> Number
    ensures { result ≡ overlap_number (overlap_of (ids_of live.now) (ids_of deleted.now) min max) }
{
    Number::from(sorted::range_overlaps(live, deleted, min, max).map(u64::from))
}

#[unsafe(no_mangle)]
pub extern "C" fn tvk_upsert_range(ids: &[u64], first: i64, last: i64) -> Places
    ensures { result ≡ span_places (range_of (ids_of ids.now) first last) }
{
    Places::from(sorted::upsert_range(ids, first, last))
}

// A cursor at a place is asked for an id.
#[unsafe(no_mangle)]
pub extern "C" fn tvk_seek_find(ids: &[u64], place: usize, id: i64) -> Cursor
    ensures { result ≡ found_cursor (found_of (seek_place place) (ids_of ids.now) id) }
{
    let mut seek = Seek {
        place: c_replies::place_of(place),
    };
    let answer = seek.find(ids, id);
    c_replies::cursor_reply(answer, seek.place)
}
