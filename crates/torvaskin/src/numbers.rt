// Ids, versions, integer and timestamp fields, and text. Signed arguments and `held` cross as they are; a number that was read, and a version, cross in an unsigned word by
// their bits at their own width: an i32 of -1 is 4,294,967,295.
ghost use Rattle.std.specs.Prelude.{◌≡◌};
ghost use Rattle.std.specs.Int.{w32, w64};
ghost use Rattle.osm_id.specs.Order.{osm_key_of, cmp_of, first_key, last_key, rank};
ghost use Rattle.version_floor.specs.Version.{admit_of, higher, word_of, of_word};
ghost use Rattle.integer.specs.Integer.{read_of};
ghost use Rattle.stamp.specs.Stamp.{stamp_of};
ghost use Rattle.text.specs.Check.{is_text};
ghost use Rattle.c_replies.specs.Numbers.{order_number, truth, admit_reply, integer_number, stamp_number};

use c_replies::Number;
use osm_id::OsmIdKey;
use refusal::{Refusal, Reply};
use version_floor::VersionFloor;

#[unsafe(no_mangle)]
pub extern "C" fn tvk_osm_id_key(id: i64) -> OsmIdKey
    ensures { result ≡ osm_key_of id }
{
    osm_id::osm_id_key(id)
}

// 0 less, 1 equal, 2 greater.
#[unsafe(no_mangle)]
pub extern "C" fn tvk_osm_id_cmp(a: i64, b: i64) -> u8
    ensures { result ≡ order_number (cmp_of a b) }
{
    c_replies::order_number(osm_id::osm_id_cmp(a, b))
}

#[unsafe(no_mangle)]
pub extern "C" fn tvk_blob_osm_first_key(min_id: i64, max_id: i64) -> OsmIdKey
    ensures { result ≡ first_key min_id max_id }
{
    osm_id::blob_osm_first_key(min_id, max_id)
}

#[unsafe(no_mangle)]
pub extern "C" fn tvk_blob_osm_last_key(min_id: i64, max_id: i64) -> OsmIdKey
    ensures { result ≡ last_key min_id max_id }
{
    osm_id::blob_osm_last_key(min_id, max_id)
}

#[unsafe(no_mangle)]
pub extern "C" fn tvk_osm_id_rank(id: i64) -> u64
    ensures { result ≡ rank id }
{
    osm_id::rank_of_bits(id.cast_unsigned())
}

// Versions cross as words: below 2^32 the bits of the number, else none.
#[unsafe(no_mangle)]
pub extern "C" fn tvk_version_admit(floor: u64, claim: u64) -> Reply
    ensures { result ≡ admit_reply (admit_of (of_word floor) (of_word claim)) }
{
    let highest = version_floor::version_of_word(floor);
    let answer = VersionFloor::new(highest).admit(version_floor::version_of_word(claim));
    c_replies::kept_reply(answer.map_err(Refusal::Regression))
}

#[unsafe(no_mangle)]
pub extern "C" fn tvk_version_raise(floor: u64, claim: u64) -> u64
    ensures { result ≡ word_of (higher (of_word floor) (of_word claim)) }
{
    let highest = version_floor::version_of_word(floor);
    let raised = version_floor::higher_of(highest, version_floor::version_of_word(claim));
    version_floor::version_word(raised)
}

#[unsafe(no_mangle)]
pub extern "C" fn tvk_read_i64(s: &[u8]) -> Number
    ensures { result ≡ integer_number (read_of w64 s.now) }
{
    Number::from(integer::read::<i64>(s).ok_or(Refusal::NotInteger))
}

#[unsafe(no_mangle)]
pub extern "C" fn tvk_read_i32(s: &[u8]) -> Number
    ensures { result ≡ integer_number (read_of w32 s.now) }
{
    Number::from(integer::read::<i32>(s).ok_or(Refusal::NotInteger))
}

#[unsafe(no_mangle)]
pub extern "C" fn tvk_parse_rfc3339_utc(s: &[u8]) -> Number
    ensures { result ≡ stamp_number (stamp_of s.now) }
{
    Number::from(stamp::parse_rfc3339_utc(s).ok_or(Refusal::NotTimestamp))
}

// 1 for text, 0 for anything else.
#[unsafe(no_mangle)]
pub extern "C" fn tvk_is_text(s: &[u8]) -> u8
    ensures { result ≡ truth (is_text s.now) }
{
    u8::from(text::is_text(s))
}
