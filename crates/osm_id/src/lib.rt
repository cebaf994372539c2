// OSM element ids: their canonical order, their keys, and their rank in that order (osm_id.rs).
#![tactic(auto)]

ghost use Rattle.std.specs.Prelude.{◌≡◌};
ghost use Rattle.std.specs.Int.{w64};
ghost use Rattle.std.proofs.Common.{to_z};
ghost use Rattle.osm_id.specs.Order.{osm_key_of, cmp_of, first_key, last_key, rank, id_of};

use std::cmp::Ordering;

// The canonical-order key: class 0 for zero, 1 for a negative id, 2 for a positive one; and the magnitude. Keys compare by class first.
// The class is a number and no enum, since the key crosses to C as it is, and since keys are ordered by that number.
#[repr(C)]
#[derive(Clone, Copy, PartialEq, Eq, PartialOrd, Ord, Debug)]
pub struct OsmIdKey {
    pub class: u8,
    pub magnitude: u64,
}

// The key of an id. It is a function and no `From`: it has the Rust's name.
pub fn osm_id_key(id: i64) -> OsmIdKey
    ensures { result ≡ osm_key_of id }
{
    OsmIdKey {
        class: match id {
            0 => 0,
            ..0 => 1,
            1.. => 2,
        },
        magnitude: id.unsigned_abs(),
    }
}

// The rank of an id that is given in bits: its place among all ids in canonical order. Id tables hold it, since plain `<` is that order.
pub fn rank_of_bits(bits: u64) -> u64
    ensures { result ≡ rank (to_z w64 bits) }
{
    let id = bits.cast_signed();
    match id {
        ..1 => id.unsigned_abs(),
        1.. => 0x8000_0000_0000_0000 + id.unsigned_abs(),
    }
}

// The id of a rank.
pub fn osm_id_of_rank(r: u64) -> i64
    ensures { result ≡ id_of r }
{
    match r {
        0 => 0,
        1..=0x8000_0000_0000_0000 => (0xffff_ffff_ffff_ffff - (r - 1)).cast_signed(),
        _ => (r - 0x8000_0000_0000_0000).cast_signed(),
    }
}

pub fn osm_id_cmp(a: i64, b: i64) -> Ordering
    ensures { result ≡ cmp_of a b }
{
    rank_of_bits(a.cast_unsigned()).cmp(&rank_of_bits(b.cast_unsigned()))
}

// Here and below the two numbers stand apart, as C lends them: a struct of both would be made and taken apart at once.
// The least key of the ids from min_id to max_id.
pub fn blob_osm_first_key(min_id: i64, max_id: i64) -> OsmIdKey
    ensures { result ≡ first_key min_id max_id }
{
    let first = if 0 <= min_id { min_id } else { max_id.min(0) };
    osm_id_key(first)
}

// The greatest key of the ids from min_id to max_id.
pub fn blob_osm_last_key(min_id: i64, max_id: i64) -> OsmIdKey
    ensures { result ≡ last_key min_id max_id }
{
    let last = if min_id < 0 && max_id <= 0 {
        min_id
    } else {
        max_id
    };
    osm_id_key(last)
}
