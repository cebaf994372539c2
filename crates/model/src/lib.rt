// What an act is: kinds, metadata, records, pushes and deletions, over texts or over handles. It has no code but the limits of one element.
#![tactic(auto)]

// "16 an element over 256 tags, 2,000 refs, 2,000 members or 16,384 tag value bytes". `limits` of crate `compact` (specs/Legal) says them for the proofs.
pub const MAX_TAGS: u32 = 256;

pub const MAX_REFS: u32 = 2000;

pub const MAX_MEMBERS: u32 = 2000;

// All values of an element's tags together. A line is at most as long too, but that is another limit (`event_scan::MAX_LINE`).
pub const MAX_TAG_VALUE_BYTES: usize = 16384;

// The largest coordinates, either side of 0: 90 and 180 degrees, in units of 1e-7.
pub const MAX_LAT7: u32 = 900_000_000;

pub const MAX_LON7: u32 = 1_800_000_000;
