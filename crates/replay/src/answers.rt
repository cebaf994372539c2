// The answers, by the words of the questions.
use crate::{fields, write};
use osm_id::OsmIdKey;
use refusal::{Refusal, Reply};
use std::cmp::Ordering;
use std::io;
use version_floor::VersionFloor;

// What the library answers to a question.
#[derive(Clone, Copy, PartialEq, Eq, Debug)]
pub enum Answer {
    Key(OsmIdKey),
    Order(Ordering),
    Floor(Option<i32>),
    Taken(i64),
    Refused(Refusal),
    Text(bool),
}

impl Answer {
    // Writes the fields of an answer, each after a tab. It is no Display: the numbers go through decimal, so that the list tries it too, and decimal writes bytes, where a Display asks for text.
    pub fn write_fields(&self, rt: &impl Print) -> io::Result<()> {
        match *self {
            Answer::Key(k) => {
                write::number(rt, u64::from(k.class))?;
                write::number(rt, k.magnitude)
            }
            Answer::Order(Ordering::Less) => write::number(rt, 0),
            Answer::Order(Ordering::Equal) => write::number(rt, 1),
            Answer::Order(Ordering::Greater) => write::number(rt, 2),
            Answer::Floor(Some(n)) => write::integer(rt, decimal::widened(n.cast_unsigned())),
            Answer::Floor(None) => rt.write_all(b"\t?"),
            Answer::Taken(n) => {
                write::number(rt, 0)?;
                write::integer(rt, n.cast_unsigned())
            }
            Answer::Refused(r) => {
                let reply = Reply::from(r);
                write::number(rt, u64::from(reply.number))?;
                write::integer(rt, decimal::widened(reply.held.cast_unsigned()))
            }
            Answer::Text(legal) => write::number(rt, u64::from(legal)),
        }
    }
}

// The integer of 64 bits that a field writes, as an id is.
fn long(s: &[u8]) -> Option<i64> {
    integer::read::<i64>(s).map(u64::cast_signed)
}

// The integer of 32 bits that a field writes, as a version is.
fn short(s: &[u8]) -> Option<i32> {
    let bits = u32::try_from(integer::read::<i32>(s)?).ok()?;
    Some(bits.cast_signed())
}

// The seconds of the stamp that a field writes.
fn stamp(s: &[u8]) -> Option<i64> {
    stamp::parse_rfc3339_utc(s).map(u64::cast_signed)
}

fn two_ids(a: Option<&[u8]>, b: Option<&[u8]>) -> Option<(i64, i64)> {
    Some((long(a?)?, long(b?)?))
}

fn admit(floor: Option<i32>, claim: Option<i32>) -> Answer {
    match VersionFloor::new(floor).admit(claim) {
        Ok(()) => Answer::Taken(0),
        Err(known) => Answer::Refused(Refusal::Regression(known)),
    }
}

// What a field writes, or the refusal of a field that writes none.
fn field_answer(value: Option<i64>, refusal: Refusal) -> Answer {
    value.map_or(Answer::Refused(refusal), Answer::Taken)
}

// The answer to a question; none where its word is not on the list, or where a field that should be an id is none.
pub fn answer_to(line: &[u8]) -> Option<Answer> {
    let (Some(word), a, b) = (
        fields::field(line, 0),
        fields::field(line, 1),
        fields::field(line, 2),
    ) else {
        return None;
    };
    match word {
        b"key" => a
            .and_then(long)
            .map(|id| Answer::Key(osm_id::osm_id_key(id))),
        b"cmp" => two_ids(a, b).map(|(a, b)| Answer::Order(osm_id::osm_id_cmp(a, b))),
        b"first" => two_ids(a, b).map(|(a, b)| Answer::Key(osm_id::blob_osm_first_key(a, b))),
        b"last" => two_ids(a, b).map(|(a, b)| Answer::Key(osm_id::blob_osm_last_key(a, b))),
        b"admit" => Some(admit(a.and_then(short), b.and_then(short))),
        b"raise" => {
            let floor = VersionFloor::new(a.and_then(short));
            Some(Answer::Floor(floor.raised(b.and_then(short)).0))
        }
        b"i64" => Some(field_answer(a.and_then(long), Refusal::NotInteger)),
        b"i32" => Some(field_answer(a.and_then(short).map(i64::from), Refusal::NotInteger)),
        b"stamp" => Some(field_answer(a.and_then(stamp), Refusal::NotTimestamp)),
        b"text" => {
            // A fixed array: the program has no heap.
            let mut bytes = [0u8; 64];
            let n = fields::bytes_of(a.unwrap_or(b""), &mut bytes);
            Some(Answer::Text(text::is_text(&bytes[..n])))
        }
        _ => None,
    }
}
