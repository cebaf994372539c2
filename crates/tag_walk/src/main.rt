// Walks records' tags with CompactTagIter and raises a VersionFloor, and prints what it finds.
#![tactic(auto)]

ghost use Rattle.std.specs.Prelude.{◌≡◌};
ghost use Rattle.version_floor.specs.Version.{higher};
ghost use Rattle.compact.specs.Tags.{tags_of};
ghost use Rattle.tag_walk.specs.Walk.{two_of};

use compact::{CompactTagIter, TagPart};
use kind::Kind;
use refusal::{Refusal, Reply};
use std::{fmt, io};
use version_floor::VersionFloor;

// What a floor is once a claim has raised it.
fn raised_to(highest: Option<i32>, claim: Option<i32>) -> Option<i32>
    ensures { result ≡ higher highest claim }
{
    let mut floor = VersionFloor(highest);
    floor.raise(claim);
    floor.0
}

// The first two steps over a record's tags.
fn two_steps(kind: Kind, bytes: &[u8]) -> [Result<Option<TagPart>, Refusal>; 2]
    ensures { result ≡ two_of (tags_of kind bytes.entry) }
{
    let mut tags = CompactTagIter::of(kind, bytes);
    [tags.next(), tags.next()]
}

// A step as a line shows it: a tag, none, or the number of its refusal.
#[derive(Clone, Copy, PartialEq, Eq, Debug)]
struct Shown(Result<Option<TagPart>, Refusal>);

impl fmt::Display for Shown {
    fn fmt<W: fmt::Write>(&self, f: &mut fmt::Formatter<W>) -> fmt::Result {
        match self.0 {
            Ok(Some(tag)) => write!(f, "{} at {} length {}", tag.key, tag.start, tag.len),
            Ok(None) => write!(f, "none"),
            Err(refusal) => write!(f, "{}", Reply::from(refusal).number),
        }
    }
}

// A floor as a line shows it.
#[derive(Clone, Copy, PartialEq, Eq, Debug)]
struct Floor(Option<i32>);

impl fmt::Display for Floor {
    fn fmt<W: fmt::Write>(&self, f: &mut fmt::Formatter<W>) -> fmt::Result {
        match self.0 {
            Some(version) => write!(f, "floor {version}"),
            None => write!(f, "floor none"),
        }
    }
}

fn print_steps(rt: &impl Print, name: &str, kind: Kind, bytes: &[u8]) -> io::Result<()> {
    println!(rt; "{name}")?;
    for step in two_steps(kind, bytes) {
        println!(rt; "{}", Shown(step))?;
    }
    Ok(())
}

// A node with two tags, keys 7 and 9.
fn node() -> [u8; 67] {
    let mut rec = [0u8; 67];
    rec[16] = 2;
    rec[49] = 7;
    rec[53] = 1;
    rec[57] = b'a';
    rec[58] = 9;
    rec[62] = 1;
    rec[66] = b'b';
    rec
}

// A way with one ref and one tag, key 3.
fn way() -> [u8; 62] {
    let mut rec = [0u8; 62];
    rec[8] = 1;
    rec[12] = 1;
    rec[53] = 3;
    rec[57] = 1;
    rec[61] = b'c';
    rec
}

// A relation with one member and a tag whose value is not text.
fn relation() -> [u8; 67] {
    let mut rec = [0u8; 67];
    rec[8] = 1;
    rec[12] = 1;
    rec[58] = 3;
    rec[62] = 1;
    rec[66] = 0xff;
    rec
}

fn main(rt: HostRuntime) -> io::Result<()> {
    print_steps(&rt, "a node with two tags", Kind::Node, &node())?;
    print_steps(&rt, "a way with one tag", Kind::Way, &way())?;
    print_steps(
        &rt,
        "a relation whose tag is not text",
        Kind::Relation,
        &relation(),
    )?;
    print_steps(&rt, "a head that is cut short", Kind::Node, b"0123456789")?;
    let raises = [
        (None, None),
        (None, Some(3)),
        (Some(5), Some(3)),
        (Some(5), Some(8)),
        (Some(5), None),
    ];
    for (highest, claim) in raises {
        println!(&rt; "{}", Floor(raised_to(highest, claim)))?;
    }
    Ok(())
}
