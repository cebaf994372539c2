// A reader as C holds it, in words.
#![tactic(auto)]

ghost use Rattle.std.specs.Prelude.{◌≡◌, leb};
ghost use Rattle.kind.specs.Kind.{kind_number as kind_word};
ghost use Rattle.reader.specs.State.{stops_by};
ghost use Rattle.c_reader.specs.Words.{level_word, section_word, mark_number, mark_line, mark_held, words_of_reader, if_coded, level_in, section_in, kind_in, place_words, head_words, meta_words, refusal_numbered, stop_in, place_coded, head_coded, meta_coded, stop_coded, reader_of_words};

use compact::{ArenaMeta, PushHead};
use kind::Kind;
use nesting::{Action, Level, Place};
use reader::{EventReader, Pending, RefusedAt};
use refusal::{Refusal, Reply};

// How many words a reader takes.
pub const READER_WORDS: usize = 19;

// ---- words read back

// The level of a code. No `TryFrom`, here and for the actions: the enums are nesting's.
fn level_of(word: u64) -> Option<Level>
    ensures { result ≡ if_coded (leb word 6) (level_in word) }
{
    match word {
        0 => Some(Level::Doc),
        1 => Some(Level::Root),
        2 => Some(Level::Section),
        3 => Some(Level::Element),
        4 => Some(Level::Leaf),
        5 => Some(Level::Other),
        6 => Some(Level::Done),
        _ => None,
    }
}

fn section_of(word: u64) -> Option<Action>
    ensures { result ≡ if_coded (leb word 2) (section_in word) }
{
    match word {
        0 => Some(Action::Create),
        1 => Some(Action::Modify),
        2 => Some(Action::Delete),
        _ => None,
    }
}

fn kind_of(word: u64) -> Option<Kind>
    ensures { result ≡ if_coded (leb word 2) (kind_in word) }
{
    Kind::try_from(u8::try_from(word).ok()?).ok()
}

fn place_of(words: &[u64; READER_WORDS]) -> Option<Place>
    ensures { result ≡ if_coded (place_coded words.now) (place_words words.now) }
{
    let level = level_of(words[0])?;
    let section = section_of(words[1])?;
    let kind = kind_of(words[2])?;
    Some(Place {
        level,
        section,
        kind,
    })
}

fn head_of(words: &[u64; READER_WORDS]) -> Option<PushHead>
    ensures { result ≡ if_coded (head_coded words.now) (head_words words.now) }
{
    let lat = u32::try_from(words[4]).ok()?;
    let lon = u32::try_from(words[5]).ok()?;
    let count = u32::try_from(words[6]).ok()?;
    let tags = u32::try_from(words[7]).ok()?;
    Some(PushHead {
        id: words[3],
        lat,
        lon,
        count,
        tags,
    })
}

fn meta_of(words: &[u64; READER_WORDS]) -> Option<ArenaMeta>
    ensures { result ≡ if_coded (meta_coded words.now) (meta_words words.now) }
{
    let flags = u8::try_from(words[8]).ok()?;
    let version = u32::try_from(words[9]).ok()?;
    let uid = u32::try_from(words[12]).ok()?;
    let user = u32::try_from(words[13]).ok()?;
    Some(ArenaMeta {
        flags,
        version,
        timestamp: words[10],
        changeset: words[11],
        uid,
        user,
    })
}

// The refusal of a stop mark's number, with the bits of the known version for 12; none where the number is of no refusal that stops a reader.
#[tactic(auto, using(crate::proofs::Codes::held_back), unfolding(crate::specs::Words::refusal_numbered, reader::specs::State::stops_by))]
fn refusal_of(number: u64, held: u32) -> Option<Refusal>
    ensures { result ≡ if_coded (stops_by (refusal_numbered number held)) (refusal_numbered number held) }
{
    match number {
        2 => Some(Refusal::LongLine),
        3 => Some(Refusal::NotText),
        4 => Some(Refusal::NotEventLine),
        5 => Some(Refusal::Misplaced),
        6 => Some(Refusal::OutsideSection),
        7 => Some(Refusal::Missing),
        8 => Some(Refusal::NotInteger),
        9 => Some(Refusal::NotTimestamp),
        10 => Some(Refusal::CoordinateRange),
        11 => Some(Refusal::MemberType),
        12 => Some(Refusal::Regression(held.cast_signed())),
        13 => Some(Refusal::StringsFull),
        14 => Some(Refusal::IdsFull),
        15 => Some(Refusal::ArenaFull),
        16 => Some(Refusal::TooManyParts),
        23 => Some(Refusal::NotDegrees),
        24 => Some(Refusal::BothForms),
        25 => Some(Refusal::NotMarkup),
        26 => Some(Refusal::UnmatchedEndTag),
        _ => None,
    }
}

// What a reader has for its stop: a mark, or none while it goes on.
type Stop = Option<RefusedAt>;

// The stop of three words, if they are one's.
fn stop_of(number: u64, line: u64, held: u64) -> Option<Stop>
    ensures { result ≡ if_coded (stop_coded number line held) (stop_in number line held) }
{
    if number == 0 {
        return (line == 0 && held == 0).then_some(None);
    }
    let bits = u32::try_from(held).ok()?;
    if number == 12 || bits == 0 {
        let refusal = refusal_of(number, bits)?;
        return Some(Some(RefusedAt { refusal, line }));
    }
    None
}

// The reader of words, if each is a code, or within its field.
pub fn reader_of(words: &[u64; READER_WORDS]) -> Option<EventReader>
    ensures { result ≡ reader_of_words words.now }
{
    let place = place_of(words)?;
    let head = head_of(words)?;
    let meta = meta_of(words)?;
    let stop = stop_of(words[16], words[17], words[18])?;
    let used = words[14] as usize;
    let pending = Pending { head, meta, used };
    Some(EventReader {
        place,
        pending,
        lines: words[15],
        stop,
    })
}

// ---- a reader in words

// The levels and the actions stand in the order of their codes.
fn level_word(level: Level) -> u64
    ensures { result ≡ level_word level }
{
    level as u64
}

fn section_word(section: Action) -> u64
    ensures { result ≡ section_word section }
{
    section as u64
}

// A stop mark in words.
#[derive(Clone, Copy, PartialEq, Eq, Debug)]
struct MarkWords {
    number: u64,
    line: u64,
    held: u64,
}

impl From<Option<RefusedAt>> for MarkWords {
    ghost from_gives = { λ stop words. words ≡ record { number = mark_number stop; line = mark_line stop; held = mark_held stop } };

    fn from(stop: Option<RefusedAt>) -> MarkWords {
        match stop {
            None => MarkWords {
                number: 0,
                line: 0,
                held: 0,
            },
            Some(at) => {
                let reply = Reply::from(at.refusal);
                MarkWords {
                    number: reply.number as u64,
                    line: at.line,
                    held: u64::from(reply.held.cast_unsigned()),
                }
            }
        }
    }
}

// Writes a reader's words.
pub fn put_reader(words: &mut [u64; READER_WORDS], reader: EventReader)
    ensures { words.new ≡ words_of_reader reader }
{
    let EventReader {
        place: Place {
            level,
            section,
            kind,
        },
        pending: Pending { head, meta, used },
        lines,
        stop,
    } = reader;
    let mark = MarkWords::from(stop);
    *words = [
        level_word(level),
        section_word(section),
        u64::from(u8::from(kind)),
        head.id,
        head.lat as u64,
        head.lon as u64,
        head.count as u64,
        head.tags as u64,
        meta.flags as u64,
        meta.version as u64,
        meta.timestamp,
        meta.changeset,
        meta.uid as u64,
        meta.user as u64,
        used as u64,
        lines,
        mark.number,
        mark.line,
        mark.held,
    ];
}
