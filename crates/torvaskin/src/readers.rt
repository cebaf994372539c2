// A reader: an event, a run of events, and the end of its document. The three differ in what they call and in what they answer; the words are read by one function.
ghost use Rattle.std.specs.Prelude.{◌≡◌};
ghost use Rattle.overlay.specs.Lent.{lent, left};
ghost use Rattle.torvaskin.specs.Readers.{event_reply, events_reply, end_reply};

use c_reader::READER_WORDS;
use c_replies::{EventReply, EventsReply};
use overlay_blocks::COUNTERS;
use reader::RefusedAt;
use reader_stage::STAGED;
use refusal::Refusal;

// Words that are no reader's are 22, which names no line.
pub const NO_READER: RefusedAt = RefusedAt {
    refusal: Refusal::Unsound,
    line: 0,
};

// An event by its line. Words that are no reader's are 22, and nothing changes.
#[unsafe(no_mangle)]
pub extern "C" fn tvk_event(
    words: &mut [u64],
    bytes: &mut [u8],
    counters: &mut [u64; COUNTERS],
    reader: &mut [u64; READER_WORDS],
    parts: &mut [u8; STAGED],
    line: &[u8],
) -> EventReply
    ensures { record { overlay = left words.new bytes.new counters.new; words = reader.new; parts = parts.new; reply = result }
        ≡ event_reply line.now (lent words.old bytes.old counters.old) reader.old parts.old }
{
    match c_reader::reader_of(reader) {
        Some(mut read) => {
            let answer = reader_calls::event(words, bytes, counters, parts, &mut read, line);
            c_reader::put_reader(reader, read);
            EventReply::from(answer)
        }
        None => EventReply::from(Err(NO_READER)),
    }
}

// A run, whatever it holds: 22, or the stop mark. Then its whole lines as events, up to the first that is refused, and what is left of it where that is already too long for a line. What follows
// the bytes that were taken is what was refused, or the unfinished line, which a caller hands over again with what comes after it. Words that are no reader's are 22, and nothing changes.
#[unsafe(no_mangle)]
pub extern "C" fn tvk_events(
    words: &mut [u64],
    bytes: &mut [u8],
    counters: &mut [u64; COUNTERS],
    reader: &mut [u64; READER_WORDS],
    parts: &mut [u8; STAGED],
    run: &[u8],
) -> EventsReply
    ensures { record { overlay = left words.new bytes.new counters.new; words = reader.new; parts = parts.new; reply = result }
        ≡ events_reply run.now (lent words.old bytes.old counters.old) reader.old parts.old }
{
    match c_reader::reader_of(reader) {
        Some(mut read) => {
            let done = reader_events::events(words, bytes, counters, parts, &mut read, run);
            c_reader::put_reader(reader, read);
            c_replies::events_reply(done.answer, done.taken)
        }
        None => c_replies::events_reply(Err(NO_READER), 0),
    }
}

// The end of a document. It changes nothing.
#[unsafe(no_mangle)]
pub extern "C" fn tvk_end(
    words: &[u64],
    bytes: &[u8],
    counters: &[u64; COUNTERS],
    reader: &[u64; READER_WORDS],
    parts: &[u8; STAGED],
) -> EventReply
    ensures { result ≡ end_reply (lent words.now bytes.now counters.now) reader.now parts.now }
{
    match c_reader::reader_of(reader) {
        Some(read) => EventReply::from(reader_calls::end(words, bytes, counters, parts, read)),
        None => EventReply::from(Err(NO_READER)),
    }
}
