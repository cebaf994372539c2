// A reader of files: a piece of a file, and its end. The two differ in what they call and in what they answer.
ghost use Rattle.std.specs.Prelude.{◌≡◌};
ghost use Rattle.overlay.specs.Lent.{lent, left};
ghost use Rattle.torvaskin.specs.Files.{piece_reply, file_end_reply};

use crate::readers::NO_READER;
use c_file::{FILE_WORDS, FileWords};
use c_reader::READER_WORDS;
use c_replies::EventReply;
use file_lexer::FILE_BYTES;
use file_reader::{FileReader, FileView};
use overlay_blocks::COUNTERS;
use reader::{EventReader, ReaderState, ReaderView};
use reader_stage::STAGED;

// A piece of a file, whatever it holds: 22, or the stop mark. Then its markups, up to the first that is refused. Words that are no reader's, or no file reader's, are 22,
// and nothing changes.
#[unsafe(no_mangle)]
pub extern "C" fn tvk_file_piece(
    words: &mut [u64],
    bytes: &mut [u8],
    counters: &mut [u64; COUNTERS],
    reader: &mut [u64; READER_WORDS],
    parts: &mut [u8; STAGED],
    file_words: &mut [u64; FILE_WORDS],
    file_bytes: &mut [u8; FILE_BYTES],
    piece: &[u8],
) -> EventReply
    ensures { record {
      overlay = left words.new bytes.new counters.new;
      lent = record { words = reader.new; parts = parts.new; file_words = file_words.new; file_bytes = file_bytes.new };
      reply = result;
    } ≡ piece_reply piece.now (lent words.old bytes.old counters.old)
        (record { words = reader.old; parts = parts.old; file_words = file_words.old; file_bytes = file_bytes.old }) }
{
    match (c_reader::reader_of(reader), c_file::file_of(file_words)) {
        (Some(read), Some(held)) => {
            let mut state = ReaderState {
                words,
                bytes,
                counters,
                parts,
                reader: read,
            };
            let mut file = FileReader {
                bytes: file_bytes,
                lexer: held.lexer,
                named: held.named,
            };
            let answer = file_reader::piece_on(&mut state, &mut file, piece);
            c_reader::put_reader(reader, state.reader);
            let left = FileWords {
                lexer: file.lexer,
                named: file.named,
            };
            c_file::put_file(file_words, left);
            EventReply::from(answer)
        }
        (Some(_), None) => EventReply::from(Err(NO_READER)),
        (None, _) => EventReply::from(Err(NO_READER)),
    }
}

// The end of a file. It changes nothing.
#[unsafe(no_mangle)]
pub extern "C" fn tvk_file_end(
    words: &[u64],
    bytes: &[u8],
    counters: &[u64; COUNTERS],
    reader: &[u64; READER_WORDS],
    parts: &[u8; STAGED],
    file_words: &[u64; FILE_WORDS],
    file_bytes: &[u8; FILE_BYTES],
) -> EventReply
    ensures { result ≡ file_end_reply (lent words.now bytes.now counters.now)
        (record { words = reader.now; parts = parts.now; file_words = file_words.now; file_bytes = file_bytes.now }) }
{
    match (c_reader::reader_of(reader), c_file::file_of(file_words)) {
        (Some(read), Some(held)) => {
            let state = ReaderView {
                words,
                bytes,
                counters,
                parts,
                reader: read,
            };
            let file = FileView {
                bytes: file_bytes,
                lexer: held.lexer,
                named: held.named,
            };
            EventReply::from(file_reader::end_on(&state, &file))
        }
        (Some(_), None) => EventReply::from(Err(NO_READER)),
        (None, _) => EventReply::from(Err(NO_READER)),
    }
}
