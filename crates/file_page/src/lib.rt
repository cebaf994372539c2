// What the program `roadfile` prints: the listing or the `refused` line, at the end of its file. Before that pieces are taken in (crate `file_reader`).
#![tactic(auto)]

ghost use Rattle.std.specs.Prelude.{◌≡◌};
ghost use Rattle.overlay.specs.Lent.{lent_for};
ghost use Rattle.reader.specs.Lent.{state_left};
ghost use Rattle.file_lexer.specs.Held.{where_of};
ghost use Rattle.file_reader.specs.Held.{file_seen};
ghost use Rattle.program_ending.specs.Ending.{end_output};
ghost use Rattle.file_page.specs.Roadfile.{program_sizes, start_on, file_ending};

use file_lexer::{Before, FILE_BYTES, FilePlace, Lexer};
use file_reader::FileView;
use overlay::StorageTables;
use overlay_blocks::{COUNTERS, KindSize, Sizes};
use program_ending::Ended;
use reader::{EventReader, ReaderView};
use reader_stage::STAGED;

// The words and bytes of the program's overlay, as its sizes ask: 4,096 ids of each of three kinds, three words an id, and 4,096 strings, two words a string; three parts of
// 1,048,576 bytes and one of 65,536.
pub const WORDS: usize = 45056;

pub const BYTES: usize = 3211264;

// How many bytes the program prints at most.
pub const MAX_OUTPUT: usize = 2097152;

// The most that an overlay can have: 4,096 ids and 1,048,576 arena bytes a kind, 4,096 strings, 65,536 string bytes.
fn program_sizes() -> Sizes
    ensures { result ≡ program_sizes }
{
    let kind = KindSize {
        ids: 4096,
        bytes: 1048576,
    };
    Sizes {
        nodes: kind,
        ways: kind,
        relations: kind,
        strings: 4096,
        string_bytes: 65536,
    }
}

// A file's reader before the first byte, as `FileReader` has it: a fresh reader of events, where it stands in the file, and that no name is kept.
#[derive(Clone, Copy, PartialEq, Eq, Debug)]
pub struct Started {
    pub reader: EventReader,
    pub lexer: Lexer,
    pub named: usize,
}

// An empty overlay, regression refused, and a file's reader before the first byte. The arrays are lent one by one: their types say that the sizes are theirs.
pub fn start(
    words: &mut [u64; WORDS],
    bytes: &[u8; BYTES],
    counters: &mut [u64; COUNTERS],
    ps: &[u8; STAGED],
    file: &[u8; FILE_BYTES],
) -> Started
    ensures { record {
      state = state_left words.new bytes.now counters.new ps.now result.reader;
      place = where_of result.lexer.place;
      feeds = result.lexer.feeds;
      bytes = file.now;
      used = result.lexer.used;
      named = result.named;
    } ≡ start_on (lent_for program_sizes words.old bytes.now counters.old) ps.now file.now }
{
    let mut tables = StorageTables {
        words,
        bytes,
        counters,
    };
    // the sizes are those of the arrays, so it is not refused
    let _ = tables.set_up(program_sizes(), 0);
    Started {
        reader: EventReader::default(),
        lexer: Lexer {
            place: FilePlace::Text(Before::Nothing),
            feeds: 0,
            used: 0,
        },
        named: 0,
    }
}

// The end of the file: the listing or the `refused` line at the start of the output.
pub fn finish(state: &ReaderView<'_>, file: &FileView<'_>, out: &mut [u8; MAX_OUTPUT]) -> Ended
    ensures { record { out = out.new; written = result.written; refusal = result.refusal } ≡ end_output out.old (file_ending (file_seen state.now file.now)) }
{
    let answer = file_reader::end_on(state, file);
    program_ending::put_ending(state, answer, out)
}
