// What the program `roadlist` prints: the listing or the `refused` line, at the end of its input. Before that pieces are taken in (crate `input_pieces`).
#![tactic(auto)]

ghost use Rattle.std.specs.Prelude.{◌≡◌, length};
ghost use Rattle.overlay.specs.Lent.{lent_for};
ghost use Rattle.reader.specs.Lent.{state_left, state_seen, state_held, IsSameState};
ghost use Rattle.input_pieces.specs.Feed.{state_at_end};
ghost use Rattle.input_pieces.specs.Lent.{intake_lent};
ghost use Rattle.program_ending.specs.Ending.{end_output};
ghost use Rattle.roadlist_page.specs.Roadlist.{program_sizes, start_on, ending_at};
ghost use Rattle.roadlist_page.specs.Finish.{finish_on};

use event_scan::MAX_LINE;
use input_pieces::InputBuffer;
use overlay::StorageTables;
use overlay_blocks::{COUNTERS, KindSize, Sizes};
use program_ending::Ended;
use reader::{EventReader, ReaderState, ReaderView};
use reader_stage::STAGED;

// The words and bytes of the program's overlay, as its sizes ask: 512 ids of each of three kinds, three words an id, and 512 strings, two words a string; four parts of 8,192 bytes.
pub const WORDS: usize = 5632;

pub const BYTES: usize = 32768;

// How many bytes the program prints at most.
pub const MAX_OUTPUT: usize = 65536;

// "512 ids and 8,192 arena bytes a kind, 512 strings, 8,192 string bytes"
fn program_sizes() -> Sizes
    ensures { result ≡ program_sizes }
{
    let kind = KindSize {
        ids: 512,
        bytes: 8192,
    };
    Sizes {
        nodes: kind,
        ways: kind,
        relations: kind,
        strings: 512,
        string_bytes: 8192,
    }
}

// An empty overlay, regression refused, and a fresh reader. The arrays are lent one by one: their types say that the sizes are theirs.
pub fn start(
    words: &mut [u64; WORDS],
    bytes: &[u8; BYTES],
    counters: &mut [u64; COUNTERS],
    ps: &[u8; STAGED],
) -> EventReader
    ensures { state_left words.new bytes.now counters.new ps.now result
        ≡ start_on (lent_for program_sizes words.old bytes.now counters.old) ps.now }
{
    let mut tables = StorageTables {
        words,
        bytes,
        counters,
    };
    // the sizes are those of the arrays, so it is not refused
    let _ = tables.set_up(program_sizes(), 0);
    EventReader::default()
}

// A last line without its line feed is an event too.
fn take_last(state: &mut ReaderState<'_>, last: &[u8])
    ensures same { IsSameState state.new state.old }
    ensures value { state_held state.new ≡ state_at_end (record { state = state_held state.old; buffer = last.now; held = length last.now }) }
{
    if last.is_empty() {
        return;
    }
    // a refusal stands in the reader's stop mark
    let _ = reader_calls::event_on(state, last);
}

// What the end answers: its refusal, or the page.
fn put_end(state: &ReaderView<'_>, out: &mut [u8; MAX_OUTPUT]) -> Ended
    ensures { record { out = out.new; written = result.written; refusal = result.refusal } ≡ end_output out.old (ending_at (state_seen state.now)) }
{
    let answer = reader_calls::end_on(state);
    program_ending::put_ending(state, answer, out)
}

// The end of the input: a last line, the end of the document, then the listing or the `refused` line at the start of the output. Of the bytes held at most `MAX_LINE` count.
pub fn finish(
    state: &mut ReaderState<'_>,
    input: &InputBuffer<'_>,
    out: &mut [u8; MAX_OUTPUT],
) -> Ended
    ensures same { IsSameState state.new state.old }
    ensures value { record {
      overlay = (state_held state.new).overlay;
      parts = (state_held state.new).parts;
      output = record { out = out.new; written = result.written; refusal = result.refusal };
    } ≡ finish_on out.old (intake_lent state.old input.now) }
{
    let held = little::lesser(input.held, MAX_LINE);
    let bytes: &[u8] = input.bytes;
    take_last(state, &bytes[..held]);
    put_end(&state.view(), out)
}
