// An input in pieces: the whole lines of a piece are events, up to the first that is refused, and the unfinished line is held for the next piece.
#![tactic(auto)]

ghost use Rattle.std.specs.Prelude.{◌≡◌, ◌+◌, ◌≤◌, length, take};
ghost use Rattle.reader.specs.Lent.{state_held, IsSameState};
ghost use Rattle.reader_events.specs.Runs.{RunGiven};
ghost use Rattle.input_pieces.specs.Feed.{feed_on};
ghost use Rattle.input_pieces.specs.Lent.{intake_lent, intake_left};

use event_scan::MAX_LINE;
use reader::{ReaderState, RefusedAt};

// How many bytes of a piece count.
pub const MAX_PIECE: usize = 65536;

// The bytes of a buffer: the longest unfinished line, and a piece behind it.
pub const BUFFER: usize = MAX_LINE + MAX_PIECE;

// ---- a piece of the input

// A piece behind the bytes that are held, its lines as events, and the unfinished line at the front of the buffer: the answer, and how many bytes that line has. The buffer is a slice with a
// count: of an array that a struct lends a proof learns nothing after a part of it was written.
fn take_piece(
    state: &mut ReaderState<'_>,
    buffer: &mut [u8],
    held: usize,
    piece: &[u8],
) -> (Result<(), RefusedAt>, usize)
    requires { held + length piece.now ≤ length buffer.old }
    ensures same { IsSameState state.new state.old }
    ensures value { RunGiven (state_held state.old)
        → record { intake = record { state = state_held state.new; buffer = buffer.new; held = result.1 }; answer = result.0 }
        ≡ feed_on piece.now (record { state = state_held state.old; buffer = buffer.old; held = held }) }
{
    let n = input_buffer::join_piece(buffer, held, piece);
    let done = reader_events::events_untested(state, &buffer[..n]);
    let held = input_buffer::keep_front(&mut buffer[..n], done.answer, done.taken);
    (done.answer, held)
}

// What is held of an input between two pieces: its unfinished line, at the front of a buffer that has room for a piece behind it.
#[derive(Drop)]
pub struct InputBuffer<'a> {
    pub bytes: &'a mut [u8; BUFFER],
    pub held: usize,
}

// A piece of the input, of which at most `MAX_PIECE` bytes count: its whole lines are events, up to the first that is refused, and the unfinished line is held at the front
// of the buffer. Of the bytes held so far at most `MAX_LINE` count. Soundness is not tested: for a caller who knows that the state is sound but for its count of lines.
pub fn feed(
    state: &mut ReaderState<'_>,
    input: &mut InputBuffer<'_>,
    piece: &[u8],
) -> Result<(), RefusedAt>
    ensures same { IsSameState state.new state.old }
    ensures same_bytes { input.new.bytes.ghost_name ≡ input.old.bytes.ghost_name }
    ensures value { RunGiven (state_held state.old)
        → record { intake = intake_left state.new input.new; answer = result } ≡ feed_on (take MAX_PIECE piece.now) (intake_lent state.old input.old) }
{
    let held = little::lesser(input.held, MAX_LINE);
    let piece = &piece[..little::lesser(MAX_PIECE, piece.len())];
    let (answer, held) = take_piece(state, input.bytes, held, piece);
    input.held = held;
    answer
}
