// A run of event lines fed to a reader in one call: soundness is tested once, then a step a line; and a rest that is too long for a line is refused.
#![tactic(auto)]

ghost use Rattle.std.specs.Prelude.{◌≡◌, true, ◌≤◌, length};
ghost use Rattle.base.specs.Bytes.{all};
ghost use Rattle.little.specs.Little.{is_byte};
ghost use Rattle.text_index.specs.Chained.{StoreChained, ChainsServe};
ghost use Rattle.text_index.specs.Lent.{chains_seen, chains_held, IsSameChains};
ghost use Rattle.input_lines.specs.Lines.{lines_of};
ghost use Rattle.overlay.specs.Given.{head_fits, meta_fits};
ghost use Rattle.reader.specs.Lent.{state_lent, state_left, state_seen, state_held, IsSameState};
ghost use Rattle.reader.specs.State.{state_sound};
ghost use Rattle.reader.specs.Given.{StateGiven};
ghost use Rattle.reader.specs.Event.{event_on};
ghost use Rattle.reader_events.specs.Events.{events_on, taken_bytes, long_rest, run_lines, run_on};
ghost use Rattle.reader_events.specs.Runs.{RunGiven};

use event_scan::MAX_LINE;
use input_lines::RunLines;
use overlay_blocks::COUNTERS;
use reader::{EventReader, Pending, ReaderState, ReaderView, RefusedAt};
use reader_stage::STAGED;
use text_index::{BUCKETS, Chains, ChainsMut, HANDLES};

// What the last event of a run answered, and how many bytes of the run were taken.
#[derive(Clone, Copy, PartialEq, Eq, Debug)]
pub struct EventsDone {
    pub answer: Result<(), RefusedAt>,
    pub taken: usize,
}

// ---- one line

// A line as an event of a state that is sound but for its count of lines: 22 where that is at its largest, the stop mark, or its step.
pub fn line_event(
    state: &mut ReaderState<'_>,
    chains: &Chains<'_>,
    line: &[u8],
) -> Result<(), RefusedAt>
    ensures same { IsSameState state.new state.old }
    ensures value { RunGiven (state_held state.old) → ChainsServe (chains_seen chains.now) (state_held state.old).overlay.texts
        → record { state = state_held state.new; answer = result } ≡ event_on line.now (state_held state.old) }
{
    let counts = state.reader.lines < u64::MAX;
    reader_sound::check_going(counts, state.reader.stop)?;
    reader_calls::event_going(state, chains, line)
}

// ---- all lines

// What is left behind the lines of a run: where it is already too long for a line it is an event, which refuses it; else it is unfinished.
fn rest_event(
    state: &mut ReaderState<'_>,
    chains: &Chains<'_>,
    rest: &[u8],
) -> Result<(), RefusedAt>
    ensures same { IsSameState state.new state.old }
    ensures value { RunGiven (state_held state.old) → ChainsServe (chains_seen chains.now) (state_held state.old).overlay.texts
        → record { state = state_held state.new; answer = result } ≡ events_on (long_rest rest.now) (state_held state.old) }
{
    if rest.len() <= MAX_LINE {
        return Ok(());
    }
    line_event(state, chains, rest)
}

// All lines, by chains of handles that are brought up to date before each, and then what is left.
fn events_by(state: &mut ReaderState<'_>, chains: &mut ChainsMut<'_>, run: &[u8]) -> EventsDone
    ensures same { IsSameState state.new state.old }
    ensures same_chains { IsSameChains chains.new chains.old }
    ensures answer_value { RunGiven (state_held state.old) → StoreChained (chains_held chains.old) (state_held state.old).overlay.texts
        → record { state = state_held state.new; answer = result.answer } ≡ events_on (run_lines run.now) (state_held state.old) }
    ensures taken_value { RunGiven (state_held state.old) → StoreChained (chains_held chains.old) (state_held state.old).overlay.texts
        → result.taken ≡ taken_bytes (lines_of run.now) (state_held state.old) }
    ensures taken_in_bounds { result.taken ≤ length run.now }
{
    let mut taken: usize = 0;
    for line in (RunLines { rest: run }) {
        overlay_store::chain_texts(chains, &state.view().storage());
        let answer = line_event(state, &chains.chains(), line);
        if answer.is_err() {
            return EventsDone { answer, taken };
        }
        taken += line.len();
    }
    let answer = rest_event(state, &chains.chains(), &run[taken..]);
    EventsDone { answer, taken }
}

// The same as `events_on` with no test of soundness or of the stop mark before the first line: for a caller who knows that the state is sound but for its count of lines, since
// nothing else changed it after a test.
pub fn events_untested(state: &mut ReaderState<'_>, run: &[u8]) -> EventsDone
    ensures same { IsSameState state.new state.old }
    ensures answer_value { RunGiven (state_held state.old)
        → record { state = state_held state.new; answer = result.answer } ≡ events_on (run_lines run.now) (state_held state.old) }
    ensures taken_value { RunGiven (state_held state.old) → result.taken ≡ taken_bytes (lines_of run.now) (state_held state.old) }
    ensures taken_in_bounds { result.taken ≤ length run.now }
{
    // the library has no heap
    let mut lasts = [0u16; BUCKETS];
    let mut befores = [0u16; HANDLES];
    let mut chains = ChainsMut {
        lasts: &mut lasts,
        befores: &mut befores,
        handles: 0,
    };
    events_by(state, &mut chains, run)
}

// ---- what is tested once

// The bytes of a lent slice are bytes. It is called for the proof alone, as listing's is: one public function that does nothing would be no plainer.
fn known_bytes(bytes: &[u8]) -> usize
    ensures { all is_byte bytes.now ≡ true }
{
    little::lesser(bytes.len(), STAGED)
}

// The numbers of an element are numbers of their types.
fn known_pending(pending: Pending) -> usize
    ensures head { head_fits pending.head ≡ true }
    ensures meta { meta_fits pending.meta ≡ true }
{
    pending.used
}

// Whether overlay and reader are sound; and what they are because they are lent.
fn state_tested(state: &ReaderView<'_>) -> bool
    ensures value { result ≡ state_sound (state_seen state.now) }
    ensures state_given { StateGiven (state_seen state.now) }
{
    let (bytes, parts) = (state.bytes, state.parts);
    known_bytes(bytes);
    known_bytes(parts);
    known_pending(state.reader.pending);
    reader_sound::state_sound(state)
}

// ---- the call

// A run. Whatever it holds: 22, or the stop mark. Then its whole lines as events, up to the first that is refused, and what is left of it where that is already too long for a line. What follows
// the bytes that were taken is what was refused, or the unfinished line, which a caller lends again with what comes after it.
pub fn events_on(state: &mut ReaderState<'_>, run: &[u8]) -> EventsDone
    ensures same { IsSameState state.new state.old }
    ensures answer_value { record { state = state_held state.new; answer = result.answer } ≡ run_on run.now (state_held state.old) }
    ensures taken_value { result.taken ≡ taken_bytes (lines_of run.now) (state_held state.old) }
{
    let sound = state_tested(&state.view());
    let answer = reader_sound::check_going(sound, state.reader.stop);
    if answer.is_err() {
        return EventsDone { answer, taken: 0 };
    }
    events_untested(state, run)
}

// The same over what is lent one by one, as C lends it.
pub fn events(
    words: &mut [u64],
    bytes: &mut [u8],
    counters: &mut [u64; COUNTERS],
    parts: &mut [u8; STAGED],
    reader: &mut EventReader,
    run: &[u8],
) -> EventsDone
    ensures answer_value { record { state = state_left words.new bytes.new counters.new parts.new reader.new; answer = result.answer }
        ≡ run_on run.now (state_lent words.old bytes.old counters.old parts.old reader.old) }
    ensures taken_value { result.taken ≡ taken_bytes (lines_of run.now) (state_lent words.old bytes.old counters.old parts.old reader.old) }
{
    let mut state = ReaderState {
        words,
        bytes,
        counters,
        parts,
        reader: *reader,
    };
    let done = events_on(&mut state, run);
    *reader = state.reader;
    done
}
