// The calls of a reader: an event, and the end of its document.
#![tactic(auto)]

ghost use Rattle.std.specs.Prelude.{◌≡◌, true, ◌+◌, ◌<◌};
ghost use Rattle.event_decision.specs.Decision.{decide};
ghost use Rattle.text_index.specs.Chained.{ChainsServe};
ghost use Rattle.text_index.specs.Lent.{chains_seen};
ghost use Rattle.reader.specs.Lent.{state_lent, state_left, state_seen, state_held, IsSameState};
ghost use Rattle.reader.specs.State.{state_sound};
ghost use Rattle.reader.specs.Step.{step_of};
ghost use Rattle.reader.specs.Done.{done_by};
ghost use Rattle.reader.specs.Event.{stepped, event_on, end_on};
ghost use Rattle.reader.specs.Table.{is_done};

use nesting::Level;
use overlay_blocks::COUNTERS;
use reader::{EventReader, ReaderState, ReaderView, RefusedAt};
use reader_stage::STAGED;
use refusal::Refusal;
use text_index::Chains;

// ---- an event

// The number of the next line, where there is one.
fn next_line(lines: u64) -> u64
    ensures { lines < u64.MAX → result ≡ lines + 1 }
{
    lines.saturating_add(1)
}

// The step of an event of a state that was found sound: what is decided of its line, done, or the refusal.
fn line_step(state: &mut ReaderState<'_>, chains: &Chains<'_>, line: &[u8]) -> Result<(), Refusal>
    ensures same { IsSameState state.new state.old }
    ensures done { state_sound (state_held state.old) ≡ true → ChainsServe (chains_seen chains.now) (state_held state.old).overlay.texts
        → record { state = state_held state.new; answer = result }
        ≡ done_by (state_held state.old) (step_of (decide line.now state.old.reader.place) (state_held state.old)) }
{
    let task = event_decide::tasks::task_of(line, state.reader.place)?;
    reader_step::step(state, chains, &task)
}

// An event of a state that was found sound, whose reader is not stopped: its step. The lines count on, or the reader stops: then only its stop mark changes. Chains of
// handles find held texts; where none are kept, empty ones serve.
pub fn event_going(
    state: &mut ReaderState<'_>,
    chains: &Chains<'_>,
    line: &[u8],
) -> Result<(), RefusedAt>
    ensures same { IsSameState state.new state.old }
    ensures value { state_sound (state_held state.old) ≡ true → ChainsServe (chains_seen chains.now) (state_held state.old).overlay.texts
        → record { state = state_held state.new; answer = result }
        ≡ stepped (state_held state.old) (step_of (decide line.now state.old.reader.place) (state_held state.old)) }
{
    let number = next_line(state.reader.lines);
    match line_step(state, chains, line) {
        Ok(()) => {
            state.reader.lines = number;
            state.reader.stop = None;
            Ok(())
        }
        Err(refusal) => {
            let at = RefusedAt {
                refusal,
                line: number,
            };
            state.reader.stop = Some(at);
            Err(at)
        }
    }
}

// An event by its line: 22, the stop mark, or its step: 2 to 16, 23, 24, or it is accepted. A refused event changes its reader's stop mark alone, and 22 and a repeated refusal nothing.
pub fn event_on(state: &mut ReaderState<'_>, line: &[u8]) -> Result<(), RefusedAt>
    ensures same { IsSameState state.new state.old }
    ensures value { record { state = state_held state.new; answer = result } ≡ event_on line.now (state_held state.old) }
{
    let sound = reader_sound::state_sound(&state.view());
    reader_sound::check_going(sound, state.reader.stop)?;
    event_going(state, &Chains::none(), line)
}

// ---- the end

fn is_done(level: Level) -> bool
    ensures { result ≡ is_done level }
{
    matches!(level, Level::Done)
}

// The end of a document: 22, the stop mark, or 18 where the level is not Done. It changes nothing.
pub fn end_on(state: &ReaderView<'_>) -> Result<(), RefusedAt>
    ensures { record { state = state_seen state.now; answer = result } ≡ end_on (state_seen state.now) }
{
    let sound = reader_sound::state_sound(state);
    reader_sound::check_going(sound, state.reader.stop)?;
    if is_done(state.reader.place.level) {
        return Ok(());
    }
    Err(RefusedAt {
        refusal: Refusal::Unfinished,
        line: state.reader.lines + 1,
    })
}

// ---- the same over what is lent one by one, as C lends it

// An event by its line, as `event_on`.
pub fn event(
    words: &mut [u64],
    bytes: &mut [u8],
    counters: &mut [u64; COUNTERS],
    parts: &mut [u8; STAGED],
    reader: &mut EventReader,
    line: &[u8],
) -> Result<(), RefusedAt>
    ensures { record { state = state_left words.new bytes.new counters.new parts.new reader.new; answer = result }
        ≡ event_on line.now (state_lent words.old bytes.old counters.old parts.old reader.old) }
{
    let mut state = ReaderState {
        words,
        bytes,
        counters,
        parts,
        reader: *reader,
    };
    let answer = event_on(&mut state, line);
    *reader = state.reader;
    answer
}

// The end of a document, as `end_on`.
pub fn end(
    words: &[u64],
    bytes: &[u8],
    counters: &[u64; COUNTERS],
    parts: &[u8; STAGED],
    reader: EventReader,
) -> Result<(), RefusedAt>
    ensures { record { state = state_left words.now bytes.now counters.now parts.now reader; answer = result }
        ≡ end_on (state_lent words.now bytes.now counters.now parts.now reader) }
{
    let state = ReaderView {
        words,
        bytes,
        counters,
        parts,
        reader,
    };
    end_on(&state)
}
