// What an event and an end test first: whether overlay and reader are sound (22), and whether the reader's stop mark stops it.
#![tactic(auto)]

ghost use Rattle.std.specs.Prelude.{◌≡◌};
ghost use Rattle.reader.specs.Lent.{state_seen};
ghost use Rattle.reader.specs.State.{stops_by, pending_sound, state_sound};
ghost use Rattle.reader_sound.specs.Mark.{stop_mark, going_answer};

use compact::PushRecord;
use kind::Kind;
use overlay_blocks::STRINGS;
use reader::{Pending, ReaderView, RefusedAt};
use refusal::Refusal;

// Whether the staged parts lie within the lent bytes, and the push that they will make passes 17, 3, 10 and 16.
fn pending_sound(strings: u64, kind: Kind, parts: &[u8], pending: Pending) -> bool
    ensures { result ≡ pending_sound strings kind parts.now pending }
{
    let Pending { head, meta, used } = pending;
    let Some(parts) = parts.get(..used) else {
        return false;
    };
    let push = PushRecord {
        kind,
        head,
        meta,
        parts,
    };
    compact_legal::record_fault(&push, strings).is_ok()
}

// Whether overlay and reader are sound.
#[tactic(auto, unfolding(reader::specs::State::state_sound, reader::specs::State::reader_sound, base::specs::Bytes::both))]
pub fn state_sound(state: &ReaderView<'_>) -> bool
    ensures { result ≡ state_sound (state_seen state.now) }
{
    let ReaderView {
        counters,
        parts,
        reader,
        ..
    } = *state;
    state.storage().is_sound()
        && pending_sound(counters[STRINGS], reader.place.kind, parts, reader.pending)
        && reader.lines < u64::MAX
}

// Whether a refusal stops the reader of its event.
#[tactic(auto, unfolding(reader::specs::State::stops_by))]
fn stops_by(refusal: Refusal) -> bool
    ensures { result ≡ stops_by refusal }
{
    matches!(
        refusal,
        Refusal::LongLine
            | Refusal::NotText
            | Refusal::NotEventLine
            | Refusal::Misplaced
            | Refusal::OutsideSection
            | Refusal::Missing
            | Refusal::NotInteger
            | Refusal::NotTimestamp
            | Refusal::CoordinateRange
            | Refusal::MemberType
            | Refusal::Regression(_)
            | Refusal::StringsFull
            | Refusal::IdsFull
            | Refusal::ArenaFull
            | Refusal::TooManyParts
            | Refusal::NotDegrees
            | Refusal::BothForms
            | Refusal::NotMarkup
            | Refusal::UnmatchedEndTag
    )
}

// The mark that stops a reader; a mark that no refused event leaves stops nothing.
#[tactic(auto, unfolding(crate::specs::Mark::stop_mark))]
pub fn mark_of(stop: Option<RefusedAt>) -> Option<RefusedAt>
    ensures { result ≡ stop_mark stop }
{
    stop.filter(|at| stops_by(at.refusal))
}

// What an event and an end are answered before their own step: 22, which names no line, where the state is not sound; then the stop mark.
#[tactic(auto, unfolding(crate::specs::Mark::going_answer))]
pub fn check_going(sound: bool, stop: Option<RefusedAt>) -> Result<(), RefusedAt>
    ensures { result ≡ going_answer sound stop }
{
    if !sound {
        return Err(RefusedAt {
            refusal: Refusal::Unsound,
            line: 0,
        });
    }
    if let Some(at) = mark_of(stop) {
        return Err(at);
    }
    Ok(())
}
