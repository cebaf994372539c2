// What an event is to do, done in storage: one call a work, and then the reader's place moves on. What is done is a deed: its metadata stands in bits, and any bits may be given.
#![tactic(auto)]

ghost use Rattle.std.specs.Prelude.{◌≡◌, ◌≤◌, cond, is_some, length};
ghost use Rattle.std.specs.Int.{w32, w64};
ghost use Rattle.std.proofs.Common.{SFits, to_z, of_z};
ghost use Rattle.nesting.specs.declared.Place.{Place as ReaderPlace};
ghost use Rattle.event_decision.specs.Decision.{refers, ends};
ghost use Rattle.event_metadata.specs.Values.{flags_of, metadata_means};
ghost use Rattle.event_decide.specs.Tasks.{work_means, task_means};
ghost use Rattle.text_index.specs.Lent.{chains_seen};
ghost use Rattle.reader.specs.Lent.{state_held, IsSameState};
ghost use Rattle.reader.specs.Step.{step_of};
ghost use Rattle.reader.specs.Done.{done_by, Works};
ghost use Rattle.reader_acts.specs.Acts.{act_means, UserShort};
ghost use Rattle.reader_parts.specs.Parts.{StepGiven};
ghost use Rattle.reader_step.specs.declared.Deed.TheVariants as D;
ghost use Rattle.reader_step.specs.Deeds.{deed_means, DeedShort};

use compact::ArenaMeta;
use event_decide::tasks::{Task, Work};
use event_metadata::values::MetadataValues;
use event_scan::MAX_LINE;
use event_values::{Coordinates, MemberValues, TagValues};
use kind::Kind;
use nesting::Place;
use overlay::StorageMut;
use reader::ReaderState;
use reader_acts::Act;
use refusal::Refusal;
use text_index::Chains;

// An element that begins, a node with its coordinates; one that is empty ends too.
#[derive(Clone, Copy)]
pub struct Beginning<'a, const N: usize> {
    pub act: Act<'a, N>,
    pub coordinates: Coordinates,
    pub empty: bool,
}

// What is to be done in storage, or the refusal of an event, of which nothing is done.
#[derive(Clone, Copy)]
pub enum Deed<'a, const N: usize> {
    Refuses(Refusal),
    // the place alone changes
    Nothing,
    Begins(Beginning<'a, N>),
    Deletes(Act<'a, N>),
    // a tag, a ref, a member of the element that stands open
    Tags(TagValues<'a, N>),
    Refers(u64),
    Joins(MemberValues<'a, N>),
    // the element that stands open ends, and is to be pushed
    Ends,
}

// ---- metadata in bits

// A flag that is set or not.
fn mark(yes: bool, flag: u8) -> u8
    ensures value { result ≡ cond yes flag 0 }
    ensures bound { result ≤ flag }
{
    if yes { flag } else { 0 }
}

// "Flags: 1 present, 2 hidden, 4 has user, 8 has version"
fn flags(metadata: &MetadataValues<'_, MAX_LINE>) -> u8
    ensures { result ≡ flags_of metadata.now.given metadata.now.hidden (is_some metadata.now.user) (is_some metadata.now.version) }
{
    mark(metadata.given, 1)
        + mark(metadata.hidden, 2)
        + mark(metadata.user.is_some(), 4)
        + mark(metadata.version.is_some(), 8)
}

// An act on an element of a kind and id, with its metadata.
fn act_of<'a>(kind: Kind, id: u64, metadata: &MetadataValues<'a, MAX_LINE>) -> Act<'a, MAX_LINE>
    ensures element { (result.kind ≡ kind) × (result.id ≡ id) }
    ensures means { act_means result ≡ metadata_means metadata.now }
{
    let meta = ArenaMeta {
        flags: flags(metadata),
        version: metadata.version.unwrap_or(0),
        timestamp: metadata.timestamp,
        changeset: metadata.changeset,
        uid: metadata.uid,
        user: 0,
    };
    Act {
        kind,
        id,
        meta,
        user: metadata.user,
    }
}

// The deed that the work of an event is.
fn deed_of<'a>(work: &Work<'a>) -> Deed<'a, MAX_LINE>
    ensures means { (p : ReaderPlace) → deed_means p result ≡ work_means p work.now }
    ensures short { DeedShort result }
{
    match work {
        Work::Nothing => Deed::Nothing,
        Work::Begins(element) => Deed::Begins(Beginning {
            act: act_of(element.kind, element.id, &element.metadata),
            coordinates: element.coordinates,
            empty: element.empty,
        }),
        Work::Deletes(element) => {
            Deed::Deletes(act_of(element.kind, element.id, &element.metadata))
        }
        Work::Tags(tag) => Deed::Tags(*tag),
        Work::Refers(reference) => Deed::Refers(*reference),
        Work::Joins(member) => Deed::Joins(*member),
        Work::Ends => Deed::Ends,
    }
}

// ---- work

fn begin<const N: usize>(
    state: &mut ReaderState<'_>,
    chains: &Chains<'_>,
    beginning: &Beginning<'_, N>,
) -> Result<(), Refusal>
    ensures same { IsSameState state.new state.old }
    ensures works { UserShort beginning.now.act.user → StepGiven (chains_seen chains.now) (state_held state.old)
        → Works (λ p. deed_means p (D.Begins beginning.now)) (state_held state.old) (record { state = state_held state.new; answer = result }) }
{
    let mut storage = StorageMut {
        words: state.words,
        bytes: state.bytes,
        counters: state.counters,
    };
    state.reader.pending = reader_elements::begin(
        &mut storage,
        chains,
        &beginning.act,
        beginning.coordinates,
        beginning.empty,
    )?;
    Ok(())
}

fn delete<const N: usize>(
    state: &mut ReaderState<'_>,
    chains: &Chains<'_>,
    act: &Act<'_, N>,
) -> Result<(), Refusal>
    ensures same { IsSameState state.new state.old }
    ensures works { UserShort act.now.user → StepGiven (chains_seen chains.now) (state_held state.old)
        → Works (λ p. deed_means p (D.Deletes act.now)) (state_held state.old) (record { state = state_held state.new; answer = result }) }
{
    let mut storage = StorageMut {
        words: state.words,
        bytes: state.bytes,
        counters: state.counters,
    };
    state.reader.pending = reader_elements::delete(&mut storage, chains, act)?;
    Ok(())
}

// The element that stands open ends.
fn end(state: &mut ReaderState<'_>) -> Result<(), Refusal>
    ensures same { IsSameState state.new state.old }
    ensures works { Works (λ p. ends p) (state_held state.old) (record { state = state_held state.new; answer = result }) }
{
    let mut storage = StorageMut {
        words: state.words,
        bytes: state.bytes,
        counters: state.counters,
    };
    let reader = state.reader;
    state.reader.pending = reader_elements::end(
        &mut storage,
        reader.place.kind,
        reader.pending,
        state.parts,
    )?;
    Ok(())
}

// A ref more.
fn add_ref(state: &mut ReaderState<'_>, reference: u64) -> Result<(), Refusal>
    ensures same { IsSameState state.new state.old }
    ensures works { state.old.reader.pending.used ≤ length state.old.parts.now
        → Works (λ p. refers p (to_z w64 reference)) (state_held state.old) (record { state = state_held state.new; answer = result }) }
{
    let reader = state.reader;
    state.reader.pending = reader_parts::add_ref(
        state.parts,
        reader.place.kind,
        reader.pending,
        reference,
    )?;
    Ok(())
}

fn work<const N: usize>(
    state: &mut ReaderState<'_>,
    chains: &Chains<'_>,
    deed: &Deed<'_, N>,
) -> Result<(), Refusal>
    ensures same { IsSameState state.new state.old }
    ensures works { DeedShort deed.now → StepGiven (chains_seen chains.now) (state_held state.old)
        → Works (λ p. deed_means p deed.now) (state_held state.old) (record { state = state_held state.new; answer = result }) }
{
    match deed {
        Deed::Refuses(refusal) => Err(*refusal),
        Deed::Nothing => Ok(()),
        Deed::Begins(beginning) => begin(state, chains, beginning),
        Deed::Deletes(act) => delete(state, chains, act),
        Deed::Tags(tag) => reader_parts::add_tag(state, chains, &tag.key, &tag.value),
        Deed::Refers(reference) => add_ref(state, *reference),
        Deed::Joins(member) => reader_parts::add_member(
            state,
            chains,
            member.reference,
            member.kind,
            &member.role,
        ),
        Deed::Ends => end(state),
    }
}

// ---- a step

// A deed done: the refusal that it is, 12 to 16, or the reader stands at the place. Its texts may have any length, and its metadata any bits; the step is promised where the texts are no longer than a line
// may be. Chains of handles find held texts; where none are kept, empty ones serve.
pub fn step_deed<const N: usize>(
    state: &mut ReaderState<'_>,
    chains: &Chains<'_>,
    place: Place,
    deed: &Deed<'_, N>,
) -> Result<(), Refusal>
    ensures same { IsSameState state.new state.old }
    ensures done { DeedShort deed.now → StepGiven (chains_seen chains.now) (state_held state.old)
        → record { state = state_held state.new; answer = result } ≡ done_by (state_held state.old) (step_of (deed_means place deed.now) (state_held state.old)) }
{
    work(state, chains, deed)?;
    state.reader.place = place;
    Ok(())
}

// What an event is to do, done: 12 to 16, or the reader stands at the place after it. Chains of handles find held texts; where none are kept, empty ones serve.
pub fn step(
    state: &mut ReaderState<'_>,
    chains: &Chains<'_>,
    task: &Task<'_>,
) -> Result<(), Refusal>
    ensures same { IsSameState state.new state.old }
    ensures done { StepGiven (chains_seen chains.now) (state_held state.old)
        → record { state = state_held state.new; answer = result } ≡ done_by (state_held state.old) (step_of (task_means task.now) (state_held state.old)) }
{
    let deed = deed_of(&task.work);
    step_deed(state, chains, task.place, &deed)
}
