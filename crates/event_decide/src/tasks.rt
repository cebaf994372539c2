// What an event is to do, decided from its line and the place of its reader alone: line, nesting, fields.
// Numbers are held as their bits; a text is as it is written in the line, with its escapes.

ghost use Rattle.std.specs.Prelude.{ℕ, ◌≡◌, List, length, drop, IfOk};
ghost use Rattle.nesting.specs.Name.{name_of};
ghost use Rattle.nesting.specs.Nesting.{opened, closed};
ghost use Rattle.nesting.specs.declared.Place.{Place as ReaderPlace};
ghost use Rattle.line.specs.Line.{fields};
ghost use Rattle.event.specs.Event.{Attr, body};
ghost use Rattle.event_scan.specs.Parts.{written_size, written_in};
ghost use Rattle.event_scan.specs.Fields.{written_left, attributes_left};
ghost use Rattle.event_decision.specs.Decision.{unless_delete, element_begins, child_of, decide_opened, decide_closed, decide};
ghost use Rattle.event_decide.specs.Tasks.{work_means, work_answer, WorkInBounds, WorkWritten, task_means, task_answer, TaskInBounds, TaskWritten};

use event_metadata::values::MetadataValues;
use event_scan::event_line::EventLine;
use event_scan::fields::Attributes;
use event_scan::{MAX_LINE, event_line};
use event_values::{Coordinates, MemberValues, TagValues};
use kind::Kind;
use nesting::{Action, Child, Level, Name, Opening, Place};
use refusal::Refusal;

// An element that is to be pushed, and ends too where it is empty; a node's coordinates, 0 for another kind.
#[derive(Clone, Copy, Debug)]
pub struct NewElement<'a> {
    pub empty: bool,
    pub kind: Kind,
    pub id: u64,
    pub coordinates: Coordinates,
    pub metadata: MetadataValues<'a, MAX_LINE>,
}

// An id of a kind that is to be deleted.
#[derive(Clone, Copy, Debug)]
pub struct OldElement<'a> {
    pub kind: Kind,
    pub id: u64,
    pub metadata: MetadataValues<'a, MAX_LINE>,
}

// What an event is to do.
#[derive(Clone, Copy, Debug)]
pub enum Work<'a> {
    // the place alone changes
    Nothing,
    Begins(NewElement<'a>),
    Deletes(OldElement<'a>),
    // a tag, a ref, a member of the element that stands open
    Tags(TagValues<'a, MAX_LINE>),
    Refers(u64),
    Joins(MemberValues<'a, MAX_LINE>),
    // the element that stands open ends, and is to be pushed
    Ends,
}

// What an event is to do, and where its reader stands after it.
#[derive(Clone, Copy, Debug)]
pub struct Task<'a> {
    pub place: Place,
    pub work: Work<'a>,
}

// ---- an element begins

// Its id, then its metadata, then what it holds at first. In a delete section its id is to be deleted.
fn begins<'a>(
    action: Action,
    empty: bool,
    kind: Kind,
    attributes: &Attributes<'a, MAX_LINE>,
) -> Result<Work<'a>, Refusal>
    ensures means { (p : ReaderPlace) → work_answer p result ≡ element_begins action empty kind p (attributes_left attributes.now) }
    ensures in_bounds { IfOk result (WorkInBounds (written_size (written_left attributes.now))) }
    ensures written { IfOk result (WorkWritten (written_left attributes.now)) }
{
    let id = event_values::integer_field(attributes, b"id")?;
    let metadata = event_metadata::values::metadata_of(attributes)?;
    match action {
        Action::Delete => Ok(Work::Deletes(OldElement { kind, id, metadata })),
        Action::Create | Action::Modify => {
            let coordinates = event_values::body_of(attributes, kind)?;
            Ok(Work::Begins(NewElement {
                empty,
                kind,
                id,
                coordinates,
                metadata,
            }))
        }
    }
}

// ---- inside an element

// In a delete section children are dropped, and the close of the element pushes nothing.
fn unless_deleted<'a>(action: Action, work: &Work<'a>) -> Work<'a>
    ensures means { (p : ReaderPlace) → work_means p result ≡ unless_delete action p (work_means p work.now) }
    ensures in_bounds { (n : ℕ) → WorkInBounds n work.now → WorkInBounds n result }
    ensures written { (attrs : List Attr) → WorkWritten attrs work.now → WorkWritten attrs result }
{
    match action {
        Action::Create | Action::Modify => *work,
        Action::Delete => Work::Nothing,
    }
}

fn child<'a>(
    action: Action,
    child: Child,
    attributes: &Attributes<'a, MAX_LINE>,
) -> Result<Work<'a>, Refusal>
    ensures means { (p : ReaderPlace) → work_answer p result ≡ child_of child action p (attributes_left attributes.now) }
    ensures in_bounds { IfOk result (WorkInBounds (written_size (written_left attributes.now))) }
    ensures written { IfOk result (WorkWritten (written_left attributes.now)) }
{
    let work = match child {
        Child::Tag => Work::Tags(event_values::tag_of(attributes)?),
        Child::Nd => Work::Refers(event_values::integer_field(attributes, b"ref")?),
        Child::Member => Work::Joins(event_values::member_of(attributes)?),
    };
    Ok(unless_deleted(action, &work))
}

// ---- an event

// An open or an empty element of a name.
fn opens<'a>(
    before: Place,
    empty: bool,
    name: &[u8],
    attributes: &Attributes<'a, MAX_LINE>,
) -> Result<Task<'a>, Refusal>
    ensures means { task_answer result ≡ decide_opened (opened empty (name_of name.now) before) empty before.section (attributes_left attributes.now) }
    ensures in_bounds { IfOk result (TaskInBounds (written_size (written_left attributes.now))) }
    ensures written { IfOk result (TaskWritten (written_left attributes.now)) }
{
    match before.open(empty, Name::from(name))? {
        Opening::Goes(place) => Ok(Task {
            place,
            work: Work::Nothing,
        }),
        Opening::Begins(kind, place) => {
            let work = begins(before.section, empty, kind, attributes)?;
            Ok(Task { place, work })
        }
        Opening::Holds(held, place) => {
            let work = child(before.section, held, attributes)?;
            Ok(Task { place, work })
        }
    }
}

// A close: a push happens when its element ends.
fn closes<'a>(before: Place) -> Task<'a>
    ensures means { task_means result ≡ decide_closed before.level before.section (closed before) }
    ensures in_bounds { (n : ℕ) → TaskInBounds n result }
    ensures written { (attrs : List Attr) → TaskWritten attrs result }
{
    let place = before.close();
    match before.level {
        Level::Element => Task {
            place,
            work: unless_deleted(before.section, &Work::Ends),
        },
        _ => Task {
            place,
            work: Work::Nothing,
        },
    }
}

// What an event is to do, or its refusal, 2 to 11, 23 and 24: its line with its line feed, at a place.
pub fn task_of(line: &[u8], place: Place) -> Result<Task<'_>, Refusal>
    ensures means { task_answer result ≡ decide line.now place }
    ensures in_bounds { IfOk result (TaskInBounds (length (body line.now))) }
    ensures written { IfOk result (TaskWritten (written_in (drop 2 (fields (body line.now))))) }
{
    match event_line::read(line)? {
        EventLine::Starts {
            empty,
            name,
            attributes,
        } => opens(place, empty, name, &attributes),
        EventLine::Closes => Ok(closes(place)),
        EventLine::Others => Ok(Task {
            place,
            work: Work::Nothing,
        }),
    }
}
