// The nesting machine of an OsmChange document (xml_parse.rs: `handle_open` and `handle_close`, without their sink).
#![tactic(auto)]

ghost use Rattle.std.specs.Prelude.{◌≡◌, drop};
ghost use Rattle.nesting.specs.Name.{spellings, name_in, name_of, kind_named};
ghost use Rattle.nesting.specs.Nesting.{at, unless, section_of, begins_as, in_doc, in_root, in_section, in_element, opened, closed_to, closed};
ghost use Rattle.nesting.specs.Opening.{opening_of};

use kind::Kind;
use refusal::Refusal;

// An element's name; `bbox` and `bounds` are one, every name that the document does not give is Unknown. An Option in its place was no plainer: under the root an unknown name is taken as the
// names of children are.
#[derive(Clone, Copy, PartialEq, Eq, Debug)]
pub enum Name {
    OsmChange,
    Create,
    Modify,
    Delete,
    Node,
    Way,
    Relation,
    Tag,
    Nd,
    Member,
    Bounds,
    Unknown,
}

// A section's action.
#[derive(Clone, Copy, PartialEq, Eq, Debug)]
pub enum Action {
    Create,
    Modify,
    Delete,
}

// Where in the document the reader stands.
#[derive(Clone, Copy, PartialEq, Eq, Debug)]
pub enum Level {
    Doc,
    Root,
    Section,
    Element,
    Leaf,
    Other,
    Done,
}

// The level, with the section and the element that are open or were open last.
#[derive(Clone, Copy, PartialEq, Eq, Debug)]
pub struct Place {
    pub level: Level,
    pub section: Action,
    pub kind: Kind,
}

// A child that an element keeps.
#[derive(Clone, Copy, PartialEq, Eq, Debug)]
pub enum Child {
    Tag,
    Nd,
    Member,
}

// What an open or an empty element does at a place where it may stand.
#[derive(Clone, Copy, PartialEq, Eq, Debug)]
pub enum Opening {
    // only the place changes
    Goes(Place),
    // an element of a kind begins
    Begins(Kind, Place),
    // a child of the open element
    Holds(Child, Place),
}

// An element's name by its bytes.
impl From<&[u8]> for Name {
    ghost from_gives = { λ s name. name ≡ name_of s.now };

    fn from(s: &[u8]) -> Name {
        // the names of the document and its sections are longer
        if s.len() < 6 {
            return object_name(s);
        }
        if distinct::equal(s, b"osmChange".as_slice()) {
            return Name::OsmChange;
        }
        if distinct::equal(s, b"create".as_slice()) {
            return Name::Create;
        }
        if distinct::equal(s, b"modify".as_slice()) {
            return Name::Modify;
        }
        if distinct::equal(s, b"delete".as_slice()) {
            return Name::Delete;
        }
        object_name(s)
    }
}

// The names of elements with a kind, then those of what they hold.
fn object_name(s: &[u8]) -> Name
    ensures { result ≡ name_in (drop 4 spellings) s.now }
{
    if distinct::equal(s, b"node".as_slice()) {
        return Name::Node;
    }
    if distinct::equal(s, b"way".as_slice()) {
        return Name::Way;
    }
    if distinct::equal(s, b"relation".as_slice()) {
        return Name::Relation;
    }
    child_name(s)
}

fn child_name(s: &[u8]) -> Name
    ensures { result ≡ name_in (drop 7 spellings) s.now }
{
    if distinct::equal(s, b"tag".as_slice()) {
        return Name::Tag;
    }
    if distinct::equal(s, b"nd".as_slice()) {
        return Name::Nd;
    }
    if distinct::equal(s, b"member".as_slice()) {
        return Name::Member;
    }
    if distinct::equal(s, b"bbox".as_slice()) {
        return Name::Bounds;
    }
    if distinct::equal(s, b"bounds".as_slice()) {
        return Name::Bounds;
    }
    Name::Unknown
}

impl Name {
    // The kind whose elements have the name.
    pub fn kind(self) -> Option<Kind>
        ensures { result ≡ kind_named self }
    {
        match self {
            Name::Node => Some(Kind::Node),
            Name::Way => Some(Kind::Way),
            Name::Relation => Some(Kind::Relation),
            _ => None,
        }
    }
}

impl Level {
    // The level that a close goes to.
    #[tactic(auto, unfolding(crate::specs::Nesting::closed_to))]
    fn closed(self) -> Level
        ensures { result ≡ closed_to self }
    {
        match self {
            Level::Leaf => Level::Element,
            Level::Element => Level::Section,
            Level::Section | Level::Other => Level::Root,
            Level::Root => Level::Done,
            Level::Doc | Level::Done => self,
        }
    }
}

impl Place {
    // The same place at another level.
    fn at(self, level: Level) -> Place
        ensures { result ≡ at level self }
    {
        Place { level, ..self }
    }

    // The level moves unless the element is empty.
    fn unless(self, empty: bool, level: Level) -> Place
        ensures { result ≡ unless empty level self }
    {
        if empty { self } else { self.at(level) }
    }

    // A section opens unless it is empty.
    fn open_section(self, empty: bool, section: Action) -> Result<Opening, Refusal>
        ensures { result ≡ opening_of (section_of empty section self) }
    {
        if empty {
            return Ok(Opening::Goes(self));
        }
        Ok(Opening::Goes(Place {
            level: Level::Section,
            section,
            ..self
        }))
    }

    // An element of a kind begins, and stands open unless it is empty.
    fn begin(self, empty: bool, kind: Kind) -> Result<Opening, Refusal>
        ensures { result ≡ opening_of (begins_as empty kind self) }
    {
        if empty {
            return Ok(Opening::Begins(kind, self));
        }
        let place = Place {
            level: Level::Element,
            kind,
            ..self
        };
        Ok(Opening::Begins(kind, place))
    }

    // An open or an empty element before the document.
    #[tactic(auto, unfolding(crate::specs::Nesting::in_doc))]
    fn open_in_doc(self, empty: bool, name: Name) -> Result<Opening, Refusal>
        ensures { result ≡ opening_of (in_doc empty name self) }
    {
        match name {
            Name::OsmChange => {
                let level = if empty { Level::Done } else { Level::Root };
                Ok(Opening::Goes(self.at(level)))
            }
            _ => Err(Refusal::Misplaced),
        }
    }

    // One under the root.
    #[tactic(auto, unfolding(crate::specs::Nesting::in_root))]
    fn open_in_root(self, empty: bool, name: Name) -> Result<Opening, Refusal>
        ensures { result ≡ opening_of (in_root empty name self) }
    {
        match name {
            Name::Create => self.open_section(empty, Action::Create),
            Name::Modify => self.open_section(empty, Action::Modify),
            Name::Delete => self.open_section(empty, Action::Delete),
            Name::Node | Name::Way | Name::Relation => Err(Refusal::OutsideSection),
            Name::OsmChange => Err(Refusal::Misplaced),
            _ => Ok(Opening::Goes(self.unless(empty, Level::Other))),
        }
    }

    // One in a section.
    #[tactic(auto, unfolding(crate::specs::Nesting::in_section))]
    fn open_in_section(self, empty: bool, name: Name) -> Result<Opening, Refusal>
        ensures { result ≡ opening_of (in_section empty name self) }
    {
        match name {
            Name::Node => self.begin(empty, Kind::Node),
            Name::Way => self.begin(empty, Kind::Way),
            Name::Relation => self.begin(empty, Kind::Relation),
            _ => Err(Refusal::Misplaced),
        }
    }

    // One in an element.
    #[tactic(auto, unfolding(crate::specs::Nesting::in_element))]
    fn open_in_element(self, empty: bool, name: Name) -> Result<Opening, Refusal>
        ensures { result ≡ opening_of (in_element empty name self) }
    {
        let place = self.unless(empty, Level::Leaf);
        match (name, self.kind) {
            (Name::Tag, _) => Ok(Opening::Holds(Child::Tag, place)),
            (Name::Nd, Kind::Way) => Ok(Opening::Holds(Child::Nd, place)),
            (Name::Member, Kind::Relation) => Ok(Opening::Holds(Child::Member, place)),
            (Name::Bounds, Kind::Way) | (Name::Bounds, Kind::Relation) => Ok(Opening::Goes(place)),
            _ => Err(Refusal::Misplaced),
        }
    }

    // What an open or an empty element of a name does here: 5 or 6 where it may not stand.
    #[tactic(auto, unfolding(crate::specs::Nesting::opened, crate::specs::Nesting::opened_at))]
    pub fn open(self, empty: bool, name: Name) -> Result<Opening, Refusal>
        ensures { result ≡ opening_of (opened empty name self) }
    {
        match self.level {
            Level::Doc => self.open_in_doc(empty, name),
            Level::Root => self.open_in_root(empty, name),
            Level::Section => self.open_in_section(empty, name),
            Level::Element => self.open_in_element(empty, name),
            Level::Leaf | Level::Other | Level::Done => Err(Refusal::Misplaced),
        }
    }

    // What a close does here.
    #[tactic(auto, unfolding(crate::specs::Nesting::closed))]
    pub fn close(self) -> Place
        ensures { result ≡ closed self }
    {
        self.at(self.level.closed())
    }
}
