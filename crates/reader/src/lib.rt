// A reader of event lines: where it stands in its document, the element that it is putting together, its count of lines and its stop mark.
// Here are the definitions of what an event and an end do to it and to the overlay, with their laws.
#![tactic(auto)]

ghost use Rattle.std.specs.Prelude.{◌≡◌};
ghost use Rattle.overlay.specs.Lent.{overlay_seen};
ghost use Rattle.reader.specs.Lent.{state_seen, state_held};

use compact::{ArenaMeta, PushHead};
use kind::Kind;
use nesting::{Action, Level, Place};
use overlay::Storage;
use overlay_blocks::COUNTERS;
use reader_stage::STAGED;
use refusal::Refusal;

// The element that is being put together: the push that its end will make, and how many of the lent bytes its parts take. Its kind is the place's, and its parts are lent, so both go beside it.
#[derive(Clone, Copy, PartialEq, Eq, Debug)]
pub struct Pending {
    pub head: PushHead,
    pub meta: ArenaMeta,
    pub used: usize,
}

// Between elements nothing is staged.
impl Default for Pending {
    ghost use Rattle.reader.specs.State.{no_pending};

    ghost is_default = { λ x. x ≡ no_pending };

    fn default() -> Pending {
        let head = PushHead {
            id: 0,
            lat: 0,
            lon: 0,
            count: 0,
            tags: 0,
        };
        let meta = ArenaMeta {
            flags: 0,
            version: 0,
            timestamp: 0,
            changeset: 0,
            uid: 0,
            user: 0,
        };
        Pending {
            head,
            meta,
            used: 0,
        }
    }
}

// A refusal, and the line at which it was given.
#[derive(Clone, Copy, PartialEq, Eq, Debug)]
pub struct RefusedAt {
    pub refusal: Refusal,
    pub line: u64,
}

// The line count is that of the accepted events. A stopped reader has the refusal that stopped it as its stop mark.
#[derive(Clone, Copy, PartialEq, Eq, Debug)]
pub struct EventReader {
    pub place: Place,
    pub pending: Pending,
    pub lines: u64,
    pub stop: Option<RefusedAt>,
}

// A fresh reader: before the document, with nothing staged.
impl Default for EventReader {
    ghost use Rattle.reader.specs.State.{fresh_reader};

    ghost is_default = { λ x. x ≡ fresh_reader };

    fn default() -> EventReader {
        let place = Place {
            level: Level::Doc,
            section: Action::Create,
            kind: Kind::Node,
        };
        EventReader {
            place,
            pending: Pending::default(),
            lines: 0,
            stop: None,
        }
    }
}

// ---- a reader and what is lent beside it

// A reader that is only read, with the overlay that it reads into and the bytes that are lent for the parts of its element.
#[derive(Clone, Copy)]
pub struct ReaderView<'a> {
    pub words: &'a [u64],
    pub bytes: &'a [u8],
    pub counters: &'a [u64; COUNTERS],
    pub parts: &'a [u8; STAGED],
    pub reader: EventReader,
}

// A reader that a call takes on, with the overlay that it reads into and the bytes that are lent for the parts of its element.
// No method lends a `StorageMut` of its first three fields: it was tried, and the borrow checker's part of the proof does not cover references that a method lends on, so each caller makes one.
#[derive(Drop)]
pub struct ReaderState<'a> {
    pub words: &'a mut [u64],
    pub bytes: &'a mut [u8],
    pub counters: &'a mut [u64; COUNTERS],
    pub parts: &'a mut [u8; STAGED],
    pub reader: EventReader,
}

impl ReaderView<'_> {
    // The overlay.
    pub fn storage(&self) -> Storage<'_>
        ensures { overlay_seen result ≡ (state_seen self.now).overlay }
    {
        Storage {
            words: self.words,
            bytes: self.bytes,
            counters: self.counters,
        }
    }
}

impl ReaderState<'_> {
    // The same to be read.
    pub fn view(&self) -> ReaderView<'_>
        ensures { state_seen result ≡ state_held self.now }
    {
        ReaderView {
            words: self.words,
            bytes: self.bytes,
            counters: self.counters,
            parts: self.parts,
            reader: self.reader,
        }
    }
}
