// The overlay (parse.rs) over lent storage: set-up, soundness, and the regression setting. It is lent as two blocks and its counters (crate `overlay_blocks`).
#![tactic(auto)]

ghost use Rattle.std.specs.Prelude.{◌≡◌};
ghost use Rattle.interner.specs.Sound.{sound_strings};
ghost use Rattle.interner.specs.Lent.{store_seen};
ghost use Rattle.kind_store.specs.Lent.{kind_seen};
ghost use Rattle.overlay.specs.Overlay.{fresh_counters, kind_store_of};
ghost use Rattle.overlay.specs.Lent.{lent, left, overlay_seen, overlay_held, overlay_tabled, tabled_for, IsSameTables};
ghost use Rattle.overlay.specs.Sound.{is_sound, sound_of, kind_stores_sound};
ghost use Rattle.overlay.specs.Calls.{set_up, sound_answer, allow_on};

use interner::Strings;
use kind::Kind;
use kind_store::KindStorage;
use overlay_blocks::{ARENA, COUNTERS, SETTING, STRING_BYTES, STRINGS, Sizes};
use refusal::Refusal;

// An overlay that is only read: its words, its bytes and its counters.
#[derive(Clone, Copy)]
pub struct Storage<'a> {
    pub words: &'a [u64],
    pub bytes: &'a [u8],
    pub counters: &'a [u64; COUNTERS],
}

// An overlay that a call writes.
#[derive(Drop)]
pub struct StorageMut<'a> {
    pub words: &'a mut [u64],
    pub bytes: &'a mut [u8],
    pub counters: &'a mut [u64; COUNTERS],
}

// An overlay of which a call writes the words and the counters alone, since C lends it the bytes to be read only.
#[derive(Drop)]
pub struct StorageTables<'a> {
    pub words: &'a mut [u64],
    pub bytes: &'a [u8],
    pub counters: &'a mut [u64; COUNTERS],
}

// ---- what an overlay holds, and whether it is sound

impl<'a> Storage<'a> {
    // What the blocks have of a kind.
    pub fn kind_storage(&self, kind: Kind) -> KindStorage<'a>
        ensures kind { result.kind ≡ kind }
        ensures seen { kind_seen result ≡ kind_store_of kind (overlay_seen self.now) }
    {
        let p = Sizes::from(self.counters).part(kind, self.words.len(), self.bytes.len());
        KindStorage {
            kind,
            table: &self.words[p.from..p.to],
            ids: self.counters[p.at],
            arena: &self.bytes[p.first..p.end],
            used: self.counters[p.at + ARENA],
        }
    }

    // What they have of the strings.
    pub fn strings(&self) -> Strings<'a>
        ensures { store_seen result ≡ (overlay_seen self.now).texts }
    {
        let t = Sizes::from(self.counters).texts(self.words.len(), self.bytes.len());
        Strings {
            spans: &self.words[t.spans..],
            bytes: &self.bytes[t.bytes..],
            count: self.counters[STRINGS],
            used: self.counters[STRING_BYTES],
        }
    }

    fn is_kind_sound(&self, kind: Kind) -> bool
        ensures { result ≡ sound_of kind (overlay_seen self.now) }
    {
        kind_sound::is_sound(&self.kind_storage(kind), self.counters[STRINGS])
    }

    #[tactic(auto, unfolding(crate::specs::Sound::kind_stores_sound, base::specs::Bytes::both))]
    fn are_kinds_sound(&self) -> bool
        ensures { result ≡ kind_stores_sound (overlay_seen self.now) }
    {
        self.is_kind_sound(Kind::Node)
            && self.is_kind_sound(Kind::Way)
            && self.is_kind_sound(Kind::Relation)
    }

    // Not inlined: the interner's array makes a frame whose stack probe, as clang writes it, overwrites a register that a caller with tests before it still holds.
    #[inline(never)]
    fn are_strings_sound(&self) -> bool
        ensures { result ≡ sound_strings (overlay_seen self.now).texts }
    {
        self.strings().is_sound()
    }

    // Whether the overlay is sound: the sizes, the strings, then each kind.
    #[tactic(auto, using(crate::proofs::Parts::sizes_in_lem), unfolding(crate::specs::Sound::is_sound, base::specs::Bytes::both))]
    pub fn is_sound(&self) -> bool
        ensures { result ≡ is_sound (overlay_seen self.now) }
    {
        Sizes::from(self.counters).fit(self.words.len(), self.bytes.len())
            && self.are_strings_sound()
            && self.are_kinds_sound()
    }

    // 22, or nothing: what each call tests first.
    pub fn check_sound(&self) -> Result<(), Refusal>
        ensures { result ≡ sound_answer (overlay_seen self.now) }
    {
        if self.is_sound() {
            return Ok(());
        }
        Err(Refusal::Unsound)
    }
}

impl StorageMut<'_> {
    // The overlay to be read.
    pub fn storage(&self) -> Storage<'_>
        ensures { overlay_seen result ≡ overlay_held self.now }
    {
        Storage {
            words: self.words,
            bytes: self.bytes,
            counters: self.counters,
        }
    }

    // 22, or nothing.
    pub fn check_sound(&self) -> Result<(), Refusal>
        ensures { result ≡ sound_answer (overlay_held self.now) }
    {
        self.storage().check_sound()
    }
}

// ---- set-up

// The counters of an empty overlay. The setting is C's word, stored as it is.
fn fresh_counters(z: Sizes, setting: u64) -> [u64; COUNTERS]
    ensures { result ≡ fresh_counters setting z }
{
    [
        0,
        0,
        0,
        0,
        0,
        0,
        1,
        0,
        setting,
        z.nodes.ids,
        z.ways.ids,
        z.relations.ids,
        z.nodes.bytes,
        z.ways.bytes,
        z.relations.bytes,
        z.strings,
        z.string_bytes,
    ]
}

impl StorageTables<'_> {
    // The overlay to be read. This and `check_sound` stand in `StorageMut` too: the structs are two since C lends the bytes of these calls to be read only, and a trait over both would
    // want `storage` from each, and save the one line of `check_sound`.
    pub fn storage(&self) -> Storage<'_>
        ensures { overlay_seen result ≡ overlay_tabled self.now }
    {
        Storage {
            words: self.words,
            bytes: self.bytes,
            counters: self.counters,
        }
    }

    // 22, or nothing.
    pub fn check_sound(&self) -> Result<(), Refusal>
        ensures { result ≡ sound_answer (overlay_tabled self.now) }
    {
        self.storage().check_sound()
    }

    // 1 for a size outside, or sizes that are not those of the blocks; else an empty overlay: the counters and the span of handle 0 are written.
    // The setting is the word that C gave: it is stored as it is, and 0 alone refuses regression.
    #[tactic(auto, using(crate::proofs::Parts::setup_refuses, crate::proofs::Parts::setup_makes))]
    pub fn set_up(&mut self, sizes: Sizes, setting: u64) -> Result<(), Refusal>
        ensures same { IsSameTables self.new self.old }
        ensures done { record { overlay = tabled_for sizes self.new; answer = result } ≡ set_up sizes setting (tabled_for sizes self.old) }
    {
        if !sizes.fit(self.words.len(), self.bytes.len()) {
            return Err(Refusal::Size);
        }
        *self.counters = fresh_counters(sizes, setting);
        let t = sizes.texts(self.words.len(), self.bytes.len());
        interner::empty_strings(&mut self.words[t.spans..]);
        Ok(())
    }
}

// ---- the regression setting

// Sets the regression setting: 0 refuses regression, any other number allows it. 22, or done.
// The parts are no struct here: C lends the words and the bytes to be read, and the counters alone to be written. The setting is the word that C gave, stored as it is.
#[tactic(auto, using(crate::proofs::Checked::checked_unsound, crate::proofs::Checked::checked_sound, crate::proofs::Parts::allow_stored), unfolding(crate::specs::Calls::allow_on))]
pub fn allow_version_regression(
    words: &[u64],
    bytes: &[u8],
    counters: &mut [u64; COUNTERS],
    setting: u64,
) -> Result<(), Refusal>
    ensures { record { overlay = left words.now bytes.now counters.new; answer = result } ≡ allow_on setting (lent words.now bytes.now counters.old) }
{
    let storage = Storage {
        words,
        bytes,
        counters: &*counters,
    };
    storage.check_sound()?;
    counters[SETTING] = setting;
    Ok(())
}
