// Many texts taken in by one call: soundness is tested once, then each text is taken in as `overlay_direct::intern` does it, up to the first that is refused.
#![tactic(auto)]

ghost use Rattle.std.specs.Prelude.{◌≡◌, ◌≤◌, true, length};
ghost use Rattle.base.specs.Bytes.{all};
ghost use Rattle.little.specs.Little.{is_byte};
ghost use Rattle.text_index.specs.Chained.{ChainsServe, StoreChained};
ghost use Rattle.text_index.specs.Lent.{chains_seen, chains_held, IsSameChains};
ghost use Rattle.overlay.specs.Lent.{overlay_seen, overlay_held, IsSameStorage};
ghost use Rattle.overlay.specs.Sound.{is_sound};
ghost use Rattle.overlay_direct.specs.Calls.{intern_on};
ghost use Rattle.overlay_texts.specs.Texts.{lengths_fit};
ghost use Rattle.overlay_texts.specs.Lent.{texts_left};
ghost use Rattle.overlay_texts.specs.Calls.{interns_on, handles_over, given_answer, intern_texts_on};
ghost use Rattle.overlay_texts.specs.Given.{TextsGiven};

use overlay::{Storage, StorageMut};
use refusal::Refusal;
use text_index::{BUCKETS, Chains, ChainsMut, HANDLES};

// ---- what is handed in

// Texts end to end, and the length of each.
#[derive(Clone, Copy, Debug)]
pub struct JoinedTexts<'a> {
    pub bytes: &'a [u8],
    pub lengths: &'a [usize],
}

impl JoinedTexts<'_> {
    // Whether the lengths add up to the bytes. They are taken away one by one, since their sum may be larger than a word.
    fn fit(&self) -> bool
        ensures { result ≡ lengths_fit self.now.lengths.now self.now.bytes.now }
    {
        let mut rest = self.bytes.len();
        for n in self.lengths {
            match rest.checked_sub(*n) {
                Some(less) => rest = less,
                None => return false,
            }
        }
        rest == 0
    }
}

impl<'a> Iterator for JoinedTexts<'a> {
    ghost use Rattle.std.specs.Iterator.{YieldsFirstRef, item_count};
    ghost use Rattle.overlay_texts.specs.Lent.{texts_left};

    type Item = &'a [u8];

    ghost next_gives = { YieldsFirstRef texts_left };

    ghost remaining = { item_count texts_left };

    fn next(&mut self) -> Option<&'a [u8]> {
        let n = little::lesser(*self.lengths.first()?, self.bytes.len());
        let text = &self.bytes[..n];
        self.bytes = &self.bytes[n..];
        self.lengths = &self.lengths[1..];
        Some(text)
    }
}

// How the call was answered, and how many texts were taken in.
#[derive(Clone, Copy, PartialEq, Eq, Debug)]
pub struct TextsDone {
    pub answer: Result<(), Refusal>,
    pub taken: usize,
}

// ---- what is tested once

// The bytes of a lent slice are bytes. It is called for the proof alone, as in `reader_events`.
fn known_bytes(bytes: &[u8]) -> usize
    ensures { all is_byte bytes.now ≡ true }
{
    little::lesser(bytes.len(), 1)
}

// Before any text is looked at: 22, then 17 where the lengths do not add up to the bytes, then 19 where there is no room for a handle of each; and what is lent is bytes.
#[tactic(auto, unfolding(crate::specs::Calls::given_answer))]
fn check_given(storage: &Storage<'_>, texts: &JoinedTexts<'_>, room: usize) -> Result<(), Refusal>
    ensures value { result ≡ given_answer texts.now.lengths.now texts.now.bytes.now room (overlay_seen storage.now) }
    ensures storage_bytes { all is_byte storage.now.bytes.now ≡ true }
    ensures texts_bytes { all is_byte texts.now.bytes.now ≡ true }
{
    let (bytes, joined) = (storage.bytes, texts.bytes);
    known_bytes(bytes);
    known_bytes(joined);
    if !storage.is_sound() {
        return Err(Refusal::Unsound);
    }
    if !texts.fit() {
        return Err(Refusal::BadRecord);
    }
    if room < texts.lengths.len() {
        return Err(Refusal::ShortOutput);
    }
    Ok(())
}

// ---- one text

// A text of an overlay that is sound: 3, 13, or its handle.
fn intern_untested(
    storage: &mut StorageMut<'_>,
    chains: &Chains<'_>,
    text: &[u8],
) -> Result<u64, Refusal>
    ensures same { IsSameStorage storage.new storage.old }
    ensures done { is_sound (overlay_held storage.old) ≡ true → ChainsServe (chains_seen chains.now) (overlay_held storage.old).texts
        → record { overlay = overlay_held storage.new; answer = result } ≡ intern_on text.now (overlay_held storage.old) }
{
    if text::is_text(text) {
        return overlay_store::intern(storage, chains, text);
    }
    Err(Refusal::NotText)
}

// ---- all texts

// All texts, by chains of handles that are brought up to date before each.
fn intern_texts_by(
    storage: &mut StorageMut<'_>,
    chains: &mut ChainsMut<'_>,
    texts: &JoinedTexts<'_>,
    handles: &mut [u64],
) -> TextsDone
    requires given { TextsGiven (texts_left texts.now) (overlay_held storage.old) }
    requires chained { StoreChained (chains_held chains.old) (overlay_held storage.old).texts }
    requires room { length (texts_left texts.now) ≤ length handles.old }
    ensures same { IsSameStorage storage.new storage.old }
    ensures same_chains { IsSameChains chains.new chains.old }
    ensures done { record { overlay = overlay_held storage.new; handles = handles.new; answer = result.answer; taken = result.taken }
        ≡ handles_over handles.old (interns_on (texts_left texts.now) (overlay_held storage.old)) }
{
    let mut taken: usize = 0;
    for text in *texts {
        overlay_store::chain_texts(chains, &storage.storage());
        match intern_untested(storage, &chains.chains(), text) {
            Ok(handle) => {
                handles[taken] = handle;
                taken += 1;
            }
            Err(refusal) => {
                return TextsDone {
                    answer: Err(refusal),
                    taken,
                };
            }
        }
    }
    TextsDone {
        answer: Ok(()),
        taken,
    }
}

// All texts, by chains that hold no handle at first. Not inlined, for the reason that stands at `overlay::Storage::are_strings_sound`.
#[inline(never)]
fn intern_texts_untested(
    storage: &mut StorageMut<'_>,
    texts: &JoinedTexts<'_>,
    handles: &mut [u64],
) -> TextsDone
    requires given { TextsGiven (texts_left texts.now) (overlay_held storage.old) }
    requires room { length (texts_left texts.now) ≤ length handles.old }
    ensures same { IsSameStorage storage.new storage.old }
    ensures done { record { overlay = overlay_held storage.new; handles = handles.new; answer = result.answer; taken = result.taken }
        ≡ handles_over handles.old (interns_on (texts_left texts.now) (overlay_held storage.old)) }
{
    // the library has no heap
    let mut lasts = [0u16; BUCKETS];
    let mut befores = [0u16; HANDLES];
    let mut chains = ChainsMut {
        lasts: &mut lasts,
        befores: &mut befores,
        handles: 0,
    };
    intern_texts_by(storage, &mut chains, texts, handles)
}

// ---- the call

// Texts that lie end to end, one after the other up to the first that is refused: 22; 17 where their lengths do not add up to the bytes; 19 where there is no room for a handle of each; then 3 or 13
// of the first text that `overlay_direct::intern` would refuse. Those before it are taken in, and their handles stand at the start of the list.
pub fn intern_texts(
    storage: &mut StorageMut<'_>,
    texts: &JoinedTexts<'_>,
    handles: &mut [u64],
) -> TextsDone
    ensures same { IsSameStorage storage.new storage.old }
    ensures done { record { overlay = overlay_held storage.new; handles = handles.new; answer = result.answer; taken = result.taken }
        ≡ intern_texts_on texts.now.lengths.now texts.now.bytes.now handles.old (overlay_held storage.old) }
{
    if let Err(refusal) = check_given(&storage.storage(), texts, handles.len()) {
        return TextsDone {
            answer: Err(refusal),
            taken: 0,
        };
    }
    intern_texts_untested(storage, texts, handles)
}
