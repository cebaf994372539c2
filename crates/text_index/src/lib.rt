// Held texts found by chains of handles: for each bucket the last handle whose text falls in it, and for each handle the one before it in its bucket.
// The chains may hold fewer handles than the strings have; the others are searched one by one, so empty chains serve where none are kept.
#![tactic(auto)]

ghost use Rattle.std.specs.Prelude.{◌≡◌, true, ℕ, Some, ◌≤◌, ◌<◌, length, get_or, take, IfSome};
ghost use Rattle.base.specs.Bytes.{Bytes};
ghost use Rattle.interner.specs.Strings.{spanned, bytes_at, intern};
ghost use Rattle.interner.specs.Texts.{handle_answered};
ghost use Rattle.interner.specs.Lent.{store_seen, store_held, IsSameStrings, find_held};
ghost use Rattle.text_index.specs.Index.{bucket_of};
ghost use Rattle.text_index.specs.Chained.{handle_coded, none_chained, chain_linked, TextsChained, StoreChained, ChainsServe, FoundBelow, told_apart};
ghost use Rattle.text_index.specs.Lent.{chains_seen, chains_held, IsSameChains};

use interner::{Strings, StringsMut, Texts};

// ---- the chains

// How many buckets there are, and how many handles the chains may hold.
pub const BUCKETS: usize = 4096;

pub const HANDLES: usize = 4096;

// Chains of handles, to be read. Of each bucket `lasts` has the last handle, of each handle `befores` has the one before it in its bucket; an entry is the handle and one, 0 for none, so that
// two bytes hold it. `handles` is how many handles they hold. That they serve is a premise of each contract that needs it (`ChainsServe`) and no field of theirs, since it speaks of the strings too, which C lends.
// They go beside the storage, the state or the act: C lends no chains, and a call that keeps none passes `none()`.
#[derive(Clone, Copy)]
pub struct Chains<'a> {
    pub lasts: &'a [u16],
    pub befores: &'a [u16],
    pub handles: usize,
}

// The same, to bring them up to date.
#[derive(Drop)]
pub struct ChainsMut<'a> {
    pub lasts: &'a mut [u16],
    pub befores: &'a mut [u16],
    pub handles: usize,
}

// The bucket of a text.
fn bucket(text: &[u8]) -> usize
    ensures { (result ≡ bucket_of text.now) × (result < BUCKETS) }
{
    let hash = text.iter().fold(
        0u32,
        |k, b| k.wrapping_mul(16777619).wrapping_add(u32::from(*b)),
    );
    // the first 12 of 32 bits: there are 2^12 buckets
    (hash.wrapping_mul(2654435761) / 1048576) as usize
}

// The handle of an entry; none at 0, past the end, and where it is not below a bound.
fn handle_at(entries: &[u16], i: usize, bound: usize) -> Option<usize>
    ensures below { IfSome result (λ h. h < bound) }
    ensures value { get_or entries.now i 0 ≤ bound → result ≡ handle_coded (get_or entries.now i 0) }
{
    let h = usize::from(*entries.get(i)?).checked_sub(1)?;
    if h < bound { Some(h) } else { None }
}

// The last handle of a text among the first n, one by one.
fn search_down(texts: &Texts<'_>, n: usize, text: &[u8]) -> Option<usize>
    ensures { FoundBelow texts.now.spans.now texts.now.bytes.now text.now n result }
{
    // `(0..n).rev().find(..)` was tried, and its proof did not close: the library's lemma of `find` over a range goes from the start.
    for h in (0..n).rev() {
        if texts.is_at(text, h) {
            return Some(h);
        }
    }
    None
}

impl Chains<'_> {
    // No chains.
    pub fn none() -> Chains<'static>
        ensures { chains_seen result ≡ none_chained }
    {
        Chains {
            lasts: &[],
            befores: &[],
            handles: 0,
        }
    }

    // The last handle of a text among those that the chains hold. A chain of more than 32 handles is left: so nobody's texts make it slower than a search one by one.
    fn find_chained(&self, texts: &Texts<'_>, text: &[u8]) -> Option<usize>
        ensures { (count : ℕ) → TextsChained (chains_seen self.now) texts.now.spans.now texts.now.bytes.now count
            → FoundBelow texts.now.spans.now texts.now.bytes.now text.now self.now.handles result }
    {
        let mut last = handle_at(self.lasts, bucket(text), self.handles);
        for _ in 0..32 {
            let h = last?;
            if texts.is_at(text, h) {
                return Some(h);
            }
            last = handle_at(self.befores, h, h);
        }
        search_down(texts, last? + 1, text)
    }

    // The handle of a held text: by the chains, then one by one. Few handles are searched one by one at once.
    pub fn find(&self, strings: &Strings<'_>, text: &[u8]) -> Option<u64>
        ensures { ChainsServe (chains_seen self.now) (store_seen strings.now) → result ≡ find_held (store_seen strings.now) text.now }
    {
        if self.handles < 16 {
            return strings.find(text);
        }
        let texts = strings.texts();
        match self.find_chained(&texts, text) {
            Some(h) => Some(h as u64),
            None => texts.find_from(self.handles, strings.count, text),
        }
    }

    // Takes a text in as `StringsMut::intern` does.
    pub fn intern(&self, strings: &mut StringsMut<'_>, text: &[u8]) -> Option<u64>
        ensures same { IsSameStrings strings.new strings.old }
        ensures store { ChainsServe (chains_seen self.now) (store_held strings.old) → store_held strings.new
            ≡ (intern (store_held strings.old) text.now).store }
        ensures handle { ChainsServe (chains_seen self.now) (store_held strings.old) → result
            ≡ handle_answered (intern (store_held strings.old) text.now).answer }
    {
        let found = self.find(&strings.strings(), text);
        strings.intern_found(text, found)
    }

    // What that would answer, with nothing taken in. Whether the text is held or would be new is told by its handle: below the count, or the count.
    pub fn answer(&self, strings: &Strings<'_>, text: &[u8]) -> Option<u64>
        ensures handle { ChainsServe (chains_seen self.now) (store_seen strings.now) → result ≡ handle_answered (intern (store_seen strings.now) text.now).answer }
        ensures told { ChainsServe (chains_seen self.now) (store_seen strings.now) → told_apart strings.now.count result ≡ (intern (store_seen strings.now) text.now).answer }
    {
        let next = strings.has_room(text).then_some(strings.count);
        self.find(strings, text).or(next)
    }
}

// ---- more handles

// The bucket of a handle's text, if it has one.
fn bucket_at(texts: &Texts<'_>, h: usize) -> Option<usize>
    ensures below { IfSome result (λ b. b < BUCKETS) }
    ensures value { spanned texts.now.spans.now texts.now.bytes.now h ≡ true → result
        ≡ Some (bucket_of (bytes_at texts.now.spans.now texts.now.bytes.now h)) }
{
    Some(bucket(texts.string_at(h)?))
}

impl ChainsMut<'_> {
    // The same chains, to be read.
    pub fn chains(&self) -> Chains<'_>
        ensures { chains_seen result ≡ chains_held self.now }
    {
        Chains {
            lasts: self.lasts,
            befores: self.befores,
            handles: self.handles,
        }
    }

    // One handle more.
    fn link(&mut self, b: usize, h: usize)
        requires { (b < length self.old.lasts.now) × ((h < length self.old.befores.now) × (h < HANDLES)) }
        ensures same { IsSameChains self.new self.old }
        ensures chains { chains_held self.new ≡ chain_linked (chains_held self.old) b h }
    {
        self.befores[h] = self.lasts[b];
        self.lasts[b] = (h + 1) as u16;
        self.handles = h + 1;
    }

    // The handles that the chains lack, as far as there is room.
    pub fn index(&mut self, strings: &Strings<'_>)
        ensures same { IsSameChains self.new self.old }
        ensures chains { StoreChained (chains_held self.old) (store_seen strings.now) → StoreChained (chains_held self.new) (store_seen strings.now) }
        ensures few { self.old.handles ≤ HANDLES → self.new.handles ≤ HANDLES }
    {
        if self.lasts.len() < BUCKETS || self.befores.len() < HANDLES {
            return;
        }
        let end = little::lesser(strings.count as usize, HANDLES);
        let texts = strings.texts();
        for h in self.handles..end {
            let Some(b) = bucket_at(&texts, h) else {
                return;
            };
            self.link(b, h);
        }
    }
}
