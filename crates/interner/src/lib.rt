// Strings over lent storage (interner.rs): two words a string among the spans, and the bytes of the texts.
#![tactic(auto)]

ghost use Rattle.std.specs.Prelude.{◌≡◌, true, false, [], ◌∷◌, ◌+◌, ◌-◌, ◌*◌, ◌≤◌, ◌<◌, length, take, leb};
ghost use Rattle.std.specs.Option.{option_copied};
ghost use Rattle.base.specs.Bytes.{both};
ghost use Rattle.little.specs.Little.{over};
ghost use Rattle.distinct.specs.Check.{NotedAs};
ghost use Rattle.interner.specs.Strings.{span_at, string_at, span_of, is_at, find_from, find_in, used_of, added, text_room, taken_as, intern};
ghost use Rattle.interner.specs.Sound.{sound_up_to, sound_strings, fresh_spans};
ghost use Rattle.interner.specs.Check.{new_at, legal_at, WordsNoted};
ghost use Rattle.interner.specs.Texts.{handle_answered};
ghost use Rattle.interner.specs.Lent.{store_seen, store_held, IsSameStrings, span_held, find_held};

use distinct::NotedRuns;
use little::Span;

// ---- the texts that are in use

// The texts by their handles, to be read: the spans, and the bytes in use alone.
#[derive(Clone, Copy)]
pub struct Texts<'a> {
    pub spans: &'a [u64],
    pub bytes: &'a [u8],
}

impl Texts<'_> {
    // Where the string of a handle lies among the bytes, if it does.
    pub fn span_at(&self, h: usize) -> Option<Span>
        ensures { result ≡ span_at self.now.spans.now self.now.bytes.now h }
    {
        let (pairs, _) = self.spans.as_chunks::<2>();
        let [start, len] = *pairs.get(h)?;
        let span = Span {
            start: start as usize,
            len: len as usize,
        };
        if little::within(span.start, span.len, self.bytes.len()) {
            Some(span)
        } else {
            None
        }
    }

    // The string of a handle, if it lies among the bytes.
    pub fn string_at(&self, h: usize) -> Option<&[u8]>
        ensures { option_copied result ≡ string_at self.now.spans.now self.now.bytes.now h }
    {
        let p = self.span_at(h)?;
        let end = p.start + p.len;
        Some(&self.bytes[p.start..end])
    }

    // Whether the string of a handle is the text.
    pub fn is_at(&self, text: &[u8], h: usize) -> bool
        ensures { result ≡ is_at self.now.spans.now self.now.bytes.now text.now h }
    {
        match self.string_at(h) {
            Some(string) => distinct::equal(text, string),
            None => false,
        }
    }

    // The first handle from one on, of a count, whose string is the text. Handles past the spans have none, so the count is no slice's.
    pub fn find_from(&self, from: usize, count: u64, text: &[u8]) -> Option<u64>
        ensures { result ≡ find_from self.now.spans.now self.now.bytes.now text.now (count - from) from }
    {
        let end = little::lesser(count as usize, self.spans.len() / 2);
        for h in from..end {
            if self.is_at(text, h) {
                return Some(h as u64);
            }
        }
        None
    }

    // ---- soundness

    // Whether the string of a handle lies within the bytes, is legal text, and differs from those before it.
    fn is_new(&self, h: usize) -> bool
        ensures { result ≡ new_at self.now.spans.now self.now.bytes.now h }
    {
        match self.string_at(h) {
            Some(string) => text::is_text(string) && self.find_from(0, h as u64, string).is_none(),
            None => false,
        }
    }

    // Whether the strings of the first n handles are sound: each is compared with those before it.
    fn sound_in_pairs(&self, n: usize) -> bool
        ensures { result ≡ sound_up_to self.now.spans.now self.now.bytes.now n }
    {
        (0..n).all(|h| self.is_new(h))
    }

    // Whether the string of a handle lies within the bytes and is legal text. Its word is noted, where there is room.
    fn note_text(&self, words: &mut [u64], h: usize) -> bool
        ensures value { result ≡ legal_at self.now.spans.now self.now.bytes.now h }
        ensures long { length words.new ≡ length words.old }
        ensures words_noted { length self.now.bytes.now < 131072 → h < length words.old → WordsNoted self.now.spans.now self.now.bytes.now words.old h
            → result ≡ true → WordsNoted self.now.spans.now self.now.bytes.now words.new (h + 1) }
    {
        let Some(p) = self.span_at(h) else {
            return false;
        };
        let end = p.start + p.len;
        if text::is_text(&self.bytes[p.start..end]) {
            distinct::put_word(words, h, distinct::run_word(self.bytes, p.start, p.len));
            true
        } else {
            false
        }
    }

    // Notes the words of the strings of the first n handles. None where one of them does not lie within the bytes or is no legal text, else how many they are.
    // It is a loop: of what a closure of `all` writes into the words a proof knows nothing.
    fn note_texts(&self, words: &mut [u64], n: usize) -> Option<usize>
        ensures { length self.now.bytes.now < 131072 → NotedAs self.now.bytes.now words.new result (sound_up_to self.now.spans.now self.now.bytes.now n) }
    {
        for h in 0..n {
            if !self.note_text(words, h) {
                return None;
            }
        }
        Some(n)
    }

    // Whether the strings of the first n handles are sound: by their words, where these tell it. A few are compared in pairs.
    fn sound_up_to(&self, n: usize) -> bool
        ensures { result ≡ sound_up_to self.now.spans.now self.now.bytes.now n }
    {
        if n <= 32 {
            return self.sound_in_pairs(n);
        }
        let texts = FirstTexts {
            texts: *self,
            count: n,
        };
        // Bound before the call: of a closure written inside this call the check infers nothing of its answer.
        let pairs = || self.sound_in_pairs(n);
        distinct::noted_differ(&texts).unwrap_or_else(pairs)
    }
}

// The texts of the first handles, to be told apart by their words.
#[derive(Clone, Copy)]
struct FirstTexts<'a> {
    texts: Texts<'a>,
    count: usize,
}

impl NotedRuns for FirstTexts<'_> {
    ghost within = { λ first. first.texts.bytes.now };

    ghost asked = { λ first. sound_up_to first.texts.spans.now first.texts.bytes.now first.count };

    fn bytes(&self) -> &[u8] {
        self.texts.bytes
    }

    fn note(&self, words: &mut [u64]) -> Option<usize> {
        self.texts.note_texts(words, self.count)
    }
}

// ---- what is lent for strings

// What is lent for strings, to be read: the spans, the bytes of the texts and behind them those that are free, how many strings are held, and how many bytes are in use.
#[derive(Clone, Copy)]
pub struct Strings<'a> {
    pub spans: &'a [u64],
    pub bytes: &'a [u8],
    pub count: u64,
    pub used: u64,
}

impl Strings<'_> {
    // The texts that are in use.
    pub fn texts(&self) -> Texts<'_>
        ensures spans { result.spans.now ≡ self.now.spans.now }
        ensures bytes { result.bytes.now ≡ used_of (store_seen self.now) }
    {
        let end = little::lesser(self.used as usize, self.bytes.len());
        Texts {
            spans: self.spans,
            bytes: &self.bytes[..end],
        }
    }

    // Where the text of a held handle lies among the bytes.
    pub fn resolve(&self, handle: u64) -> Option<Span>
        ensures { result ≡ span_held (store_seen self.now) handle }
    {
        if handle < self.count {
            self.texts().span_at(handle as usize)
        } else {
            None
        }
    }

    // The first of the held handles whose string is the text.
    pub fn find(&self, text: &[u8]) -> Option<u64>
        ensures { result ≡ find_held (store_seen self.now) text.now }
    {
        self.texts().find_from(0, self.count, text)
    }

    // Whether one more text fits.
    pub fn has_room(&self, text: &[u8]) -> bool
        ensures { result ≡ text_room (store_seen self.now) text.now }
    {
        if (self.spans.len() / 2) as u64 <= self.count {
            return false;
        }
        little::within(self.used as usize, text.len(), self.bytes.len())
    }

    // Whether the strings are sound.
    pub fn is_sound(&self) -> bool
        ensures { result ≡ sound_strings (store_seen self.now) }
    {
        if (self.bytes.len() as u64) < self.used {
            return false;
        }
        if ((self.spans.len() / 2) as u64) < self.count {
            return false;
        }
        if self.count == 0 {
            return false;
        }
        if self.spans[1] == 0 {
            self.texts().sound_up_to(self.count as usize)
        } else {
            false
        }
    }
}

// ---- taking a text in

// What is lent for strings, as `Strings` has it, to take texts in.
#[derive(Drop)]
pub struct StringsMut<'a> {
    pub spans: &'a mut [u64],
    pub bytes: &'a mut [u8],
    pub count: u64,
    pub used: u64,
}

// A span at the start of what is lent, as far as there is room. The two words are stored one by one: the library says nothing of what a slice ends as after `as_chunks_mut`.
fn put_span(out: &mut [u64], start: u64, len: u64)
    ensures { out.new ≡ over out.old 0 (start ∷ len ∷ []) }
{
    distinct::put_word(out, 0, start);
    distinct::put_word(out, 1, len);
}

// The spans of an empty overlay, of one string and no used byte: handle 0 is the empty text.
pub fn empty_strings(spans: &mut [u64])
    ensures { spans.new ≡ fresh_spans spans.old }
{
    put_span(spans, 0, 0);
}

impl StringsMut<'_> {
    // The same strings, to be read.
    pub fn strings(&self) -> Strings<'_>
        ensures { store_seen result ≡ store_held self.now }
    {
        Strings {
            spans: self.spans,
            bytes: self.bytes,
            count: self.count,
            used: self.used,
        }
    }

    // Adds a text for which there is room: its span behind those of the held strings, its bytes behind the used ones.
    fn add(&mut self, text: &[u8])
        requires { (2 * self.old.count + 2 ≤ length self.old.spans.now) × (self.old.used + length text.now ≤ length self.old.bytes.now) }
        ensures same { IsSameStrings self.new self.old }
        ensures store { store_held self.new ≡ added (store_held self.old) text.now }
    {
        let next = 2 * self.count as usize;
        let at = self.used as usize;
        put_span(&mut self.spans[next..], self.used, text.len() as u64);
        little::copy_in(&mut self.bytes[at..], text);
        self.count += 1;
        self.used += text.len() as u64;
    }

    // Takes a text in of which it is known whether it is held: its handle, else the next one, or none where there is no room. The handle is new where the count has grown.
    #[tactic(auto, using(crate::proofs::Takes::taken_held, crate::proofs::Takes::taken_new, crate::proofs::Takes::taken_full))]
    pub fn intern_found(&mut self, text: &[u8], found: Option<u64>) -> Option<u64>
        ensures same { IsSameStrings self.new self.old }
        ensures store { store_held self.new ≡ (taken_as (store_held self.old) text.now found).store }
        ensures handle { result ≡ handle_answered (taken_as (store_held self.old) text.now found).answer }
    {
        if let Some(handle) = found {
            return Some(handle);
        }
        if self.strings().has_room(text) {
            let handle = self.count;
            self.add(text);
            Some(handle)
        } else {
            None
        }
    }

    // Takes a text in: the handle of an equal one that is held, else the next one, or none where there is no room (13).
    pub fn intern(&mut self, text: &[u8]) -> Option<u64>
        ensures same { IsSameStrings self.new self.old }
        ensures store { store_held self.new ≡ (intern (store_held self.old) text.now).store }
        ensures handle { result ≡ handle_answered (intern (store_held self.old) text.now).answer }
    {
        let found = self.strings().find(text);
        self.intern_found(text, found)
    }
}
