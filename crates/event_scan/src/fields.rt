// The fields of an event's line, from one on, and the attributes that they are.

ghost use Rattle.std.specs.Prelude.{◌≡◌, ◌≤◌, length, option_map};
ghost use Rattle.base.specs.Chars.{equals_sign};
ghost use Rattle.event.specs.Event.{Attr, attr_of, value_of, none_twice};
ghost use Rattle.event_scan.specs.Parts.{parts_seen, parted_by, size_left, name_seen, written_in};
ghost use Rattle.event_scan.specs.Scan.{UpTo, fields_at};

use crate::escapes_right;

// What stands before the first of a byte and what stands behind it, if the byte is there.
pub(crate) fn split_once(s: &[u8], byte: u8) -> Option<(&[u8], &[u8])>
    ensures { parts_seen result ≡ parted_by byte s.now }
{
    let i = text::search::byte_position(s, byte)?;
    Some((&s[..i], &s[i + 1..]))
}

// The name of the attribute that a field is: a name, an `=` and a value whose escapes are right.
pub(crate) fn attribute_name(field: &[u8]) -> Option<&[u8]>
    ensures { name_seen result ≡ option_map (λ (a : Attr). a.name) (attr_of field.now) }
{
    let (name, value) = split_once(field, b'=')?;
    if name.is_empty() {
        return None;
    }
    if escapes_right(value) {
        return Some(name);
    }
    None
}

// The fields of a text of at most N bytes, from one on: tabs part them. None are left where the text has ended.
#[derive(Clone, Copy, Debug)]
pub struct Fields<'a, const N: usize> {
    pub(crate) rest: Option<&'a [u8]>,
    ghost short: { size_left rest ≤ N },
}

impl<'a, const N: usize> Fields<'a, N> {
    ghost use Rattle.line.specs.Line.{fields};
    ghost use Rattle.event_scan.specs.Fields.{fields_left};

    // All fields of a text.
    pub(crate) fn new(text: &'a [u8]) -> Fields<'a, N>
        requires { length text.now ≤ N }
        ensures { fields_left result ≡ fields text.now }
    {
        Fields { rest: Some(text) }
    }
}

impl<'a, const N: usize> Iterator for Fields<'a, N> {
    ghost use Rattle.std.specs.Iterator.{YieldsFirstRef, item_count};
    ghost use Rattle.event_scan.specs.Fields.{fields_left};

    type Item = &'a [u8];

    ghost next_gives = { YieldsFirstRef fields_left };

    ghost remaining = { item_count fields_left };

    fn next(&mut self) -> Option<&'a [u8]> {
        let rest = self.rest?;
        match split_once(rest, b'\t') {
            Some((field, behind)) => {
                self.rest = Some(behind);
                Some(field)
            }
            None => {
                self.rest = None;
                Some(rest)
            }
        }
    }
}

// ---- attributes

// An attribute's value as it is written, with its escapes: at most N bytes.
#[derive(Clone, Copy, Debug)]
pub struct Value<'a, const N: usize> {
    pub bytes: &'a [u8],
    ghost short: { length bytes.now ≤ N },
}

// An attribute as it is written.
#[derive(Clone, Copy, Debug)]
pub struct Attribute<'a, const N: usize> {
    pub name: &'a [u8],
    pub value: Value<'a, N>,
}

// How long the name of a field is: it goes to the first `=`, or it is the whole field.
pub(crate) fn name_length(field: &[u8]) -> usize
    ensures { result ≡ UpTo equals_sign field.now }
{
    match split_once(field, b'=') {
        Some((name, _)) => name.len(),
        None => field.len(),
    }
}

// The fields of a text of at most N bytes as attributes: a field without `=` has an empty value.
#[derive(Clone, Copy, Debug)]
pub struct Attributes<'a, const N: usize> {
    pub(crate) fields: Fields<'a, N>,
}

impl<'a, const N: usize> Iterator for Attributes<'a, N> {
    ghost use Rattle.std.specs.Iterator.{YieldsFirstBy, item_count};
    ghost use Rattle.event_scan.specs.Fields.{attribute_seen, written_left};

    type Item = Attribute<'a, N>;

    ghost next_gives = { YieldsFirstBy attribute_seen written_left };

    ghost remaining = { item_count written_left };

    fn next(&mut self) -> Option<Attribute<'a, N>> {
        let field = self.fields.next()?;
        match split_once(field, b'=') {
            Some((name, bytes)) => {
                let value = Value { bytes };
                Some(Attribute { name, value })
            }
            None => {
                let value = Value {
                    bytes: b"".as_slice(),
                };
                Some(Attribute { name: field, value })
            }
        }
    }
}

impl<'a, const N: usize> Attributes<'a, N> {
    ghost use Rattle.event_scan.specs.Fields.{written_left, attributes_left, text_written};

    // The value of a name, that of the first attribute that has the name.
    pub fn value_of(&self, name: &[u8]) -> Option<Value<'a, N>>
        ensures written { option_map (λ v. v.bytes.now) result ≡ value_of name.now (written_left self.now) }
        ensures text { option_map text_written result ≡ value_of name.now (attributes_left self.now) }
    {
        let mut rest = *self;
        while let Some(attribute) = rest.next() {
            if distinct::equal(name, attribute.name) {
                return Some(attribute.value);
            }
        }
        None
    }

    // Whether no two have one name: each name is compared with those behind it.
    pub(crate) fn once_in_pairs(&self) -> bool
        ensures { result ≡ none_twice (attributes_left self.now) }
    {
        let mut rest = *self;
        while let Some(attribute) = rest.next() {
            if rest.value_of(attribute.name).is_some() {
                return false;
            }
        }
        true
    }
}

// The largest length that a type can name: no slice is longer.
pub const ANY_LENGTH: usize = usize::MAX;

impl<'a> Fields<'a, ANY_LENGTH> {
    ghost use Rattle.event_scan.specs.Fields.{fields_left};

    // The fields of any text from any place on, none past the end.
    pub(crate) fn behind(text: &'a [u8], at: usize) -> Fields<'a, ANY_LENGTH>
        ensures { fields_left result ≡ fields_at text.now at }
    {
        let rest = text.get(at..);
        Fields { rest }
    }
}

impl<'a> Attributes<'a, ANY_LENGTH> {
    ghost use Rattle.event_scan.specs.Fields.{written_left};

    // The fields of any text from any place on as attributes, none past the end: for a caller of the readings whose text is no event's line. No slice has a place past its end, so the place stands
    // beside the text.
    pub fn of(text: &'a [u8], at: usize) -> Attributes<'a, ANY_LENGTH>
        ensures { written_left result ≡ written_in (fields_at text.now at) }
    {
        let fields = Fields::behind(text, at);
        Attributes { fields }
    }
}
