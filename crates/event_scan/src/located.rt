// Where in a text an attribute stands, and where the value of a name lies.

ghost use Rattle.std.specs.Prelude.{◌≡◌};
ghost use Rattle.event_scan.specs.Places.{attribute_at, attribute_value};

use crate::fields::{Fields, name_length};

// Where an attribute's `=` stands and where its field ends: without `=` both are the end.
#[derive(Clone, Copy, PartialEq, Eq, Debug)]
pub struct AttributePlaces {
    pub equals: usize,
    pub end: usize,
}

// Where a value begins, behind its `=`, and where its field ends: without `=` it begins past the end.
#[derive(Clone, Copy, PartialEq, Eq, Debug)]
pub struct ValuePlaces {
    pub from: usize,
    pub to: usize,
}

// The attribute that stands at a place of any text, if the text has not ended.
pub fn attribute_at(text: &[u8], at: usize) -> Option<AttributePlaces>
    ensures { result ≡ attribute_at text.now at }
{
    let mut fields = Fields::behind(text, at);
    let field = fields.next()?;
    Some(AttributePlaces {
        equals: at + name_length(field),
        end: at + field.len(),
    })
}

// The value of a name, that of the first attribute from a place on that has the name.
pub fn value_at(text: &[u8], name: &[u8], at: usize) -> Option<ValuePlaces>
    ensures { result ≡ attribute_value text.now name.now at }
{
    let mut place = at;
    for field in Fields::behind(text, at) {
        let n = name_length(field);
        if distinct::equal(name, &field[..n]) {
            return Some(ValuePlaces {
                from: place + n + 1,
                to: place + field.len(),
            });
        }
        place += field.len() + 1;
    }
    None
}
