// The fields of an event, read from its attributes: an integer, a coordinate, a tag, a member. Numbers are held as their bits; a text is as it is written in the line,
// with its escapes. No escape stands for a digit, a sign or a letter, so a number or a word is read as it is written.
#![tactic(auto)]

ghost use Rattle.std.specs.Prelude.{◌≡◌, ◌≤◌, length, Some, option_map, IfOk};
ghost use Rattle.std.specs.Int.{w32, w64};
ghost use Rattle.kind.specs.declared.Kind.TheVariants as kinds;
ghost use Rattle.integer.specs.Integer.{integer_of};
ghost use Rattle.degrees.specs.Nearest.{read_degrees};
ghost use Rattle.event_scan.specs.Piece.{value_text};
ghost use Rattle.event_fields.specs.Field.{integer_field, whole_name, degrees_name, most_whole, whole_coordinate, degrees_answered, coordinate, body_for, tag_of, member_of};
ghost use Rattle.event_fields.specs.Field as F;
ghost use Rattle.event_values.specs.Value.{narrow_in, wide_field, narrow_field, body_field};
ghost use Rattle.event.specs.Event.{value_of};
ghost use Rattle.event_scan.specs.Parts.{written_size};
ghost use Rattle.event_scan.specs.Fields.{written_left, attributes_left, text_written};
ghost use Rattle.event_values.specs.Values.{value_field, tag_answered, TagInBounds, TagWritten, member_answered, MemberInBounds, MemberWritten};

use degrees::{Axis, DegreesError};
use event_scan::fields::{Attributes, Value};
use kind::Kind;
use model::{MAX_LAT7, MAX_LON7};
use nesting::Name;
use refusal::Refusal;

// ---- one value

pub fn integer_32(v: &[u8]) -> Option<u32>
    ensures { narrow_in result ≡ integer_of w32 (value_text v.now) }
{
    // the bits of 32 are below 2^32
    let b = integer::read::<i32>(v)?;
    Some(b as u32)
}

// ---- the fields of attributes, by their names

fn required<'a, const N: usize>(
    attributes: &Attributes<'a, N>,
    name: &[u8],
) -> Result<Value<'a, N>, Refusal>
    ensures means { value_field result ≡ F.text_field name.now (attributes_left attributes.now) }
    ensures in_bounds { IfOk result (λ v. length v.bytes.now ≤ written_size (written_left attributes.now)) }
    ensures written { IfOk result (λ v. value_of name.now (written_left attributes.now) ≡ Some v.bytes.now) }
{
    attributes.value_of(name).ok_or(Refusal::Missing)
}

pub fn integer_field<const N: usize>(
    attributes: &Attributes<'_, N>,
    name: &[u8],
) -> Result<u64, Refusal>
    ensures { wide_field result ≡ integer_field w64 name.now (attributes_left attributes.now) }
{
    let value = required(attributes, name)?;
    integer::read::<i64>(value.bytes).ok_or(Refusal::NotInteger)
}

// ---- a coordinate, in either form

// The attribute that gives a coordinate in whole numbers of 1e-7 degree.
fn whole_name(axis: Axis) -> &'static [u8]
    ensures { result.now ≡ whole_name axis }
{
    match axis {
        Axis::Latitude => b"lat7".as_slice(),
        Axis::Longitude => b"lon7".as_slice(),
    }
}

// The attribute that gives it in degrees.
fn degrees_name(axis: Axis) -> &'static [u8]
    ensures { result.now ≡ degrees_name axis }
{
    match axis {
        Axis::Latitude => b"lat".as_slice(),
        Axis::Longitude => b"lon".as_slice(),
    }
}

// The largest whole number, either side of 0.
fn most_whole(axis: Axis) -> u32
    ensures { result ≡ most_whole axis }
{
    match axis {
        Axis::Latitude => MAX_LAT7,
        Axis::Longitude => MAX_LON7,
    }
}

// A coordinate in whole numbers of 1e-7 degree: 8, 10, or its bits.
fn whole_coordinate(value: &[u8], axis: Axis) -> Result<u32, Refusal>
    ensures { narrow_field result ≡ whole_coordinate axis (value_text value.now) }
{
    let bits = integer_32(value).ok_or(Refusal::NotInteger)?;
    if bits.cast_signed().unsigned_abs() > most_whole(axis) {
        return Err(Refusal::CoordinateRange);
    }
    Ok(bits)
}

// A coordinate in degrees: 23, 10, or the bits of the nearest 1e-7 degree.
fn degrees_coordinate(value: &[u8], axis: Axis) -> Result<u32, Refusal>
    ensures { narrow_field result ≡ degrees_answered (read_degrees axis (value_text value.now)) }
{
    match degrees::read_degrees(value, axis) {
        Ok(coordinate) => Ok(coordinate.cast_unsigned()),
        Err(DegreesError::NotDegrees) => Err(Refusal::NotDegrees),
        Err(DegreesError::OutOfRange) => Err(Refusal::CoordinateRange),
    }
}

// What an axis is given: a whole number, degrees. One walk finds both: behind the first of them only the other one is looked for.
#[derive(Clone, Copy, Debug)]
struct AxisValues<'a, const N: usize> {
    whole: Option<Value<'a, N>>,
    degrees: Option<Value<'a, N>>,
}

fn axis_values<'a, const N: usize>(attributes: &Attributes<'a, N>, axis: Axis) -> AxisValues<'a, N>
    ensures whole { option_map text_written result.whole ≡ value_of (whole_name axis) (attributes_left attributes.now) }
    ensures degrees { option_map text_written result.degrees ≡ value_of (degrees_name axis) (attributes_left attributes.now) }
{
    let whole_name = whole_name(axis);
    let degrees_name = degrees_name(axis);
    let mut rest = *attributes;
    while let Some(attribute) = rest.next() {
        if whole_name == attribute.name {
            return AxisValues {
                whole: Some(attribute.value),
                degrees: rest.value_of(degrees_name),
            };
        }
        if degrees_name == attribute.name {
            return AxisValues {
                whole: rest.value_of(whole_name),
                degrees: Some(attribute.value),
            };
        }
    }
    AxisValues {
        whole: None,
        degrees: None,
    }
}

// A coordinate in its place: 24 in both forms, 7 in neither, else what its one form gives.
fn coordinate_field<const N: usize>(
    attributes: &Attributes<'_, N>,
    axis: Axis,
) -> Result<u32, Refusal>
    ensures { narrow_field result ≡ coordinate axis (attributes_left attributes.now) }
{
    let AxisValues { whole, degrees } = axis_values(attributes, axis);
    match (whole, degrees) {
        (Some(_), Some(_)) => Err(Refusal::BothForms),
        (None, None) => Err(Refusal::Missing),
        (Some(value), None) => whole_coordinate(value.bytes, axis),
        (None, Some(value)) => degrees_coordinate(value.bytes, axis),
    }
}

// What an element holds at first: the coordinates of a node, 0 for another kind.
#[derive(Clone, Copy, PartialEq, Eq, Debug)]
pub struct Coordinates {
    pub lat: u32,
    pub lon: u32,
}

fn node_coordinates<const N: usize>(attributes: &Attributes<'_, N>) -> Result<Coordinates, Refusal>
    ensures { body_field kinds.Node result ≡ body_for kinds.Node (attributes_left attributes.now) }
{
    let lat = coordinate_field(attributes, Axis::Latitude)?;
    let lon = coordinate_field(attributes, Axis::Longitude)?;
    Ok(Coordinates { lat, lon })
}

// What an element of a kind holds at first.
pub fn body_of<const N: usize>(
    attributes: &Attributes<'_, N>,
    kind: Kind,
) -> Result<Coordinates, Refusal>
    ensures { body_field kind result ≡ body_for kind (attributes_left attributes.now) }
{
    match kind {
        Kind::Node => node_coordinates(attributes),
        Kind::Way | Kind::Relation => Ok(Coordinates { lat: 0, lon: 0 }),
    }
}

// A tag as it is written.
#[derive(Clone, Copy, Debug)]
pub struct TagValues<'a, const N: usize> {
    pub key: Value<'a, N>,
    pub value: Value<'a, N>,
}

// A tag, or the refusal of its key or its value.
pub fn tag_of<'a, const N: usize>(
    attributes: &Attributes<'a, N>,
) -> Result<TagValues<'a, N>, Refusal>
    ensures means { tag_answered result ≡ tag_of (attributes_left attributes.now) }
    ensures in_bounds { IfOk result (TagInBounds (written_size (written_left attributes.now))) }
    ensures written { IfOk result (TagWritten (written_left attributes.now)) }
{
    let key = required(attributes, b"k")?;
    let value = required(attributes, b"v")?;
    Ok(TagValues { key, value })
}

// A member, its role as it is written: empty where it is missing.
#[derive(Clone, Copy, Debug)]
pub struct MemberValues<'a, const N: usize> {
    pub reference: u64,
    pub kind: Kind,
    pub role: Value<'a, N>,
}

// A member, or the refusal of its type or its ref.
pub fn member_of<'a, const N: usize>(
    attributes: &Attributes<'a, N>,
) -> Result<MemberValues<'a, N>, Refusal>
    ensures means { member_answered result ≡ member_of (attributes_left attributes.now) }
    ensures in_bounds { IfOk result (MemberInBounds (written_size (written_left attributes.now))) }
    ensures written { IfOk result (MemberWritten (written_left attributes.now)) }
{
    let named = required(attributes, b"type")?;
    let kind = Name::from(named.bytes).kind().ok_or(Refusal::MemberType)?;
    let reference = integer_field(attributes, b"ref")?;
    let empty = Value {
        bytes: b"".as_slice(),
    };
    let role = attributes.value_of(b"role").unwrap_or(empty);
    Ok(MemberValues {
        reference,
        kind,
        role,
    })
}
