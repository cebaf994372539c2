// The metadata of an element, read from its attributes in their order. Numbers are held as their bits.

ghost use Rattle.std.specs.Prelude.{ℕ, ◌≡◌, ◌≤◌, length, None, option_map, IfOk};
ghost use Rattle.event_fields.specs.Field.{metadata_of};
ghost use Rattle.event_scan.specs.Parts.{written_size};
ghost use Rattle.event_scan.specs.Fields.{written_left, attributes_left, text_written};
ghost use Rattle.event_metadata.specs.Values.{metadata_means, metadata_answered, MetadataInBounds, user_written, user_in, metadata_name, metadata_as, user_with};

use event_scan::fields::{Attributes, Value};
use refusal::Refusal;

// Metadata as it is written: whether there is any, whether it hides, and its values. A number that is not given is 0.
#[derive(Clone, Copy, Debug)]
pub struct MetadataValues<'a, const N: usize> {
    pub given: bool,
    pub hidden: bool,
    pub version: Option<u32>,
    pub timestamp: u64,
    pub changeset: u64,
    pub uid: u32,
    pub user: Option<Value<'a, N>>,
}

#[derive(Clone, Copy, PartialEq, Eq, Debug)]
enum MetadataName {
    Version,
    Timestamp,
    Changeset,
    Uid,
    User,
    Visible,
}

// A match over the byte strings leaves a goal for each way through its tests of bytes, more than forty that the check does not find alone.
fn metadata_name(s: &[u8]) -> Option<MetadataName>
    ensures { result ≡ metadata_name s.now }
{
    if distinct::equal(s, b"version".as_slice()) {
        return Some(MetadataName::Version);
    }
    if distinct::equal(s, b"timestamp".as_slice()) {
        return Some(MetadataName::Timestamp);
    }
    if distinct::equal(s, b"changeset".as_slice()) {
        return Some(MetadataName::Changeset);
    }
    if distinct::equal(s, b"uid".as_slice()) {
        return Some(MetadataName::Uid);
    }
    if distinct::equal(s, b"user".as_slice()) {
        return Some(MetadataName::User);
    }
    if distinct::equal(s, b"visible".as_slice()) {
        return Some(MetadataName::Visible);
    }
    None
}

impl<'a, const N: usize> MetadataValues<'a, N> {
    // With one value more. Only `false` exactly hides.
    fn with(&self, name: MetadataName, value: &Value<'a, N>) -> Result<Self, Refusal>
        ensures means { metadata_answered result ≡ metadata_as name (metadata_means self.now) (text_written value.now) }
        ensures in_bounds { (n : ℕ) → MetadataInBounds n self.now → length value.now.bytes.now ≤ n → IfOk result (MetadataInBounds n) }
        ensures written { IfOk result (λ m. user_written m ≡ user_with name (user_written self.now) value.now.bytes.now) }
    {
        let with = MetadataValues {
            given: true,
            ..*self
        };
        match name {
            MetadataName::Version => {
                let version = event_values::integer_32(value.bytes).ok_or(Refusal::NotInteger)?;
                Ok(MetadataValues {
                    version: Some(version),
                    ..with
                })
            }
            MetadataName::Timestamp => {
                let timestamp = stamp::parse_rfc3339_utc(value.bytes).ok_or(Refusal::NotTimestamp)?;
                Ok(MetadataValues { timestamp, ..with })
            }
            MetadataName::Changeset => {
                let changeset = integer::read::<i64>(value.bytes).ok_or(Refusal::NotInteger)?;
                Ok(MetadataValues { changeset, ..with })
            }
            MetadataName::Uid => {
                let uid = event_values::integer_32(value.bytes).ok_or(Refusal::NotInteger)?;
                Ok(MetadataValues { uid, ..with })
            }
            MetadataName::User => Ok(MetadataValues {
                user: Some(*value),
                ..with
            }),
            MetadataName::Visible if value.bytes == b"false".as_slice() => Ok(MetadataValues {
                hidden: true,
                ..with
            }),
            MetadataName::Visible => Ok(with),
        }
    }
}

// The metadata of attributes, in their order; other names are passed over.
pub fn metadata_of<'a, const N: usize>(
    attributes: &Attributes<'a, N>,
) -> Result<MetadataValues<'a, N>, Refusal>
    ensures means { metadata_answered result ≡ metadata_of (attributes_left attributes.now) }
    ensures in_bounds { IfOk result (MetadataInBounds (written_size (written_left attributes.now))) }
    ensures written { IfOk result (λ m. user_written m ≡ user_in None (written_left attributes.now)) }
{
    let mut metadata = MetadataValues {
        given: false,
        hidden: false,
        version: None,
        timestamp: 0,
        changeset: 0,
        uid: 0,
        user: None,
    };
    for attribute in *attributes {
        if let Some(name) = metadata_name(attribute.name) {
            metadata = metadata.with(name, &attribute.value)?;
        }
    }
    Ok(metadata)
}
