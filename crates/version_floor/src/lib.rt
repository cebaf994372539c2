// The version-precedence rule (version_floor.rs): a claim is refused only when it is strictly below the highest version
// claimed so far. A missing version is no version, and not version 0.
#![tactic(auto)]

ghost use Rattle.std.specs.Prelude.{◌≡◌};
ghost use Rattle.version_floor.specs.Version.{higher, admit_of, word_of, of_word};

// The highest version claimed so far for one object, or none.
#[derive(Clone, Copy, PartialEq, Eq, Debug)]
pub struct VersionFloor(pub Option<i32>);

// The larger of two versions, or the one that exists.
pub fn higher_of(a: Option<i32>, b: Option<i32>) -> Option<i32>
    ensures { result ≡ higher a b }
{
    a.max(b)
}

impl VersionFloor {
    pub fn new(highest: Option<i32>) -> Self
        ensures { result.0 ≡ highest }
    {
        VersionFloor(highest)
    }

    pub fn admit(self, claim: Option<i32>) -> Result<(), i32>
        ensures { result ≡ admit_of self.0 claim }
    {
        match (self.0, claim) {
            (Some(floor), Some(version)) if version < floor => Err(floor),
            _ => Ok(()),
        }
    }

    // The floor after an admitted claim: what `raise` stores.
    pub fn raised(self, claim: Option<i32>) -> Self
        ensures { result.0 ≡ higher self.0 claim }
    {
        VersionFloor(higher_of(self.0, claim))
    }

    // The floor that is lent is raised to an admitted claim.
    pub fn raise(&mut self, claim: Option<i32>)
        ensures { self.new.0 ≡ higher self.old.0 claim }
    {
        *self = (*self).raised(claim);
    }
}

// The word of no version: one more than the bits of any.
pub const NO_VERSION: u64 = 0x1_0000_0000;

// A version as one word, as the id tables and the C entries hold it: below 2^32 the bits of the number, else none.
pub fn version_word(v: Option<i32>) -> u64
    ensures { result ≡ word_of v }
{
    match v {
        Some(n) => u64::from(n.cast_unsigned()),
        None => NO_VERSION,
    }
}

// The version that a word holds. It is a function and no `From`, since both types are the language's own; with `ok()?` in place of the match the search did not close its two returns.
pub fn version_of_word(w: u64) -> Option<i32>
    ensures { result ≡ of_word w }
{
    match u32::try_from(w) {
        Ok(bits) => Some(bits.cast_signed()),
        Err(_) => None,
    }
}
