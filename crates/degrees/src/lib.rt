// Degrees as decimal text, as document 02 words them: read whole, in whole numbers of 1e-12 degree, and rounded once to the nearest 1e-7 degree.
#![tactic(auto)]

ghost use Rattle.std.specs.Prelude.{◌≡◌, ◌*◌, ◌^◌, ◌-◌, ◌≤◌, ◌<◌, length, option_map};
ghost use Rattle.degrees.specs.Degrees.{exact_degrees};
ghost use Rattle.degrees.specs.Nearest.{most_degrees, nearest, read_degrees};
ghost use Rattle.degrees.specs.Exact.{digits_to, size_of, exact_in};

// One degree in units of 1e-12 degree, and 1e-7 degree in them.
const DEGREE: u64 = 1_000_000_000_000;

const UNIT: u64 = 100_000;

// A coordinate's axis, by which degrees are bounded.
#[derive(Clone, Copy, PartialEq, Eq, Debug)]
pub enum Axis {
    Latitude,
    Longitude,
}

impl Axis {
    // The most degrees either side of 0.
    fn most(self) -> u64
        ensures { result ≡ most_degrees self }
    {
        match self {
            Axis::Latitude => 90 * DEGREE,
            Axis::Longitude => 180 * DEGREE,
        }
    }
}

// Why a text is no coordinate in degrees.
#[derive(Clone, Copy, PartialEq, Eq, Debug)]
pub enum DegreesError {
    NotDegrees,
    OutOfRange,
}

// Exact degrees: how far from 0, in units of 1e-12 degree, and on which side.
#[derive(Clone, Copy, PartialEq, Eq, Debug)]
struct ExactDegrees {
    negative: bool,
    size: u64,
}

// The number of a text of one to `most` digits.
fn digits_to(text: &[u8], most: usize) -> Option<u64>
    requires { most ≤ 12 }
    ensures { result ≡ digits_to most text.now }
{
    if most < text.len() {
        return None;
    }
    integer::read_digits(text, u64::MAX)
}

// The digits behind a point, in units of 1e-12 degree.
fn decimals_size(text: &[u8]) -> Option<u64>
    ensures { result ≡ option_map (λ n. n * 10 ^ (12 - length text.now)) (digits_to 12 text.now) }
{
    let number = digits_to(text, 12)?;
    Some(number * 10u64.pow(12 - text.len() as u32))
}

// The degrees of a text without a sign.
fn size_of(text: &[u8]) -> Option<u64>
    ensures { result ≡ size_of text.now }
{
    match text.iter().position(|b| *b == b'.') {
        Some(at) => {
            let whole = digits_to(&text[..at], 3)?;
            Some(whole * DEGREE + decimals_size(&text[at + 1..])?)
        }
        None => Some(digits_to(text, 3)? * DEGREE),
    }
}

// The degrees of a text behind its sign.
fn behind_sign(negative: bool, text: &[u8]) -> Option<ExactDegrees>
    ensures { result ≡ option_map (λ n. record { negative = negative; size = n }) (size_of text.now) }
{
    let size = size_of(text)?;
    Some(ExactDegrees { negative, size })
}

// The degrees of a text.
fn exact_degrees(text: &[u8]) -> Option<ExactDegrees>
    ensures { option_map exact_in result ≡ exact_degrees text.now }
{
    match text {
        [] => None,
        [b'+', rest @ ..] => behind_sign(false, rest),
        [b'-', rest @ ..] => behind_sign(true, rest),
        _ => behind_sign(false, text),
    }
}

// The nearest 1e-7 degree, ties away from zero.
fn nearest(exact: ExactDegrees) -> i32
    requires { exact.size ≤ 180 * 10 ^ 12 }
    ensures { result ≡ nearest (exact_in exact) }
{
    let size = ((exact.size + UNIT / 2) / UNIT) as i32;
    if exact.negative { -size } else { size }
}

// A coordinate from degrees as decimal text, in units of 1e-7 degree.
pub fn read_degrees(text: &[u8], axis: Axis) -> Result<i32, DegreesError>
    ensures { result ≡ read_degrees axis text.now }
{
    let exact = exact_degrees(text).ok_or(DegreesError::NotDegrees)?;
    if axis.most() < exact.size {
        return Err(DegreesError::OutOfRange);
    }
    Ok(nearest(exact))
}

#[cfg(test)]
mod tests {
    use super::*;

    #[test]
    fn edges(rt: HostRuntime) {
        let latitude = |text: &[u8]| read_degrees(text, Axis::Latitude);
        assert_eq!(rt; latitude(b"59.011234"), Ok(590_112_340));
        assert_eq!(rt; latitude(b"+090.000000000000"), Ok(900_000_000));
        assert_eq!(rt; latitude(b"90.000000000001"), Err(DegreesError::OutOfRange));
        assert_eq!(rt; latitude(b"-0.00000005"), Ok(-1));
        assert_eq!(rt; latitude(b"0.000000049999"), Ok(0));
        assert_eq!(rt; latitude(b"-0"), Ok(0));
        assert_eq!(rt; latitude(b"5."), Err(DegreesError::NotDegrees));
        assert_eq!(rt; latitude(b"0090"), Err(DegreesError::NotDegrees));
    }
}
