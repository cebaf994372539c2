// Timestamps: the seconds from 1970-01-01T00:00:00Z of a date-time in UTC, as document 01 words `parse_rfc3339_utc`; each field is digits.
#![tactic(auto)]

ghost use Rattle.std.specs.Prelude.{◌≡◌, ◌+◌, ◌-◌, ◌≤◌, length, pos, ◌-ℤ◌, true, option_map};
ghost use Rattle.std.specs.Int.{w64};
ghost use Rattle.std.proofs.Common.{of_z};
ghost use Rattle.integer.specs.Integer.{digits};
ghost use Rattle.stamp.specs.Stamp.{separated, moment, taken_moment, days_of, epoch, seconds_of, accepted_moment, stamp_of};

// The six numbers of a stamp, each under its own name.
#[derive(Clone, Copy, PartialEq, Eq, Debug)]
pub struct Moment {
    pub year: u32,
    pub month: u32,
    pub day: u32,
    pub hour: u32,
    pub minute: u32,
    pub second: u32,
}

// The number of a field of a stamp, of at most four bytes.
fn stamp_field(field: &[u8]) -> Option<u32>
    requires { length field.now ≤ 4 }
    ensures { result ≡ digits field.now }
{
    let n = integer::read_digits(field, 9999)?;
    u32::try_from(n).ok()
}

// The separators of a text of 20 bytes.
fn separated(s: &[u8; 20]) -> bool
    ensures { result ≡ separated s.now }
{
    let time = (s[13] == b':') & ((s[16] == b':') & (s[19] == b'Z'));
    (s[4] == b'-') & ((s[7] == b'-') & ((s[10] == b'T') & time))
}

fn read_six(s: &[u8; 20]) -> Option<Moment>
    ensures { result ≡ moment s.now }
{
    Some(Moment {
        year: stamp_field(&s[0..4])?,
        month: stamp_field(&s[5..7])?,
        day: stamp_field(&s[8..10])?,
        hour: stamp_field(&s[11..13])?,
        minute: stamp_field(&s[14..16])?,
        second: stamp_field(&s[17..19])?,
    })
}

fn taken(m: Moment) -> bool
    ensures { result ≡ taken_moment m }
{
    if m.month < 1 {
        return false;
    }
    if 12 < m.month {
        return false;
    }
    let last = calendar::month_length(calendar::is_leap(m.year), m.month as u8);
    let day = (1 <= m.day) & (m.day <= last as u32);
    day & ((m.hour <= 23) & ((m.minute <= 59) & (m.second <= 59)))
}

// The days from the first day of year 0 to the moment's date.
#[tactic(auto, using(crate::proofs::Judging::moment_ranges, crate::proofs::Counting::days_high, crate::proofs::Counting::days_are))]
fn days(m: Moment) -> u64
    requires { taken_moment m ≡ true }
    ensures { result ≡ days_of m }
{
    let months = calendar::days_before_month(calendar::is_leap(m.year), m.month as u8);
    calendar::days_before_year(m.year) + months + (m.day as u64 - 1)
}

// 1970-01-01T00:00:00Z in seconds from the first day of year 0.
const EPOCH: u64 = 62_167_219_200;

fn since_epoch(total: u64) -> u64
    ensures { result ≡ of_z w64 (pos total -ℤ pos epoch) }
{
    total.wrapping_sub(EPOCH)
}

#[tactic(auto, using(crate::proofs::Judging::moment_ranges, crate::proofs::Counting::days_high))]
fn seconds(m: Moment) -> u64
    requires { taken_moment m ≡ true }
    ensures { result ≡ of_z w64 (seconds_of m) }
{
    since_epoch(days(m) * 86400 + m.hour as u64 * 3600 + m.minute as u64 * 60 + m.second as u64)
}

fn accepted(s: &[u8; 20]) -> Option<u64>
    ensures { result ≡ option_map (of_z w64) (accepted_moment (moment s.now)) }
{
    let m = read_six(s)?;
    if taken(m) {
        return Some(seconds(m));
    }
    None
}

// The bits of a stamp's seconds, if it is one. It is no `FromStr`: it keeps its published name, and takes bytes.
pub fn parse_rfc3339_utc(s: &[u8]) -> Option<u64>
    ensures { result ≡ stamp_of s.now }
{
    let text = s.as_array::<20>()?;
    if separated(text) {
        return accepted(text);
    }
    None
}
