// The Gregorian calendar: leap years, month lengths, and the days before a month and before a year.
#![tactic(auto)]

ghost use Rattle.std.specs.Prelude.{◌≡◌, ◌-◌};
ghost use Rattle.calendar.specs.Calendar.{leap, month_days, months_days, years_days};

pub fn is_leap(year: u32) -> bool
    ensures { result ≡ leap year }
{
    year % 4 == 0 && (year % 100 != 0 || year % 400 == 0)
}

// The length of a month, 1 to 12; 31 for any other number, of which nobody asks: a caller has tested the month. But for February, 31 and 30 days come in turn from January, and anew from August, the 8th month.
pub fn month_length(leap_year: bool, month: u8) -> u8
    ensures { result ≡ month_days leap_year month }
{
    match month {
        2 if leap_year => 29,
        2 => 28,
        0 | 13.. => 31,
        _ => 30 + (month + month / 8) % 2,
    }
}

// The days of the year before a month. It adds in a loop: that the sum fits is its invariant, which a fold's closure would have to promise.
pub fn days_before_month(leap_year: bool, month: u8) -> u64
    ensures { result ≡ months_days leap_year (month - 1) }
{
    let mut days = 0;
    for m in 1..month {
        days += u64::from(month_length(leap_year, m));
    }
    days
}

// The days of the years from 0 on before a year.
pub fn days_before_year(year: u32) -> u64
    ensures { result ≡ years_days year }
{
    let y = u64::from(year);
    365 * y + (y + 3) / 4 - (y + 99) / 100 + (y + 399) / 400
}
