// Dates: the text `YYYY-MM-DDTHH:MM:SSZ` as a count of seconds from 1970-01-01T00:00:00Z, below zero before.
#![tactic(auto)]

ghost use Rattle.std.specs.Prelude.{◌≡◌, cond, ◌+◌, ◌-◌, ◌≤◌, ◌<◌, pos, ◌-ℤ◌};
ghost use Rattle.date.specs.Calendar.{form, has_form, two_digits, is_leap, month_days, years_before, first_months, time_of, civil_time, date_of};
ghost use Rattle.date.specs.Calendar.{fits as fits_form, expired as expired_at, earlier as earlier_than};
ghost use Rattle.date.specs.Parts.{DigitsAt, Civil, floor_div};
ghost use Rattle.date.specs.View.{view_date};

// The seconds of a day.
const DAY: i64 = 86400;

// A count of seconds from 1970-01-01T00:00:00Z.
#[repr(C)]
#[derive(Clone, Copy, PartialEq, Eq, PartialOrd, Ord)]
pub struct Time {
    pub seconds: i64,
}

impl Time {
    // Whether a file that expires at this time is expired at `start`.
    #[tactic(auto, unfolding(crate::specs::Calendar::expired))]
    pub fn expired(self, start: Time) -> bool
        ensures { result ≡ expired_at self.seconds start.seconds }
    {
        self <= start
    }

    // Whether this start time is earlier than the latest one; an equal one is not.
    #[tactic(auto, unfolding(crate::specs::Calendar::earlier))]
    pub fn earlier(self, latest: Time) -> bool
        ensures { result ≡ earlier_than self.seconds latest.seconds }
    {
        self < latest
    }
}

// Whether b may stand where the form has f: a digit for a 0, and for any other byte that byte.
#[tactic(auto, unfolding(crate::specs::Calendar::fits))]
fn fits(f: u8, b: u8) -> bool
    ensures { result ≡ fits_form f b }
{
    if f == b'0' {
        b.is_ascii_digit()
    } else {
        b == f
    }
}

// Whether s is as long as the form and each byte fits.
fn has_form(form: &[u8], s: &[u8]) -> bool
    ensures { result ≡ has_form form.now s.now }
{
    form.len() == s.len() && form.iter().zip(s).all(|(f, b)| fits(*f, *b))
}

// The number that two digits write.
fn two_digits(s: &[u8], at: usize) -> u64
    requires { DigitsAt s.now at }
    ensures value { result ≡ two_digits s.now at }
    ensures upper_bound { result ≤ 99 }
{
    u64::from(s[at] - b'0') * 10 + u64::from(s[at + 1] - b'0')
}

// 1 in a leap year, else 0.
fn leap_day(year: u64) -> u64
    ensures { result ≡ cond (is_leap year) 1 0 }
{
    u64::from(year % 4 == 0 && year % 100 != 0 || year % 400 == 0)
}

// The days of a month.
fn month_days(year: u64, month: u64) -> u64
    ensures { result ≡ month_days year month }
{
    match month {
        2 => 28 + leap_day(year),
        4 | 6 | 9 | 11 => 30,
        _ => 31,
    }
}

// The days of the months before this one.
fn months_before(year: u64, month: u64) -> u64
    requires { (1 ≤ month) × (month ≤ 12) }
    ensures value { result ≡ first_months year (month - 1) }
    ensures upper_bound { result ≤ 400 }
{
    let mut days = 0;
    for k in 1..month {
        days += month_days(year, k);
    }
    days
}

// a / m, rounded down also below zero.
fn floor_div(a: i64, m: u64) -> i64
    requires { (0 < m) × (m < 1000) }
    ensures { result ≡ floor_div a m }
{
    a.div_euclid(m as i64)
}

// The days from 1970-01-01 to the first day of a year: 365 for each year, and one for each multiple of 4 from 1970 up to
// the year before, but none for a multiple of 100 that is not one of 400.
fn year_start(year: u64) -> i64
    requires { year ≤ 9999 }
    ensures { result ≡ pos (years_before year) -ℤ pos (years_before 1970) }
{
    let n = (year as i64) - 1970;
    let fours = floor_div(n + 1, 4);
    let hundreds = floor_div(n + 69, 100);
    let four_hundreds = floor_div(n + 369, 400);
    n * 365 + fours - hundreds + four_hundreds
}

// The seconds from 1970: the year's part may be below zero, what has passed of the year is not.
fn civil_seconds(year: u64, month: u64, day: u64, hour: u64, minute: u64, second: u64) -> i64
    requires { Civil year month day hour minute second }
    ensures { result ≡ time_of year month day hour minute second }
{
    let days = months_before(year, month) + (day - 1);
    let passed = ((days * 24 + hour) * 60 + minute) * 60 + second;
    year_start(year) * DAY + (passed as i64)
}

// The date of these numbers, if there is one.
fn civil_date(year: u64, month: u64, day: u64, hour: u64, minute: u64, second: u64) -> Option<Time>
    requires { year ≤ 9999 }
    ensures { view_date result ≡ civil_time year month day hour minute second }
{
    if !(1..=12).contains(&month) || !(1..=month_days(year, month)).contains(&day) {
        return None;
    }
    if hour > 23 || minute > 59 || second > 59 {
        return None;
    }
    Some(Time {
        seconds: civil_seconds(year, month, day, hour, minute, second),
    })
}

// The date that s writes.
pub fn parse(s: &[u8]) -> Option<Time>
    ensures { view_date result ≡ date_of s.now }
{
    if !has_form(b"0000-00-00T00:00:00Z", s) {
        return None;
    }
    let year = two_digits(s, 0) * 100 + two_digits(s, 2);
    let month = two_digits(s, 5);
    let day = two_digits(s, 8);
    let hour = two_digits(s, 11);
    let minute = two_digits(s, 14);
    let second = two_digits(s, 17);
    civil_date(year, month, day, hour, minute, second)
}
