//! Times as dates and times of day, in universal time.
ghost use Rattle.std.specs.Prelude.{◌≡◌, ◌+◌, ◌<◌, ◌≤◌, ◌++◌, OnOk};
ghost use Rattle.vol_listing.specs.Dates.{is_leap, year_days, is_short, month_days, pass_years, pass_months, date_of, digit, date_text, clock_text, moment_text};

use std::alloc::AllocError;

/// A day of the Gregorian calendar.
#[derive(Clone, Copy)]
pub(crate) struct Date {
    /// The year.
    pub(crate) year: u32,
    /// The month, 1 to 12.
    pub(crate) month: u32,
    /// The day of the month, from 1.
    pub(crate) day: u32,
}

/// The number of seconds in a day.
const DAY: u32 = 86_400;

/// The number of years that 32-bit times can reach after the beginning of 1970.
const YEARS: u32 = 136;

/// Appends a time, in seconds since the beginning of 1970, as `YYYY-MM-DD HH:MM:SS` in universal time.
#[tactic(auto, unfolding(crate::specs::Dates::moment_text))]
pub fn push_moment(text: &mut Vec<u8>, seconds: u32) -> Result<(), AllocError>
    ensures { OnOk result (text.new.items ≡ text.old.items ++ moment_text seconds) }
{
    text.extend_from_slice(&date_text(date_of(seconds / DAY)))?;
    text.push(b' ')?;
    text.extend_from_slice(&clock_text(seconds % DAY))?;
    Ok(())
}

/// Returns the date `days` days after the beginning of 1970.
#[tactic(auto, unfolding(crate::specs::Dates::date_of))]
fn date_of(days: u32) -> Date
    requires { days ≤ 49710 }
    ensures { result ≡ date_of days }
{
    let (year, rest) = pass_years(YEARS, 1970, days);
    let (month, rest) = pass_months(11, year, 1, rest);
    Date {
        year,
        month,
        day: rest + 1,
    }
}

/// Returns the year of the day that is `days` days after the beginning of `year`, and the number of days of that year before this day. Advances by at
/// most `count` years.
#[tactic(auto, using(crate::proofs::Calendar::years_none, crate::proofs::Calendar::years_within, crate::proofs::Calendar::years_on))]
fn pass_years(count: u32, year: u32, days: u32) -> (u32, u32)
    requires { count + year < 10000 }
    ensures value { result ≡ pass_years count year days }
    ensures rest { result.1 ≤ days }
{
    if count == 0 {
        return (year, days);
    }
    let length = year_days(year);
    if days < length {
        return (year, days);
    }
    pass_years(count - 1, year + 1, days - length)
}

/// Returns the month of the day that is `days` days after the beginning of `month`, and the number of days of that month before this day. Advances by
/// at most `count` months.
#[tactic(auto, using(crate::proofs::Calendar::months_none, crate::proofs::Calendar::months_within, crate::proofs::Calendar::months_on))]
fn pass_months(count: u32, year: u32, month: u32, days: u32) -> (u32, u32)
    requires { count + month < 100 }
    ensures value { result ≡ pass_months count year month days }
    ensures rest { result.1 ≤ days }
{
    if count == 0 {
        return (month, days);
    }
    let length = month_days(year, month);
    if days < length {
        return (month, days);
    }
    pass_months(count - 1, year, month + 1, days - length)
}

/// True if a year has a leap day.
fn is_leap(year: u32) -> bool
    ensures { result ≡ is_leap year }
{
    year % 4 == 0 && (year % 100 != 0 || year % 400 == 0)
}

/// Returns the number of days in a year.
fn year_days(year: u32) -> u32
    ensures { result ≡ year_days year }
{
    if is_leap(year) { 366 } else { 365 }
}

/// Returns the number of days in a month of a year.
fn month_days(year: u32, month: u32) -> u32
    ensures { result ≡ month_days year month }
{
    match month {
        2 if is_leap(year) => 29,
        2 => 28,
        4 | 6 | 9 | 11 => 30,
        _ => 31,
    }
}

/// Returns the digit of a number at a weight; weight 1 is for the last digit.
fn digit(weight: u32, number: u32) -> u8
    requires { 0 < weight }
    ensures { result ≡ digit weight number }
{
    b'0' + (number / weight % 10) as u8
}

/// Returns a date as `YYYY-MM-DD`.
#[tactic(auto, unfolding(crate::specs::Dates::date_text))]
fn date_text(date: Date) -> [u8; 10]
    ensures { result ≡ date_text date }
{
    [
        digit(1000, date.year),
        digit(100, date.year),
        digit(10, date.year),
        digit(1, date.year),
        b'-',
        digit(10, date.month),
        digit(1, date.month),
        b'-',
        digit(10, date.day),
        digit(1, date.day),
    ]
}

/// Returns a second of a day as `HH:MM:SS`.
#[tactic(auto, unfolding(crate::specs::Dates::clock_text))]
fn clock_text(second: u32) -> [u8; 8]
    ensures { result ≡ clock_text second }
{
    let (hour, minute, second) = (second / 3600, second / 60 % 60, second % 60);
    [
        digit(10, hour),
        digit(1, hour),
        b':',
        digit(10, minute),
        digit(1, minute),
        b':',
        digit(10, second),
        digit(1, second),
    ]
}
