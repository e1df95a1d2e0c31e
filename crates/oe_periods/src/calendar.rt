// The calendar: of each instant its day, month and year, and where these begin.
ghost use Rattle.std.specs.Prelude.{◌≡◌, ◌<◌, ◌≤◌};
ghost use Rattle.jiff_core.specs.Calendar.{days_from_civil};
ghost use Rattle.oe_dims.specs.Calendar.{civil_date};
ghost use Rattle.oe_dims.specs.Instant.{IsInstant};
ghost use Rattle.oe_periods.specs.Calendar as spec;
ghost use Rattle.oe_periods.specs.Periods.{PartTime};

use jiff_core::civil::Date;
use oe_dims::date_after;

/// The first second of the year 1.
pub(crate) const FIRST_INSTANT: i64 = -62135596800;

/// The seconds of a day.
const DAY: i64 = 86400;

/// A calendar period, in universal time (openEO Processes, `aggregate_temporal_period`).
#[derive(Clone, Copy, PartialEq, Eq)]
pub enum Period {
    Day,
    Month,
    Year,
}

/// The period of a name: `day`, `month` or `year` (openEO Processes); `None` for every other name.
pub fn period_named(name: &str) -> Option<Period>
    ensures { result ≡ spec.period_named name.now }
{
    if name == "day" {
        Some(Period::Day)
    } else if name == "month" {
        Some(Period::Month)
    } else if name == "year" {
        Some(Period::Year)
    } else {
        None
    }
}

/// How many days lie between the first day of the year 1 and that of an instant.
fn days_to(instant: i64) -> u32
    requires { IsInstant instant }
    ensures { result ≡ spec.days_to instant }
{
    ((instant - FIRST_INSTANT) / DAY) as u32
}

/// The number of the month of a day, from 0 for January of the year 1.
fn month_of(days: u32) -> u32
    requires { days < 3_652_059 }
    ensures { result ≡ spec.month_number (civil_date days) }
{
    let date = date_after(days);
    12 * (date.year as u32 - 1) + (date.month as u32 - 1)
}

/// The number of the year of a day, from 0 for the year 1.
fn year_of(days: u32) -> u32
    requires { days < 3_652_059 }
    ensures { result ≡ spec.year_number (civil_date days) }
{
    date_after(days).year as u32 - 1
}

/// The number of the period in which an instant lies, from 0 for the one that begins with the year 1.
pub(crate) fn number_of(period: Period, instant: i64) -> u32
    requires { IsInstant instant }
    ensures value { result ≡ spec.period_number period instant }
    ensures within { result < spec.periods_in_all period }
{
    match period {
        Period::Day => days_to(instant),
        Period::Month => month_of(days_to(instant)),
        Period::Year => year_of(days_to(instant)),
    }
}

/// The first second of the first of a month of a year from 1 to 9999.
fn first_of_month(year: u32, month: u32) -> i64
    requires year { 1 ≤ year × year ≤ 9999 }
    requires month { 1 ≤ month × month ≤ 12 }
    ensures { result ≡ spec.first_of_month year month }
{
    match Date::new(year as i16, month as i8, 1) {
        Ok(date) => i64::from(date.to_unix_epoch_day()) * DAY,
        Err(_) => unreachable!(),
    }
}

/// The first second of the period of a number.
pub(crate) fn start_of(period: Period, number: u32) -> i64
    requires { number < spec.periods_in_all period }
    ensures { result ≡ spec.period_start period number }
{
    match period {
        Period::Day => FIRST_INSTANT + DAY * i64::from(number),
        Period::Month => first_of_month(number / 12 + 1, number % 12 + 1),
        Period::Year => first_of_month(number + 1, 1),
    }
}

/// The end of the period of a number, which is the start of the next; `None` of the last ones of the year 9999.
pub(crate) fn end_of(period: Period, number: u32) -> Option<i64>
    requires { number < spec.periods_in_all period }
    ensures { result ≡ spec.period_end period number }
{
    let next = number + 1;
    if next == periods_in_all(period) {
        None
    } else {
        Some(start_of(period, next))
    }
}

/// How many periods the years 1 to 9999 have.
fn periods_in_all(period: Period) -> u32
    ensures { result ≡ spec.periods_in_all period }
{
    match period {
        Period::Day => 3_652_059,
        Period::Month => 119_988,
        Period::Year => 9999,
    }
}

/// Does nothing. Its contract says that each instant lies in exactly one calendar period, which begins at or before it
/// and ends behind it.
pub fn calendar_parts_time()
    ensures { PartTime }
{}
