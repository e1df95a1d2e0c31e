// Which seconds are instants, and how an instant is spelled.
ghost use Rattle.std.specs.Prelude.{◌≡◌, ◌↔◌, ℤ, ◌+◌, ◌/◌, ◌%◌, ◌<◌, ◌≤◌, ◌≤ℤ◌, ◌+ℤ◌, pos, length, Ok, IfOk, IfSome, IsTrue};
ghost use Rattle.std.specs.Bool.{OnTrue};
ghost use Rattle.jiff_core.specs.Calendar.{IsEpochDay};
ghost use Rattle.oe_dims.specs.Calendar.{civil_date};
ghost use Rattle.oe_dims.specs.Instant.{text_after, instant_text, instant_read, is_let_stand, follows_pattern, two_at, date_in, day_number, instant_of, IsInstant, SpellsInstant};
ghost use Rattle.oe_dims.specs.Dimensions.{first_instant, last_instant};

use jiff_core::civil::Date;

/// The first second of the year 1.
pub(crate) const FIRST_INSTANT: i64 = -62135596800;

/// The last second of the year 9999.
pub(crate) const LAST_INSTANT: i64 = 253402300799;

/// The days from 0001-01-01 to 1970-01-01.
const DAYS_BEFORE_1970: i64 = 719162;

/// The seconds of a day.
const DAY: u64 = 86400;

/// Why a text is no instant.
#[derive(Clone, Copy, PartialEq, Eq)]
pub enum InstantFault {
    /// The text is neither `YYYY-MM-DD` nor `YYYY-MM-DDTHH:MM:SSZ`.
    Spelling,
    /// The year is 0000, or the calendar has no such date or the clock no such time.
    NoSuchDay,
}

/// Whether a number of seconds since 1970-01-01T00:00:00Z lies in the years 1 to 9999.
pub fn is_instant(seconds: i64) -> bool
    ensures { IsTrue result ↔ IsInstant seconds }
{
    seconds >= FIRST_INSTANT && seconds <= LAST_INSTANT
}

/// The digit for the tens of a number below 100.
fn tens(n: u32) -> u8
    requires { n < 100 }
    ensures { result ≡ 48 + n / 10 }
{
    b'0' + (n / 10) as u8
}

/// The digit for the ones of a number.
fn ones(n: u32) -> u8
    ensures { result ≡ 48 + n % 10 }
{
    b'0' + (n % 10) as u8
}

/// A date by its numbers.
#[derive(Drop)]
struct CivilDate {
    year: u32,
    month: u32,
    day: u32,
}

/// The date so many days after 1 January of the year 1, in the Gregorian calendar.
pub fn date_after(days: u32) -> Date
    requires { days ≤ 3_652_058 }
    ensures year { result.year ≡ pos (civil_date days).year }
    ensures month { result.month ≡ (civil_date days).month }
    ensures day { result.day ≡ (civil_date days).day }
{
    match Date::from_unix_epoch_day(i64::from(days) - DAYS_BEFORE_1970) {
        Ok(date) => date,
        Err(_) => unreachable!(),
    }
}

/// The numbers of that date.
fn civil_date_after(days: u32) -> CivilDate
    requires { days ≤ 3_652_058 }
    ensures year { result.year ≡ (civil_date days).year }
    ensures month { result.month ≡ (civil_date days).month }
    ensures day { result.day ≡ (civil_date days).day }
    ensures four_digits { result.year < 10000 }
    ensures two_digits { result.month + result.day < 100 }
{
    let date = date_after(days);
    CivilDate {
        year: date.year as u32,
        month: u32::from(date.month),
        day: u32::from(date.day),
    }
}

/// The long spelling of the instant so many seconds after the first second of the year 1.
fn text_after(seconds: u64) -> [u8; 20]
    requires { seconds < 315_537_897_600 }
    ensures { result ≡ text_after seconds }
{
    let date = civil_date_after((seconds / DAY) as u32);
    let time = (seconds % DAY) as u32;
    let century = date.year / 100;
    let year = date.year % 100;
    let hour = time / 3600;
    let minute = time / 60 % 60;
    let second = time % 60;
    [
        tens(century),
        ones(century),
        tens(year),
        ones(year),
        b'-',
        tens(date.month),
        ones(date.month),
        b'-',
        tens(date.day),
        ones(date.day),
        b'T',
        tens(hour),
        ones(hour),
        b':',
        tens(minute),
        ones(minute),
        b':',
        tens(second),
        ones(second),
        b'Z',
    ]
}

/// How many seconds an instant comes after the first second of the year 1.
fn seconds_after(instant: i64) -> u64
    requires first { first_instant ≤ℤ instant }
    requires last { instant ≤ℤ last_instant }
    ensures after { instant ≡ first_instant +ℤ pos result }
    ensures most { result < 315_537_897_600 }
{
    (instant - FIRST_INSTANT) as u64
}

/// The long spelling of an instant in seconds since 1970-01-01T00:00:00Z, as `2024-01-01T00:00:00Z`.
pub fn print_instant(seconds: i64) -> [u8; 20]
    requires first { first_instant ≤ℤ seconds }
    requires last { seconds ≤ℤ last_instant }
    ensures text { result ≡ instant_text seconds }
    ensures read { instant_read result ≡ Ok seconds }
    // of any instant the long spelling is read as the instant again
    ensures again { (s : ℤ) → IsInstant s → instant_read (instant_text s) ≡ Ok s }
{
    text_after(seconds_after(seconds))
}

/// A byte that a pattern lets stand: any digit for `d`, and otherwise the same byte.
fn is_let_stand(letter: u8, byte: u8) -> bool
    ensures { result ≡ is_let_stand letter byte }
{
    if letter == b'd' {
        byte.is_ascii_digit()
    } else {
        byte == letter
    }
}

/// A text follows a pattern byte by byte.
#[tactic(auto, using(crate::proofs::PatternLemmas::follows_pattern_short))]
fn follows_pattern(pattern: &[u8], text: &[u8]) -> bool
    ensures value { result ≡ follows_pattern pattern.now text.now }
    ensures as_long { OnTrue result (length text.now ≡ length pattern.now) }
{
    if pattern.len() != text.len() {
        return false;
    }
    for index in 0..pattern.len() {
        if !is_let_stand(pattern[index], text[index]) {
            return false;
        }
    }
    true
}

/// The number that two digits of a text spell, from an index on.
fn two_at(text: &[u8], index: usize) -> u32
    requires { index + 1 < length text.now }
    ensures value { result ≡ two_at text.now index }
    ensures bound { result < 2400 }
{
    let tens = text[index].saturating_sub(b'0');
    let ones = text[index + 1].saturating_sub(b'0');
    10 * u32::from(tens) + u32::from(ones)
}

/// The date that a text spells.
fn date_in(text: &[u8]) -> CivilDate
    requires { 10 ≤ length text.now }
    ensures year { result.year ≡ (date_in text.now).year }
    ensures month { result.month ≡ (date_in text.now).month }
    ensures day { result.day ≡ (date_in text.now).day }
{
    CivilDate {
        year: 100 * two_at(text, 0) + two_at(text, 2),
        month: two_at(text, 5),
        day: two_at(text, 8),
    }
}

/// The day number of a date, if the calendar has it, in the years 1 to 9999.
fn day_number(date: CivilDate) -> Option<i64>
    ensures value { result
        ≡ day_number (record { year = date.year; month = date.month; day = date.day }) }
    ensures bound { IfSome result IsEpochDay }
{
    let CivilDate { year, month, day } = date;
    if year < 1 || year > 9999 || month > 12 || day > 31 {
        return None;
    }
    match Date::new(year as i16, month as i8, day as i8) {
        Ok(date) => Some(i64::from(date.to_unix_epoch_day())),
        Err(_) => None,
    }
}

/// The instant of a date and a time of day, if both are real.
fn instant_of(date: CivilDate, hour: u32, minute: u32, second: u32) -> Result<i64, InstantFault>
    ensures { result
        ≡ instant_of (record {
          date = record { year = date.year; month = date.month; day = date.day };
          hour = hour;
          minute = minute;
          second = second;
        }) }
{
    if hour > 23 || minute > 59 || second > 59 {
        return Err(InstantFault::NoSuchDay);
    }
    match day_number(date) {
        Some(day) => Ok(day * DAY as i64 + i64::from(hour * 3600 + minute * 60 + second)),
        None => Err(InstantFault::NoSuchDay),
    }
}

/// The instant that a text spells, in seconds since 1970-01-01T00:00:00Z: `YYYY-MM-DDTHH:MM:SSZ`, or `YYYY-MM-DD` for
/// the first second of the day (RFC 3339, in universal time), with the years 0001 to 9999. No day has a second 60.
///
/// Refuses: `Spelling` where the text has neither form, and `NoSuchDay` where it has one but the year is 0000, or there
/// is no such date or time.
pub fn read_instant(text: &str) -> Result<i64, InstantFault>
    ensures value { result ≡ instant_read text.now }
    // a text is read as an instant exactly where it is one of its two spellings
    ensures exact { (seconds : ℤ) → (result ≡ Ok seconds) ↔ SpellsInstant text.now seconds }
    ensures range { IfOk result IsInstant }
{
    read_bytes(text.as_bytes())
}

/// The instant that the bytes of a text spell.
#[tactic(auto, unfolding(crate::specs::Instant::instant_read))]
fn read_bytes(bytes: &[u8]) -> Result<i64, InstantFault>
    ensures { result ≡ instant_read bytes.now }
{
    if follows_pattern(b"dddd-dd-ddTdd:dd:ddZ", bytes) {
        return instant_of(
            date_in(bytes),
            two_at(bytes, 11),
            two_at(bytes, 14),
            two_at(bytes, 17),
        );
    }
    if follows_pattern(b"dddd-dd-dd", bytes) {
        return instant_of(date_in(bytes), 0, 0, 0);
    }
    Err(InstantFault::Spelling)
}
