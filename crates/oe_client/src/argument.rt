// What may stand behind a verb.
ghost use Rattle.std.specs.Prelude.{◌≡◌, ◌↔◌, ◌==◌, ℕ, IfNone, IfSome, IsTrue, decimal, not, true};
ghost use Rattle.std.specs.List.{list_all};
ghost use Rattle.std.specs.Option.{option_map};
ghost use Rattle.oe_http.specs.Heads.{slash};
ghost use Rattle.oe_client.specs.Arguments as spec;

use crate::verbs::Argument;
use itoa::Buffer;
use oe_dims::Text;

/// The most bytes of an argument.
const MOST_ARGUMENT: usize = 200;

/// Whether this may stand behind a verb that takes such an argument: nothing, or 1 to 200 bytes of letters, digits, `_`,
/// `-`, `.` and `/`; of `ID/NAME` with one slash and bytes on both sides of it; of `ID/N` with an id without a slash
/// before it and a number from 1 to 2^64 − 1 behind it, in decimal without leading zeros; the name of a list.
pub fn is_argument_of(argument: Argument, text: Option<&Text>) -> bool
    ensures { IsTrue result ↔ spec.IsArgumentOf argument (option_map (λ t. t.now) text.entry) }
{
    match (argument, text) {
        (Argument::Missing, None) => true,
        (Argument::Id, Some(text)) => is_path(text.as_str()),
        (Argument::JobAndAsset, Some(text)) => {
            is_path(text.as_str()) && is_job_and_asset(text.as_str())
        }
        (Argument::JobAndOffset, Some(text)) => {
            is_path(text.as_str()) && is_job_and_offset(text.as_str())
        }
        (Argument::ListName, Some(text)) => is_path(text.as_str()) && is_list(text.as_str()),
        _ => false,
    }
}

/// 1 to 200 bytes that an argument may have.
fn is_path(text: &str) -> bool
    ensures { result ≡ spec.is_argument text.now }
{
    let bytes = text.as_bytes();
    !bytes.is_empty() && bytes.len() <= MOST_ARGUMENT && all_argument_bytes(bytes)
}

/// Every byte is a letter, a digit, `_`, `-`, `.` or a slash.
fn all_argument_bytes(bytes: &[u8]) -> bool
    ensures { result ≡ list_all spec.is_argument_byte bytes.now }
{
    bytes.iter().all(|byte| is_argument_byte(*byte))
}

/// A letter, a digit, `_`, `-`, `.` or a slash.
fn is_argument_byte(byte: u8) -> bool
    ensures { result ≡ spec.is_argument_byte byte }
{
    byte.is_ascii_alphanumeric() || byte == b'_' || byte == b'-' || byte == b'.' || byte == b'/'
}

/// What stands before the first slash, and what follows it.
pub(crate) fn split_at_slash(text: &str) -> (&str, &str)
    ensures id { result.0.now ≡ spec.id_part text.now }
    ensures rest { result.1.now ≡ spec.rest_part text.now }
{
    match text.split_once('/') {
        Some((id, rest)) => (id, rest),
        None => (text, ""),
    }
}

/// An id and the name of an asset, with a slash between them.
fn is_job_and_asset(text: &str) -> bool
    ensures { IsTrue result ↔ (spec.is_segment (spec.id_part text.now) ≡ true)
        × (spec.is_segment (spec.rest_part text.now) ≡ true) }
{
    let (id, name) = split_at_slash(text);
    is_segment(id) && is_segment(name)
}

/// An id and a number, with a slash between them.
fn is_job_and_offset(text: &str) -> bool
    ensures { IsTrue result ↔ (spec.is_segment (spec.id_part text.now) ≡ true)
        × spec.IsOffset (spec.rest_part text.now) }
{
    let (id, number) = split_at_slash(text);
    is_segment(id) && is_offset(number)
}

/// The name of a list.
fn is_list(text: &str) -> bool
    ensures { result ≡ spec.is_list text.now }
{
    is_open_list(text) || is_own_list(text)
}

fn is_open_list(text: &str) -> bool
    ensures { result ≡ spec.is_open_list text.now }
{
    text == "collections" || text == "processes"
}

fn is_own_list(text: &str) -> bool
    ensures { result ≡ spec.is_own_list text.now }
{
    text == "jobs" || text == "process_graphs"
}

/// Some bytes, none of them a slash.
fn is_segment(text: &str) -> bool
    ensures { result ≡ spec.is_segment text.now }
{
    !text.is_empty() && has_no_slash(text.as_bytes())
}

fn has_no_slash(bytes: &[u8]) -> bool
    ensures { result ≡ list_all (λ b. not (b == slash)) bytes.now }
{
    bytes.iter().all(|byte| *byte != b'/')
}

/// A number from 1 to 2^64 − 1, in decimal without leading zeros.
fn is_offset(text: &str) -> bool
    ensures { IsTrue result ↔ spec.IsOffset text.now }
{
    read_offset(text).is_some()
}

/// The number that a text spells so, `None` exactly where it spells none.
fn read_offset(text: &str) -> Option<u64>
    ensures some { IfSome result (spec.SpellsOffset text.now) }
    ensures none { IfNone result ((number : ℕ) → ¬ spec.SpellsOffset text.now number) }
{
    match text.parse::<u64>() {
        Ok(number) => {
            if spells_offset(text, number) {
                Some(number)
            } else {
                None
            }
        }
        Err(_) => None,
    }
}

fn spells_offset(text: &str, number: u64) -> bool
    ensures { IsTrue result ↔ spec.SpellsOffset text.now number }
{
    number != 0 && spells_number(text, number)
}

/// The text is the decimal spelling of the number.
fn spells_number(text: &str, number: u64) -> bool
    ensures { IsTrue result ↔ text.now ≡ decimal number }
{
    Buffer::new().format(number) == text
}
