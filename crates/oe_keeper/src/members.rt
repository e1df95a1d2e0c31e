// Members of the entry of a job.
ghost use Rattle.std.specs.Prelude.{◌≡◌, ◌<◌, IfOk, MatchOption, Option, Some, codes, decimal, option_and_then};
ghost use Rattle.std.specs.Option.{option_map};
ghost use Rattle.serde_json.specs.Data.{string};
ghost use Rattle.serde_json.specs.Find.{as_array, as_str, get};
ghost use Rattle.serde_json.specs.View.{items_view, view};
ghost use Rattle.oe_dims.specs.Instant.{IsInstant};
ghost use Rattle.oe_jobs.specs.Texts as texts;
ghost use Rattle.oe_jobs.specs.Texts.{Finds};
ghost use Rattle.oe_keeper.specs.Entry as spec;
ghost use Rattle.oe_keeper.specs.Reading as reading;
ghost use Rattle.oe_keeper.specs.Reading.{HasInstant, HasTurn, IsLevel};

use oe_dims::{Text, is_instant};
use oe_jobs::{Level, Status, read_number};
use oe_memory::OutOfMemory;
use serde_json::Value;
use std::alloc::Global;

/// The member of a name, where it is a text.
pub(crate) fn str_in<'a>(value: &'a Value, name: &str) -> Option<&'a str>
    ensures { option_map (λ s. s.now) result
        ≡ option_and_then as_str (get name.now (view value.now)) }
{
    value.get(name)?.as_str()
}

/// The values of the member of a name, where it is a list.
pub(crate) fn list_in<'a>(value: &'a Value, name: &str) -> Option<&'a [Value]>
    ensures { option_map (λ list. items_view list.now) result
        ≡ option_and_then as_array (get name.now (view value.now)) }
{
    let list = value.get(name)?.as_array()?;
    Some(list.as_slice())
}

/// A copy of the member of a name, where it is a text.
pub(crate) fn text_in(alloc: Global, value: &Value, name: &str) -> Result<Option<Text>, OutOfMemory>
    ensures { IfOk result
        (λ read. Finds (λ text. get name.now (view value.now) ≡ Some (string text)) read) }
{
    match str_in(value, name) {
        Some(text) => Ok(Some(Text::of(alloc, text)?)),
        None => Ok(None),
    }
}

/// A copy of the member of a name, where it is a text, or null for none.
pub(crate) fn words_in(
    alloc: Global,
    value: &Value,
    name: &str,
) -> Result<Option<Option<Text>>, OutOfMemory>
    ensures { IfOk result (λ read. Finds (λ words. get name.now (view value.now)
        ≡ Some (spec.text_data words)) read) }
{
    match value.get(name) {
        Some(member) => words_of(alloc, member),
        None => Ok(None),
    }
}

fn words_of(alloc: Global, value: &Value) -> Result<Option<Option<Text>>, OutOfMemory>
    ensures { IfOk result (λ read. Finds (λ words. view value.now ≡ spec.text_data words) read) }
{
    if value.is_null() {
        return Ok(Some(None));
    }
    match value.as_str() {
        Some(text) => Ok(Some(Some(Text::of(alloc, text)?))),
        None => Ok(None),
    }
}

/// The member of a name, where it is a whole number of seconds in the years 1 to 9999.
pub(crate) fn instant_in(value: &Value, name: &str) -> Option<i64>
    ensures { Finds (HasInstant name.now (view value.now)) result }
{
    match whole_in(value, name) {
        Some(seconds) => instant_of(seconds),
        None => None,
    }
}

fn whole_in(value: &Value, name: &str) -> Option<i64>
    ensures { result ≡ reading.whole_in name.now (view value.now) }
{
    value.get(name)?.as_i64()
}

/// A number of seconds, where it is in the years 1 to 9999.
fn instant_of(seconds: i64) -> Option<i64>
    ensures { MatchOption result (¬ IsInstant seconds) (λ s. (s ≡ seconds) × IsInstant s) }
{
    if is_instant(seconds) {
        Some(seconds)
    } else {
        None
    }
}

/// The member `turn`, where it is a number in decimal without leading zeros.
pub(crate) fn turn_in(value: &Value) -> Option<u64>
    ensures { Finds (HasTurn (view value.now)) result }
{
    match str_in(value, "turn") {
        Some(text) => read_number(text),
        None => None,
    }
}

/// The member `status`, where it is a status.
pub(crate) fn status_in(value: &Value) -> Option<Status>
    ensures { Finds (λ status. get (codes "status") (view value.now)
        ≡ Some (string (texts.status_text status))) result }
{
    match str_in(value, "status") {
        Some(text) => Status::of(text),
        None => None,
    }
}

/// The member `level`, where it is a level, or info where there is none.
pub(crate) fn level_in(value: &Value) -> Option<Level>
    ensures { Finds (IsLevel (get (codes "level") (view value.now))) result }
{
    match value.get("level") {
        Some(_) => level_at(value),
        None => Some(Level::Info),
    }
}

/// The member `level`, where it is a level.
pub(crate) fn level_at(value: &Value) -> Option<Level>
    ensures { Finds (λ level. get (codes "level") (view value.now)
        ≡ Some (string (texts.level_text level))) result }
{
    match str_in(value, "level") {
        Some(text) => Level::of(text),
        None => None,
    }
}
