// Moments, as the openEO API spells them.
ghost use Rattle.std.specs.Prelude.{◌≡◌, ◌≤ℤ◌, IfOk, OnOk};
ghost use Rattle.serde_json.specs.Data.{string, put as with_member};
ghost use Rattle.serde_json.specs.View.{members_view, view};
ghost use Rattle.oe_dims.specs.Dimensions.{first_instant, last_instant};
ghost use Rattle.oe_dims.specs.Instant.{instant_text};
ghost use Rattle.oe_replies.specs.Json as spec;

use oe_dims::{is_instant, print_instant};
use oe_graph::str_json;
use oe_memory::OutOfMemory;
use serde_json::{Map, Value, put};
use std::alloc::Global;
use std::str;

/// A moment, in seconds since 1970-01-01T00:00:00Z, in its long spelling (RFC 3339), or null outside of the years 1 to
/// 9999.
#[tactic(auto, using(crate::proofs::Moments::moment_spelled, crate::proofs::Moments::moment_null))]
pub(crate) fn moment_json(alloc: Global, seconds: i64) -> Result<Value, OutOfMemory>
    ensures { IfOk result (λ v. view v ≡ spec.moment_data seconds) }
{
    if is_instant(seconds) {
        instant_json(alloc, seconds)
    } else {
        Ok(Value::Null)
    }
}

/// An instant, in its long spelling.
fn instant_json(alloc: Global, seconds: i64) -> Result<Value, OutOfMemory>
    requires first { first_instant ≤ℤ seconds }
    requires last { seconds ≤ℤ last_instant }
    ensures { IfOk result (λ v. view v ≡ string (instant_text seconds)) }
{
    let bytes = print_instant(seconds);
    match str::from_utf8(&bytes) {
        Ok(text) => str_json(alloc, text),
        Err(_) => unreachable!(),
    }
}

/// Puts a moment.
pub(crate) fn put_moment(
    entry: &mut Map<String, Value>,
    alloc: Global,
    name: &str,
    seconds: i64,
) -> Result<(), OutOfMemory>
    ensures { OnOk result (members_view entry.new.entries
        ≡ with_member name.now (spec.moment_data seconds) (members_view entry.old.entries)) }
{
    let value = moment_json(alloc, seconds)?;
    Ok(put(entry, alloc, name, value)?)
}
