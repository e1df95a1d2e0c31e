// The query of a request for logs.
ghost use Rattle.std.specs.Prelude.{Some, map};
ghost use Rattle.std.specs.Option.{option_map};
ghost use Rattle.oe_pages.specs.Queries.{most_offset, number_or_zero as number_or_zero_of, one_value as one_value_of, values_of};
ghost use Rattle.oe_routes.specs.Queries as spec;
ghost use Rattle.oe_routes.specs.Steps.{Gives};

use crate::refusal::Refusal;
use oe_jobs::Level;
use oe_pages::{number_or_zero, one_value, parts_of};
use oe_replies::ReplyCode;
use std::alloc::Global;

/// The level and the offset that a query asks for: the parts `level=LEVEL` and `offset=NUMBER` between its ampersands, of
/// which each may be missing. All levels are asked for then, and all numbers.
///
/// Refuses: `QueryInvalid` where one of the two names stands twice or without a value, the level is none of the four, or
/// the offset is no decimal number from 1 to 2^64 − 1 without a leading zero; out of memory.
pub fn logs_asked(alloc: Global, query: &str) -> Result<(Level, u64), Refusal>
    ensures { Gives (λ asked. asked) result (spec.logs_asked query.now) }
{
    let parts = parts_of(alloc, query)?;
    let level = level_in(value_of(&parts, "level")?)?;
    let offset = offset_in(value_of(&parts, "offset")?)?;
    Ok((level, offset))
}

/// The value of a name in these parts, where it stands there.
#[tactic(auto, using(crate::proofs::QueryLemmas::fails_coded))]
fn value_of<'a>(parts: &[&'a str], name: &str) -> Result<Option<&'a str>, Refusal>
    ensures { Gives (λ v. option_map (λ t. t.now) v) result
        (spec.coded (one_value_of (values_of name.now (map (λ p. p.now) parts.now)))) }
{
    Ok(one_value(parts, name)?)
}

#[tactic(auto, using(crate::proofs::QueryLemmas::fails_coded))]
fn offset_in(text: Option<&str>) -> Result<u64, Refusal>
    ensures { Gives (λ n. n) result
        (spec.coded (number_or_zero_of 1 most_offset (option_map (λ t. t.now) text.entry))) }
{
    Ok(number_or_zero(1, u64::MAX, text)?)
}

fn level_in(text: Option<&str>) -> Result<Level, Refusal>
    ensures { Gives (λ l. l) result (spec.level_in (option_map (λ t. t.now) text.entry)) }
{
    match text {
        None => Ok(Level::Debug),
        Some(text) => level_of(text),
    }
}

fn level_of(text: &str) -> Result<Level, Refusal>
    ensures { Gives (λ l. l) result (spec.level_in (Some text.now)) }
{
    match text {
        "error" => Ok(Level::Error),
        "warning" => Ok(Level::Warning),
        "info" => Ok(Level::Info),
        "debug" => Ok(Level::Debug),
        _ => Err(Refusal::Code(ReplyCode::QueryInvalid)),
    }
}
