// The query of a request.
ghost use Rattle.std.specs.Prelude.{◌≡◌, ◌++◌, ◌∷◌, [], IfOk, Some, map};
ghost use Rattle.std.specs.Option.{option_map};
ghost use Rattle.oe_pages.specs.Queries as spec;
ghost use Rattle.oe_pages.specs.Queries.{Gives};
ghost use Rattle.oe_pages.specs.declared.query.QueryFail.TheVariants as fail;

use oe_jobs::read_number;
use oe_memory::OutOfMemory;
use std::alloc::{AllocError, Global};

/// The most items that a page is asked for.
const MOST_LIMIT: u64 = 1000;

/// Why nothing is answered to a query.
#[derive(Clone, Copy, PartialEq, Eq)]
pub enum QueryFail {
    /// A name that is looked at stands twice, or its value is not of its form.
    Invalid,
    /// An allocation was refused.
    OutOfMemory,
}

impl From<AllocError> for QueryFail {
    ghost from_gives = { λ _ e. e ≡ fail.OutOfMemory };

    fn from(_error: AllocError) -> QueryFail {
        QueryFail::OutOfMemory
    }
}

impl From<OutOfMemory> for QueryFail {
    ghost from_gives = { λ _ e. e ≡ fail.OutOfMemory };

    fn from(_error: OutOfMemory) -> QueryFail {
        QueryFail::OutOfMemory
    }
}

/// How many items of a list are asked for, 1 to 1000, and how many of those before them are left out.
#[derive(Clone, Copy, PartialEq, Eq)]
pub struct PageAsked {
    pub limit: u64,
    pub offset: u64,
}

/// The page that a query asks for: of the parts `limit=NUMBER`, from 1 to 1000, and `offset=NUMBER`, from 0 to 2^64 − 1,
/// in decimal without leading zeros. `None` where it says no limit, whatever its offset is (openEO API, pagination).
///
/// Refuses: `Invalid` where the limit, or beside it the offset, stands twice or is not of its form; out of memory.
pub fn page_asked(alloc: Global, query: &str) -> Result<Option<PageAsked>, QueryFail>
    ensures { Gives (λ asked. asked) result (spec.page_asked query.now) }
{
    let parts = parts_of(alloc, query)?;
    match one_value(&parts, "limit")? {
        None => Ok(None),
        Some(text) => Ok(Some(asked_with(text, &parts)?)),
    }
}

/// The page of a limit, with the offset of these parts.
fn asked_with(text: &str, parts: &[&str]) -> Result<PageAsked, QueryFail>
    ensures { Gives Some result (spec.asked_with (Some text.now) (map (λ p. p.now) parts.now)) }
{
    let limit = number_in(1, MOST_LIMIT, text)?;
    let offset = number_or_zero(0, u64::MAX, one_value(parts, "offset")?)?;
    Ok(PageAsked { limit, offset })
}

/// The parts of a query, between its ampersands. Refuses: out of memory.
pub fn parts_of(alloc: Global, query: &str) -> Result<Vec<&str>, OutOfMemory>
    ensures { IfOk result (λ parts. map (λ p. p.now) parts.items ≡ spec.parts_of query.now) }
{
    Ok(collect_parts(alloc, query)?)
}

fn collect_parts(alloc: Global, query: &str) -> Result<Vec<&str>, AllocError>
    ensures { IfOk result (λ parts. map (λ p. p.now) parts.items ≡ spec.parts_of query.now) }
{
    query.split('&').collect(alloc)
}

/// The value of a name in these parts, where it stands there. Takes no memory.
///
/// Refuses: `Invalid` where it stands twice or without a value.
#[tactic(auto, using(crate::proofs::QueryLemmas::fails_on, crate::proofs::QueryLemmas::is_taken))]
pub fn one_value<'a>(parts: &[&'a str], name: &str) -> Result<Option<&'a str>, QueryFail>
    ensures { Gives (λ v. option_map (λ t. t.now) v) result
        (spec.one_value (spec.values_of name.now (map (λ p. p.now) parts.now))) }
{
    let mut found = None;
    for part in parts {
        if has_name(part, name) {
            found = Some(only_value(found, part)?);
        }
    }
    Ok(found)
}

/// The value of a part, where none was found before it.
fn only_value<'a>(before: Option<&str>, part: &'a str) -> Result<&'a str, QueryFail>
    ensures { Gives (λ t. Some t.now) result (spec.one_value
        (spec.found_before (option_map (λ t. t.now) before.entry) ++ spec.value_in part.now ∷ [])) }
{
    match (before, value_in(part)) {
        (None, Some(value)) => Ok(value),
        _ => Err(QueryFail::Invalid),
    }
}

fn has_name(part: &str, name: &str) -> bool
    ensures { result ≡ spec.has_name name.now part.now }
{
    name_of(part) == name
}

fn name_of(part: &str) -> &str
    ensures { result.now ≡ spec.name_of part.now }
{
    match part.split_once('=') {
        Some((name, _)) => name,
        None => part,
    }
}

fn value_in(part: &str) -> Option<&str>
    ensures { option_map (λ t. t.now) result ≡ spec.value_in part.now }
{
    match part.split_once('=') {
        Some((_, value)) => Some(value),
        None => None,
    }
}

/// The number that a text spells in decimal without leading zeros, and 0 where there is no text. Takes no memory.
///
/// Refuses: `Invalid` where it spells none from `least` to `most`.
pub fn number_or_zero(least: u64, most: u64, text: Option<&str>) -> Result<u64, QueryFail>
    ensures { Gives (λ n. n) result
        (spec.number_or_zero least most (option_map (λ t. t.now) text.entry)) }
{
    match text {
        None => Ok(0),
        Some(text) => number_in(least, most, text),
    }
}

/// The number that a text spells so.
#[tactic(auto, using(crate::proofs::QueryLemmas::spelled, crate::proofs::QueryLemmas::none_spelled, crate::proofs::QueryLemmas::low_spelled, crate::proofs::QueryLemmas::high_spelled))]
fn number_in(least: u64, most: u64, text: &str) -> Result<u64, QueryFail>
    ensures { Gives (λ n. n) result (spec.number_in least most text.now) }
{
    match read_number(text) {
        Some(number) if least <= number && number <= most => Ok(number),
        _ => Err(QueryFail::Invalid),
    }
}
