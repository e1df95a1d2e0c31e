// The pages of a list, asked for one after the other.
ghost use Rattle.std.specs.Prelude.{◌≡◌, ◌≤◌, ℕ, Bool, IfOk, IsErrOf, Option, map};
ghost use Rattle.std.specs.List.{list_any};
ghost use Rattle.std.specs.Option.{option_map};
ghost use Rattle.serde_json.specs.View.{view};
ghost use Rattle.oe_pages.specs.Pages.{member_of as member_name};
ghost use Rattle.oe_client.specs.Pages as spec;

use crate::command::PAGE_LIMIT;
use serde_json::Value;
use std::alloc::Global;

/// The offset of the last page that is asked for.
const LAST_OFFSET: u64 = 100000;

/// Why a body says nothing of the next page.
#[derive(Clone, Copy, PartialEq, Eq)]
pub enum PageFail {
    /// It is no page of the list.
    Invalid,
    /// An allocation was refused.
    OutOfMemory,
}

/// Where the next page of a list begins, by the body of the page of 100 items at an offset, at most 100000: at the offset
/// and 100, or, where no link of the body has the relation `next`, nowhere (openEO API, pagination). The list is
/// `collections`, `jobs`, `process_graphs` or `processes`, and its items stand under its name, but those of
/// `process_graphs` under `processes`.
///
/// Refuses: `Invalid` exactly where the body is no JSON object with these items and a list `links`, or where a link has
/// that relation beside another number than 100 items or at the offset 100000; out of memory.
pub fn next_offset(
    alloc: Global,
    list: &str,
    body: &[u8],
    offset: u64,
) -> Result<Option<u64>, PageFail>
    requires { offset ≤ spec.last_offset }
    ensures next { IfOk result (spec.IsPage list.now offset body.now) }
    ensures invalid { IsErrOf result PageFail.Invalid
        → (next : Option ℕ) → ¬ spec.IsPage list.now offset body.now next }
{
    match Value::from_slice(alloc, body) {
        Ok(page) => next_in(list, offset, &page),
        Err(error) if error.is_memory() => Err(PageFail::OutOfMemory),
        Err(_) => Err(PageFail::Invalid),
    }
}

/// The same of the JSON value that a body is.
fn next_in(list: &str, offset: u64, body: &Value) -> Result<Option<u64>, PageFail>
    requires { offset ≤ spec.last_offset }
    ensures { result ≡ spec.next_in list.now offset (view body.now) }
{
    match (
        items_under(member_of(list), body),
        items_under("links", body),
    ) {
        (Some(items), Some(links)) => next_behind(offset, items.len(), any_leads_on(links)),
        _ => Err(PageFail::Invalid),
    }
}

/// The name under which a list stands in its body.
fn member_of(list: &str) -> &str
    ensures { result.now ≡ member_name list.now }
{
    if list == "process_graphs" {
        "processes"
    } else {
        list
    }
}

/// The items of the list under a name of a body, where there is one.
fn items_under<'a>(name: &str, body: &'a Value) -> Option<&'a [Value]>
    ensures { option_map (λ items. map view items.now) result
        ≡ spec.items_under name.now (view body.now) }
{
    items_of(body.get(name)?)
}

fn items_of(list: &Value) -> Option<&[Value]>
    ensures { option_map (λ items. map view items.now) result ≡ spec.items_of (view list.now) }
{
    match list {
        Value::Array(items) => Some(items.as_slice()),
        _ => None,
    }
}

/// Where the next page begins, by the number of items of a page, and by whether a link of it leads on.
fn next_behind(offset: u64, count: usize, leads: bool) -> Result<Option<u64>, PageFail>
    requires { offset ≤ spec.last_offset }
    ensures { result ≡ spec.next_behind offset count leads }
{
    if !leads {
        Ok(None)
    } else if count as u64 == PAGE_LIMIT && offset < LAST_OFFSET {
        Ok(Some(offset + PAGE_LIMIT))
    } else {
        Err(PageFail::Invalid)
    }
}

fn any_leads_on(links: &[Value]) -> bool
    ensures { result ≡ list_any spec.leads_on (map view links.now) }
{
    for link in links {
        if leads_on(link) {
            return true;
        }
    }
    false
}

/// A link leads to the next page.
fn leads_on(link: &Value) -> bool
    ensures { result ≡ spec.leads_on (view link.now) }
{
    match link.get("rel") {
        Some(relation) => is_next(relation),
        None => false,
    }
}

fn is_next(relation: &Value) -> bool
    ensures { result ≡ spec.is_next (view relation.now) }
{
    match relation {
        Value::String(text) => text.as_str() == "next",
        _ => false,
    }
}
