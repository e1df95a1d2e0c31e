// A page of a list.
ghost use Rattle.std.specs.Prelude.{◌≡◌, IfOk, drop as list_drop, false, map, string_bytes, take};
ghost use Rattle.serde_json.specs.View.{view};
ghost use Rattle.serde_json.specs.Written.{has_float};
ghost use Rattle.oe_pages.specs.Pages as spec;
ghost use Rattle.oe_pages.specs.Queries.{Gives};

use crate::query::{PageAsked, QueryFail, page_asked};
use itoa::Buffer;
use oe_graph::put_str;
use oe_memory::OutOfMemory;
use serde_json::{Map, Value, put};
use std::alloc::Global;

/// What a query asks for of the body of the list of a path, which begins with a slash: the text of the whole body, or that
/// of the page of the list that has the asked offset and limit, with one link to the next page, under the base, where items
/// are left behind it (openEO API, pagination). The list stands in the body under the name of its path, but that of
/// `/process_graphs` under `processes`. All other members stay.
///
/// Refuses: `Invalid` where the query is so; out of memory.
#[tactic(auto, using(crate::proofs::Floats::part_whole))]
pub fn page(
    alloc: Global,
    base: &str,
    path: &str,
    query: &str,
    body: Value,
) -> Result<Vec<u8>, QueryFail>
    requires { has_float (view body) ≡ false }
    ensures { Gives (λ text. text.items) result
        (spec.paged_text base.now path.now query.now (view body)) }
{
    let asked = page_asked(alloc, query)?;
    let name = list_name(path);
    let part = page_where(alloc, name, base, path, asked, body)?;
    let text = part.to_string(alloc)?;
    Ok(text.into_bytes())
}

/// The name under which the list of a path stands in its body.
fn list_name(path: &str) -> &str
    ensures { result.now ≡ spec.list_name path.now }
{
    member_of(path_behind(path))
}

fn member_of(list: &str) -> &str
    ensures { result.now ≡ spec.member_of list.now }
{
    if list == "process_graphs" {
        "processes"
    } else {
        list
    }
}

/// The whole body where no page is asked for.
fn page_where(
    alloc: Global,
    name: &str,
    base: &str,
    path: &str,
    asked: Option<PageAsked>,
    body: Value,
) -> Result<Value, OutOfMemory>
    ensures { IfOk result
        (λ v. view v ≡ spec.page_where name.now base.now path.now asked (view body)) }
{
    match asked {
        None => Ok(body),
        Some(asked) => page_of(alloc, name, base, path, asked, body),
    }
}

/// The page of the list under a name.
fn page_of(
    alloc: Global,
    name: &str,
    base: &str,
    path: &str,
    asked: PageAsked,
    body: Value,
) -> Result<Value, OutOfMemory>
    ensures { IfOk result
        (λ v. view v ≡ spec.page_of name.now base.now path.now asked (view body)) }
{
    let items = items_in(&body, name);
    let links = links_json(alloc, base, path, asked, items.len())?;
    let part = copies(alloc, part_of(items, asked))?;
    with_part(alloc, body, name, part, links)
}

/// The items of the list under a name, none where there is no list.
fn items_in<'a>(body: &'a Value, name: &str) -> &'a [Value]
    ensures { map view result.now ≡ spec.items_in name.now (view body.now) }
{
    match body.get(name) {
        Some(list) => items_of(list),
        None => &[],
    }
}

/// The items of a list, none of what is no list.
fn items_of(list: &Value) -> &[Value]
    ensures { map view result.now ≡ spec.items_at (view list.now) }
{
    match list {
        Value::Array(items) => items.as_slice(),
        _ => &[],
    }
}

/// The items of a page.
fn part_of(items: &[Value], asked: PageAsked) -> &[Value]
    ensures { result.now ≡ spec.page_items asked.limit asked.offset items.now }
{
    first_of(behind(items, asked.offset), asked.limit)
}

/// The items from an offset on.
fn behind(items: &[Value], offset: u64) -> &[Value]
    ensures { result.now ≡ list_drop offset items.now }
{
    if offset < items.len() as u64 {
        &items[offset as usize..]
    } else {
        &items[items.len()..]
    }
}

/// The first items, at most so many.
fn first_of(items: &[Value], limit: u64) -> &[Value]
    ensures { result.now ≡ take limit items.now }
{
    if limit < items.len() as u64 {
        &items[..limit as usize]
    } else {
        items
    }
}

fn copies(alloc: Global, items: &[Value]) -> Result<Vec<Value>, OutOfMemory>
    ensures { IfOk result (λ copies. map view copies.items ≡ map view items.now) }
{
    let mut copies = Vec::with_capacity(alloc, items.len())?;
    for item in items {
        copies.push(item.clone()?)?;
    }
    Ok(copies)
}

/// The body with these items under the name, and these links.
fn with_part(
    alloc: Global,
    body: Value,
    name: &str,
    items: Vec<Value>,
    links: Value,
) -> Result<Value, OutOfMemory>
    ensures { IfOk result (λ v. view v
        ≡ spec.with_part name.now (map view items.items) (view links) (view body)) }
{
    match body {
        Value::Object(members) => {
            let mut members = members;
            put(&mut members, alloc, name, Value::Array(items))?;
            put(&mut members, alloc, "links", links)?;
            Ok(Value::Object(members))
        }
        other => Ok(other),
    }
}

/// The links of a page of a list of so many items.
fn links_json(
    alloc: Global,
    base: &str,
    path: &str,
    asked: PageAsked,
    count: usize,
) -> Result<Value, OutOfMemory>
    ensures { IfOk result (λ v. view v ≡ spec.links_to base.now path.now asked.limit
        (spec.next_of asked.limit asked.offset count)) }
{
    let mut links = Vec::new(alloc);
    if let Some(offset) = next_of(asked, count) {
        links.push(link_json(alloc, base, path, asked.limit, offset)?)?;
    }
    Ok(Value::Array(links))
}

/// Where the next page begins, where there is one.
fn next_of(asked: PageAsked, count: usize) -> Option<u64>
    ensures { result ≡ spec.next_of asked.limit asked.offset count }
{
    match asked.offset.checked_add(asked.limit) {
        Some(end) if end < count as u64 => Some(end),
        _ => None,
    }
}

fn link_json(
    alloc: Global,
    base: &str,
    path: &str,
    limit: u64,
    offset: u64,
) -> Result<Value, OutOfMemory>
    ensures { IfOk result
        (λ v. view v ≡ spec.link_to base.now path.now limit offset) }
{
    let url = page_url(alloc, base, path, limit, offset)?;
    let mut link = Map::new(alloc);
    put(&mut link, alloc, "href", Value::String(url))?;
    put_str(&mut link, alloc, "rel", "next")?;
    Ok(Value::Object(link))
}

/// The address of a page.
fn page_url(
    alloc: Global,
    base: &str,
    path: &str,
    limit: u64,
    offset: u64,
) -> Result<String, OutOfMemory>
    ensures { IfOk result
        (λ url. string_bytes url ≡ spec.page_url base.now path.now limit offset) }
{
    let mut url = String::from_str(alloc, base)?;
    url.push_str(path_behind(path))?;
    url.push_str("?")?;
    url.push_str("limit=")?;
    url.push_str(Buffer::new().format(limit))?;
    url.push_str("&offset=")?;
    url.push_str(Buffer::new().format(offset))?;
    Ok(url)
}

/// What stands behind the first slash of a path, nothing where it has none.
pub fn path_behind(path: &str) -> &str
    ensures { result.now ≡ spec.path_behind path.now }
{
    match path.split_once('/') {
        Some((_, rest)) => rest,
        None => "",
    }
}
