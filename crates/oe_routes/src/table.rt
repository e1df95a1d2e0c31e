// The one table of routes, and the route of a path.
ghost use Rattle.std.specs.Prelude.{◌≡◌, [], IfOk, IsErrOf, OnOk, map, slice_get, true};
ghost use Rattle.std.specs.Option.{option_map};
ghost use Rattle.matchit.specs.Route.{parse_route};
ghost use Rattle.matchit.specs.Seek.{first};
ghost use Rattle.oe_replies.specs.Bodies.{plain_endpoint};
ghost use Rattle.oe_routes.specs.Steps.{Gives};
ghost use Rattle.oe_routes.specs.Table as spec;

use crate::refusal::Refusal;
use matchit::{InsertError, Router};
use oe_dims::Text;
use oe_memory::OutOfMemory;
use oe_replies::{Endpoint, ReplyCode};
use std::alloc::Global;

/// What a route does.
#[derive(Clone, Copy, PartialEq, Eq)]
pub enum Operation {
    ShowCapabilities,
    ShowVersions,
    ListCollections,
    ShowCollection,
    ShowConformance,
    ListFileFormats,
    ListJobs,
    CreateJob,
    DeleteJob,
    ShowJob,
    PatchJob,
    EstimateJob,
    ShowLogs,
    CancelJob,
    ShowResults,
    QueueJob,
    SendAsset,
    ListStored,
    ForgetProcess,
    ShowStored,
    StoreProcess,
    ListProcesses,
    RunNow,
    Validate,
}

/// A method of a path: its name, what it does, and whether it needs a user.
pub type MethodEntry = (&'static str, Operation, bool);

/// A path with its methods.
pub type RouteEntry = (&'static str, &'static [MethodEntry]);

/// All paths in byte order, each with its methods in byte order (openEO API; that of an asset is this profile's own).
pub static ROUTES: [RouteEntry; 17] = [
    ("/", &[("GET", Operation::ShowCapabilities, false)]),
    (
        "/.well-known/openeo",
        &[("GET", Operation::ShowVersions, false)],
    ),
    (
        "/collections",
        &[("GET", Operation::ListCollections, false)],
    ),
    (
        "/collections/{id}",
        &[("GET", Operation::ShowCollection, false)],
    ),
    (
        "/conformance",
        &[("GET", Operation::ShowConformance, false)],
    ),
    (
        "/file_formats",
        &[("GET", Operation::ListFileFormats, false)],
    ),
    (
        "/jobs",
        &[
            ("GET", Operation::ListJobs, true),
            ("POST", Operation::CreateJob, true),
        ],
    ),
    (
        "/jobs/{id}",
        &[
            ("DELETE", Operation::DeleteJob, true),
            ("GET", Operation::ShowJob, true),
            ("PATCH", Operation::PatchJob, true),
        ],
    ),
    (
        "/jobs/{id}/estimate",
        &[("GET", Operation::EstimateJob, true)],
    ),
    ("/jobs/{id}/logs", &[("GET", Operation::ShowLogs, true)]),
    (
        "/jobs/{id}/results",
        &[
            ("DELETE", Operation::CancelJob, true),
            ("GET", Operation::ShowResults, true),
            ("POST", Operation::QueueJob, true),
        ],
    ),
    (
        "/jobs/{id}/results/{name}",
        &[("GET", Operation::SendAsset, true)],
    ),
    ("/process_graphs", &[("GET", Operation::ListStored, true)]),
    (
        "/process_graphs/{id}",
        &[
            ("DELETE", Operation::ForgetProcess, true),
            ("GET", Operation::ShowStored, true),
            ("PUT", Operation::StoreProcess, true),
        ],
    ),
    ("/processes", &[("GET", Operation::ListProcesses, false)]),
    ("/result", &[("POST", Operation::RunNow, true)]),
    ("/validation", &[("POST", Operation::Validate, true)]),
];

/// The methods of the route that a path is.
///
/// Refuses: `NotFound` where it is none; out of memory.
pub fn find_path(alloc: Global, path: &str) -> Result<&'static [MethodEntry], Refusal>
    ensures { Gives (λ r. map spec.method_of r.now) result (spec.find_path path.now) }
{
    find_in(alloc, &ROUTES, path)
}

/// The methods of the one of these routes that `matchit` finds.
fn find_in<'a>(
    alloc: Global,
    entries: &'a [RouteEntry],
    path: &str,
) -> Result<&'a [MethodEntry], Refusal>
    requires { spec.go_in 0 (map spec.route_of entries.now) [] ≡ true }
    ensures { Gives (λ r. map spec.method_of r.now) result
        (spec.path_in (map spec.route_of entries.now) path.now) }
{
    let router = router_of(alloc, entries)?;
    match number_of(&router, path) {
        Some(number) => methods_at(entries, number),
        None => Err(Refusal::Code(ReplyCode::NotFound)),
    }
}

/// The number of the route that `matchit` finds.
fn number_of(router: &Router<usize>, path: &str) -> Option<usize>
    ensures { result ≡ option_map (λ found. found.value) (first router.now path.now) }
{
    match router.at(path) {
        Ok(found) => Some(*found.value),
        Err(_) => None,
    }
}

#[tactic(auto, using(crate::proofs::TableLemmas::found_route, crate::proofs::TableLemmas::past_route))]
fn methods_at<'a>(entries: &'a [RouteEntry], number: usize) -> Result<&'a [MethodEntry], Refusal>
    ensures { Gives (λ r. map spec.method_of r.now) result
        (spec.methods_of (slice_get (map spec.route_of entries.now) number)) }
{
    if number < entries.len() {
        Ok(entries[number].1)
    } else {
        Err(Refusal::Code(ReplyCode::NotFound))
    }
}

/// A router of these routes, each by its number.
#[tactic(auto, using(crate::proofs::TableLemmas::goes_on))]
fn router_of(alloc: Global, entries: &[RouteEntry]) -> Result<Router<usize>, OutOfMemory>
    requires { spec.go_in 0 (map spec.route_of entries.now) [] ≡ true }
    ensures { IfOk result (λ r. r ≡ spec.router_of (map spec.route_of entries.now)) }
{
    let mut router = Router::new(alloc);
    let mut number = 0;
    for entry in entries {
        add_route(&mut router, entry.0, number)?;
        number += 1;
    }
    Ok(router)
}

/// Adds a route that conflicts with none.
#[tactic(auto, using(crate::proofs::TableLemmas::refused_by_memory, crate::proofs::TableLemmas::taken))]
fn add_route(router: &mut Router<usize>, text: &str, number: usize) -> Result<(), OutOfMemory>
    requires { spec.goes_in (parse_route text.now) router.old ≡ true }
    ensures { OnOk result
        (router.new ≡ spec.with_row (parse_route text.now) number router.old) }
{
    match router.insert(text, number) {
        Ok(()) => Ok(()),
        Err(InsertError::OutOfMemory) => Err(OutOfMemory),
        Err(_) => unreachable!(),
    }
}

/// What a method does there, and whether it needs a user. Takes no memory.
///
/// Refuses: `MethodUnsupported` where the route has no such method.
pub fn find_method<'a>(methods: &'a [MethodEntry], method: &str) -> Result<&'a MethodEntry, Refusal>
    ensures row { Gives (λ r. spec.method_of r.now) result
        (spec.find_method (map spec.method_of methods.now) method.now) }
    ensures memory { ¬ IsErrOf result Refusal.OutOfMemory }
{
    for entry in methods {
        if has_name(entry, method) {
            return Ok(entry);
        }
    }
    Err(Refusal::Code(ReplyCode::MethodUnsupported))
}

fn has_name(entry: &MethodEntry, name: &str) -> bool
    ensures { result ≡ spec.has_name name.now (spec.method_of entry.now) }
{
    entry.0 == name
}

/// The routes with their methods, as the capabilities print them.
///
/// Refuses: out of memory.
pub fn endpoints(alloc: Global) -> Result<Vec<Endpoint>, OutOfMemory>
    ensures { IfOk result (λ endpoints. map plain_endpoint endpoints.items
        ≡ map spec.endpoint_of spec.routes) }
{
    endpoints_of(alloc, &ROUTES)
}

fn endpoints_of(alloc: Global, routes: &[RouteEntry]) -> Result<Vec<Endpoint>, OutOfMemory>
    ensures { IfOk result (λ endpoints. map plain_endpoint endpoints.items
        ≡ map spec.endpoint_of (map spec.route_of routes.now)) }
{
    let mut endpoints = Vec::with_capacity(alloc, routes.len())?;
    for route in routes {
        endpoints.push(endpoint_of(alloc, route)?)?;
    }
    Ok(endpoints)
}

fn endpoint_of(alloc: Global, route: &RouteEntry) -> Result<Endpoint, OutOfMemory>
    ensures { IfOk result
        (λ e. plain_endpoint e ≡ spec.endpoint_of (spec.route_of route.now)) }
{
    Ok(Endpoint {
        path: Text::of(alloc, route.0)?,
        methods: method_names(alloc, route.1)?,
    })
}

fn method_names(alloc: Global, methods: &[MethodEntry]) -> Result<Vec<Text>, OutOfMemory>
    ensures { IfOk result (λ names. names.items
        ≡ map (λ m. m.name) (map spec.method_of methods.now)) }
{
    let mut names = Vec::with_capacity(alloc, methods.len())?;
    for entry in methods {
        names.push(Text::of(alloc, entry.0)?)?;
    }
    Ok(names)
}
