// What the service is.
ghost use Rattle.std.specs.Prelude.{◌≡◌, IfOk, map};
ghost use Rattle.serde_json.specs.Data.{string};
ghost use Rattle.serde_json.specs.View.{view};
ghost use Rattle.serde_json.specs.Written.{compact_text};
ghost use Rattle.oe_replies.specs.Bodies as spec;

use crate::values::{compact_body, empty_list, single};
use oe_dims::Text;
use oe_graph::{put_str, str_json};
use oe_memory::OutOfMemory;
use serde_json::{Map, Value, put};
use std::alloc::Global;

/// A path of the service, with its methods.
pub struct Endpoint {
    /// The path, a parameter in braces.
    pub path: Text,
    pub methods: Vec<Text>,
}

/// Written out, so that such a value ends by one call wherever it does.
impl Drop for Endpoint {
    fn drop(self) {
        let Endpoint {
            path: _,
            methods: _,
        } = self;
    }
}

/// The capabilities of a service with these endpoints (openEO API, capabilities).
///
/// Refuses: out of memory.
#[tactic(auto, using(crate::proofs::Floats::capabilities_whole))]
pub fn capabilities_body(alloc: Global, endpoints: &[Endpoint]) -> Result<Vec<u8>, OutOfMemory>
    ensures { IfOk result (λ body. body.items
        ≡ compact_text (spec.capabilities_data (map spec.plain_endpoint endpoints.now))) }
{
    let value = capabilities_json(alloc, endpoints)?;
    compact_body(alloc, &value)
}

fn capabilities_json(alloc: Global, endpoints: &[Endpoint]) -> Result<Value, OutOfMemory>
    ensures { IfOk result (λ v. view v
        ≡ spec.capabilities_data (map spec.plain_endpoint endpoints.now)) }
{
    let mut entry = Map::new(alloc);
    put_str(&mut entry, alloc, "api_version", "1.2.0")?;
    put_str(&mut entry, alloc, "backend_version", "1.0.0")?;
    put_str(&mut entry, alloc, "description", "Exact fraction cubes")?;
    put(
        &mut entry,
        alloc,
        "endpoints",
        Value::Array(endpoint_values(alloc, endpoints)?),
    )?;
    put_str(&mut entry, alloc, "id", "openeo-fraction")?;
    put(&mut entry, alloc, "links", empty_list(alloc))?;
    put_str(&mut entry, alloc, "stac_version", "1.0.0")?;
    put_str(&mut entry, alloc, "title", "openEO fraction back end")?;
    put_str(&mut entry, alloc, "type", "Catalog")?;
    Ok(Value::Object(entry))
}

fn endpoint_values(alloc: Global, endpoints: &[Endpoint]) -> Result<Vec<Value>, OutOfMemory>
    ensures { IfOk result (λ values. map view values.items
        ≡ map spec.endpoint_data (map spec.plain_endpoint endpoints.now)) }
{
    let mut values = Vec::with_capacity(alloc, endpoints.len())?;
    for endpoint in endpoints {
        values.push(endpoint_json(alloc, endpoint)?)?;
    }
    Ok(values)
}

fn endpoint_json(alloc: Global, endpoint: &Endpoint) -> Result<Value, OutOfMemory>
    ensures { IfOk result (λ v. view v ≡ spec.endpoint_data (spec.plain_endpoint endpoint.now)) }
{
    let mut entry = Map::new(alloc);
    put(
        &mut entry,
        alloc,
        "methods",
        Value::Array(text_values(alloc, &endpoint.methods)?),
    )?;
    put_str(&mut entry, alloc, "path", endpoint.path.as_str())?;
    Ok(Value::Object(entry))
}

/// Texts, in their order.
pub(crate) fn text_values(alloc: Global, texts: &[Text]) -> Result<Vec<Value>, OutOfMemory>
    ensures { IfOk result (λ values. map view values.items ≡ map string texts.now) }
{
    let mut values = Vec::with_capacity(alloc, texts.len())?;
    for text in texts {
        values.push(str_json(alloc, text.as_str())?)?;
    }
    Ok(values)
}

/// The versions of the API that are served: one, under the base (openEO API, well-known document).
///
/// Refuses: out of memory.
pub fn versions_body(alloc: Global, base: &str) -> Result<Vec<u8>, OutOfMemory>
    ensures { IfOk result (λ body. body.items ≡ compact_text (spec.versions_data base.now)) }
{
    let value = versions_json(alloc, base)?;
    compact_body(alloc, &value)
}

fn versions_json(alloc: Global, base: &str) -> Result<Value, OutOfMemory>
    ensures { IfOk result (λ v. view v ≡ spec.versions_data base.now) }
{
    let mut values = Vec::new(alloc);
    values.push(version_json(alloc, base)?)?;
    single(alloc, "versions", Value::Array(values))
}

fn version_json(alloc: Global, base: &str) -> Result<Value, OutOfMemory>
    ensures { IfOk result (λ v. view v ≡ spec.version_data base.now) }
{
    let mut entry = Map::new(alloc);
    put_str(&mut entry, alloc, "api_version", "1.2.0")?;
    put(&mut entry, alloc, "production", Value::Bool(true))?;
    put_str(&mut entry, alloc, "url", base)?;
    Ok(Value::Object(entry))
}

/// The classes of the API that the service conforms to (openEO API, conformance).
///
/// Refuses: out of memory.
pub fn conformance_body(alloc: Global) -> Result<Vec<u8>, OutOfMemory>
    ensures { IfOk result (λ body. body.items ≡ compact_text spec.conformance_data) }
{
    Ok(Vec::from_slice(
        alloc,
        b"{\"conformsTo\":[\"https://api.openeo.org/1.2.0\"]}",
    )?)
}

/// The file formats: one for results, and none that is read (openEO API, file formats).
///
/// Refuses: out of memory.
pub fn file_formats_body(alloc: Global) -> Result<Vec<u8>, OutOfMemory>
    ensures { IfOk result (λ body. body.items ≡ compact_text spec.file_formats_data) }
{
    Ok(Vec::from_slice(
        alloc,
        b"{\"input\":{},\"output\":{\"FJSON\":{\"gis_data_types\":[\"raster\"],\"parameters\":{},\"title\":\"Fraction cube JSON\"}}}",
    )?)
}
