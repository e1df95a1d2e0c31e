// The request of a verb.
ghost use Rattle.std.specs.Prelude.{◌≡◌, ◌++◌, [], IfOk, unwrap_or};
ghost use Rattle.std.specs.Option.{option_map};
ghost use Rattle.oe_client.specs.Commands as spec;
ghost use Rattle.oe_client.specs.Verbs.{verb_of};
ghost use Rattle.oe_http.specs.Again.{IsWritable};
ghost use Rattle.oe_pages.specs.Pages.{page_query};
ghost use Rattle.oe_client.specs.Pages.{page_limit};

use crate::argument::split_at_slash;
use crate::verbs::{Argument, VerbEntry, method_of};
use itoa::Buffer;
use oe_dims::Text;
use oe_http::Request;
use oe_memory::OutOfMemory;
use std::alloc::Global;

/// How many items a page is asked for.
pub(crate) const PAGE_LIMIT: u64 = 100;

/// A request, and the host that it is written to: its name and its port, with a colon between them.
pub struct ClientCommand {
    pub request: Request,
    pub host: Text,
}

/// Written out, so that a call that ends is one call wherever it does.
impl Drop for ClientCommand {
    fn drop(self) {
        let ClientCommand {
            request: _,
            host: _,
        } = self;
    }
}

/// The request of a verb with its argument, for a token where there is one. The input becomes the body where the verb
/// sends it, and is let go where it does not. Where verb, argument, token, host and input have their forms, the request is
/// one that is read again as it is written.
///
/// Refuses: out of memory.
pub fn client_command(
    alloc: Global,
    verb: &VerbEntry,
    argument: Option<&Text>,
    token: Option<&Text>,
    host: Text,
    input: Vec<u8>,
) -> Result<ClientCommand, OutOfMemory>
    ensures request { IfOk result (λ c. (spec.plain_command c).request ≡ spec.request_of
        (verb_of verb.now) (option_map (λ t. t.now) argument.entry)
        (option_map (λ t. t.now) token.entry) input.items) }
    ensures host { IfOk result (λ c. c.host ≡ host) }
    // where the parts have their forms, reading what is written gives this request
    ensures writable { IfOk result (λ c. spec.AreCallParts (verb_of verb.now)
        (option_map (λ t. t.now) argument.entry) (option_map (λ t. t.now) token.entry) host
        input.items → IsWritable (spec.plain_command c).request c.host) }
{
    make_command(alloc, verb, argument, token, host, input)
}

/// The request for the page of a list that begins at an offset, by the verb that asks for all pages, with the name of the
/// list, for a token where there is one. Where they have their forms, it is one that is read again as it is written.
///
/// Refuses: out of memory.
pub fn page_command(
    alloc: Global,
    verb: &VerbEntry,
    argument: Option<&Text>,
    token: Option<&Text>,
    host: Text,
    offset: u64,
) -> Result<ClientCommand, OutOfMemory>
    ensures request { IfOk result (λ c. (spec.plain_command c).request ≡ spec.page_request
        (verb_of verb.now) (option_map (λ t. t.now) argument.entry)
        (option_map (λ t. t.now) token.entry) offset) }
    ensures host { IfOk result (λ c. c.host ≡ host) }
    ensures writable { IfOk result (λ c. spec.AreCallParts (verb_of verb.now)
        (option_map (λ t. t.now) argument.entry) (option_map (λ t. t.now) token.entry) host []
        → IsWritable (spec.plain_command c).request c.host) }
{
    make_page(alloc, verb, argument, token, host, offset)
}

/// The same, whatever forms its parts have.
fn make_page(
    alloc: Global,
    verb: &VerbEntry,
    argument: Option<&Text>,
    token: Option<&Text>,
    host: Text,
    offset: u64,
) -> Result<ClientCommand, OutOfMemory>
    ensures request { IfOk result (λ c. (spec.plain_command c).request ≡ spec.page_request
        (verb_of verb.now) (option_map (λ t. t.now) argument.entry)
        (option_map (λ t. t.now) token.entry) offset) }
    ensures host { IfOk result (λ c. c.host ≡ host) }
{
    let query = query_of_page(alloc, offset)?;
    let body = Vec::new(alloc);
    make_asking(alloc, verb, argument, token, host, body, query)
}

/// The request, whatever forms its parts have.
fn make_command(
    alloc: Global,
    verb: &VerbEntry,
    argument: Option<&Text>,
    token: Option<&Text>,
    host: Text,
    input: Vec<u8>,
) -> Result<ClientCommand, OutOfMemory>
    ensures request { IfOk result (λ c. (spec.plain_command c).request ≡ spec.request_of
        (verb_of verb.now) (option_map (λ t. t.now) argument.entry)
        (option_map (λ t. t.now) token.entry) input.items) }
    ensures host { IfOk result (λ c. c.host ≡ host) }
{
    let query = query_with(alloc, verb.3, text_of(argument))?;
    make_asking(alloc, verb, argument, token, host, input, query)
}

/// The request with this query in place of its own.
fn make_asking(
    alloc: Global,
    verb: &VerbEntry,
    argument: Option<&Text>,
    token: Option<&Text>,
    host: Text,
    input: Vec<u8>,
    query: Text,
) -> Result<ClientCommand, OutOfMemory>
    ensures request { IfOk result (λ c. (spec.plain_command c).request ≡ record (spec.request_of
        (verb_of verb.now) (option_map (λ t. t.now) argument.entry)
        (option_map (λ t. t.now) token.entry) input.items) { query = query }) }
    ensures host { IfOk result (λ c. c.host ≡ host) }
{
    let (_, method, before, kind, behind, sends_input) = *verb;
    let path = path_with(alloc, kind, before, text_of(argument), behind)?;
    let authorization = match token {
        Some(token) => Some(credentials(alloc, token.as_str())?),
        None => None,
    };
    let body = if sends_input { input } else { Vec::new(alloc) };
    Ok(ClientCommand {
        request: Request {
            method: method_of(method),
            path,
            query,
            authorization,
            body,
        },
        host,
    })
}

/// The text of an argument, empty where there is none.
fn text_of<'a>(argument: Option<&'a Text>) -> &'a str
    ensures { result.now ≡ unwrap_or (option_map (λ t. t.now) argument.entry) [] }
{
    match argument {
        Some(text) => text.as_str(),
        None => "",
    }
}

/// The path of a verb with an argument, by what stands before it and behind its id.
fn path_with(
    alloc: Global,
    kind: Argument,
    before: &str,
    argument: &str,
    behind: &str,
) -> Result<Text, OutOfMemory>
    ensures { IfOk result
        (λ path. path ≡ spec.path_with kind before.now argument.now behind.now) }
{
    let (id, rest) = split_at_slash(argument);
    match kind {
        Argument::Missing => Text::of(alloc, before),
        Argument::Id | Argument::ListName => join(alloc, before, argument, behind, ""),
        Argument::JobAndAsset => join(alloc, before, id, behind, rest),
        Argument::JobAndOffset => join(alloc, before, id, behind, ""),
    }
}

/// The query of a verb with an argument.
fn query_with(alloc: Global, kind: Argument, argument: &str) -> Result<Text, OutOfMemory>
    ensures { IfOk result (λ query. query ≡ spec.query_with kind argument.now) }
{
    match kind {
        Argument::JobAndOffset => join(alloc, "offset=", split_at_slash(argument).1, "", ""),
        Argument::ListName => query_of_page(alloc, 0),
        Argument::Missing | Argument::Id | Argument::JobAndAsset => Text::of(alloc, ""),
    }
}

/// The query that asks for the page of a list at an offset.
fn query_of_page(alloc: Global, offset: u64) -> Result<Text, OutOfMemory>
    ensures { IfOk result (λ query. query ≡ page_query page_limit offset) }
{
    join(
        alloc,
        "limit=",
        Buffer::new().format(PAGE_LIMIT),
        "&offset=",
        Buffer::new().format(offset),
    )
}

/// The value of the field `Authorization` for a token.
fn credentials(alloc: Global, token: &str) -> Result<Text, OutOfMemory>
    ensures { IfOk result (λ value. value ≡ spec.credentials token.now) }
{
    join(alloc, "Bearer basic//", token, "", "")
}

/// Four texts, one behind the other.
fn join(
    alloc: Global,
    first: &str,
    second: &str,
    third: &str,
    fourth: &str,
) -> Result<Text, OutOfMemory>
    ensures { IfOk result
        (λ text. text ≡ first.now ++ second.now ++ third.now ++ fourth.now) }
{
    let mut text = String::from_str(alloc, first)?;
    text.push_str(second)?;
    text.push_str(third)?;
    text.push_str(fourth)?;
    Text::of(alloc, text.as_str())
}
