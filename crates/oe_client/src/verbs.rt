// The verbs, one row each.
ghost use Rattle.std.specs.Prelude.{◌≡◌, map};
ghost use Rattle.std.specs.Option.{option_map};
ghost use Rattle.oe_client.specs.Verbs as spec;

use http::Method;

/// The method of a verb's request.
#[derive(Clone, Copy, PartialEq, Eq)]
pub enum VerbMethod {
    Delete,
    Get,
    Post,
    Put,
}

/// What stands behind a verb.
#[derive(Clone, Copy, PartialEq, Eq)]
pub enum Argument {
    /// Nothing.
    Missing,
    /// 1 to 200 bytes: those of an id, and slashes.
    Id,
    /// `ID/NAME`: the id of a job and the name of an asset.
    JobAndAsset,
    /// `ID/N`: the id of a job and how many of its log entries are left out.
    JobAndOffset,
    /// The name of a list that is asked for page by page: `collections`, `jobs`, `process_graphs` or `processes`.
    ListName,
}

/// A verb: its word, the method of its request, its path up to the argument, what the argument is, what follows the
/// argument's id in the path, and whether the input is the body.
pub type VerbEntry = (
    &'static str,
    VerbMethod,
    &'static str,
    Argument,
    &'static str,
    bool,
);

/// All verbs, in byte order of their words.
pub static VERBS: [VerbEntry; 18] = [
    ("all", VerbMethod::Get, "/", Argument::ListName, "", false),
    (
        "asset",
        VerbMethod::Get,
        "/jobs/",
        Argument::JobAndAsset,
        "/results/",
        false,
    ),
    (
        "cancel",
        VerbMethod::Delete,
        "/jobs/",
        Argument::Id,
        "/results",
        false,
    ),
    (
        "collections",
        VerbMethod::Get,
        "/collections",
        Argument::Missing,
        "",
        false,
    ),
    (
        "create",
        VerbMethod::Post,
        "/jobs",
        Argument::Missing,
        "",
        true,
    ),
    (
        "delete",
        VerbMethod::Delete,
        "/jobs/",
        Argument::Id,
        "",
        false,
    ),
    (
        "forget",
        VerbMethod::Delete,
        "/process_graphs/",
        Argument::Id,
        "",
        false,
    ),
    (
        "jobs",
        VerbMethod::Get,
        "/jobs",
        Argument::Missing,
        "",
        false,
    ),
    (
        "logs",
        VerbMethod::Get,
        "/jobs/",
        Argument::Id,
        "/logs",
        false,
    ),
    (
        "logsafter",
        VerbMethod::Get,
        "/jobs/",
        Argument::JobAndOffset,
        "/logs",
        false,
    ),
    (
        "processes",
        VerbMethod::Get,
        "/processes",
        Argument::Missing,
        "",
        false,
    ),
    (
        "processgraphs",
        VerbMethod::Get,
        "/process_graphs",
        Argument::Missing,
        "",
        false,
    ),
    (
        "result",
        VerbMethod::Post,
        "/result",
        Argument::Missing,
        "",
        true,
    ),
    (
        "results",
        VerbMethod::Get,
        "/jobs/",
        Argument::Id,
        "/results",
        false,
    ),
    (
        "start",
        VerbMethod::Post,
        "/jobs/",
        Argument::Id,
        "/results",
        false,
    ),
    ("status", VerbMethod::Get, "/jobs/", Argument::Id, "", false),
    (
        "store",
        VerbMethod::Put,
        "/process_graphs/",
        Argument::Id,
        "",
        true,
    ),
    (
        "validate",
        VerbMethod::Post,
        "/validation",
        Argument::Missing,
        "",
        true,
    ),
];

/// The row of a verb's word, none where no verb has it. Takes no memory.
pub fn find_verb(word: &str) -> Option<&'static VerbEntry>
    ensures { option_map (λ e. spec.verb_of e.now) result ≡ spec.verb_named word.now }
{
    entry_of(&VERBS, word)
}

/// The first row with this word.
fn entry_of<'a>(entries: &'a [VerbEntry], word: &str) -> Option<&'a VerbEntry>
    ensures { option_map (λ e. spec.verb_of e.now) result
        ≡ spec.first_named word.now (map spec.verb_of entries.now) }
{
    for entry in entries {
        if entry.0 == word {
            return Some(entry);
        }
    }
    None
}

/// The method of a request.
pub(crate) fn method_of(method: VerbMethod) -> Method
    ensures { result ≡ spec.method_name method }
{
    match method {
        VerbMethod::Delete => Method::DELETE,
        VerbMethod::Get => Method::GET,
        VerbMethod::Post => Method::POST,
        VerbMethod::Put => Method::PUT,
    }
}
