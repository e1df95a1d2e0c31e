// What a service answers to a request.
ghost use Rattle.std.specs.Prelude.{◌≡◌, IfOk};
ghost use Rattle.std.specs.Option.{option_map};
ghost use Rattle.oe_dims.specs.Instant.{IsInstant};
ghost use Rattle.oe_http.specs.Plain.{plain_request};
ghost use Rattle.oe_http.specs.Replies.{plain_response};
ghost use Rattle.oe_jobs.specs.Plain.{plain_book};
ghost use Rattle.oe_jobs.specs.Valid.{IsBook};
ghost use Rattle.oe_replies.specs.Answers.{refused_reply as refused_reply_of};
ghost use Rattle.oe_routes.specs.Actions.{HasPhrase, MayBeDone};
ghost use Rattle.oe_routes.specs.Answers as spec;
ghost use Rattle.oe_routes.specs.Asks.{asks_for_rows};
ghost use Rattle.oe_routes.specs.Performs.{IsAnswerTo, IsDoneFor};
ghost use Rattle.oe_routes.specs.Rejections.{of_fault};
ghost use Rattle.oe_routes.specs.Scenes.{plain_scene, scene_of};

use crate::asks::asked_method;
use crate::perform::perform;
use crate::refusal::Rejection;
use crate::site::Site;
use crate::user::user_of;
use oe_check::Checked;
use oe_dims::{Dims, Text};
use oe_graph::Fault;
use oe_http::{Request, Response};
use oe_jobs::{Book, Change};
use oe_memory::OutOfMemory;
use oe_replies::{ReplyCode, refused_reply};
use std::alloc::Global;

/// What is to be done for a request.
#[derive(Drop)]
pub enum Action {
    Answer(Response),
    /// The change is made and committed, and then answered. The response takes no more memory.
    Commit { change: Change, response: Response },
    /// The graph is run, and answered with its result.
    RunNow(Checked),
    /// Answered with the text of an asset, by the indices of its job in the book and of the asset in the job.
    SendAsset { job: usize, asset: usize },
    /// Answered with what the assets of a job need, in their order.
    Estimate(Vec<EstimateGraph>),
}

/// An asset of a job before it runs: its name, and the graph whose result it is.
pub struct EstimateGraph {
    pub name: Text,
    pub checked: Checked,
}

/// Written out, so that such a value ends by one call wherever it does.
impl Drop for EstimateGraph {
    fn drop(self) {
        let EstimateGraph {
            name: _,
            checked: _,
        } = self;
    }
}

/// What a request is about, beside itself. The moment is in seconds since 1970-01-01T00:00:00Z.
#[derive(Clone, Copy)]
pub(crate) struct Scene<'a> {
    pub(crate) book: &'a Book,
    pub(crate) dims: &'a Dims,
    pub(crate) site: &'a Site,
    pub(crate) moment: i64,
}

/// What a service answers to a request (openEO API), and what it changes in its book. `now` is in seconds since
/// 1970-01-01T00:00:00Z. The book stays as it is.
///
/// A refused request is answered with the first code that stands: of its path, its method, its authorization, the form
/// of its body or its query, the thing that it names, and the command. Only a request that asks for the rows
/// ([`asks_for_rows`](crate::asks_for_rows)) is answered by those of `dims`. Refuses: out of memory.
pub fn route(
    alloc: Global,
    request: &Request,
    book: &Book,
    dims: &Dims,
    site: &Site,
    now: i64,
) -> Result<Action, OutOfMemory>
    requires book { IsBook (plain_book book.now) }
    requires moment { IsInstant now }

    // Whatever is found in its body and, where it asks for the rows, in its graphs, the answer is the definition's.
    ensures answer { IfOk result
        (IsAnswerTo (scene_of site.now dims.now book.now now) (plain_request request.now)) }

    // A reply can be written, a change is that of a command, a valid book stays valid, a graph to be run was checked
    // over these rows, for a request that asks for them, and an asset to be sent is there.
    ensures valid { IfOk result (MayBeDone (scene_of site.now dims.now book.now now)
        (asks_for_rows (plain_request request.now))) }
{
    answer_of(
        alloc,
        request,
        Scene {
            book,
            dims,
            site,
            moment: now,
        },
    )
}

fn answer_of(alloc: Global, request: &Request, scene: Scene) -> Result<Action, OutOfMemory>
    requires book { IsBook (plain_book scene.book.now) }
    requires moment { IsInstant scene.moment }
    ensures answer { IfOk result
        (IsAnswerTo (plain_scene scene.entry) (plain_request request.now)) }
    ensures valid { IfOk result
        (MayBeDone (plain_scene scene.entry) (asks_for_rows (plain_request request.now))) }
{
    match done(alloc, request, scene) {
        Ok(action) => Ok(action),
        Err(Rejection::Code(code)) => Ok(Action::Answer(refused(alloc, code, "")?)),
        Err(Rejection::Fault(fault)) => Ok(Action::Answer(fault_reply(alloc, &fault)?)),
        Err(Rejection::OutOfMemory) => Err(OutOfMemory),
    }
}

fn fault_reply(alloc: Global, fault: &Fault) -> Result<Response, OutOfMemory>
    ensures reply { IfOk result (λ r. plain_response r
        ≡ refused_reply_of (of_fault fault.now).code (of_fault fault.now).node) }
    ensures phrase { IfOk result HasPhrase }
{
    refused(alloc, ReplyCode::Graph(fault.code), fault.node.as_str())
}

/// The reply to a refused request.
fn refused(alloc: Global, code: ReplyCode, detail: &str) -> Result<Response, OutOfMemory>
    ensures reply { IfOk result (λ r. plain_response r ≡ refused_reply_of code detail.now) }
    ensures phrase { IfOk result HasPhrase }
{
    refused_reply(alloc, code, detail)
}

/// What is done for a request, or why it is refused.
fn done(alloc: Global, request: &Request, scene: Scene) -> Result<Action, Rejection>
    requires book { IsBook (plain_book scene.book.now) }
    requires moment { IsInstant scene.moment }
    ensures answer { IsDoneFor (plain_scene scene.entry) (plain_request request.now) result }
    ensures valid { IfOk result
        (MayBeDone (plain_scene scene.entry) (asks_for_rows (plain_request request.now))) }
{
    let method = asked_method(alloc, request)?;
    let user = user_of(
        scene.site.tokens.entries(),
        method.2,
        value_of(&request.authorization),
    )?;
    let user = text_of_user(alloc, user)?;
    perform(alloc, method.1, request, &user, scene)
}

fn value_of(authorization: &Option<Text>) -> Option<&str>
    ensures { option_map (λ v. v.now) result ≡ authorization.now }
{
    match authorization {
        Some(value) => Some(value.as_str()),
        None => None,
    }
}

/// The user, or an empty text where none is needed.
fn text_of_user(alloc: Global, user: Option<&Text>) -> Result<Text, OutOfMemory>
    ensures { IfOk result (λ text. text ≡ spec.user_text (option_map (λ t. t.now) user.entry)) }
{
    match user {
        Some(user) => user.copy(),
        None => Text::of(alloc, ""),
    }
}
