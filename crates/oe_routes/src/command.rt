// What the commands of users are answered.
ghost use Rattle.std.specs.Prelude.{◌≡◌, Bool, IfOk, false};
ghost use Rattle.oe_dims.specs.Instant.{IsInstant};
ghost use Rattle.oe_http.specs.Plain.{plain_request};
ghost use Rattle.oe_http.specs.Replies.{plain_response};
ghost use Rattle.oe_jobs.specs.Plain.{plain_book, plain_command};
ghost use Rattle.oe_jobs.specs.Valid.{IsBook, IsCommand};
ghost use Rattle.oe_routes.specs.Actions.{MayBeDone, plain_action};
ghost use Rattle.oe_routes.specs.Answers as spec;
ghost use Rattle.oe_routes.specs.Paths as path;
ghost use Rattle.oe_routes.specs.Performs.{Performs};
ghost use Rattle.oe_routes.specs.Rejections.{Settles};
ghost use Rattle.oe_routes.specs.Scenes.{plain_scene};
ghost use Rattle.oe_routes.specs.declared.table.Operation.TheVariants as ops;

use crate::action::{Action, Scene};
use crate::code::code_of_fault;
use crate::fields::Fields;
use crate::form::Changes;
use crate::path::id_in;
use crate::refusal::Rejection;
use crate::sent::{changes_sent, job_sent};
use crate::stored::process_sent;
use oe_dims::Text;
use oe_http::{Request, Response};
use oe_jobs::{Command, Outcome, Verdict, decide};
use oe_memory::OutOfMemory;
use oe_replies::{created_reply, empty_reply, stored_reply};
use std::alloc::Global;

/// The id in the path of a request.
pub(crate) fn id_of(alloc: Global, request: &Request) -> Result<Text, OutOfMemory>
    ensures { IfOk result (λ id. id ≡ path.id_in (plain_request request.now).path) }
{
    Text::of(alloc, id_in(request.path.as_str()))
}

/// Has the book decide on a command, with its reply.
#[tactic(auto, using(crate::proofs::CommandLemmas::commanded_refused))]
pub(crate) fn command_action(
    alloc: Global,
    user: &Text,
    command: Command,
    scene: Scene,
) -> Result<Action, Rejection>
    requires book { IsBook (plain_book scene.book.now) }
    requires command { IsCommand (plain_command command) }
    requires moment { IsInstant scene.moment }
    ensures answer { Settles (plain_action (plain_book scene.entry.book.now)) result
        (spec.commanded (plain_scene scene.entry) user.now (plain_command command)) }
    ensures valid { (asks : Bool) → IfOk result (MayBeDone (plain_scene scene.entry) asks) }
{
    let Verdict { change, outcome } = decide(alloc, scene.book, user, &command, scene.moment)?;
    let response = reply_to(alloc, scene.site.base.as_str(), &command, &outcome)?;
    match change {
        Some(change) => Ok(Action::Commit { change, response }),
        None => Ok(Action::Answer(response)),
    }
}

fn reply_to(
    alloc: Global,
    base: &str,
    command: &Command,
    outcome: &Outcome,
) -> Result<Response, Rejection>
    ensures { Settles plain_response result
        (spec.reply_to base.now (plain_command command.now) outcome.now) }
{
    match outcome {
        Outcome::Created(id) => Ok(created_reply(alloc, base, id.as_str())?),
        Outcome::Queued => Ok(empty_reply(alloc, 202)),
        Outcome::Done => Ok(done_reply(alloc, command)?),
        Outcome::Refused(fault) => Err(Rejection::Code(code_of_fault(*fault))),
    }
}

fn done_reply(alloc: Global, command: &Command) -> Result<Response, OutOfMemory>
    ensures { IfOk result (λ r. plain_response r ≡ spec.done_reply (plain_command command.now)) }
{
    match command {
        Command::Store { process: _ } => stored_reply(alloc),
        _ => Ok(empty_reply(alloc, 204)),
    }
}

pub(crate) fn create_action(
    alloc: Global,
    request: &Request,
    user: &Text,
    scene: Scene,
) -> Result<Action, Rejection>
    requires book { IsBook (plain_book scene.book.now) }
    requires moment { IsInstant scene.moment }
    ensures answer { Performs (plain_scene scene.entry) user.now (plain_request request.now)
        ops.CreateJob result }
    ensures valid { IfOk result (MayBeDone (plain_scene scene.entry) false) }
{
    let job = job_sent(alloc, &request.body)?;
    let command = Command::Create {
        title: job.title,
        description: job.description,
        process: job.process,
        level: job.level,
    };
    command_action(alloc, user, command, scene)
}

pub(crate) fn patch_action(
    alloc: Global,
    request: &Request,
    user: &Text,
    scene: Scene,
) -> Result<Action, Rejection>
    requires book { IsBook (plain_book scene.book.now) }
    requires moment { IsInstant scene.moment }
    ensures answer { Performs (plain_scene scene.entry) user.now (plain_request request.now)
        ops.PatchJob result }
    ensures valid { IfOk result (MayBeDone (plain_scene scene.entry) false) }
{
    let Changes { fields, process } = changes_sent(alloc, &request.body)?;
    let Fields {
        title,
        description,
        level,
    } = fields;
    let command = Command::Patch {
        id: id_of(alloc, request)?,
        title,
        description,
        process,
        level,
    };
    command_action(alloc, user, command, scene)
}

pub(crate) fn store_action(
    alloc: Global,
    request: &Request,
    user: &Text,
    scene: Scene,
) -> Result<Action, Rejection>
    requires book { IsBook (plain_book scene.book.now) }
    requires moment { IsInstant scene.moment }
    ensures answer { Performs (plain_scene scene.entry) user.now (plain_request request.now)
        ops.StoreProcess result }
    ensures valid { IfOk result (MayBeDone (plain_scene scene.entry) false) }
{
    let process = process_sent(alloc, id_in(request.path.as_str()), &request.body)?;
    command_action(alloc, user, Command::Store { process }, scene)
}

pub(crate) fn delete_action(
    alloc: Global,
    request: &Request,
    user: &Text,
    scene: Scene,
) -> Result<Action, Rejection>
    requires book { IsBook (plain_book scene.book.now) }
    requires moment { IsInstant scene.moment }
    ensures answer { Performs (plain_scene scene.entry) user.now (plain_request request.now)
        ops.DeleteJob result }
    ensures valid { IfOk result (MayBeDone (plain_scene scene.entry) false) }
{
    let id = id_of(alloc, request)?;
    command_action(alloc, user, Command::Delete { id }, scene)
}

pub(crate) fn cancel_action(
    alloc: Global,
    request: &Request,
    user: &Text,
    scene: Scene,
) -> Result<Action, Rejection>
    requires book { IsBook (plain_book scene.book.now) }
    requires moment { IsInstant scene.moment }
    ensures answer { Performs (plain_scene scene.entry) user.now (plain_request request.now)
        ops.CancelJob result }
    ensures valid { IfOk result (MayBeDone (plain_scene scene.entry) false) }
{
    let id = id_of(alloc, request)?;
    command_action(alloc, user, Command::Cancel { id }, scene)
}

pub(crate) fn forget_action(
    alloc: Global,
    request: &Request,
    user: &Text,
    scene: Scene,
) -> Result<Action, Rejection>
    requires book { IsBook (plain_book scene.book.now) }
    requires moment { IsInstant scene.moment }
    ensures answer { Performs (plain_scene scene.entry) user.now (plain_request request.now)
        ops.ForgetProcess result }
    ensures valid { IfOk result (MayBeDone (plain_scene scene.entry) false) }
{
    let id = id_of(alloc, request)?;
    command_action(alloc, user, Command::Forget { id }, scene)
}
