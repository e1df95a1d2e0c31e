// The members of a body beside its process.
ghost use Rattle.std.specs.Prelude.{IfOk, IfSome, IsErrOf};
ghost use Rattle.std.specs.Option.{option_map};
ghost use Rattle.serde_json.specs.View.{view};
ghost use Rattle.oe_jobs.specs.Valid.{AreWords};
ghost use Rattle.oe_routes.specs.Fields as spec;
ghost use Rattle.oe_routes.specs.Forms.{AreFields};
ghost use Rattle.oe_routes.specs.Steps.{Gives};

use crate::refusal::Refusal;
use oe_dims::Text;
use oe_jobs::Level;
use oe_replies::ReplyCode;
use serde_json::Value;
use std::alloc::Global;

/// Most bytes of a title and of a description.
const MOST_WORDS: usize = 4096;

/// What a body has beside its process, each where it is given.
#[derive(Drop)]
pub struct Fields {
    /// A text, or null.
    pub title: Option<Option<Text>>,
    /// A text, or null.
    pub description: Option<Option<Text>>,
    pub level: Option<Level>,
}

/// The title, the description and the log level of a body, each where it is given.
///
/// Refuses: `JobFieldInvalid` where one of them is not in form; out of memory.
pub fn fields_in(alloc: Global, body: &Value) -> Result<Fields, Refusal>
    ensures fields { Gives (λ fields. fields) result (spec.fields_in (view body.now)) }
    ensures short { IfOk result AreFields }
{
    let title = words_in(alloc, body.get("title"))?;
    let description = words_in(alloc, body.get("description"))?;
    let level = level_in(body.get("log_level"))?;
    Ok(Fields {
        title,
        description,
        level,
    })
}

/// A title or a description: a text of at most 4096 bytes or null, where the member is there.
///
/// Refuses: `JobFieldInvalid` where it is anything else; out of memory.
pub fn words_in(alloc: Global, member: Option<&Value>) -> Result<Option<Option<Text>>, Refusal>
    ensures words { Gives (λ w. w) result
        (spec.words_in (option_map (λ v. view v.now) member.entry)) }
    ensures short { IfOk result (λ w. IfSome w AreWords) }
{
    match member {
        None => Ok(None),
        Some(Value::Null) => Ok(Some(None)),
        Some(Value::String(text)) if text.len() <= MOST_WORDS => {
            Ok(Some(Some(Text::of(alloc, text.as_str())?)))
        }
        Some(_) => Err(Refusal::Code(ReplyCode::JobFieldInvalid)),
    }
}

/// A log level, where the member is there: one of the four texts, or null for info. Takes no memory.
///
/// Refuses: `JobFieldInvalid` where it is anything else.
pub fn level_in(member: Option<&Value>) -> Result<Option<Level>, Refusal>
    ensures level { Gives (λ l. l) result
        (spec.level_in (option_map (λ v. view v.now) member.entry)) }
    ensures memory { ¬ IsErrOf result Refusal.OutOfMemory }
{
    match member {
        None => Ok(None),
        Some(Value::Null) => Ok(Some(Level::Info)),
        Some(Value::String(text)) => level_of(text.as_str()),
        Some(_) => Err(Refusal::Code(ReplyCode::JobFieldInvalid)),
    }
}

fn level_of(text: &str) -> Result<Option<Level>, Refusal>
    ensures level { Gives (λ l. l) result (spec.level_of text.now) }
    ensures memory { ¬ IsErrOf result Refusal.OutOfMemory }
{
    match text {
        "error" => Ok(Some(Level::Error)),
        "warning" => Ok(Some(Level::Warning)),
        "info" => Ok(Some(Level::Info)),
        "debug" => Ok(Some(Level::Debug)),
        _ => Err(Refusal::Code(ReplyCode::JobFieldInvalid)),
    }
}
