// Log entries of a job.
ghost use Rattle.std.specs.Prelude.{◌≡◌, ◌++◌, IfOk, OnOk, option_to_list, string_bytes};
ghost use Rattle.oe_jobs.specs.Machine as spec;

use crate::job::{Asset, LogEntry};
use crate::level::Level;
use oe_dims::Text;
use oe_memory::OutOfMemory;
use std::alloc::Global;

/// The entry of this message at level info, where a job's level keeps it.
pub(crate) fn course(
    alloc: Global,
    least: Level,
    message: &str,
) -> Result<Option<LogEntry>, OutOfMemory>
    ensures { IfOk result (λ e. e ≡ spec.kept least (spec.course message.now)) }
{
    if !least.keeps(Level::Info) {
        return Ok(None);
    }
    Ok(Some(LogEntry {
        level: Level::Info,
        code: None,
        message: Text::of(alloc, message)?,
    }))
}

/// Logs this message at level info, where the job's level keeps it.
pub(crate) fn log(
    alloc: Global,
    logs: &mut Vec<LogEntry>,
    least: Level,
    message: &str,
) -> Result<(), OutOfMemory>
    ensures { OnOk result (logs.new.items
        ≡ logs.old.items ++ option_to_list (spec.kept least (spec.course message.now))) }
{
    if let Some(entry) = course(alloc, least, message)? {
        logs.push(entry)?;
    }
    Ok(())
}

/// The entry of a failure.
pub(crate) fn failure(code: &Text) -> Result<LogEntry, OutOfMemory>
    ensures { IfOk result (λ e. e ≡ spec.failure code.now) }
{
    Ok(LogEntry {
        level: Level::Error,
        code: Some(code.copy()?),
        message: code.copy()?,
    })
}

/// What is logged of an asset.
pub(crate) fn asset_message(alloc: Global, asset: &Asset) -> Result<String, OutOfMemory>
    ensures { IfOk result (λ s. string_bytes s ≡ spec.asset_message asset.now) }
{
    let mut message = String::from_str(alloc, "asset ")?;
    message.push_str(asset.name.as_str())?;
    Ok(message)
}
