// The things that requests name.
ghost use Rattle.std.specs.Prelude.{◌≡◌, slice_get};
ghost use Rattle.oe_jobs.specs.Changes.{is_owned};
ghost use Rattle.oe_jobs.specs.Plain.{plain_book, plain_job, plain_owned};
ghost use Rattle.oe_jobs.specs.Verdicts.{is_found};
ghost use Rattle.oe_routes.specs.Answers as spec;
ghost use Rattle.oe_routes.specs.Rejections.{Settles, as_some};

use crate::refusal::Rejection;
use oe_dims::{DimsRow, Text, same_text};
use oe_jobs::{Asset, Book, Job, Owned};
use oe_replies::ReplyCode;
use std::alloc::Global;

/// The mounted collection of an id.
pub(crate) fn named_row<'a>(rows: &'a [DimsRow], id: &str) -> Result<&'a DimsRow, Rejection>
    ensures { Settles (λ row. row.now) result (spec.named_row rows.now id.now) }
{
    for row in rows {
        if has_row_id(row, id) {
            return Ok(row);
        }
    }
    Err(Rejection::Code(ReplyCode::CollectionNotFound))
}

fn has_row_id(row: &DimsRow, id: &str) -> bool
    ensures { result ≡ spec.has_row_id id.now row.now }
{
    row.id.as_str() == id
}

/// The user's job of an id. Another user's job is not there.
pub(crate) fn named_job<'a>(book: &'a Book, user: &Text, id: &str) -> Result<&'a Job, Rejection>
    ensures { Settles (λ job. plain_job job.now) result
        (spec.named_job (plain_book book.now) user.now id.now) }
{
    for job in &book.jobs {
        if is_job_of(job, user, id) {
            return Ok(job);
        }
    }
    Err(Rejection::Code(ReplyCode::JobNotFound))
}

fn is_job_of(job: &Job, user: &Text, id: &str) -> bool
    ensures { result ≡ is_found user.now id.now (plain_job job.now) }
{
    same_text(job.id.as_str(), id) && same_text(job.user.as_str(), user.as_str())
}

/// The user's stored process of an id.
pub(crate) fn named_process<'a>(
    book: &'a Book,
    user: &Text,
    id: &str,
) -> Result<&'a Owned, Rejection>
    ensures { Settles (λ owned. plain_owned owned.now) result
        (spec.named_process (plain_book book.now) user.now id.now) }
{
    for owned in &book.processes {
        if is_process_of(owned, user, id) {
            return Ok(owned);
        }
    }
    Err(Rejection::Code(ReplyCode::ProcessNotFound))
}

fn is_process_of(owned: &Owned, user: &Text, id: &str) -> bool
    ensures { result ≡ is_owned user.now id.now (plain_owned owned.now) }
{
    same_text(owned.user.as_str(), user.as_str()) && same_text(owned.process.id.as_str(), id)
}

/// The index of the user's job of an id in the book.
#[tactic(auto, using(crate::proofs::NamedLemmas::job_placed))]
pub(crate) fn index_of_job(
    alloc: Global,
    book: &Book,
    user: &Text,
    id: &str,
) -> Result<usize, Rejection>
    ensures { Settles (slice_get (plain_book book.now).jobs) result
        (as_some (spec.named_job (plain_book book.now) user.now id.now)) }
{
    let id = Text::of(alloc, id)?;
    match book.find(user, &id) {
        Some(index) => Ok(index),
        None => Err(Rejection::Code(ReplyCode::JobNotFound)),
    }
}

/// The index of the asset of a name.
pub(crate) fn index_of_asset(assets: &[Asset], name: &str) -> Result<usize, Rejection>
    ensures { Settles (slice_get assets.now) result
        (as_some (spec.named_asset assets.now name.now)) }
{
    for index in 0..assets.len() {
        if has_asset_name(&assets[index], name) {
            return Ok(index);
        }
    }
    Err(Rejection::Code(ReplyCode::AssetNotFound))
}

fn has_asset_name(asset: &Asset, name: &str) -> bool
    ensures { result ≡ spec.has_asset_name name.now asset.now }
{
    asset.name.as_str() == name
}
