// The statements that a change of a job book makes.
ghost use Rattle.std.specs.Prelude.{◌≡◌, ◌∷◌, ◌++◌, IfOk, OnOk, [], map};
ghost use Rattle.oe_jobs.specs.Plain.{plain_owned};
ghost use Rattle.sqlite.specs.Value.{owned};
ghost use Rattle.sqlite.specs.Values.{bound, bound_value};
ghost use Rattle.sqlite_value.specs.declared.value.Value.TheVariants.{Blob, Text as text_value};
ghost use Rattle.oe_database.specs.Each.{plain_statement};
ghost use Rattle.oe_database.specs.Statements as spec;

use crate::statement::Statement;
use oe_dims::Text;
use oe_jobs::{Asset, Owned};
use oe_memory::OutOfMemory;
use sqlite::types::ValueRef;
use std::alloc::Global;

const PUT_ENTRY: &str =
    "INSERT INTO jobs VALUES (?1, ?2) ON CONFLICT (number) DO UPDATE SET entry = ?2";

const DROP_ASSETS: &str = "DELETE FROM assets WHERE number = ?1";

const APPEND_ASSET: &str =
    "INSERT INTO assets VALUES (?1, (SELECT count(*) FROM assets WHERE number = ?1), ?2, ?3)";

const SET_NEXT: &str = "UPDATE book SET next = ?1";

const DROP_ENTRY: &str = "DELETE FROM jobs WHERE number = ?1";

const PUT_PROCESS: &str =
    "INSERT INTO processes VALUES (?1, ?2, ?3) ON CONFLICT (owner, id) DO UPDATE SET body = ?3";

const DROP_PROCESS: &str = "DELETE FROM processes WHERE owner = ?1 AND id = ?2";

/// A job of a number, all of it: its entry, these assets and no other ones, and the next number of the book.
pub(crate) fn put_job<'a>(
    alloc: Global,
    number: &'a [u8],
    entry: &'a [u8],
    assets: &'a [Asset],
    next: &'a [u8],
) -> Result<Vec<Statement<'a>>, OutOfMemory>
    ensures { IfOk result (λ v. map plain_statement v.items
        ≡ spec.puts_job number.now entry.now assets.now next.now) }
{
    let mut statements = Vec::with_capacity(alloc, assets.len().saturating_add(3))?;
    statements.push(put_entry(alloc, number, entry)?)?;
    statements.push(of_number(alloc, DROP_ASSETS, number)?)?;
    put_assets(alloc, number, assets, &mut statements)?;
    statements.push(of_number(alloc, SET_NEXT, next)?)?;
    Ok(statements)
}

/// Appends that a job of a number has these assets behind those that it has.
fn put_assets<'a>(
    alloc: Global,
    number: &'a [u8],
    assets: &'a [Asset],
    statements: &mut Vec<Statement<'a>>,
) -> Result<(), OutOfMemory>
    ensures { OnOk result (map plain_statement statements.new.items
        ≡ map plain_statement statements.old.items
        ++ map (spec.appends_asset number.now) assets.now) }
{
    for asset in assets {
        statements.push(append_asset(alloc, number, asset)?)?;
    }
    Ok(())
}

/// A new entry of a job of a number, and an asset behind those that it has.
pub(crate) fn add_asset<'a>(
    alloc: Global,
    number: &'a [u8],
    entry: &'a [u8],
    asset: &'a Asset,
) -> Result<Vec<Statement<'a>>, OutOfMemory>
    ensures { IfOk result (λ v. map plain_statement v.items
        ≡ spec.adds_asset number.now entry.now asset.now) }
{
    let mut statements = Vec::with_capacity(alloc, 2)?;
    statements.push(put_entry(alloc, number, entry)?)?;
    statements.push(append_asset(alloc, number, asset)?)?;
    Ok(statements)
}

/// No job of a number, and no assets of it.
pub(crate) fn drop_job(alloc: Global, number: &[u8]) -> Result<Vec<Statement<'_>>, OutOfMemory>
    ensures { IfOk result (λ v. map plain_statement v.items ≡ spec.drops_job number.now) }
{
    let mut statements = Vec::with_capacity(alloc, 2)?;
    statements.push(of_number(alloc, DROP_ASSETS, number)?)?;
    statements.push(of_number(alloc, DROP_ENTRY, number)?)?;
    Ok(statements)
}

/// A stored process of a user.
pub(crate) fn put_process(alloc: Global, owned: &Owned) -> Result<Vec<Statement<'_>>, OutOfMemory>
    ensures { IfOk result
        (λ v. map plain_statement v.items ≡ spec.puts_process (plain_owned owned.now) ∷ []) }
{
    let mut parameters = Vec::with_capacity(alloc, 3)?;
    parameters.push(text_of(&owned.user))?;
    parameters.push(text_of(&owned.process.id))?;
    parameters.push(blob_of(&owned.process.text))?;
    alone(alloc, PUT_PROCESS, parameters)
}

/// No stored process of a user and an id.
pub(crate) fn drop_process<'a>(
    alloc: Global,
    user: &'a Text,
    id: &'a Text,
) -> Result<Vec<Statement<'a>>, OutOfMemory>
    ensures { IfOk result
        (λ v. map plain_statement v.items ≡ spec.drops_process user.now id.now ∷ []) }
{
    let mut parameters = Vec::with_capacity(alloc, 2)?;
    parameters.push(text_of(user))?;
    parameters.push(text_of(id))?;
    alone(alloc, DROP_PROCESS, parameters)
}

fn alone<'a>(
    alloc: Global,
    text: &'static str,
    parameters: Vec<ValueRef<'a>>,
) -> Result<Vec<Statement<'a>>, OutOfMemory>
    ensures { IfOk result (λ v. map plain_statement v.items
        ≡ record { text = text.now; parameters = bound parameters.entry.items } ∷ []) }
{
    let mut statements = Vec::with_capacity(alloc, 1)?;
    statements.push(Statement { text, parameters })?;
    Ok(statements)
}

pub(crate) fn put_entry<'a>(
    alloc: Global,
    number: &'a [u8],
    entry: &'a [u8],
) -> Result<Statement<'a>, OutOfMemory>
    ensures { IfOk result (λ s. plain_statement s ≡ spec.puts_entry number.now entry.now) }
{
    let mut parameters = Vec::with_capacity(alloc, 2)?;
    parameters.push(ValueRef::Blob(number))?;
    parameters.push(ValueRef::Blob(entry))?;
    Ok(Statement {
        text: PUT_ENTRY,
        parameters,
    })
}

fn append_asset<'a>(
    alloc: Global,
    number: &'a [u8],
    asset: &'a Asset,
) -> Result<Statement<'a>, OutOfMemory>
    ensures { IfOk result (λ s. plain_statement s ≡ spec.appends_asset number.now asset.now) }
{
    let mut parameters = Vec::with_capacity(alloc, 3)?;
    parameters.push(ValueRef::Blob(number))?;
    parameters.push(text_of(&asset.name))?;
    parameters.push(blob_of(&asset.text))?;
    Ok(Statement {
        text: APPEND_ASSET,
        parameters,
    })
}

/// A statement whose one parameter is a number.
fn of_number<'a>(
    alloc: Global,
    text: &'static str,
    number: &'a [u8],
) -> Result<Statement<'a>, OutOfMemory>
    ensures { IfOk result
        (λ s. plain_statement s ≡ record { text = text.now; parameters = Blob number.now ∷ [] }) }
{
    let mut parameters = Vec::with_capacity(alloc, 1)?;
    parameters.push(ValueRef::Blob(number))?;
    Ok(Statement { text, parameters })
}

fn text_of(text: &Text) -> ValueRef<'_>
    ensures { bound_value (owned result) ≡ text_value text.now }
{
    ValueRef::Text(text.as_str().as_bytes())
}

fn blob_of(text: &Text) -> ValueRef<'_>
    ensures { bound_value (owned result) ≡ Blob text.now }
{
    ValueRef::Blob(text.as_str().as_bytes())
}
