// The replies of graphs whose runs have no result.
ghost use Rattle.std.specs.Prelude.{◌≡◌, ◌<◌, ◌++◌, [], IfOk, codes, decimal, string_bytes, unwrap_or};
ghost use Rattle.oe_graph.specs.Printed.{node_count};
ghost use Rattle.oe_check.specs.Checked.{collection_of_node};
ghost use Rattle.oe_serve.specs.Evaluations.{CanBeNamed};
ghost use Rattle.oe_serve.specs.Links.{SendsCode, link_of};
ghost use Rattle.oe_serve.specs.Results as spec;

use crate::links::{answer_code, answer_out_of_memory};
use crate::refusal::ResultRefusal;
use crate::served::Served;
use itoa::Buffer;
use oe_check::Checked;
use oe_memory::OutOfMemory;
use oe_outside::Link;
use oe_replies::ReplyCode;
use std::alloc::Global;

/// Answers that a run has no result.
pub(crate) fn answer_refusal<L: Link>(
    alloc: Global,
    checked: &Checked,
    refusal: ResultRefusal,
    link: &mut L,
) -> Served
    requires { CanBeNamed checked.now refusal }
    ensures { let of = link_of L.left L.written L.faults in
        SendsCode (spec.code_of refusal) (spec.detail_of checked.now refusal) (of link.old)
        (of link.new) result }
{
    match refusal {
        ResultRefusal::PlanTooLarge(cells) => {
            answer_number(alloc, ReplyCode::PlanTooLarge, cells, link)
        }
        ResultRefusal::ReadFault => answer_code(alloc, link, ReplyCode::ReadFault, ""),
        ResultRefusal::SourceDamaged { load, number } => {
            answer_damage(alloc, id_of(checked, load), number, link)
        }
        ResultRefusal::SpoolFault => answer_code(alloc, link, ReplyCode::SpoolFault, ""),
        ResultRefusal::NumberOverflow(number) => {
            answer_number(alloc, ReplyCode::NumberOverflow, number as u128, link)
        }
        ResultRefusal::SpoolDamaged(number) => {
            answer_number(alloc, ReplyCode::SpoolDamaged, number as u128, link)
        }
    }
}

/// Answers with a code and a number.
pub(crate) fn answer_number<L: Link>(
    alloc: Global,
    code: ReplyCode,
    number: u128,
    link: &mut L,
) -> Served
    ensures { let of = link_of L.left L.written L.faults in
        SendsCode code (decimal number) (of link.old) (of link.new) result }
{
    answer_code(alloc, link, code, Buffer::new().format(number))
}

/// The id of the collection that a node loads.
fn id_of(checked: &Checked, load: u32) -> &str
    requires { load < node_count checked.now.nodes }
    ensures { result.now ≡ unwrap_or (collection_of_node checked.now load) [] }
{
    match checked.collection(load) {
        Some(id) => id.as_str(),
        None => "",
    }
}

/// Answers that a position of the collection of an id is damaged.
fn answer_damage<L: Link>(alloc: Global, id: &str, number: u64, link: &mut L) -> Served
    ensures { let of = link_of L.left L.written L.faults in
        SendsCode ReplyCode.SourceDamaged (id.now ++ codes " " ++ decimal number) (of link.old)
        (of link.new) result }
{
    match damage_text(alloc, id, number) {
        Ok(detail) => answer_code(alloc, link, ReplyCode::SourceDamaged, detail.as_str()),
        Err(OutOfMemory) => answer_out_of_memory(link),
    }
}

/// An id, a blank and a number. Refuses: out of memory.
fn damage_text(alloc: Global, id: &str, number: u64) -> Result<String, OutOfMemory>
    ensures { IfOk result (λ text. string_bytes text ≡ id.now ++ codes " " ++ decimal number) }
{
    let mut text = String::from_str(alloc, id)?;
    text.push_str(" ")?;
    text.push_str(Buffer::new().format(number))?;
    Ok(text)
}
