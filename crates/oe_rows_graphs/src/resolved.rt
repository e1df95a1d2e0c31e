// The answers to lines about resolved graphs.
ghost use Rattle.std.specs.Prelude.{◌≡◌, IfOk, map};
ghost use Rattle.oe_graph.specs.Plain.{plain_stored};
ghost use Rattle.oe_graph.specs.Valid.{AreValidStored, IsValidStored};

use oe_graph::{Refusal, StoredProcess, print_graph, read_graph, read_stored};
use oe_lines::{Answers, Fault, end_line, push, words_of};
use oe_resolve::resolve;
use std::alloc::Global;

/// A stored process of one load.
const LOADING: &str =
    r#"{"process_graph":{"a":{"process_id":"load_collection","arguments":{"id":"ONE","spatial_extent":null,"temporal_extent":null},"result":true}}}"#;

/// Spells the text of a resolved graph, or its fault.
pub(crate) fn spell_resolved(
    alloc: Global,
    words: &str,
    graph: &str,
    answers: &mut Answers,
) -> Result<(), Fault> {
    let stored = stored_of(alloc, words)?;
    let Ok(graph) = read_graph(alloc, graph.as_bytes()) else {
        return Err(Fault::Line);
    };
    match resolve(alloc, &graph, stored.as_slice()) {
        Ok(resolved) => push(print_graph(alloc, &resolved)?.as_str(), answers),
        Err(refusal) => spell_refusal(&refusal, answers),
    }
    end_line(answers);
    Ok(())
}

/// Spells the code of a fault and its node.
pub(crate) fn spell_refusal(refusal: &Refusal, answers: &mut Answers) {
    match refusal {
        Refusal::Fault(fault) => {
            push(fault.code.as_str(), answers);
            push(" ", answers);
            push(fault.node.as_str(), answers);
        }
        Refusal::OutOfMemory => answers.note(Fault::OutOfMemory),
    }
}

/// The stored processes p, q and r.
pub(crate) fn stored_of(alloc: Global, words: &str) -> Result<Vec<StoredProcess>, Fault>
    ensures { IfOk result (λ v. AreValidStored (map plain_stored v.items)) }
{
    let [p, q, r, ..] = words_of(words);
    let p = stored_process(alloc, "p", p)?;
    let q = stored_process(alloc, "q", q)?;
    let r = stored_process(alloc, "r", r)?;
    Ok(vec![in alloc; p, q, r]?)
}

/// The stored process of a text, or of one load where the word is `-`.
fn stored_process(alloc: Global, id: &str, word: &str) -> Result<StoredProcess, Fault>
    ensures valid { IfOk result (λ s. IsValidStored (plain_stored s)) }
    ensures named { IfOk result (λ s. (plain_stored s).id ≡ id.now) }
{
    let text = if word == "-" { LOADING } else { word };
    match read_stored(alloc, id, text.as_bytes()) {
        Ok(process) => Ok(process),
        Err(_) => Err(Fault::Line),
    }
}
