// The command over a door that dials a peer in memory.
ghost use Rattle.std.specs.Prelude.{◌≡◌, ℕ, All, IfOk, List};
ghost use Rattle.oe_dial.specs.Words.{SpellsCall, plain_call};
ghost use Rattle.oe_outside.specs.ScriptDoors.{IsSound};

use crate::links::link_of;
use crate::setting::{Setting, Spelled, fails_of, spelling};
use oe_dial::{ClientCall, client, read_call};
use oe_dims::Text;
use oe_lines::{
    Answers, Fault, end_line, escaped_bytes, escaped_text, first_word, number_of, numbers_of, push,
    push_number, push_quoted,
};
use oe_outside::{MemoryLink, MemorySink, MemorySource, ScriptDoor, Source};
use std::alloc::Global;

/// How many bytes a connection has room for: those of the longest input and the head before it.
const SENT_ROOM: usize = 1049600;

/// How many bytes the outputs have room for: those of the longest body and more.
const OUT_ROOM: usize = 16778240;

/// Appends the answers to lines about the command.
pub(crate) fn answer_dialled(alloc: Global, text: &str, answers: &mut Answers) {
    let mut peers = Vec::new(alloc);
    let mut input = spelling("");
    let mut piece = spelling("65536");
    let mut fails = fails_of("- - - - -");
    for line in text.lines() {
        let (word, rest) = first_word(line);
        match word {
            "#" => {}
            "peer" => {
                peers.clear();
                add_peer(&mut peers, rest, answers);
            }
            "more" => add_peer(&mut peers, rest, answers),
            "input" => input = spelling(rest),
            "piece" => piece = spelling(rest),
            "fails" => fails = fails_of(rest),
            _ => {
                let setting = Setting {
                    peers: peers.as_slice(),
                    input,
                    piece,
                    fails,
                };
                let outcome = answer_command(alloc, setting, line, answers);
                answers.settle(outcome);
            }
        }
    }
}

/// Adds the bytes of one more peer.
fn add_peer<'a>(peers: &mut Vec<Spelled<'a>>, bytes: &'a str, answers: &mut Answers) {
    if peers.push(spelling(bytes)).is_err() {
        answers.note(Fault::OutOfMemory);
    }
}

/// Carries out the command of these words, and appends its status and what became of all that it was lent.
fn answer_command(
    alloc: Global,
    setting: Setting<'_>,
    line: &str,
    answers: &mut Answers,
) -> Result<(), Fault> {
    let words = words_of(alloc, line)?;
    match read_call(&words) {
        Some(call) => answer_call(alloc, setting, &call, answers),
        None => {
            push("Usage\n", answers);
            Ok(())
        }
    }
}

fn answer_call(
    alloc: Global,
    setting: Setting<'_>,
    call: &ClientCall<'_>,
    answers: &mut Answers,
) -> Result<(), Fault>
    requires spelled { (words : List (List ℕ)) × SpellsCall words (plain_call call.now) }
{
    let mut input = input_of(alloc, setting)?;
    let mut door = door_of(alloc, setting)?;
    make_call(alloc, setting, call, &mut input, &mut door, answers)
}

fn make_call(
    alloc: Global,
    setting: Setting<'_>,
    call: &ClientCall<'_>,
    input: &mut MemorySource,
    door: &mut ScriptDoor,
    answers: &mut Answers,
) -> Result<(), Fault>
    requires spelled { (words : List (List ℕ)) × SpellsCall words (plain_call call.now) }
{
    let mut out = sink_of(alloc, setting.fails.out)?;
    let mut err = sink_of(alloc, setting.fails.err)?;
    let status = client(alloc, call, input, &mut out, &mut err, door);
    spell_ending(status, input, &out, &err, door, answers);
    Ok(())
}

/// Appends a status, and what became of all that the command was lent.
fn spell_ending(
    status: u8,
    input: &mut MemorySource,
    out: &MemorySink,
    err: &MemorySink,
    door: &ScriptDoor,
    answers: &mut Answers,
) {
    push_number("", status, answers);
    for link in door.given_back() {
        push_quoted(" sent ", link.written(), answers);
    }
    push_quoted(" out ", out.bytes(), answers);
    push_quoted(" err ", err.bytes(), answers);
    spell_left(input, answers);
    spell_count(" dial_faults ", door.dial_faults(), answers);
    spell_count(" link_faults ", door.link_faults(), answers);
    end_line(answers);
}

/// Appends the first bytes of the input that were left, where there are any.
fn spell_left(input: &mut MemorySource, answers: &mut Answers) {
    let mut first = [0; 16];
    match input.read(&mut first) {
        Ok(count) if count > 0 => push_quoted(" left ", &first[..count], answers),
        _ => {}
    }
}

/// Appends a counter that is not 0.
fn spell_count(mark: &str, count: u64, answers: &mut Answers) {
    if count != 0 {
        push_number(mark, count, answers);
    }
}

/// The words, with blanks between them.
fn words_of(alloc: Global, line: &str) -> Result<Vec<Text>, Fault> {
    let mut words = Vec::new(alloc);
    for word in line.split(' ') {
        words.push(escaped_text(alloc, word)?)?;
    }
    Ok(words)
}

/// An output with room for all that a command may write.
fn sink_of(alloc: Global, fails: &str) -> Result<MemorySink, Fault> {
    Ok(MemorySink::new(alloc, OUT_ROOM, numbers_of(alloc, fails)?)?)
}

fn input_of(alloc: Global, setting: Setting<'_>) -> Result<MemorySource, Fault> {
    let bytes = escaped_bytes(alloc, setting.input.text)?;
    Ok(MemorySource::new(bytes, numbers_of(alloc, setting.fails.input)?)?)
}

/// A door that dials these peers.
fn door_of(alloc: Global, setting: Setting<'_>) -> Result<ScriptDoor, Fault> {
    let peers = peers_of(alloc, setting)?;
    Ok(ScriptDoor::new(
        alloc,
        Vec::new(alloc),
        peers,
        numbers_of(alloc, setting.fails.dial)?,
    )?)
}

fn peers_of(alloc: Global, setting: Setting<'_>) -> Result<Vec<MemoryLink>, Fault>
    ensures { IfOk result (λ peers. All IsSound peers.items) }
{
    let mut peers = Vec::new(alloc);
    for peer in setting.peers {
        peers.push(peer_of(alloc, *peer, setting)?)?;
    }
    Ok(peers)
}

fn peer_of(alloc: Global, peer: Spelled<'_>, setting: Setting<'_>) -> Result<MemoryLink, Fault>
    ensures { IfOk result (λ peer. peer.faults ≡ 0) }
{
    let bytes = escaped_bytes(alloc, peer.text)?;
    let piece = number_of(setting.piece.text)?;
    link_of(alloc, bytes, piece, SENT_ROOM, setting.fails.link)
}
