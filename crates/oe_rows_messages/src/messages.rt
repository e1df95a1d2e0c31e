// HTTP messages that are read from links in memory and written to them, and calls of a client.
use crate::client::{answer_call, answer_next};
use crate::links::{Links, links_of};
use crate::reading::{Message, answer_read, answer_texts};
use crate::writing::answer_written;
use oe_lines::{Answers, Line};
use std::alloc::Global;

/// Appends the answers to lines about messages.
pub(crate) fn answer_messages(alloc: Global, text: &str, answers: &mut Answers) {
    let mut links = Links {
        pieces: "1",
        calls: "-",
    };
    for line in text.lines() {
        let mut line = Line::new(alloc, line);
        if line.takes("links") {
            links = links_of(&mut line);
        } else {
            answer_line(links, &mut line, answers);
            line.report(answers);
        }
    }
}

/// Appends the answer of a line.
fn answer_line(links: Links<'_>, line: &mut Line, answers: &mut Answers) {
    let outcome = match line.word() {
        "#" => Ok(()),
        "texts" => {
            answer_texts(line.alloc(), answers);
            Ok(())
        }
        "request" => answer_read(links, Message::Request, line, answers),
        "response" => answer_read(links, Message::Response, line, answers),
        "call" => answer_call(links, line, answers),
        "next" => answer_next(line, answers),
        word => answer_written(links, word, line, answers),
    };
    answers.settle(outcome);
}
