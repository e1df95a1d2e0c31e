// Clocks that stand still, and gates that do nothing.
use oe_lines::{Answers, Fault, Line, end_line, push_number};
use oe_outside::{Clock, FixedClock, Gate, NoGate};

/// The first and the last moment that a clock gives.
const FIRST: i64 = -62135596800;

const LAST: i64 = 253402300799;

/// Asks a clock twice.
pub(crate) fn answer_clock(line: &mut Line, answers: &mut Answers) {
    let seconds = line.number();
    if seconds < FIRST || seconds > LAST {
        return line.note(Fault::Line);
    }
    let mut clock = FixedClock::new(seconds);
    spell_moment(passes(&mut clock, &NoGate), answers);
    spell_moment(passes(&mut clock, &NoGate), answers);
}

/// The moment that a clock gives, and a gate that is entered, through the bounds.
fn passes<C: Clock, G: Gate>(clock: &mut C, gate: &G) -> i64 {
    gate.enter(0);
    clock.now_seconds()
}

fn spell_moment(seconds: i64, answers: &mut Answers) {
    push_number("", seconds, answers);
    end_line(answers);
}
