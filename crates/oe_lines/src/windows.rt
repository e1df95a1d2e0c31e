// How windows are spelled.
use crate::{Answers, push_number};
use oe_window::{Span, Window};

/// Appends a window behind a mark.
pub fn push_window(mark: &str, window: &Window, answers: &mut Answers) {
    push_span(mark, window.t, answers);
    push_span(" ", window.bands, answers);
    push_span(" ", window.y, answers);
    push_span(" ", window.x, answers);
}

fn push_span(mark: &str, span: Span, answers: &mut Answers) {
    push_number(mark, span.from, answers);
    push_number("..", span.to, answers);
}
