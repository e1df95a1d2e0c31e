// What holds of every error body without a detail.
ghost use Rattle.oe_replies.specs.Laws.{ErrorsArePlain};

/// Does nothing. Its contract says of which bytes the error body of a code without a detail consists, so that it can be
/// sent without memory.
#[tactic(auto, using(crate::proofs::PlainErrors::errors_are_plain))]
pub fn errors_are_plain()
    ensures { ErrorsArePlain }
{}
