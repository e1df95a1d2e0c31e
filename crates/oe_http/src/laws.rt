// What holds of every reply that is written in two parts.
ghost use Rattle.oe_http.specs.Laws.{HeadAndBodyAreReply};

/// Does nothing. Its contract says that the head which `write_head` writes, with its body behind it, is the reply that
/// `write_response` writes, so that a long body can be sent in pieces after its head.
#[tactic(auto, using(crate::proofs::LawLemmas::head_and_body))]
pub fn head_and_body_are_reply()
    ensures { HeadAndBodyAreReply }
{}
