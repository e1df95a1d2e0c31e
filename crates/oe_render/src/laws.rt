// What holds of the text of every cube.
ghost use Rattle.oe_render.specs.Laws.{CountsAreExact, TextsAreShort, TextsAreUtf8};

/// Does nothing. Its contract says that the text of a valid cube is UTF-8, so that its bytes are a text.
#[tactic(auto, using(crate::proofs::LawLemmas::utf8))]
pub fn texts_are_utf8()
    ensures { TextsAreUtf8 }
{}

/// Does nothing. Its contract says that the text of a valid cube has fewer than 2^64 bytes, so that a sink which counts
/// up to 2^64 - 1 counts all of them.
#[tactic(auto, using(crate::proofs::LawLemmas::short))]
pub fn texts_are_short()
    ensures { TextsAreShort }
{}

/// Does nothing. Its contract says that a sink which only counts, and to which the text of a valid cube was written
/// first, has counted exactly its bytes.
#[tactic(auto, using(crate::proofs::LawLemmas::exact))]
pub fn counts_are_exact()
    ensures { CountsAreExact }
{}
