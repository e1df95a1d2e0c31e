// What holds of every request.
ghost use Rattle.oe_routes.specs.Laws.{AnswersWithoutRows, ListsByPages};

/// Does nothing. Its contract says that a request which does not ask for the rows of the collections is answered alike
/// whatever they are.
#[tactic(auto, using(crate::proofs::AskedLemmas::answers_without_rows))]
pub fn answers_without_rows()
    ensures { AnswersWithoutRows }
{}

/// Does nothing. Its contract says that a list which is asked for by pages is answered with the page of the list that is
/// answered without a query.
#[tactic(auto, using(crate::proofs::ListLemmas::lists_by_pages))]
pub fn lists_by_pages()
    ensures { ListsByPages }
{}
