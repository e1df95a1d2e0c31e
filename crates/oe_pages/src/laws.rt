// What holds of the pages of every list.
ghost use Rattle.oe_pages.specs.Laws.{HasPages, LinksLead, PagesHaveParts, PagesJoin};

/// Does nothing. Its contract says that every list has pages of every limit from 1 on, each but the last with a link to
/// the one behind it.
#[tactic(auto, using(crate::proofs::PageLemmas::has_pages))]
pub fn has_pages()
    ensures { HasPages }
{}

/// Does nothing. Its contract says that the pages of a list along their links, joined, are the list, each item once, and
/// that there are so many as there must be.
#[tactic(auto, using(crate::proofs::PageLemmas::pages_join))]
pub fn pages_join()
    ensures { PagesJoin }
{}

/// Does nothing. Its contract says that a page of an object has the asked part of the list under the name, the links of
/// that page, and all other members of the object.
pub fn pages_have_parts()
    ensures { PagesHaveParts }
{}

/// Does nothing. Its contract says that the query of a link asks for the page that the link names.
#[tactic(auto, using(crate::proofs::LinkLemmas::links_lead))]
pub fn links_lead()
    ensures { LinksLead }
{}
