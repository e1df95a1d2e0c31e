// What holds of every catalogue, and of every read of one.
ghost use Rattle.oe_sources.specs.CatalogueLaws.{AskNoMoreThanRead, HaveValidIds, KeepCollections, KeepOutlines};
ghost use Rattle.oe_sources.specs.CatalogueRows.{rows_in};

use crate::Catalogue;

/// Does nothing. Its contract says that a read of a window of one row raises the number of cells asked of a catalogue
/// by the size of the window at most.
#[tactic(auto, using(crate::proofs::CatalogueLawLemmas::ask_no_more))]
pub fn reads_are_counted()
    ensures { AskNoMoreThanRead }
{}

/// Does nothing. Its contract says that a read leaves the collections that a catalogue shows as they were.
#[tactic(auto, using(crate::proofs::CatalogueLawLemmas::keep_collections))]
pub fn collections_stay()
    ensures { KeepCollections }
{}

/// Does nothing. Its contract says that a read leaves the ids, shapes and kinds of all collections as they were.
#[tactic(auto, using(crate::proofs::CatalogueLawLemmas::keep_outlines))]
pub fn outlines_stay()
    ensures { KeepOutlines }
{}

/// Does nothing. Its contract says that the ids of the collections of a catalogue are valid.
pub fn ids_are_valid(_catalogue: &Catalogue)
    ensures { HaveValidIds (rows_in seen _catalogue.now) }
{}
