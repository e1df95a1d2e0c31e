// What holds of every run, and of the catalogue that it reads.
ghost use Rattle.std.specs.Prelude.{◌≡◌};
ghost use Rattle.oe_dims.specs.Plain.{HaveRisingIds, plain_rows};
ghost use Rattle.oe_sources.specs.CatalogueDims.{AreDimsOf, dims_of};
ghost use Rattle.oe_sources.specs.CatalogueRows.{rows_of};
ghost use Rattle.oe_engine.specs.Going.{RunsGoOn, RunsStayApart};
ghost use Rattle.oe_engine.specs.Laws.{AreMounted, AreShown, BeginAndEnd, GivesCollections, HasValid, StayAfterReads};

use oe_dims::{Dims, DimsRow, Kind};
use oe_sources::Catalogue;

/// Does nothing. Its contract says that a graph that was checked over the rows of a catalogue, once it is planned, has
/// its collections mounted there, as a round asks.
pub fn collections_are_mounted()
    ensures { AreMounted }
{}

/// Looks at each collection of a catalogue, of which these are the rows. Its contract says that all are valid, so that
/// they are collections of each graph that is checked over the rows.
pub fn collections_are_valid(catalogue: &Catalogue, dims: &Dims)
    requires rows { plain_rows dims.now ≡ dims_of (rows_of seen catalogue.now) }
    requires rising { HaveRisingIds dims.now }
    requires found { AreDimsOf (rows_of seen catalogue.now) (plain_rows dims.now) }
    ensures { GivesCollections (rows_of seen catalogue.now) }
{
    for row in &dims.rows {
        look_at_row(catalogue, row);
    }
}

/// Looks at the shape of a row, and at the collection of its id. Its contract says that they are valid, as their types
/// and sources keep it.
fn look_at_row(catalogue: &Catalogue, row: &DimsRow)
    ensures { HasValid (rows_of seen catalogue.now) row.now }
{
    let _count = row.shape.count(Kind::Time);
    if let Some(place) = catalogue.place(row.id.as_str()) {
        let _shape = catalogue.shape(place);
    }
}

/// Does nothing. Its contract says that over a catalogue all of whose collections are visible a graph means what it
/// means over the collections that the catalogue shows.
#[tactic(auto, using(crate::proofs::LawLemmas::are_shown))]
pub fn collections_are_shown()
    ensures { AreShown }
{}

/// Does nothing. Its contract says that reading a catalogue leaves what is mounted, what is visible and what it gives
/// to graphs as it was.
#[tactic(auto, using(crate::proofs::LawLemmas::stay_after_reads))]
pub fn reads_change_nothing()
    ensures { StayAfterReads }
{}

/// Does nothing. Its contract says what a run has done before its first round, and that after the last one it has found
/// the least number of a cell of the result that is `Over`.
#[tactic(auto, using(crate::proofs::LawLemmas::begin_and_end))]
pub fn over_is_of_the_result()
    ensures { BeginAndEnd }
{}

/// Does nothing. Its contract says that a run is under way before its first round and after each one, over the
/// catalogue and the store as they are then.
#[tactic(auto, using(crate::proofs::GoingLemmas::runs_go_on))]
pub fn runs_go_on()
    ensures { RunsGoOn }
{}

/// Does nothing. Its contract says that the records of a run stay where a store changes only at those of another run
/// that stand behind them, and that a round changes none but its own.
#[tactic(auto, using(crate::proofs::GoingLemmas::runs_stay_apart))]
pub fn runs_stay_apart()
    ensures { RunsStayApart }
{}
