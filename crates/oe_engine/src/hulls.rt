// The chunks of a round, loaded together: where the windows of a step that are neighbours along x are strips of one
// hull, each row of that is looked at once and dealt to the benches, so that a collection is looked at in long rows.
ghost use Rattle.std.specs.Prelude.{◌≡◌, ◌<◌, ◌+◌, ◌*◌, ◌^◌, ◌≤◌, ℕ, List, IsTrue, OnOk, length, true};
ghost use Rattle.std.specs.List.{All};
ghost use Rattle.oe_engine.specs.Benches.{IsAtChunk, IsBenchFor, cells_of_largest_window, is_load_at};
ghost use Rattle.oe_engine.specs.Chunks.{EachBench};
ghost use Rattle.oe_engine.specs.Evaluations.{most_asked};
ghost use Rattle.oe_steps.specs.Collections.{HasCollections};
ghost use Rattle.oe_engine.specs.Hulls.{AreStripped, BenchesTakeRow, HasLoadedSteps, IsBegun, IsReadable, IsStripped, LoadsChunks, LoadsFirst, LoadsRow, LoadsStep};
ghost use Rattle.oe_engine.specs.Loads.{LoadsBench, LoadsFrom, TellsWhyAt};
ghost use Rattle.oe_engine.specs.Runs.{chunk_total};
ghost use Rattle.oe_plan.specs.Plans.{IsPlan, PlanOf};
ghost use Rattle.oe_sources.specs.Catalogue.{Row};
ghost use Rattle.oe_sources.specs.CatalogueRows.{rows_of, seal_of};
ghost use Rattle.oe_sources.specs.Permits.{MayLook, SpendsAtMost};
ghost use Rattle.oe_window.specs.Parts.{row_count};
ghost use Rattle.oe_window.specs.Windows.{span_length};

use crate::bench::Bench;
use crate::steps::{loads, place_of};
use oe_cell::Cell;
use oe_plan::Plan;
use oe_sources::{Catalogue, LookFail, Looker};
use oe_steps::is_strip;
use oe_window::{Window, holds, hull, size, whole};

/// The step for which a look was refused, and why.
#[derive(Drop)]
pub(crate) struct Note {
    pub(crate) step: u32,
    pub(crate) fail: LookFail,
}

/// Loads the chunks from a first one on, each into a bench, by looks.
///
/// Refuses: where a look at a collection is refused.
pub(crate) fn load_chunks(
    plan: &Plan,
    benches: &mut [Bench],
    catalogue: &Catalogue,
    first: u64,
    looker: &mut Looker,
) -> Result<(), Note>
    requires benches { All (IsBenchFor plan.now) benches.old }
    requires chunks { first + length benches.old ≤ chunk_total plan.now }
    requires mounted { HasCollections plan.now.graph (rows_of seen catalogue.now) }
    requires asked { MayLook (seal_of catalogue.now) (length benches.old * most_asked plan.now)
        looker.old }
    ensures { LoadsChunks plan.now (rows_of seen catalogue.now) first benches.old benches.new
        result }
{
    // A plan has at most 2^48 chunks, so that their numbers fit 64 bits.
    let _chunks = plan.chunks();
    begin_chunks(plan, benches, first);
    for step in 0..loads(plan) {
        match load_step_of_all(plan, benches, catalogue, step, looker) {
            Ok(()) => {}
            Err(fail) => return Err(Note { step, fail }),
        }
    }
    end_chunks(benches, first);
    Ok(())
}

/// Gives benches the windows of the chunks from a first one on.
fn begin_chunks(plan: &Plan, benches: &mut [Bench], first: u64)
    requires benches { All (IsBenchFor plan.now) benches.old }
    requires chunks { first + length benches.old ≤ chunk_total plan.now }
    ensures begun { All (IsBegun plan.now) benches.new }
    ensures chunks { EachBench first (IsAtChunk plan.now) benches.new }
    ensures count { length benches.new ≡ length benches.old }
{
    // A plan has at most 2^48 chunks, so that their numbers fit 64 bits.
    let _chunks = plan.chunks();
    for index in 0..benches.len() {
        benches[index].begin(plan, first + index as u64);
    }
}

/// Says that benches are loaded for the chunks from a first one on, whose numbers fit 64 bits.
fn end_chunks(benches: &mut [Bench], first: u64)
    requires { first + length benches.old ≤ 2 ^ 48 }
    ensures loaded { (p : PlanOf) (rows : List Row) (count : ℕ) → IsPlan p → LoadsFirst p count
        → All (IsBegun p) benches.old → EachBench first (HasLoadedSteps p rows count) benches.old
        → EachBench first (LoadsBench p rows) benches.new }
    ensures count { length benches.new ≡ length benches.old }
{
    for index in 0..benches.len() {
        benches[index].end(first + index as u64);
    }
}

/// Loads the cells of a step that loads a collection, for each of the benches.
///
/// Refuses: where a look at a collection is refused.
fn load_step_of_all(
    plan: &Plan,
    benches: &mut [Bench],
    catalogue: &Catalogue,
    step: u32,
    looker: &mut Looker,
) -> Result<(), LookFail>
    requires step { step < length plan.now.order.steps }
    requires load { is_load_at plan.now step ≡ true }
    requires mounted { HasCollections plan.now.graph (rows_of seen catalogue.now) }
    requires begun { All (IsBegun plan.now) benches.old }
    requires asked { MayLook (seal_of catalogue.now)
        (length benches.old * cells_of_largest_window plan.now) looker.old }
    ensures loads { LoadsStep plan.now step (rows_of seen catalogue.now) benches.old benches.new
        result }
    ensures spent { OnOk result (SpendsAtMost
        (length benches.old * cells_of_largest_window plan.now) looker.old looker.new) }
{
    let mut first = 0;
    while first < benches.len() {
        let end = end_of_neighbours(benches, first, step);
        load_neighbours(plan, &mut benches[first..end], catalogue, step, looker)?;
        first = end;
    }
    Ok(())
}

/// The end of the benches from a first one on whose windows of a step stand beside one another along x.
fn end_of_neighbours(benches: &[Bench], first: usize, step: u32) -> usize
    requires first { first < length benches.now }
    requires step { All (λ bench. step < length bench.windows) benches.now }
    ensures some { first < result }
    ensures most { result ≤ length benches.now }
{
    for index in first + 1..benches.len() {
        if !is_beside(
            &benches[index - 1].window(step),
            &benches[index].window(step),
        ) {
            return index;
        }
    }
    benches.len()
}

/// Whether two windows differ along x alone, where the second begins and ends no earlier.
fn is_beside(one: &Window, next: &Window) -> bool {
    let beyond = one.x.from <= next.x.from && one.x.to <= next.x.to;
    beyond && one.t == next.t && one.bands == next.bands && one.y == next.y
}

/// Loads the cells of a step for neighbours: where that may be, row by row of the hull of their windows.
fn load_neighbours(
    plan: &Plan,
    benches: &mut [Bench],
    catalogue: &Catalogue,
    step: u32,
    looker: &mut Looker,
) -> Result<(), LookFail>
    requires step { step < length plan.now.order.steps }
    requires load { is_load_at plan.now step ≡ true }
    requires mounted { HasCollections plan.now.graph (rows_of seen catalogue.now) }
    requires begun { All (IsBegun plan.now) benches.old }
    requires asked { MayLook (seal_of catalogue.now)
        (length benches.old * cells_of_largest_window plan.now) looker.old }
    ensures loads { LoadsStep plan.now step (rows_of seen catalogue.now) benches.old benches.new
        result }
    ensures spent { OnOk result (SpendsAtMost
        (length benches.old * cells_of_largest_window plan.now) looker.old looker.new) }
{
    if benches.len() < 2 {
        return load_each(plan, benches, catalogue, step, looker);
    }
    let last = benches.len() - 1;
    let hull = hull(&benches[0].window(step), &benches[last].window(step));
    if is_readable(plan, step, benches.len(), &hull) && are_strips(plan, &hull, step, benches) {
        load_rows(plan, benches, catalogue, step, &hull, looker)
    } else {
        load_each(plan, benches, catalogue, step, looker)
    }
}

/// Whether a hull of the windows of a step for so many chunks may be read: it lies in the cube of the step's node, has
/// no more cells than their largest windows, and its row has room in the cells that a bench works with.
fn is_readable(plan: &Plan, step: u32, count: usize, hull: &Window) -> bool
    requires { step < length plan.now.order.steps }
    ensures { IsTrue result → IsReadable plan.now step count hull.now }
{
    let shape = plan.checked().shape(plan.node(step));
    // A cube has fewer than 2^64 cells.
    let _cells = shape.cells();
    if hull.is_empty() || !holds(&whole(shape), hull) {
        return false;
    }
    let most = (count as u64).saturating_mul(plan.largest());
    size(hull) <= most && u64::from(hull.x.to - hull.x.from) <= plan.scratch()
}

/// Whether the windows of a step are strips of a hull.
fn are_strips(plan: &Plan, hull: &Window, step: u32, benches: &[Bench]) -> bool
    requires step { step < length plan.now.order.steps }
    requires begun { All (IsBegun plan.now) benches.now }
    ensures { IsTrue result → All (IsStripped plan.now hull.now step) benches.now }
{
    for index in 0..benches.len() {
        if !is_strip(hull, &benches[index].window(step)) {
            return false;
        }
    }
    true
}

/// Loads the cells of a step for each bench by itself.
fn load_each(
    plan: &Plan,
    benches: &mut [Bench],
    catalogue: &Catalogue,
    step: u32,
    looker: &mut Looker,
) -> Result<(), LookFail>
    requires step { step < length plan.now.order.steps }
    requires load { is_load_at plan.now step ≡ true }
    requires mounted { HasCollections plan.now.graph (rows_of seen catalogue.now) }
    requires begun { All (IsBegun plan.now) benches.old }
    requires asked { MayLook (seal_of catalogue.now)
        (length benches.old * cells_of_largest_window plan.now) looker.old }
    ensures loads { LoadsStep plan.now step (rows_of seen catalogue.now) benches.old benches.new
        result }
    ensures spent { OnOk result (SpendsAtMost
        (length benches.old * cells_of_largest_window plan.now) looker.old looker.new) }
{
    for index in 0..benches.len() {
        benches[index].load_step(plan, catalogue, step, looker)?;
    }
    Ok(())
}

/// Looks at each row of a hull once, and deals it to the benches.
fn load_rows(
    plan: &Plan,
    benches: &mut [Bench],
    catalogue: &Catalogue,
    step: u32,
    hull: &Window,
    looker: &mut Looker,
) -> Result<(), LookFail>
    requires step { step < length plan.now.order.steps }
    requires load { is_load_at plan.now step ≡ true }
    requires mounted { HasCollections plan.now.graph (rows_of seen catalogue.now) }
    requires some { 0 < length benches.old }
    requires stripped { All (IsStripped plan.now hull.now step) benches.old }
    requires readable { IsReadable plan.now step (length benches.old) hull.now }
    requires asked { MayLook (seal_of catalogue.now)
        (length benches.old * cells_of_largest_window plan.now) looker.old }
    ensures loads { LoadsStep plan.now step (rows_of seen catalogue.now) benches.old benches.new
        result }
    ensures spent { OnOk result (SpendsAtMost
        (length benches.old * cells_of_largest_window plan.now) looker.old looker.new) }
{
    // What a plan gives shows that it is valid: its slots keep the steps that are live apart.
    let _slot = plan.slot(step);
    let place = place_of(plan, catalogue, step);
    for number in 0..hull.rows() {
        load_row(plan, benches, catalogue, step, place, hull, number, looker)?;
    }
    Ok(())
}

/// Looks at a row of a hull, in the collection of a row of the catalogue, and deals it to the benches.
fn load_row(
    plan: &Plan,
    benches: &mut [Bench],
    catalogue: &Catalogue,
    step: u32,
    place: u32,
    hull: &Window,
    number: u64,
    looker: &mut Looker,
) -> Result<(), LookFail>
    requires from { LoadsFrom plan.now (rows_of seen catalogue.now) step place }
    requires strips { AreStripped plan.now step hull.now benches.old }
    requires number { number < row_count hull.now }
    requires asked { MayLook (seal_of catalogue.now) (span_length hull.now.x) looker.old }
    ensures count { length benches.new ≡ length benches.old }
    ensures stripped { All (IsStripped plan.now hull.now step) benches.new }
    ensures loaded { LoadsRow plan.now (rows_of seen catalogue.now) step number benches.old
        benches.new result }
    ensures spent { SpendsAtMost (span_length hull.now.x) looker.old looker.new }
    ensures refused { TellsWhyAt plan.now (rows_of seen catalogue.now) step result }
{
    let row = hull.row(number);
    let (one, others) = benches.split_at_mut(1);
    one[0].look_row(plan, catalogue, step, place, &row, looker)?;
    one[0].take_own_row(plan, step, hull, number);
    let cells = one[0].scratch((hull.x.to - hull.x.from) as usize);
    deal_row(plan, others, step, hull, number, cells);
    Ok(())
}

/// Deals a hull's row of a number to benches.
fn deal_row(plan: &Plan, benches: &mut [Bench], step: u32, hull: &Window, number: u64, row: &[Cell])
    requires step { step < length plan.now.order.steps }
    requires stripped { All (IsStripped plan.now hull.now step) benches.old }
    requires number { number < row_count hull.now }
    requires row { length row.now ≡ span_length hull.now.x }
    ensures count { length benches.new ≡ length benches.old }
    ensures stripped { All (IsStripped plan.now hull.now step) benches.new }
    ensures loaded { BenchesTakeRow plan.now step hull.now number row.now benches.old benches.new }
{
    for index in 0..benches.len() {
        benches[index].take_row(plan, step, hull, number, row);
    }
}
