// What holds of every time cut, and of every run that is folded slab by slab.
ghost use Rattle.oe_slab.specs.Laws.{BeginAndEnd, CutsAreOne, CutsFold, CutsPart};

/// Does nothing. Its contract says that a time cut takes one cube and parts its run: each node of the run stands before
/// it or behind it, and none does both. A run has one time cut at most.
#[tactic(auto, using(crate::proofs::LawLemmas::cuts_part, crate::proofs::LawLemmas::cuts_are_one))]
pub fn cuts_part_their_runs()
    ensures parted { CutsPart }
    ensures one { CutsAreOne }
{}

/// Does nothing. Its contract says that on each plane of the cube that a time cut gives, a cell is the reduction of the
/// cells of the cube that it takes, by date.
#[tactic(auto, using(crate::proofs::MeaningLemmas::cuts_fold))]
pub fn cuts_fold_by_date()
    ensures { CutsFold }
{}

/// Does nothing. Its contract says what a run has done before its first round, and that after the last one it has found
/// the least number of a cell of the result that is `Over`.
#[tactic(auto, using(crate::proofs::EndLemmas::begin_and_end))]
pub fn slab_over_is_of_the_result()
    ensures { BeginAndEnd }
{}
