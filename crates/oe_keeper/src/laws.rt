// What holds of the jobs of every valid book.
ghost use Rattle.oe_keeper.specs.Laws as spec;

/// Does nothing. Its contract says that [`read_job`](crate::read_job) gives each job of a valid book again from its
/// entry, without its assets.
#[tactic(auto, using(crate::proofs::RestoreLemmas::jobs_are_restorable))]
pub fn jobs_are_restorable()
    ensures { spec.JobsAreRestorable }
{}
