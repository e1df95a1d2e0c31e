// What holds of every plan.
ghost use denote.Param.Send.{IsSend, IsSync};
ghost use Rattle.oe_plan.specs.contracts.plan.Plan as plan;
ghost use Rattle.oe_plan.specs.Fits.{FitMemory};
ghost use Rattle.oe_plan.specs.Laws.{SchedulesServe};

/// Does nothing. Its contract says that two benches a worker, each of as many buffers of the largest window as the plan
/// is wide and of one for evaluations, have as many cells as the plan's bound, and that none of these numbers is large.
#[tactic(auto, using(crate::proofs::FitLemmas::fit_memory))]
pub fn plans_fit()
    ensures { FitMemory }
{}

/// Does nothing. Its contract says that an order of the nodes that a node of a run needs, of which one may be given, is
/// a schedule, and which windows serve one.
#[tactic(auto, using(crate::proofs::ScheduleLemmas::schedules_serve))]
pub fn schedules_serve()
    ensures { SchedulesServe }
{}

/// Does nothing. Its contract says that threads may share plans and hand them on.
#[tactic(auto, using(crate::proofs::CrossLemmas::plan_send, crate::proofs::CrossLemmas::plan_sync))]
pub fn plans_cross_threads()
    ensures send { IsSend plan.the_row }
    ensures sync { IsSync plan.the_row }
{}
