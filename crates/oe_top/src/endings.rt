// The endings of commands as those of the call.
ghost use Rattle.std.specs.Prelude.{◌≡◌};
ghost use Rattle.oe_top.specs.Endings as spec;

use crate::check::CheckRefusal;
use crate::demo::DemoRefusal;
use crate::describe::{DescribeRefusal, UnwrittenCause};
use crate::evaluation::EvaluationFail;
use crate::join::JoinRefusal;
use crate::judge::InputRefusal;
use crate::pack::PackRefusal;
use crate::part::PartRefusal;
use crate::refusal::Refusal;
use crate::repack::RepackRefusal;
use crate::run::RunRefusal;
use crate::slab::SlabRefusal;
use crate::slab_plan::SlabPlanRefusal;

/// Why an input was refused.
fn of_input(refusal: InputRefusal) -> Refusal
    ensures { result ≡ spec.of_input refusal }
{
    match refusal {
        InputRefusal::Graph(fault) => Refusal::Graph(fault),
        InputRefusal::ReadFault => Refusal::ReadFault,
        InputRefusal::OutOfMemory => Refusal::OutOfMemory,
    }
}

/// Why the evaluation of a graph stopped.
fn of_evaluation(fail: EvaluationFail) -> Refusal
    ensures { result ≡ spec.of_evaluation fail }
{
    match fail {
        EvaluationFail::Overflow(number) => Refusal::Overflow(number),
        EvaluationFail::ReadFault => Refusal::ReadFault,
        EvaluationFail::Damaged { id, number } => Refusal::Damaged { id, number },
        EvaluationFail::SpoolFault => Refusal::SpoolFault,
        EvaluationFail::WriteFault => Refusal::WriteFault,
        EvaluationFail::SpoolDamaged(number) => Refusal::SpoolDamaged(number),
    }
}

/// Why `run` did not finish.
fn of_run(refusal: RunRefusal) -> Refusal
    ensures { result ≡ spec.of_run refusal }
{
    match refusal {
        RunRefusal::Input(refusal) => of_input(refusal),
        RunRefusal::TooLarge(cells) => Refusal::TooLarge(cells),
        RunRefusal::OutOfMemory => Refusal::OutOfMemory,
        RunRefusal::Stopped(fail) => of_evaluation(fail),
    }
}

/// Why `slab` did not finish.
fn of_slab(refusal: SlabRefusal) -> Refusal
    ensures { result ≡ spec.of_slab refusal }
{
    match refusal {
        SlabRefusal::Input(refusal) => of_input(refusal),
        SlabRefusal::NoTimeFold => Refusal::NoTimeFold,
        SlabRefusal::TooLarge(cells) => Refusal::TooLarge(cells),
        SlabRefusal::OutOfMemory => Refusal::OutOfMemory,
        SlabRefusal::Stopped(fail) => of_evaluation(fail),
    }
}

/// Why `part` did not finish.
fn of_part(refusal: PartRefusal) -> Refusal
    ensures { result ≡ spec.of_part refusal }
{
    match refusal {
        PartRefusal::Input(refusal) => of_input(refusal),
        PartRefusal::ChunkRange => Refusal::ChunkRange,
        PartRefusal::TooLarge(cells) => Refusal::TooLarge(cells),
        PartRefusal::OutOfMemory => Refusal::OutOfMemory,
        PartRefusal::Stopped(fail) => of_evaluation(fail),
    }
}

/// Why `join` did not finish.
fn of_join(refusal: JoinRefusal) -> Refusal
    ensures { result ≡ spec.of_join refusal }
{
    match refusal {
        JoinRefusal::Input(refusal) => of_input(refusal),
        JoinRefusal::Graph(name) => Refusal::PartGraph(name),
        JoinRefusal::Shape(name) => Refusal::PartShape(name),
        JoinRefusal::Sides(name) => Refusal::PartSides(name),
        JoinRefusal::Overlap(name) => Refusal::PartOverlap(name),
        JoinRefusal::Missing(chunk) => Refusal::ChunkMissing(chunk),
        JoinRefusal::OutOfMemory => Refusal::OutOfMemory,
        JoinRefusal::Damaged { name, number } => Refusal::PartDamaged { name, number },
        JoinRefusal::Stopped(fail) => of_evaluation(fail),
    }
}

/// Why `check` or `plan` did not finish.
fn of_check(refusal: CheckRefusal) -> Refusal
    ensures { result ≡ spec.of_check refusal }
{
    match refusal {
        CheckRefusal::Input(refusal) => of_input(refusal),
        CheckRefusal::WriteFault => Refusal::WriteFault,
        CheckRefusal::OutOfMemory => Refusal::OutOfMemory,
    }
}

/// Why `slabplan` did not finish.
fn of_slab_plan(refusal: SlabPlanRefusal) -> Refusal
    ensures { result ≡ spec.of_slab_plan refusal }
{
    match refusal {
        SlabPlanRefusal::Input(refusal) => of_input(refusal),
        SlabPlanRefusal::NoTimeFold => Refusal::NoTimeFold,
        SlabPlanRefusal::WriteFault => Refusal::WriteFault,
        SlabPlanRefusal::OutOfMemory => Refusal::OutOfMemory,
    }
}

/// Why `demo` did not finish.
fn of_demo(refusal: DemoRefusal) -> Refusal
    ensures { result ≡ spec.of_demo refusal }
{
    match refusal {
        DemoRefusal::TooLarge(cells) => Refusal::TooLarge(cells),
        DemoRefusal::OutOfMemory => Refusal::OutOfMemory,
        DemoRefusal::Stopped(fail) => of_evaluation(fail),
    }
}

/// Why `pack` did not finish.
fn of_pack(refusal: PackRefusal) -> Refusal
    ensures { result ≡ spec.of_pack refusal }
{
    match refusal {
        PackRefusal::NoCubeText => Refusal::NoCubeText,
        PackRefusal::ReadFault => Refusal::ReadFault,
        PackRefusal::WriteFault => Refusal::WriteFault,
        PackRefusal::OutOfMemory => Refusal::OutOfMemory,
    }
}

/// Why `repack` did not finish.
fn of_repack(refusal: RepackRefusal) -> Refusal
    ensures { result ≡ spec.of_repack refusal }
{
    match refusal {
        RepackRefusal::NotMounted => Refusal::NotMounted,
        RepackRefusal::ReadFault => Refusal::ReadFault,
        RepackRefusal::Damaged { id, number } => Refusal::Damaged { id, number },
        RepackRefusal::WriteFault => Refusal::WriteFault,
        RepackRefusal::OutOfMemory => Refusal::OutOfMemory,
    }
}

/// Why `describe` did not finish, where it lists all collections.
fn of_listing(cause: UnwrittenCause) -> Refusal
    ensures { result ≡ spec.of_listing cause }
{
    match cause {
        UnwrittenCause::WriteFault => Refusal::WriteFault,
        UnwrittenCause::OutOfMemory => Refusal::OutOfMemory,
    }
}

/// Why `describe` did not finish, where it describes one.
fn of_describe(refusal: DescribeRefusal) -> Refusal
    ensures { result ≡ spec.of_describe refusal }
{
    match refusal {
        DescribeRefusal::NotMounted => Refusal::NotMounted,
        DescribeRefusal::Unwritten(cause) => of_listing(cause),
    }
}

/// The ending of `run`.
pub(crate) fn ending_of_run(ended: Result<(), RunRefusal>) -> Result<(), Refusal>
    ensures { result ≡ spec.ending_of spec.of_run ended }
{
    match ended {
        Ok(()) => Ok(()),
        Err(refusal) => Err(of_run(refusal)),
    }
}

/// The ending of `slab`.
pub(crate) fn ending_of_slab(ended: Result<(), SlabRefusal>) -> Result<(), Refusal>
    ensures { result ≡ spec.ending_of spec.of_slab ended }
{
    match ended {
        Ok(()) => Ok(()),
        Err(refusal) => Err(of_slab(refusal)),
    }
}

/// The ending of `part`.
pub(crate) fn ending_of_part(ended: Result<(), PartRefusal>) -> Result<(), Refusal>
    ensures { result ≡ spec.ending_of spec.of_part ended }
{
    match ended {
        Ok(()) => Ok(()),
        Err(refusal) => Err(of_part(refusal)),
    }
}

/// The ending of `join`.
pub(crate) fn ending_of_join(ended: Result<(), JoinRefusal>) -> Result<(), Refusal>
    ensures { result ≡ spec.ending_of spec.of_join ended }
{
    match ended {
        Ok(()) => Ok(()),
        Err(refusal) => Err(of_join(refusal)),
    }
}

/// The ending of `check` or `plan`.
pub(crate) fn ending_of_check(ended: Result<(), CheckRefusal>) -> Result<(), Refusal>
    ensures { result ≡ spec.ending_of spec.of_check ended }
{
    match ended {
        Ok(()) => Ok(()),
        Err(refusal) => Err(of_check(refusal)),
    }
}

/// The ending of `slabplan`.
pub(crate) fn ending_of_slab_plan(ended: Result<(), SlabPlanRefusal>) -> Result<(), Refusal>
    ensures { result ≡ spec.ending_of spec.of_slab_plan ended }
{
    match ended {
        Ok(()) => Ok(()),
        Err(refusal) => Err(of_slab_plan(refusal)),
    }
}

/// The ending of `demo`.
pub(crate) fn ending_of_demo(ended: Result<(), DemoRefusal>) -> Result<(), Refusal>
    ensures { result ≡ spec.ending_of spec.of_demo ended }
{
    match ended {
        Ok(()) => Ok(()),
        Err(refusal) => Err(of_demo(refusal)),
    }
}

/// The ending of `pack`.
pub(crate) fn ending_of_pack(ended: Result<(), PackRefusal>) -> Result<(), Refusal>
    ensures { result ≡ spec.ending_of spec.of_pack ended }
{
    match ended {
        Ok(()) => Ok(()),
        Err(refusal) => Err(of_pack(refusal)),
    }
}

/// The ending of `repack`.
pub(crate) fn ending_of_repack(ended: Result<(), RepackRefusal>) -> Result<(), Refusal>
    ensures { result ≡ spec.ending_of spec.of_repack ended }
{
    match ended {
        Ok(()) => Ok(()),
        Err(refusal) => Err(of_repack(refusal)),
    }
}

/// The ending of `describe`, where it lists all collections.
pub(crate) fn ending_of_listing(ended: Result<(), UnwrittenCause>) -> Result<(), Refusal>
    ensures { result ≡ spec.ending_of spec.of_listing ended }
{
    match ended {
        Ok(()) => Ok(()),
        Err(cause) => Err(of_listing(cause)),
    }
}

/// The ending of `describe`, where it describes one.
pub(crate) fn ending_of_describe(ended: Result<(), DescribeRefusal>) -> Result<(), Refusal>
    ensures { result ≡ spec.ending_of spec.of_describe ended }
{
    match ended {
        Ok(()) => Ok(()),
        Err(refusal) => Err(of_describe(refusal)),
    }
}
