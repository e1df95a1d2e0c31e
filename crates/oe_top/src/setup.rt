// What a command goes by.
use oe_outside::Gate;
use std::alloc::Global;
use std::thread::Threads;

/// What stays as it is while a command is carried out: what its threads come from and its memory, and the gate that the
/// chunks of its runs pass.
#[derive(Drop)]
pub struct Setup<'a, R: Threads + Sync, G: Gate> {
    pub rt: &'a R,
    pub alloc: Global,
    pub gate: &'a G,
}
