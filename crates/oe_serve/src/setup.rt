// What a server goes by.
use oe_outside::Gate;
use oe_routes::Site;
use std::alloc::Global;
use std::thread::Threads;

/// What stays as it is while a server runs: what its threads come from and its memory, where it is found and who its
/// users are, and the gate that the chunks of its runs pass.
#[derive(Drop)]
pub struct Setup<'a, R: Threads + Sync, G: Gate> {
    pub rt: &'a R,
    pub alloc: Global,
    pub site: &'a Site,
    pub gate: &'a G,
}
