// Buffers and windows before any chunk.
ghost use Rattle.std.specs.Prelude.{IfOk};
ghost use Rattle.oe_steps.specs.Buffers.{AreOfSize, lists_of};
ghost use Rattle.oe_window.specs.Windows.{IsEmpty};

use oe_cell::Cell;
use oe_memory::OutOfMemory;
use oe_window::{Span, Window};
use std::alloc::Global;

/// The window without a position.
pub fn empty_window() -> Window
    ensures { IsEmpty result }
{
    let span = Span { from: 0, to: 0 };
    Window {
        t: span,
        bands: span,
        y: span,
        x: span,
    }
}

/// So many buffers of so many cells each. Refuses: out of memory.
#[tactic(auto, using(crate::proofs::BufferLemmas::one_more, crate::proofs::BufferLemmas::none_of_size))]
pub fn buffers_of(alloc: Global, count: usize, cells: usize) -> Result<Vec<Vec<Cell>>, OutOfMemory>
    ensures { IfOk result (λ buffers. AreOfSize (lists_of buffers.items) count cells) }
{
    let mut buffers = Vec::with_capacity(alloc, count)?;
    for _ in 0..count {
        buffers.push(vec![in alloc; Cell::Empty; cells]?)?;
    }
    Ok(buffers)
}
