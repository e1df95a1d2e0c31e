// The rows of a hull, of which each window that is a strip of it takes its part.
ghost use Rattle.std.specs.Prelude.{◌≡◌, ◌<◌, ◌≤◌, ◌+◌, ◌++◌, IsTrue, drop, length, take};
ghost use Rattle.oe_steps.specs.Steps.{HaveRoomFor, KeepsOthers};
ghost use Rattle.oe_steps.specs.Buffers.{lists_of};
ghost use Rattle.oe_steps.specs.Strips.{IsStripOf, TakesRow};
ghost use Rattle.oe_plan.specs.Schedules.{AreWindowsFor, IsSchedule};
ghost use Rattle.oe_plan.specs.Windows.{window_at};
ghost use Rattle.oe_window.specs.Parts.{row_count};
ghost use Rattle.oe_window.specs.Windows.{span_length};

use oe_cell::Cell;
use oe_check::Checked;
use oe_plan::Schedule;
use oe_window::Window;

/// Says yes only where a window has positions and differs from a hull along x alone, where its indices are some of the
/// hull's.
pub fn is_strip(hull: &Window, window: &Window) -> bool
    ensures { IsTrue result → IsStripOf hull.now window.now }
{
    if window.is_empty() || window.t != hull.t || window.bands != hull.bands || window.y != hull.y {
        return false;
    }
    hull.x.from <= window.x.from && window.x.to <= hull.x.to
}

/// Writes cells over those of a buffer, from an index on.
fn write_at(buffer: &mut [Cell], at: usize, cells: &[Cell])
    requires { at + length cells.now ≤ length buffer.old }
    ensures { buffer.new ≡ take at buffer.old
        ++ (cells.now ++ drop (at + length cells.now) buffer.old) }
{
    buffer[at..at + cells.len()].copy_from_slice(cells);
}

/// Writes what the window of a step takes of a hull's row behind the rows before it, into the buffer of the step's
/// slot. The buffers of the other slots stay as they are.
pub fn take_part(
    checked: &Checked,
    schedule: &Schedule,
    step: u32,
    hull: &Window,
    number: u64,
    row: &[Cell],
    windows: &[Window],
    buffers: &mut [Vec<Cell>],
)
    requires schedule { IsSchedule checked.now schedule.now }
    requires step { step < length schedule.now.order.steps }
    requires windows { AreWindowsFor checked.now schedule.now windows.now }
    requires room { HaveRoomFor schedule.now (lists_of buffers.old) }
    requires strip { IsStripOf hull.now (window_at windows.now step) }
    requires number { number < row_count hull.now }
    requires row { length row.now ≡ span_length hull.now.x }
    ensures room { HaveRoomFor schedule.now (lists_of buffers.new) }
    ensures others { KeepsOthers schedule.now step (lists_of buffers.old) (lists_of buffers.new) }
    ensures loaded { TakesRow checked.now schedule.now step hull.now number row.now windows.now
        (lists_of buffers.old) (lists_of buffers.new) }
{
    let slot = schedule.slot(step);
    let x = windows[step as usize].x;
    let count = (x.to - x.from) as usize;
    let start = (x.from - hull.x.from) as usize;
    let buffer = buffers[slot as usize].as_mut_slice();
    write_at(buffer, number as usize * count, &row[start..start + count]);
}
