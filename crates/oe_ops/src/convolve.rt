// `apply_kernel`: the pixels around each one, weighted by a kernel.
ghost use Rattle.std.specs.Prelude.{◌≡◌, ◌∷◌, [], ◌<◌, length};
ghost use Rattle.std.specs.List.{All};
ghost use Rattle.oe_cell.specs.declared.cell.Cell.{Cell};
ghost use Rattle.oe_cell.specs.declared.cell.Cell.TheVariants.{Empty};
ghost use Rattle.oe_cube.specs.Kinds.{IsOfKind};
ghost use Rattle.oe_dims.specs.declared.kind.CellKind.TheVariants.{Numbers};
ghost use Rattle.oe_dims.specs.declared.kind.Kind.TheVariants.{X, Y};
ghost use Rattle.oe_meanings.specs.Meaning.{convolution};
ghost use Rattle.oe_requests.specs.Operations.{convolve};
ghost use Rattle.oe_window.specs.Cells.{cells_on};
ghost use Rattle.oe_window.specs.Windows.{Holds, IsIn, extent_along, whole_window};
ghost use Rattle.oe_ops.specs.Calls.{ForEachCube, HasRoomOn, IsSliceFor};
ghost use Rattle.oe_ops.specs.Needs.{Needs, plane_window};
ghost use Rattle.oe_ops.specs.Planes.{IsPlaneOf};
ghost use Rattle.oe_ops.specs.Slices.{IsCounted, at_indices};

use crate::slice::{Slice, indices, number};
use oe_cell::{Cell, Frac};
use oe_dims::{Kind, Shape};
use oe_kernel::{Border, Kernel, Plane, convolve_block};
use oe_window::{Window, size};

/// How many pixels a side has: one a label, or one where the dimension is missing.
fn side(shape: &Shape, along: Kind) -> u32
    ensures { result ≡ extent_along shape.now along }
{
    match shape.count(along) {
        None => 1,
        Some(count) => count,
    }
}

/// The plane of a slice of a cube of this shape, at an index of `t` and one of bands.
fn plane_of<'a>(shape: &Shape, slice: &Slice<'a>, t: u32, band: u32) -> Plane<'a>
    requires counted { IsCounted slice.now }
    requires inside { IsIn slice.now.window
        (at_indices t band slice.now.window.y.from slice.now.window.x.from) }
    ensures { IsPlaneOf slice.now (extent_along shape.now Y) (extent_along shape.now X)
        t band result }
{
    let window = &slice.window;
    let first = number(slice, t, band, window.y.from, window.x.from);
    let area = indices(window.y) * indices(window.x);
    Plane {
        cells: &slice.cells[first..first + area],
        from_x: window.x.from,
        to_x: window.x.to,
        from_y: window.y.from,
        to_y: window.y.to,
        side_x: side(shape, Kind::X),
        side_y: side(shape, Kind::Y),
    }
}

/// What a kernel makes of a cube of this shape on one plane of a window, from a slice of the cube.
fn convolve_plane(
    kernel: &Kernel,
    factor: Frac,
    border: &Border,
    replace: Frac,
    shape: &Shape,
    slice: &Slice,
    window: &Window,
    out: &mut [Cell],
)
    requires slice { IsSliceFor
        (Needs (convolve kernel.now factor border.now replace) (shape.now ∷ []) 0)
        window.now shape.now slice.now }
    requires inside { Holds (whole_window shape.now) slice.now.window }
    requires one { window.now ≡ plane_window window.now window.now.t.from window.now.bands.from }
    requires out { HasRoomOn shape.now window.now out.old }
    requires some { 0 < length out.old }
    ensures value { ForEachCube shape.now slice.now (λ cube. out.new
        ≡ cells_on Empty (convolution kernel.now factor border.now replace cube) window.now) }
    ensures kinds { All (IsOfKind Numbers) out.new }
{
    let _width = kernel.width();
    let plane = plane_of(shape, slice, window.t.from, window.bands.from);
    convolve_block(
        kernel,
        factor,
        *border,
        replace,
        &plane,
        window.x.from,
        window.y.from,
        window.y.to - window.y.from,
        window.x.to - window.x.from,
        out,
    );
}

/// What a kernel makes of a cube of this shape, on a window, from a slice of the cube (`apply_kernel` of openEO
/// Processes). A pixel that is null counts as `replace`.
pub fn eval_convolve(
    kernel: &Kernel,
    factor: Frac,
    border: Border,
    replace: Frac,
    shape: &Shape,
    slice: Slice,
    window: &Window,
    out: &mut [Cell],
)
    requires slice { IsSliceFor
        (Needs (convolve kernel.now factor border replace) (shape.now ∷ []) 0)
        window.now shape.now slice }
    requires inside { Holds (whole_window shape.now) slice.window }
    requires out { HasRoomOn shape.now window.now out.old }
    ensures value { ForEachCube shape.now slice.entry (λ cube. out.new
        ≡ cells_on Empty (convolution kernel.now factor border replace cube) window.now) }
    ensures kinds { All (IsOfKind Numbers) out.new }
{
    let mut done = 0;
    for number in 0..window.planes() {
        let plane = window.plane(number);
        let count = size(&plane) as usize;
        let part = &mut out[done..done + count];
        convolve_plane(
            kernel, factor, &border, replace, shape, &slice, &plane, part,
        );
        done += count;
    }
}
