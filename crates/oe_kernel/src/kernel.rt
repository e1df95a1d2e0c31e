// The window of numbers that is laid over each pixel.
ghost use Rattle.std.specs.Prelude.{◌≡◌, ◌<◌, ◌≤◌, ◌+◌, ◌-◌, ◌*◌, ℕ, min, Some, IfOk, vec_len, length, slice_get};
ghost use Rattle.std.specs.Result.{result_err};
ghost use Rattle.std.specs.List.{slice_range};
ghost use Rattle.oe_kernel.specs.Borders.{IsNear, IsWrap};
ghost use Rattle.oe_kernel.specs.Convolution.{CoversWindow, IsPositionIn, longest_side};
ghost use Rattle.oe_kernel.specs.Kernels.{KernelValues, IsKernel, kernel_fault, radius_of};

use crate::Border;
use crate::halo::with_halo;
use oe_cell::Frac;
use std::marker::Model;

/// The largest width and height of a kernel.
const LARGEST_SIZE: u32 = 31;

/// Why numbers are no kernel.
#[derive(Clone, Copy, PartialEq, Eq)]
pub enum KernelFault {
    /// There are not width times height values.
    LengthDiffers,
    /// The width or the height is even.
    Uneven,
    /// The width or the height is over 31.
    TooLarge,
}

/// A kernel of `apply_kernel` of openEO Processes: an odd width and height from 1 to 31, and a number for each row and
/// column.
pub struct Kernel {
    width: u32,
    height: u32,
    values: Vec<Frac>,
}

impl Model for Kernel {
    ghost use Rattle.oe_kernel.specs.Kernels.{KernelValues};

    ghost Value = { KernelValues };

    ghost use Rattle.oe_kernel.specs.Kernels.{IsKernel};

    ghost view = { λ k. record { width = k.width; height = k.height; values = k.values.items } };

    ghost invariant = { λ k. IsKernel (record { width = k.width; height = k.height; values = k.values.items }) };
}

/// Written out, so that a kernel that ends is one call wherever it does.
impl Drop for Kernel {
    fn drop(self) {
        let Kernel {
            width: _,
            height: _,
            values: _,
        } = self;
    }
}

impl Kernel {
    /// The kernel with this many values in a row and in a column, and the values row by row from the first. Takes no
    /// memory.
    ///
    /// Refuses: with the first fault that stands, in the order of [`KernelFault`].
    pub fn new(width: u32, height: u32, values: Vec<Frac>) -> Result<Kernel, KernelFault>
        ensures ok { IfOk result (λ k. k
            ≡ record { width = width; height = height; values = values.items }) }
        ensures fault { result_err result ≡ kernel_fault width height (vec_len values) }
    {
        if values.len() as u64 != u64::from(width) * u64::from(height) {
            return Err(KernelFault::LengthDiffers);
        }
        if width % 2 == 0 || height % 2 == 0 {
            return Err(KernelFault::Uneven);
        }
        if LARGEST_SIZE < width || LARGEST_SIZE < height {
            return Err(KernelFault::TooLarge);
        }
        Ok(Kernel {
            width,
            height,
            values,
        })
    }

    /// How many values a row has, an odd number from 1 to 31.
    pub fn width(&self) -> u32
        ensures value { result ≡ self.now.width }
        ensures valid { IsKernel self.now }
    {
        self.width
    }

    /// How many values a column has, an odd number from 1 to 31.
    pub fn height(&self) -> u32
        ensures value { result ≡ self.now.height }
        ensures valid { IsKernel self.now }
    {
        self.height
    }

    /// How far the kernel reaches along `x`, to each side: (width − 1) / 2, which is 0 to 15.
    pub fn radius_x(&self) -> u32
        ensures value { result ≡ radius_of self.now.width }
        ensures valid { IsKernel self.now }
    {
        (self.width - 1) / 2
    }

    /// How far the kernel reaches along `y`, to each side: (height − 1) / 2, which is 0 to 15.
    pub fn radius_y(&self) -> u32
        ensures value { result ≡ radius_of self.now.height }
        ensures valid { IsKernel self.now }
    {
        (self.height - 1) / 2
    }

    /// What the kernel reads along `x` for the pixels at `x` from `from` to before `to`: the first column and the one
    /// after the last, of a side of at most 65536. For [`Border::Wrap`] that is the whole side, for the other rules
    /// what the windows have of the side.
    pub fn need_x(&self, border: Border, side: u32, from: u32, to: u32) -> (u32, u32)
        requires side_most { side ≤ longest_side }
        requires order { from < to }
        requires within { to ≤ side }
        // a box that has them has each column that the rule gives, also where a window passes both ends of the side
        ensures covers { (at first end : ℕ) → IsPositionIn from to at → first ≤ result.0
            → result.1 ≤ end → CoversWindow border at self.now.width side first end }
        // they are columns of the side, and those of the pixels are among them
        ensures before { result.0 ≤ from }
        ensures after { to ≤ result.1 }
        ensures on_side { result.1 ≤ side }
        // and no more of the side than that
        ensures first { IsNear border → result.0 ≡ from - radius_of self.now.width }
        ensures end { IsNear border → result.1 ≡ min side (to + radius_of self.now.width) }
        ensures whole { IsWrap border → (result.0 ≡ 0) × (result.1 ≡ side) }
    {
        with_halo(border, self.width, side, from, to)
    }

    /// What the kernel reads along `y` for the pixels at `y` from `from` to before `to`: the first row and the one
    /// after the last, of a side of at most 65536. For [`Border::Wrap`] that is the whole side, for the other rules
    /// what the windows have of the side.
    pub fn need_y(&self, border: Border, side: u32, from: u32, to: u32) -> (u32, u32)
        requires side_most { side ≤ longest_side }
        requires order { from < to }
        requires within { to ≤ side }
        // a box that has them has each row that the rule gives, also where a window passes both ends of the side
        ensures covers { (at first end : ℕ) → IsPositionIn from to at → first ≤ result.0
            → result.1 ≤ end → CoversWindow border at self.now.height side first end }
        // they are rows of the side, and those of the pixels are among them
        ensures before { result.0 ≤ from }
        ensures after { to ≤ result.1 }
        ensures on_side { result.1 ≤ side }
        // and no more of the side than that
        ensures first { IsNear border → result.0 ≡ from - radius_of self.now.height }
        ensures end { IsNear border → result.1 ≡ min side (to + radius_of self.now.height) }
        ensures whole { IsWrap border → (result.0 ≡ 0) × (result.1 ≡ side) }
    {
        with_halo(border, self.height, side, from, to)
    }

    /// The value in a row and a column, both counted from 0.
    pub fn value(&self, row: u32, column: u32) -> Frac
        requires row_in { row < self.now.height }
        requires column_in { column < self.now.width }
        ensures value { slice_get self.now.values (row * self.now.width + column) ≡ Some result }
        ensures valid { IsKernel self.now }
    {
        self.values[(row * self.width + column) as usize]
    }

    /// The values, row by row.
    pub(crate) fn values(&self) -> &[Frac]
        ensures value { result.now ≡ self.now.values }
        ensures valid { IsKernel self.now }
    {
        &self.values
    }

    /// The values of a row.
    pub(crate) fn row(&self, row: u32) -> &[Frac]
        requires { row < self.now.height }
        ensures value { result.now
            ≡ slice_range self.now.values (row * self.now.width)
            (row * self.now.width + self.now.width) }
        ensures len { length result.now ≡ self.now.width }
        ensures valid { IsKernel self.now }
    {
        let start = (row * self.width) as usize;
        &self.values[start..start + self.width as usize]
    }
}
