//! Kernels over a plane of cells: `apply_kernel` of openEO Processes at one position.
//!
//! A [`Kernel`] is a window of exact numbers with odd sizes, a [`Border`] says what stands for pixels outside the
//! plane, and a [`Plane`] is the box of the plane that the caller has loaded. [`convolve_at`] reads nothing but that
//! box, and yet its answer is the cell that the definition gives for the whole plane: that is what the layers above
//! use. Nothing here takes memory.
#![tactic(auto)]

mod block;
mod border;
mod convolve;
mod halo;
mod kernel;
mod pixels;
mod plane;
mod rows;
mod strip;
mod sums;
mod total;

pub use block::convolve_block;
pub use border::{Border, border_index};
pub use convolve::convolve_at;
pub use kernel::{Kernel, KernelFault};
pub use plane::Plane;
pub use strip::convolve_row;
