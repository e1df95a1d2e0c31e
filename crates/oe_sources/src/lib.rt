//! Collections: cubes in memory, generated cubes and cube files, read window by window, and the catalogue of them.
//!
//! A [`CubeSource`] is a collection with a shape and a kind whose cells are read by windows; contracts see its contents
//! where they are visible, its damaged positions, its fault counter and how many cells were asked of it.
//! [`MemoryCube`] and [`FileSource`] are such sources, and a [`Catalogue`] has them, or a [`GeneratedCube`], under
//! their ids. A look gives the cells and counts nothing, so that several threads may look at once; a look that was
//! asked for and whose fault is counted is a read. A [`Permit`] for looks and the fault of one are of the catalogue
//! whose seal they have. [`pack`] writes a cube file, [`repack`] writes that of a mounted collection, and
//! [`FileSource::open`] reads both versions. The layers above use that a read which answers `Ok` gave the visible
//! cells, and that mounting, detaching and replacing change one id and leave all else.
#![tactic(auto)]

mod catalogue;
mod file_source;
mod gather;
mod generated_cube;
mod head;
mod laws;
mod memory_cube;
mod packing;
mod permit;
mod repacking;
mod sections;
mod source;
mod stored;

pub use catalogue::{Catalogue, MountFail};
pub use file_source::{FileSource, OpenFail};
pub use generated_cube::GeneratedCube;
pub use laws::{collections_stay, ids_are_valid, outlines_stay, reads_are_counted};
pub use memory_cube::MemoryCube;
pub use packing::{PackFail, pack};
pub use permit::{Looker, Looking, Permit};
pub use repacking::{RepackFail, repack};
pub use source::{CubeSource, LookFail, ReadFault, SharedSource, SourceFail, split_fault};
