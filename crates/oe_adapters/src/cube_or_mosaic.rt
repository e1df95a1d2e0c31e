// What a file of the folder `collections` is.
use oe_mosaic::Mosaic;
use oe_sources::CubeSource;

/// One collection, or a mosaic of several. It is no collection itself: whoever mounts it boxes what it holds, so that no
/// source stands between a catalogue and the cube or the mosaic which counts the cells that are asked of it.
#[derive(Drop)]
pub enum CubeOrMosaic<S: CubeSource> {
    Cube(S),
    Mosaic(Mosaic<S>),
}
