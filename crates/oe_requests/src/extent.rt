// Extents in time and in space, as requests give them.

/// A left-closed temporal extent (openEO Processes): from `start`, which is inside, to `end`, which is not, in seconds
/// since 1970-01-01T00:00:00Z. One that is missing does not limit.
#[derive(Clone, Copy, PartialEq, Eq)]
pub struct TemporalExtent {
    pub start: Option<i64>,
    pub end: Option<i64>,
}

/// A bounding box (openEO Processes) in the unit of the reference system with the code `epsg`, from 1 to 999999. Its
/// borders belong to it.
#[derive(Clone, Copy, PartialEq, Eq)]
pub struct BoundingBox {
    pub west: i64,
    pub south: i64,
    pub east: i64,
    pub north: i64,
    pub epsg: u32,
}

/// An interval of `aggregate_temporal` with the label that stands for it, in seconds since 1970-01-01T00:00:00Z.
#[derive(Clone, Copy, PartialEq, Eq)]
pub struct Interval {
    pub extent: TemporalExtent,
    pub label: i64,
}
