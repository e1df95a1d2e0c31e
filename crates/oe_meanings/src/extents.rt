// Which labels lie inside extents, and extents in which none can.
ghost use Rattle.std.specs.Prelude.{◌≡◌};
ghost use Rattle.std.specs.List.{list_any};
ghost use Rattle.oe_requests.specs.Extents as spec;
ghost use Rattle.oe_meanings.specs.Rows as row;

use oe_dims::Shape;
use oe_requests::{BoundingBox, Interval, TemporalExtent};

/// The instant lies inside the extent.
pub fn is_in_time(extent: TemporalExtent, label: i64) -> bool
    ensures { result ≡ spec.is_in_time extent label }
{
    let has_begun = match extent.start {
        None => true,
        Some(start) => start <= label,
    };
    let has_not_ended = match extent.end {
        None => true,
        Some(end) => label < end,
    };
    has_begun && has_not_ended
}

/// The end of the extent is not later than its start.
pub fn is_empty_extent(extent: TemporalExtent) -> bool
    ensures { result ≡ spec.is_empty_extent extent }
{
    match (extent.start, extent.end) {
        (Some(start), Some(end)) => end <= start,
        _ => false,
    }
}

/// One of the intervals is empty.
pub fn has_empty_interval(intervals: &[Interval]) -> bool
    ensures { result ≡ list_any (λ i. spec.is_empty_extent i.extent) intervals.now }
{
    intervals
        .iter()
        .any(|interval| is_empty_extent(interval.extent))
}

/// The label along x lies inside the box.
pub fn is_across(area: BoundingBox, label: i64) -> bool
    ensures { result ≡ spec.is_across area label }
{
    area.west <= label && label <= area.east
}

/// The label along y lies inside the box.
pub fn is_up(area: BoundingBox, label: i64) -> bool
    ensures { result ≡ spec.is_up area label }
{
    area.south <= label && label <= area.north
}

/// The reference system of the box is not that of the cube.
pub fn is_in_another(shape: &Shape, area: BoundingBox) -> bool
    ensures { result ≡ row.is_in_another shape.now area }
{
    area.epsg != shape.epsg()
}
