// Bounding boxes, as arguments give them.
ghost use Rattle.std.specs.Prelude.{◌≡◌, ◌&&◌, true, map};
ghost use Rattle.std.specs.List.{list_any, list_all};
ghost use Rattle.std.specs.Option.{option_map, option_map_or, option_and_then};
ghost use Rattle.oe_dims.specs.Names.{is_byte_in, same_name};
ghost use Rattle.oe_dims.specs.Dimensions.{all_differ};
ghost use Rattle.oe_graph.specs.Plain.{plain_arg, plain_named};
ghost use Rattle.oe_graph.specs.Printed.{names_of};
ghost use Rattle.oe_graph.specs.References.{argument_named};
ghost use Rattle.oe_graph.specs.Tree as tree;
ghost use Rattle.oe_expr.specs.Requests.{is_null, read};
ghost use Rattle.oe_requests.specs.Parameters as spec;

use crate::extent::BoundingBox;
use crate::parameter::whole_in;
use oe_dims::{Text, same_name};
use oe_graph::{Arg, argument_named};

/// The largest code of a reference system.
const LARGEST_EPSG: u32 = 999_999;

// ---- reference systems

/// A decimal digit.
fn is_digit(byte: u8) -> bool
    ensures { result ≡ spec.is_digit byte }
{
    b'0' <= byte && byte <= b'9'
}

/// A decimal digit other than 0.
fn is_first_digit(byte: u8) -> bool
    ensures { result ≡ is_byte_in 49 57 byte }
{
    b'1' <= byte && byte <= b'9'
}

/// All bytes are digits.
fn are_digits(bytes: &[u8]) -> bool
    ensures { result ≡ list_all spec.is_digit bytes.now }
{
    bytes.iter().all(|byte| is_digit(*byte))
}

/// The first byte is a digit other than 0, and the others are digits.
fn is_decimal(digits: &[u8]) -> bool
    ensures { result ≡ spec.is_decimal digits.now }
{
    match digits.split_first() {
        Some((first, rest)) => is_first_digit(*first) && are_digits(rest),
        None => false,
    }
}

/// The code that decimal digits spell, none above the largest.
fn digits_value(digits: &[u8]) -> Option<u32>
    requires { list_all spec.is_digit digits.now ≡ true }
    ensures { result ≡ spec.where_it spec.is_epsg (spec.digits_value digits.now) }
{
    let mut value = 0;
    for digit in digits {
        value = value * 10 + u32::from(*digit - b'0');
        if LARGEST_EPSG < value {
            return None;
        }
    }
    if value == 0 {
        return None;
    }
    Some(value)
}

/// The number n of a text `EPSG:n`.
fn spelled_epsg(text: &str) -> Option<u32>
    ensures { result ≡ spec.spelled_epsg text.now }
{
    let bytes = text.as_bytes();
    if bytes.len() <= 5 {
        return None;
    }
    let (prefix, digits) = bytes.split_at(5);
    if prefix == b"EPSG:".as_slice() && is_decimal(digits) {
        digits_value(digits)
    } else {
        None
    }
}

/// A whole number that is a code.
fn epsg_of(whole: i64) -> Option<u32>
    ensures { result ≡ spec.epsg_in (tree.whole whole) }
{
    if 1 <= whole && whole <= i64::from(LARGEST_EPSG) {
        Some(whole as u32)
    } else {
        None
    }
}

/// A reference system: an EPSG code from 1 to 999999, as a number or as a text.
fn epsg_in(arg: &Arg) -> Option<u32>
    ensures { result ≡ spec.epsg_in (plain_arg arg.now) }
{
    match arg {
        Arg::Whole(whole) => epsg_of(*whole),
        Arg::Str(text) => spelled_epsg(text.as_str()),
        _ => None,
    }
}

/// The reference system of a box, 4326 where none is given.
fn crs_of(members: &Vec<(Text, Arg)>) -> Option<u32>
    ensures { result ≡ spec.crs_of (plain_named members.now.items) }
{
    match argument_named(members, "crs") {
        Some(arg) => epsg_in(arg),
        None => Some(4326),
    }
}

// ---- members

/// A name that a member of a box may have.
fn is_box_member(name: &str) -> bool
    ensures { result ≡ list_any (same_name name.now) spec.box_members }
{
    name == "west"
        || name == "south"
        || name == "east"
        || name == "north"
        || name == "crs"
        || name == "base"
        || name == "height"
}

/// There are no other members than a box may have.
fn are_box_members(members: &[(Text, Arg)]) -> bool
    ensures { result
        ≡ list_all (λ m. list_any (same_name m.0) spec.box_members) members.now }
{
    members
        .iter()
        .all(|member| is_box_member(member.0.as_str()))
}

/// A member has this name.
fn is_named(name: &Text, members: &[(Text, Arg)]) -> bool
    ensures { result ≡ list_any (λ m. same_name name.now m.0) members.now }
{
    members.iter().any(|member| same_name(name, &member.0))
}

/// No two members have the same name.
fn names_differ(members: &[(Text, Arg)]) -> bool
    ensures { result ≡ all_differ (map (λ m. m.0) members.now) }
{
    let mut rest = members;
    while let Some((first, others)) = rest.split_first() {
        if is_named(&first.0, others) {
            return false;
        }
        rest = others;
    }
    true
}

/// The members have names that those of a box may have, and none of them twice.
fn have_box_names(members: &[(Text, Arg)]) -> bool
    ensures { result ≡ (list_all (λ m. list_any (same_name m.0) spec.box_members) members.now
        && all_differ (map (λ m. m.0) members.now)) }
{
    are_box_members(members) && names_differ(members)
}

/// The member of a name is null or missing.
fn is_null_or_missing(members: &Vec<(Text, Arg)>, name: &str) -> bool
    ensures { result ≡ option_map_or is_null
        (argument_named name.now (plain_named members.now.items)) true }
{
    match argument_named(members, name) {
        Some(Arg::Null) => true,
        Some(_) => false,
        None => true,
    }
}

/// The box has neither a base nor a height.
fn lacks_height(members: &Vec<(Text, Arg)>) -> bool
    ensures { result ≡ spec.lacks_height (plain_named members.now.items) }
{
    is_null_or_missing(members, "base") && is_null_or_missing(members, "height")
}

/// The members are those of a box without a base and a height.
fn is_flat_box(members: &Vec<(Text, Arg)>) -> bool
    ensures { result ≡ spec.is_flat_box (plain_named members.now.items) }
{
    have_box_names(members.as_slice()) && lacks_height(members)
}

// ---- boxes

/// A border of a box.
fn side_of(members: &Vec<(Text, Arg)>, name: &str) -> Option<i64>
    ensures { result ≡ spec.side_of name.now (plain_named members.now.items) }
{
    whole_in(argument_named(members, name)?)
}

/// The box of its members.
fn box_of(members: &Vec<(Text, Arg)>) -> Option<BoundingBox>
    ensures { result ≡ spec.bounding_box_of (plain_named members.now.items) }
{
    let west = side_of(members, "west")?;
    let south = side_of(members, "south")?;
    let east = side_of(members, "east")?;
    let north = side_of(members, "north")?;
    let epsg = crs_of(members)?;
    Some(BoundingBox {
        west,
        south,
        east,
        north,
        epsg,
    })
}

/// The borders stand in their order.
fn is_box(area: &BoundingBox) -> bool
    ensures { result ≡ spec.is_box area.now }
{
    area.west <= area.east && area.south <= area.north
}

/// The box of an object.
fn area_of(members: &Vec<(Text, Arg)>) -> Option<BoundingBox>
    ensures { result ≡ spec.box_in (tree.object (plain_named members.now.items)) }
{
    if !is_flat_box(members) {
        return None;
    }
    let area = box_of(members)?;
    if is_box(&area) { Some(area) } else { None }
}

/// A bounding box: whole numbers `west`, `south`, `east` and `north`, of which west is not above east and south not
/// above north, and perhaps a reference system.
fn box_in(arg: &Arg) -> Option<BoundingBox>
    ensures { result ≡ spec.box_in (plain_arg arg.now) }
{
    match arg {
        Arg::Object(members) => area_of(members),
        _ => None,
    }
}

pub(crate) fn box_at(arguments: &Vec<(Text, Arg)>, name: &str) -> Option<BoundingBox>
    ensures { result ≡ read spec.box_in name.now (plain_named arguments.now.items) }
{
    box_in(argument_named(arguments, name)?)
}

/// A box or null.
pub(crate) fn box_or_null_at(
    arguments: &Vec<(Text, Arg)>,
    name: &str,
) -> Option<Option<BoundingBox>>
    ensures { result
        ≡ read (spec.null_or spec.box_in) name.now (plain_named arguments.now.items) }
{
    match argument_named(arguments, name)? {
        Arg::Null => Some(None),
        Arg::Object(members) => Some(Some(area_of(members)?)),
        _ => None,
    }
}
