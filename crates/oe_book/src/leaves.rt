// Whether an argument without parts is this one.
ghost use Rattle.std.specs.Prelude.{◌≡◌, ◌↔◌, IsTrue};
ghost use Rattle.oe_graph.specs.Plain.{plain_arg};
ghost use Rattle.oe_graph.specs.Tree as tree;

use oe_dims::Text;
use oe_graph::Arg;

/// Whether it is null.
pub(crate) fn is_null(b: &Arg) -> bool
    ensures { IsTrue result ↔ tree.null ≡ plain_arg b.now }
{
    match b {
        Arg::Null => true,
        _ => false,
    }
}

/// Whether it is this flag.
pub(crate) fn is_flag(flag: bool, b: &Arg) -> bool
    ensures { IsTrue result ↔ tree.flag flag ≡ plain_arg b.now }
{
    match b {
        Arg::Flag(other) => flag == *other,
        _ => false,
    }
}

/// Whether it is this whole number.
pub(crate) fn is_whole(whole: i64, b: &Arg) -> bool
    ensures { IsTrue result ↔ tree.whole whole ≡ plain_arg b.now }
{
    match b {
        Arg::Whole(other) => whole == *other,
        _ => false,
    }
}

/// Whether it is a number that is no literal.
pub(crate) fn is_inexact(b: &Arg) -> bool
    ensures { IsTrue result ↔ tree.inexact ≡ plain_arg b.now }
{
    match b {
        Arg::Inexact => true,
        _ => false,
    }
}

/// Whether it is this text.
pub(crate) fn is_string(text: &Text, b: &Arg) -> bool
    ensures { IsTrue result ↔ tree.text text.now ≡ plain_arg b.now }
{
    match b {
        Arg::Str(other) => text == other,
        _ => false,
    }
}

/// Whether it is the result of the node of this id.
pub(crate) fn is_from_node(name: &Text, b: &Arg) -> bool
    ensures { IsTrue result ↔ tree.from_node name.now ≡ plain_arg b.now }
{
    match b {
        Arg::FromNode(other) => name == other,
        _ => false,
    }
}

/// Whether it is the parameter of this name.
pub(crate) fn is_from_parameter(name: &Text, b: &Arg) -> bool
    ensures { IsTrue result ↔ tree.from_parameter name.now ≡ plain_arg b.now }
{
    match b {
        Arg::FromParameter(other) => name == other,
        _ => false,
    }
}
