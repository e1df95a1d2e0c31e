// The arguments of a node by their names.
ghost use Rattle.std.specs.Prelude.{◌≡◌, option_map};
ghost use Rattle.oe_graph.specs.Plain.{plain_arg, plain_named};
ghost use Rattle.oe_graph.specs.References.{argument_named};

use crate::tree::Arg;
use oe_dims::Text;

/// The argument of a name, or the member of an object; `None` where none has it.
pub fn argument_named<'a>(arguments: &'a Vec<(Text, Arg)>, name: &str) -> Option<&'a Arg>
    ensures { option_map (λ a. plain_arg a.now) result
        ≡ argument_named name.now (plain_named arguments.now.items) }
{
    for entry in arguments {
        if entry.0.as_str() == name {
            return Some(&entry.1);
        }
    }
    None
}
