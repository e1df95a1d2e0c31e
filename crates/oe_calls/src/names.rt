// Names and lists of them.
ghost use Rattle.std.specs.Prelude.{◌≡◌, ◌++◌, IfOk};
ghost use Rattle.std.specs.List.{list_any};
ghost use Rattle.oe_dims.specs.Names.{same_name};
ghost use Rattle.oe_calls.specs.PlainValues.{names_behind};

use oe_dims::same_text;
use oe_memory::OutOfMemory;
use std::alloc::Global;

/// Whether one of these is the name.
pub fn is_among(names: &[&'static str], name: &str) -> bool
    ensures { result ≡ list_any (same_name name.now) (names_behind names.now) }
{
    for one in names {
        if same_text(name, *one) {
            return true;
        }
    }
    false
}

/// These names and the others. Refuses: out of memory.
pub fn join_names(
    alloc: Global,
    names: &[&'static str],
    others: &[&'static str],
) -> Result<Vec<&'static str>, OutOfMemory>
    ensures { IfOk result (λ v. v.items ≡ names.now ++ others.now) }
{
    let mut both = Vec::with_capacity(alloc, 4)?;
    for name in names {
        both.push(*name)?;
    }
    for name in others {
        both.push(*name)?;
    }
    Ok(both)
}
