// Several parts, in the order of their files.
ghost use Rattle.std.specs.Prelude.{◌≡◌, ◌↔◌, ◌++◌, ◌∷◌, ◌<◌, ◌≤◌, [], Err, length, slice_get, IfSome, OnOk, OnErr};

use crate::part::RunPart;
use oe_dims::Text;
use oe_outside::Store;
use std::alloc::Global;
use std::marker::Model;

/// The most parts that are put together.
pub const MOST_PARTS: usize = 1024;

/// Parts in the order of their files, 1024 at most.
#[derive(Drop)]
pub struct RunParts<S: Store + Drop> {
    pub(crate) items: Vec<RunPart<S>>,
}

/// Why a part was not added.
#[derive(Clone, Copy, PartialEq, Eq)]
pub enum PushFail {
    /// There are 1024 already.
    Full,
    /// An allocation was refused.
    OutOfMemory,
}

impl<S: Store + Drop> Model for RunParts<S> {
    ghost use Rattle.std.specs.Prelude.{◌≤◌, List, length};
    ghost use Rattle.oe_parts.specs.Parts.{PartState};

    ghost Value = { List PartState };

    ghost view = { λ p. p.items.items };

    ghost invariant = { λ p. length p.items.items ≤ 1024 };
}

impl<S: Store + Drop> RunParts<S> {
    /// No parts. It takes no memory before the first one is added.
    pub fn new(alloc: Global) -> RunParts<S>
        ensures { result ≡ [] }
    {
        RunParts {
            items: Vec::new(alloc),
        }
    }

    /// Adds a part behind the others.
    ///
    /// Refuses: `Full` exactly where there are 1024; `OutOfMemory` where an allocation was refused. Then there are the
    /// parts that there were.
    pub fn push(&mut self, part: RunPart<S>) -> Result<(), PushFail>
        ensures added { OnOk result (self.new ≡ self.old ++ part ∷ []) }
        ensures kept { OnErr result (self.new ≡ self.old) }
        ensures full { (result ≡ Err PushFail.Full) ↔ (length self.old ≡ 1024) }
    {
        if self.items.len() >= MOST_PARTS {
            return Err(PushFail::Full);
        }
        match self.items.push(part) {
            Ok(()) => Ok(()),
            Err(_) => Err(PushFail::OutOfMemory),
        }
    }

    /// How many there are.
    pub fn count(&self) -> usize
        ensures { result ≡ length self.now }
    {
        self.items.len()
    }

    /// The name of the file of the part at an index.
    pub fn name(&self, index: usize) -> &Text
        requires { index < length self.now }
        ensures value { IfSome (slice_get self.now index) (λ part. result.now ≡ part.name) }
        ensures short { length result.now ≤ 64 }
    {
        self.items[index].name()
    }
}
