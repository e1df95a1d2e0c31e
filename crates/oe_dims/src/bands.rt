// Bands found by their names in few steps.
ghost use Rattle.std.specs.Prelude.{IfOk};
ghost use Rattle.oe_dims.specs.Dimensions.{band_names};
ghost use Rattle.oe_dims.specs.Indices.{IsIndexOf};
ghost use Rattle.oe_dims.specs.Names.{OrdersNames};

use crate::distinct::{find_in_order, sort_indices};
use crate::{Shape, Text};
use oe_memory::OutOfMemory;
use std::alloc::Global;
use std::marker::Model;

/// The bands of a shape in the byte order of their names, put into order once to find many of them.
#[derive(Drop)]
pub struct BandIndex {
    order: Vec<u16>,
}

impl Model for BandIndex {
    ghost use Rattle.std.specs.Prelude.{ℕ, List};

    ghost Value = { List ℕ };

    ghost view = { λ b. b.order.items };
}

impl BandIndex {
    /// The bands of this shape. Contracts see them as their indices, in the byte order of the names. Refuses: out of
    /// memory.
    pub fn of(alloc: Global, shape: &Shape) -> Result<BandIndex, OutOfMemory>
        ensures { IfOk result (λ index. OrdersNames (band_names shape.now) index) }
    {
        let names = shape.bands();
        let mut order = vec![in alloc; 0u16; names.len()]?;
        sort_indices(names, order.as_mut_slice());
        Ok(BandIndex { order })
    }

    /// The index of a band of the shape that this was made of, `None` exactly where no band has that name.
    pub fn find(&self, shape: &Shape, name: &Text) -> Option<u32>
        requires { OrdersNames (band_names shape.now) self.now }
        ensures { IsIndexOf (band_names shape.now) name.now result }
    {
        match find_in_order(name, shape.bands(), self.order.as_slice()) {
            Some(index) => Some(u32::from(index)),
            None => None,
        }
    }
}
