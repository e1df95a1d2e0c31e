// The labels of one dimension, of one shape alone or of several.
ghost use Rattle.std.specs.Prelude.{◌≡◌, IfSome};
ghost use Rattle.oe_dims.specs.Held.{held_labels};

use std::alloc::Global;
use std::marker::Model;
use std::sync::Arc;

/// Who keeps labels.
#[derive(Drop)]
pub enum Held<T> {
    /// One shape.
    Alone(Vec<T>),
    /// All shapes that took them over. They are given back with the last of these.
    Shared(Arc<Vec<T>>),
}

/// The labels of a dimension in their order. Contracts see them alone, and not who keeps them.
pub struct LabelList<T> {
    held: Held<T>,
}

impl<T> Model for LabelList<T> {
    ghost use Rattle.std.specs.Prelude.{List};

    ghost Value = { List T };

    ghost use Rattle.oe_dims.specs.Held.{held_labels};

    ghost view = { λ l. held_labels l.held };
}

/// Written out, so that labels that end are one call wherever they do.
impl<T: Drop> Drop for LabelList<T> {
    fn drop(self) {
        let LabelList { held: _ } = self;
    }
}

impl<T> LabelList<T> {
    /// The labels of a vector.
    pub fn of(labels: Vec<T>) -> LabelList<T>
        ensures { result ≡ labels.items }
    {
        LabelList {
            held: Held::Alone(labels),
        }
    }

    /// The labels, in their order.
    pub fn as_slice(&self) -> &[T]
        ensures { result.now ≡ self.now }
    {
        match &self.held {
            Held::Alone(labels) => labels.as_slice(),
            Held::Shared(labels) => labels.as_slice(),
        }
    }

    /// The allocator that the labels were taken from.
    pub fn allocator(&self) -> Global {
        match &self.held {
            Held::Alone(labels) => *labels.allocator(),
            Held::Shared(labels) => *labels.allocator(),
        }
    }

    /// Whether they are one shape's alone.
    pub fn is_alone(&self) -> bool {
        matches!(self.held, Held::Alone(_))
    }

    /// The same labels, which others may take over from now on. Where memory for that is refused they stay as they are.
    pub fn shared(self) -> LabelList<T>
        ensures { result ≡ self }
    {
        let LabelList { held } = self;
        match held {
            Held::Alone(labels) => LabelList {
                held: share(labels),
            },
            Held::Shared(labels) => LabelList {
                held: Held::Shared(labels),
            },
        }
    }

    /// The same labels in the same memory, `None` where they are one shape's alone. It takes no memory.
    pub fn taken_over(&self) -> Option<LabelList<T>>
        ensures { IfSome result (λ l. l ≡ self.now) }
    {
        match &self.held {
            Held::Alone(_) => None,
            Held::Shared(labels) => match Arc::try_clone(labels) {
                Ok(labels) => Some(LabelList {
                    held: Held::Shared(labels),
                }),
                Err(_) => None,
            },
        }
    }
}

fn share<T>(labels: Vec<T>) -> Held<T>
    ensures { held_labels result ≡ labels.items }
{
    let alloc = *labels.allocator();
    match Arc::new(alloc, labels) {
        Ok(labels) => Held::Shared(labels),
        Err(refused) => Held::Alone(refused.value),
    }
}
