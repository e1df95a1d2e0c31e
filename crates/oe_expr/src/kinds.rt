// Kinds of cells as the check sees them.
ghost use Rattle.std.specs.Prelude.{◌≡◌, ◌++◌, ◌∷◌, [], List, Option, Some};
ghost use Rattle.oe_dims.specs.declared.kind.CellKind.{CellKind};
ghost use Rattle.oe_expr.specs.Kinds as spec;
ghost use Rattle.oe_expr.specs.KindCounts.{AreKindsOf};

use oe_cell::Cell;
use oe_dims::CellKind;

/// The kinds of cells that are to be of one: the first that is known, and which occur. None is open.
#[derive(Clone, Copy)]
pub(crate) struct Kinds {
    pub first: Option<CellKind>,
    pub numbers: bool,
    pub flags: bool,
}

impl Kinds {
    /// One kind.
    pub(crate) fn of(kind: Option<CellKind>) -> Kinds
        ensures { AreKindsOf (kind ∷ []) result }
    {
        Kinds {
            first: kind,
            numbers: kind == Some(CellKind::Numbers),
            flags: kind == Some(CellKind::Flags),
        }
    }

    /// The same and one more.
    pub(crate) fn with(self, kind: Option<CellKind>) -> Kinds
        ensures { (kinds : List (Option CellKind)) → AreKindsOf kinds self
            → AreKindsOf (kinds ++ kind ∷ []) result }
    {
        match kind {
            None => self,
            Some(known) => self.with_known(known),
        }
    }

    fn with_known(self, kind: CellKind) -> Kinds
        ensures { (kinds : List (Option CellKind)) → AreKindsOf kinds self
            → AreKindsOf (kinds ++ Some kind ∷ []) result }
    {
        let first = self.first.or(Some(kind));
        match kind {
            CellKind::Numbers => Kinds {
                first,
                numbers: true,
                flags: self.flags,
            },
            CellKind::Flags => Kinds {
                first,
                numbers: self.numbers,
                flags: true,
            },
        }
    }

    /// Whether both kinds occur.
    pub(crate) fn are_mixed(self) -> bool
        ensures { (kinds : List (Option CellKind)) → AreKindsOf kinds self
            → result ≡ spec.are_mixed kinds }
    {
        self.numbers && self.flags
    }
}

/// The kind of a literal.
pub(crate) fn literal_kind(cell: &Cell) -> Option<CellKind>
    ensures { result ≡ spec.literal_kind cell.now }
{
    match cell {
        Cell::Flag(_) => Some(CellKind::Flags),
        Cell::Number(_) => Some(CellKind::Numbers),
        Cell::Empty | Cell::Over => None,
    }
}
