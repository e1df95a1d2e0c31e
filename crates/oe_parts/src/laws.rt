// What holds of part files.
ghost use Rattle.std.specs.Prelude.{◌≡◌, ℕ, List};
ghost use Rattle.oe_cell.specs.declared.cell.Cell.{Cell};
ghost use Rattle.oe_dims.specs.Cube.{Cube};
ghost use Rattle.oe_parts.specs.Changed.{AreHeadersOfOne};
ghost use Rattle.oe_parts.specs.Head.{PartHead};
ghost use Rattle.oe_parts.specs.PartFile.{IsPartFile, IsPartOf};

/// Does nothing. Its contract says that the part of a cube is a part file with its head.
pub fn parts_are_files()
    ensures { (bytes : List ℕ) (head : PartHead) (cube : Cube Cell) → IsPartOf bytes head cube
        → IsPartFile bytes head }
{}

/// Does nothing. Its contract says that a header shows when one of its bytes was changed: two part files of one length,
/// whose headers differ in one byte at most and name one result, have the same head. So a part with another byte in its
/// header is no part file, or names another result.
pub fn headers_show_changes()
    ensures { (bytes changed : List ℕ) (head other : PartHead)
        → AreHeadersOfOne bytes changed head other → head ≡ other }
{}
