// What holds of records that are written window by window.
ghost use Rattle.std.specs.Prelude.{◌≡◌, ℕ, ◌++◌, [], ◌∷◌, List, Option, None};
ghost use Rattle.oe_cell.specs.declared.cell.Cell.{Cell};
ghost use Rattle.oe_dims.specs.Cube.{Cube, IsCube};
ghost use Rattle.oe_dims.specs.Dimensions.{Dimensions};
ghost use Rattle.oe_spool.specs.Laws.{AreAllOfShape, AreLeastOfChunks, AreOfShape, HoldsChunks, KeepsRecords};
ghost use Rattle.oe_spool.specs.Least.{IsLeastOver, least_of_first, least_over_of, lesser_of};
ghost use Rattle.oe_spool.specs.Spooled.{ChangesOnly, HoldsCube, HoldsRecords, IsInSome};
ghost use Rattle.oe_window.specs.Chunks.{IsTiling, chunk_count, tiling_of};
ghost use Rattle.oe_window.specs.Windows.{IsIn};
ghost use Rattle.oe_window.specs.declared.grid.ChunkSize.{ChunkSize};
ghost use Rattle.oe_window.specs.declared.window.Window.{Window};

/// Does nothing. Its contract says how changes of a store add up: no change is one of any records, a change of the
/// records of one window is one of a list of it, and two changes one after the other are one of both lists.
pub fn changes_add_up()
    ensures none { (base : ℕ) (shape : Dimensions) (windows : List Window)
        (store : Option (List ℕ)) → ChangesOnly base shape (IsInSome windows) store store }
    ensures one { (base : ℕ) (shape : Dimensions) (window : Window) (a b : Option (List ℕ)) →
        ChangesOnly base shape (IsIn window) a b →
        ChangesOnly base shape (IsInSome (window ∷ [])) a b }
    ensures both { (base : ℕ) (shape : Dimensions) (xs ys : List Window) (a b c : Option (List ℕ)) →
        ChangesOnly base shape (IsInSome xs) a b → ChangesOnly base shape (IsInSome ys) b c →
        ChangesOnly base shape (IsInSome (xs ++ ys)) a c }
{}

/// Does nothing. Its contract says that records that stand in a store stay while those of other positions of the shape
/// are written.
pub fn records_stay()
    ensures window { (old new : Option (List ℕ)) (base : ℕ) (cube : Cube Cell) (a b : Window) →
        KeepsRecords old new base cube (IsIn a) (IsIn b) }
    ensures windows { (old new : Option (List ℕ)) (base : ℕ) (cube : Cube Cell)
        (xs ys : List Window) → KeepsRecords old new base cube (IsInSome xs) (IsInSome ys) }
{}

/// Does nothing. Its contract says that the records of all cells of a cube stand in a store where those of windows
/// do that have each position between them, as those of all chunks of a grid.
pub fn windows_make_cubes()
    ensures windows { (store : Option (List ℕ)) (base : ℕ) (cube : Cube Cell)
        (windows : List Window) → IsCube cube → AreAllOfShape cube.shape (IsInSome windows) →
        HoldsRecords store base cube (IsInSome windows) → HoldsCube store base cube }
    ensures chunks { (store : Option (List ℕ)) (base : ℕ) (cube : Cube Cell) (size : ChunkSize) →
        IsCube cube → IsTiling (tiling_of cube.shape size) → HoldsChunks store base cube size →
        HoldsCube store base cube }
{}

/// Does nothing. Its contract says how the least number at which a cell is `Over` is found by parts: there is none of
/// no window, that of the windows of two lists is the lesser of theirs, and that of all windows of a list that has
/// exactly the positions of a cube, or of all chunks of a grid, is the index of the cube's first such cell.
pub fn least_of_parts()
    ensures none { (cube : Cube Cell) → IsLeastOver cube (IsInSome []) None }
    ensures one { (cube : Cube Cell) (window : Window) (m : Option ℕ) →
        IsLeastOver cube (IsIn window) m → IsLeastOver cube (IsInSome (window ∷ [])) m }
    ensures both { (cube : Cube Cell) (xs ys : List Window) (m n : Option ℕ) →
        IsLeastOver cube (IsInSome xs) m → IsLeastOver cube (IsInSome ys) n →
        IsLeastOver cube (IsInSome (xs ++ ys)) (lesser_of m n) }
    ensures windows { (cube : Cube Cell) (windows : List Window) (m : Option ℕ) → IsCube cube →
        AreOfShape cube.shape (IsInSome windows) → AreAllOfShape cube.shape (IsInSome windows) →
        IsLeastOver cube (IsInSome windows) m → m ≡ least_over_of cube.cells }
    ensures chunks { (cube : Cube Cell) (size : ChunkSize) (found : ℕ → Option ℕ) → IsCube cube →
        IsTiling (tiling_of cube.shape size) → AreLeastOfChunks cube size found → least_of_first
        found (chunk_count (tiling_of cube.shape size)) ≡ least_over_of cube.cells }
{}
