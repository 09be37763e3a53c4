// When two solutions are the same, how tables tell them, and what edits come to. Each function does nothing: its contract is the law.
ghost use Rattle.model.specs.EditLaws.{CellsAreSet, DropsKeepOtherCells, NeedsDecideDrops, PutThenDrop, PutsKeepCells, TablesAreSolutions};
ghost use Rattle.model.specs.Solutions.{OrderedSameAreEqual, SameIsEquivalence};

// Being the same solution is an equivalence.
pub fn same_is_equivalence()
    ensures { SameIsEquivalence }
{}

// Two solutions whose tables are in key order are the same exactly where they are equal.
pub fn ordered_same_are_equal()
    ensures { OrderedSameAreEqual }
{}

// Of registers with as many places: equal tables mean the same solution, and the same solution means equal tables.
pub fn equal_tables_mean_same_solution()
    ensures { TablesAreSolutions }
{}

// A site or a span that is there is dropped exactly where what is left meets its needs; else the drop is refused as still needed.
pub fn needs_decide_drops()
    ensures { NeedsDecideDrops }
{}

// A record that was absent, put and then dropped by the same line, leaves the solution as it was.
pub fn put_then_drop_gives_back()
    ensures { PutThenDrop }
{}

// An estimate put: no two keys have another cell than before, and a new estimate's cells are zero.
pub fn replaced_estimates_keep_cells()
    ensures { PutsKeepCells }
{}

// An estimate dropped: its cells are gone, and the others stay.
pub fn dropped_estimates_leave_other_cells()
    ensures { DropsKeepOtherCells }
{}

// A cell set by two estimates: it is seen from both sides, and nothing else changes.
pub fn set_cells_are_seen_from_both_sides()
    ensures { CellsAreSet }
{}
