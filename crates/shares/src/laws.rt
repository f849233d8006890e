//! What follows for cells.
ghost use Rattle.shares.specs.Laws.{CellIsUnique, CellsAreThere, CellsAreUnique};

/// A law: two cells of one stop, for one table of durations and one share, are equal, and so are two lists of the cells
/// of all stops; and there is such a list.
///
/// So whatever computes cells gives the same ones.
pub fn cells_are_unique()
    ensures cell { CellIsUnique }
    ensures cells { CellsAreUnique }
    ensures there { CellsAreThere }
{}
