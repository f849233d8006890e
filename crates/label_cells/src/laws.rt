//! What follows for the cells and the access of labels.
ghost use Rattle.label_cells.specs.Laws.{LabelsGiveTheCellsOfDurations, ShareCellsAreUnique};

/// A law: [`cells_and_access`](crate::cells_and_access), on the labels of a search, gives the cells and the access of
/// the durations of [`rounds::Search::durations`]; and these are unique.
///
/// So labels and durations lead to the same row.
pub fn labels_give_the_cells_of_durations()
    ensures cells { LabelsGiveTheCellsOfDurations }
    ensures unique { ShareCellsAreUnique }
{}
