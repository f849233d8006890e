//! Theorems about the labels of deadlines, and the durations that follow from them.
ghost use Rattle.to_here.specs.Laws.{CutLabelsSuffice, FrontsGiveDurations, FullFrontsAreEnough};

/// A law: labels that are cut past the mirrored first start give the same durations as whole ones.
///
/// So narrow labels suffice for whole windows: a label at the cap means that no departure of the window leaves the
/// origin in time.
pub fn cut_labels_suffice()
    ensures { CutLabelsSuffice }
{}

/// A law: once enough deadlines were searched, the durations of a front, each lowered to a walk alone, are the least
/// durations of the window.
pub fn fronts_give_durations()
    ensures { FrontsGiveDurations }
{}

/// A law: enough deadlines were searched for an origin once its front has reached the last front.
pub fn full_fronts_are_enough()
    ensures { FullFrontsAreEnough }
{}
