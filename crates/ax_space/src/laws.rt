//! Laws of spaces and patches.
ghost use Rattle.ax_space.specs.Laws.{CostIsUnique, CostExists, CostedIsPatch, ConstantsAreInts, MadeIsSpace, PatchFits};

/// A patch has one cost.
pub fn cost_is_unique()
    ensures { CostIsUnique }
{}

/// Without guards each patch has a cost.
pub fn cost_exists()
    ensures { CostExists }
{}

/// What has a cost is a patch.
pub fn costed_is_patch()
    ensures { CostedIsPatch }
{}

/// Without guards no new constant of a patch is above the largest `int`.
pub fn constants_are_ints()
    ensures { ConstantsAreInts }
{}

/// The space that is made for candidates in rising order is one of the program.
pub fn made_is_space()
    ensures { MadeIsSpace }
{}

/// Each tree of a patch fits its slot.
pub fn patch_fits()
    ensures { PatchFits }
{}
