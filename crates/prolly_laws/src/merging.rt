//! Overlays of lists of records, and merging them.
ghost use Rattle.prolly_entry.specs.Overlay.{OneRawOverlay, OverlayIsMap, DivisionKeepsOverlay};
ghost use Rattle.prolly_entry.specs.Overlay.{NeighboursOverlayFirst, OverlayStep};
ghost use Rattle.prolly_tree.specs.CutShort.{CutBehindStop, FrontsMergeToFront};
ghost use Rattle.prolly_tree.specs.Merge.{NeighboursMergeFirst};
ghost use Rattle.prolly_tree.specs.MergeSteps.{MergeGoesOn};
ghost use Rattle.prolly_tree.specs.MergedParts.{MergedPartRises, OverlayIsSmall};

/// Lists with rising keys have one overlay.
pub fn lists_have_one_overlay()
    ensures { OneRawOverlay }
{}

/// An overlay is a map.
pub fn overlays_are_maps()
    ensures { OverlayIsMap }
{}

/// To divide a list leaves the overlay as it was.
pub fn divisions_keep_the_overlay()
    ensures { DivisionKeepsOverlay }
{}

/// Two neighbours may be overlaid first.
pub fn neighbours_are_overlaid_first()
    ensures { NeighboursOverlayFirst }
{}

/// Two neighbours may be merged first.
pub fn neighbours_merge_first<Fault>()
    ensures { NeighboursMergeFirst Fault }
{}

/// A merged part goes on key by key.
pub fn merges_go_on<Fault>()
    ensures { MergeGoesOn Fault }
{}

/// Inputs that were cut short behind their stop have the same stop, and the same merged part.
pub fn cut_inputs_keep_their_stop<Fault>()
    ensures { CutBehindStop Fault }
{}

/// What was sent of lists is merged to what may be sent of their overlay: its first records, and at
/// a clean end all of them.
pub fn fronts_merge_to_a_front<Fault>()
    ensures { FrontsMergeToFront Fault }
{}

/// An overlay goes on key by key.
pub fn overlays_go_on()
    ensures { OverlayStep }
{}

/// Merged parts rise, whatever the inputs.
pub fn merged_parts_rise<Fault>()
    ensures { MergedPartRises Fault }
{}

/// An overlay has at most as many pairs as its lists have records.
pub fn overlays_are_small()
    ensures { OverlayIsSmall }
{}
