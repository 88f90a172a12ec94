//! What of a map goes on unchanged where changes are laid over it.
ghost use Rattle.prolly_entry.specs.declared.version.Version.{Version};
ghost use Rattle.prolly_entry.specs.Cut.{Cut};
ghost use Rattle.prolly_tree.specs.Passing.{OverlayAtKey, FrontStays, LeafStays};
ghost use Rattle.prolly_tree.specs.Passing.{LeafEventsGoOn, LeafEventStays};
ghost use Rattle.prolly_tree.specs.Passing.{FrontStaysMerged, LeafEventStaysMerged};

/// Two lists that are cut at one key may be overlaid in front of it and behind it.
pub fn overlays_are_cut_at_keys()
    ensures { OverlayAtKey }
{}

/// The first pairs of a map stay as they are where no change has a key up to their last one.
pub fn fronts_stay()
    ensures { FrontStays }
{}

/// The first leaf of a map, where it is closed, stays where no change has a key up to its last one.
pub fn leaves_stay()
    ensures { (cut : Cut) → LeafStays cut }
{}

/// Behind closed leaves the leaf stage sends what it sends of the pairs that follow.
pub fn leaf_events_go_on()
    ensures { (cut : Cut) (version : Version) → LeafEventsGoOn cut version }
{}

/// The event of a leaf that no change touches is sent first, and then what comes of the rest.
pub fn leaf_events_stay()
    ensures { (cut : Cut) (version : Version) → LeafEventStays cut version }
{}

/// Where either end may be a fault, the first pairs of the map stay in the merged part where no
/// change has a key up to their last one, and a change is there or none is to come.
pub fn merged_fronts_stay<Fault>()
    ensures { FrontStaysMerged Fault }
{}

/// So the event of a leaf that no change touches is sent first, and then what comes of the rest.
pub fn merged_leaf_events_stay<Fault>()
    ensures { (cut : Cut) (version : Version) → LeafEventStaysMerged Fault cut version }
{}
