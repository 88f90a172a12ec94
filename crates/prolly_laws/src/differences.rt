//! What turns one map into another.
ghost use Rattle.prolly_tree.specs.Difference.{OneDifference, DifferenceTurns, EqualsDifferNowhere};
ghost use Rattle.prolly_tree.specs.Difference.{DifferencesCompose, SaysNoEqual, SomeDifference};

/// The difference of two maps says nothing of a key that both have alike.
pub fn differences_say_no_equal()
    ensures { SaysNoEqual }
{}

/// Two maps have a difference.
pub fn maps_have_a_difference()
    ensures { SomeDifference }
{}

/// Two maps have at most one difference.
pub fn maps_have_one_difference()
    ensures { OneDifference }
{}

/// The overlay of a map and its difference to another is the other.
pub fn differences_turn_maps()
    ensures { DifferenceTurns }
{}

/// Maps are equal exactly where their difference is empty.
pub fn equal_maps_differ_nowhere()
    ensures { EqualsDifferNowhere }
{}

/// Differences compose by overlay.
pub fn differences_compose()
    ensures { DifferencesCompose }
{}
