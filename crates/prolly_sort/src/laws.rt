//! Laws of records that come one after another.
ghost use Rattle.prolly_sort.specs.Overlaid.{PartsComeToTheWhole, RisingComeToThemselves};

/// Records whose keys rise come to themselves. So of lines in the order of their keys a run makes
/// the record file that `pack` makes of them.
pub fn rising_records_stay()
    ensures { RisingComeToThemselves }
{}

/// Runs may be put in order one by one: the raw overlay of what they come to is what all records
/// come to.
pub fn runs_come_to_the_whole()
    ensures { PartsComeToTheWhole }
{}
