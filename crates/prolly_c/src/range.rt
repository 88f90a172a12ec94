//! The end of a range of keys, as C names it.
ghost use Rattle.std.specs.Prelude.{◌≡◌};
ghost use Rattle.std.specs.Option.{option_copied};
ghost use Rattle.prolly_c.specs.RangeProofs.{bound_of};

/// The key that the keys of a range are less than, where it is bounded.
pub(crate) fn bound(to: &[u8], bounded: bool) -> Option<&[u8]>
    ensures { option_copied result ≡ bound_of to.now bounded }
{
    if bounded { Some(to) } else { None }
}
