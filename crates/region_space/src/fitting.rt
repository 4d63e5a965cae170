ghost use Rattle.std.specs.Prelude.{◌≡◌, ◌<◌, ◌^◌, IfSome, IfNone, false};
ghost use Rattle.std.specs.List.{list_any};
ghost use Rattle.region_space.specs.Fitting.{IsMultipleFrom, is_met, LeadsPast};

use crate::space::Space;
use interleave::InterleaveSet;

/// Returns the least multiple of a unit that isn't less than a number.
pub fn multiple_from(bytes: u128, unit: u64) -> u128
    requires positive { 0 < unit }
    requires fits { bytes < 2 ^ 64 }
    ensures { IsMultipleFrom bytes unit result }
{
    let unit = u128::from(unit);
    (bytes + (unit - 1)) / unit * unit
}

/// Returns, if `raw` bytes at an offset of each mapping overlap an extent, an offset below which
/// they all do.
pub fn offset_past(space: &Space, set: &InterleaveSet, raw: u64, offset: u128) -> Option<u128>
    requires { offset < 2 ^ 64 }
    ensures free { IfNone result (list_any (is_met space.now raw offset) set.now ≡ false) }
    ensures met { IfSome result (LeadsPast set.now space.now raw offset) }
{
    for position in 0..set.ways() {
        let start = u128::from(set.start(position));
        let end = space.reach(set.module_at(position), start + offset + u128::from(raw));
        if start + offset < end {
            return Some(end - start);
        }
    }
    None
}
