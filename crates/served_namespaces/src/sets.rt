//! The interleave sets of all regions.
ghost use Rattle.std.specs.Prelude.{◌≡◌, ◌<◌, length};
ghost use Rattle.namespace_areas.specs.Finding.{set_at};
ghost use Rattle.served_namespaces.specs.Places.{PlaceBytes, PlacesBytes};

use interleave::InterleaveSet;

/// Returns the set of a region that exists.
pub(crate) fn set_at(sets: &[InterleaveSet], region: u32) -> &InterleaveSet
    requires { region < length sets.now }
    ensures { result.now ≡ set_at sets.now region }
{
    &sets[region as usize]
}

/// What the type says of a set, as a clause.
fn know_set(set: &InterleaveSet)
    ensures { PlacesBytes set.now }
{
    let _unit = set.unit();
    let _span = set.span();
}

/// What the type says of all sets, as a clause.
pub(crate) fn know_sets(sets: &[InterleaveSet])
    ensures { PlaceBytes sets.now }
{
    for set in sets {
        know_set(set);
    }
}
