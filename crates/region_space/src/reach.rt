ghost use Rattle.std.specs.Prelude.{◌≡◌, ◌∷◌, ◌++◌, [], List};
ghost use Rattle.region_space.specs.declared.extent.Extent.{Extent};
ghost use Rattle.region_space.specs.Reach.{reach_beside, IsReach};

use crate::extent::Extent;
use uuid::Uuid;

/// How far extents reach: their greatest end, and the greatest end of other owners' extents.
#[derive(Clone, Copy, Debug)]
pub struct Reach {
    /// The greatest end; 0 if there is no extent.
    pub end: u128,
    /// The owner of an extent with this end.
    pub owner: Uuid,
    /// The greatest end of the extents of other owners; 0 if there is none.
    pub others: u128,
}

impl Reach {
    /// Returns the reach of no extents.
    pub fn none() -> Reach
        ensures { IsReach [] result }
    {
        Reach {
            end: 0,
            owner: Uuid::nil(),
            others: 0,
        }
    }

    /// Returns the reach with one more extent.
    pub fn with(&self, extent: &Extent) -> Reach
        ensures { (extents : List Extent) → IsReach extents self.now →
            IsReach (extents ++ extent.now ∷ []) result }
    {
        let end = extent.end();
        if extent.owner == self.owner {
            Reach {
                end: self.end.max(end),
                ..*self
            }
        } else if end > self.end {
            Reach {
                end,
                owner: extent.owner,
                others: self.end,
            }
        } else {
            Reach {
                others: self.others.max(end),
                ..*self
            }
        }
    }

    /// Returns the greatest end of the extents of all owners but one.
    pub fn beside(&self, owner: &Uuid) -> u128
        ensures { result ≡ reach_beside self.now owner.now }
    {
        if self.owner == *owner {
            self.others
        } else {
            self.end
        }
    }
}
