ghost use Rattle.std.specs.Prelude.{◌≡◌, ◌&&◌, ℕ, nat_lt, position, IfOk};
ghost use Rattle.std.specs.List.{list_any};
ghost use Rattle.nvd_words.specs.Checks.{value_unless, Answers};
ghost use Rattle.region_space.specs.Space.{clash, overlap_of, IsFirstFitAnswer};
ghost use Rattle.region_space.specs.Reach.{starts_before, passes};
ghost use Rattle.region_space.specs.Fitting.{partner_of};
ghost use Rattle.interleave.specs.Places.{unit_of};

use crate::extent::{Extent, SpaceFault};
use crate::fitting::{multiple_from, offset_past};
use crate::order::Ordered;
use interleave::InterleaveSet;
use nvd_words::Items;
use std::alloc::{AllocError, Global};
use std::marker::Model;

/// The reserved extents. If [`Space::of`] made it, no two of different owners overlap. Contracts
/// see it as a list of extents.
#[derive(Debug, Drop)]
pub struct Space {
    extents: Items<Extent>,
    ordered: Ordered,
}

impl Model for Space {
    ghost use Rattle.std.specs.Prelude.{List, IsPermutation};
    ghost use Rattle.region_space.specs.declared.extent.Extent.{Extent};

    ghost Value = { List Extent };

    ghost view = { λ s. s.extents };

    ghost invariant = { λ s. IsPermutation s.extents s.ordered };
}

/// Returns the fault of an extent and the first of the later ones that it clashes with.
fn partner(extent: &Extent, later: &[Extent]) -> Option<SpaceFault>
    ensures { result ≡ partner_of extent.now later.now }
{
    let other = later.iter().find(|f| extent.clashes(f))?;
    Some(SpaceFault::Overlap {
        a: extent.owner,
        b: other.owner,
    })
}

impl Space {
    /// Makes a space of extents in any order, or returns the fault `Overlap`.
    ///
    /// Two extents overlap if each starts before the other's end. Extents of one owner may overlap.
    /// `OutOfMemory` may replace any other result. For n extents the time is proportional to n log
    /// n. (This project's rule.)
    pub fn of(alloc: Global, extents: &[Extent]) -> Result<Space, SpaceFault>
        ensures { Answers SpaceFault.OutOfMemory result
            (value_unless extents.now (overlap_of extents.now)) }
    {
        let space = Space::gather(alloc, extents)?;
        match space.overlap() {
            Some(fault) => Err(fault),
            None => Ok(space),
        }
    }

    /// Makes a space of extents in any order, whether they overlap or not.
    ///
    /// It fails only if memory runs out. For n extents the time is proportional to n log n.
    pub fn gather(alloc: Global, extents: &[Extent]) -> Result<Space, AllocError>
        ensures { IfOk result (λ space. space ≡ extents.now) }
    {
        let ordered = Ordered::of(alloc, extents)?;
        Ok(Space {
            extents: Items::from_vec(extents.to_vec(alloc)?),
            ordered,
        })
    }

    /// Returns whether an extent clashes with one of the space.
    fn has_clash(&self, extent: &Extent) -> bool
        ensures { result ≡ list_any (clash extent.now) self.now }
    {
        let reach = self.ordered.reach(extent.module, extent.end());
        reach.beside(&extent.owner) > u128::from(extent.start)
    }

    /// Returns the place of the first extent that clashes with another.
    fn first_clash(&self) -> Option<usize>
        ensures { result ≡ position (λ e. list_any (clash e) self.now) self.now }
    {
        self.extents
            .as_slice()
            .iter()
            .position(|e| self.has_clash(e))
    }

    /// Returns the fault of the first clash. The first extent that clashes with any other is the
    /// first of the pair, since its partner can't come before it.
    fn overlap(&self) -> Option<SpaceFault>
        ensures { result ≡ overlap_of self.now }
    {
        let first = self.first_clash()?;
        let extents = self.extents.as_slice();
        partner(&extents[first], &extents[first + 1..])
    }

    /// Returns the greatest end of the extents of a module that start before an address, whoever
    /// owns them.
    pub(crate) fn reach(&self, module: u32, address: u128) -> u128
        ensures { (past : ℕ) → list_any (λ e. starts_before «module» address e && passes past e)
            self.now ≡ nat_lt past result }
    {
        self.ordered.reach(module, address).end
    }

    /// Returns the least multiple of the set's unit at which `raw` bytes of each module, from the
    /// start of its mapping, lie inside the mapping and overlap no extent. It returns `None` if
    /// there is none.
    ///
    /// `raw` is in bytes; a label's size is a positive multiple of the unit, but the call takes any
    /// number. All extents of the space count. The call takes no memory. It examines each module of
    /// the set at most once for each extent that it passes, by one binary search. (This project's
    /// rule.)
    pub fn first_fit(&self, set: &InterleaveSet, raw: u64) -> Option<u64>
        ensures { IsFirstFitAnswer set.now self.now (unit_of set.now) raw result }
    {
        let span = u128::from(set.span());
        let unit = set.unit();
        let mut offset = 0;
        while offset + u128::from(raw) <= span {
            match offset_past(self, set, raw, offset) {
                None => return Some(offset as u64),
                Some(past) if past > span => return None,
                Some(past) => offset = multiple_from(past, unit),
            }
        }
        None
    }
}
