//! Lists that several owners share.

ghost use Rattle.std.specs.Prelude.{◌≡◌, length, IfOk};

use nvd_words::Items;
use std::alloc::AllocError;
use std::fmt;
use std::fmt::{Debug, Formatter, Write};
use std::marker::Model;
use std::sync::ArcSlice;

/// An immutable list that several owners share. Contracts see it as a list of its items.
#[derive(Drop)]
pub struct Shared<T> {
    items: ArcSlice<T>,
}

impl<T> Model for Shared<T> {
    ghost use Rattle.std.specs.Prelude.{List};
    ghost use Rattle.std.specs.Arc.{arc_slice_items};

    ghost Value = { List T };

    ghost view = { λ list. arc_slice_items list.items };
}

impl<T: Drop> Shared<T> {
    /// Makes a list with one owner. It returns `AllocError` if memory runs out.
    pub fn from_items(items: Items<T>) -> Result<Shared<T>, AllocError>
        ensures { IfOk result (λ shared. shared ≡ items) }
    {
        let items = ArcSlice::from_vec(items.into_vec())?;
        Ok(Shared { items })
    }

    /// Returns the same list for one more owner, without a copy. It returns `AllocError` if the
    /// list has too many owners to count.
    pub fn share(&self) -> Result<Shared<T>, AllocError>
        ensures { IfOk result (λ shared. shared ≡ self.now) }
    {
        let items = self.items.clone()?;
        Ok(Shared { items })
    }
}

impl<T> Shared<T> {
    /// The number of items.
    pub fn len(&self) -> usize
        ensures { result ≡ length self.now }
    {
        self.items.len()
    }

    /// The items.
    pub fn as_slice(&self) -> &[T]
        ensures { result.now ≡ self.now }
    {
        self.items.as_slice()
    }
}

impl<T: Debug> Debug for Shared<T> {
    fn fmt<W: Write>(&self, f: &mut Formatter<W>) -> fmt::Result {
        f.debug_list().slice(self.as_slice()).finish()
    }
}
