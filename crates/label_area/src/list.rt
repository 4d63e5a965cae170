ghost use Rattle.std.specs.Prelude.{◌≡◌, ◌<◌, None, length, replicate, slice_set, IfOk};

use label_codec::Label;
use std::alloc::{AllocError, Global};
use std::marker::Model;

/// The labels of an area, an entry for each slot. Contracts see it as a list of them.
#[derive(Debug, Drop)]
pub(crate) struct LabelList {
    slots: Vec<Option<Label>>,
}

impl Model for LabelList {
    ghost use Rattle.std.specs.Prelude.{List, Option};
    ghost use Rattle.label_codec.specs.declared.label.Label.{Label};

    ghost Value = { List (Option Label) };

    ghost view = { λ list. list.slots.items };
}

impl LabelList {
    /// Makes the list from a vector.
    pub(crate) fn from_vec(slots: Vec<Option<Label>>) -> LabelList
        ensures { result ≡ slots.items }
    {
        LabelList { slots }
    }

    /// Makes a list of `count` slots without labels.
    pub(crate) fn none(alloc: Global, count: usize) -> Result<LabelList, AllocError>
        ensures { IfOk result (λ list. list ≡ replicate count None) }
    {
        let slots = vec![in alloc; None; count]?;
        Ok(LabelList { slots })
    }

    /// Sets the label of a slot, which must exist.
    pub(crate) fn set(&mut self, slot: u32, label: Option<Label>)
        requires { slot < length self.old }
        ensures { self.new ≡ slice_set self.old slot label }
    {
        self.slots[slot as usize] = label;
    }

    /// The entries, one for each slot.
    pub(crate) fn as_slice(&self) -> &[Option<Label>]
        ensures { result.now ≡ self.now }
    {
        &self.slots
    }
}
