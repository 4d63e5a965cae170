//! The label changes of a command, in two rounds over the labels of a UUID.
ghost use Rattle.std.specs.Prelude.{◌≡◌, ◌+◌, ◌*◌, ◌≤◌, ◌++◌, ◌∷◌, [], length, map, vec_len};
ghost use Rattle.std.specs.Vec.{vec_capacity};
ghost use Rattle.namespace_map.specs.Changes.{change_to, in_two};
ghost use Rattle.label_codec.specs.Flags.{updated, updating};
ghost use Rattle.namespace_ops.specs.Carried.{becomes};
ghost use Rattle.namespace_ops.specs.Plans.{pairs_of};

use crate::room::add;
use label_codec::{Label, Name};
use label_set::Placed;
use namespace_areas::Change;

/// What a round makes of each label.
#[derive(Clone, Copy, Debug)]
pub(crate) enum Round {
    /// It has UPDATING.
    Mark,
    /// It hasn't.
    Settle,
    /// It has UPDATING, and this name.
    MarkAs(Name),
    /// It has this name, and no UPDATING.
    SettleAs(Name),
    /// It goes.
    Remove,
}

/// What a round makes of a label.
fn turned(round: &Round, label: &Label) -> Option<Label>
    ensures { result ≡ becomes round.now label.now }
{
    match round {
        Round::Mark => Some(label.with_updating()),
        Round::Settle => Some(label.without_updating()),
        Round::MarkAs(name) => Some(Label {
            name: *name,
            ..label.with_updating()
        }),
        Round::SettleAs(name) => Some(Label {
            name: *name,
            ..label.without_updating()
        }),
        Round::Remove => None,
    }
}

/// Adds the changes of a round, in the order of the labels.
fn add_round(changes: &mut Vec<Change>, own: &[Placed], round: &Round)
    requires room { vec_len changes.old + length own.now ≤ vec_capacity changes.old }
    ensures items { changes.new.items ≡ changes.old.items ++ map (change_to (becomes round.now)) (pairs_of own.now) }
    ensures len { vec_len changes.new ≡ vec_len changes.old + length own.now }
    ensures capacity { vec_capacity changes.old ≤ vec_capacity changes.new }
{
    for label in own {
        add(
            changes,
            Change {
                number: label.module,
                uuid: label.label.uuid,
                label: turned(round, &label.label),
            },
        );
    }
}

/// Takes the changes of two rounds; of a single label the second alone.
pub(crate) fn plan(own: &[Placed], first: &Round, second: &Round, changes: &mut Vec<Change>)
    requires room { 2 * length own.now ≤ vec_capacity changes.old }
    ensures items { changes.new.items ≡ in_two (becomes first.now) (becomes second.now) (pairs_of own.now) }
    ensures capacity { vec_capacity changes.old ≤ vec_capacity changes.new }
{
    changes.clear();
    if own.len() != 1 {
        add_round(changes, own, first);
    }
    add_round(changes, own, second);
}
