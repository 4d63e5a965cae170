//! The calls with a tag.
ghost use Rattle.std.specs.Prelude.{◌≡◌, ◌≢◌, ◌<◌, ◌≤◌, ℕ, Option, Err, false, string_bytes};
ghost use Rattle.namespace_map.specs.declared.commands.Command.TheVariants as command;
ghost use Rattle.namespace_map.specs.Commands.{named_of};
ghost use Rattle.namespace_ops.specs.Carried.{HasGoodName, IsGoodName};
ghost use Rattle.namespace_ops.specs.Claims.{count_of};
ghost use Rattle.namespace_ops.specs.Counted.{Answered, Formats, IsReady, takes_memory};
ghost use Rattle.namespace_ops.specs.Registered.{Entered, state_of};
ghost use Rattle.namespace_ops.specs.Room.{room_of};

use crate::formatter::Formatter;
use crate::journal::JournalEntry;
use crate::names::named;
use crate::registry::Registry;
use cut_words::Fuse;
use namespace_map::{Command, CreateSpec, OpRefused};
use nvd_words::Tag;
use std::alloc::Global;
use uuid::Uuid;

impl Registry {
    /// Creates a namespace on all modules of a region. It lies at the least offset, the same on each module, at which it fits
    /// beside the extents of all labels. On several modules a label is put with UPDATING on each, by position, and then each
    /// without it; on a single module the label is put at once. The arena of a namespace with sectors is formatted before:
    /// its UUID and that of its parent are the namespace's, and its sectors read as zeros.
    ///
    /// The tag's session has room for one more call, and the name has no zero byte, as `name_of` of `label_codec` makes
    /// it. The formatter of a namespace with sectors either has the contents of all modules by number, up to the ends of the
    /// mappings, and none of their words is pending; or it counts ([`crate::Counted`]), and says where the arena lies and how
    /// many steps of its format were made. For a raw namespace it stays as it was.
    ///
    /// Refusals, after which nothing has changed: `BadName`, `NoRegion`, `ModuleLabels`, `Exists`, `BadSize`, `NoSlot`,
    /// `NoSpace`; `OutOfMemory` in place of any other answer, since all memory is taken before the first store. Else
    /// `PowerCut` comes exactly if the fuse has fewer steps left than the format and the label changes take, or if an
    /// earlier call or recovery answered it. After a cut in the format the label areas are as they were.
    pub fn create<F: Formatter>(
        &mut self,
        alloc: Global,
        formatter: &mut F,
        fuse: &mut Fuse,
        tag: Tag,
        spec: &CreateSpec,
    ) -> Result<(), OpRefused>
        requires room { 1 ≤ room_of self.old.room tag.session }
        requires name { IsGoodName spec.now.name }
        requires ready { IsReady F.ready self.old.sets (command.Create spec.now) formatter.old }
        ensures entered { Entered self.old self.new tag (command.Create spec.now) result }
        ensures answered { Answered (state_of self.old) (state_of self.new) fuse.old fuse.new (command.Create spec.now) result }
        ensures formats { Formats F.formats (state_of self.old) formatter.old formatter.new fuse.old (command.Create spec.now) result }
    {
        let reply = self.namespaces.create(alloc, formatter, fuse, spec);
        self.journal.enter(JournalEntry {
            tag,
            command: Command::Create(*spec),
            reply,
        });
        reply
    }

    /// Deletes a namespace that isn't claimed: its labels get UPDATING, by position, and then each is removed. A single label
    /// is removed at once.
    ///
    /// The tag's session has room for one more call. Refusals, after which nothing has changed: `NoSuch`, `NotComplete`,
    /// `Busy`, `ReadOnlyLabel`, `NoSlot`. Else `PowerCut` as for [`Registry::create`]. It takes no memory.
    pub fn delete(&mut self, fuse: &mut Fuse, tag: Tag, uuid: &Uuid) -> Result<(), OpRefused>
        requires room { 1 ≤ room_of self.old.room tag.session }
        ensures entered { Entered self.old self.new tag (command.Delete uuid.now) result }
        ensures answered { Answered (state_of self.old) (state_of self.new) fuse.old fuse.new (command.Delete uuid.now) result }
        ensures memory { result ≢ Err OpRefused.OutOfMemory }
    {
        let reply = self.namespaces.delete(fuse, uuid);
        self.journal.enter(JournalEntry {
            tag,
            command: Command::Delete { uuid: *uuid },
            reply,
        });
        reply
    }

    /// Renames a namespace: its labels get the name and UPDATING, by position, and then the name without UPDATING. A single
    /// label gets the name at once.
    ///
    /// The tag's session has room for one more call. Refusals, after which nothing has changed: `BadName`, `NoSuch`,
    /// `NotComplete`, `ReadOnlyLabel`, `NoSlot`. Else `PowerCut` as for [`Registry::create`]. It takes no memory.
    pub fn rename(
        &mut self,
        fuse: &mut Fuse,
        tag: Tag,
        uuid: &Uuid,
        name: &str,
    ) -> Result<(), OpRefused>
        requires room { 1 ≤ room_of self.old.room tag.session }
        ensures entered { Entered self.old self.new tag (command.Rename uuid.now (named_of name.now)) result }
        ensures answered { Answered (state_of self.old) (state_of self.new) fuse.old fuse.new (command.Rename uuid.now (named_of name.now)) result }
        ensures memory { result ≢ Err OpRefused.OutOfMemory }
    {
        let name = named(name);
        let reply = self.namespaces.rename(fuse, uuid, &name);
        self.journal.enter(JournalEntry {
            tag,
            command: Command::Rename { uuid: *uuid, name },
            reply,
        });
        reply
    }

    /// Claims a complete namespace of sectors once more.
    ///
    /// The tag's session has room for one more call. Refusals, after which nothing has changed: `NoSuch`, `NotComplete`,
    /// `NotSector`. `PowerCut` comes exactly if an earlier call or recovery answered it. It takes no memory.
    pub fn claim(&mut self, tag: Tag, uuid: &Uuid) -> Result<(), OpRefused>
        requires room { 1 ≤ room_of self.old.room tag.session }
        ensures entered { Entered self.old self.new tag (command.Claim uuid.now) result }
        ensures answered { (fuse : Option ℕ) → Answered (state_of self.old) (state_of self.new) fuse fuse (command.Claim uuid.now) result }
        ensures memory { result ≢ Err OpRefused.OutOfMemory }
    {
        let reply = self.namespaces.claim(uuid);
        self.journal.enter(JournalEntry {
            tag,
            command: Command::Claim { uuid: *uuid },
            reply,
        });
        reply
    }

    /// Gives a claim of a namespace back, which is held.
    ///
    /// The tag's session has room for one more call. `PowerCut` comes exactly if an earlier call or recovery answered it, and the
    /// claim stays then. It takes no memory.
    pub fn unclaim(&mut self, tag: Tag, uuid: &Uuid) -> Result<(), OpRefused>
        requires room { 1 ≤ room_of self.old.room tag.session }
        requires held { 0 < count_of self.old.claims uuid.now }
        ensures entered { Entered self.old self.new tag (command.Unclaim uuid.now) result }
        ensures answered { (fuse : Option ℕ) → Answered (state_of self.old) (state_of self.new) fuse fuse (command.Unclaim uuid.now) result }
        ensures memory { result ≢ Err OpRefused.OutOfMemory }
    {
        let reply = self.namespaces.unclaim(uuid);
        self.journal.enter(JournalEntry {
            tag,
            command: Command::Unclaim { uuid: *uuid },
            reply,
        });
        reply
    }

    /// Carries a command out, whichever it is.
    ///
    /// The tag's session has room for one more call, a name that is given has no zero byte, as `name_of` of `label_codec`
    /// makes it, and the formatter is as for [`Registry::create`]. The answer is that of [`Registry::create`],
    /// [`Registry::delete`], [`Registry::rename`] or [`Registry::claim`]. A claim that is given back is always granted while
    /// power is on; of a namespace that isn't claimed none is given back. Only a create takes memory.
    pub fn carry_out<F: Formatter>(
        &mut self,
        alloc: Global,
        formatter: &mut F,
        fuse: &mut Fuse,
        tag: Tag,
        command: &Command,
    ) -> Result<(), OpRefused>
        requires room { 1 ≤ room_of self.old.room tag.session }
        requires name { HasGoodName command.now }
        requires ready { IsReady F.ready self.old.sets command.now formatter.old }
        ensures entered { Entered self.old self.new tag command.now result }
        ensures answered { Answered (state_of self.old) (state_of self.new) fuse.old fuse.new command.now result }
        ensures formats { Formats F.formats (state_of self.old) formatter.old formatter.new fuse.old command.now result }
        ensures memory { takes_memory command.now ≡ false → result ≢ Err OpRefused.OutOfMemory }
    {
        let reply = self.namespaces.carry_out(alloc, formatter, fuse, command);
        self.journal.enter(JournalEntry {
            tag,
            command: *command,
            reply,
        });
        reply
    }
}
