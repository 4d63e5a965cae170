//! Commands on namespaces of which is counted how often each is claimed.
ghost use Rattle.std.specs.Prelude.{◌≡◌, ◌≢◌, ◌+◌, ◌<◌, ◌^◌, ℕ, List, Option, Some, Err, true, false, length};
ghost use Rattle.namespace_map.specs.declared.commands.Command.TheVariants as command;
ghost use Rattle.namespace_map.specs.Commands.{refusal_of};
ghost use Rattle.namespace_ops.specs.Carried.{HasGoodName, IsGoodName};
ghost use Rattle.namespace_ops.specs.Claims.{count_of};
ghost use Rattle.namespace_ops.specs.Counted.{Answered, Formats, IsReady, namespaces_in, takes_memory};
ghost use Rattle.namespace_ops.specs.Counting.{is_first, state_in};

use crate::claims::Claims;
use crate::formatter::Formatter;
use crate::label_store::LabelStore;
use crate::sectors::create_sectors;
use cut_words::Fuse;
use namespace_map::{Command, CreateSpec, Make, Named, OpRefused};
use std::alloc::Global;
use uuid::Uuid;

/// Label areas, and how often each UUID is claimed.
#[derive(Debug, Drop)]
pub(crate) struct CountedNamespaces {
    pub(crate) store: LabelStore,
    pub(crate) claims: Claims,
}

/// Whether a refusal of a delete comes before that of a claimed namespace.
fn is_first(refused: &OpRefused) -> bool
    ensures { result ≡ is_first refused.now }
{
    matches!(refused, OpRefused::NoSuch | OpRefused::NotComplete)
}

impl CountedNamespaces {
    /// Whether power was cut in a command.
    fn is_off(&self) -> bool
        ensures { result ≡ self.now.store.stopped }
    {
        self.store.is_stopped()
    }

    /// Why a namespace that is claimed so often isn't deleted.
    fn busy(&self, uuid: &Uuid, claims: u32) -> OpRefused
        requires running { self.now.store.stopped ≡ false }
        requires count { claims ≡ count_of self.now.claims.counts uuid.now }
        requires claimed { 0 < claims }
        ensures { refusal_of (namespaces_in (state_in self.now)) (command.Delete uuid.now) ≡ Some result }
    {
        match self.store.claim(uuid) {
            Err(refused) => {
                if is_first(&refused) {
                    refused
                } else {
                    OpRefused::Busy { claims }
                }
            }
            Ok(()) => OpRefused::Busy { claims },
        }
    }

    /// Creates a namespace, unless power was cut. The arena of one with sectors is formatted first.
    pub(crate) fn create<F: Formatter>(
        &mut self,
        alloc: Global,
        formatter: &mut F,
        fuse: &mut Fuse,
        spec: &CreateSpec,
    ) -> Result<(), OpRefused>
        requires name { IsGoodName spec.now.name }
        requires ready { IsReady F.ready self.old.store.sets (command.Create spec.now) formatter.old }
        ensures answered { Answered (state_in self.old) (state_in self.new) fuse.old fuse.new (command.Create spec.now) result }
        ensures formats { Formats F.formats (state_in self.old) formatter.old formatter.new fuse.old (command.Create spec.now) result }
        ensures claims { self.new.claims ≡ self.old.claims }
    {
        if self.is_off() {
            return Err(OpRefused::PowerCut);
        }
        match spec.make {
            Make::Raw => self.store.create(alloc, fuse, spec),
            Make::Sector { .. } => create_sectors(alloc, &mut self.store, formatter, fuse, spec),
        }
    }

    /// Deletes a namespace that isn't claimed, unless power was cut. It takes no memory.
    pub(crate) fn delete(&mut self, fuse: &mut Fuse, uuid: &Uuid) -> Result<(), OpRefused>
        ensures answered { Answered (state_in self.old) (state_in self.new) fuse.old fuse.new (command.Delete uuid.now) result }
        ensures claims { self.new.claims ≡ self.old.claims }
        ensures memory { result ≢ Err OpRefused.OutOfMemory }
    {
        if self.is_off() {
            return Err(OpRefused::PowerCut);
        }
        let claims = self.claims.count(uuid);
        if claims > 0 {
            return Err(self.busy(uuid, claims));
        }
        self.store.delete(fuse, uuid)
    }

    /// Renames a namespace, unless power was cut. It takes no memory.
    pub(crate) fn rename(
        &mut self,
        fuse: &mut Fuse,
        uuid: &Uuid,
        name: &Named,
    ) -> Result<(), OpRefused>
        requires name { IsGoodName name.now }
        ensures answered { Answered (state_in self.old) (state_in self.new) fuse.old fuse.new (command.Rename uuid.now name.now) result }
        ensures claims { self.new.claims ≡ self.old.claims }
        ensures memory { result ≢ Err OpRefused.OutOfMemory }
    {
        if self.is_off() {
            return Err(OpRefused::PowerCut);
        }
        self.store.rename(fuse, uuid, name)
    }

    /// Claims a namespace once more, unless power was cut. There is room for a count, and it takes no memory.
    pub(crate) fn claim(&mut self, uuid: &Uuid) -> Result<(), OpRefused>
        requires room { length self.old.claims.counts < self.old.claims.room }
        requires few { count_of self.old.claims.counts uuid.now + 1 < 2 ^ 32 }
        ensures answered { (fuse : Option ℕ) → Answered (state_in self.old) (state_in self.new) fuse fuse (command.Claim uuid.now) result }
        ensures room { self.new.claims.room ≡ self.old.claims.room }
        ensures memory { result ≢ Err OpRefused.OutOfMemory }
    {
        if self.is_off() {
            return Err(OpRefused::PowerCut);
        }
        self.store.claim(uuid)?;
        let claims = self.claims.count(uuid);
        self.claims.set(uuid, claims + 1);
        Ok(())
    }

    /// Gives a claim back, unless power was cut; of a namespace that isn't claimed none is given. There is room for a count,
    /// and it takes no memory.
    pub(crate) fn unclaim(&mut self, uuid: &Uuid) -> Result<(), OpRefused>
        requires room { length self.old.claims.counts < self.old.claims.room }
        ensures answered { (fuse : Option ℕ) → Answered (state_in self.old) (state_in self.new) fuse fuse (command.Unclaim uuid.now) result }
        ensures room { self.new.claims.room ≡ self.old.claims.room }
        ensures memory { result ≢ Err OpRefused.OutOfMemory }
    {
        if self.is_off() {
            return Err(OpRefused::PowerCut);
        }
        // No area is stopped, which the clause on them says, so making no change of them leaves them as they are.
        let _areas = self.store.areas();
        let claims = self.claims.count(uuid);
        self.claims.set(uuid, claims.saturating_sub(1));
        Ok(())
    }

    /// Carries a command out, whichever it is, unless power was cut. There is room for a count.
    pub(crate) fn carry_out<F: Formatter>(
        &mut self,
        alloc: Global,
        formatter: &mut F,
        fuse: &mut Fuse,
        command: &Command,
    ) -> Result<(), OpRefused>
        requires name { HasGoodName command.now }
        requires ready { IsReady F.ready self.old.store.sets command.now formatter.old }
        requires room { length self.old.claims.counts < self.old.claims.room }
        requires few { (uuid : List ℕ) → count_of self.old.claims.counts uuid + 1 < 2 ^ 32 }
        ensures answered { Answered (state_in self.old) (state_in self.new) fuse.old fuse.new command.now result }
        ensures formats { Formats F.formats (state_in self.old) formatter.old formatter.new fuse.old command.now result }
        ensures room { self.new.claims.room ≡ self.old.claims.room }
        ensures memory { takes_memory command.now ≡ false → result ≢ Err OpRefused.OutOfMemory }
    {
        match command {
            Command::Create(spec) => self.create(alloc, formatter, fuse, spec),
            Command::Delete { uuid } => self.delete(fuse, uuid),
            Command::Rename { uuid, name } => self.rename(fuse, uuid, name),
            Command::Claim { uuid } => self.claim(uuid),
            Command::Unclaim { uuid } => self.unclaim(uuid),
        }
    }
}
