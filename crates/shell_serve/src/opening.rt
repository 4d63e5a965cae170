//! Namespaces of a set whose labels are recovered are opened.
ghost use Rattle.std.specs.Prelude.{◌≡◌, ◌≢◌, ◌≤◌, ℕ, List, map, IfOk, Ok, Err};
ghost use Rattle.std.specs.List.{All};
ghost use Rattle.std.specs.Option.{ForSome};
ghost use Rattle.nvd_media.specs.Causes.{Rose};
ghost use Rattle.arena_open.specs.declared.chain_refused.ChainRefused.{ChainRefused as Refusal};
ghost use Rattle.arena_open.specs.declared.refused.OpenRefused.TheVariants as open_refused;
ghost use Rattle.image_set.specs.declared.outline.Outline.{Outline as OutlineRead};
ghost use Rattle.image_set.specs.Outline.{HasContents};
ghost use Rattle.served_namespaces.specs.Places.{CanOpen};
ghost use Rattle.served_namespaces.specs.Reading.{AreReadable, HaveEnds, IsReadIn, IsSoundRead, RevealsAll};
ghost use Rattle.shell_reports.specs.declared.outcome.Report.{Report as AnyReport};
ghost use Rattle.shell_serve.specs.Answering.{NamesBroken, LoadsRead, OpensAs, OpensIn, OpensRead};
ghost use Rattle.shell_serve.specs.Recovered.{IsRecovered};

use crate::recovered::RecoveredSet;
use interleave::InterleaveSet;
use nvd_media::{Failed, ImageSource};
use nvd_words::Items;
use served_namespaces::{
    FoundNamespace, NotOpened, OpenedNamespace, ReadNamespace, load_each, read_bytes, read_each,
};
use shell_reports::{Report, RunStop, arena_answer, held_answer, is_too_large};
use std::alloc::{AllocError, Global};

/// What opening namespaces comes to.
#[derive(Drop)]
pub(crate) enum OpenOutcome {
    /// All of them are open.
    Done(Items<OpenedNamespace>),
    /// The answer that says why they aren't.
    Not(Report),
}

/// The answer that was made, or the stop if memory ran out.
pub(crate) fn not_open(report: Result<Report, AllocError>) -> Result<OpenOutcome, RunStop>
    ensures made { IfOk result (λ o. (r : AnyReport) × ((report ≡ Ok r) × (o ≡ OpenOutcome.Not r))) }
    ensures memory { result ≢ Err RunStop.ReadFault }
{
    match report {
        Ok(report) => Ok(OpenOutcome::Not(report)),
        Err(_) => Err(RunStop::OutOfMemory),
    }
}

/// The answer that says why namespaces aren't opened. Power wasn't cut.
fn unopened(alloc: Global, refused: NotOpened) -> Result<OpenOutcome, RunStop>
    requires { (uuid : List ℕ) (fault : Refusal) → refused ≡ NotOpened.Broken uuid fault → fault.fault ≢ open_refused.PowerCut }
    ensures names { IfOk result (NamesBroken refused) }
    ensures memory { result ≢ Err RunStop.ReadFault }
{
    match refused {
        NotOpened::Broken { uuid, fault } => not_open(arena_answer(alloc, &uuid, fault)),
        NotOpened::OutOfMemory => Err(RunStop::OutOfMemory),
    }
}

/// Opens the arenas of namespaces in memory, which were read.
fn load_read<S: ImageSource>(
    alloc: Global,
    read: Items<ReadNamespace>,
    sets: &[InterleaveSet],
    images: &mut S,
) -> Result<OpenOutcome, RunStop>
    requires sound { All (IsSoundRead sets.now) read }
    requires readable { AreReadable sets.now }
    requires there { HaveEnds (S.held images.old) sets.now }
    ensures safe { IfOk result (OpensAs sets.now (map (λ n. n.place) read)) }
    ensures told { (contents : List (List ℕ)) → RevealsAll (S.held images.old) sets.now contents → All (IsReadIn sets.now contents) read → IfOk result (LoadsRead sets.now contents read) }
    ensures same { S.held images.new ≡ S.held images.old }
    ensures failed { result ≡ Err RunStop.ReadFault → Rose (S.faults images.old) (S.faults images.new) }
    ensures later { S.faults images.old ≤ S.faults images.new }
{
    match load_each(alloc, images, sets, read) {
        Ok(Ok(opened)) => Ok(OpenOutcome::Done(opened)),
        Ok(Err(refused)) => unopened(alloc, refused),
        Err(Failed) => Err(RunStop::ReadFault),
    }
}

/// Opens the arenas of namespaces in memory, which were read, unless they have too many bytes together.
fn open_read<S: ImageSource>(
    alloc: Global,
    read: Items<ReadNamespace>,
    sets: &[InterleaveSet],
    images: &mut S,
) -> Result<OpenOutcome, RunStop>
    requires sound { All (IsSoundRead sets.now) read }
    requires readable { AreReadable sets.now }
    requires there { HaveEnds (S.held images.old) sets.now }
    ensures safe { IfOk result (OpensAs sets.now (map (λ n. n.place) read)) }
    ensures told { (contents : List (List ℕ)) → RevealsAll (S.held images.old) sets.now contents → All (IsReadIn sets.now contents) read → IfOk result (OpensRead sets.now contents read) }
    ensures same { S.held images.new ≡ S.held images.old }
    ensures failed { result ≡ Err RunStop.ReadFault → Rose (S.faults images.old) (S.faults images.new) }
    ensures later { S.faults images.old ≤ S.faults images.new }
{
    let bytes = read_bytes(read.as_slice());
    if is_too_large(bytes) {
        return not_open(held_answer(alloc, bytes));
    }
    load_read(alloc, read, sets, images)
}

/// Opens the arenas of namespaces that were found. It answers, of these, the first that holds: an arena breaks the format, in order of the
/// namespaces; all arenas together have too many bytes.
pub(crate) fn open_namespaces<S: ImageSource>(
    alloc: Global,
    places: &[FoundNamespace],
    set: &RecoveredSet,
    images: &mut S,
) -> Result<OpenOutcome, RunStop>
    requires can { All (CanOpen set.now.registry.sets) places.now }
    requires recovered { (outline : OutlineRead) × IsRecovered outline set.now }
    requires there { ForSome (S.held images.old) (HasContents set.now.rest.sizes) }
    ensures safe { IfOk result (OpensAs set.now.registry.sets places.now) }
    ensures told { (contents : List (List ℕ)) → RevealsAll (S.held images.old) set.now.registry.sets contents → IfOk result (OpensIn set.now.registry.sets contents places.now) }
    ensures same { S.held images.new ≡ S.held images.old }
    ensures failed { result ≡ Err RunStop.ReadFault → Rose (S.faults images.old) (S.faults images.new) }
    ensures later { S.faults images.old ≤ S.faults images.new }
{
    let sets = set.registry.sets();
    match read_each(alloc, images, sets, places) {
        Ok(Ok(read)) => open_read(alloc, read, sets, images),
        Ok(Err(refused)) => unopened(alloc, refused),
        Err(Failed) => Err(RunStop::ReadFault),
    }
}
