//! One arena of a namespace is read.
ghost use Rattle.std.specs.Prelude.{◌≡◌, ℕ, ◌+◌, ◌-◌, ◌*◌, ◌/◌, ◌%◌, ◌^◌, ◌≤◌, ◌++◌, [], Bool, IfOk, IfSome, List, drop, length};
ghost use Rattle.nvd_media.specs.Causes.{HasCause};
ghost use Rattle.arena_layout.specs.Info.{IsArenaOf};
ghost use Rattle.arena_layout.specs.Layout.{IsLayout};
ghost use Rattle.arena_open.specs.Halves.{AreInRange};
ghost use Rattle.arena_open.specs.Reading.{map_in};
ghost use Rattle.arena_check.specs.Check.{in_arena, meta_findings, source_of};
ghost use Rattle.arena_check.specs.declared.info.InfoSource.TheVariants.{Neither};
ghost use Rattle.power_cut.specs.Namespace.{raw_bytes};
ghost use Rattle.namespace_words.specs.Source.{HasEnds, Reveals, words_by};
ghost use Rattle.shell_rescue.specs.Lost.{info_notes, lost_in};
ghost use Rattle.shell_rescue.specs.Reading.{AreRead, IsBounded, IsFound, IsLogRead, IsSized, source_with};

use crate::log::{LogRead, read_log};
use arena_check::{BadWords, Finding, InfoSource, meta_findings};
use arena_layout::{Info, InfoFault, Layout};
use arena_rescue::{Loss, MapRescue, rescue_map};
use flog::Half;
use namespace_words::read_map;
use nvd_media::{Failed, ImageSource};
use nvd_words::Items;
use power_cut::SetExtent;
use shell_check::read_source;
use std::alloc::{AllocError, Global};
use uuid::Uuid;

/// An arena of which sectors can be read.
#[derive(Drop)]
pub struct ArenaRescued {
    /// The number of its first word in the namespace.
    pub at: u64,
    pub layout: Layout,
    /// An entry for each sector, pending moves made. That of a lost sector reads as zeros.
    pub entries: Items<u32>,
}

/// What can't be read of an arena, and what the rest stands on.
#[derive(Drop)]
pub(crate) struct ArenaLost {
    /// The first info block, if it isn't used; each lane's group that is refused; bad words.
    pub notes: Items<Finding>,
    /// The pending moves that were made.
    pub moves: Items<Half>,
    pub losses: Items<Loss>,
    /// Whether an info block can be used.
    pub whole: bool,
}

impl ArenaLost {
    /// Returns how many sectors are lost; an arena without an info block counts as one.
    pub(crate) fn count(&self) -> u64
        ensures { result ≡ lost_in self.now }
    {
        if self.whole {
            self.losses.len() as u64
        } else {
            1
        }
    }
}

/// What was read of an arena.
#[derive(Drop)]
pub(crate) struct ArenaFound {
    pub lost: ArenaLost,
    /// None if no info block can be used.
    pub arena: Option<ArenaRescued>,
    /// How many bytes after its start the next arena begins; 0 if there is none.
    pub next: u64,
    /// Why no info block can be used.
    pub refused: Option<InfoFault>,
}

/// What was read of the log and the map of an arena.
#[derive(Drop)]
struct SectorsRead {
    notes: Items<Finding>,
    map: MapRescue,
}

/// Returns the findings of a log, and then the bad words of the arena whose first word is `at`.
fn notes_of<B: BadWords>(
    alloc: Global,
    layout: &Layout,
    bad: &B,
    at: u64,
    findings: Items<Finding>,
) -> Result<Items<Finding>, AllocError>
    requires layout { IsLayout layout.now }
    requires inside { at + layout.now.size / 8 ≤ 2 ^ 61 }
    ensures { IfOk result (λ notes. notes ≡ findings ++ meta_findings at (B.bad bad.now) layout.now) }
{
    let bad_words = meta_findings(alloc, bad, at, layout)?;
    let mut notes = findings.into_vec();
    notes.extend_from_slice(bad_words.as_slice())?;
    Ok(Items::from_vec(notes))
}

/// Returns what can be read of the sectors of an arena of this layout, by its log and its map.
fn rescue_sectors<B: BadWords>(
    alloc: Global,
    layout: &Layout,
    bad: &B,
    at: u64,
    log: LogRead,
    entries: Vec<u32>,
) -> Result<SectorsRead, AllocError>
    requires layout { IsLayout layout.now }
    requires inside { at + layout.now.size / 8 ≤ 2 ^ 61 }
    requires sectors { length entries.items ≡ layout.now.external }
    requires in_range { AreInRange layout.now.external log.groups }
    ensures told { (words : List ℕ) → IsLogRead layout.now (in_arena at (B.bad bad.now)) words log → entries.items ≡ map_in layout.now words
        → IfOk result (AreRead at (B.bad bad.now) words layout.now) }
    ensures sized { IfOk result (IsSized layout.now) }
{
    let LogRead { groups, findings } = log;
    let notes = notes_of(alloc, layout, bad, at, findings)?;
    let map = rescue_map(alloc, layout, bad, at, groups.as_slice(), entries)?;
    Ok(SectorsRead { notes, map })
}

/// Reads the log and the map of an arena of this layout, whose first word is `at`.
fn read_sectors<S: ImageSource, B: BadWords>(
    alloc: Global,
    images: &mut S,
    extent: &SetExtent<'_>,
    bad: &B,
    at: u64,
    layout: &Layout,
) -> Result<Result<SectorsRead, AllocError>, Failed>
    requires layout { IsLayout layout.now }
    requires few { raw_bytes extent.now ≤ 2 ^ 55 }
    requires inside { 8 * at + layout.now.size ≤ raw_bytes extent.now }
    requires there { HasEnds (S.held images.old) extent.now.set }
    ensures told { (contents : List (List ℕ)) → Reveals (S.held images.old) extent.now.set contents → (words : List ℕ) → words ≡ drop at (words_by extent.now contents)
        → IfOk result (λ found. IfOk found (AreRead at (B.bad bad.now) words layout.now)) }
    ensures sized { IfOk result (λ found. IfOk found (IsSized layout.now)) }
    ensures same { S.held images.new ≡ S.held images.old }
    ensures cause { HasCause (S.faults images.old) (S.faults images.new) result }
{
    match read_log(alloc, images, extent, bad, at, layout)? {
        Ok(log) => match read_map(alloc, images, extent, at, layout)? {
            Ok(entries) => Ok(rescue_sectors(alloc, layout, bad, at, log, entries)),
            Err(_) => Ok(Err(AllocError)),
        },
        Err(_) => Ok(Err(AllocError)),
    }
}

/// Returns a finding if the first info block isn't used, by why not.
fn info_notes(alloc: Global, fault: Option<InfoFault>) -> Result<Vec<Finding>, AllocError>
    ensures { IfOk result (λ notes. notes.items ≡ info_notes fault) }
{
    let mut notes = Vec::new(alloc);
    if let Some(fault) = fault {
        notes.push(Finding::Info { fault })?;
    }
    Ok(notes)
}

/// Returns what was found in the arena with this info block, whose first word is `at`. `fault` says
/// why the first info block isn't used.
fn found_of(
    alloc: Global,
    at: u64,
    fault: Option<InfoFault>,
    info: &Info,
    read: SectorsRead,
) -> Result<ArenaFound, AllocError>
    ensures told { (bad : ℕ → Bool) (words : List ℕ) → AreRead at bad words info.now.layout read → IfOk result (IsFound at bad words (source_with fault info.now)) }
    ensures bounded { (bytes : ℕ) (parent : List ℕ) → IsArenaOf parent (bytes - 8 * at) info.now → 8 * at ≤ bytes → IsSized info.now.layout read → IfOk result (IsBounded bytes at parent) }
{
    let SectorsRead { notes, map } = read;
    let mut all = info_notes(alloc, fault)?;
    all.extend_from_slice(notes.as_slice())?;
    let MapRescue {
        moves,
        losses,
        entries,
    } = map;
    let layout = info.layout;
    Ok(ArenaFound {
        lost: ArenaLost {
            notes: Items::from_vec(all),
            moves,
            losses,
            whole: true,
        },
        arena: Some(ArenaRescued {
            at,
            layout,
            entries,
        }),
        next: info.next,
        refused: None,
    })
}

/// Reads the arena with this info block, whose first word is `at`. `fault` says why the first info
/// block isn't used.
fn rescue_used<S: ImageSource, B: BadWords>(
    alloc: Global,
    images: &mut S,
    extent: &SetExtent<'_>,
    bad: &B,
    at: u64,
    fault: Option<InfoFault>,
    info: &Info,
) -> Result<Result<ArenaFound, AllocError>, Failed>
    requires few { raw_bytes extent.now ≤ 2 ^ 55 }
    requires layout { IsLayout info.now.layout }
    requires inside { 8 * at + info.now.layout.size ≤ raw_bytes extent.now }
    requires there { HasEnds (S.held images.old) extent.now.set }
    ensures told { (contents : List (List ℕ)) → Reveals (S.held images.old) extent.now.set contents → (words : List ℕ) → words ≡ drop at (words_by extent.now contents)
        → IfOk result (λ found. IfOk found (IsFound at (B.bad bad.now) words (source_with fault info.now))) }
    ensures bounded { (parent : List ℕ) → IsArenaOf parent (raw_bytes extent.now - 8 * at) info.now → IfOk result (λ found. IfOk found (IsBounded (raw_bytes extent.now) at parent)) }
    ensures same { S.held images.new ≡ S.held images.old }
    ensures cause { HasCause (S.faults images.old) (S.faults images.new) result }
{
    match read_sectors(alloc, images, extent, bad, at, &info.layout)? {
        Ok(read) => Ok(found_of(alloc, at, fault, info, read)),
        Err(_) => Ok(Err(AllocError)),
    }
}

/// Returns what is found if no info block can be used.
pub(crate) fn nothing_found(alloc: Global, fault: InfoFault) -> Result<ArenaFound, AllocError>
    ensures told { IfOk result (λ found. (at : ℕ) (bad : ℕ → Bool) (words : List ℕ) → IsFound at bad words (Neither fault) found) }
    ensures bounded { IfOk result (λ found. (bytes at : ℕ) (parent : List ℕ) → 8 * at + 8 ≤ bytes → IsBounded bytes at parent found) }
{
    let mut notes = Items::new(alloc);
    notes.push(Finding::Info { fault })?;
    Ok(ArenaFound {
        lost: ArenaLost {
            notes,
            moves: Items::new(alloc),
            losses: Items::new(alloc),
            whole: false,
        },
        arena: None,
        next: 0,
        refused: Some(fault),
    })
}

/// Reads the arena whose first word is `at`: what can be read of its sectors, and what can't.
///
/// The 4,096 bytes from word `at` on must lie in the namespace. It fails inside only if memory runs
/// out; `Failed` means that the source's count of failures rose.
pub(crate) fn rescue_arena<S: ImageSource, B: BadWords>(
    alloc: Global,
    images: &mut S,
    extent: &SetExtent<'_>,
    bad: &B,
    at: u64,
    parent: &Uuid,
) -> Result<Result<ArenaFound, AllocError>, Failed>
    requires few { raw_bytes extent.now ≤ 2 ^ 55 }
    requires pages { raw_bytes extent.now % 4096 ≡ 0 }
    requires inside { 8 * at + 4096 ≤ raw_bytes extent.now }
    requires there { HasEnds (S.held images.old) extent.now.set }
    ensures told { (contents : List (List ℕ)) → Reveals (S.held images.old) extent.now.set contents → (words : List ℕ) → words ≡ drop at (words_by extent.now contents)
        → IfOk result (λ found. IfOk found (IsFound at (B.bad bad.now) words (source_of words parent.now))) }
    ensures bounded { IfOk result (λ found. IfOk found (IsBounded (raw_bytes extent.now) at parent.now)) }
    ensures same { S.held images.new ≡ S.held images.old }
    ensures cause { HasCause (S.faults images.old) (S.faults images.new) result }
{
    let (source, _) = read_source(images, extent, at, parent)?;
    match source {
        InfoSource::First { info } => rescue_used(alloc, images, extent, bad, at, None, &info),
        InfoSource::Last { fault, info } => {
            rescue_used(alloc, images, extent, bad, at, Some(fault), &info)
        }
        InfoSource::Neither { fault } => Ok(nothing_found(alloc, fault)),
    }
}
