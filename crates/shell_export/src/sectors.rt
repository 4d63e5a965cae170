//! The bytes of all sectors of a namespace.
ghost use Rattle.std.specs.Prelude.{◌≡◌, ◌≢◌, ℕ, ◌+◌, ◌*◌, ◌++◌, ◌/◌, ◌^◌, ◌<◌, ◌≤◌, IfOk, List, Ok, Err, OnOk, OnErr, codes, drop, length, map, slice_index, sum_by, take};
ghost use Rattle.std.specs.Fmt.{decimal};
ghost use Rattle.nvd_media.specs.Causes.{Rose};
ghost use Rattle.arena_layout.specs.Layout.{IsLayout};
ghost use Rattle.arena_open.specs.Chain.{state_at};
ghost use Rattle.arena_open.specs.InPlace.{external_in};
ghost use Rattle.arena_open.specs.Reading.{cell_with};
ghost use Rattle.cut_words.specs.WordBytes.{bytes_of};
ghost use Rattle.map_table.specs.Entry.{entry_of};
ghost use Rattle.namespace_bytes.specs.SectorPut.{AreSized, HasBlocks};
ghost use Rattle.namespace_bytes.specs.Putting.{AreAll};
ghost use Rattle.namespace_words.specs.Source.{AreWithin, HasEnds, IsWithin, Reveals, words_by};
ghost use Rattle.power_cut.specs.Namespace.{raw_bytes};
ghost use Rattle.shell_reports.specs.Faults.{refused_outcome};
ghost use Rattle.shell_reports.specs.Outcome.{printed};
ghost use Rattle.shell_reports.specs.Saved.{outcome_of};
ghost use Rattle.shell_export.specs.Export.{cell_words, refused_at, sector_bytes, sectors_bytes, sectors_outcome};
ghost use Rattle.shell_export.specs.Printing.{AppendsBut, AppendsFront, KnowsAll, PrintsAll, PrintsBut, PrintsDue, PrintsFront};

use crate::bad::first_bad;
use crate::blocks::{ArenaPlace, read_entry};
use crate::pieces::{PIECE, PrintStop, print_bytes, print_made, status_after};
use map_table::{MapEntry, entry};
use namespace_words::{ArenaRead, arena_at, locate, sectors_of_all};
use nvd_media::{ImageSource, TextSink};
use power_cut::SetExtent;
use shell_reports::{Report, RunStop, Status, refused_answer};
use std::alloc::{AllocError, Global};

/// Prints the filled bytes of a buffer if it hasn't room for `more` bytes behind them. It returns how many still wait.
fn make_room<O: TextSink>(
    filled: usize,
    more: usize,
    buffer: &[u8],
    text: &mut O,
) -> Result<usize, PrintStop>
    requires filled { filled ≤ length buffer.now }
    requires more { more ≤ length buffer.now }
    ensures all { IfOk result (λ left. AppendsBut (O.written text.old) (O.written text.new) (O.kept text.old) (O.kept text.new) (take filled buffer.now) (take left buffer.now)) }
    ensures fits { IfOk result (λ left. left + more ≤ length buffer.now) }
    ensures part { OnErr result (AppendsFront (O.written text.old) (O.written text.new) (take filled buffer.now)) }
    ensures later { O.faults text.old ≤ O.faults text.new }
    ensures read { result ≢ Err PrintStop.Read }
    ensures failed { result ≡ Err PrintStop.Write → Rose (O.faults text.old) (O.faults text.new) }
{
    if more <= buffer.len() - filled {
        return Ok(filled);
    }
    print_bytes(&buffer[..filled], text)?;
    Ok(0)
}

/// Reads a sector of an arena, by its map entry, behind the filled bytes of a buffer of `PIECE` bytes. If there is no room, these
/// are printed first. It returns how many are filled then.
///
/// A zero or bad entry has zeros, and nothing is read for it. The block of each entry must exist, that of a zero or bad one too.
///
/// `all`: what was printed, and then what is filled, is what was filled before, and then the bytes of the sector. `Write` means that
/// the sink failed, and a front of the filled bytes was printed. `Read` means that the source failed; all of them were printed then,
/// or none, and the buffer may hold any bytes.
pub fn add_entry<S: ImageSource, O: TextSink>(
    images: &mut S,
    extent: &SetExtent<'_>,
    place: &ArenaPlace,
    entry: MapEntry,
    filled: usize,
    buffer: &mut [u8],
    text: &mut O,
) -> Result<usize, PrintStop>
    requires layout { IsLayout place.now.layout }
    requires few { 8 * place.now.at ≤ 2 ^ 55 }
    requires within { 8 * place.now.at + place.now.layout.size ≤ raw_bytes extent.now }
    requires block { entry.block < place.now.layout.internal }
    requires filled { filled ≤ length buffer.old }
    requires buffer { length buffer.old ≡ 262144 }
    requires there { HasEnds (S.held images.old) extent.now.set }
    ensures all { IfOk result (λ end. PrintsBut (Reveals (S.held images.old) extent.now.set) (λ contents. take filled buffer.old ++ bytes_of (cell_words (place.now.layout.sector / 8) (cell_with place.now.layout (drop place.now.at (words_by extent.now contents)) entry))) (O.written text.old) (O.written text.new) (O.kept text.old) (O.kept text.new) (take end buffer.new)) }
    ensures filled { IfOk result (λ end. end ≤ length buffer.new) }
    ensures part { OnErr result (AppendsFront (O.written text.old) (O.written text.new) (take filled buffer.old)) }
    ensures buffer { length buffer.new ≡ length buffer.old }
    ensures same { S.held images.new ≡ S.held images.old }
    ensures later { S.faults images.old ≤ S.faults images.new }
    ensures later_text { O.faults text.old ≤ O.faults text.new }
    ensures read { result ≡ Err PrintStop.Read → Rose (S.faults images.old) (S.faults images.new) }
    ensures write { result ≡ Err PrintStop.Write → Rose (O.faults text.old) (O.faults text.new) }
{
    let size = place.layout.sector as usize;
    let left = make_room(filled, size, buffer, text)?;
    let end = left + size;
    match read_entry(images, extent, place, entry, &mut buffer[left..end]) {
        Ok(()) => Ok(end),
        Err(_) => Err(PrintStop::Read),
    }
}

/// Reads a sector of an arena behind the filled bytes of a buffer. If there is no room, they are printed first. It returns how
/// many are filled then.
fn add_own<S: ImageSource, O: TextSink>(
    images: &mut S,
    extent: &SetExtent<'_>,
    arena: &ArenaRead,
    own: u32,
    filled: usize,
    buffer: &mut [u8],
    text: &mut O,
) -> Result<usize, PrintStop>
    requires blocks { HasBlocks arena.now }
    requires within { IsWithin (raw_bytes extent.now) arena.now }
    requires own { own < arena.now.opened.info.layout.external }
    requires filled { filled ≤ length buffer.old }
    requires buffer { length buffer.old ≡ 262144 }
    requires there { HasEnds (S.held images.old) extent.now.set }
    ensures all { IfOk result (λ end. PrintsBut (Reveals (S.held images.old) extent.now.set) (λ contents. take filled buffer.old ++ bytes_of (cell_words (arena.now.opened.info.layout.sector / 8) (cell_with arena.now.opened.info.layout (drop arena.now.at (words_by extent.now contents)) (entry_of (slice_index arena.now.opened.entries own) own)))) (O.written text.old) (O.written text.new) (O.kept text.old) (O.kept text.new) (take end buffer.new)) }
    ensures filled { IfOk result (λ end. end ≤ length buffer.new) }
    ensures part { OnErr result (AppendsFront (O.written text.old) (O.written text.new) (take filled buffer.old)) }
    ensures buffer { length buffer.new ≡ length buffer.old }
    ensures same { S.held images.new ≡ S.held images.old }
    ensures later { S.faults images.old ≤ S.faults images.new }
    ensures later_text { O.faults text.old ≤ O.faults text.new }
    ensures read { result ≡ Err PrintStop.Read → Rose (S.faults images.old) (S.faults images.new) }
    ensures write { result ≡ Err PrintStop.Write → Rose (O.faults text.old) (O.faults text.new) }
{
    let opened = arena.parts();
    let place = ArenaPlace {
        at: arena.first(),
        layout: opened.info.layout,
    };
    let found = entry(opened.entries.as_slice()[own as usize], own);
    add_entry(images, extent, &place, found, filled, buffer, text)
}

/// Reads a sector of a namespace behind the filled bytes of a buffer. If there is no room, they are printed first. It returns how
/// many are filled then.
fn add_sector<S: ImageSource, O: TextSink>(
    images: &mut S,
    extent: &SetExtent<'_>,
    arenas: &[ArenaRead],
    sector: u64,
    filled: usize,
    buffer: &mut [u8],
    text: &mut O,
) -> Result<usize, PrintStop>
    requires sized { AreSized arenas.now }
    requires within { AreWithin (raw_bytes extent.now) arenas.now }
    requires sector { sector < sum_by external_in arenas.now }
    requires filled { filled ≤ length buffer.old }
    requires buffer { length buffer.old ≡ 262144 }
    requires there { HasEnds (S.held images.old) extent.now.set }
    ensures all { IfOk result (λ end. PrintsBut (KnowsAll (S.held images.old) extent.now arenas.now) (λ contents. take filled buffer.old ++ sector_bytes (map (state_at (words_by extent.now contents)) arenas.now) sector) (O.written text.old) (O.written text.new) (O.kept text.old) (O.kept text.new) (take end buffer.new)) }
    ensures filled { IfOk result (λ end. end ≤ length buffer.new) }
    ensures part { OnErr result (AppendsFront (O.written text.old) (O.written text.new) (take filled buffer.old)) }
    ensures buffer { length buffer.new ≡ length buffer.old }
    ensures same { S.held images.new ≡ S.held images.old }
    ensures later { S.faults images.old ≤ S.faults images.new }
    ensures later_text { O.faults text.old ≤ O.faults text.new }
    ensures read { result ≡ Err PrintStop.Read → Rose (S.faults images.old) (S.faults images.new) }
    ensures write { result ≡ Err PrintStop.Write → Rose (O.faults text.old) (O.faults text.new) }
{
    match locate(arenas, sector) {
        Some((k, own)) => {
            let arena = arena_at(arenas, k);
            add_own(images, extent, arena, own, filled, buffer, text)
        }
        None => unreachable!(),
    }
}

/// Prints all sectors, in order: as many at a time as the buffer has room for.
fn print_sectors<S: ImageSource, O: TextSink>(
    images: &mut S,
    extent: &SetExtent<'_>,
    arenas: &[ArenaRead],
    buffer: &mut [u8],
    text: &mut O,
) -> Result<(), PrintStop>
    requires sized { AreSized arenas.now }
    requires within { AreWithin (raw_bytes extent.now) arenas.now }
    requires buffer { length buffer.old ≡ 262144 }
    requires there { HasEnds (S.held images.old) extent.now.set }
    ensures all { OnOk result (PrintsAll (KnowsAll (S.held images.old) extent.now arenas.now) (λ contents. sectors_bytes (map (state_at (words_by extent.now contents)) arenas.now)) (O.written text.old) (O.written text.new) (O.kept text.old) (O.kept text.new)) }
    ensures part { OnErr result (PrintsFront (KnowsAll (S.held images.old) extent.now arenas.now) (λ contents. sectors_bytes (map (state_at (words_by extent.now contents)) arenas.now)) (O.written text.old) (O.written text.new)) }
    ensures same { S.held images.new ≡ S.held images.old }
    ensures later { S.faults images.old ≤ S.faults images.new }
    ensures read { result ≡ Err PrintStop.Read → Rose (S.faults images.old) (S.faults images.new) }
    ensures write { result ≡ Err PrintStop.Write → Rose (O.faults text.old) (O.faults text.new) }
{
    let mut filled = 0;
    for sector in 0..sectors_of_all(arenas) {
        filled = add_sector(images, extent, arenas, sector, filled, buffer, text)?;
    }
    print_bytes(&buffer[..filled], text)
}

/// Prints the bytes of all sectors, in which bad ones count as zeros. Out of memory comes before the first byte.
fn all_sectors<S: ImageSource, O: TextSink>(
    alloc: Global,
    images: &mut S,
    extent: &SetExtent<'_>,
    arenas: &[ArenaRead],
    text: &mut O,
) -> Result<Status, RunStop>
    requires sized { AreSized arenas.now }
    requires within { AreWithin (raw_bytes extent.now) arenas.now }
    requires there { HasEnds (S.held images.old) extent.now.set }
    ensures printed { IfOk result (PrintsDue (KnowsAll (S.held images.old) extent.now arenas.now) (λ contents. printed (sectors_bytes (map (state_at (words_by extent.now contents)) arenas.now))) (O.written text.old) (O.written text.new) (O.kept text.old) (O.kept text.new)) }
    ensures nothing { OnErr result (O.written text.new ≡ O.written text.old) }
    ensures quiet { OnErr result (O.faults text.new ≡ O.faults text.old) }
    ensures same { S.held images.new ≡ S.held images.old }
    ensures later { S.faults images.old ≤ S.faults images.new }
    ensures before { result ≡ Err RunStop.ReadFault → Rose (S.faults images.old) (S.faults images.new) }
    ensures read { result ≡ Ok Status.ReadFault → Rose (S.faults images.old) (S.faults images.new) }
    ensures failed { result ≡ Ok Status.WriteFault → Rose (O.faults text.old) (O.faults text.new) }
{
    let Ok(mut buffer) = vec![in alloc; 0; PIECE] else {
        return Err(RunStop::OutOfMemory);
    };
    Ok(status_after(print_sectors(images, extent, arenas, &mut buffer, text)))
}

/// The report that the export is refused for a bad sector.
fn bad_answer(alloc: Global, sector: u64) -> Result<Report, AllocError>
    ensures { IfOk result (λ answer. outcome_of answer ≡ refused_outcome (codes "BadSector " ++ decimal sector)) }
{
    refused_answer(alloc, &format!(in alloc; "BadSector {}", sector)?)
}

/// Returns the bad sector for which the export is refused, or none if bad ones count as zeros.
fn refused_at(arenas: &[ArenaRead], zeros: bool) -> Option<u64>
    requires { AreSized arenas.now }
    ensures { (words uuid : List ℕ) → AreAll words uuid arenas.now → result ≡ refused_at zeros (map (state_at words) arenas.now) }
{
    if zeros { None } else { first_bad(arenas) }
}

/// Prints the bytes of all sectors, or refuses for a bad sector unless bad ones count as zeros. Out of memory comes before the
/// first byte.
pub(crate) fn sectors_answer<S: ImageSource, O: TextSink>(
    alloc: Global,
    images: &mut S,
    extent: &SetExtent<'_>,
    arenas: &[ArenaRead],
    zeros: bool,
    text: &mut O,
) -> Result<Status, RunStop>
    requires sized { AreSized arenas.now }
    requires within { AreWithin (raw_bytes extent.now) arenas.now }
    requires there { HasEnds (S.held images.old) extent.now.set }
    ensures printed { IfOk result (PrintsDue (KnowsAll (S.held images.old) extent.now arenas.now) (λ contents. sectors_outcome zeros (map (state_at (words_by extent.now contents)) arenas.now)) (O.written text.old) (O.written text.new) (O.kept text.old) (O.kept text.new)) }
    ensures nothing { OnErr result (O.written text.new ≡ O.written text.old) }
    ensures quiet { OnErr result (O.faults text.new ≡ O.faults text.old) }
    ensures same { S.held images.new ≡ S.held images.old }
    ensures later { S.faults images.old ≤ S.faults images.new }
    ensures before { result ≡ Err RunStop.ReadFault → Rose (S.faults images.old) (S.faults images.new) }
    ensures read { result ≡ Ok Status.ReadFault → Rose (S.faults images.old) (S.faults images.new) }
    ensures failed { result ≡ Ok Status.WriteFault → Rose (O.faults text.old) (O.faults text.new) }
{
    match refused_at(arenas, zeros) {
        Some(sector) => print_made(bad_answer(alloc, sector), text),
        None => all_sectors(alloc, images, extent, arenas, text),
    }
}
