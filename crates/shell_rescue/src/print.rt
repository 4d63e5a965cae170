//! The bytes of all sectors of the arenas, by their map entries.
ghost use Rattle.std.specs.Prelude.{◌≡◌, ◌^◌, ◌++◌, ◌≤◌, All, Err, IfOk, Ok, OnErr, OnOk, length, take};
ghost use Rattle.nvd_media.specs.Causes.{Rose};
ghost use Rattle.namespace_words.specs.Source.{HasEnds, Reveals, words_by};
ghost use Rattle.power_cut.specs.Namespace.{raw_bytes};
ghost use Rattle.shell_reports.specs.Outcome.{printed};
ghost use Rattle.shell_export.specs.Printing.{PrintsAll, PrintsBut, PrintsDue, PrintsFront};
ghost use Rattle.shell_rescue.specs.Reading.{IsReadable};
ghost use Rattle.shell_rescue.specs.Rescue.{arena_bytes, arenas_bytes};

use crate::arena::ArenaRescued;
use map_table::entry;
use nvd_media::{ImageSource, TextSink};
use power_cut::SetExtent;
use shell_export::{ArenaPlace, PIECE, PrintStop, add_entry, print_bytes, status_after};
use shell_reports::{RunStop, Status};
use std::alloc::Global;

/// Reads all sectors of an arena behind the filled bytes of a buffer. Whenever there is no room for
/// the next sector, the filled bytes are printed first. It returns how many are filled at the end.
fn add_arena<S: ImageSource, O: TextSink>(
    images: &mut S,
    extent: &SetExtent<'_>,
    arena: &ArenaRescued,
    filled: usize,
    buffer: &mut [u8],
    text: &mut O,
) -> Result<usize, PrintStop>
    requires readable { IsReadable (raw_bytes extent.now) arena.now }
    requires few { raw_bytes extent.now ≤ 2 ^ 55 }
    requires filled { filled ≤ length buffer.old }
    requires buffer { length buffer.old ≡ 262144 }
    requires there { HasEnds (S.held images.old) extent.now.set }
    ensures all { IfOk result (λ end. PrintsBut (Reveals (S.held images.old) extent.now.set) (λ contents. take filled buffer.old ++ arena_bytes (words_by extent.now contents) arena.now) (O.written text.old) (O.written text.new) (O.kept text.old) (O.kept text.new) (take end buffer.new)) }
    ensures filled { IfOk result (λ end. end ≤ length buffer.new) }
    ensures part { OnErr result (PrintsFront (Reveals (S.held images.old) extent.now.set) (λ contents. take filled buffer.old ++ arena_bytes (words_by extent.now contents) arena.now) (O.written text.old) (O.written text.new)) }
    ensures buffer { length buffer.new ≡ length buffer.old }
    ensures same { S.held images.new ≡ S.held images.old }
    ensures later { S.faults images.old ≤ S.faults images.new }
    ensures later_text { O.faults text.old ≤ O.faults text.new }
    ensures read { result ≡ Err PrintStop.Read → Rose (S.faults images.old) (S.faults images.new) }
    ensures write { result ≡ Err PrintStop.Write → Rose (O.faults text.old) (O.faults text.new) }
{
    let place = ArenaPlace {
        at: arena.at,
        layout: arena.layout,
    };
    let mut end = filled;
    for (sector, word) in arena.entries.as_slice().iter().enumerate() {
        let found = entry(*word, sector as u32);
        end = add_entry(images, extent, &place, found, end, buffer, text)?;
    }
    Ok(end)
}

/// Prints all sectors of the arenas, in order: as many at a time as the buffer has room for.
fn print_all<S: ImageSource, O: TextSink>(
    images: &mut S,
    extent: &SetExtent<'_>,
    arenas: &[ArenaRescued],
    buffer: &mut [u8],
    text: &mut O,
) -> Result<(), PrintStop>
    requires readable { All (IsReadable (raw_bytes extent.now)) arenas.now }
    requires few { raw_bytes extent.now ≤ 2 ^ 55 }
    requires buffer { length buffer.old ≡ 262144 }
    requires there { HasEnds (S.held images.old) extent.now.set }
    ensures all { OnOk result (PrintsAll (Reveals (S.held images.old) extent.now.set) (λ contents. arenas_bytes (words_by extent.now contents) arenas.now) (O.written text.old) (O.written text.new) (O.kept text.old) (O.kept text.new)) }
    ensures part { OnErr result (PrintsFront (Reveals (S.held images.old) extent.now.set) (λ contents. arenas_bytes (words_by extent.now contents) arenas.now) (O.written text.old) (O.written text.new)) }
    ensures same { S.held images.new ≡ S.held images.old }
    ensures later { S.faults images.old ≤ S.faults images.new }
    ensures read { result ≡ Err PrintStop.Read → Rose (S.faults images.old) (S.faults images.new) }
    ensures write { result ≡ Err PrintStop.Write → Rose (O.faults text.old) (O.faults text.new) }
{
    let mut filled = 0;
    for arena in arenas {
        filled = add_arena(images, extent, arena, filled, buffer, text)?;
    }
    print_bytes(&buffer[..filled], text)
}

/// Prints the bytes of all sectors of the arenas, in order, by their entries: a zero or bad one as
/// zeros, for which nothing is read. Out of memory comes before the first byte.
///
/// The arenas must lie in the namespace of the extent. If the source reveals its contents, these
/// must reach the end of each mapping of the set.
///
/// If it returns no status, memory ran out, and nothing was printed. The status is `Ok` if all was
/// printed; `ReadFault` or `WriteFault` if the source or the sink failed, and its count of failures
/// rose: then a front of the bytes was printed.
pub(crate) fn print_arenas<S: ImageSource, O: TextSink>(
    alloc: Global,
    images: &mut S,
    extent: &SetExtent<'_>,
    arenas: &[ArenaRescued],
    text: &mut O,
) -> Result<Status, RunStop>
    requires readable { All (IsReadable (raw_bytes extent.now)) arenas.now }
    requires few { raw_bytes extent.now ≤ 2 ^ 55 }
    requires there { HasEnds (S.held images.old) extent.now.set }
    ensures printed { IfOk result (PrintsDue (Reveals (S.held images.old) extent.now.set) (λ contents. printed (arenas_bytes (words_by extent.now contents) arenas.now)) (O.written text.old) (O.written text.new) (O.kept text.old) (O.kept text.new)) }
    ensures nothing { OnErr result (O.written text.new ≡ O.written text.old) }
    ensures quiet { OnErr result (O.faults text.new ≡ O.faults text.old) }
    ensures same { S.held images.new ≡ S.held images.old }
    ensures later { S.faults images.old ≤ S.faults images.new }
    ensures before { result ≡ Err RunStop.ReadFault → Rose (S.faults images.old) (S.faults images.new) }
    ensures read { result ≡ Ok Status.ReadFault → Rose (S.faults images.old) (S.faults images.new) }
    ensures failed { result ≡ Ok Status.WriteFault → Rose (O.faults text.old) (O.faults text.new) }
{
    let Ok(mut buffer) = vec![in alloc; 0; PIECE] else {
        return Err(RunStop::OutOfMemory);
    };
    Ok(status_after(print_all(images, extent, arenas, &mut buffer, text)))
}
