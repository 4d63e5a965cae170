//! The bytes of a raw namespace.
ghost use Rattle.std.specs.Prelude.{◌≡◌, ◌+◌, ◌*◌, ◌/◌, ◌≤◌, IfOk, Ok, Err, OnOk, OnErr, drop, length, take};
ghost use Rattle.nvd_media.specs.Causes.{Rose};
ghost use Rattle.cut_words.specs.WordBytes.{bytes_of};
ghost use Rattle.namespace_words.specs.Source.{HasEnds, Reveals, words_by};
ghost use Rattle.power_cut.specs.Namespace.{raw_bytes};
ghost use Rattle.shell_reports.specs.Outcome.{printed};
ghost use Rattle.shell_export.specs.Printing.{PrintsAll, PrintsDue, PrintsFront};

use crate::pieces::{PIECE, PrintStop, print_bytes, status_after};
use namespace_words::read_extent;
use nvd_media::{ImageSource, TextSink};
use power_cut::SetExtent;
use shell_reports::{RunStop, Status};
use std::alloc::Global;

/// The size of a word, in bytes.
const WORD: u64 = 8;

/// Reads words of a namespace, from word `at` on as many as the piece has room for, and prints their bytes.
fn print_piece<S: ImageSource, O: TextSink>(
    images: &mut S,
    extent: &SetExtent<'_>,
    at: u64,
    piece: &mut [u8],
    text: &mut O,
) -> Result<(), PrintStop>
    requires inside { 8 * at + length piece.old ≤ raw_bytes extent.now }
    requires whole { length piece.old ≡ 8 * (length piece.old / 8) }
    requires there { HasEnds (S.held images.old) extent.now.set }
    ensures all { OnOk result (PrintsAll (Reveals (S.held images.old) extent.now.set) (λ contents. bytes_of (take (length piece.old / 8) (drop at (words_by extent.now contents)))) (O.written text.old) (O.written text.new) (O.kept text.old) (O.kept text.new)) }
    ensures part { OnErr result (PrintsFront (Reveals (S.held images.old) extent.now.set) (λ contents. bytes_of (take (length piece.old / 8) (drop at (words_by extent.now contents)))) (O.written text.old) (O.written text.new)) }
    ensures same { S.held images.new ≡ S.held images.old }
    ensures later { S.faults images.old ≤ S.faults images.new }
    ensures later_text { O.faults text.old ≤ O.faults text.new }
    ensures read { result ≡ Err PrintStop.Read → Rose (S.faults images.old) (S.faults images.new) }
    ensures write { result ≡ Err PrintStop.Write → Rose (O.faults text.old) (O.faults text.new) }
{
    let _bytes = extent.bytes();
    match read_extent(images, extent, WORD * at, piece) {
        Ok(()) => print_bytes(piece, text),
        Err(_) => Err(PrintStop::Read),
    }
}

/// Prints all bytes of a namespace, as many at a time as the piece has room for.
fn print_pieces<S: ImageSource, O: TextSink>(
    images: &mut S,
    extent: &SetExtent<'_>,
    piece: &mut [u8],
    text: &mut O,
) -> Result<(), PrintStop>
    requires piece { length piece.old ≡ 262144 }
    requires there { HasEnds (S.held images.old) extent.now.set }
    ensures all { OnOk result (PrintsAll (Reveals (S.held images.old) extent.now.set) (λ contents. bytes_of (words_by extent.now contents)) (O.written text.old) (O.written text.new) (O.kept text.old) (O.kept text.new)) }
    ensures part { OnErr result (PrintsFront (Reveals (S.held images.old) extent.now.set) (λ contents. bytes_of (words_by extent.now contents)) (O.written text.old) (O.written text.new)) }
    ensures same { S.held images.new ≡ S.held images.old }
    ensures later { S.faults images.old ≤ S.faults images.new }
    ensures read { result ≡ Err PrintStop.Read → Rose (S.faults images.old) (S.faults images.new) }
    ensures write { result ≡ Err PrintStop.Write → Rose (O.faults text.old) (O.faults text.new) }
{
    let count = extent.bytes() / WORD;
    let mut at = 0;
    while at < count {
        let size = (count - at).min(PIECE as u64 / WORD);
        let bytes = &mut piece[..(WORD * size) as usize];
        print_piece(images, extent, at, bytes, text)?;
        at += size;
    }
    Ok(())
}

/// Prints all bytes of a raw namespace. Out of memory comes before the first byte.
pub(crate) fn raw_answer<S: ImageSource, O: TextSink>(
    alloc: Global,
    images: &mut S,
    extent: &SetExtent<'_>,
    text: &mut O,
) -> Result<Status, RunStop>
    requires there { HasEnds (S.held images.old) extent.now.set }
    ensures printed { IfOk result (PrintsDue (Reveals (S.held images.old) extent.now.set) (λ contents. printed (bytes_of (words_by extent.now contents))) (O.written text.old) (O.written text.new) (O.kept text.old) (O.kept text.new)) }
    ensures nothing { OnErr result (O.written text.new ≡ O.written text.old) }
    ensures quiet { OnErr result (O.faults text.new ≡ O.faults text.old) }
    ensures same { S.held images.new ≡ S.held images.old }
    ensures later { S.faults images.old ≤ S.faults images.new }
    ensures before { result ≡ Err RunStop.ReadFault → Rose (S.faults images.old) (S.faults images.new) }
    ensures read { result ≡ Ok Status.ReadFault → Rose (S.faults images.old) (S.faults images.new) }
    ensures failed { result ≡ Ok Status.WriteFault → Rose (O.faults text.old) (O.faults text.new) }
{
    let Ok(mut piece) = vec![in alloc; 0; PIECE] else {
        return Err(RunStop::OutOfMemory);
    };
    Ok(status_after(print_pieces(images, extent, &mut piece, text)))
}
