//! The bytes of a namespace whose contents stay in the source.
ghost use Rattle.std.specs.Prelude.{◌≡◌, ℕ, ◌+◌, ◌/◌, ◌%◌, ◌≤◌, List, OnOk, length, take, drop};
ghost use Rattle.nvd_words.specs.Bytes.{AreBytes};
ghost use Rattle.nvd_media.specs.Causes.{HasCause};
ghost use Rattle.power_cut.specs.Namespace.{raw_bytes};
ghost use Rattle.namespace_words.specs.Source.{AreBytesOf, HasEnds, Reveals, bytes_by, words_by};

use nvd_media::{Failed, ImageSource, Object};
use power_cut::SetExtent;

/// States the bound of the bytes' type as a clause. It does nothing at run time.
fn know_bytes(bytes: &[u8])
    ensures { AreBytes bytes.now }
{
    if let Some(byte) = bytes.first() {
        prove!(*byte <= u8::MAX);
    }
}

/// Fills `into` with the bytes of a namespace from the byte `first` on, interleave line by interleave line.
///
/// They must lie in the namespace. If the source reveals its contents, these must reach the end of each of the set's mappings.
/// After `Failed` the buffer may hold any bytes.
pub fn read_extent<S: ImageSource>(
    images: &mut S,
    extent: &SetExtent<'_>,
    first: u64,
    into: &mut [u8],
) -> Result<(), Failed>
    requires inside { first + length into.old ≤ raw_bytes extent.now }
    requires there { HasEnds (S.held images.old) extent.now.set }
    ensures told { (contents : List (List ℕ)) → Reveals (S.held images.old) extent.now.set contents → OnOk result (into.new ≡ take (length into.old) (drop first (bytes_by extent.now contents))) }
    ensures words { (contents : List (List ℕ)) → Reveals (S.held images.old) extent.now.set contents → first % 8 ≡ 0 → OnOk result (AreBytesOf (words_by extent.now contents) (first / 8) into.new) }
    ensures fit { OnOk result (AreBytes into.new) }
    ensures same { S.held images.new ≡ S.held images.old }
    ensures cause { HasCause (S.faults images.old) (S.faults images.new) result }
{
    let _bytes = extent.bytes();
    let mut done = 0;
    while done < into.len() {
        let byte = first + done as u64;
        let (module, address) = extent.place(byte);
        let left = (into.len() - done) as u64;
        let size = extent.run_length(byte).min(left) as usize;
        images.read(
            Object::Contents(module),
            address,
            &mut into[done..done + size],
        )?;
        done += size;
    }
    know_bytes(into);
    Ok(())
}
