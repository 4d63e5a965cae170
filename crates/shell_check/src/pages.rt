//! The pages of a namespace that may be info blocks.
ghost use Rattle.std.specs.Prelude.{◌≡◌, ℕ, ◌+◌, ◌-◌, ◌*◌, ◌/◌, ◌%◌, ◌^◌, ◌≤◌, IfOk, IfSome, List, drop};
ghost use Rattle.std.specs.Str.{bytes_eq};
ghost use Rattle.nvd_media.specs.Causes.{HasCause};
ghost use Rattle.arena_layout.specs.Info.{IsArenaOf};
ghost use Rattle.arena_open.specs.Reading.{info_bytes};
ghost use Rattle.arena_check.specs.Check.{backup_finding, info_used, page_at, page_reading, source_of};
ghost use Rattle.power_cut.specs.Namespace.{raw_bytes};
ghost use Rattle.namespace_words.specs.Source.{AreBytesOf, HasEnds, Reveals, words_by};
ghost use Rattle.nvd_words.specs.Bytes.{AreBytes};

use arena_check::{Finding, InfoSource, backup_finding, used_info};
use arena_layout::Info;
use namespace_words::read_extent;
use nvd_media::{Failed, ImageSource};
use power_cut::SetExtent;
use uuid::Uuid;

/// How many words a page of 4,096 bytes has.
const PAGE_WORDS: u64 = 512;

/// Reads the page of a namespace that begins with a word.
pub(crate) fn read_page<S: ImageSource>(
    images: &mut S,
    extent: &SetExtent<'_>,
    word: u64,
) -> Result<[u8; 4096], Failed>
    requires inside { 8 * word + 4096 ≤ raw_bytes extent.now }
    requires few { raw_bytes extent.now ≤ 2 ^ 55 }
    requires there { HasEnds (S.held images.old) extent.now.set }
    ensures told { (contents : List (List ℕ)) → Reveals (S.held images.old) extent.now.set contents → IfOk result (λ page. page ≡ page_at word (words_by extent.now contents)) }
    ensures words { (contents : List (List ℕ)) → Reveals (S.held images.old) extent.now.set contents → IfOk result (AreBytesOf (words_by extent.now contents) word) }
    ensures fit { IfOk result AreBytes }
    ensures same { S.held images.new ≡ S.held images.old }
    ensures cause { HasCause (S.faults images.old) (S.faults images.new) result }
{
    let mut page = [0; 4096];
    read_extent(images, extent, 8 * word, &mut page)?;
    Ok(page)
}

/// Reads the first info block of the arena whose first word is `at`, and the namespace's last page. It returns which of
/// them is used, and the bytes of the first one.
pub fn read_source<S: ImageSource>(
    images: &mut S,
    extent: &SetExtent<'_>,
    at: u64,
    parent: &Uuid,
) -> Result<(InfoSource, [u8; 4096]), Failed>
    requires pages { raw_bytes extent.now % 4096 ≡ 0 }
    requires few { raw_bytes extent.now ≤ 2 ^ 55 }
    requires inside { 8 * at + 4096 ≤ raw_bytes extent.now }
    requires there { HasEnds (S.held images.old) extent.now.set }
    ensures told { (contents : List (List ℕ)) → Reveals (S.held images.old) extent.now.set contents → IfOk result (λ read. (read.0 ≡ source_of (drop at (words_by extent.now contents)) parent.now) × (read.1 ≡ info_bytes (drop at (words_by extent.now contents)))) }
    ensures sound { IfOk result (λ read. IfSome (info_used read.0) (IsArenaOf parent.now (raw_bytes extent.now - 8 * at))) }
    ensures same { S.held images.new ≡ S.held images.old }
    ensures cause { HasCause (S.faults images.old) (S.faults images.new) result }
{
    let bytes = extent.bytes();
    let first = read_page(images, extent, at)?;
    let last = read_page(images, extent, bytes / 8 - PAGE_WORDS)?;
    Ok((used_info(&first, &last, parent, bytes - 8 * at), first))
}

/// Reads the backup of the arena whose first word is `at`, and compares it with its first info block, which is used.
pub(crate) fn read_backup<S: ImageSource>(
    images: &mut S,
    extent: &SetExtent<'_>,
    at: u64,
    parent: &Uuid,
    first: &[u8; 4096],
    info: &Info,
) -> Result<Option<Finding>, Failed>
    requires pages { raw_bytes extent.now % 4096 ≡ 0 }
    requires few { raw_bytes extent.now ≤ 2 ^ 55 }
    requires inside { 8 * at + 4096 ≤ raw_bytes extent.now }
    requires arena { IsArenaOf parent.now (raw_bytes extent.now - 8 * at) info.now }
    requires there { HasEnds (S.held images.old) extent.now.set }
    ensures told { (contents : List (List ℕ)) → Reveals (S.held images.old) extent.now.set contents → (words : List ℕ) → words ≡ drop at (words_by extent.now contents)
        → IfOk result (λ finding. finding ≡ backup_finding (bytes_eq first.now (page_at (info.now.layout.info_off / 8) words)) (page_reading (info.now.layout.info_off / 8) words parent.now)) }
    ensures same { S.held images.new ≡ S.held images.old }
    ensures cause { HasCause (S.faults images.old) (S.faults images.new) result }
{
    let rest = extent.bytes() - 8 * at;
    let backup = read_page(images, extent, at + info.layout.info_off / 8)?;
    Ok(backup_finding(first, &backup, parent, rest))
}
