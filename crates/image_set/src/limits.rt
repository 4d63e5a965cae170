//! The sizes that objects may have (this project's limits).
ghost use Rattle.std.specs.Prelude.{◌≡◌, ◌≤◌};
ghost use Rattle.image_set.specs.Limits.{most_contents, is_nfit_size, is_contents_size, is_bad_size};

/// The most bytes of the firmware's table.
const NFIT_BYTES: u64 = 1 << 20;

/// The size of contents is a multiple of this, in bytes.
const PAGE_BYTES: u64 = 4096;

/// The most bytes of all contents together.
const CONTENTS_BYTES: u64 = 1 << 44;

/// The bytes of one bad range: its start and its length.
const RANGE_BYTES: u64 = 16;

/// The most bytes of a list of bad ranges.
const BAD_BYTES: u64 = 64 << 10;

/// Returns whether the firmware's table may have this size, in bytes.
pub(crate) fn is_nfit_size(bytes: u64) -> bool
    ensures { result ≡ is_nfit_size bytes }
{
    bytes <= NFIT_BYTES
}

/// Returns whether the contents of a module may have this size, after `before` bytes of the modules
/// before it.
pub(crate) fn is_contents_size(before: u64, bytes: u64) -> bool
    requires { before ≤ most_contents }
    ensures { result ≡ is_contents_size before bytes }
{
    1 <= bytes && bytes % PAGE_BYTES == 0 && bytes <= CONTENTS_BYTES - before
}

/// Returns whether a list of bad ranges may have this size, in bytes.
pub(crate) fn is_bad_size(bytes: u64) -> bool
    ensures { result ≡ is_bad_size bytes }
{
    bytes % RANGE_BYTES == 0 && bytes <= BAD_BYTES
}
