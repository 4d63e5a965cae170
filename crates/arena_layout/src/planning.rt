ghost use Rattle.std.specs.Prelude.{◌≡◌, ◌+◌, ◌*◌, ◌%◌, ◌^◌, ◌<◌, ◌≤◌, IsTrue, IfOk};
ghost use Rattle.arena_layout.specs.Layout.{is_sector, least_size, greatest_size, IsLayout};
ghost use Rattle.arena_layout.specs.Plan.{whole_size, log_size, available_of, inner_of, internal_of, map_size, plan_of, is_lane_count, planned};

use crate::layout::{Layout, LayoutFault};

/// The areas and the info blocks are whole pages.
const PAGE: u64 = 4096;
/// 16 MiB.
const LEAST_SIZE: u64 = 16 << 20;
/// 512 GiB.
const GREATEST_SIZE: u64 = 512 << 30;

/// Returns whether this sector size is supported.
#[tactic(auto, unfolding(crate::specs::Layout::is_sector))]
pub(crate) fn is_sector(bytes: u32) -> bool
    ensures { result ≡ is_sector bytes }
{
    matches!(bytes, 512 | 520 | 528 | 4096 | 4104 | 4160 | 4224)
}

#[tactic(auto, unfolding(crate::specs::Plan::is_lane_count))]
fn is_lane_count(lanes: u32) -> bool
    ensures test { result ≡ is_lane_count lanes }
    ensures means { IsTrue result → lanes ≤ 256 }
{
    1 <= lanes && lanes <= 256
}

/// Returns the size of the log, in bytes.
#[tactic(auto, unfolding(crate::specs::Plan::log_size))]
fn log_size(lanes: u32) -> u64
    requires { lanes ≤ 256 }
    ensures size { result ≡ log_size lanes }
    ensures small { result ≤ 16384 }
{
    (64 * u64::from(lanes)).div_ceil(PAGE) * PAGE
}

/// Returns the size of the map, in bytes.
#[tactic(auto, unfolding(crate::specs::Plan::map_size))]
fn map_size(external: u32) -> u64
    requires { external ≤ 2 ^ 30 }
    ensures size { result ≡ map_size external }
    ensures small { result ≤ 4 * external + 4095 }
{
    (4 * u64::from(external)).div_ceil(PAGE) * PAGE
}

/// Returns the bytes that are left for the blocks and the map, besides the info blocks and the log.
#[tactic(auto, unfolding(crate::specs::Plan::available_of, crate::specs::Plan::whole_size))]
fn available(size: u64, lanes: u32) -> u64
    requires low { least_size ≤ size }
    requires high { size ≤ greatest_size }
    requires few { lanes ≤ 256 }
    ensures bytes { result ≡ available_of size lanes }
    ensures enough { 16752640 ≤ result }
    ensures small { result ≤ greatest_size }
{
    size / PAGE * PAGE - 2 * PAGE - log_size(lanes)
}

/// Returns the size of a block, in bytes.
#[tactic(auto, unfolding(crate::specs::Plan::inner_of))]
fn inner_size(sector: u32) -> u32
    requires { IsTrue (is_sector sector) }
    ensures { result ≡ inner_of sector }
{
    sector.div_ceil(64) * 64
}

/// Returns how many blocks fit, each with its map entry.
fn internal_blocks(available: u64, sector: u32) -> u32
    requires sector { IsTrue (is_sector sector) }
    requires enough { 16752640 ≤ available }
    requires small { available ≤ greatest_size }
    ensures blocks { result ≡ internal_of available sector }
    ensures some { 257 ≤ result }
    ensures few { result ≤ 2 ^ 30 }
    ensures entries { 4 * result + 4096 ≤ available }
{
    ((available - PAGE) / (u64::from(inner_size(sector)) + 4)) as u32
}

#[tactic(auto, unfolding(crate::specs::Plan::plan_of))]
fn laid_out(size: u64, sector: u32, lanes: u32) -> Layout
    requires low { least_size ≤ size }
    requires high { size ≤ greatest_size }
    requires sector { IsTrue (is_sector sector) }
    requires few { lanes ≤ 256 }
    ensures { result ≡ plan_of size sector lanes }
{
    let available = available(size, lanes);
    let internal = internal_blocks(available, sector);
    let external = internal - lanes;
    let map_off = PAGE + available - map_size(external);
    let flog_off = map_off + map_size(external);
    let info_off = flog_off + log_size(lanes);
    Layout {
        size: info_off + PAGE,
        sector,
        inner: inner_size(sector),
        external,
        internal,
        lanes,
        data_off: PAGE,
        map_off,
        flog_off,
        info_off,
    }
}

#[tactic(auto, using(nvd_words::proofs::Checks::checks))]
fn plan_checked(size: u64, sector: u32, lanes: u32) -> Result<Layout, LayoutFault>
    ensures { result ≡ planned size sector lanes }
{
    if !is_sector(sector) {
        return Err(LayoutFault::Sector { bytes: sector });
    }
    if !is_lane_count(lanes) {
        return Err(LayoutFault::Free { count: lanes });
    }
    if size < LEAST_SIZE {
        return Err(LayoutFault::TooSmall { size });
    }
    if size > GREATEST_SIZE {
        return Err(LayoutFault::TooLarge { size });
    }
    Ok(laid_out(size, sector, lanes))
}

/// Returns the layout of a new arena of `size` bytes, rounded down to a multiple of 4,096, with
/// sectors of `sector` bytes and `lanes` lanes.
///
/// It refuses with the first of Sector, Free, TooSmall and TooLarge that applies.
pub fn plan(size: u64, sector: u32, lanes: u32) -> Result<Layout, LayoutFault>
    ensures plan { result ≡ planned size sector lanes }
    ensures layout { IfOk result IsLayout }
{
    plan_checked(size, sector, lanes)
}
