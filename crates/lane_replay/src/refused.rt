use lane_core::Phase;

/// Why a line of a schedule isn't carried out.
#[derive(Clone, Copy, Debug, PartialEq, Eq)]
pub(crate) enum Refused {
    /// There is no such lane. The arena has this many.
    Lane { count: u32 },
    /// There is no such sector. The arena has this many.
    Range { count: u32 },
    /// The value has `said` bytes, but a sector has `had`.
    Length { said: u64, had: u64 },
    /// The lane is in a call.
    LaneBusy { phase: Phase },
}
