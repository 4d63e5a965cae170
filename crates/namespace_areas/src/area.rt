use label_area::{AreaRefused, LabelArea};

/// A module's label area, as far as it was read.
#[derive(Debug, Drop)]
pub enum Area {
    /// The module has none.
    Absent,
    /// It has no valid index block, or one of another version; its words are as they were read.
    Refused(AreaRefused),
    /// It is open.
    Ready(LabelArea),
}
