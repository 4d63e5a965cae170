//! How a session waits.
use nvd_media::Gate;
use std::sync::Wait;

/// How a session waits: for sets of lanes by `rt`, and as long as `gate` delays its calls.
#[derive(Drop)]
pub struct Waiting<'a, R: Wait, G: Gate> {
    pub rt: &'a R,
    /// Is told, outside all locks, when a call begins, has staged its block, and has returned.
    pub gate: &'a G,
}
