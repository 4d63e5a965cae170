use crate::traits::Gate;

/// Delays no call.
#[derive(Clone, Copy, Debug)]
pub struct NoGate;

impl Gate for NoGate {
    fn enter(&self, _session: u32, _call: u32) {}

    fn staged(&self, _session: u32, _call: u32) {}

    fn answered(&self, _session: u32, _call: u32) {}
}
