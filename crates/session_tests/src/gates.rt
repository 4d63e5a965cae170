//! Gates that hold a call back until another was made.
use nvd_media::Gate;
use std::sync::atomic::{AtomicBool, Ordering};
use std::thread;

/// How often a gate looks before it gives up.
const LOOKS: u32 = 10_000_000;

/// Something that comes once, and whether a gate gave up waiting for it.
#[derive(Drop)]
pub struct Event {
    came: AtomicBool,
    missed: AtomicBool,
}

impl Event {
    pub fn new() -> Event {
        Event {
            came: AtomicBool::new(false),
            missed: AtomicBool::new(false),
        }
    }

    fn come(&self) {
        self.came.store(true, Ordering::Release);
    }

    /// Waits until it came.
    fn wait(&self) {
        for _ in 0..LOOKS {
            if self.came.load(Ordering::Acquire) {
                return;
            }
            thread::yield_now();
        }
        self.missed.store(true, Ordering::Release);
    }

    /// Whether it came, and nobody gave up waiting for it.
    pub fn was_awaited(&self) -> bool {
        self.came.load(Ordering::Acquire) && !self.missed.load(Ordering::Acquire)
    }
}

/// Holds the first call of session 0 until the first call of session 1 was answered.
#[derive(Drop)]
pub struct SecondFirst {
    pub answered: Event,
}

impl Gate for SecondFirst {
    fn enter(&self, session: u32, call: u32) {
        if session == 0 && call == 0 {
            self.answered.wait();
        }
    }

    fn staged(&self, _session: u32, _call: u32) {}

    fn answered(&self, session: u32, call: u32) {
        if session == 1 && call == 0 {
            self.answered.come();
        }
    }
}

/// Holds the write of session 1, its call 1, until the write of session 0 has staged its block; and holds that write there until the
/// write of session 1 was answered.
#[derive(Drop)]
pub struct WriteInWrite {
    pub staged: Event,
    pub answered: Event,
}

impl Gate for WriteInWrite {
    fn enter(&self, session: u32, call: u32) {
        if session == 1 && call == 1 {
            self.staged.wait();
        }
    }

    fn staged(&self, session: u32, call: u32) {
        if session == 0 && call == 1 {
            self.staged.come();
            self.answered.wait();
        }
    }

    fn answered(&self, session: u32, call: u32) {
        if session == 1 && call == 1 {
            self.answered.come();
        }
    }
}
