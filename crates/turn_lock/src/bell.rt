//! How waiters sleep, and how a release wakes one of them. The bell stands beside the table, and no
//! proof rests on it.
use std::sync::Wait;
use std::sync::atomic::AtomicU64;
use std::sync::atomic::Ordering::SeqCst;

// No wake-up is lost. A thread that is going to sleep reads the bell, counts itself, and only then
// looks at the lock's word. A release stores 0 in the word, and only then looks at the count. If
// the release finds nobody counted, the sleeper finds the turn free, or a later holder, whose
// release finds the sleeper counted. If the bell is rung before the sleeper sleeps, the sleeper
// finds another number there.
#[derive(Drop)]
pub(crate) struct Bell {
    // How many wake-ups are owed: at least as many as threads sleep.
    owed: AtomicU64,
    // How often the bell was rung. Threads sleep on this word.
    rings: AtomicU64,
}

impl Bell {
    pub(crate) fn new() -> Bell {
        Bell {
            owed: AtomicU64::new(0),
            rings: AtomicU64::new(0),
        }
    }

    // Counts a thread that is going to sleep, and returns how often the bell was rung before.
    pub(crate) fn announce(&self) -> u64 {
        let rings = self.rings.load(SeqCst);
        self.owed.fetch_add(1, SeqCst);
        rings
    }

    // Sleeps until the bell is rung again. It may also return spuriously.
    pub(crate) fn sleep<R: Wait>(&self, rt: &R, rings: u64) {
        self.rings.park(rt, low_half(rings));
    }

    // Wakes one thread, if any is counted. If the count changes meanwhile, a wake-up too many may
    // stay owed, which is harmless.
    pub(crate) fn ring(&self) {
        let owed = self.owed.load(SeqCst);
        if owed == 0 {
            return;
        }
        let _ = self.owed.compare_exchange(owed, owed - 1, SeqCst, SeqCst);
        self.rings.fetch_add(1, SeqCst);
        self.rings.wake_one();
    }
}

fn low_half(word: u64) -> u32 {
    (word & 0xffff_ffff) as u32
}
