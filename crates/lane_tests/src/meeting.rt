//! How two threads meet in their tasks. Each has a flag that it raises and that the other looks for,
//! so often and no longer.

use agent_core::Gate;
use std::sync::atomic::{AtomicBool, Ordering};
use std::thread;

// How often a thread looks for a flag. It lets others run between two looks.
const LOOKS: u32 = 5_000_000;

/// The flags of the two threads.
#[derive(Drop)]
pub(crate) struct Flags {
    first: AtomicBool,
    second: AtomicBool,
}

impl Flags {
    pub(crate) fn new() -> Flags {
        Flags {
            first: AtomicBool::new(false),
            second: AtomicBool::new(false),
        }
    }

    pub(crate) fn of_first(&self, when: When) -> Meeting<'_> {
        Meeting {
            when,
            own: &self.first,
            other: &self.second,
            met: false,
        }
    }

    pub(crate) fn of_second(&self, when: When) -> Meeting<'_> {
        Meeting {
            when,
            own: &self.second,
            other: &self.first,
            met: false,
        }
    }
}

/// When a thread meets the other one.
#[derive(Clone, Copy)]
pub(crate) enum When {
    /// Before its task, as the other does.
    Before,
    /// In the middle of its task: the other does all of its own meanwhile.
    Within,
    /// Before its task, once the other is in the middle of its own.
    Between,
    Never,
}

/// One of the two, and whether it met the other.
#[derive(Drop)]
pub(crate) struct Meeting<'f> {
    when: When,
    own: &'f AtomicBool,
    other: &'f AtomicBool,
    pub(crate) met: bool,
}

// Whether the flag is raised at one of the looks.
fn is_raised(flag: &AtomicBool) -> bool {
    for _ in 0..LOOKS {
        if flag.load(Ordering::SeqCst) {
            return true;
        }
        thread::yield_now();
    }
    false
}

impl Meeting<'_> {
    /// Before the task.
    pub(crate) fn begin(&mut self) {
        match self.when {
            When::Before => self.call(),
            When::Between => self.met = is_raised(self.other),
            When::Within | When::Never => {}
        }
    }

    /// After the task.
    pub(crate) fn end(&mut self) {
        if let When::Between = self.when {
            self.own.store(true, Ordering::SeqCst);
        }
    }

    // Raises the flag, and looks for the other's.
    fn call(&mut self) {
        self.own.store(true, Ordering::SeqCst);
        self.met = is_raised(self.other);
    }
}

impl Gate for Meeting<'_> {
    fn between(&mut self) {
        if let When::Within = self.when {
            self.call();
        }
    }
}
