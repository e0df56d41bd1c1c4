//! Work whose end is not in sight tells for how long it has been going on.
use std::rt::Clock;
use std::sync::{Condvar, CondvarTimeouts, Mutex, Wait};
use std::thread;
use std::thread::Threads;
use std::time::Duration;

/// Whether some work has ended.
#[derive(Drop)]
struct Ending {
    has_ended: Mutex<bool>,
    told: Condvar,
}

impl Ending {
    /// The work has ended.
    fn end<R: Wait>(&self, rt: &R) {
        let mut has_ended = self.has_ended.lock(rt);
        *has_ended = true;
        drop(has_ended);
        self.told.notify_all();
    }

    /// Waits for the end of the work, but no longer than a second, and tells whether it has ended.
    fn wait<R: Wait + Clock>(&self, rt: &R) -> bool {
        let has_ended = self.has_ended.lock(rt);
        if *has_ended {
            return true;
        }
        let (has_ended, _) = self
            .told
            .wait_timeout(rt, has_ended, Duration::from_secs(1));
        *has_ended
    }
}

/// Tells once a second, on standard error, for how many seconds the work has been going on, until it has ended.
fn tick<R: Eprint + Wait + Clock>(rt: &R, ending: &Ending) {
    let mut seconds: u64 = 0;
    for _ in rt.forever() {
        if ending.wait(rt) {
            return;
        }
        seconds = seconds.saturating_add(1);
        let _ = eprintln!(rt; "oltctl: {seconds} s");
    }
}

/// Does work, and tells meanwhile once a second that it is going on, where a thread for that can be made.
pub(crate) fn with_ticks<
    R: Eprint + Wait + Clock + Threads + Sync,
    T: Drop,
    F: FnOnce() -> T + Drop,
>(rt: &R, work: F) -> T
    requires { F.pre work }
{
    let ending = Ending {
        has_ended: Mutex::new(false),
        told: Condvar::new(),
    };
    let ending = &ending;
    thread::scope(
        thread::scope_env(),
        rt,
        move |scope| -> T
            requires { F.pre work }
        {
            let _ = scope.spawn(move || tick(rt, ending));
            let outcome = work();
            ending.end(rt);
            outcome
        },
    )
}
