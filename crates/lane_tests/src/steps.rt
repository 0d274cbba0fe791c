//! What threads wait for.
use live_intake::{Gate, Pause};
use std::sync::{Mutex, Wait};
use std::thread;

/// How many steps were done, and whether a thread waited for one in vain.
#[derive(Drop)]
pub struct Steps {
    done: Mutex<u32>,
    late: Mutex<bool>,
}

impl Steps {
    /// No step was done.
    pub fn new() -> Steps {
        Steps {
            done: Mutex::new(0),
            late: Mutex::new(false),
        }
    }

    /// One step more was done.
    pub fn step<R: Wait>(&self, rt: &R) {
        let mut done = self.done.lock(rt);
        *done = done.saturating_add(1);
    }

    /// Waits until so many steps were done, for at most 1,000,000 turns, each of which takes and gives back the lock.
    pub fn wait_for<R: Wait>(&self, rt: &R, steps: u32) {
        for _ in 0..1_000_000 {
            if *self.done.lock(rt) >= steps {
                return;
            }
            thread::yield_now();
        }
        *self.late.lock(rt) = true;
    }

    /// Whether a thread waited in vain.
    pub fn was_late<R: Wait>(&self, rt: &R) -> bool {
        *self.late.lock(rt)
    }
}

/// Does the first step, and waits for the second.
#[derive(Drop)]
pub struct UntilAnswered<'a>(pub &'a Steps);

impl Pause for UntilAnswered<'_> {
    fn pause<R: Wait>(&self, rt: &R, _round: u32) {
        self.0.step(rt);
        self.0.wait_for(rt, 2);
    }
}

/// A gate at which each line waits until so many have come to it, or a pause in which each round does.
#[derive(Drop)]
pub struct UntilAllCome<'a> {
    pub lines: u32,
    pub steps: &'a Steps,
}

impl Gate for UntilAllCome<'_> {
    fn before<R: Wait>(&self, rt: &R, _line: u64) {
        self.steps.step(rt);
        self.steps.wait_for(rt, self.lines);
    }

    fn after<R: Wait>(&self, _rt: &R, _line: u64) {}
}

impl Pause for UntilAllCome<'_> {
    fn pause<R: Wait>(&self, rt: &R, _round: u32) {
        self.steps.step(rt);
        self.steps.wait_for(rt, self.lines);
    }
}
