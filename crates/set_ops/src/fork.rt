//! Levels at which halves go to two threads.

/// Told of each half that may run beside the other.
pub trait Fork {
    /// Called as a half of a forked level begins, by the thread that does it. The levels are counted
    /// from 1. `second` is false for the half below the head at which the sets are cut, and true for
    /// the half above it.
    fn enter(&self, level: u32, second: bool);
}

/// How a recursion by halves continues: at so many more levels its halves go to two threads, the first of
/// which is `level`, and `fork` is called with each half.
pub struct Forking<'a, F> {
    pub forks: u32,
    pub level: u32,
    pub fork: &'a F,
}

impl<F> Drop for Forking<'_, F> {
    fn drop(self) {
        let Forking {
            forks: _,
            level: _,
            fork: _,
        } = self;
    }
}

/// A [`Fork`] that does nothing.
#[derive(Clone, Copy, Debug)]
pub struct Quiet;

impl Fork for Quiet {
    fn enter(&self, _level: u32, _second: bool) {}
}
