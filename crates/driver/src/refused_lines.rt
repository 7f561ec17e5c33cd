//! The first lines of a script that were refused.

use refusal_text::RefusedLine;
use std::cell::Cell;

/// How many refused lines are kept.
const MOST_KEPT: usize = 10;

const NO_LINE: RefusedLine = RefusedLine { line: 0, number: 0 };

/// Counts the lines of a script, keeps the first that are refused, and counts all that are.
#[derive(Drop)]
pub(crate) struct RefusedLines {
    line: Cell<u64>,
    count: Cell<u64>,
    kept: Cell<[RefusedLine; MOST_KEPT]>,
}

impl RefusedLines {
    pub(crate) fn new() -> RefusedLines {
        RefusedLines {
            line: Cell::new(0),
            count: Cell::new(0),
            kept: Cell::new([NO_LINE; MOST_KEPT]),
        }
    }

    /// The next line begins.
    pub(crate) fn begin_line(&self) {
        self.line.set(self.line.get().saturating_add(1));
    }

    /// The line is refused by this number.
    pub(crate) fn see(&self, number: u16) {
        let count = self.count.get();
        if count < MOST_KEPT as u64 {
            let mut kept = self.kept.get();
            kept[count as usize] = RefusedLine {
                line: self.line.get(),
                number,
            };
            self.kept.set(kept);
        }
        self.count.set(count.saturating_add(1));
    }

    /// How many lines were refused.
    pub(crate) fn count(&self) -> u64 {
        self.count.get()
    }

    /// The first refused lines, and after them lines of the number 0.
    pub(crate) fn kept(&self) -> [RefusedLine; MOST_KEPT] {
        self.kept.get()
    }
}
