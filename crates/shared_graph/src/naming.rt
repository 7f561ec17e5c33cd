//! The name of a shared graph in the types of its readers, tokens and held versions.

use std::marker::Brand;

/// Which shared graph it is: its book, how many vertices it has, and for how many entries its history
/// has room. A graph, its readers, their tokens and the versions that they hold have it in their types,
/// so that those of two graphs do not meet. The call that makes an [`Opening`](crate::Opening) picks
/// it, by passing `Brand`.
pub trait Naming {
    ghost use Rattle.std.specs.Prelude.{ℕ};
    ghost use Rattle.logbook.specs.Pages.{Book};

    ghost book: { Book };

    ghost vertices: { ℕ };

    ghost room: { ℕ };
}

impl Naming for Brand {
    ghost book = { record { number = 0; log_name = 0; cells_name = 0 } };

    ghost vertices = { 1 };

    ghost room = { 0 };
}
