//! Why tokens are not in the grammar.
ghost use Rattle.std.specs.Prelude.{◌≡◌};
ghost use Rattle.parser.specs.declared.syntax_error.SyntaxError.TheVariants.{NoMemory};

use std::alloc::{AllocError, AllocFailed};

/// Why tokens are not in the grammar.
#[derive(Clone, Copy, Debug, PartialEq, Eq)]
pub(crate) enum SyntaxError {
    /// With the first of the last `left` tokens no text is in the grammar; where none are left, the tokens are a
    /// beginning of one.
    Unexpected { left: usize },
    NoMemory,
}

impl From<AllocError> for SyntaxError {
    ghost from_gives = { λ _ e. e ≡ NoMemory };

    fn from(_error: AllocError) -> SyntaxError {
        SyntaxError::NoMemory
    }
}

impl<T: Drop> From<AllocFailed<T>> for SyntaxError {
    ghost from_gives = { λ _ e. e ≡ NoMemory };

    fn from(_error: AllocFailed<T>) -> SyntaxError {
        SyntaxError::NoMemory
    }
}
