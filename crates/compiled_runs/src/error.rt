//! Why a text was not run.
ghost use Rattle.std.specs.Prelude.{◌≡◌};
ghost use Rattle.compiled_runs.specs.declared.error.TextRunError.TheVariants.{NotCompiled, NotRun};
ghost use Rattle.compiled_runs.specs.Refusal.{number_of};

use compiler::CompileError;
use snapshot_runs::LatestRunError;
use thiserror::Error;

/// Why a text was not run on the newest version.
#[derive(Clone, Copy, Debug, PartialEq, Eq, Error)]
pub enum TextRunError {
    #[error("{0}")]
    NotCompiled(CompileError),
    #[error("{0}")]
    NotRun(LatestRunError),
}

impl TextRunError {
    /// The number by which users know the refusal: one of [`CompileError`], or one of [`LatestRunError`].
    pub fn number(self) -> u16
        ensures { result ≡ number_of self }
    {
        match self {
            TextRunError::NotCompiled(error) => error.number(),
            TextRunError::NotRun(error) => error.number(),
        }
    }
}

impl From<CompileError> for TextRunError {
    ghost from_gives = { λ error e. e ≡ NotCompiled error };

    fn from(error: CompileError) -> TextRunError {
        TextRunError::NotCompiled(error)
    }
}

impl From<LatestRunError> for TextRunError {
    ghost from_gives = { λ error e. e ≡ NotRun error };

    fn from(error: LatestRunError) -> TextRunError {
        TextRunError::NotRun(error)
    }
}
