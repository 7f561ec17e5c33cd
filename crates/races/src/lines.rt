//! The lines of a text, read from the front.
ghost use Rattle.std.specs.Prelude.{◌≡◌, [], ◌∷◌, MatchOption};
ghost use Rattle.scripts.specs.Commands.{lines_of};
ghost use Rattle.races.specs.inside.Reading.{lines_left};

use scripts::split_line;
use std::marker::Model;

/// The lines of a text that are not read yet. A contract sees them as their list.
#[derive(Drop)]
pub(crate) struct ScriptLines<'a> {
    // What is after the line feed of the last line that was read, or `None` after the last line.
    rest: Option<&'a [u8]>,
}

impl<'a> Model for ScriptLines<'a> {
    ghost use Rattle.std.specs.Prelude.{ℕ, List};
    ghost use Rattle.races.specs.inside.Reading.{lines_left};

    ghost Value = { List (List ℕ) };

    ghost view = { λ lines. lines_left lines.rest };
}

impl<'a> ScriptLines<'a> {
    /// All lines of a text.
    pub(crate) fn new(text: &'a [u8]) -> ScriptLines<'a>
        ensures { result ≡ lines_of text.now }
    {
        ScriptLines { rest: Some(text) }
    }

    /// Reads the next line, if there is one.
    pub(crate) fn next_line(&mut self) -> Option<&'a [u8]>
        ensures { MatchOption result ((self.old ≡ []) × (self.new ≡ [])) (λ line. self.old ≡ line.now ∷ self.new) }
    {
        let rest = self.rest?;
        match split_line(rest) {
            None => {
                self.rest = None;
                Some(rest)
            }
            Some((line, after)) => {
                self.rest = Some(after);
                Some(line)
            }
        }
    }
}
