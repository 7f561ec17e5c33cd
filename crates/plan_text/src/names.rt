//! The names that instructions speak of.
ghost use Rattle.std.specs.Prelude.{◌≡◌, map};
ghost use Rattle.typed_tree.specs.ProgramTree.{program_tree};
ghost use Rattle.typed_tree.specs.FunctionStatementTree.{function_tree};
ghost use Rattle.plan_text.specs.Expressions.{program_name_at, vector_name_at};
ghost use Rattle.plan_text.specs.Lines.{function_at};

use typed_tree::{Function, Typed};

/// Puts the words of a program's instructions.
#[derive(Clone, Copy)]
pub struct Lines<'a> {
    pub program: &'a Typed,
}

impl<'a> Lines<'a> {
    /// The name at an index, without a byte where there is none.
    pub(crate) fn name(self, index: usize) -> &'a [u8]
        ensures { result.now ≡ program_name_at (program_tree self.entry.program.now) index }
    {
        match self.program.names.get(index) {
            Some(name) => name.as_slice(),
            None => b"",
        }
    }

    /// The name of a vector.
    pub(crate) fn vector(self, index: usize) -> &'a [u8]
        ensures { result.now ≡ vector_name_at (program_tree self.entry.program.now) index }
    {
        match self.program.vectors.get(index) {
            Some(vector) => self.name(vector.name),
            None => b"",
        }
    }

    /// The name of a function of these.
    pub(crate) fn function(self, functions: &'a [Function], index: usize) -> &'a [u8]
        ensures { result.now ≡ function_at (program_tree self.entry.program.now) (map function_tree functions.now) index }
    {
        match functions.get(index) {
            Some(function) => self.name(function.name),
            None => b"",
        }
    }
}
