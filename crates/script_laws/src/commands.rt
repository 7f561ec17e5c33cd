//! Laws of the words of commands and of their numbers, each the contract of a call that does nothing.
ghost use Rattle.std.specs.Prelude.{◌≡◌, ◌≤◌, ◌↔◌, ◌^◌, ℕ, ℤ, List, Some};
ghost use Rattle.std.specs.List.{join_with_byte};
ghost use Rattle.decimal.specs.Numbers.{integer_of, number_of};
ghost use Rattle.scripts.specs.declared.commands.Command as command;
ghost use Rattle.scripts.specs.Commands.{command_of, command_of_words};
ghost use Rattle.script_laws.specs.Spelling.{HasWords, IsInRange, IsInteger, IsNumber, spelling_of};

/// The law that a word is read as a number exactly where it is the decimal digits of that number after any zeros, and as an
/// integer exactly where it is such digits, after `-` for a negative one. The call does nothing.
pub fn numbers_are_their_digits()
    ensures numbers { (limit n : ℕ) (word : List ℕ) → limit ≤ 2 ^ 64 → (number_of limit word ≡ Some n) ↔ IsNumber limit n word }
    ensures integers { (w : ℤ) (word : List ℕ) → (integer_of word ≡ Some w) ↔ IsInteger w word }
{}

/// The law that words are read as a command exactly where the first is the name of the command and the others spell its
/// numbers. The call does nothing.
pub fn commands_are_their_words()
    ensures { (words : List (List ℕ)) (c : command.Command) → (command_of_words words ≡ Some c) ↔ HasWords c words }
{}

/// The law that a line is read as a command exactly where it is words of the command, joined by single spaces. The call does
/// nothing.
pub fn lines_are_their_words()
    ensures { (line : List ℕ) (c : command.Command) → (command_of line ≡ Some c)
        ↔ ((words : List (List ℕ)) × HasWords c words × (join_with_byte 32 words ≡ line)) }
{}

/// The law that each command whose numbers are in their ranges has a line that is read as it: its name and the decimal digits
/// of its numbers, joined by single spaces. The call does nothing.
pub fn commands_have_a_line()
    ensures { (c : command.Command) → IsInRange c → command_of (join_with_byte 32 (spelling_of c)) ≡ Some c }
{}
