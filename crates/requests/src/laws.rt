//! Laws of command lines, each the contract of a call that does nothing.

ghost use Rattle.std.specs.Prelude.{◌≡◌, ◌≤◌, [], ◌∷◌, ◌++◌, List, codes, true, false, length};
ghost use Rattle.std.specs.List.{AllByRecursion};
ghost use Rattle.std.specs.Str.Parse.{digits_value, without_leading_plus};
ghost use Rattle.clap.specs.Lexer.{usize_max};
ghost use Rattle.clap.specs.ValueTests.{accepts};
ghost use Rattle.clap.specs.Words.{Text, fault_of};
ghost use Rattle.clap.specs.declared.builder.value_parser.ValueParser.TheVariants.{Unsigned};
ghost use Rattle.clap.specs.declared.error.kind.ErrorKind.TheVariants.{ValueValidation};
ghost use Rattle.requests.specs.Asked.{Asks, a_race, request_of, command_line};
ghost use Rattle.requests.specs.Forms.{HasNoHyphen, HasOperands, IsCommand, IsTaken, RacePart, files_in, number_given, numbers_in, the_turns, the_workers, words_of_parts};

/// The law that words without a fault which ask for no race ask for what their operands are: no words for the input, and else a
/// command and its files. The call does nothing.
pub fn plain_commands_are_their_operands()
    ensures { (words : List Text) → fault_of command_line words ≡ [] → HasOperands words (request_of words) }
{}

/// The law that no words, and each command but a race with its files, also after `--`, are without a fault. The call does
/// nothing.
pub fn plain_commands_are_taken()
    ensures { (words : List Text) → length words ≤ usize_max → IsCommand words → fault_of command_line words ≡ [] }
{}

/// The law that `race` with a script and a program is a race by 2 workers within 1,000,000 turns. The call does nothing.
pub fn races_are_asked_for()
    ensures { (script program : Text) → HasNoHyphen script → HasNoHyphen program
        → Asks (codes "race" ∷ script ∷ program ∷ []) (a_race script (program ∷ []) 2 1000000) }
{}

/// The law that a number of workers that is none from 1 to 64, or of turns that is none below 2^64, is a fault where it is the
/// first word after `race`, whatever follows. The call does nothing.
pub fn numbers_out_of_range_are_faults()
    ensures workers { (number : Text) (words : List Text) → accepts false (Unsigned 1 64) number ≡ false
        → fault_of command_line (codes "race" ∷ (codes "--workers=" ++ number) ∷ words) ≡ ValueValidation ∷ [] }
    ensures turns { (number : Text) (words : List Text) → accepts false (Unsigned 0 18446744073709551615) number ≡ false
        → fault_of command_line (codes "race" ∷ (codes "--turns=" ++ number) ∷ words) ≡ ValueValidation ∷ [] }
    ensures examples { (accepts false (Unsigned 1 64) (codes "0") ≡ false) × (accepts false (Unsigned 1 64) (codes "65") ≡ false)
        × (accepts false (Unsigned 1 64) (codes "x") ≡ false) }
{}

/// The law that `race` with both options in front of a script and a program is a race by n workers within n turns.
/// The call does nothing.
pub fn options_are_numbers()
    ensures { (workers turns script program : Text) → accepts false (Unsigned 1 64) workers ≡ true
        → accepts false (Unsigned 0 18446744073709551615) turns ≡ true → HasNoHyphen script → HasNoHyphen program
        → Asks (codes "race" ∷ (codes "--workers=" ++ workers) ∷ (codes "--turns=" ++ turns) ∷ script ∷ program ∷ [])
        (a_race script (program ∷ []) (digits_value 10 (without_leading_plus workers)) (digits_value 10 (without_leading_plus turns))) }
{}

/// The law that `race` with a script and programs, and each option once or not at all, is a race of them, in whatever order files
/// and options come, and whether an option and its number are joined by `=` or are two words: 2 workers and 1,000,000 turns where
/// none are given. The call does nothing.
pub fn races_come_in_any_order()
    ensures { (parts : List RacePart) (script program : Text) (programs : List Text) → files_in parts ≡ script ∷ program ∷ programs
        → AllByRecursion HasNoHyphen (files_in parts) → IsTaken the_workers (numbers_in the_workers parts)
        → IsTaken the_turns (numbers_in the_turns parts) → length parts ≤ usize_max
        → Asks (codes "race" ∷ words_of_parts parts)
        (a_race script (program ∷ programs) (number_given 2 (numbers_in the_workers parts)) (number_given 1000000 (numbers_in the_turns parts))) }
{}
