//! Faults of types: the rule that a source breaks, and where; and the least of several.
ghost use Rattle.std.specs.Prelude.{◌≡◌};
ghost use Rattle.expression_types.specs.Faults.{comes_before, earlier, number_of};

use refusal_numbers::{
    BAD_LABEL, MIXED_REDUCTIONS, NO_MAIN, NOT_REDUCTION, PRINT_OUTSIDE_MAIN, REDECLARED,
    UNKNOWN_NAME, WRONG_INDEX, WRONG_TYPE,
};

/// A rule of types.
#[derive(Clone, Copy, Debug, PartialEq, Eq)]
pub enum TypeRule {
    /// A used name is visible.
    UnknownName,
    /// A declared name is not visible already, and there is one edgeset at most.
    Redeclared,
    /// What is written has the type that its place wants.
    WrongType,
    /// An edge function writes no entry of a vector by `=`.
    NotReduction,
    /// An edge function writes a vector by one reduction only.
    MixedReductions,
    /// An entry of a vector is at a vertex that the function works on, and an index of `main` reads no entry.
    WrongIndex,
    /// `print` is in `main` only.
    PrintOutsideMain,
    /// A function `main` without parameters and result is there.
    NoMain,
    /// No label stands twice.
    BadLabel,
}

/// A rule that a source breaks, and the offset at which it does, in bytes.
#[derive(Clone, Copy, Debug, PartialEq, Eq)]
pub struct Fault {
    pub at: usize,
    pub rule: TypeRule,
}

impl TypeRule {
    /// The number by which users know the rule: 221 to 229.
    pub fn number(self) -> u16
        ensures { result ≡ number_of self }
    {
        match self {
            TypeRule::UnknownName => UNKNOWN_NAME,
            TypeRule::Redeclared => REDECLARED,
            TypeRule::WrongType => WRONG_TYPE,
            TypeRule::NotReduction => NOT_REDUCTION,
            TypeRule::MixedReductions => MIXED_REDUCTIONS,
            TypeRule::WrongIndex => WRONG_INDEX,
            TypeRule::PrintOutsideMain => PRINT_OUTSIDE_MAIN,
            TypeRule::NoMain => NO_MAIN,
            TypeRule::BadLabel => BAD_LABEL,
        }
    }
}

/// Notes one more fault: of all that are noted the one with the least offset is kept, and of several at one
/// offset the one with the least number.
pub fn note(first_fault: &mut Option<Fault>, at: usize, rule: TypeRule)
    ensures { first_fault.new ≡ Some (earlier first_fault.old (record { at = at; rule = rule })) }
{
    let fault = Fault { at, rule };
    match *first_fault {
        None => *first_fault = Some(fault),
        Some(earliest) => {
            if is_before(fault, earliest) {
                *first_fault = Some(fault);
            }
        }
    }
}

/// Whether a fault is reported rather than another.
fn is_before(fault: Fault, other: Fault) -> bool
    ensures { result ≡ comes_before fault other }
{
    fault.at < other.at || (fault.at == other.at && fault.rule.number() < other.rule.number())
}
