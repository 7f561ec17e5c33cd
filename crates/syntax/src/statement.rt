//! Statements.

use crate::expression::Expression;
use crate::name::Name;
use crate::simple_action::SimpleAction;

/// A statement, with its label where it has one.
#[cycle(statement)]
pub struct Statement {
    pub label: Option<Name>,
    pub action: Action,
}

/// What a statement does. `at` is the offset of its first token in the text.
#[cycle(statement)]
pub enum Action {
    Simple(SimpleAction),
    /// `while test body end`
    While {
        at: usize,
        test: Expression,
        body: Vec<Statement>,
    },
    For(ForLoop),
    /// `if test body end`
    If {
        at: usize,
        test: Expression,
        body: Vec<Statement>,
    },
    /// `if test body else otherwise end`
    IfElse {
        at: usize,
        test: Expression,
        body: Vec<Statement>,
        otherwise: Vec<Statement>,
    },
}

/// `for name in first : limit body end`
#[cycle(statement)]
pub struct ForLoop {
    /// The offset of `for` in the text.
    pub at: usize,
    pub name: Name,
    pub first: Expression,
    pub limit: Expression,
    pub body: Vec<Statement>,
}

impl Drop for Statement {
    #[cycle(drops)]
    fn drop(self) {
        let Statement {
            label: _,
            action: _,
        } = self;
    }
}

impl Drop for Action {
    #[cycle(drops)]
    fn drop(self) {
        match self {
            Action::Simple(_) => {}
            Action::While {
                at: _,
                test: _,
                body: _,
            } => {}
            Action::For(_) => {}
            Action::If {
                at: _,
                test: _,
                body: _,
            } => {}
            Action::IfElse {
                at: _,
                test: _,
                body: _,
                otherwise: _,
            } => {}
        }
    }
}

impl Drop for ForLoop {
    #[cycle(drops)]
    fn drop(self) {
        let ForLoop {
            at: _,
            name: _,
            first: _,
            limit: _,
            body: _,
        } = self;
    }
}
