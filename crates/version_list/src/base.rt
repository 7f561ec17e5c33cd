//! The state in which a history begins. Only clauses read it, and it takes no memory.
ghost use Rattle.std.specs.Prelude.{◌≡◌};
ghost use Rattle.std.specs.Borrow.{ftrue};
ghost use Rattle.version_list.specs.Machine.{State};

use std::fmt::{self, Formatter, Write};
use std::marker::Model;
use std::mem::size_of;

const _: () = prove!(size_of::<Base>() == 0);

// It owns nothing, so only the clause below ties `state`. `seal` keeps the making of a base to this
// module.
#[derive(Drop)]
pub(crate) struct Base {
    seal: (),
    pub ghost state: { State },
}

impl Model for Base {
    ghost also_owns = { λ _. ftrue };
}

impl Base {
    /// A base in the state that the proof of the caller picks.
    pub(crate) fn at<T>(_from: &T) -> Base
        ghost state: { State }
        ensures { result.state ≡ state }
    {
        Base { seal: () }
    }
}

impl fmt::Debug for Base {
    fn fmt<W: Write>(&self, f: &mut Formatter<W>) -> fmt::Result {
        f.write_str("Base")
    }
}
