//! One end's history: its bytes and its failures. Only clauses read it, and it takes no memory.
ghost use Rattle.std.specs.Prelude.{◌≡◌, ℕ, ◌+◌, List, [], ◌++◌};
ghost use Rattle.std.specs.Borrow.{ftrue};

use std::marker::Model;
use std::mem::size_of;

const _: () = prove!(size_of::<Account>() == 0);

// It owns nothing, so only the clauses below tie `bytes` and `failures`. `seal` keeps the making of
// an account to this module.
#[derive(Drop)]
pub(crate) struct Account {
    seal: (),
    pub ghost bytes: { List ℕ },
    pub ghost failures: { ℕ },
}

impl Model for Account {
    ghost also_owns = { λ _. ftrue };
}

impl Account {
    pub(crate) fn new() -> Account
        ensures bytes { result.bytes ≡ [] }
        ensures failures { result.failures ≡ 0 }
    {
        Account { seal: () }
    }

    pub(crate) fn add_bytes(&mut self, _bytes: &[u8])
        ensures bytes { self.new.bytes ≡ self.old.bytes ++ _bytes.now }
        ensures failures { self.new.failures ≡ self.old.failures }
    {}

    pub(crate) fn add_failure(&mut self)
        ensures bytes { self.new.bytes ≡ self.old.bytes }
        ensures failures { self.new.failures ≡ self.old.failures + 1 }
    {}
}
