//! Names in a text.
ghost use Rattle.std.specs.Prelude.{◌≡◌, IfOk};

use std::alloc::{AllocError, Global};
use std::marker::Model;

/// A name: its bytes, and the offset of its first byte in the text.
#[derive(Drop)]
pub struct Name {
    bytes: Vec<u8>,
    at: usize,
}

impl Model for Name {
    ghost use Rattle.syntax.specs.Terminals.{Identifier};

    ghost Value = { Identifier };

    ghost view = { λ n. record { bytes = n.bytes.items; at = n.at } };
}

impl Name {
    /// The name of these bytes, a copy of which it keeps, that is at this offset.
    pub fn of(alloc: Global, bytes: &[u8], at: usize) -> Result<Name, AllocError>
        ensures { IfOk result (λ name. name ≡ record { bytes = bytes.now; at = at }) }
    {
        Ok(Name {
            bytes: Vec::from_slice(alloc, bytes)?,
            at,
        })
    }

    /// The bytes of the name.
    pub fn bytes(&self) -> &[u8]
        ensures { result.now ≡ self.now.bytes }
    {
        &self.bytes
    }

    /// The offset of its first byte in the text.
    pub fn at(&self) -> usize
        ensures { result ≡ self.now.at }
    {
        self.at
    }
}
