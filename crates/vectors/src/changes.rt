//! Changes: what an apply changes in vectors.
ghost use Rattle.std.specs.Prelude.{◌≡◌};

use std::marker::Model;

/// The new entry of a vector at a vertex, in 12 bytes: a number that is kept as its bytes needs no padding. A contract
/// sees the vertex and the number.
#[derive(Clone, Copy)]
pub struct EntryChange {
    vertex: u32,
    number: [u8; 8],
}

impl Model for EntryChange {
    ghost use Rattle.std.specs.Int.{w64, cast_signed, cast_unsigned, from_le_bytes, to_le_bytes};
    ghost use Rattle.vectors.specs.EntryChanges.{EntryChangeValue};
    ghost use Rattle.vectors.specs.inside.NumberBytes.{AreBytes, bytes_back};

    ghost Value = { EntryChangeValue };

    ghost view = { λ c. record { vertex = c.vertex; number = cast_signed w64 (from_le_bytes w64 c.number) } };

    ghost invariant = { λ c. AreBytes c.number };

    ghost inverse = { λ c. record { vertex = c.vertex; number = to_le_bytes w64 (cast_unsigned w64 c.number) } };

    ghost inverse_ok = { λ c are i. record { vertex = c.vertex; number = bytes_back c.number are i } };
}

impl EntryChange {
    /// This number at this vertex.
    #[inline(always)]
    pub fn new(vertex: u32, number: i64) -> EntryChange
        ensures { result ≡ record { vertex = vertex; number = number } }
    {
        EntryChange {
            vertex,
            number: number.to_le_bytes(),
        }
    }

    /// The vertex.
    #[inline(always)]
    pub fn vertex(self) -> u32
        ensures { result ≡ self.vertex }
    {
        self.vertex
    }

    /// The number.
    #[inline(always)]
    pub fn number(self) -> i64
        ensures { result ≡ self.number }
    {
        i64::from_le_bytes(self.number)
    }
}

/// The entries of one vector that change: the vector's index, and the changes, by ascending vertices.
#[derive(Drop)]
pub struct VectorChanges {
    pub vector: usize,
    pub changes: Vec<EntryChange>,
}

/// What an apply changes, for each vector that it writes.
pub struct Changes {
    pub vectors: Vec<VectorChanges>,
}

impl Drop for Changes {
    fn drop(self) {
        let Changes { vectors: _ } = self;
    }
}
