//! Bytes that several owners share.

ghost use Rattle.std.specs.Prelude.{◌≡◌, ◌≤◌, ◌<◌, [], length, IfOk};

use std::alloc::{AllocError, Global};
use std::marker::Model;
use std::sync::Arc;

/// Bytes that several owners share. A contract sees their list. No bytes take no memory, up to 127
/// bytes one allocation, and more bytes two.
#[derive(Drop)]
pub(crate) struct SharedBytes {
    held: Held,
}

#[derive(Drop)]
enum Held {
    Nothing,
    UpTo15(Arc<Room<15>>),
    UpTo31(Arc<Room<31>>),
    UpTo47(Arc<Room<47>>),
    UpTo63(Arc<Room<63>>),
    UpTo95(Arc<Room<95>>),
    UpTo127(Arc<Room<127>>),
    Longer(Arc<Vec<u8>>),
}

impl Model for SharedBytes {
    ghost use Rattle.std.specs.Prelude.{ℕ, List};

    ghost Value = { List ℕ };

    ghost use Rattle.tail_codec.specs.inside.Bytes.{held_bytes};

    ghost view = { λ b. held_bytes b.held };
}

impl SharedBytes {
    /// No bytes.
    pub(crate) fn new() -> SharedBytes
        ensures { result ≡ [] }
    {
        SharedBytes {
            held: Held::Nothing,
        }
    }

    /// A copy of these bytes. Takes memory for them alone.
    pub(crate) fn from_slice(alloc: Global, bytes: &[u8]) -> Result<SharedBytes, AllocError>
        ensures { IfOk result (λ b. b ≡ bytes.now) }
    {
        let held = match bytes.len() {
            0 => Held::Nothing,
            1..16 => Held::UpTo15(Arc::new(alloc, Room::from_slice(bytes))?),
            16..32 => Held::UpTo31(Arc::new(alloc, Room::from_slice(bytes))?),
            32..48 => Held::UpTo47(Arc::new(alloc, Room::from_slice(bytes))?),
            48..64 => Held::UpTo63(Arc::new(alloc, Room::from_slice(bytes))?),
            64..96 => Held::UpTo95(Arc::new(alloc, Room::from_slice(bytes))?),
            96..128 => Held::UpTo127(Arc::new(alloc, Room::from_slice(bytes))?),
            _ => Held::Longer(Arc::new(alloc, Vec::from_slice(alloc, bytes)?)?),
        };
        Ok(SharedBytes { held })
    }

    /// The bytes.
    #[inline]
    pub(crate) fn as_slice(&self) -> &[u8]
        ensures { result.now ≡ self.now }
    {
        match &self.held {
            Held::Nothing => &[],
            Held::UpTo15(room) => room.as_slice(),
            Held::UpTo31(room) => room.as_slice(),
            Held::UpTo47(room) => room.as_slice(),
            Held::UpTo63(room) => room.as_slice(),
            Held::UpTo95(room) => room.as_slice(),
            Held::UpTo127(room) => room.as_slice(),
            Held::Longer(bytes) => bytes.as_slice(),
        }
    }

    /// One more owner of the same bytes.
    pub(crate) fn share(&self) -> Result<SharedBytes, AllocError>
        ensures { IfOk result (λ b. b ≡ self.now) }
    {
        let held = match &self.held {
            Held::Nothing => Held::Nothing,
            Held::UpTo15(room) => Held::UpTo15(Arc::try_clone(room)?),
            Held::UpTo31(room) => Held::UpTo31(Arc::try_clone(room)?),
            Held::UpTo47(room) => Held::UpTo47(Arc::try_clone(room)?),
            Held::UpTo63(room) => Held::UpTo63(Arc::try_clone(room)?),
            Held::UpTo95(room) => Held::UpTo95(Arc::try_clone(room)?),
            Held::UpTo127(room) => Held::UpTo127(Arc::try_clone(room)?),
            Held::Longer(bytes) => Held::Longer(Arc::try_clone(bytes)?),
        };
        Ok(SharedBytes { held })
    }
}

/// Room for up to `N` bytes beside their number.
#[derive(Drop)]
struct Room<const N: usize> {
    len: u8,
    bytes: [u8; N],
}

impl<const N: usize> Model for Room<N> {
    ghost use Rattle.std.specs.Prelude.{ℕ, ◌≤◌, List, length, take};

    ghost Value = { List ℕ };

    ghost view = { λ r. take r.len r.bytes };

    ghost invariant = { λ r. r.len ≤ length r.bytes };
}

impl<const N: usize> Room<N> {
    fn from_slice(bytes: &[u8]) -> Room<N>
        requires fits { length bytes.now ≤ N }
        requires small { length bytes.now < 256 }
        ensures { result ≡ bytes.now }
    {
        let mut room = [0; N];
        room[..bytes.len()].copy_from_slice(bytes);
        Room {
            len: bytes.len() as u8,
            bytes: room,
        }
    }

    #[inline]
    fn as_slice(&self) -> &[u8]
        ensures { result.now ≡ self.now }
    {
        &self.bytes[..usize::from(self.len)]
    }
}
