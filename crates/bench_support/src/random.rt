//! Pseudo-random numbers, the same on every machine.

ghost use Rattle.std.specs.Prelude.{◌<◌};

/// The generator splitmix64 (Steele, Lea, Flood, OOPSLA 2014).
#[derive(Clone, Copy)]
pub struct Random {
    state: u64,
}

impl Random {
    /// The generator that begins at this seed.
    pub fn new(seed: u64) -> Random {
        Random { state: seed }
    }

    /// The next 64 bits.
    pub fn next(&mut self) -> u64 {
        self.state = self.state.wrapping_add(0x9e37_79b9_7f4a_7c15);
        let mut bits = self.state;
        bits = (bits ^ (bits >> 30)).wrapping_mul(0xbf58_476d_1ce4_e5b9);
        bits = (bits ^ (bits >> 27)).wrapping_mul(0x94d0_49bb_1331_11eb);
        bits ^ (bits >> 31)
    }

    /// A number below `bound`, made of the next 64 bits.
    pub fn below(&mut self, bound: u64) -> u64
        requires { 0 < bound }
        ensures { result < bound }
    {
        self.next() % bound
    }
}
