// Inputs for the test programs, made from a seed, and sums of what came out. The independent program makes the same ones.
#![tactic(auto)]

ghost use Rattle.std.specs.Prelude.{◌<◌};

pub mod lines;
pub mod records;
pub mod roms;
pub mod spoiled;
pub mod states;

use std::fmt;

// A linear congruential generator over 32 bits, of which the high half is used.
#[derive(Drop)]
pub struct Seed(u32);

impl Seed {
    pub fn new(start: u32) -> Self {
        Seed(start)
    }

    // The next number of 16 bits.
    pub fn word(&mut self) -> u16 {
        self.0 = self.0.wrapping_mul(1664525).wrapping_add(1013904223);
        (self.0 >> 16) as u16
    }

    // A number below `limit`. (A `NonZeroU16` would want an `unwrap` at each of the many literals.)
    pub fn below(&mut self, limit: u16) -> u16
        requires { 0 < limit }
        ensures { result < limit }
    {
        self.word() % limit
    }

    // True once in `n` times.
    pub fn once_in(&mut self, n: u16) -> bool
        requires { 0 < n }
    {
        self.below(n) == 0
    }

    // Fills the bytes.
    pub fn fill(&mut self, bytes: &mut [u8]) {
        for byte in bytes {
            *byte = (self.word() >> 8) as u8;
        }
    }
}

// A sum over numbers in their order.
#[derive(Clone, Copy)]
pub struct Sum(u32);

impl Sum {
    // The sum of nothing.
    pub const ZERO: Sum = Sum(0);

    // Takes one number more.
    pub fn mix(&mut self, x: impl Into<u32>) {
        self.0 = self.0.wrapping_mul(16777619).wrapping_add(x.into());
    }

    // Takes all these bytes.
    pub fn mix_bytes(&mut self, bytes: &[u8]) {
        for byte in bytes {
            self.mix(*byte);
        }
    }

    // The sum of these bytes alone.
    pub fn of_bytes(bytes: &[u8]) -> Self {
        let mut sum = Sum(0);
        sum.mix_bytes(bytes);
        sum
    }
}

// A number taken for a sum.
impl From<u32> for Sum {
    fn from(n: u32) -> Self {
        Sum(n)
    }
}

// A sum may itself be summed up.
impl From<Sum> for u32 {
    fn from(sum: Sum) -> Self {
        sum.0
    }
}

// A sum is printed in hexadecimal, with all its digits.
impl fmt::Display for Sum {
    fn fmt<W: fmt::Write>(&self, f: &mut fmt::Formatter<W>) -> fmt::Result {
        write!(f, "{:08x}", self.0)
    }
}
