// Arithmetic and status over a width.
#![tactic(auto)]

pub mod products;
pub mod shifts;
pub mod status;
pub mod sums;

// A result and the status after it.
#[derive(Clone, Copy)]
pub struct Outcome {
    pub value: u16,
    pub st: u16,
}

// A double word.
#[derive(Clone, Copy)]
pub struct Pair {
    pub high: u16,
    pub low: u16,
}
