// The parts of a printed line, each written by itself. What cannot be written is passed over.
use super::Sum;

// A number in decimal, and a space.
pub fn number(rt: &impl Print, n: impl Into<u64>) {
    let n = n.into();
    let _ = print!(rt; "{n} ");
}

// A sum, and a space.
pub fn sum(rt: &impl Print, sum: impl Into<Sum>) {
    let sum = sum.into();
    let _ = print!(rt; "{sum} ");
}

// A sum, and the line's end.
pub fn last(rt: &impl Print, sum: impl Into<Sum>) {
    let sum = sum.into();
    let _ = println!(rt; "{sum}");
}
