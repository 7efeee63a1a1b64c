// Sums and differences over a width.
ghost use Rattle.std.specs.Prelude.{◌≡◌, ◌-◌, ◌%◌, if◌then◌else◌};
ghost use Rattle.bits.specs.Bits as Bits;
ghost use Rattle.alu.specs.Sums as Sums;

use super::{Outcome, status};
use memory::Width;

// Whether the signed sum lies outside the width.
fn sum_overflows(width: Width, a: u16, b: u16) -> bool
    ensures { result ≡ Sums.sum_overflows width a b }
{
    let all = status::modulus(width);
    let total = status::raised(width, a) + status::raised(width, b);
    (total < all / 2) | (all + all / 2 <= total)
}

// Whether the signed difference `d` - `s` lies outside the width.
fn difference_overflows(width: Width, d: u16, s: u16) -> bool
    ensures { result ≡ Sums.difference_overflows width d s }
{
    let half = status::modulus(width) / 2;
    let from = status::raised(width, d);
    let less = status::raised(width, s);
    (from + half < less) | (less + half <= from)
}

// `a` + `b`: the value wraps, C is the carry out of the width.
#[tactic(auto, using(crate::proofs::Laws::reduced_twice), unfolding(crate::specs::Sums::sum))]
pub fn sum(width: Width, a: u16, b: u16, st: u16) -> Outcome
    ensures { result ≡ Sums.sum width a b st }
{
    let value = status::reduced(width, a.wrapping_add(b));
    let carry = status::modulus(width) <= (a as u32) + (b as u32);
    let judged = status::judged(width, value, st);
    Outcome {
        value,
        st: status::carried(carry, sum_overflows(width, a, b), judged),
    }
}

// `d` - `s`: the value wraps, C is 1 exactly if `d` is at least `s`.
pub fn difference(width: Width, d: u16, s: u16, st: u16) -> Outcome
    ensures { result ≡ Sums.difference width d s st }
{
    let value = status::reduced(width, d.wrapping_sub(s));
    let judged = status::judged(width, value, st);
    Outcome {
        value,
        st: status::carried(s <= d, difference_overflows(width, d, s), judged),
    }
}

// 0 less the operand.
#[tactic(auto, using(std::proofs::lemmas::Bool::Decides::nat_tests), unfolding(crate::specs::Sums::negated))]
pub fn negated(v: u16, st: u16) -> Outcome
    ensures { result ≡ Sums.negated v st }
{
    difference(Width::Word, 0, v, st)
}

// A signed word without its sign; 8000h stays.
#[tactic(auto, using(std::proofs::lemmas::Bool::Decides::nat_tests))]
fn magnitude(v: u16) -> u16
    ensures { result ≡ (if Bits.bit 15 v then (65536 - v) % 65536 else v) }
{
    if bits::bit(v as u32, 15) {
        0u16.wrapping_sub(v)
    } else {
        v
    }
}

// The operand without its sign; the status judges the operand.
#[tactic(auto, using(std::proofs::lemmas::Bool::Decides::nat_tests), unfolding(crate::specs::Sums::absolute))]
pub fn absolute(v: u16, st: u16) -> Outcome
    ensures { result ≡ Sums.absolute v st }
{
    let value = magnitude(v);
    let judged = status::compared(Width::Word, v, 0, st);
    Outcome {
        value,
        st: status::carried(false, v == 0x8000, judged),
    }
}
