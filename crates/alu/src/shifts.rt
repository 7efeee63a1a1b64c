// Shifts of a word.
ghost use Rattle.std.specs.Prelude.{◌≡◌, ◌^◌, ◌≤◌};
ghost use Rattle.alu.specs.Shifts as Shifts;

use super::{Outcome, status};
use isa::ShiftOp;
use memory::Width;

// A count of four bits, where 0 means 16.
#[tactic(auto, using(std::proofs::lemmas::Bool::Decides::nat_tests), unfolding(crate::specs::Shifts::amount))]
pub fn amount(n: u16) -> u16
    ensures { result ≡ Shifts.amount n }
{
    let low = n % 16;
    if low == 0 { 16 } else { low }
}

// The weight of bit `k`. (That `k` is at most 16 stands in five contracts here; a type for it would not serve: it is an amount, a bit's
// number, or 16 less an amount.)
#[tactic(auto, using(std::proofs::lemmas::Bool::Decides::nat_tests))]
fn weight(k: u32) -> u32
    requires { k ≤ 16 }
    ensures { result ≡ 2 ^ k }
{
    1 << k
}

// The word after `k` shifts.
fn shift_value(op: ShiftOp, v: u16, k: u32) -> u16
    requires { k ≤ 16 }
    ensures { result ≡ Shifts.shift_value op v k }
{
    let x = v as u32;
    let high = x >> k;
    match op {
        ShiftOp::Sla => ((x << k) % 65536) as u16,
        ShiftOp::Sra => {
            if bits::bit(x, 15) {
                (high + (65536 - weight(16 - k))) as u16
            } else {
                high as u16
            }
        }
        ShiftOp::Srl => high as u16,
        ShiftOp::Src => (high + (x & (weight(k) - 1)) * weight(16 - k)) as u16,
    }
}

// The last bit that `k` shifts move out.
#[tactic(auto, using(std::proofs::lemmas::Bool::Decides::nat_tests), unfolding(crate::specs::Shifts::shift_carry))]
fn shift_carry(op: ShiftOp, v: u16, k: u32) -> bool
    requires { (1 ≤ k) × (k ≤ 16) }
    ensures { result ≡ Shifts.shift_carry op v k }
{
    let x = v as u32;
    match op {
        ShiftOp::Sla => bits::bit(x, 16 - k),
        ShiftOp::Sra | ShiftOp::Srl | ShiftOp::Src => bits::bit(x, k - 1),
    }
}

// Whether the sign changes at any of `k` shifts to the left: it does unless the signed number fits the 16 - `k` bits that are left.
fn sign_changes(v: u16, k: u32) -> bool
    requires { k ≤ 16 }
    ensures { result ≡ Shifts.sign_changes k v }
{
    let limit = weight(16 - k);
    let twice = (v as u32) * 2;
    (limit <= twice) & (twice < 131072 - limit)
}

// SLA alone judges OV.
#[tactic(auto, using(std::proofs::lemmas::Bool::Decides::nat_tests), unfolding(crate::specs::Shifts::shift_overflow))]
fn shift_overflow(op: ShiftOp, v: u16, k: u32, st: u16) -> u16
    requires { k ≤ 16 }
    ensures { result ≡ Shifts.shift_overflow op v k st }
{
    match op {
        ShiftOp::Sla => bits::put(st, status::OVERFLOW, sign_changes(v, k)),
        ShiftOp::Sra | ShiftOp::Srl | ShiftOp::Src => st,
    }
}

// A word shifted by the amount that the count `n` means.
pub fn shifted(op: ShiftOp, v: u16, n: u16, st: u16) -> Outcome
    ensures { result ≡ Shifts.shifted op v n st }
{
    let k = amount(n) as u32;
    let value = shift_value(op, v, k);
    let compared = status::compared(Width::Word, value, 0, st);
    let judged = shift_overflow(op, v, k, compared);
    Outcome {
        value,
        st: bits::put(judged, status::CARRY, shift_carry(op, v, k)),
    }
}
