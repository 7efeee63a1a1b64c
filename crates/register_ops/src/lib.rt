// A general source and a register: COC, CZC, XOR, MPY, DIV. A pair is the register and the word after it.
#![tactic(auto)]

ghost use Rattle.std.specs.Prelude.{◌≡◌, ℕ};
ghost use Rattle.machine.specs.State.{at};
ghost use Rattle.machine.specs.Groups as Groups;
ghost use Rattle.machine.specs.Perform.{perform, performed};

use alu::{Pair, products, status};
use isa::{Operand, RegisterOp};
use machine::State;
use memory::{SIZE, Width};
use operand::results;

// Stores a pair: the register and the word after it.
#[tactic(auto, using(machine::proofs::Bind::in_turn, crate::proofs::Wraps::set_register_wraps), unfolding(machine::specs::Groups::set_pair))]
fn set_pair(state: &mut State, memory: &mut [u8; SIZE], n: u16, pair: Pair)
    ensures { (v : ℕ) → perform v (Groups.set_pair n pair) (at state.old memory.old) ≡ performed tt (at state.new memory.new) }
{
    state.set_register(memory, n, pair.high);
    state.set_register(memory, n.wrapping_add(1), pair.low);
}

// DIV: OV alone where the divisor is at most the high word; else OV is cleared, and quotient and remainder go to the pair.
#[tactic(auto, using(machine::proofs::Bind::in_turn, crate::proofs::Wraps::register_wraps), unfolding(machine::specs::Groups::divide))]
fn divide(state: &mut State, memory: &mut [u8; SIZE], n: u16, x: u16)
    ensures { (v : ℕ) → perform v (Groups.divide n x) (at state.old memory.old) ≡ performed tt (at state.new memory.new) }
{
    let high = state.register(memory, n);
    if x <= high {
        results::set_status(state, bits::put(state.st, status::OVERFLOW, true));
        return;
    }
    let low = state.register(memory, n.wrapping_add(1));
    results::set_status(state, bits::put(state.st, status::OVERFLOW, false));
    set_pair(state, memory, n, products::divided(x, Pair { high, low }));
}

// What the operation does with the register's number and the source's value.
#[tactic(auto, using(machine::proofs::Bind::in_turn), unfolding(machine::specs::Groups::register_effect))]
fn register_effect(state: &mut State, memory: &mut [u8; SIZE], op: RegisterOp, n: u16, x: u16)
    ensures { (v : ℕ) → perform v (Groups.register_effect op n x) (at state.old memory.old) ≡ performed tt (at state.new memory.new) }
{
    match op {
        RegisterOp::Coc => {
            let old = state.register(memory, n);
            results::set_equal(state, bits::without(x, old) == 0);
        }
        RegisterOp::Czc => {
            let old = state.register(memory, n);
            results::set_equal(state, bits::both(x, old) == 0);
        }
        RegisterOp::Xor => {
            let old = state.register(memory, n);
            let to = state.register_at(n);
            results::conclude_judged(state, memory, Width::Word, to, bits::exclusive(old, x));
        }
        RegisterOp::Mpy => {
            let old = state.register(memory, n);
            set_pair(state, memory, n, products::product(old, x));
        }
        RegisterOp::Div => divide(state, memory, n, x),
    }
}

// The source's address and value, then the operation.
#[tactic(auto, using(machine::proofs::Bind::in_turn), unfolding(machine::specs::Groups::with_register))]
pub fn with_register(
    state: &mut State,
    memory: &mut [u8; SIZE],
    op: RegisterOp,
    source: Operand,
    n: u16,
)
    ensures { (v : ℕ) → perform v (Groups.with_register op source n) (at state.old memory.old) ≡ performed tt (at state.new memory.new) }
{
    let from = operand::address(state, memory, Width::Word, source);
    let x = state.load(memory, Width::Word, from);
    register_effect(state, memory, op, n, x);
}
