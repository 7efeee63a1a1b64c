// A register and a further word: LI, AI, ANDI, ORI, CI.
#![tactic(auto)]

ghost use Rattle.std.specs.Prelude.{◌≡◌, ℕ};
ghost use Rattle.machine.specs.State.{at};
ghost use Rattle.machine.specs.Groups as Groups;
ghost use Rattle.machine.specs.Perform.{perform, performed};

use alu::{status, sums};
use isa::ImmediateOp;
use machine::State;
use memory::{SIZE, Width};
use operand::results;

// The register's old value; LI does not read it.
#[tactic(auto, using(machine::proofs::Bind::in_turn), unfolding(machine::specs::Groups::immediate_register))]
fn immediate_register(state: &mut State, memory: &[u8; SIZE], op: ImmediateOp, n: u16) -> u16
    ensures { (v : ℕ) → perform v (Groups.immediate_register op n) (at state.old memory.now) ≡ performed result (at state.new memory.now) }
{
    match op {
        ImmediateOp::Li => 0,
        ImmediateOp::Ai | ImmediateOp::Andi | ImmediateOp::Ori | ImmediateOp::Ci => state.register(
            memory, n,
        ),
    }
}

// What each operation does with the register's address and old value and the further word.
#[tactic(auto, using(machine::proofs::Bind::in_turn), unfolding(machine::specs::Groups::immediate_effect))]
fn immediate_effect(
    state: &mut State,
    memory: &mut [u8; SIZE],
    op: ImmediateOp,
    to: u16,
    d: u16,
    x: u16,
)
    ensures { (v : ℕ) → perform v (Groups.immediate_effect op to d x) (at state.old memory.old) ≡ performed tt (at state.new memory.new) }
{
    match op {
        ImmediateOp::Li => results::conclude_judged(state, memory, Width::Word, to, x),
        ImmediateOp::Ai => {
            let outcome = sums::sum(Width::Word, d, x, state.st);
            results::conclude(state, memory, Width::Word, to, outcome);
        }
        ImmediateOp::Andi => results::conclude_judged(
            state,
            memory,
            Width::Word,
            to,
            bits::both(d, x),
        ),
        ImmediateOp::Ori => results::conclude_judged(
            state,
            memory,
            Width::Word,
            to,
            bits::either(d, x),
        ),
        ImmediateOp::Ci => results::set_status(
            state,
            status::compared(Width::Word, d, x, state.st),
        ),
    }
}

// The register's value, the further word, then the operation.
#[tactic(auto, using(machine::proofs::Bind::in_turn), unfolding(machine::specs::Groups::immediate))]
pub fn immediate(state: &mut State, memory: &mut [u8; SIZE], op: ImmediateOp, n: u16)
    ensures { (v : ℕ) → perform v (Groups.immediate op n) (at state.old memory.old) ≡ performed tt (at state.new memory.new) }
{
    let old = immediate_register(state, memory, op, n);
    let word = state.fetch(memory);
    let to = state.register_at(n);
    immediate_effect(state, memory, op, to, old, word);
}
