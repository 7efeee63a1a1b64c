// Shifts of a register: SRA, SRL, SLA, SRC.
#![tactic(auto)]

ghost use Rattle.std.specs.Prelude.{◌≡◌, ℕ};
ghost use Rattle.machine.specs.State.{at};
ghost use Rattle.machine.specs.Groups as Groups;
ghost use Rattle.machine.specs.Perform.{perform, performed};

use alu::shifts;
use isa::ShiftOp;
use machine::State;
use memory::{SIZE, Width};
use operand::results;

// The count as coded, or R0 where that is 0.
#[tactic(auto, using(machine::proofs::Bind::in_turn), unfolding(machine::specs::Groups::shift_count))]
fn shift_count(state: &mut State, memory: &[u8; SIZE], count: u16) -> u16
    ensures { (v : ℕ) → perform v (Groups.shift_count count) (at state.old memory.now) ≡ performed result (at state.new memory.now) }
{
    if count == 0 {
        state.register(memory, 0)
    } else {
        count
    }
}

// The register's value, the count, then the result.
#[tactic(auto, using(machine::proofs::Bind::in_turn), unfolding(machine::specs::Groups::shift))]
pub fn shift(state: &mut State, memory: &mut [u8; SIZE], op: ShiftOp, n: u16, count: u16)
    ensures { (v : ℕ) → perform v (Groups.shift op n count) (at state.old memory.old) ≡ performed tt (at state.new memory.new) }
{
    let old = state.register(memory, n);
    let by = shift_count(state, memory, count);
    let to = state.register_at(n);
    let outcome = shifts::shifted(op, old, by, state.st);
    results::conclude(state, memory, Width::Word, to, outcome);
}
