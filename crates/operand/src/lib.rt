// General operands: the address that an addressing mode and a register mean; and results.
#![tactic(auto)]

ghost use Rattle.std.specs.Prelude.{◌≡◌, ℕ};
ghost use Rattle.machine.specs.State.{at};
ghost use Rattle.machine.specs.Operands as Operands;
ghost use Rattle.machine.specs.Perform.{perform, performed};

use isa::Operand;
use machine::State;
use memory::{SIZE, Width};

pub mod results;

// A further word, plus a register where that is not R0.
#[tactic(auto, using(machine::proofs::Bind::in_turn), unfolding(machine::specs::Operands::indexed))]
fn indexed(state: &mut State, memory: &[u8; SIZE], n: u16) -> u16
    ensures { (v : ℕ) → perform v (Operands.indexed n) (at state.old memory.now) ≡ performed result (at state.new memory.now) }
{
    let base = state.fetch(memory);
    if n == 0 {
        return base;
    }
    base.wrapping_add(state.register(memory, n))
}

// The address of a general operand.
#[tactic(auto, using(machine::proofs::Bind::in_turn), unfolding(machine::specs::Operands::operand, machine::specs::Operands::stepped))]
pub fn address(state: &mut State, memory: &mut [u8; SIZE], width: Width, operand: Operand) -> u16
    ensures { (v : ℕ) → perform v (Operands.operand width operand) (at state.old memory.old) ≡ performed result (at state.new memory.new) }
{
    let n = operand.register;
    match operand.mode {
        0 => state.register_at(n),
        2 => indexed(state, memory, n),
        // One read of the register for both modes that are left: a second one would make this function too large to be compiled into its
        // callers.
        mode => {
            let held = state.register(memory, n);
            if mode != 1 {
                state.set_register(memory, n, held.wrapping_add(memory::bytes(width)));
            }
            held
        }
    }
}
