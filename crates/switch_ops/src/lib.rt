// Context switches (BLWP, XOP and the entries), and RTWP, the return from one.
#![tactic(auto)]

ghost use Rattle.std.specs.Prelude.{◌≡◌, ℕ, ◌+◌, ◌*◌, ◌%◌};
ghost use Rattle.machine.specs.State.{at};
ghost use Rattle.machine.specs.Groups as Groups;
ghost use Rattle.machine.specs.Perform.{perform, performed};

use alu::status;
use isa::Operand;
use machine::State;
use memory::{SIZE, Width};
use operand::results;

// A context switch: both vector words are read, then old WP, PC and ST are stored in the new workspace.
pub fn switch(state: &mut State, memory: &mut [u8; SIZE], vector: u16)
    ensures { (v : ℕ) → perform v (Groups.switch vector) (at state.old memory.old) ≡ performed tt (at state.new memory.new) }
{
    let wp = state.load(memory, Width::Word, vector);
    let pc = state.load(memory, Width::Word, vector.wrapping_add(2));
    let old = *state;
    state.set_wp(wp);
    state.set_register(memory, 13, old.wp);
    state.set_register(memory, 14, old.pc);
    state.set_register(memory, 15, old.st);
    state.set_pc(pc);
    state.set_flags(bits::put(old.flags, State::NO_SAMPLE, true));
}

// BLWP: the vector is the operand.
#[tactic(auto, using(machine::proofs::Bind::in_turn), unfolding(machine::specs::Groups::switch_by_operand))]
pub fn switch_by_operand(state: &mut State, memory: &mut [u8; SIZE], operand: Operand)
    ensures { (v : ℕ) → perform v (Groups.switch_by_operand operand) (at state.old memory.old) ≡ performed tt (at state.new memory.new) }
{
    let vector = operand::address(state, memory, Width::Word, operand);
    switch(state, memory, vector);
}

// Where the vector of an XOP is: XOP 0's at 40h, four bytes each.
fn xop_vector(number: u16) -> u16
    ensures { result ≡ (0x40 + 4 * number) % 65536 }
{
    number.wrapping_mul(4).wrapping_add(0x40)
}

// XOP: the vector is the number's; X is set, and the operand's address is in the new R11.
#[tactic(auto, using(machine::proofs::Bind::in_turn, crate::proofs::Vectors::switch_wraps), unfolding(machine::specs::Groups::switch_by_number))]
pub fn switch_by_number(state: &mut State, memory: &mut [u8; SIZE], operand: Operand, number: u16)
    ensures { (v : ℕ) → perform v (Groups.switch_by_number operand number) (at state.old memory.old) ≡ performed tt (at state.new memory.new) }
{
    let address = operand::address(state, memory, Width::Word, operand);
    let vector = xop_vector(number);
    switch(state, memory, vector);
    results::set_status(state, bits::put(state.st, status::EXTENDED, true));
    state.set_register(memory, 11, address);
}

// RTWP: all three words are read before any is loaded.
pub fn return_from(state: &mut State, memory: &[u8; SIZE])
    ensures { (v : ℕ) → perform v Groups.return (at state.old memory.now) ≡ performed tt (at state.new memory.now) }
{
    let wp = state.register(memory, 13);
    let pc = state.register(memory, 14);
    let st = state.register(memory, 15);
    state.set_wp(wp);
    state.set_pc(pc);
    state.set_st(st);
}
