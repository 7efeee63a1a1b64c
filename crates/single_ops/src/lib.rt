// One general operand: B, CLR, NEG, INV, INC, INCT, DEC, DECT, BL, SWPB, SETO, ABS.
#![tactic(auto)]

ghost use Rattle.std.specs.Prelude.{◌≡◌, ℕ};
ghost use Rattle.isa.specs.declared.SingleOp.TheVariants as Op;
ghost use Rattle.machine.specs.State.{at};
ghost use Rattle.machine.specs.Groups as Groups;
ghost use Rattle.machine.specs.Perform.{perform, performed};

use alu::sums;
use isa::{Operand, SingleOp};
use machine::State;
use memory::{SIZE, Width};
use operand::results;

// ABS: the operand is judged, and replaced where it is negative; another stays as it is, with no store.
#[tactic(auto, using(machine::proofs::Bind::in_turn), unfolding(machine::specs::Groups::single_effect, machine::specs::Groups::store_absolute, alu::specs::Sums::absolute))]
fn make_absolute(state: &mut State, memory: &mut [u8; SIZE], to: u16)
    ensures { (v : ℕ) → perform v (Groups.single_effect Op.Abs to) (at state.old memory.old) ≡ performed tt (at state.new memory.new) }
{
    let old = state.load(memory, Width::Word, to);
    let outcome = sums::absolute(old, state.st);
    results::set_status(state, outcome.st);
    if bits::bit(old as u32, 15) {
        state.store(memory, Width::Word, to, outcome.value);
    }
}

// What each operation does at its operand's address; INC and its like are sums and differences with a fixed source.
#[tactic(auto, using(machine::proofs::Bind::in_turn), unfolding(machine::specs::Groups::single_effect, machine::specs::Groups::dual_effect))]
fn single_effect(state: &mut State, memory: &mut [u8; SIZE], op: SingleOp, to: u16)
    ensures { (v : ℕ) → perform v (Groups.single_effect op to) (at state.old memory.old) ≡ performed tt (at state.new memory.new) }
{
    match op {
        SingleOp::B => state.set_pc(to),
        SingleOp::Clr => state.store(memory, Width::Word, to, 0),
        SingleOp::Neg => {
            let old = state.load(memory, Width::Word, to);
            let outcome = sums::negated(old, state.st);
            results::conclude(state, memory, Width::Word, to, outcome);
        }
        SingleOp::Inv => {
            let old = state.load(memory, Width::Word, to);
            results::conclude_judged(state, memory, Width::Word, to, bits::inverted(old));
        }
        SingleOp::Inc => dual_ops::add(state, memory, Width::Word, 1, to),
        SingleOp::Inct => dual_ops::add(state, memory, Width::Word, 2, to),
        SingleOp::Dec => dual_ops::subtract(state, memory, Width::Word, 1, to),
        SingleOp::Dect => dual_ops::subtract(state, memory, Width::Word, 2, to),
        SingleOp::Bl => {
            let back = state.pc;
            state.set_pc(to);
            state.set_register(memory, 11, back);
        }
        SingleOp::Swpb => {
            let old = state.load(memory, Width::Word, to);
            state.store(memory, Width::Word, to, bits::swapped(old));
        }
        SingleOp::Seto => state.store(memory, Width::Word, to, 0xFFFF),
        SingleOp::Abs => make_absolute(state, memory, to),
    }
}

// The operand's address, then the operation.
#[tactic(auto, using(machine::proofs::Bind::in_turn), unfolding(machine::specs::Groups::single))]
pub fn single(state: &mut State, memory: &mut [u8; SIZE], op: SingleOp, operand: Operand)
    ensures { (v : ℕ) → perform v (Groups.single op operand) (at state.old memory.old) ≡ performed tt (at state.new memory.new) }
{
    let to = operand::address(state, memory, Width::Word, operand);
    single_effect(state, memory, op, to);
}
