// Two general operands, byte or word: SZC, S, C, A, MOV, SOC.
#![tactic(auto)]

ghost use Rattle.std.specs.Prelude.{◌≡◌, ℕ};
ghost use Rattle.isa.specs.declared.DualOp.TheVariants as Op;
ghost use Rattle.machine.specs.State.{at};
ghost use Rattle.machine.specs.Groups as Groups;
ghost use Rattle.machine.specs.Perform.{perform, performed};

use alu::{status, sums};
use isa::{DualOp, Operand};
use machine::State;
use memory::{SIZE, Width};
use operand::results;

// A: the source is added. (Two functions, which INC and DEC call too: a second caller of `dual_effect` would
// keep that large function out of the run's loop.)
#[tactic(auto, using(machine::proofs::Bind::in_turn), unfolding(machine::specs::Groups::dual_effect))]
pub fn add(state: &mut State, memory: &mut [u8; SIZE], width: Width, x: u16, to: u16)
    ensures { (v : ℕ) → perform v (Groups.dual_effect Op.A width x to) (at state.old memory.old) ≡ performed tt (at state.new memory.new) }
{
    let old = state.load(memory, width, to);
    let outcome = sums::sum(width, old, x, state.st);
    results::conclude(state, memory, width, to, outcome);
}

// S: the source is subtracted.
#[tactic(auto, using(machine::proofs::Bind::in_turn), unfolding(machine::specs::Groups::dual_effect))]
pub fn subtract(state: &mut State, memory: &mut [u8; SIZE], width: Width, x: u16, to: u16)
    ensures { (v : ℕ) → perform v (Groups.dual_effect Op.S width x to) (at state.old memory.old) ≡ performed tt (at state.new memory.new) }
{
    let old = state.load(memory, width, to);
    let outcome = sums::difference(width, old, x, state.st);
    results::conclude(state, memory, width, to, outcome);
}

// C: the source is compared with the destination; CB judges the source's parity too.
#[tactic(auto, using(machine::proofs::Bind::in_turn), unfolding(machine::specs::Groups::dual_effect))]
fn compare(state: &mut State, memory: &[u8; SIZE], width: Width, x: u16, to: u16)
    ensures { (v : ℕ) → perform v (Groups.dual_effect Op.C width x to) (at state.old memory.now) ≡ performed tt (at state.new memory.now) }
{
    let other = state.load(memory, width, to);
    let compared = status::compared(width, x, other, state.st);
    results::set_status(state, status::parity(width, x, compared));
}

// What each operation does with the source's value and the destination's address.
#[tactic(auto, using(machine::proofs::Bind::in_turn), unfolding(machine::specs::Groups::dual_effect))]
fn dual_effect(
    state: &mut State,
    memory: &mut [u8; SIZE],
    op: DualOp,
    width: Width,
    x: u16,
    to: u16,
)
    ensures { (v : ℕ) → perform v (Groups.dual_effect op width x to) (at state.old memory.old) ≡ performed tt (at state.new memory.new) }
{
    match op {
        DualOp::Szc => {
            let old = state.load(memory, width, to);
            results::conclude_judged(state, memory, width, to, bits::without(old, x));
        }
        DualOp::S => subtract(state, memory, width, x, to),
        DualOp::C => compare(state, memory, width, x, to),
        DualOp::A => add(state, memory, width, x, to),
        DualOp::Mov => results::conclude_judged(state, memory, width, to, x),
        DualOp::Soc => {
            let old = state.load(memory, width, to);
            results::conclude_judged(state, memory, width, to, bits::either(old, x));
        }
    }
}

// The source's address and value, then the destination's address, then the operation.
#[tactic(auto, using(machine::proofs::Bind::in_turn), unfolding(machine::specs::Groups::dual))]
pub fn dual(
    state: &mut State,
    memory: &mut [u8; SIZE],
    op: DualOp,
    width: Width,
    source: Operand,
    destination: Operand,
)
    ensures { (v : ℕ) → perform v (Groups.dual op width source destination) (at state.old memory.old) ≡ performed tt (at state.new memory.new) }
{
    let from = operand::address(state, memory, width, source);
    let x = state.load(memory, width, from);
    let to = operand::address(state, memory, width, destination);
    dual_effect(state, memory, op, width, x, to);
}
