// Results: the status and the stored value that end most instructions.
ghost use Rattle.std.specs.Prelude.{◌≡◌, ℕ, List};
ghost use Rattle.alu.specs.declared.Outcome as Declared;
ghost use Rattle.machine.specs.State.{at};
ghost use Rattle.machine.specs.Groups as Groups;
ghost use Rattle.machine.specs.Perform.{perform, performed};

use alu::Outcome;
use machine::State;
use memory::{SIZE, Width};

// ST, and then the result at its address.
#[tactic(auto, using(machine::proofs::Bind::in_turn), unfolding(machine::specs::Groups::conclude))]
pub fn conclude(
    state: &mut State,
    memory: &mut [u8; SIZE],
    width: Width,
    address: u16,
    outcome: Outcome,
)
    ensures { (v : ℕ) (f : ℕ → Declared.Outcome) → f state.old.st ≡ outcome → perform v (Groups.conclude width address f) (at state.old memory.old) ≡ performed tt (at state.new memory.new) }
{
    state.set_st(outcome.st);
    state.store(memory, width, address, outcome.value);
}

// A result that is judged and stored.
#[tactic(auto, using(machine::proofs::Bind::in_turn), unfolding(machine::specs::Groups::conclude_judged))]
pub fn conclude_judged(
    state: &mut State,
    memory: &mut [u8; SIZE],
    width: Width,
    address: u16,
    value: u16,
)
    ensures { (v : ℕ) → perform v (Groups.conclude_judged width address value) (at state.old memory.old) ≡ performed tt (at state.new memory.new) }
{
    let st = alu::status::judged(width, value, state.st);
    conclude(state, memory, width, address, Outcome { value, st });
}

// ST becomes `st`, which is what a function made of the old one.
#[tactic(auto, using(machine::proofs::Bind::in_turn), unfolding(machine::specs::Groups::set_status))]
pub fn set_status(state: &mut State, st: u16)
    ensures { (v : ℕ) (m : List ℕ) (f : ℕ → ℕ) → f state.old.st ≡ st → perform v (Groups.set_status f) (at state.old m) ≡ performed tt (at state.new m) }
{
    state.set_st(st);
}

// COC, CZC, TB: EQ alone.
#[tactic(auto, using(machine::proofs::Bind::in_turn), unfolding(machine::specs::Groups::set_equal))]
pub fn set_equal(state: &mut State, on: bool)
    ensures { (v : ℕ) (m : List ℕ) → perform v (Groups.set_equal on) (at state.old m) ≡ performed tt (at state.new m) }
{
    set_status(state, bits::put(state.st, alu::status::EQUAL, on));
}
