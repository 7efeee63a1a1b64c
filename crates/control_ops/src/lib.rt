// LIMI, LWPI, STST and STWP, which load or store the machine's own registers, and the control forms, which have no operand.
#![tactic(auto)]

ghost use Rattle.std.specs.Prelude.{◌≡◌, ℕ};
ghost use Rattle.machine.specs.Execute as Execute;
ghost use Rattle.machine.specs.State.{at};
ghost use Rattle.machine.specs.Groups as Groups;
ghost use Rattle.machine.specs.Perform.{perform, performed};

use isa::ControlOp;
use machine::{Deed, State};
use memory::SIZE;
use operand::results;

// ST with another interrupt mask: LIMI, RSET and the entries.
pub fn masked(mask: u16, st: u16) -> u16
    ensures { result ≡ Groups.masked mask st }
{
    st / 16 * 16 + mask % 16
}

// LIMI.
#[tactic(auto, using(machine::proofs::Bind::in_turn), unfolding(machine::specs::Groups::load_mask))]
pub fn load_mask(state: &mut State, memory: &[u8; SIZE])
    ensures { (v : ℕ) → perform v Groups.load_mask (at state.old memory.now) ≡ performed tt (at state.new memory.now) }
{
    let word = state.fetch(memory);
    results::set_status(state, masked(word, state.st));
}

// LWPI.
#[tactic(auto, using(machine::proofs::Bind::in_turn), unfolding(machine::specs::Groups::load_workspace))]
pub fn load_workspace(state: &mut State, memory: &[u8; SIZE])
    ensures { (v : ℕ) → perform v Groups.load_workspace (at state.old memory.now) ≡ performed tt (at state.new memory.now) }
{
    let word = state.fetch(memory);
    state.set_wp(word);
}

// STST. (One line each: a function of both would take a flag.)
#[tactic(auto, using(machine::proofs::Bind::in_turn), unfolding(machine::specs::Groups::store_status))]
pub fn store_status(state: &mut State, memory: &mut [u8; SIZE], n: u16)
    ensures { (v : ℕ) → perform v (Groups.store_status n) (at state.old memory.old) ≡ performed tt (at state.new memory.new) }
{
    state.set_register(memory, n, state.st);
}

// STWP.
#[tactic(auto, using(machine::proofs::Bind::in_turn), unfolding(machine::specs::Groups::store_workspace))]
pub fn store_workspace(state: &mut State, memory: &mut [u8; SIZE], n: u16)
    ensures { (v : ℕ) → perform v (Groups.store_workspace n) (at state.old memory.old) ≡ performed tt (at state.new memory.new) }
{
    state.set_register(memory, n, state.wp);
}

// IDLE, RSET, RTWP, CKON, CKOF, LREX.
#[tactic(auto, using(machine::proofs::Bind::in_turn), unfolding(machine::specs::Groups::command))]
pub fn command(state: &mut State, memory: &[u8; SIZE], op: ControlOp)
    ensures { (v : ℕ) → perform v (Groups.command op) (at state.old memory.now) ≡ performed tt (at state.new memory.now) }
{
    match op {
        ControlOp::Idle => state.set_flags(bits::put(state.flags, State::IDLE, true)),
        ControlOp::Rset => results::set_status(state, masked(0, state.st)),
        ControlOp::Rtwp => switch_ops::return_from(state, memory),
        ControlOp::Ckon | ControlOp::Ckof | ControlOp::Lrex => {}
    }
}

// RTWP returns; the other control forms are ordinary.
#[tactic(auto, unfolding(machine::specs::Execute::command_deed))]
pub fn command_deed(op: ControlOp) -> Deed
    ensures { result ≡ Execute.command_deed op }
{
    match op {
        ControlOp::Rtwp => Deed::Returned,
        ControlOp::Idle | ControlOp::Rset | ControlOp::Ckon | ControlOp::Ckof | ControlOp::Lrex =>
            Deed::Ordinary,
    }
}
