// The jumps: JMP, JLT, JLE, JEQ, JHE, JGT, JNE, JNC, JOC, JNO, JL, JH, JOP.
#![tactic(auto)]

ghost use Rattle.std.specs.Prelude.{◌≡◌, ℕ, List};
ghost use Rattle.machine.specs.State.{at};
ghost use Rattle.machine.specs.Groups as Groups;
ghost use Rattle.machine.specs.Perform.{perform, performed};

use isa::JumpOp;
use machine::State;

// A jump where its condition holds.
#[tactic(auto, using(machine::proofs::Bind::in_turn), unfolding(machine::specs::Groups::jump))]
pub fn jump(state: &mut State, op: JumpOp, displacement: u16)
    ensures { (v : ℕ) (m : List ℕ) → perform v (Groups.jump op displacement) (at state.old m) ≡ performed tt (at state.new m) }
{
    if alu::status::jumps(op, state.st) {
        state.set_pc(isa::target(state.pc, displacement));
    }
}
