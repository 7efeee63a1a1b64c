// One step: the clock advances, the request code is judged, and an entry is taken or an instruction executed.
#![tactic(auto)]

ghost use Rattle.std.specs.Prelude.{◌≡◌, ℕ};
ghost use Rattle.machine.specs.State.{at};
ghost use Rattle.machine.specs.Step as Step;
ghost use Rattle.machine.specs.Answer as Answer;
ghost use Rattle.machine.specs.Perform.{perform, performed};

use machine::{Signal, State, StepAnswer};
use memory::SIZE;
use operand::results;

// An entry: the context switch, then ST and the flags.
#[tactic(auto, using(machine::proofs::Bind::in_turn), unfolding(machine::specs::Step::enter))]
pub fn enter(state: &mut State, memory: &mut [u8; SIZE], signal: Signal)
    ensures { (v : ℕ) → perform v (Step.enter (Step.vector signal) (Step.entry_status signal)) (at state.old memory.old) ≡ performed tt (at state.new memory.new) }
{
    switch_ops::switch(state, memory, sampling::vector(signal));
    results::set_status(state, sampling::entry_status(signal, state.st));
    state.set_flags(bits::put(state.flags, State::IDLE, false));
}

// No entry: an idle machine does nothing; any other clears no-sample and executes one instruction.
#[tactic(auto, using(machine::proofs::Bind::in_turn), unfolding(machine::specs::Step::proceed, machine::specs::Answer::as_told, machine::specs::Answer::told))]
fn proceed(state: &mut State, memory: &mut [u8; SIZE], levels: u32) -> StepAnswer
    ensures { Answer.as_told state.old.pc (perform levels Step.proceed (at state.old memory.old)) ≡ performed result (at state.new memory.new) }
{
    if bits::bit(state.flags as u32, State::IDLE) {
        return StepAnswer::Idle;
    }
    let pc = state.pc;
    state.set_flags(bits::put(state.flags, State::NO_SAMPLE, false));
    let word = state.fetch(memory);
    let deed = cpu::perform(state, memory, levels, word, cpu::ALLOWANCE);
    step_answers::told_word(pc, deed)
}

// What happens at a boundary where this is taken.
#[tactic(auto, using(machine::proofs::Bind::in_turn), unfolding(machine::specs::Step::boundary, machine::specs::Answer::as_told, machine::specs::Answer::told))]
fn boundary(state: &mut State, memory: &mut [u8; SIZE], levels: u32, signal: Signal) -> StepAnswer
    ensures { Answer.as_told state.old.pc (perform levels (Step.boundary signal) (at state.old memory.old)) ≡ performed result (at state.new memory.new) }
{
    let answer = match signal {
        Signal::Reset => StepAnswer::Reset,
        Signal::Load => StepAnswer::Load,
        Signal::Level(k) => StepAnswer::Level(k),
        Signal::Nothing => return proceed(state, memory, levels),
    };
    enter(state, memory, signal);
    answer
}

// One step with a pin record.
#[tactic(auto, using(machine::proofs::Bind::in_turn), unfolding(machine::specs::Step::step, machine::specs::Step::stepping))]
pub fn step(state: &mut State, memory: &mut [u8; SIZE], word: u32) -> StepAnswer
    ensures { Answer.answered word (at state.old memory.old) ≡ performed result (at state.new memory.new) }
{
    let record = psi::split(word);
    state.psi.advance(record.cycles);
    let code = state.psi.code(record.levels);
    let taken = sampling::admitted(*state, sampling::signal(code));
    boundary(state, memory, record.levels, taken)
}
