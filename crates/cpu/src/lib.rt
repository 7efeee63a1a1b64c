// A word executed: X leads on to another word, and the last of them is performed.
#![tactic(auto)]

ghost use Rattle.std.specs.Prelude.{◌≡◌, ℕ};
ghost use Rattle.machine.specs.State.{at};
ghost use Rattle.machine.specs.Execute as Execute;
ghost use Rattle.machine.specs.Perform.{perform, performed};
ghost use Rattle.cpu.specs.Resolve as Resolve;

use machine::{Deed, State};
use memory::{SIZE, Width};

// How many X one step may execute; the ninth is read as an unassigned word.
pub const ALLOWANCE: u16 = 8;

// X: goes on with the word at its operand's address and an allowance lower by one; with none left X is the word itself.
#[cycle(executing)]
fn execute_again(state: &mut State, memory: &mut [u8; SIZE], word: u16, allowance: u16) -> u16
    ensures { (v : ℕ) → perform v (Resolve.again allowance word) (at state.old memory.old) ≡ performed result (at state.new memory.new) }
{
    if allowance == 0 {
        return word;
    }
    let there = operand::address(state, memory, Width::Word, isa::source(word));
    let next = state.load(memory, Width::Word, there);
    execute(state, memory, next, allowance - 1)
}

// Goes on as long as the word is an X; `allowance` is how many more X the step may execute. Answers the word that is performed in the end.
#[cycle(executing)]
fn execute(state: &mut State, memory: &mut [u8; SIZE], word: u16, allowance: u16) -> u16
    ensures { (v : ℕ) → perform v (Resolve.resolve allowance word) (at state.old memory.old) ≡ performed result (at state.new memory.new) }
{
    if isa::is_x(word) {
        return execute_again(state, memory, word, allowance);
    }
    word
}

// Executes a word, with so many X allowed.
#[tactic(auto, using(machine::proofs::Bind::in_turn, crate::proofs::Laws::resolves), unfolding(machine::specs::Execute::execute))]
pub fn perform(
    state: &mut State,
    memory: &mut [u8; SIZE],
    levels: u32,
    word: u16,
    allowance: u16,
) -> Deed
    ensures { perform levels (Execute.execute allowance word) (at state.old memory.old) ≡ performed result (at state.new memory.new) }
{
    let last = execute(state, memory, word, allowance);
    instructions::perform(state, memory, levels, last)
}
