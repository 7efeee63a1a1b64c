// What a step answers: of an executed word, and as the numbers that C knows it by (two of them, so not a `From`, and `missed` is the number that
// `Answer.missed` adds).
#![tactic(auto)]

ghost use Rattle.std.specs.Prelude.{◌≡◌};
ghost use Rattle.machine.specs.Answer as Answer;

use machine::{Deed, StepAnswer};

// What is told of an executed word, in a step that began with this PC.
#[tactic(auto, unfolding(machine::specs::Answer::told_word))]
pub fn told_word(pc: u16, deed: Deed) -> StepAnswer
    ensures { result ≡ Answer.told_word pc deed }
{
    match deed {
        Deed::Unassigned => StepAnswer::Unassigned(pc),
        Deed::Ordinary | Deed::Switched | Deed::Returned => StepAnswer::Instruction,
    }
}

// 1 where a step met an unassigned word, else 0.
#[tactic(auto, unfolding(machine::specs::Answer::missed))]
pub fn missed(answer: StepAnswer) -> usize
    ensures { result ≡ Answer.missed answer }
{
    match answer {
        StepAnswer::Unassigned(_) => 1,
        _ => 0,
    }
}

// The number that stands for an answer.
#[tactic(auto, unfolding(machine::specs::Answer::number))]
pub fn number(answer: StepAnswer) -> u16
    ensures { result ≡ Answer.number answer }
{
    match answer {
        StepAnswer::Nothing => 0,
        StepAnswer::Reset => 1,
        StepAnswer::Load => 2,
        StepAnswer::Level(_) => 3,
        StepAnswer::Instruction => 4,
        StepAnswer::Idle => 5,
        StepAnswer::Unassigned(_) => 6,
    }
}

// The number that goes with an answer: the level, or the PC before the step; else 0.
#[tactic(auto, unfolding(machine::specs::Answer::value))]
pub fn value(answer: StepAnswer) -> u16
    ensures { result ≡ Answer.value answer }
{
    match answer {
        StepAnswer::Level(k) => k,
        StepAnswer::Unassigned(pc) => pc,
        _ => 0,
    }
}
