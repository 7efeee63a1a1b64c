// When a call of run or power up is refused.
#![tactic(auto)]

ghost use Rattle.std.specs.Prelude.{◌≡◌};
ghost use Rattle.refusals.specs.Refusals as Refusals;
ghost use Rattle.machine.specs.Run as Run;

use machine::State;
use refusals::Refusal;

// The refusal of a run, in the order checked: memory's size, the state, more steps than records.
#[tactic(auto, using(std::proofs::lemmas::Bool::Decides::nat_tests), unfolding(machine::specs::Run::run_refusal, refusals::specs::Refusals::number_of, refusals::specs::Refusals::number))]
pub fn check_run(size: usize, state: State, records: usize, steps: usize) -> Result<(), Refusal>
    ensures { Refusals.number_of result ≡ Run.run_refusal size state records steps }
{
    if size != memory::SIZE {
        return Err(Refusal::MemorySize);
    }
    if !state.well_formed() {
        return Err(Refusal::State);
    }
    if records < steps {
        return Err(Refusal::Records);
    }
    Ok(())
}

// The refusal of power up: memory's size.
#[tactic(auto, using(std::proofs::lemmas::Bool::Decides::nat_tests), unfolding(machine::specs::Run::power_up_refusal, refusals::specs::Refusals::number_of, refusals::specs::Refusals::number))]
pub fn check_power_up(size: usize) -> Result<(), Refusal>
    ensures { Refusals.number_of result ≡ Run.power_up_refusal size }
{
    if size == memory::SIZE {
        Ok(())
    } else {
        Err(Refusal::MemorySize)
    }
}
