// Runs of steps, and power up.
ghost use Rattle.std.specs.Prelude.{◌≡◌, length};
ghost use Rattle.machine.specs.Run as Run;
ghost use Rattle.machine.specs.State.{at};
ghost use Rattle.replay_core.specs.Runs as Runs;

use machine::{Ran, Refused, Signal, State};
use memory::SIZE;

// A step for each record, up to the stop address.
fn run_steps(memory: &mut [u8; SIZE], state: State, records: &[u32], stop: u16) -> Ran
    ensures { Run.runs stop (length records.now) records.now (at state memory.old) ≡ Runs.ended result memory.new }
{
    let mut ran = Ran::at_once(state);
    for record in records {
        if ran.state.pc == stop {
            break;
        }
        ran.last = boundary::step(&mut ran.state, memory, *record);
        ran.unassigned += step_answers::missed(ran.last);
        ran.steps += 1;
    }
    ran
}

// Runs at most `steps` steps on the records, up to the stop address; a refused call returns the state as given.
pub fn run(
    bytes: &mut [u8],
    state: State,
    records: &[u32],
    steps: usize,
    stop: u16,
) -> Result<Ran, Refused>
    ensures { Run.Promised bytes.old state records.now steps stop (Run.run_answer result) bytes.new }
{
    run_rules::check_run(bytes.len(), state, records.len(), steps).map_err(|refusal| Refused {
        refusal,
        state,
    })?;
    let memory = bytes.as_mut_array().unwrap();
    Ok(run_steps(memory, state, &records[..steps], stop))
}

// Power up: the reset entry from the blank state.
pub fn power_up(bytes: &mut [u8]) -> Result<State, Refused>
    ensures value { Run.state_answer result ≡ (Run.power_up bytes.old).answer }
    ensures bytes_after { bytes.new ≡ (Run.power_up bytes.old).memory }
{
    let mut state = State::blank();
    run_rules::check_power_up(bytes.len()).map_err(|refusal| Refused { refusal, state })?;
    let memory = bytes.as_mut_array().unwrap();
    boundary::enter(&mut state, memory, Signal::Reset);
    Ok(state)
}
