// What the runs are made on.
ghost use Rattle.std.specs.Prelude.{◌<◌, ◌≤◌};

use machine::{Ran, Refused, State};
use replay_core::run;
use seeds::{Seed, Sum};

// How many pin records there are.
pub const RECORDS: usize = 1024;

// A memory and a copy of it, the pin records, and the generator of all that is drawn.
#[derive(Drop)]
pub struct Bench {
    pub bytes: [u8; memory::SIZE],
    pub copy: [u8; memory::SIZE],
    pub records: [u32; RECORDS],
    pub seed: Seed,
}

// How quiet the pins are.
fn quiet(seed: &mut Seed) -> u16
    ensures { 0 < result }
{
    4 << seed.below(5)
}

// One step, or none at the stop address.
pub fn run_step(
    bytes: &mut [u8; memory::SIZE],
    state: State,
    record: u32,
    stop: u16,
) -> Result<Ran, Refused> {
    run::run(bytes, state, &[record], 1, stop)
}

// A run on the first bytes of the memory.
fn run_part(
    bytes: &mut [u8; memory::SIZE],
    size: usize,
    state: State,
    records: &[u32],
    steps: usize,
) -> Result<Ran, Refused>
    requires { size ≤ 16384 }
{
    run::run(&mut bytes[..size], state, records, steps, 1)
}

impl Bench {
    // Records of new pins, as quiet as the seed says.
    pub fn renew_records(&mut self) {
        let quiet = quiet(&mut self.seed);
        for record in &mut self.records {
            *record = self.seed.record(quiet);
        }
    }

    // A run that is refused, for one reason or for two. A state is spoiled in one of the first `ways`.
    pub fn run_refused(&mut self, state: State, ways: u16) -> Result<Ran, Refused>
        requires { 0 < ways }
    {
        let Bench {
            bytes,
            records,
            seed,
            ..
        } = self;
        let many = RECORDS + 1 + seed.below(3) as usize;
        let way = seed.below(ways);
        let bad = seed.spoiled(state, way);
        let (size, state, steps) = match seed.below(5) {
            0 => (seed.below(memory::SIZE as u16) as usize, state, 1),
            1 => (seed.below(memory::SIZE as u16) as usize, bad, many),
            2 => (memory::SIZE, bad, 1),
            3 => (memory::SIZE, bad, many),
            _ => (memory::SIZE, state, many),
        };
        run_part(bytes, size, state, records, steps)
    }
}

// Adds a count to the sum.
fn mix_count(sum: &mut Sum, count: usize) {
    sum.mix((count % 65536) as u32);
}

// The number of a call's refusal; 0 where it is accepted.
pub fn number<T>(answer: &Result<T, Refused>) -> u16 {
    match answer {
        Ok(_) => 0,
        Err(refused) => refused.refusal.number(),
    }
}

// Adds all that a run answers to the sum, and gives the state that it leaves. A refused run did nothing.
pub fn mix_run(sum: &mut Sum, answer: Result<Ran, Refused>) -> State {
    sum.mix(number(&answer));
    let ran = answer.unwrap_or_else(|refused| Ran::at_once(refused.state));
    mix_count(sum, ran.steps);
    mix_count(sum, ran.unassigned);
    sum.mix_answer(ran.last);
    sum.mix_state(ran.state);
    ran.state
}
