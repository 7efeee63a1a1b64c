// Runs of generated programs and of any bytes, with pin records and stop addresses, each also in single steps on a copy of the memory; and
// refused calls; sums of the answer of every step and of what came of them. Then single steps in clock mode, and with a read-only part.
#![tactic(auto)]

use bench::{Bench, RECORDS, mix_run, number, run_step};
use machine::{Ran, Refused, State};
use programs::Theme;
use replay_core::run;
use seeds::{Seed, Sum, lines, spoiled};

mod bench;
mod clock_mode;
mod programs;
mod read_only;

// Lines of the output, memories of a line, calls on a memory.
const LINES: u32 = 128;

const MEMORIES: u32 = 16;

const CALLS: u32 = 8;

// The sum so far, and the counts.
#[derive(Drop)]
struct Tally {
    sum: Sum,
    steps: u64,
    unassigned: u64,
}

// Fills the memory with a program, or with any bytes.
fn fill_memory(bench: &mut Bench) {
    if bench.seed.once_in(4) {
        bench.seed.fill(&mut bench.bytes);
    } else {
        let theme = Theme::any(&mut bench.seed);
        bench.fill_program(theme);
    }
}

// A stop address: odd, anywhere, or at or soon after `pc`.
fn stop(seed: &mut Seed, pc: u16) -> u16 {
    match seed.below(8) {
        0 => seed.address(),
        1 => pc.wrapping_add(2 * seed.below(8)),
        2 => seed.word(),
        _ => 1,
    }
}

// Adds to the sum the answers of steps, each made by itself, one a record, up to the stop address, and the state that they lead to.
fn single_steps(
    bytes: &mut [u8; memory::SIZE],
    mut state: State,
    records: &[u32],
    stop: u16,
    sum: &mut Sum,
) {
    for record in records {
        match run_step(bytes, state, *record, stop) {
            Ok(ran) if ran.steps != 0 => {
                sum.mix_answer(ran.last);
                state = ran.state;
            }
            _ => break,
        }
    }
    sum.mix_state(state);
}

// A run, which is first made in single steps on a copy of the memory.
fn run_twice(bench: &mut Bench, state: State, sum: &mut Sum) -> Result<Ran, Refused> {
    let Bench {
        bytes,
        copy,
        records,
        seed,
    } = bench;
    let from = seed.below(256) as usize;
    let steps = seed.below(769) as usize;
    let stop = stop(seed, state.pc);
    copy.copy_from_slice(bytes);
    single_steps(copy, state, &records[from..from + steps], stop, sum);
    run::run(bytes, state, &records[from..], steps, stop)
}

// A call, mostly a run; an accepted one leaves its state.
fn call(bench: &mut Bench, state: &mut State, tally: &mut Tally) {
    let answer = if bench.seed.once_in(8) {
        bench.run_refused(*state, spoiled::ROM_STAYS)
    } else {
        run_twice(bench, *state, &mut tally.sum)
    };
    mix_run(&mut tally.sum, answer);
    if let Ok(ran) = answer {
        tally.steps = tally.steps.wrapping_add(ran.steps as u64);
        tally.unassigned = tally.unassigned.wrapping_add(ran.unassigned as u64);
        *state = ran.state;
    }
}

// The state that power up leaves.
fn left(answer: Result<State, Refused>) -> State {
    match answer {
        Ok(state) | Err(Refused { state, .. }) => state,
    }
}

// The state that the calls on a memory start from: after power up, or any. With both flags every call is refused.
fn start(bench: &mut Bench) -> State {
    if bench.seed.once_in(4) {
        return left(run::power_up(&mut bench.bytes));
    }
    let flags = if bench.seed.once_in(2) {
        0
    } else {
        bench.seed.below(4)
    };
    bench.seed.state(flags)
}

// One memory: its bytes, its records, its calls, and what they leave.
fn one(bench: &mut Bench, tally: &mut Tally) {
    fill_memory(bench);
    bench.renew_records();
    let mut state = start(bench);
    tally.sum.mix_state(state);
    for _ in 0..CALLS {
        call(bench, &mut state, tally);
    }
    tally.sum.mix_bytes(&bench.bytes);
}

// A line: some memories, and the sums.
fn line(rt: &impl Print, bench: &mut Bench) {
    let mut tally = Tally {
        sum: Sum::ZERO,
        steps: 0,
        unassigned: 0,
    };
    for _ in 0..MEMORIES {
        one(bench, &mut tally);
    }
    lines::number(rt, tally.steps);
    lines::number(rt, tally.unassigned);
    lines::last(rt, tally.sum);
}

// Calls on memories of another size than the machine's.
fn other_sizes(rt: &impl Print) {
    let mut long = [0u8; memory::SIZE + 1];
    let up = run::power_up(&mut long);
    let ran = run::run(&mut long, State::blank(), &[0], 1, 1);
    let mut short = [0u8; memory::SIZE - 1];
    let up_short = run::power_up(&mut short);
    let mut state = Sum::ZERO;
    state.mix_state(left(up));
    lines::number(rt, number(&up));
    lines::number(rt, number(&ran));
    lines::number(rt, number(&up_short));
    lines::sum(rt, state);
    lines::last(rt, Sum::of_bytes(&long));
}

// All parts.
fn all(rt: &impl Print) {
    let mut bench = Bench {
        bytes: [0; memory::SIZE],
        copy: [0; memory::SIZE],
        records: [0; RECORDS],
        seed: Seed::new(9900),
    };
    other_sizes(rt);
    for _ in 0..LINES {
        line(rt, &mut bench);
    }
    for _ in 0..clock_mode::LINES {
        clock_mode::line(rt, &mut bench);
    }
    for _ in 0..read_only::LINES {
        read_only::line(rt, &mut bench);
    }
}

fn main(rt: HostRuntime) {
    all(&rt);
}
