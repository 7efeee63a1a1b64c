// Single steps with a read-only part, of programs of entries and stores, beside a run without it on a copy of the memory: how many cases end
// otherwise, so that the part mattered; sums of the answer of every step and of the states.
use crate::bench::{Bench, mix_run, run_step};
use crate::programs::Theme;
use machine::State;
use replay_core::run;
use seeds::{Seed, Sum, lines, spoiled};

// Lines of the output, memories of a line, cases on a memory, steps of a case.
pub const LINES: u32 = 64;

const MEMORIES: u32 = 8;

const CASES: u32 = 16;

const STEPS: usize = 24;

// The sum so far, and how many cases ended otherwise than without the read-only part.
#[derive(Drop)]
struct Tally {
    sum: Sum,
    other: u64,
}

// A state without a read-only part; half of them are in clock mode.
fn any_mode(seed: &mut Seed) -> State {
    let mut state = seed.state(0);
    if seed.once_in(2) {
        seed.set_clock_mode(&mut state.psi);
    }
    state
}

// A state with a read-only part.
fn start(bench: &mut Bench) -> State {
    let mut state = any_mode(&mut bench.seed);
    state.rom = bench.seed.suited_rom(&bench.bytes, state);
    state
}

// The state after a step for each record, in one run without a read-only part.
fn run_without(
    bytes: &mut [u8; memory::SIZE],
    state: State,
    records: &[u32],
    sum: &mut Sum,
) -> State {
    let free = State {
        rom: State::NO_ROM,
        ..state
    };
    mix_run(sum, run::run(bytes, free, records, records.len(), 1))
}

// The state after a step for each record, each made by itself.
fn single_steps(
    bytes: &mut [u8; memory::SIZE],
    mut state: State,
    records: &[u32],
    sum: &mut Sum,
) -> State {
    for record in records {
        state = mix_run(sum, run_step(bytes, state, *record, 1));
    }
    state
}

// A case: now and then a refused call, then its steps without the part on the copy, and with it. It mattered where they end otherwise in
// memory, WP, PC or ST.
fn case(bench: &mut Bench, tally: &mut Tally) {
    let state = start(bench);
    if bench.seed.once_in(4) {
        let answer = bench.run_refused(state, spoiled::WAYS);
        mix_run(&mut tally.sum, answer);
    }
    let Bench {
        bytes,
        copy,
        records,
        seed,
    } = bench;
    let from = seed.below(256) as usize;
    let records = &records[from..from + STEPS];
    copy.copy_from_slice(bytes);
    let free = run_without(copy, state, records, &mut tally.sum);
    let with = single_steps(bytes, state, records, &mut tally.sum);
    if (with.wp, with.pc, with.st) != (free.wp, free.pc, free.st) || bytes != copy {
        tally.other = tally.other.wrapping_add(1);
    }
}

// One memory: its program, its records, its cases, and what they leave.
fn one(bench: &mut Bench, tally: &mut Tally) {
    bench.fill_program(Theme::Stores);
    bench.renew_records();
    for _ in 0..CASES {
        case(bench, tally);
    }
    tally.sum.mix_bytes(&bench.bytes);
}

// A line: some memories, the count, and the sum.
pub fn line(rt: &impl Print, bench: &mut Bench) {
    let mut tally = Tally {
        sum: Sum::ZERO,
        other: 0,
    };
    for _ in 0..MEMORIES {
        one(bench, &mut tally);
    }
    lines::number(rt, tally.other);
    lines::last(rt, tally.sum);
}
