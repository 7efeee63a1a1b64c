// Single steps in clock mode, where the read register stays until an access refreshes it, of programs that often read the clock: counts
// of the steps that move the read register and of those that leave it frozen; sums of the answer of every step and of the state after it.
use crate::bench::{Bench, run_step};
use crate::programs::Theme;
use machine::State;
use memory::Width;
use psi::Psi;
use seeds::{Seed, Sum, lines};

// Lines of the output, memories of a line, cases on a memory, steps of a case.
pub const LINES: u32 = 64;

const MEMORIES: u32 = 8;

const CASES: u32 = 32;

const STEPS: usize = 24;

// The sum so far; how many steps that stayed in clock mode moved the read register, and how many left it, with another value than the
// decrementer's.
#[derive(Drop)]
struct Tally {
    sum: Sum,
    moved: u64,
    frozen: u64,
}

// An even address: the first or the middle of 64 bytes, or any.
fn place(seed: &mut Seed) -> u16 {
    let base = seed.word() / 64 * 64;
    match seed.below(4) {
        0 => base,
        1 => base + 32,
        _ => base + seed.below(32) * 2,
    }
}

// A state in clock mode.
fn clock_state(seed: &mut Seed) -> State {
    let mut state = seed.state(0);
    state.wp = place(seed);
    state.pc = place(seed);
    seed.set_clock_mode(&mut state.psi);
    state
}

impl Tally {
    // Counts a step, by the PSI before and after it.
    fn count(&mut self, before: Psi, after: Psi) {
        if before.mask % 2 == 0 || after.mask % 2 == 0 {
            return;
        }
        if after.reading != before.reading {
            self.moved = self.moved.wrapping_add(1);
        } else if after.reading != after.decrementer {
            self.frozen = self.frozen.wrapping_add(1);
        }
    }
}

// A case, which starts with R12 at the clock's lowest bit. A refused step would end it, which the sum would show.
fn case(bench: &mut Bench, tally: &mut Tally) {
    let Bench {
        bytes,
        records,
        seed,
        ..
    } = bench;
    let mut state = clock_state(seed);
    memory::store(bytes, Width::Word, state.register_at(12), 2);
    let from = seed.below(256) as usize;
    for record in &records[from..from + STEPS] {
        let Ok(ran) = run_step(bytes, state, *record, 1) else {
            return;
        };
        tally.sum.mix_answer(ran.last);
        tally.sum.mix_state(ran.state);
        tally.count(state.psi, ran.state.psi);
        state = ran.state;
    }
}

// One memory: its program, its records, its cases, and what they leave.
fn one(bench: &mut Bench, tally: &mut Tally) {
    bench.fill_program(Theme::Clock);
    bench.renew_records();
    for _ in 0..CASES {
        case(bench, tally);
    }
    tally.sum.mix_bytes(&bench.bytes);
}

// A line: some memories, the counts, and the sum.
pub fn line(rt: &impl Print, bench: &mut Bench) {
    let mut tally = Tally {
        sum: Sum::ZERO,
        moved: 0,
        frozen: 0,
    };
    for _ in 0..MEMORIES {
        one(bench, &mut tally);
    }
    lines::number(rt, tally.moved);
    lines::number(rt, tally.frozen);
    lines::last(rt, tally.sum);
}
