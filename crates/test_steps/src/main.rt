// Every word executed seven times, from different states and memories, two of them through X, and the last two with a read-only part; sums
// of what is told of every word and of what came of it.
#![tactic(auto)]

ghost use Rattle.std.specs.Prelude.{◌≤◌};

use machine::State;
use memory::Width;
use seeds::{Seed, Sum, lines};

// Words that share a line of the output, and lines of a pass over all words.
const WORDS: u16 = 2048;

const LINES: u16 = 32;

// How a pass executes its words: through X or not, and with a read-only part or not.
#[derive(Clone, Copy)]
struct Pass {
    through: bool,
    read_only: bool,
}

const PLAIN: Pass = Pass {
    through: false,
    read_only: false,
};

const PASSES: [Pass; 7] = [
    PLAIN,
    PLAIN,
    PLAIN,
    PLAIN,
    Pass {
        through: true,
        read_only: false,
    },
    Pass {
        through: false,
        read_only: true,
    },
    Pass {
        through: true,
        read_only: true,
    },
];

// The sum so far, and how many unassigned words there were.
#[derive(Drop)]
struct Tally {
    sum: Sum,
    unassigned: u64,
}

// The memory, and the generator of what is put into it.
#[derive(Drop)]
struct Bench {
    bytes: [u8; memory::SIZE],
    seed: Seed,
}

// R12: around the PSI's bits, before the wrap of the bit number, or any.
fn base(seed: &mut Seed) -> u16 {
    match seed.below(4) {
        0 => seed.word(),
        1 => 0x0FC0 + seed.below(64),
        _ => seed.below(72),
    }
}

impl Bench {
    // Puts a word at an address.
    fn put(&mut self, address: u16, value: u16) {
        memory::store(&mut self.bytes, Width::Word, address, value);
    }

    // Puts a word into a register.
    fn put_register(&mut self, state: State, n: u16, value: u16) {
        self.put(state.register_at(n), value);
    }

    // Fills the workspace.
    fn fill_registers(&mut self, state: State) {
        for n in 0..16 {
            let value = if n == 12 {
                base(&mut self.seed)
            } else {
                self.seed.value(state.wp)
            };
            self.put_register(state, n, value);
        }
    }

    // Makes a word be reached through one to nine X, each in a register: the first of them.
    fn chained(&mut self, state: State, word: u16) -> u16 {
        let first = self.seed.below(16);
        let last = first + self.seed.below(9);
        for n in first..last {
            self.put_register(state, n % 16, 0x0480 + (n + 1) % 16);
        }
        self.put_register(state, last % 16, word);
        0x0480 + first
    }

    // Fills the workspace and what may be further words, and gives the word to be executed: `word` itself, or X that leads to it.
    fn prepared(&mut self, state: State, word: u16, pass: Pass) -> u16 {
        self.fill_registers(state);
        let second = self.seed.value(state.wp);
        self.put(state.pc, second);
        let third = self.seed.value(state.pc);
        self.put(state.pc.wrapping_add(2), third);
        if pass.through {
            self.chained(state, word)
        } else {
            word
        }
    }

    // Adds the registers to the sum.
    fn mix_registers(&self, sum: &mut Sum, state: State) {
        for n in 0..16 {
            sum.mix(memory::load(&self.bytes, Width::Word, state.register_at(n)));
        }
    }

    // Executes a word from a state.
    fn execute(&mut self, mut state: State, word: u16, tally: &mut Tally) {
        let levels = psi::split(self.seed.record(4)).levels;
        let pc = state.pc;
        let deed = cpu::perform(&mut state, &mut self.bytes, levels, word, cpu::ALLOWANCE);
        let answer = step_answers::told_word(pc, deed);
        tally.sum.mix_answer(answer);
        tally.sum.mix_state(state);
        self.mix_registers(&mut tally.sum, state);
        let missed = step_answers::missed(answer) as u64;
        tally.unassigned = tally.unassigned.wrapping_add(missed);
    }

    // A word and a new state, as the pass has them. All words are put in place before any part of the memory is read-only.
    fn one(&mut self, word: u16, pass: Pass, tally: &mut Tally) {
        let mut state = self.seed.state(0);
        let first = self.prepared(state, word, pass);
        if pass.read_only {
            state.rom = self.seed.suited_rom(&self.bytes, state);
        }
        self.execute(state, first, tally);
    }

    // A line: new memory, its words, and the sums. (No word is above 65535.)
    fn line(&mut self, rt: &impl Print, first: u16, pass: Pass)
        requires { first ≤ 63488 }
    {
        self.seed.fill(&mut self.bytes);
        let mut tally = Tally {
            sum: Sum::ZERO,
            unassigned: 0,
        };
        for i in 0..WORDS {
            self.one(first + i, pass, &mut tally);
        }
        lines::number(rt, first);
        lines::number(rt, tally.unassigned);
        lines::sum(rt, tally.sum);
        lines::last(rt, Sum::of_bytes(&self.bytes));
    }
}

// All passes.
fn all(rt: &impl Print) {
    let mut bench = Bench {
        bytes: [0; memory::SIZE],
        seed: Seed::new(9980),
    };
    for pass in PASSES {
        for line in 0..LINES {
            bench.line(rt, line * WORDS, pass);
        }
    }
}

fn main(rt: HostRuntime) {
    all(&rt);
}
