// Memories that hold programs.
use crate::bench::Bench;
use memory::Width;
use seeds::Seed;

// LI R12 and LIMI, whose next word is chosen to suit.
const LOAD_BASE: u16 = 0x020C;

const LOAD_MASK: u16 = 0x0300;

// How many words the memory has.
const WORDS: u16 = memory::SIZE as u16 / 2;

// What a program favours.
#[derive(Clone, Copy)]
pub enum Theme {
    Anything,
    // X.
    Execution,
    // LDCR and STCR.
    Transfers,
    // SBO, SBZ and TB.
    SingleBits,
    // STCR of 14 bits, which reads the clock.
    Clock,
    // Entries, and stores into memory.
    Stores,
}

// An instruction that changes the workspace, the mask or the flow.
fn control(seed: &mut Seed) -> u16 {
    match seed.below(8) {
        0 | 1 => LOAD_MASK,
        2 => 0x02E0,
        3 => 0x0340 + seed.below(32),
        4 => 0x0360 + seed.below(160),
        5 => 0x0400 + seed.below(64),
        _ => 0x0380,
    }
}

// A jump, forwards or back by at most 16 words.
fn jump(seed: &mut Seed) -> u16 {
    let condition = seed.below(13) * 256;
    let places = seed.below(16);
    let first = if seed.once_in(2) { 0x1000 } else { 0x10F0 };
    first + condition + places
}

// SBO, SBZ or TB.
fn single_bit(seed: &mut Seed) -> u16 {
    0x1D00 + seed.below(3) * 256 + seed.below(40)
}

// The first word of an instruction.
fn instruction(seed: &mut Seed) -> u16 {
    match seed.below(16) {
        0 => 0x0200 + seed.below(512),
        1 => 0x0400 + seed.below(896),
        2 => 0x0480 + seed.below(64),
        3 => 0x0800 + seed.below(1024),
        4 => jump(seed),
        5 => single_bit(seed),
        6 => 0x2000 + seed.below(3072),
        7 => 0x2C00 + seed.below(1024),
        8 => 0x3000 + seed.below(2048),
        9 => 0x3800 + seed.below(2048),
        10 => LOAD_BASE,
        11 => control(seed),
        12 => seed.word(),
        _ => 0x4000 + seed.below(49152),
    }
}

// An operation on two operands, of which the second is in memory: *Rn, an address, or *Rn+.
fn memory_store(seed: &mut Seed) -> u16 {
    0x4400 + seed.below(12) * 4096 + seed.below(3) * 1024 + seed.below(1024)
}

// BLWP, XOP, RTWP, or an operation on two operands.
fn entry_or_store(seed: &mut Seed) -> u16 {
    match seed.below(8) {
        0 => 0x0400 + seed.below(64),
        1 | 2 => 0x2C00 + seed.below(1024),
        3 => 0x0380,
        _ => memory_store(seed),
    }
}

impl Theme {
    // One that favours anything, X or the CRU.
    pub fn any(seed: &mut Seed) -> Self {
        match seed.below(4) {
            0 => Theme::Anything,
            1 => Theme::Execution,
            2 => Theme::Transfers,
            _ => Theme::SingleBits,
        }
    }

    // A word that the program favours.
    fn favoured(self, seed: &mut Seed) -> u16 {
        match self {
            Theme::Anything => seed.address(),
            Theme::Execution => 0x0480 + seed.below(64),
            Theme::Transfers => 0x3000 + seed.below(2048),
            Theme::SingleBits => single_bit(seed),
            Theme::Clock => 0x3780 + seed.below(64),
            Theme::Stores => entry_or_store(seed),
        }
    }

    // A word that follows another.
    fn next(self, seed: &mut Seed, before: u16) -> u16 {
        match before {
            LOAD_BASE => seed.below(72),
            LOAD_MASK => seed.below(16),
            _ if seed.once_in(4) => self.favoured(seed),
            _ => instruction(seed),
        }
    }
}

impl Bench {
    // Fills the memory with a program of a theme.
    pub fn fill_program(&mut self, theme: Theme) {
        let mut word = 0;
        for i in 0..WORDS {
            word = theme.next(&mut self.seed, word);
            memory::store(&mut self.bytes, Width::Word, 2 * i, word);
        }
    }
}
