// First read-only addresses from a seed.
ghost use Rattle.std.specs.Prelude.{◌<◌};

use super::Seed;
use machine::State;
use memory::Width;

// How many bytes the memory has.
const SIZE: u16 = memory::SIZE as u16;

// Addresses at the memory's ends; the last means none.
const EDGES: [u16; 4] = [0, 2, SIZE - 2, SIZE];

impl Seed {
    // Any even number up to the memory's size.
    fn any_rom(&mut self) -> u16 {
        self.below(SIZE / 2 + 1) * 2
    }

    // One at an end, or any.
    pub fn rom(&mut self) -> u32 {
        let address = match self.below(6) {
            n @ 0..4 => EDGES[n as usize],
            _ => self.any_rom(),
        };
        address as u32
    }

    // A vector's address: of a reset or a level, of LOAD, or of an XOP.
    fn vector(&mut self) -> u16 {
        match self.below(8) {
            n @ 0..5 => 4 * n,
            5 => 0x3FFC,
            _ => 0x40 + 4 * self.below(16),
        }
    }

    // One of the words from an address on, so many of them.
    fn word_near(&mut self, address: u16, words: u16) -> u16
        requires words_nonzero { 0 < words }
        requires words_bound { words < 32 }
    {
        address.wrapping_add(2 * self.below(words)) % SIZE
    }

    // R13 to R15 of the workspace that a vector names, or the word after them.
    fn save_word(&mut self, bytes: &[u8; memory::SIZE]) -> u16 {
        let wp = memory::load(bytes, Width::Word, self.vector()) & !1;
        self.word_near(wp.wrapping_add(26), 4)
    }

    // One that suits a state and its memory: at an end, among words that the machine is likely to store into, or any.
    pub fn suited_rom(&mut self, bytes: &[u8; memory::SIZE], state: State) -> u32 {
        let address = match self.below(8) {
            n @ 0..4 => EDGES[n as usize],
            4 => self.word_near(state.wp, 16),
            5 => self.save_word(bytes),
            6 => self.word_near(state.pc, 16),
            _ => self.any_rom(),
        };
        address as u32
    }
}
