// States that are not well formed.
use super::Seed;
use super::states::CLOCK_NUMBERS;
use machine::State;
use psi::Psi;

// How many ways there are to spoil a state: in the first ones the read-only address stays, up to the second number it still fits an image's
// word, and all. The ways stay numbers: an enum would be made of a drawn number at each call, and be no
// plainer, since the numbers of damage to images begin with them.
pub const ROM_STAYS: u16 = 10;

pub const WORD_WAYS: u16 = 12;

pub const WAYS: u16 = 13;

impl Seed {
    // A PSI that is not well formed, in one of seven ways.
    fn spoiled_psi(&mut self, mut psi: Psi, way: u16) -> Psi {
        let large = CLOCK_NUMBERS + self.below(0xFFFF - Psi::CLOCK_LARGEST);
        match way {
            0 => psi.load = large,
            1 => psi.decrementer = large,
            2 => psi.reading = large,
            3 => psi.phase = Psi::TICK_CYCLES + self.below(0xFFFF - (Psi::TICK_CYCLES - 1)),
            4 => psi.pending = 2 + self.below(65534),
            5 => {
                let port = 1 << self.below(16);
                psi.direction &= !port;
                psi.latch |= port;
            }
            _ => {
                psi.mask &= !1;
                psi.reading = (psi.decrementer % CLOCK_NUMBERS + 1) % CLOCK_NUMBERS;
            }
        }
        psi
    }

    // A read-only address that no state has: an odd one, one that is too large, or one that is too large with a low half that would do.
    fn spoiled_rom(&mut self, way: u16) -> u32 {
        match way {
            10 => (2 * self.below(8192) + 1) as u32,
            11 => (16385 + self.below(49151)) as u32,
            _ => {
                let high = 1 + self.below(65535) as u32;
                high << 16 | (2 * self.below(8193)) as u32
            }
        }
    }

    // A state that is not well formed, in one of the ways.
    pub fn spoiled(&mut self, mut state: State, way: u16) -> State {
        match way {
            0 => state.wp |= 1,
            1 => state.pc |= 1,
            2 => state.flags = 4 + self.below(65532),
            3..ROM_STAYS => state.psi = self.spoiled_psi(state.psi, way - 3),
            _ => state.rom = self.spoiled_rom(way),
        }
        state
    }
}
