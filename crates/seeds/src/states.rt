// Words, addresses and states from a seed; the sum of a state.
ghost use Rattle.std.specs.Prelude.{◌<◌};

use super::{Seed, Sum};
use machine::{State, StepAnswer};
use psi::Psi;

// How many numbers a clock register holds.
pub const CLOCK_NUMBERS: u16 = Psi::CLOCK_LARGEST + 1;

// Numbers that instructions treat in different ways.
const MARKED: [u16; 8] = [0, 1, 2, 0x7FFF, 0x8000, 0xFFFF, 0x00FF, 0x0100];

impl Seed {
    // A word of memory; some are addresses just after `near`.
    pub fn value(&mut self, near: u16) -> u16 {
        match self.below(4) {
            0 => MARKED[self.below(8) as usize],
            1 => near.wrapping_add(self.below(64)),
            2 => self.below(1024),
            _ => self.word(),
        }
    }

    // An even address; some lie just before 65536 and some just after 0.
    pub fn address(&mut self) -> u16 {
        match self.below(8) {
            0 => 0xFFE0 + self.below(16) * 2,
            1 => self.below(64) * 2,
            _ => self.word() & !1,
        }
    }

    // Mostly `usual`, else a number below `limit`.
    fn mostly(&mut self, usual: u16, limit: u16) -> u16
        requires { 0 < limit }
    {
        let other = self.below(limit);
        if self.once_in(3) { usual } else { other }
    }

    // Control and masks: no mask, masks of the requests for levels alone, or any.
    fn masks(&mut self) -> u16 {
        match self.below(4) {
            0 => self.below(2),
            1 => self.word() & 0x7879,
            _ => self.word(),
        }
    }

    // A well-formed PSI.
    pub fn psi(&mut self) -> Psi {
        let mask = self.masks();
        let direction = if self.once_in(4) { self.word() } else { 0 };
        let latch = self.word() & direction;
        let load = self.mostly(0, CLOCK_NUMBERS);
        let soon = self.below(4);
        let decrementer = self.mostly(soon, CLOCK_NUMBERS);
        let other = self.below(CLOCK_NUMBERS);
        let reading = if mask % 2 == 0 { decrementer } else { other };
        Psi {
            mask,
            direction,
            latch,
            load,
            decrementer,
            reading,
            phase: self.below(Psi::TICK_CYCLES),
            pending: self.below(2),
        }
    }

    // Puts a PSI into clock mode, with any number in its read register.
    pub fn set_clock_mode(&mut self, psi: &mut Psi) {
        psi.reading = self.below(CLOCK_NUMBERS);
        psi.mask |= 1;
    }

    // A state with these flags, well formed but for them, with nothing read-only; some have PC in the workspace.
    pub fn state(&mut self, flags: u16) -> State {
        let wp = self.address();
        let near = wp.wrapping_add(self.below(32) * 2);
        let pc = if self.once_in(8) {
            near
        } else {
            self.address()
        };
        State {
            wp,
            pc,
            st: self.word(),
            flags,
            psi: self.psi(),
            rom: State::NO_ROM,
        }
    }
}

impl Sum {
    // Takes the PSI's words.
    pub fn mix_psi(&mut self, psi: Psi) {
        for word in [
            psi.mask,
            psi.direction,
            psi.latch,
            psi.load,
            psi.decrementer,
            psi.reading,
            psi.phase,
            psi.pending,
        ] {
            self.mix(word);
        }
    }

    // Takes the state's words.
    pub fn mix_state(&mut self, state: State) {
        for word in [state.wp, state.pc, state.st, state.flags] {
            self.mix(word);
        }
        self.mix_psi(state.psi);
        self.mix(state.rom);
    }

    // Takes a step's answer, as its two numbers.
    pub fn mix_answer(&mut self, answer: StepAnswer) {
        self.mix(step_answers::number(answer));
        self.mix(step_answers::value(answer));
    }
}
