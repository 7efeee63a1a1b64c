// Pin records from a seed.
ghost use Rattle.std.specs.Prelude.{◌<◌};

use super::Seed;
use psi::Psi;

impl Seed {
    // The levels with one pin low.
    fn lowered(&mut self, levels: u32) -> u32 {
        levels & !(1 << self.below(22))
    }

    // The levels of the 22 pins: mostly all high, else with one or two low, or any.
    fn levels(&mut self, quiet: u16) -> u32
        requires { 0 < quiet }
    {
        let high = 0x3FFFFF;
        match self.below(quiet) {
            0 => (self.word() as u32) << 6 | self.below(64) as u32,
            1 => self.lowered(high),
            2 => {
                let one = self.lowered(high);
                self.lowered(one)
            }
            _ => high,
        }
    }

    // Cycles of a record.
    fn cycles(&mut self) -> u16 {
        match self.below(4) {
            0 => 0,
            1 => self.below(Psi::TICK_CYCLES),
            2 => Psi::TICK_CYCLES,
            _ => self.below(1024),
        }
    }

    // A pin record; the higher `quiet`, the fewer have a pin low.
    pub fn record(&mut self, quiet: u16) -> u32
        requires { 0 < quiet }
    {
        (self.cycles() as u32) << 22 | self.levels(quiet)
    }
}
