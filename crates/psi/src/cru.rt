// The PSI's CRU bits, read and written.
ghost use Rattle.std.specs.Prelude.{◌≡◌, ◌<◌};
ghost use Rattle.psi.specs.Psi as Own;
ghost use Rattle.psi.specs.Cru as Cru;

use crate::{CruBit, Psi};

impl Psi {
    // What bit n, from 1 to 15, reads in clock mode.
    #[tactic(auto, using(std::proofs::lemmas::Bool::Decides::nat_tests), unfolding(crate::specs::Cru::timed_value))]
    fn timed_value(self, levels: u32, n: u32) -> bool
        ensures { result ≡ Cru.timed_value self levels n }
    {
        if n == 15 {
            self.request(levels) != 0
        } else {
            bits::bit(self.reading as u32, n.saturating_sub(1))
        }
    }

    // What bit n reads.
    #[tactic(auto, using(std::proofs::lemmas::Bool::Decides::nat_tests), unfolding(crate::specs::Cru::sensed_value))]
    fn sensed_value(self, levels: u32, n: u16) -> bool
        ensures { result ≡ Cru.sensed_value self levels n }
    {
        if n == 0 {
            return self.control();
        }
        if n < 16 {
            if self.control() {
                self.timed_value(levels, n as u32)
            } else {
                self.request_level(levels, n as u32)
            }
        } else if n < Psi::BITS {
            self.port_level(levels, (n - 16) as u32)
        } else {
            true
        }
    }

    // With S0 at 1 clock mode is left for the moment: the read register is refreshed.
    #[tactic(auto, unfolding(crate::specs::Cru::selected))]
    fn select(&mut self, s0: bool)
        ensures { self.new ≡ Cru.selected s0 self.old }
    {
        if s0 {
            self.refresh();
        }
    }

    // An access to memory at this byte address.
    #[tactic(auto, unfolding(crate::specs::Cru::addressed))]
    pub fn address(&mut self, address: u16)
        ensures { self.new ≡ Cru.addressed address self.old }
    {
        self.select(bits::bit(address as u32, Psi::MEMORY_SELECT));
    }

    // Reads a CRU bit. Below 16 S0 is 0: with this test first a transfer of such bits is quicker.
    #[tactic(auto, using(crate::proofs::Select::s0_low), unfolding(crate::specs::Cru::sensed, crate::specs::Cru::selected))]
    pub fn sense(&mut self, levels: u32, bit: CruBit) -> bool
        ensures { record { value = result; psi = self.new } ≡ Cru.sensed self.old levels bit }
    {
        let n = bit.0;
        let value = self.sensed_value(levels, n);
        if n >= 16 {
            let s0 = bits::bit(n as u32, Psi::CRU_SELECT);
            self.select(s0);
        }
        value
    }

    // Bit 0 written.
    #[tactic(auto, unfolding(crate::specs::Cru::controlled))]
    fn write_control(&mut self, value: bool)
        ensures { self.new ≡ Cru.controlled self.old value }
    {
        self.mask = bits::put(self.mask, 0, value);
        if !value {
            self.refresh();
        }
    }

    // Bit n, from 1 to 15, written in interrupt mode.
    #[tactic(auto, using(std::proofs::lemmas::Bool::Decides::nat_tests), unfolding(crate::specs::Cru::masked))]
    fn write_mask(&mut self, n: u32, value: bool)
        requires { n < 16 }
        ensures { self.new ≡ Cru.masked self.old n value }
    {
        self.mask = bits::put(self.mask, n, value);
        if n == 3 {
            self.pending = 0;
        }
    }

    // Bit n, from 1 to 15, written in clock mode.
    #[tactic(auto, using(std::proofs::lemmas::Bool::Decides::nat_tests), unfolding(crate::specs::Cru::timed))]
    fn write_timer(&mut self, n: u32, value: bool)
        requires { (0 < n) × (n < 16) }
        ensures { self.new ≡ Cru.timed self.old n value }
    {
        if n == 15 {
            if !value {
                self.direction = 0;
                self.latch = 0;
            }
            return;
        }
        self.load = bits::put(self.load, n - 1, value);
        self.decrementer = self.load;
        self.phase = 0;
    }

    // The bit of port `k` written, which refreshes the read register.
    #[tactic(auto, unfolding(crate::specs::Cru::latched))]
    fn write_port(&mut self, k: u32, value: bool)
        requires { k < 16 }
        ensures { self.new ≡ Own.refreshed (Cru.latched self.old k value) }
    {
        self.direction = bits::put(self.direction, k, true);
        self.latch = bits::put(self.latch, k, value);
        self.refresh();
    }

    // Writes a CRU bit. Below 16 S0 is 0, at the ports it is 1.
    #[tactic(auto, using(std::proofs::lemmas::Bool::Decides::nat_tests, crate::proofs::Select::s0_low, crate::proofs::Select::s0_high), unfolding(crate::specs::Cru::driven, crate::specs::Cru::written, crate::specs::Cru::selected))]
    pub fn drive(&mut self, bit: CruBit, value: bool)
        ensures { self.new ≡ Cru.driven self.old bit value }
    {
        let n = bit.0;
        if n == 0 {
            self.write_control(value);
        } else if n < 16 {
            if self.control() {
                self.write_timer(n as u32, value);
            } else {
                self.write_mask(n as u32, value);
            }
        } else if n < Psi::BITS {
            self.write_port((n - 16) as u32, value);
        } else {
            self.select(bits::bit(n as u32, Psi::CRU_SELECT));
        }
    }
}
