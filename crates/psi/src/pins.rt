// Levels at the pins, requests, and the code that the CPU sees.
ghost use Rattle.std.specs.Prelude.{◌≡◌, ◌<◌};
ghost use Rattle.psi.specs.Pins as Pins;
ghost use Rattle.psi.specs.Quiet as Quiet;

use crate::Psi;

// The weight of port `p`'s pin in a record.
#[tactic(auto, using(std::proofs::lemmas::Bool::Decides::nat_tests), unfolding(crate::specs::Pins::port_weight))]
fn port_weight(p: u32) -> u32
    requires { p < 16 }
    ensures { result ≡ Pins.port_weight p }
{
    if p < 7 { 15 + p } else { 21 - p }
}

impl Psi {
    // The level of port `p`'s pin.
    #[tactic(auto, unfolding(crate::specs::Pins::port_level))]
    pub(crate) fn port_level(self, levels: u32, p: u32) -> bool
        requires { p < 16 }
        ensures { result ≡ Pins.port_level self levels p }
    {
        if bits::bit(self.direction as u32, p) {
            bits::bit(self.latch as u32, p)
        } else {
            bits::bit(levels, port_weight(p))
        }
    }

    // The level of pin INTn, for n from 1 to 15; for any other number what the definition gives.
    #[tactic(auto, using(std::proofs::lemmas::Bool::Decides::nat_tests), unfolding(crate::specs::Pins::request_level))]
    pub(crate) fn request_level(self, levels: u32, n: u32) -> bool
        ensures { result ≡ Pins.request_level self levels n }
    {
        if n < 7 {
            bits::bit(levels, n.saturating_sub(1))
        } else {
            self.port_level(levels, 22u32.saturating_sub(n))
        }
    }

    // Whether request n is active: its pin is low, or for request 3 with a load the clock's flag is set.
    #[tactic(auto, using(std::proofs::lemmas::Bool::Decides::nat_tests), unfolding(crate::specs::Pins::active))]
    fn active(self, levels: u32, n: u32) -> bool
        ensures { result ≡ Pins.active self levels n }
    {
        if n == 3 && self.load != 0 {
            self.pending == 1
        } else {
            !self.request_level(levels, n)
        }
    }

    // Whether request n is enabled and active.
    #[tactic(auto, unfolding(crate::specs::Pins::requested))]
    fn requested(self, levels: u32, n: u32) -> bool
        ensures { result ≡ Pins.requested self levels n }
    {
        bits::bit(self.mask as u32, n) && self.active(levels, n)
    }

    // The lowest request that is enabled and active, or 0: a number, as `Pins.request` and the code that follows from it are. The search ends where
    // no mask bit is left.
    pub fn request(self, levels: u32) -> u16
        ensures { result ≡ Pins.request self levels }
    {
        let mask = self.mask as u32;
        for n in 1..16u32 {
            if mask >> n == 0 {
                break;
            }
            if self.requested(levels, n) {
                return n as u16;
            }
        }
        0
    }

    // The pins of requests that are surely high, each at its weight in the record: INT7 to INT15 may be driven where one of the
    // ports P7 to P15 is an output.
    #[tactic(auto, using(std::proofs::lemmas::Bool::Decides::nat_tests), unfolding(crate::specs::Quiet::high))]
    fn high(self, levels: u32) -> u32
        ensures { result ≡ Quiet.high self levels }
    {
        if self.direction < 0x80 {
            levels
        } else {
            levels % 0x40
        }
    }

    // Whether all enabled requests are surely inactive: one test for the usual step, in place of the search.
    fn quiet(self, levels: u32) -> bool
        ensures { result ≡ Quiet.quiet self levels }
    {
        let enabled = (self.mask / 2) as u32;
        let high = self.high(levels);
        let inactive = high - (high & (self.pending as u32 * 4));
        (enabled & inactive) == enabled
    }

    // What the CPU sees of it on its three lines.
    #[tactic(auto, using(std::proofs::lemmas::Bool::Decides::nat_tests, crate::proofs::Quiet::quiet_meaning), unfolding(crate::specs::Pins::code))]
    pub fn code(self, levels: u32) -> u16
        ensures { result ≡ Pins.code self levels }
    {
        if self.quiet(levels) {
            return Psi::NO_REQUEST;
        }
        let n = self.request(levels);
        if n == 0 { Psi::NO_REQUEST } else { n % 8 }
    }
}
