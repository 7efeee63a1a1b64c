// The clock: any number of cycles at once, by arithmetic.
ghost use Rattle.std.specs.Prelude.{◌≡◌, ◌<◌};
ghost use Rattle.psi.specs.Clock as Clock;
ghost use Rattle.psi.specs.AtOnce as AtOnce;

use crate::Psi;

impl Psi {
    // What the decrementer goes to from 0.
    #[tactic(auto, using(std::proofs::lemmas::Bool::Decides::nat_tests), unfolding(crate::specs::AtOnce::largest))]
    fn largest(self) -> u16
        ensures { result ≡ AtOnce.largest self }
    {
        if self.load == 0 {
            Psi::CLOCK_LARGEST
        } else {
            self.load
        }
    }

    // The ticks of a round, from 0 to 0.
    fn period(self) -> u32
        ensures { result ≡ AtOnce.period self }
    {
        self.largest() as u32 + 1
    }

    // The decrementer after `n` ticks: down to 0, then round and round.
    fn count_after(self, n: u32) -> u16
        ensures { result ≡ AtOnce.count_after n self }
    {
        let count = self.decrementer as u32;
        if n <= count {
            return (count - n) as u16;
        }
        let largest = self.largest() as u32;
        (largest - (n - count - 1) % self.period()) as u16
    }

    // The first tick that brings the decrementer to 0.
    #[tactic(auto, using(std::proofs::lemmas::Bool::Decides::nat_tests), unfolding(crate::specs::AtOnce::first_zero))]
    fn first_zero(self) -> u32
        ensures { result ≡ AtOnce.first_zero self }
    {
        if self.decrementer == 0 {
            self.period()
        } else {
            self.decrementer as u32
        }
    }

    // The pending flag after `n` ticks.
    #[tactic(auto, using(std::proofs::lemmas::Bool::Decides::nat_tests), unfolding(crate::specs::AtOnce::pending_after))]
    fn pending_after(self, n: u32) -> u16
        ensures { result ≡ AtOnce.pending_after n self }
    {
        if self.load != 0 && self.first_zero() <= n {
            1
        } else {
            self.pending
        }
    }

    // `n` ticks at once, one or more. In interrupt mode the read register shows the decrementer.
    #[tactic(auto, using(crate::proofs::AtOnce::ticks_at_once), unfolding(crate::specs::Clock::followed))]
    fn tick(&mut self, n: u32)
        requires { 0 < n }
        ensures { self.new ≡ Clock.ticks n self.old }
    {
        let before = *self;
        self.decrementer = before.count_after(n);
        self.pending = before.pending_after(n);
        if !self.control() {
            self.refresh();
        }
    }

    // `cycles` cycles later: a tick each time the phase comes round.
    #[tactic(auto, using(std::proofs::lemmas::Bool::Decides::nat_tests), unfolding(crate::specs::Clock::advanced, crate::specs::Clock::ticks))]
    pub fn advance(&mut self, cycles: u32)
        ensures { self.new ≡ Clock.advanced cycles self.old }
    {
        // The phase plus the cycles may pass 32 bits.
        let elapsed = self.phase as u64 + cycles as u64;
        let n = (elapsed / Psi::TICK_CYCLES as u64) as u32;
        self.phase = (elapsed % Psi::TICK_CYCLES as u64) as u16;
        if n != 0 {
            self.tick(n);
        }
    }
}
