// A state's accesses, each of which is one of a microprogram: to the lent memory, which the PSI sees too, to the machine's registers, and to
// CRU bits.
ghost use Rattle.std.specs.Prelude.{◌≡◌, ℕ, List};
ghost use Rattle.machine.specs.Operands as Operands;
ghost use Rattle.machine.specs.State.{at};
ghost use Rattle.machine.specs.Micro as Micro;
ghost use Rattle.machine.specs.Micro.{to_wp, to_pc, to_st, to_flags};
ghost use Rattle.machine.specs.Perform.{perform, performed};

use super::State;
use memory::{SIZE, Width};
use psi::CruBit;

impl State {
    // What an access of this width at this address reads.
    #[tactic(auto, unfolding(crate::specs::Perform::perform, crate::specs::Micro::load))]
    pub fn load(&mut self, memory: &[u8; SIZE], width: Width, address: u16) -> u16
        ensures { (v : ℕ) → perform v (Micro.load width address) (at self.old memory.now) ≡ performed result (at self.new memory.now) }
    {
        self.address(address);
        memory::load(memory, width, address)
    }

    // Stores a byte or a word at this address, unless that is read-only.
    #[tactic(auto, unfolding(crate::specs::Perform::perform, crate::specs::Perform::received, crate::specs::Perform::dropped, crate::specs::Micro::store))]
    pub fn store(&mut self, memory: &mut [u8; SIZE], width: Width, to: u16, value: u16)
        ensures { (v : ℕ) → perform v (Micro.store width to value) (at self.old memory.old) ≡ performed tt (at self.new memory.new) }
    {
        self.address(to);
        if (memory::place(width, to) as u32) < self.rom {
            memory::store(memory, width, to, value);
        }
    }

    // The word at PC, which rises by 2.
    #[tactic(auto, unfolding(crate::specs::Perform::perform, crate::specs::Micro::fetched))]
    pub fn fetch(&mut self, memory: &[u8; SIZE]) -> u16
        ensures { (v : ℕ) → perform v Micro.fetched (at self.old memory.now) ≡ performed result (at self.new memory.now) }
    {
        let pc = self.pc;
        self.address(pc);
        self.pc = pc.wrapping_add(2);
        memory::load(memory, Width::Word, pc)
    }

    // Where register `n` is.
    pub fn register_at(self, n: u16) -> u16
        ensures { result ≡ Operands.register_at self.wp n }
    {
        self.wp.wrapping_add(n.wrapping_add(n))
    }

    // Register `n`.
    pub fn register(&mut self, memory: &[u8; SIZE], n: u16) -> u16
        ensures { (v : ℕ) → perform v (Operands.register n) (at self.old memory.now) ≡ performed result (at self.new memory.now) }
    {
        self.load(memory, Width::Word, self.register_at(n))
    }

    // Stores into register `n`.
    pub fn set_register(&mut self, memory: &mut [u8; SIZE], n: u16, value: u16)
        ensures { (v : ℕ) → perform v (Operands.set_register n value) (at self.old memory.old) ≡ performed tt (at self.new memory.new) }
    {
        self.store(memory, Width::Word, self.register_at(n), value);
    }

    // WP takes a value, less its lowest bit. (This and the next three are a line each, and differ in field and definition: one for all would take
    // a register's name and match on it.)
    #[tactic(auto, unfolding(crate::specs::Perform::perform, crate::specs::Micro::set))]
    pub fn set_wp(&mut self, value: u16)
        ensures { (v : ℕ) (m : List ℕ) → perform v (Micro.set to_wp value) (at self.old m) ≡ performed tt (at self.new m) }
    {
        self.wp = value / 2 * 2;
    }

    // PC takes a value, less its lowest bit.
    #[tactic(auto, unfolding(crate::specs::Perform::perform, crate::specs::Micro::set))]
    pub fn set_pc(&mut self, value: u16)
        ensures { (v : ℕ) (m : List ℕ) → perform v (Micro.set to_pc value) (at self.old m) ≡ performed tt (at self.new m) }
    {
        self.pc = value / 2 * 2;
    }

    // ST takes a value.
    #[tactic(auto, unfolding(crate::specs::Perform::perform, crate::specs::Micro::set))]
    pub fn set_st(&mut self, value: u16)
        ensures { (v : ℕ) (m : List ℕ) → perform v (Micro.set to_st value) (at self.old m) ≡ performed tt (at self.new m) }
    {
        self.st = value;
    }

    // The flags take a value of two bits.
    #[tactic(auto, unfolding(crate::specs::Perform::perform, crate::specs::Micro::set))]
    pub fn set_flags(&mut self, value: u16)
        ensures { (v : ℕ) (m : List ℕ) → perform v (Micro.set to_flags value) (at self.old m) ≡ performed tt (at self.new m) }
    {
        self.flags = value % 4;
    }

    // Reads a CRU bit.
    #[tactic(auto, unfolding(crate::specs::Perform::perform, crate::specs::Micro::sensed))]
    pub fn sense(&mut self, levels: u32, bit: CruBit) -> bool
        ensures { (m : List ℕ) → perform levels (Micro.sensed bit) (at self.old m) ≡ performed result (at self.new m) }
    {
        self.psi.sense(levels, bit)
    }

    // Writes a CRU bit.
    #[tactic(auto, unfolding(crate::specs::Perform::perform, crate::specs::Micro::driven))]
    pub fn drive(&mut self, bit: CruBit, value: bool)
        ensures { (v : ℕ) (m : List ℕ) → perform v (Micro.driven bit value) (at self.old m) ≡ performed tt (at self.new m) }
    {
        self.psi.drive(bit, value);
    }
}
