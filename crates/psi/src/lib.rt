// The TMS 9901: its clock, its CRU bits and its request code.
#![tactic(auto)]

ghost use Rattle.std.specs.Prelude.{◌≡◌, ◌<◌};
ghost use Rattle.psi.specs.Psi as Own;
ghost use Rattle.psi.specs.Pins as Pins;
ghost use Rattle.psi.specs.Cru as Cru;
ghost use Rattle.psi.specs.Formed as Formed;

mod clock;
mod cru;
mod pins;

// The state. `mask` holds the control bit at weight 1 and request n's mask at weight 2^n; `direction` (1: output) and
// `latch` have port n at weight 2^n; `reading` is the read register. All are words as an image has them, `pending` too: `Formed.well_formed`
// judges any words.
#[derive(Clone, Copy)]
pub struct Psi {
    pub mask: u16,
    pub direction: u16,
    pub latch: u16,
    pub load: u16,
    pub decrementer: u16,
    pub reading: u16,
    pub phase: u16,
    pub pending: u16,
}

impl Psi {
    // CRU bits of the PSI.
    pub const BITS: u16 = 32;
    // Bits of a clock register, and the largest number that they hold.
    pub const CLOCK_BITS: u16 = 14;

    pub const CLOCK_LARGEST: u16 = (1 << Psi::CLOCK_BITS) - 1;
    // Cycles of one tick.
    pub const TICK_CYCLES: u16 = 64;
    // The bits of a memory address, and of a CRU bit's number, that the select input S0 is wired to.
    pub const MEMORY_SELECT: u32 = 5;

    pub const CRU_SELECT: u32 = 4;
    // The code that stands for no request.
    pub const NO_REQUEST: u16 = 7;
    // The words that hold a PSI in an image, one a field.
    pub const WORDS: usize = 8;

    // All fields 0.
    pub fn blank() -> Self
        ensures { result ≡ Own.blank }
    {
        Self {
            mask: 0,
            direction: 0,
            latch: 0,
            load: 0,
            decrementer: 0,
            reading: 0,
            phase: 0,
            pending: 0,
        }
    }

    // The control bit: 1 is clock mode.
    pub(crate) fn control(self) -> bool
        ensures { result ≡ Own.control self }
    {
        bits::bit(self.mask as u32, 0)
    }

    // The read register takes the decrementer's value.
    pub(crate) fn refresh(&mut self)
        ensures { self.new ≡ Own.refreshed self.old }
    {
        self.reading = self.decrementer;
    }

    // Whether the fields are the PSI's part of a well-formed state.
    pub fn well_formed(self) -> bool
        ensures { result ≡ Formed.well_formed self }
    {
        let numbers = (self.load <= Psi::CLOCK_LARGEST)
            & (self.decrementer <= Psi::CLOCK_LARGEST)
            & (self.reading <= Psi::CLOCK_LARGEST);
        let flags = (self.phase < Psi::TICK_CYCLES) & (self.pending <= 1);
        let latches = bits::without(self.latch, self.direction) == 0;
        let read = self.control() | (self.reading == self.decrementer);
        numbers & flags & latches & read
    }
}

// A number as R12 holds it.
#[derive(Clone, Copy)]
pub struct CruBase(pub u16);

// The number of a CRU bit.
#[derive(Clone, Copy)]
pub struct CruBit(pub u16);

// The weight of a record's lowest bit of cycles; below it are 22 levels.
const CYCLE: u32 = 1 << 22;

// One pin record: 22 levels and the cycles before the step.
#[derive(Clone, Copy)]
pub struct Record {
    pub levels: u32,
    pub cycles: u32,
}

// The parts of a record.
#[tactic(auto, unfolding(crate::specs::Pins::parted))]
pub fn split(word: u32) -> Record
    ensures { result ≡ Pins.parted word }
{
    Record {
        levels: word % CYCLE,
        cycles: word / CYCLE,
    }
}

impl CruBase {
    // The bit that R12 points at: divided by two, modulo 2048.
    #[tactic(auto, unfolding(crate::specs::Cru::first_bit))]
    pub fn bit(self) -> CruBit
        ensures { result ≡ Cru.first_bit self }
    {
        CruBit(self.0 / 2 % CruBit::NUMBERS)
    }
}

impl CruBit {
    // The bit number wraps here.
    pub const NUMBERS: u16 = 2048;

    // The bit `d` bits further; bit numbers wrap.
    #[tactic(auto, unfolding(crate::specs::Cru::beyond))]
    pub fn plus(self, d: u16) -> CruBit
        ensures { result ≡ Cru.beyond self d }
    {
        CruBit(((self.0 as u32 + d as u32) % CruBit::NUMBERS as u32) as u16)
    }

    // The bit that lies a signed 8-bit displacement away.
    pub fn displaced(self, d: u16) -> CruBit
        ensures { result ≡ Cru.displaced self d }
    {
        let ahead = self.plus(d);
        if d < 0x80 {
            ahead
        } else {
            ahead.plus(CruBit::NUMBERS - 0x100)
        }
    }
}
