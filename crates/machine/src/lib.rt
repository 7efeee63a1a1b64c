// The machine's state, and in specs/ all definitions of what the machine does.
#![tactic(auto)]

ghost use Rattle.std.specs.Prelude.{◌≡◌};
ghost use Rattle.machine.specs.State as Own;
ghost use Rattle.machine.specs.Perform as Perform;
ghost use Rattle.machine.specs.Run as Run;

use psi::Psi;
use refusals::Refusal;

pub mod bus;

// A state goes beside the lent memory, as two parameters: a struct that held the `&mut` of the memory would need, in each contract, a clause
// that it is still the same reference.
// WP, PC and ST; `flags` has weight 1 where the machine is idle, or weight 2 where the next boundary takes no sample; with both the state
// is not well formed, and `State.well_formed` judges any word. Stores at or above `rom` are dropped; it has 32 bits, because another board may have 65536 there.
#[derive(Clone, Copy)]
pub struct State {
    pub wp: u16,
    pub pc: u16,
    pub st: u16,
    pub flags: u16,
    pub psi: Psi,
    pub rom: u32,
}

// What an instruction was, beyond its effect on the machine.
#[derive(Clone, Copy)]
pub enum Deed {
    // Nothing that is counted or noted.
    Ordinary,
    // An unassigned word.
    Unassigned,
    // A context switch by BLWP or XOP.
    Switched,
    // A return by RTWP.
    Returned,
}

// What the request code stands for at a step's boundary. Not an `Option` of three: `Step.signal`, `Step.admitted` and the theorems on
// interrupts have four cases, and `sampling::vector` and `entry_status` answer for `Nothing` too.
#[derive(Clone, Copy)]
pub enum Signal {
    Reset,
    Load,
    // An interrupt of this level.
    Level(u16),
    Nothing,
}

// What a step answers; `Nothing` is for a run that did none. Not an `Option` of six: `Answer.number` has 0 for `Nothing` among its cases.
#[derive(Clone, Copy)]
pub enum StepAnswer {
    // No step was done.
    Nothing,
    Reset,
    Load,
    // An interrupt of this level.
    Level(u16),
    Instruction,
    Idle,
    // An unassigned word, which X may have led to; the PC before the step.
    Unassigned(u16),
}

impl State {
    // The bits of `flags`, and the largest flags: no-sample alone.
    pub const IDLE: u32 = 0;

    pub const NO_SAMPLE: u32 = 1;

    pub const FLAGS_LARGEST: u16 = 1 << State::NO_SAMPLE;

    // The read-only address of a machine that has no read-only part (a number, as images and `State.no_rom` have it).
    pub const NO_ROM: u32 = memory::SIZE as u32;

    // All fields 0, and nothing read-only.
    pub fn blank() -> State
        ensures { result ≡ Own.blank }
    {
        State {
            wp: 0,
            pc: 0,
            st: 0,
            flags: 0,
            psi: Psi::blank(),
            rom: State::NO_ROM,
        }
    }

    // An access to memory at this byte address, which the PSI sees.
    pub fn address(&mut self, address: u16)
        ensures { self.new ≡ Perform.addressed address self.old }
    {
        self.psi.address(address);
    }

    // WP and PC even, flags at most 2, the read-only address even and at most the memory's size, and the PSI's fields in order.
    #[tactic(auto, unfolding(crate::specs::State::well_formed))]
    pub fn well_formed(self) -> bool
        ensures { result ≡ Own.well_formed self }
    {
        self.wp % 2 == 0
            && self.pc % 2 == 0
            && self.flags <= State::FLAGS_LARGEST
            && self.rom % 2 == 0
            && self.rom <= State::NO_ROM
            && self.psi.well_formed()
    }
}

// What an accepted run did: the state after it, the steps done, how many of them met an unassigned word, and what the last of them answered.
#[derive(Clone, Copy)]
pub struct Ran {
    pub state: State,
    pub steps: usize,
    pub unassigned: usize,
    pub last: StepAnswer,
}

impl Ran {
    // No step.
    pub fn at_once(state: State) -> Ran
        ensures { result ≡ Run.no_step state }
    {
        Ran {
            state,
            steps: 0,
            unassigned: 0,
            last: StepAnswer::Nothing,
        }
    }
}

// Why a call is refused, and the state that it returns then.
#[derive(Clone, Copy)]
pub struct Refused {
    pub refusal: Refusal,
    pub state: State,
}
