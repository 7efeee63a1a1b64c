// What a request code stands for at a step's boundary, what of it is taken, and the vector and ST of an entry.
#![tactic(auto)]

ghost use Rattle.std.specs.Prelude.{◌≡◌};
ghost use Rattle.machine.specs.State.{registers};
ghost use Rattle.machine.specs.Step as Step;

use machine::{Signal, State};
use psi::Psi;

// LOAD's request code: those below it are reset's, those above it the levels' from 1 on, up to the code of no request.
const LOAD: u16 = 2;

// LOAD's vector; the vectors of reset and of the levels go up from 0, two words each.
const LOAD_VECTOR: u16 = 0x3FFC;

const VECTOR_BYTES: u16 = 4;

// What a request code stands for.
#[tactic(auto, using(std::proofs::lemmas::Bool::Decides::nat_tests), unfolding(machine::specs::Step::signal))]
pub fn signal(code: u16) -> Signal
    ensures { result ≡ Step.signal code }
{
    if code < LOAD {
        Signal::Reset
    } else if code == LOAD {
        Signal::Load
    } else if code < Psi::NO_REQUEST {
        Signal::Level(code - LOAD)
    } else {
        Signal::Nothing
    }
}

// What is taken of what the code stands for: LOAD and levels only where the no-sample flag is not set, and a level where the mask, ST's low
// four bits, is not lower.
#[tactic(auto, using(std::proofs::lemmas::Bool::Decides::nat_tests), unfolding(machine::specs::Step::admitted))]
pub fn admitted(state: State, signal: Signal) -> Signal
    ensures { result ≡ Step.admitted (registers state) signal }
{
    let sampled = !bits::bit(state.flags as u32, State::NO_SAMPLE);
    let mask = state.st % 16;
    match signal {
        Signal::Reset => Signal::Reset,
        Signal::Load if sampled => Signal::Load,
        Signal::Level(k) if sampled && k <= mask => Signal::Level(k),
        _ => Signal::Nothing,
    }
}

// The vector of an entry.
pub fn vector(signal: Signal) -> u16
    ensures { result ≡ Step.vector signal }
{
    match signal {
        Signal::Load => LOAD_VECTOR,
        Signal::Level(k) => VECTOR_BYTES.wrapping_mul(k),
        Signal::Reset | Signal::Nothing => 0,
    }
}

// ST after an entry: reset makes it 0, LOAD the mask 0, a level the mask one less than itself.
pub fn entry_status(signal: Signal, st: u16) -> u16
    ensures { result ≡ Step.entry_status signal st }
{
    match signal {
        Signal::Reset => 0,
        Signal::Load => control_ops::masked(0, st),
        Signal::Level(k) => control_ops::masked(k.saturating_sub(1), st),
        Signal::Nothing => st,
    }
}
