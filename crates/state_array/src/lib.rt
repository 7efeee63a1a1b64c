// A state as an array of numbers of 32 bits, for the exported calls.
#![tactic(auto)]

ghost use Rattle.std.specs.Prelude.{◌≡◌, is_ok, IfOk};
ghost use Rattle.image_blocks.specs.Image as Image;
ghost use Rattle.state_array.specs.Arrays as Arrays;

use machine::State;
use psi::Psi;
use std::num::TryFromIntError;

// The words of a state, as C has them: WP, PC, ST and flags, then the PSI's, and last the read-only address. (Here and in the two functions below
// field by field: which word is which is to be read.)
pub const STATE_WORDS: usize = 4 + Psi::WORDS + 1;

// The state whose words these are, if each fits its field: those before the read-only address have 16 bits, and that has 32.
#[tactic(auto, using(crate::proofs::Below::each, std::proofs::lemmas::Bool::Decides::nat_tests), unfolding(crate::specs::Arrays::held))]
fn held(words: [u32; STATE_WORDS]) -> Result<State, TryFromIntError>
    ensures fit { is_ok result ≡ Arrays.fits words }
    ensures value { IfOk result (λ s. s ≡ Arrays.held words) }
{
    let [
        wp,
        pc,
        st,
        flags,
        mask,
        direction,
        latch,
        load,
        decrementer,
        reading,
        phase,
        pending,
        rom,
    ] = words;
    Ok(State {
        wp: wp.try_into()?,
        pc: pc.try_into()?,
        st: st.try_into()?,
        flags: flags.try_into()?,
        psi: Psi {
            mask: mask.try_into()?,
            direction: direction.try_into()?,
            latch: latch.try_into()?,
            load: load.try_into()?,
            decrementer: decrementer.try_into()?,
            reading: reading.try_into()?,
            phase: phase.try_into()?,
            pending: pending.try_into()?,
        },
        rom,
    })
}

// A state that is not well formed: WP is odd.
fn unfit() -> State
    ensures { result ≡ Arrays.unfit }
{
    State {
        wp: 1,
        ..State::blank()
    }
}

// The state of an array; one with a number that does not fit is not well formed.
#[tactic(auto, unfolding(crate::specs::Arrays::state_of))]
pub fn state_of(words: [u32; STATE_WORDS]) -> State
    ensures { result ≡ Arrays.state_of words }
{
    held(words).unwrap_or(unfit())
}

// The words of a state. (Functions, and no `From`: neither the state nor arrays are this crate's.)
#[tactic(auto, unfolding(image_blocks::specs::Image::fields))]
pub fn words_of(state: State) -> [u32; STATE_WORDS]
    ensures { result ≡ Image.fields state }
{
    let psi = state.psi;
    [
        u32::from(state.wp),
        u32::from(state.pc),
        u32::from(state.st),
        u32::from(state.flags),
        u32::from(psi.mask),
        u32::from(psi.direction),
        u32::from(psi.latch),
        u32::from(psi.load),
        u32::from(psi.decrementer),
        u32::from(psi.reading),
        u32::from(psi.phase),
        u32::from(psi.pending),
        state.rom,
    ]
}
