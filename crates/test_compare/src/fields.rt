// States that differ in fields of block 0.
use machine::State;
use psi::Psi;
use seeds::Seed;
use seeds::states::CLOCK_NUMBERS;

// The first field of a state in block 0, and the number after the last one, which is the read-only address.
pub const FIRST: u32 = 2;

pub const END: u32 = image_blocks::FIELDS as u32;

// The read-only addresses and one more that is even.
const ROMS: u32 = State::NO_ROM + 2;

// A state that stays well formed when it is changed in any fields: in clock mode, with port 1 an output and latch 0 clear. If asked for,
// with nothing read-only.
pub fn base(seed: &mut Seed, no_rom: bool) -> State {
    let mut state = image_seeds::read_only_state(seed, 3);
    if no_rom {
        state.rom = State::NO_ROM;
    }
    state.psi.mask |= 1;
    state.psi.direction |= 2;
    state.psi.latch &= !1;
    state
}

// The next number of a clock register.
fn next(number: u16) -> u16 {
    number.wrapping_add(1) % CLOCK_NUMBERS
}

// A PSI changed in field `k`.
fn changed_psi(mut psi: Psi, k: u32) -> Psi {
    match k {
        6 => psi.mask = psi.mask.wrapping_add(2),
        7 => psi.direction ^= 1,
        8 => psi.latch ^= 2,
        9 => psi.load = next(psi.load),
        10 => psi.decrementer = next(psi.decrementer),
        11 => psi.reading = next(psi.reading),
        12 => psi.phase = psi.phase.wrapping_add(1) % Psi::TICK_CYCLES,
        _ => psi.pending = 1 - psi.pending % 2,
    }
    psi
}

// A state changed in field `k`.
fn changed(mut state: State, k: u32) -> State {
    match k {
        2 => state.wp = state.wp.wrapping_add(2),
        3 => state.pc = state.pc.wrapping_add(2),
        4 => state.st = state.st.wrapping_add(1),
        5 => state.flags = state.flags.wrapping_add(1) % 3,
        14 => state.rom = state.rom.wrapping_add(2) % ROMS,
        _ => state.psi = changed_psi(state.psi, k),
    }
    state
}

// A state changed in all fields of a mask, which has field `k` with weight 2^k.
pub fn changed_in(mut state: State, mask: u16) -> State {
    for k in FIRST..END {
        if mask >> k & 1 == 1 {
            state = changed(state, k);
        }
    }
    state
}
