// The clock advanced from many starts, well formed or not: first by counts up to some rounds, nearly half of them around a tick that
// brings it to 0, then by any count of 32 bits. Each line has the sum of its cases, a line of the second part also its start and its
// last case.
#![tactic(auto)]

ghost use Rattle.std.specs.Prelude.{◌≤◌};

use psi::Psi;
use seeds::states::CLOCK_NUMBERS;
use seeds::{Seed, Sum, lines};

// The seed of all that is drawn.
const SEED: u32 = 9901;

// Lines of the first part, and cases of one of them.
const NEAR_LINES: u32 = 32;

const NEAR_CASES: u32 = 512;

// The same of the second part.
const FAR_LINES: u32 = 40;

const FAR_CASES: u32 = 64;

// One of these four, a number below 16, one of the clock's bits, or any.
fn pick(seed: &mut Seed, chosen: [u16; 4]) -> u16 {
    match seed.below(8) {
        n @ 0..4 => chosen[n as usize],
        4 => seed.below(16),
        5 | 6 => seed.below(CLOCK_NUMBERS),
        _ => seed.word(),
    }
}

// Now and then any word in place of the usual one.
fn any_or(seed: &mut Seed, usual: u16) -> u16 {
    if seed.once_in(8) { seed.word() } else { usual }
}

// A PSI with this load. Some decrementers are at the load, and some just above it. Its read register need not show the decrementer.
fn start(seed: &mut Seed, load: u16) -> Psi {
    let formed = seed.psi();
    let decrementer = pick(seed, [0, 1, load, load.wrapping_add(1)]);
    let pending = any_or(seed, formed.pending);
    let phase = any_or(seed, formed.phase);
    Psi {
        load,
        decrementer,
        pending,
        phase,
        ..formed
    }
}

// The ticks of a round of the clock with this load.
fn round(load: u16) -> u32
    ensures { result ≤ 0x10000 }
{
    if load == 0 {
        CLOCK_NUMBERS as u32
    } else {
        load as u32 + 1
    }
}

// The ticks until the decrementer is 0, at once or up to three rounds later; or two or one less, or one more.
fn ticks_to_zero(seed: &mut Seed, psi: Psi) -> u32
    ensures { result ≤ 0x40000 }
{
    let later = seed.below(4) as u32 * round(psi.load);
    (psi.decrementer as u32 + later + seed.below(4) as u32).saturating_sub(2)
}

// Cycles as a record has them; or of some ticks and a part of one: any number of ticks of 16 bits, or some around a tick that brings the
// decrementer to 0.
fn near_cycles(seed: &mut Seed, psi: Psi) -> u32 {
    let ticks = match seed.below(4) {
        0 => return seed.below(1024) as u32,
        1 => seed.word() as u32,
        _ => ticks_to_zero(seed, psi),
    };
    ticks * Psi::TICK_CYCLES as u32 + seed.below(Psi::TICK_CYCLES) as u32
}

// Any number of cycles; about one in four is among the last 256.
fn far_cycles(seed: &mut Seed) -> u32 {
    if seed.once_in(4) {
        u32::MAX - seed.below(256) as u32
    } else {
        (seed.word() as u32) << 16 | seed.word() as u32
    }
}

// A line of the first part: the number of its first case, in how many cases pending became 1, and the sum of all its cases.
fn near_line(rt: &impl Print, seed: &mut Seed, first: u32) {
    let mut sum = Sum::ZERO;
    let mut pended = 0u32;
    for _ in 0..NEAR_CASES {
        let load = pick(seed, [0, 1, 2, Psi::CLOCK_LARGEST]);
        let before = start(seed, load);
        let cycles = near_cycles(seed, before);
        let mut after = before;
        after.advance(cycles);
        sum.mix(cycles);
        sum.mix_psi(after);
        if before.pending != 1 && after.pending == 1 {
            pended = pended.wrapping_add(1);
        }
    }
    lines::number(rt, first);
    lines::number(rt, pended);
    lines::last(rt, sum);
}

// The load of a line of the second part.
fn far_load(seed: &mut Seed, line: u32) -> u16 {
    match line % 5 {
        0 => 0,
        1 => 1,
        2 => 2,
        3 => Psi::CLOCK_LARGEST,
        _ => seed.below(CLOCK_NUMBERS),
    }
}

// A line of the second part: its start, the cycles of its last case and the clock after them, and the sum of all its cases.
fn far_line(rt: &impl Print, seed: &mut Seed, line: u32) {
    let load = far_load(seed, line);
    let before = start(seed, load);
    let mut sum = Sum::ZERO;
    let mut cycles = 0;
    let mut after = before;
    for _ in 0..FAR_CASES {
        cycles = far_cycles(seed);
        after = before;
        after.advance(cycles);
        sum.mix(cycles);
        sum.mix_psi(after);
    }
    lines::number(rt, before.load);
    lines::number(rt, before.decrementer);
    lines::number(rt, before.phase);
    lines::number(rt, cycles);
    lines::number(rt, after.decrementer);
    lines::number(rt, after.reading);
    lines::number(rt, after.phase);
    lines::number(rt, after.pending);
    lines::last(rt, sum);
}

// Both parts.
fn all(rt: &impl Print) {
    let mut seed = Seed::new(SEED);
    for line in 0..NEAR_LINES {
        near_line(rt, &mut seed, line * NEAR_CASES);
    }
    for line in 0..FAR_LINES {
        far_line(rt, &mut seed, line);
    }
}

fn main(rt: HostRuntime) {
    all(&rt);
}
