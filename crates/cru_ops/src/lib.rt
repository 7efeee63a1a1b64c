// CRU instructions: LDCR and STCR transfer up to 16 bits; SBO, SBZ and TB reach one bit.
#![tactic(auto)]

ghost use Rattle.std.specs.Prelude.{◌≡◌, ℕ, ◌≤◌, List};
ghost use Rattle.machine.specs.State.{at};
ghost use Rattle.machine.specs.Groups as Groups;
ghost use Rattle.machine.specs.Perform.{perform, performed};

use isa::{BitOp, Operand, TransferOp};
use machine::State;
use memory::{SIZE, Width};
use operand::results;
use psi::{CruBase, CruBit};

// The CRU bit that R12 points at.
#[tactic(auto, using(machine::proofs::Bind::in_turn), unfolding(machine::specs::Groups::cru_base))]
pub fn cru_base(state: &mut State, memory: &[u8; SIZE]) -> CruBit
    ensures { (v : ℕ) → perform v Groups.cru_base (at state.old memory.now) ≡ performed result (at state.new memory.now) }
{
    CruBase(state.register(memory, 12)).bit()
}

// The `count` lowest bits of `value` go out upwards from a bit, the lowest first. (Bit and rest go on step by step, as `Groups.drive_bits` has it; so below.)
fn drive_bits(state: &mut State, count: u16, bit: CruBit, value: u16)
    ensures { (v : ℕ) (m : List ℕ) → perform v (Groups.drive_bits count bit value) (at state.old m) ≡ performed tt (at state.new m) }
{
    let mut to = bit;
    let mut rest = value;
    for _ in 0..count {
        state.drive(to, rest % 2 == 1);
        to = to.plus(1);
        rest /= 2;
    }
}

// The number that `count` bits upwards from a bit are, the lowest first.
fn sense_bits(state: &mut State, levels: u32, count: u16, bit: CruBit) -> u16
    requires { count ≤ 16 }
    ensures { (m : List ℕ) → perform levels (Groups.sense_bits count bit) (at state.old m) ≡ performed result (at state.new m) }
{
    let mut from = bit;
    let mut value: u16 = 0;
    for n in 0..count {
        let found = state.sense(levels, from);
        value += (found as u16) << n;
        from = from.plus(1);
    }
    value
}

// Transfers of up to 8 bits have a byte operand.
#[tactic(auto, unfolding(machine::specs::Groups::transfer_width))]
fn transfer_width(count: u16) -> Width
    ensures { result ≡ Groups.transfer_width count }
{
    if count <= 8 { Width::Byte } else { Width::Word }
}

// LDCR: the whole operand is judged, and its lowest bits go out.
#[tactic(auto, using(machine::proofs::Bind::in_turn), unfolding(machine::specs::Groups::load_cru))]
fn load_cru(state: &mut State, memory: &mut [u8; SIZE], count: u16, operand: Operand)
    ensures { (v : ℕ) → perform v (Groups.load_cru count operand) (at state.old memory.old) ≡ performed tt (at state.new memory.new) }
{
    let width = transfer_width(count);
    let from = operand::address(state, memory, width, operand);
    let value = state.load(memory, width, from);
    let bit = cru_base(state, memory);
    results::set_status(state, alu::status::judged(width, value, state.st));
    drive_bits(state, count, bit, value);
}

// STCR: the bits that were read, with zeros above them, are judged and stored.
#[tactic(auto, using(machine::proofs::Bind::in_turn), unfolding(machine::specs::Groups::store_cru))]
fn store_cru(state: &mut State, memory: &mut [u8; SIZE], levels: u32, count: u16, operand: Operand)
    requires { count ≤ 16 }
    ensures { perform levels (Groups.store_cru count operand) (at state.old memory.old) ≡ performed tt (at state.new memory.new) }
{
    let width = transfer_width(count);
    let to = operand::address(state, memory, width, operand);
    let bit = cru_base(state, memory);
    let value = sense_bits(state, levels, count, bit);
    results::conclude_judged(state, memory, width, to, value);
}

// LDCR and STCR, with the count as coded.
#[tactic(auto, using(crate::proofs::Transfers::amount_fits), unfolding(machine::specs::Groups::transfer))]
pub fn transfer(
    state: &mut State,
    memory: &mut [u8; SIZE],
    levels: u32,
    op: TransferOp,
    operand: Operand,
    count: u16,
)
    ensures { perform levels (Groups.transfer op operand count) (at state.old memory.old) ≡ performed tt (at state.new memory.new) }
{
    let n = alu::shifts::amount(count);
    match op {
        TransferOp::Ldcr => load_cru(state, memory, n, operand),
        TransferOp::Stcr => store_cru(state, memory, levels, n, operand),
    }
}

// What SBO, SBZ and TB do with their bit.
#[tactic(auto, using(machine::proofs::Bind::in_turn), unfolding(machine::specs::Groups::bit_effect))]
fn bit_effect(state: &mut State, levels: u32, op: BitOp, bit: CruBit)
    ensures { (m : List ℕ) → perform levels (Groups.bit_effect op bit) (at state.old m) ≡ performed tt (at state.new m) }
{
    match op {
        BitOp::Sbo => state.drive(bit, true),
        BitOp::Sbz => state.drive(bit, false),
        BitOp::Tb => {
            let value = state.sense(levels, bit);
            results::set_equal(state, value);
        }
    }
}

// SBO, SBZ and TB.
#[tactic(auto, using(machine::proofs::Bind::in_turn), unfolding(machine::specs::Groups::access_bit))]
pub fn access_bit(state: &mut State, memory: &[u8; SIZE], levels: u32, op: BitOp, displacement: u16)
    ensures { perform levels (Groups.access_bit op displacement) (at state.old memory.now) ≡ performed tt (at state.new memory.now) }
{
    let base = cru_base(state, memory);
    bit_effect(state, levels, op, base.displaced(displacement));
}
