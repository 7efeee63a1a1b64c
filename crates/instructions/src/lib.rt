// What each word's instruction does, and what it was. The words are told apart by their ranges, as `isa` does it (by `decode` and a
// `match` a step took 1.2 times as long: docs/BENCHMARK.md); each range's function takes the fields by `isa`'s parts. X is answered as with no allowance left, as unassigned: `cpu` executes it.
#![tactic(auto)]

ghost use Rattle.std.specs.Prelude.{◌≡◌, ℕ, eqb, if◌then◌else◌};
ghost use Rattle.isa.specs.Isa as Isa;
ghost use Rattle.isa.specs.declared.TransferOp.TheVariants as Op;
ghost use Rattle.machine.specs.State.{at};
ghost use Rattle.machine.specs.Execute as Execute;
ghost use Rattle.machine.specs.Perform.{perform, performed};

use isa::TransferOp;
use machine::{Deed, State};
use memory::SIZE;

// A word from 4000 to FFFF.
#[tactic(auto, using(machine::proofs::Bind::in_turn), unfolding(machine::specs::Execute::instruction, isa::specs::Isa::dual))]
fn dual(state: &mut State, memory: &mut [u8; SIZE], word: u16) -> Deed
    ensures { (v : ℕ) → perform v (Execute.instruction (Execute.again 0) (Isa.dual word)) (at state.old memory.old) ≡ performed result (at state.new memory.new) }
{
    let op = isa::dual_operation(word / 0x2000 * 0x2000);
    let width = isa::dual_width(word);
    dual_ops::dual(
        state,
        memory,
        op,
        width,
        isa::source(word),
        isa::destination(word),
    );
    Deed::Ordinary
}

// LDCR or STCR, by the code.
#[tactic(auto, using(std::proofs::lemmas::Bool::Decides::nat_tests))]
fn transfer_operation(code: u16) -> TransferOp
    ensures { result ≡ (if eqb code 0x3000 then Op.Ldcr else Op.Stcr) }
{
    if code == 0x3000 {
        TransferOp::Ldcr
    } else {
        TransferOp::Stcr
    }
}

// A word from 2000 to 3FFF. Both transfers go by one call, so that the compiler can put it into the run's loop.
#[tactic(auto, using(machine::proofs::Bind::in_turn, std::proofs::lemmas::Bool::Decides::nat_tests, crate::proofs::Laws::transfers, crate::proofs::Laws::registers), unfolding(machine::specs::Execute::instruction, isa::specs::Isa::with_register))]
fn with_register(state: &mut State, memory: &mut [u8; SIZE], levels: u32, word: u16) -> Deed
    ensures { perform levels (Execute.instruction (Execute.again 0) (Isa.with_register word)) (at state.old memory.old) ≡ performed result (at state.new memory.new) }
{
    let operand = isa::source(word);
    let number = word / 64 % 16;
    let code = word / 0x400 * 0x400;
    if code == 0x2C00 {
        switch_ops::switch_by_number(state, memory, operand, number);
        return Deed::Switched;
    }
    if word / 0x800 * 0x800 == 0x3000 {
        cru_ops::transfer(
            state,
            memory,
            levels,
            transfer_operation(code),
            operand,
            number,
        );
    } else {
        register_ops::with_register(
            state,
            memory,
            isa::register_operation(code),
            operand,
            number,
        );
    }
    Deed::Ordinary
}

// A word from 1000 to 1FFF.
#[tactic(auto, using(machine::proofs::Bind::in_turn, std::proofs::lemmas::Bool::Decides::nat_tests), unfolding(machine::specs::Execute::instruction, isa::specs::Isa::with_displacement))]
fn with_displacement(state: &mut State, memory: &[u8; SIZE], levels: u32, word: u16) -> Deed
    ensures { perform levels (Execute.instruction (Execute.again 0) (Isa.with_displacement word)) (at state.old memory.now) ≡ performed result (at state.new memory.now) }
{
    let code = word / 0x100 * 0x100;
    let displacement = word % 256;
    if word < 0x1D00 {
        jump_ops::jump(state, isa::jump_operation(code), displacement);
    } else {
        cru_ops::access_bit(
            state,
            memory,
            levels,
            isa::bit_operation(code),
            displacement,
        );
    }
    Deed::Ordinary
}

// A word from 0800 to 0FFF.
#[tactic(auto, using(machine::proofs::Bind::in_turn, std::proofs::lemmas::Bool::Decides::nat_tests), unfolding(machine::specs::Execute::instruction, isa::specs::Isa::shift))]
fn shift(state: &mut State, memory: &mut [u8; SIZE], word: u16) -> Deed
    ensures { (v : ℕ) → perform v (Execute.instruction (Execute.again 0) (Isa.shift word)) (at state.old memory.old) ≡ performed result (at state.new memory.new) }
{
    if word < 0x0C00 {
        let op = isa::shift_operation(word / 0x100 * 0x100);
        shift_ops::shift(state, memory, op, word % 16, word / 16 % 16);
        return Deed::Ordinary;
    }
    Deed::Unassigned
}

// A word from 0400 to 07FF.
#[tactic(auto, using(machine::proofs::Bind::in_turn, std::proofs::lemmas::Bool::Decides::nat_tests), unfolding(machine::specs::Execute::instruction, machine::specs::Execute::again, isa::specs::Isa::single))]
fn single(state: &mut State, memory: &mut [u8; SIZE], word: u16) -> Deed
    ensures { (v : ℕ) → perform v (Execute.instruction (Execute.again 0) (Isa.single word)) (at state.old memory.old) ≡ performed result (at state.new memory.new) }
{
    if word >= 0x0780 {
        return Deed::Unassigned;
    }
    let operand = isa::source(word);
    match word / 0x40 * 0x40 {
        0x0400 => {
            switch_ops::switch_by_operand(state, memory, operand);
            Deed::Switched
        }
        0x0480 => Deed::Unassigned,
        code => {
            single_ops::single(state, memory, isa::single_operation(code), operand);
            Deed::Ordinary
        }
    }
}

// A word from 0200 to 03FF.
#[tactic(auto, using(machine::proofs::Bind::in_turn, std::proofs::lemmas::Bool::Decides::nat_tests), unfolding(machine::specs::Execute::instruction, isa::specs::Isa::immediate))]
fn immediate(state: &mut State, memory: &mut [u8; SIZE], word: u16) -> Deed
    ensures { (v : ℕ) → perform v (Execute.instruction (Execute.again 0) (Isa.immediate word)) (at state.old memory.old) ≡ performed result (at state.new memory.new) }
{
    let code = word / 0x20 * 0x20;
    let register = word % 16;
    if word < 0x02A0 {
        immediate_ops::immediate(state, memory, isa::immediate_operation(code), register);
        return Deed::Ordinary;
    }
    match code {
        0x02A0 => control_ops::store_workspace(state, memory, register),
        0x02C0 => control_ops::store_status(state, memory, register),
        0x02E0 => control_ops::load_workspace(state, memory),
        0x0300 => control_ops::load_mask(state, memory),
        0x0320 => return Deed::Unassigned,
        _ => {
            let op = isa::control_operation(code);
            control_ops::command(state, memory, op);
            return control_ops::command_deed(op);
        }
    }
    Deed::Ordinary
}

// Performs a word's instruction.
#[tactic(auto, using(machine::proofs::Bind::in_turn, isa::proofs::Ranges::ranges), unfolding(machine::specs::Execute::instruction))]
pub fn perform(state: &mut State, memory: &mut [u8; SIZE], levels: u32, word: u16) -> Deed
    ensures { perform levels (Execute.instruction (Execute.again 0) (Isa.decoded word)) (at state.old memory.old) ≡ performed result (at state.new memory.new) }
{
    match word {
        0x4000.. => dual(state, memory, word),
        0x2000.. => with_register(state, memory, levels, word),
        0x1000.. => with_displacement(state, memory, levels, word),
        0x0800.. => shift(state, memory, word),
        0x0400.. => single(state, memory, word),
        0x0200.. => immediate(state, memory, word),
        _ => Deed::Unassigned,
    }
}
