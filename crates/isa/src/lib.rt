// The 69 instructions: a word becomes an instruction with its fields.
#![tactic(auto)]

ghost use Rattle.std.specs.Prelude.{◌≡◌};
ghost use Rattle.isa.specs.Isa as Isa;
ghost use Rattle.isa.specs.Words as Words;

use memory::Width;

// A general operand: addressing mode 0 to 3 and register 0 to 15. Both are numbers, not enums: what works on operands answers for any number
// (`Operands.operand`, `Kinds.general`).
#[derive(Clone, Copy)]
pub struct Operand {
    pub mode: u16,
    pub register: u16,
}

// Two general operands, byte or word.
#[derive(Clone, Copy)]
pub enum DualOp {
    Szc,
    S,
    C,
    A,
    Mov,
    Soc,
}

// A general source and a register.
#[derive(Clone, Copy)]
pub enum RegisterOp {
    Coc,
    Czc,
    Xor,
    Mpy,
    Div,
}

// One general operand.
#[derive(Clone, Copy)]
pub enum SingleOp {
    B,
    Clr,
    Neg,
    Inv,
    Inc,
    Inct,
    Dec,
    Dect,
    Bl,
    Swpb,
    Seto,
    Abs,
}

// A transfer of several CRU bits.
#[derive(Clone, Copy)]
pub enum TransferOp {
    Ldcr,
    Stcr,
}

// An access to one CRU bit.
#[derive(Clone, Copy)]
pub enum BitOp {
    Sbo,
    Sbz,
    Tb,
}

#[derive(Clone, Copy)]
pub enum JumpOp {
    Jmp,
    Jlt,
    Jle,
    Jeq,
    Jhe,
    Jgt,
    Jne,
    Jnc,
    Joc,
    Jno,
    Jl,
    Jh,
    Jop,
}

#[derive(Clone, Copy)]
pub enum ShiftOp {
    Sra,
    Srl,
    Sla,
    Src,
}

// A register and an immediate word.
#[derive(Clone, Copy)]
pub enum ImmediateOp {
    Li,
    Ai,
    Andi,
    Ori,
    Ci,
}

// No operand at all.
#[derive(Clone, Copy)]
pub enum ControlOp {
    Idle,
    Rset,
    Rtwp,
    Ckon,
    Ckof,
    Lrex,
}

// An instruction with its fields. Counts and displacements are as coded.
#[derive(Clone, Copy)]
pub enum Instruction {
    Dual {
        op: DualOp,
        source: Operand,
        destination: Operand,
        width: Width,
    },
    Register {
        op: RegisterOp,
        source: Operand,
        register: u16,
    },
    Xop {
        source: Operand,
        number: u16,
    },
    Transfer {
        op: TransferOp,
        operand: Operand,
        count: u16,
    },
    Bit {
        op: BitOp,
        displacement: u16,
    },
    Jump {
        op: JumpOp,
        displacement: u16,
    },
    Shift {
        op: ShiftOp,
        register: u16,
        count: u16,
    },
    Single {
        op: SingleOp,
        operand: Operand,
    },
    Blwp {
        operand: Operand,
    },
    X {
        operand: Operand,
    },
    Immediate {
        op: ImmediateOp,
        register: u16,
    },
    Stwp {
        register: u16,
    },
    Stst {
        register: u16,
    },
    Lwpi,
    Limi,
    Control {
        op: ControlOp,
    },
    Unassigned,
}

// The general operand in the low six bits of a word.
#[tactic(auto, using(std::proofs::lemmas::Bool::Decides::nat_tests), unfolding(crate::specs::Isa::source))]
pub fn source(word: u16) -> Operand
    ensures { result ≡ Isa.source word }
{
    Operand {
        mode: word / 16 % 4,
        register: word % 16,
    }
}

// The general operand in the six bits above those.
#[tactic(auto, using(std::proofs::lemmas::Bool::Decides::nat_tests), unfolding(crate::specs::Isa::destination))]
pub fn destination(word: u16) -> Operand
    ensures { result ≡ Isa.destination word }
{
    source(word / 64)
}

// The operation of a word from 4000 on.
#[tactic(auto, using(std::proofs::lemmas::Bool::Decides::nat_tests), unfolding(crate::specs::Isa::dual_operation))]
pub fn dual_operation(code: u16) -> DualOp
    ensures { result ≡ Isa.dual_operation code }
{
    match code {
        0x4000 => DualOp::Szc,
        0x6000 => DualOp::S,
        0x8000 => DualOp::C,
        0xA000 => DualOp::A,
        0xC000 => DualOp::Mov,
        _ => DualOp::Soc,
    }
}

// The width of a word from 4000 on.
#[tactic(auto, using(std::proofs::lemmas::Bool::Decides::nat_tests), unfolding(crate::specs::Isa::dual_width))]
pub fn dual_width(word: u16) -> Width
    ensures { result ≡ Isa.dual_width word }
{
    if word / 0x1000 % 2 == 1 {
        Width::Byte
    } else {
        Width::Word
    }
}

// A word from 4000 to FFFF.
#[tactic(auto, using(std::proofs::lemmas::Bool::Decides::nat_tests), unfolding(crate::specs::Isa::dual))]
fn dual(word: u16) -> Instruction
    ensures { result ≡ Isa.dual word }
{
    Instruction::Dual {
        op: dual_operation(word / 0x2000 * 0x2000),
        width: dual_width(word),
        source: source(word),
        destination: destination(word),
    }
}

// The operation of a word from 2000 to 3FFF that has a register.
#[tactic(auto, using(std::proofs::lemmas::Bool::Decides::nat_tests), unfolding(crate::specs::Isa::register_operation))]
pub fn register_operation(code: u16) -> RegisterOp
    ensures { result ≡ Isa.register_operation code }
{
    match code {
        0x2000 => RegisterOp::Coc,
        0x2400 => RegisterOp::Czc,
        0x2800 => RegisterOp::Xor,
        0x3800 => RegisterOp::Mpy,
        _ => RegisterOp::Div,
    }
}

// A word from 2000 to 3FFF.
#[tactic(auto, using(std::proofs::lemmas::Bool::Decides::nat_tests), unfolding(crate::specs::Isa::with_register))]
fn with_register(word: u16) -> Instruction
    ensures { result ≡ Isa.with_register word }
{
    let operand = source(word);
    let number = word / 64 % 16;
    match word / 0x400 * 0x400 {
        0x2C00 => Instruction::Xop {
            source: operand,
            number,
        },
        0x3000 => Instruction::Transfer {
            op: TransferOp::Ldcr,
            operand,
            count: number,
        },
        0x3400 => Instruction::Transfer {
            op: TransferOp::Stcr,
            operand,
            count: number,
        },
        code => Instruction::Register {
            op: register_operation(code),
            source: operand,
            register: number,
        },
    }
}

// The jump of a word from 1000 to 1CFF.
#[tactic(auto, using(std::proofs::lemmas::Bool::Decides::nat_tests), unfolding(crate::specs::Isa::jump_operation))]
pub fn jump_operation(code: u16) -> JumpOp
    ensures { result ≡ Isa.jump_operation code }
{
    match code {
        0x1000 => JumpOp::Jmp,
        0x1100 => JumpOp::Jlt,
        0x1200 => JumpOp::Jle,
        0x1300 => JumpOp::Jeq,
        0x1400 => JumpOp::Jhe,
        0x1500 => JumpOp::Jgt,
        0x1600 => JumpOp::Jne,
        0x1700 => JumpOp::Jnc,
        0x1800 => JumpOp::Joc,
        0x1900 => JumpOp::Jno,
        0x1A00 => JumpOp::Jl,
        0x1B00 => JumpOp::Jh,
        _ => JumpOp::Jop,
    }
}

// The access to a CRU bit of a word from 1D00 to 1FFF.
#[tactic(auto, using(std::proofs::lemmas::Bool::Decides::nat_tests), unfolding(crate::specs::Isa::bit_operation))]
pub fn bit_operation(code: u16) -> BitOp
    ensures { result ≡ Isa.bit_operation code }
{
    match code {
        0x1D00 => BitOp::Sbo,
        0x1E00 => BitOp::Sbz,
        _ => BitOp::Tb,
    }
}

// Where a jump goes: a signed displacement of words from `pc`, the address after it; from 80h on it is 100h words less.
#[tactic(auto, using(std::proofs::lemmas::Bool::Decides::nat_tests), unfolding(crate::specs::Isa::target, bits::specs::Bits::signed_byte))]
pub fn target(pc: u16, displacement: u16) -> u16
    ensures { result ≡ Isa.target pc displacement }
{
    let ahead = pc.wrapping_add(displacement.wrapping_mul(2));
    if displacement < 0x80 {
        ahead
    } else {
        ahead.wrapping_sub(0x200)
    }
}

// A word from 1000 to 1FFF.
#[tactic(auto, using(std::proofs::lemmas::Bool::Decides::nat_tests), unfolding(crate::specs::Isa::with_displacement))]
fn with_displacement(word: u16) -> Instruction
    ensures { result ≡ Isa.with_displacement word }
{
    let code = word / 0x100 * 0x100;
    let displacement = word % 256;
    if word < 0x1D00 {
        Instruction::Jump {
            op: jump_operation(code),
            displacement,
        }
    } else {
        Instruction::Bit {
            op: bit_operation(code),
            displacement,
        }
    }
}

// The shift of a word from 0800 to 0BFF.
#[tactic(auto, using(std::proofs::lemmas::Bool::Decides::nat_tests), unfolding(crate::specs::Isa::shift_operation))]
pub fn shift_operation(code: u16) -> ShiftOp
    ensures { result ≡ Isa.shift_operation code }
{
    match code {
        0x0800 => ShiftOp::Sra,
        0x0900 => ShiftOp::Srl,
        0x0A00 => ShiftOp::Sla,
        _ => ShiftOp::Src,
    }
}

// A word from 0800 to 0FFF.
#[tactic(auto, using(std::proofs::lemmas::Bool::Decides::nat_tests), unfolding(crate::specs::Isa::shift))]
fn shift(word: u16) -> Instruction
    ensures { result ≡ Isa.shift word }
{
    if word < 0x0C00 {
        Instruction::Shift {
            op: shift_operation(word / 0x100 * 0x100),
            register: word % 16,
            count: word / 16 % 16,
        }
    } else {
        Instruction::Unassigned
    }
}

// The operation of a word from 0400 to 077F, BLWP and X apart.
#[tactic(auto, using(std::proofs::lemmas::Bool::Decides::nat_tests), unfolding(crate::specs::Isa::single_operation))]
pub fn single_operation(code: u16) -> SingleOp
    ensures { result ≡ Isa.single_operation code }
{
    match code {
        0x0440 => SingleOp::B,
        0x04C0 => SingleOp::Clr,
        0x0500 => SingleOp::Neg,
        0x0540 => SingleOp::Inv,
        0x0580 => SingleOp::Inc,
        0x05C0 => SingleOp::Inct,
        0x0600 => SingleOp::Dec,
        0x0640 => SingleOp::Dect,
        0x0680 => SingleOp::Bl,
        0x06C0 => SingleOp::Swpb,
        0x0700 => SingleOp::Seto,
        _ => SingleOp::Abs,
    }
}

// A word from 0400 to 07FF.
#[tactic(auto, using(std::proofs::lemmas::Bool::Decides::nat_tests), unfolding(crate::specs::Isa::single))]
fn single(word: u16) -> Instruction
    ensures { result ≡ Isa.single word }
{
    if word < 0x0780 {
        let operand = source(word);
        match word / 0x40 * 0x40 {
            0x0400 => Instruction::Blwp { operand },
            0x0480 => Instruction::X { operand },
            code => Instruction::Single {
                op: single_operation(code),
                operand,
            },
        }
    } else {
        Instruction::Unassigned
    }
}

// The operation of a word from 0200 to 029F.
#[tactic(auto, using(std::proofs::lemmas::Bool::Decides::nat_tests), unfolding(crate::specs::Isa::immediate_operation))]
pub fn immediate_operation(code: u16) -> ImmediateOp
    ensures { result ≡ Isa.immediate_operation code }
{
    match code {
        0x0200 => ImmediateOp::Li,
        0x0220 => ImmediateOp::Ai,
        0x0240 => ImmediateOp::Andi,
        0x0260 => ImmediateOp::Ori,
        _ => ImmediateOp::Ci,
    }
}

// The operation of a word from 0340 to 03FF.
#[tactic(auto, using(std::proofs::lemmas::Bool::Decides::nat_tests), unfolding(crate::specs::Isa::control_operation))]
pub fn control_operation(code: u16) -> ControlOp
    ensures { result ≡ Isa.control_operation code }
{
    match code {
        0x0340 => ControlOp::Idle,
        0x0360 => ControlOp::Rset,
        0x0380 => ControlOp::Rtwp,
        0x03A0 => ControlOp::Ckon,
        0x03C0 => ControlOp::Ckof,
        _ => ControlOp::Lrex,
    }
}

// A word from 0200 to 03FF.
#[tactic(auto, using(std::proofs::lemmas::Bool::Decides::nat_tests), unfolding(crate::specs::Isa::immediate))]
fn immediate(word: u16) -> Instruction
    ensures { result ≡ Isa.immediate word }
{
    let code = word / 0x20 * 0x20;
    let register = word % 16;
    if word < 0x02A0 {
        Instruction::Immediate {
            op: immediate_operation(code),
            register,
        }
    } else {
        match code {
            0x02A0 => Instruction::Stwp { register },
            0x02C0 => Instruction::Stst { register },
            0x02E0 => Instruction::Lwpi,
            0x0300 => Instruction::Limi,
            0x0320 => Instruction::Unassigned,
            _ => Instruction::Control {
                op: control_operation(code),
            },
        }
    }
}

// The instruction that a word is. The run does not go by it: `instructions` has the same ranges.
#[tactic(auto, using(crate::proofs::Ranges::ranges))]
pub fn decode(word: u16) -> Instruction
    ensures { result ≡ Isa.decoded word }
{
    match word {
        0x4000.. => dual(word),
        0x2000.. => with_register(word),
        0x1000.. => with_displacement(word),
        0x0800.. => shift(word),
        0x0400.. => single(word),
        0x0200.. => immediate(word),
        _ => Instruction::Unassigned,
    }
}

// Whether a word is an X.
pub fn is_x(word: u16) -> bool
    ensures { result ≡ Words.is_x (Isa.decoded word) }
{
    word / 0x40 * 0x40 == 0x0480
}

// How many further words a general operand takes.
#[tactic(auto, using(std::proofs::lemmas::Bool::Decides::nat_tests), unfolding(crate::specs::Isa::operand_words))]
pub fn operand_words(operand: Operand) -> u16
    ensures { result ≡ Isa.operand_words operand }
{
    if operand.mode == 2 { 1 } else { 0 }
}

// How many words an instruction takes after its first.
#[tactic(auto, using(crate::proofs::Laws::operand_words_at_most), unfolding(crate::specs::Isa::further_words))]
pub fn further_words(instruction: Instruction) -> u16
    ensures { result ≡ Isa.further_words instruction }
{
    match instruction {
        Instruction::Dual {
            source,
            destination,
            ..
        } => operand_words(source) + operand_words(destination),
        Instruction::Register { source, .. } | Instruction::Xop { source, .. } => operand_words(
            source,
        ),
        Instruction::Transfer { operand, .. }
        | Instruction::Single { operand, .. }
        | Instruction::Blwp { operand }
        | Instruction::X { operand } => operand_words(operand),
        Instruction::Immediate { .. } | Instruction::Lwpi | Instruction::Limi => 1,
        Instruction::Bit { .. }
        | Instruction::Jump { .. }
        | Instruction::Shift { .. }
        | Instruction::Stwp { .. }
        | Instruction::Stst { .. }
        | Instruction::Control { .. }
        | Instruction::Unassigned => 0,
    }
}
