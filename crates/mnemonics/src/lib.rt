// How the mnemonics are spelled. (Each table has an answer for each arm: no tactic computes the bytes of a literal.)
#![tactic(auto)]

ghost use Rattle.std.specs.Prelude.{◌≡◌};
ghost use Rattle.text.specs.Texts.{ascii};
ghost use Rattle.mnemonics.specs.Spelling as Spelling;

use isa::{
    BitOp, ControlOp, DualOp, ImmediateOp, JumpOp, RegisterOp, ShiftOp, SingleOp, TransferOp,
};
use memory::Width;
use notation::Mnemonic;

// A dual form of words or of bytes.
fn dual_name(op: DualOp, width: Width) -> &'static [u8]
    ensures { result.now ≡ ascii (Spelling.dual_name op width) }
{
    match width {
        Width::Word => match op {
            DualOp::Szc => b"SZC",
            DualOp::S => b"S",
            DualOp::C => b"C",
            DualOp::A => b"A",
            DualOp::Mov => b"MOV",
            DualOp::Soc => b"SOC",
        },
        Width::Byte => match op {
            DualOp::Szc => b"SZCB",
            DualOp::S => b"SB",
            DualOp::C => b"CB",
            DualOp::A => b"AB",
            DualOp::Mov => b"MOVB",
            DualOp::Soc => b"SOCB",
        },
    }
}

// A form with a general operand and a register.
fn register_name(op: RegisterOp) -> &'static [u8]
    ensures { result.now ≡ ascii (Spelling.register_name op) }
{
    match op {
        RegisterOp::Coc => b"COC",
        RegisterOp::Czc => b"CZC",
        RegisterOp::Xor => b"XOR",
        RegisterOp::Mpy => b"MPY",
        RegisterOp::Div => b"DIV",
    }
}

// A transfer of several CRU bits.
fn transfer_name(op: TransferOp) -> &'static [u8]
    ensures { result.now ≡ ascii (Spelling.transfer_name op) }
{
    match op {
        TransferOp::Ldcr => b"LDCR",
        TransferOp::Stcr => b"STCR",
    }
}

// An access to one CRU bit.
fn bit_name(op: BitOp) -> &'static [u8]
    ensures { result.now ≡ ascii (Spelling.bit_name op) }
{
    match op {
        BitOp::Sbo => b"SBO",
        BitOp::Sbz => b"SBZ",
        BitOp::Tb => b"TB",
    }
}

// A jump.
fn jump_name(op: JumpOp) -> &'static [u8]
    ensures { result.now ≡ ascii (Spelling.jump_name op) }
{
    match op {
        JumpOp::Jmp => b"JMP",
        JumpOp::Jlt => b"JLT",
        JumpOp::Jle => b"JLE",
        JumpOp::Jeq => b"JEQ",
        JumpOp::Jhe => b"JHE",
        JumpOp::Jgt => b"JGT",
        JumpOp::Jne => b"JNE",
        JumpOp::Jnc => b"JNC",
        JumpOp::Joc => b"JOC",
        JumpOp::Jno => b"JNO",
        JumpOp::Jl => b"JL",
        JumpOp::Jh => b"JH",
        JumpOp::Jop => b"JOP",
    }
}

// A shift.
fn shift_name(op: ShiftOp) -> &'static [u8]
    ensures { result.now ≡ ascii (Spelling.shift_name op) }
{
    match op {
        ShiftOp::Sra => b"SRA",
        ShiftOp::Srl => b"SRL",
        ShiftOp::Sla => b"SLA",
        ShiftOp::Src => b"SRC",
    }
}

// A form with one general operand.
fn single_name(op: SingleOp) -> &'static [u8]
    ensures { result.now ≡ ascii (Spelling.single_name op) }
{
    match op {
        SingleOp::B => b"B",
        SingleOp::Clr => b"CLR",
        SingleOp::Neg => b"NEG",
        SingleOp::Inv => b"INV",
        SingleOp::Inc => b"INC",
        SingleOp::Inct => b"INCT",
        SingleOp::Dec => b"DEC",
        SingleOp::Dect => b"DECT",
        SingleOp::Bl => b"BL",
        SingleOp::Swpb => b"SWPB",
        SingleOp::Seto => b"SETO",
        SingleOp::Abs => b"ABS",
    }
}

// A form with a register and an immediate word.
fn immediate_name(op: ImmediateOp) -> &'static [u8]
    ensures { result.now ≡ ascii (Spelling.immediate_name op) }
{
    match op {
        ImmediateOp::Li => b"LI",
        ImmediateOp::Ai => b"AI",
        ImmediateOp::Andi => b"ANDI",
        ImmediateOp::Ori => b"ORI",
        ImmediateOp::Ci => b"CI",
    }
}

// A form with no operand.
fn control_name(op: ControlOp) -> &'static [u8]
    ensures { result.now ≡ ascii (Spelling.control_name op) }
{
    match op {
        ControlOp::Idle => b"IDLE",
        ControlOp::Rset => b"RSET",
        ControlOp::Rtwp => b"RTWP",
        ControlOp::Ckon => b"CKON",
        ControlOp::Ckof => b"CKOF",
        ControlOp::Lrex => b"LREX",
    }
}

// The letters of a mnemonic.
#[tactic(auto, unfolding(crate::specs::Spelling::name))]
pub fn name(mnemonic: Mnemonic) -> &'static [u8]
    ensures { result.now ≡ ascii (Spelling.name mnemonic) }
{
    match mnemonic {
        Mnemonic::Dual { op, width } => dual_name(op, width),
        Mnemonic::Register(op) => register_name(op),
        Mnemonic::Xop => b"XOP",
        Mnemonic::Transfer(op) => transfer_name(op),
        Mnemonic::Bit(op) => bit_name(op),
        Mnemonic::Jump(op) => jump_name(op),
        Mnemonic::Shift(op) => shift_name(op),
        Mnemonic::Single(op) => single_name(op),
        Mnemonic::Blwp => b"BLWP",
        Mnemonic::X => b"X",
        Mnemonic::Immediate(op) => immediate_name(op),
        Mnemonic::Stwp => b"STWP",
        Mnemonic::Stst => b"STST",
        Mnemonic::Lwpi => b"LWPI",
        Mnemonic::Limi => b"LIMI",
        Mnemonic::Control(op) => control_name(op),
        Mnemonic::Data => b"DATA",
    }
}
