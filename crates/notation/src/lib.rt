// The assembler's notation as data: a mnemonic and at most two operands, in the order in which they are written.
#![tactic(auto)]

ghost use Rattle.std.specs.Prelude.{◌≡◌};
ghost use Rattle.notation.specs.Forms as Forms;

use isa::{
    BitOp, ControlOp, DualOp, ImmediateOp, Instruction, JumpOp, Operand, RegisterOp, ShiftOp,
    SingleOp, TransferOp,
};
use memory::Width;

// The mnemonics, by the instructions' forms, with the operation where a form has several.
#[derive(Clone, Copy)]
pub enum Mnemonic {
    Dual { op: DualOp, width: Width },
    Register(RegisterOp),
    Xop,
    Transfer(TransferOp),
    Bit(BitOp),
    Jump(JumpOp),
    Shift(ShiftOp),
    Single(SingleOp),
    Blwp,
    X,
    Immediate(ImmediateOp),
    Stwp,
    Stst,
    Lwpi,
    Limi,
    Control(ControlOp),
    // An unassigned word.
    Data,
}

// An operand as it is written, of one of seven kinds.
#[derive(Clone, Copy)]
pub enum Written {
    // A general operand; whether it has a further word its mode says, and `word` is 0 where it has none.
    // (`Forms.general` and `Kinds.general` take the word as a number, so it is no Option.)
    General { operand: Operand, word: u16 },
    Register(u16),
    // A count as coded, 0 to 15.
    Count(u16),
    XopNumber(u16),
    // A signed byte: from 80h on it is 100h less.
    CruDisplacement(u8),
    // Where a jump goes.
    Target(u16),
    Word(u16),
}

// The operands, in order.
// (Not an Option or a slice: there may be two, and no more.)
#[derive(Clone, Copy)]
pub enum Operands {
    None,
    One(Written),
    Two(Written, Written),
}

#[derive(Clone, Copy)]
pub struct Notation {
    pub mnemonic: Mnemonic,
    pub operands: Operands,
}

// Three words, one after the other: an instruction's first, and the two behind it, as the definitions name them.
#[derive(Clone, Copy)]
pub struct Words {
    pub first: u16,
    pub second: u16,
    pub third: u16,
}

// A general operand; `next` stands where its further word would be.
#[tactic(auto, using(std::proofs::lemmas::Bool::Decides::nat_tests), unfolding(crate::specs::Forms::general))]
fn general(operand: Operand, next: u16) -> Written
    ensures { result ≡ Forms.general operand next }
{
    let word = if isa::operand_words(operand) == 1 {
        next
    } else {
        0
    };
    Written::General { operand, word }
}

// The word that stands where a destination's further word would be.
#[tactic(auto, using(std::proofs::lemmas::Bool::Decides::nat_tests), unfolding(crate::specs::Forms::behind))]
fn behind(source: Operand, words: Words) -> u16
    ensures { result ≡ Forms.behind source words }
{
    if isa::operand_words(source) == 1 {
        words.third
    } else {
        words.second
    }
}

// An instruction at an address, with the three words from there on.
#[tactic(auto, unfolding(crate::specs::Forms::notation_of))]
pub fn notation_of(address: u16, words: Words, instruction: Instruction) -> Notation
    ensures { result ≡ Forms.notation_of address words instruction }
{
    let next = words.second;
    let (mnemonic, operands) = match instruction {
        Instruction::Dual {
            op,
            source,
            destination,
            width,
        } => (
            Mnemonic::Dual { op, width },
            Operands::Two(
                general(source, next),
                general(destination, behind(source, words)),
            ),
        ),
        Instruction::Register {
            op,
            source,
            register,
        } => (
            Mnemonic::Register(op),
            Operands::Two(general(source, next), Written::Register(register)),
        ),
        Instruction::Xop { source, number } => (
            Mnemonic::Xop,
            Operands::Two(general(source, next), Written::XopNumber(number)),
        ),
        Instruction::Transfer { op, operand, count } => (
            Mnemonic::Transfer(op),
            Operands::Two(general(operand, next), Written::Count(count)),
        ),
        Instruction::Bit { op, displacement } => (
            Mnemonic::Bit(op),
            Operands::One(Written::CruDisplacement((displacement % 256) as u8)),
        ),
        Instruction::Jump { op, displacement } => (
            Mnemonic::Jump(op),
            Operands::One(Written::Target(isa::target(address.wrapping_add(2), displacement))),
        ),
        Instruction::Shift {
            op,
            register,
            count,
        } => (
            Mnemonic::Shift(op),
            Operands::Two(Written::Register(register), Written::Count(count)),
        ),
        Instruction::Single { op, operand } => {
            (Mnemonic::Single(op), Operands::One(general(operand, next)))
        }
        Instruction::Blwp { operand } => (Mnemonic::Blwp, Operands::One(general(operand, next))),
        Instruction::X { operand } => (Mnemonic::X, Operands::One(general(operand, next))),
        Instruction::Immediate { op, register } => (
            Mnemonic::Immediate(op),
            Operands::Two(Written::Register(register), Written::Word(next)),
        ),
        Instruction::Stwp { register } => {
            (Mnemonic::Stwp, Operands::One(Written::Register(register)))
        }
        Instruction::Stst { register } => {
            (Mnemonic::Stst, Operands::One(Written::Register(register)))
        }
        Instruction::Lwpi => (Mnemonic::Lwpi, Operands::One(Written::Word(next))),
        Instruction::Limi => (Mnemonic::Limi, Operands::One(Written::Word(next))),
        Instruction::Control { op } => (Mnemonic::Control(op), Operands::None),
        Instruction::Unassigned => (Mnemonic::Data, Operands::One(Written::Word(words.first))),
    };
    Notation { mnemonic, operands }
}
