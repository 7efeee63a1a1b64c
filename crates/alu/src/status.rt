// Status bits: comparison, parity, carry and overflow, and the conditions of the jumps.
ghost use Rattle.std.specs.Prelude.{◌≡◌, ◌%◌};
ghost use Rattle.memory.specs.Memory as Memory;
ghost use Rattle.alu.specs.Status as Status;
ghost use Rattle.alu.specs.Raised as Raised;

use isa::JumpOp;
use memory::Width;

// The status bits' numbers.
pub const LOGICAL_GREATER: u32 = 15;

pub const ARITHMETIC_GREATER: u32 = 14;

pub const EQUAL: u32 = 13;

pub const CARRY: u32 = 12;

pub const OVERFLOW: u32 = 11;

pub const ODD_PARITY: u32 = 10;

pub const EXTENDED: u32 = 9;

// How many values a width has.
pub fn modulus(width: Width) -> u32
    ensures { result ≡ Memory.modulus width }
{
    match width {
        Width::Byte => 256,
        Width::Word => 65536,
    }
}

// A word reduced to a width.
#[tactic(auto, using(std::proofs::lemmas::Bool::Decides::nat_tests))]
pub fn reduced(width: Width, v: u16) -> u16
    ensures { result ≡ v % Memory.modulus width }
{
    match width {
        Width::Byte => v % 256,
        Width::Word => v,
    }
}

// A signed number plus half the width's values: the unsigned order of these is the signed order.
pub fn raised(width: Width, a: u16) -> u32
    ensures { result ≡ Raised.raised width a }
{
    match width {
        Width::Byte => ((a as u32) + 128) % 256,
        Width::Word => ((a as u32) + 32768) % 65536,
    }
}

// L>, A> and EQ compare `a` with `b`.
pub fn compared(width: Width, a: u16, b: u16, st: u16) -> u16
    ensures { result ≡ Status.compared width a b st }
{
    let with_equal = bits::put(st, EQUAL, a == b);
    let with_signed = bits::put(
        with_equal,
        ARITHMETIC_GREATER,
        raised(width, b) < raised(width, a),
    );
    bits::put(with_signed, LOGICAL_GREATER, b < a)
}

// Byte forms set OP on odd parity; word forms leave it.
#[tactic(auto, unfolding(crate::specs::Status::parity, crate::specs::Status::is_odd))]
pub fn parity(width: Width, v: u16, st: u16) -> u16
    ensures { result ≡ Status.parity width v st }
{
    match width {
        Width::Byte => bits::put(st, ODD_PARITY, v.count_ones() % 2 == 1),
        Width::Word => st,
    }
}

// The status after a result that is compared with 0.
#[tactic(auto, using(std::proofs::lemmas::Bool::Decides::nat_tests), unfolding(crate::specs::Status::judged))]
pub fn judged(width: Width, v: u16, st: u16) -> u16
    ensures { result ≡ Status.judged width v st }
{
    parity(width, v, compared(width, v, 0, st))
}

// C and OV made as given.
#[tactic(auto, using(std::proofs::lemmas::Bool::Decides::nat_tests), unfolding(crate::specs::Status::carried))]
pub fn carried(c: bool, o: bool, st: u16) -> u16
    ensures { result ≡ Status.carried c o st }
{
    bits::put(bits::put(st, OVERFLOW, o), CARRY, c)
}

// Whether a jump's condition holds.
#[tactic(auto, using(std::proofs::lemmas::Bool::Decides::nat_tests), unfolding(crate::specs::Status::jumps))]
pub fn jumps(op: JumpOp, st: u16) -> bool
    ensures { result ≡ Status.jumps op st }
{
    let w = st as u32;
    match op {
        JumpOp::Jmp => true,
        JumpOp::Jlt => !bits::bit(w, ARITHMETIC_GREATER) & !bits::bit(w, EQUAL),
        JumpOp::Jle => !bits::bit(w, LOGICAL_GREATER) | bits::bit(w, EQUAL),
        JumpOp::Jeq => bits::bit(w, EQUAL),
        JumpOp::Jhe => bits::bit(w, LOGICAL_GREATER) | bits::bit(w, EQUAL),
        JumpOp::Jgt => bits::bit(w, ARITHMETIC_GREATER),
        JumpOp::Jne => !bits::bit(w, EQUAL),
        JumpOp::Jnc => !bits::bit(w, CARRY),
        JumpOp::Joc => bits::bit(w, CARRY),
        JumpOp::Jno => !bits::bit(w, OVERFLOW),
        JumpOp::Jl => !bits::bit(w, LOGICAL_GREATER) & !bits::bit(w, EQUAL),
        JumpOp::Jh => bits::bit(w, LOGICAL_GREATER) & !bits::bit(w, EQUAL),
        JumpOp::Jop => bits::bit(w, ODD_PARITY),
    }
}
