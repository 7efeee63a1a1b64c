// Operands as text, kind by kind. The functions take any number of 16 bits for a register or a count, so up to five digits: the longest
// operand is then `@>FFFF(R65535)`, of 14 bytes, and two of them behind a space and a comma have 30.
// Each function asks for the room of its own longest text: no type could carry so many numbers.
#![tactic(auto)]

ghost use Rattle.std.specs.Prelude.{◌≡◌};
ghost use Rattle.text.specs.Texts.{Grown, Room, appended, decimal};
ghost use Rattle.operand_text.specs.Kinds as Kinds;

use isa::Operand;
use notation::{Operands, Written};
use text::Text;

// Puts a number behind the text, in decimal.
#[tactic(auto, using(text::proofs::Laws::decimal_16))]
fn push_number(text: &mut Text, number: u16)
    requires { Room text.old 5 }
    ensures value { text.new ≡ appended text.old (decimal number) }
    ensures grown { Grown text.old text.new 5 }
{
    text.push_decimal(number as usize);
}

// Puts a register behind the text.
#[tactic(auto, using(text::proofs::Laws::pushes), unfolding(text::specs::Texts::ascii, crate::specs::Kinds::register))]
fn push_register(text: &mut Text, register: u16)
    requires { Room text.old 6 }
    ensures value { text.new ≡ appended text.old (Kinds.register register) }
    ensures grown { Grown text.old text.new 6 }
{
    text.push(b"R");
    push_number(text, register);
}

// Puts a word or an address behind the text.
#[tactic(auto, using(text::proofs::Laws::pushes), unfolding(text::specs::Texts::ascii, crate::specs::Kinds::word))]
fn push_word(text: &mut Text, word: u16)
    requires { Room text.old 5 }
    ensures value { text.new ≡ appended text.old (Kinds.word word) }
    ensures grown { Grown text.old text.new 5 }
{
    text.push_labelled(b">", word);
}

// Puts an index register behind the text; register 0 is none.
#[tactic(auto, using(text::proofs::Laws::pushes), unfolding(text::specs::Texts::ascii, crate::specs::Kinds::index))]
fn push_index(text: &mut Text, register: u16)
    requires { Room text.old 8 }
    ensures value { text.new ≡ appended text.old (Kinds.index register) }
    ensures grown { Grown text.old text.new 8 }
{
    if register != 0 {
        text.push(b"(");
        push_register(text, register);
        text.push(b")");
    }
}

// Puts a general operand behind the text, with its further word where it has one.
#[tactic(auto, using(text::proofs::Laws::pushes), unfolding(text::specs::Texts::ascii, crate::specs::Kinds::general))]
fn push_general(text: &mut Text, operand: Operand, word: u16)
    requires { Room text.old 14 }
    ensures value { text.new ≡ appended text.old (Kinds.general operand word) }
    ensures grown { Grown text.old text.new 14 }
{
    match operand.mode {
        0 => push_register(text, operand.register),
        1 => {
            text.push(b"*");
            push_register(text, operand.register);
        }
        2 => {
            text.push(b"@");
            push_word(text, word);
            push_index(text, operand.register);
        }
        _ => {
            text.push(b"*");
            push_register(text, operand.register);
            text.push(b"+");
        }
    }
}

// Puts a CRU displacement, which is signed, behind the text.
#[tactic(auto, using(text::proofs::Laws::pushes, text::proofs::Laws::decimal_8), unfolding(text::specs::Texts::ascii, crate::specs::Kinds::displacement))]
fn push_displacement(text: &mut Text, displacement: u8)
    requires { Room text.old 4 }
    ensures value { text.new ≡ appended text.old (Kinds.displacement displacement) }
    ensures grown { Grown text.old text.new 4 }
{
    if displacement < 0x80 {
        text.push_decimal(displacement as usize);
    } else {
        text.push(b"-");
        text.push_decimal(0x100 - displacement as usize);
    }
}

// Puts an operand behind the text.
#[tactic(auto, unfolding(crate::specs::Kinds::written))]
fn push_written(text: &mut Text, operand: Written)
    requires { Room text.old 14 }
    ensures value { text.new ≡ appended text.old (Kinds.written operand) }
    ensures grown { Grown text.old text.new 14 }
{
    match operand {
        Written::General { operand, word } => push_general(text, operand, word),
        Written::Register(register) => push_register(text, register),
        Written::Count(number) | Written::XopNumber(number) => push_number(text, number),
        Written::CruDisplacement(displacement) => push_displacement(text, displacement),
        Written::Target(word) | Written::Word(word) => push_word(text, word),
    }
}

// Puts operands behind a mnemonic.
#[tactic(auto, using(text::proofs::Laws::pushes), unfolding(text::specs::Texts::ascii, crate::specs::Kinds::operands))]
pub fn push_operands(text: &mut Text, operands: Operands)
    requires { Room text.old 30 }
    ensures value { text.new ≡ appended text.old (Kinds.operands operands) }
    ensures grown { Grown text.old text.new 30 }
{
    match operands {
        Operands::None => {}
        Operands::One(only) => {
            text.push(b" ");
            push_written(text, only);
        }
        Operands::Two(first, second) => {
            text.push(b" ");
            push_written(text, first);
            text.push(b",");
            push_written(text, second);
        }
    }
}
