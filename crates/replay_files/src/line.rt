// The line that the program prints.
ghost use Rattle.std.specs.Prelude.{◌+◌, ◌≡◌, ◌++◌, length};
ghost use Rattle.io.specs.Counts.{IsPrefixLen};
ghost use Rattle.text.specs.Texts.{Grown, Held, Room, appended, decimal, empty, hex};
ghost use Rattle.replay_files.specs.Line as Line;

use machine::{Ran, State, StepAnswer};
use text::Text;

// Puts a label and a count, of at most 20 digits, behind the text.
#[tactic(auto, using(text::proofs::Laws::pushes, text::proofs::Laws::decimal_64))]
fn push_count(text: &mut Text, label: &[u8], n: usize)
    requires { Room text.old (length label.now + 20) }
    ensures value { text.new ≡ appended text.old (label.now ++ decimal n) }
    ensures grown { Grown text.old text.new (length label.now + 20) }
{
    text.push(label);
    text.push_decimal(n);
}

// Puts the word for the last step's answer behind the text; a level has at most 5 digits.
#[tactic(auto, using(text::proofs::Laws::pushes, text::proofs::Laws::decimal_16), unfolding(text::specs::Texts::ascii, crate::specs::Line::word))]
fn push_word(text: &mut Text, last: StepAnswer)
    requires { Room text.old 11 }
    ensures value { text.new ≡ appended text.old (Line.word last) }
    ensures grown { Grown text.old text.new 11 }
{
    match last {
        StepAnswer::Nothing => text.push(b" none"),
        StepAnswer::Reset => text.push(b" reset"),
        StepAnswer::Load => text.push(b" load"),
        StepAnswer::Level(k) => {
            text.push(b" level");
            text.push_decimal(k as usize);
        }
        StepAnswer::Instruction => text.push(b" run"),
        StepAnswer::Idle => text.push(b" idle"),
        StepAnswer::Unassigned(_) => text.push(b" word"),
    }
}

// Puts an answer's number and counts behind the text.
#[tactic(auto, using(text::proofs::Laws::pushes), unfolding(text::specs::Texts::ascii, crate::specs::Line::counts))]
fn push_counts(text: &mut Text, number: u16, steps: usize, unassigned: usize)
    requires { Room text.old 86 }
    ensures value { text.new ≡ appended text.old (Line.counts number steps unassigned) }
    ensures grown { Grown text.old text.new 86 }
{
    push_count(text, b"answer ", number as usize);
    push_count(text, b" steps ", steps);
    push_count(text, b" unassigned ", unassigned);
}

// Puts the registers behind the text.
#[tactic(auto, using(text::proofs::Laws::pushes), unfolding(text::specs::Texts::ascii, crate::specs::Line::registers))]
fn push_registers(text: &mut Text, state: &State)
    requires { Room text.old 24 }
    ensures value { text.new ≡ appended text.old (Line.registers state.now.pc state.now.wp state.now.st) }
    ensures grown { Grown text.old text.new 24 }
{
    text.push_labelled(b" pc ", state.pc);
    text.push_labelled(b" wp ", state.wp);
    text.push_labelled(b" st ", state.st);
}

// The line of an answer's number, which is 0 where nothing was refused (`Line.text` takes the number), of what was run and the state after it.
#[tactic(auto, using(text::proofs::Laws::pushes), unfolding(text::specs::Texts::ascii, crate::specs::Line::text))]
pub fn line(number: u16, ran: &Ran) -> Text
    ensures held { Held result }
    ensures prefix_len { IsPrefixLen result.length result.bytes }
    ensures value { result ≡ appended empty (Line.text number ran.now.steps ran.now.unassigned ran.now.state.pc ran.now.state.wp ran.now.state.st ran.now.last) }
{
    let mut text = Text::new();
    push_counts(&mut text, number, ran.steps, ran.unassigned);
    push_registers(&mut text, &ran.state);
    push_word(&mut text, ran.last);
    text.push(b"\n");
    text
}
