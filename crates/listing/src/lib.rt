// The listing: one line of text for the instruction at an address.
#![tactic(auto)]

ghost use Rattle.std.specs.Prelude.{◌≤◌, ◌≡◌, [], ◌∷◌, IfOk};
ghost use Rattle.text.specs.Texts.{Grown, Held, Room, appended, empty};
ghost use Rattle.listing.specs.Listing as Listing;

use memory::Width;
use notation::{Notation, Words};
use refusals::Refusal;
use text::Text;

// A buffer for a line has at least so many bytes.
pub const LEAST_BUFFER: usize = 48;

// How many bytes of the lent buffer a line has, and how many words its instruction takes.
#[derive(Clone, Copy, Debug, PartialEq, Eq)]
pub struct Line {
    pub length: usize,
    pub words: u16,
}

// Puts a space and a word behind the text.
#[tactic(auto, using(text::proofs::Laws::pushes), unfolding(text::specs::Texts::ascii, crate::specs::Listing::spaced))]
fn push_spaced(text: &mut Text, word: u16)
    requires { Room text.old 5 }
    ensures value { text.new ≡ appended text.old (Listing.spaced (word ∷ [])) }
    ensures grown { Grown text.old text.new 5 }
{
    text.push_labelled(b" ", word);
}

// Puts the words that an instruction takes behind the text.
#[tactic(auto, using(text::proofs::Laws::pushes, crate::proofs::Pieces::spaced_more, crate::proofs::Pieces::used_all), unfolding(crate::specs::Listing::used))]
fn push_used(text: &mut Text, further: u16, words: Words)
    requires { Room text.old 15 }
    ensures value { text.new ≡ appended text.old (Listing.spaced (Listing.used further words)) }
    ensures grown { Grown text.old text.new 15 }
{
    push_spaced(text, words.first);
    if further > 0 {
        push_spaced(text, words.second);
    }
    if further > 1 {
        push_spaced(text, words.third);
    }
}

// Puts mnemonic and operands behind the text.
#[tactic(auto, using(text::proofs::Laws::pushes, mnemonics::proofs::Lengths::name_short), unfolding(crate::specs::Listing::statement))]
fn push_statement(text: &mut Text, notation: Notation)
    requires { Room text.old 34 }
    ensures value { text.new ≡ appended text.old (Listing.statement notation) }
    ensures grown { Grown text.old text.new 34 }
{
    text.push(mnemonics::name(notation.mnemonic));
    operand_text::push_operands(text, notation.operands);
}

// The three words from an address on.
#[tactic(auto, unfolding(crate::specs::Listing::words_at))]
fn words_at(bytes: &[u8; memory::SIZE], address: u16) -> Words
    ensures { result ≡ Listing.words_at bytes.now address }
{
    Words {
        first: memory::load(bytes, Width::Word, address),
        second: memory::load(bytes, Width::Word, address.wrapping_add(2)),
        third: memory::load(bytes, Width::Word, address.wrapping_add(4)),
    }
}

// The line of the instruction at an address, whose lowest bit is dropped, and how many words it takes.
#[tactic(auto, using(text::proofs::Laws::pushes, text::proofs::Laws::length_of, crate::proofs::Longest::line_short, isa::proofs::Words::two_further_words), unfolding(text::specs::Texts::ascii, crate::specs::Listing::line_at, crate::specs::Listing::line_of, crate::specs::Listing::line, crate::specs::Listing::word_count))]
fn line_at(bytes: &[u8; memory::SIZE], address: u16) -> (Text, u16)
    ensures line_value { result.0 ≡ appended empty (Listing.line_at bytes.now address) }
    ensures held { Held result.0 }
    ensures fits { result.0.length ≤ Listing.least_buffer }
    ensures words_value { result.1 ≡ Listing.word_count bytes.now address }
{
    let at = address / 2 * 2;
    let words = words_at(bytes, at);
    let instruction = isa::decode(words.first);
    let further = isa::further_words(instruction);
    let mut line = Text::new();
    line.push_hex(at);
    push_used(&mut line, further, words);
    line.push(b" ");
    push_statement(&mut line, notation::notation_of(at, words, instruction));
    (line, further + 1)
}

// Writes the line of the instruction at an address into the lent buffer.
#[tactic(auto, using(crate::proofs::Accepted::cases, text::proofs::Laws::content_of), unfolding(crate::specs::Listing::list_answer, refusals::specs::Refusals::number))]
pub fn list(bytes: &[u8], address: u16, text: &mut [u8]) -> Result<Line, Refusal>
    ensures value { Listing.list_answer result ≡ (Listing.list bytes.now address text.old).answer }
    ensures fits { IfOk result (λ line. line.length ≤ Listing.least_buffer) }
    ensures text_after { text.new ≡ (Listing.list bytes.now address text.old).text }
{
    let Some(memory) = bytes.as_array() else {
        return Err(Refusal::MemorySize);
    };
    if text.len() < LEAST_BUFFER {
        return Err(Refusal::TextBuffer);
    }
    let (line, words) = line_at(memory, address);
    let line = line.as_bytes();
    text[..line.len()].copy_from_slice(line);
    Ok(Line {
        length: line.len(),
        words,
    })
}
