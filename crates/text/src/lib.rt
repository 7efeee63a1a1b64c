// A text put together piece by piece in an array.
#![tactic(auto)]

ghost use Rattle.std.specs.Prelude.{◌<◌, ◌≡◌, length, ◌+◌, ◌++◌};
ghost use Rattle.text.specs.Texts as Texts;

// The bytes of a text's array: no text is longer.
pub const CAPACITY: usize = 128;

// The text's bytes are the first `length` ones.
// Not an `ArrayString`: the contracts of `replay_files::line::line` and `replay_call::replay` say that zeros stand behind the text.
// No ghost field for `length <= CAPACITY`: `Texts.appended` makes a `Text` of any `Text` and any bytes.
#[derive(Clone, Copy)]
pub struct Text {
    bytes: [u8; CAPACITY],
    length: usize,
}

// A digit below 16 in ASCII, upper case.
#[tactic(auto, using(std::proofs::lemmas::Bool::Decides::nat_tests), unfolding(crate::specs::Texts::glyph))]
fn glyph(d: u16) -> u8
    requires { d < 16 }
    ensures { result ≡ Texts.glyph d }
{
    if d < 10 {
        b'0' + d as u8
    } else {
        b'A' + (d as u8 - 10)
    }
}

impl Text {
    // No text yet.
    #[tactic(auto, unfolding(crate::specs::Texts::empty))]
    pub fn new() -> Self
        ensures value { result ≡ Texts.empty }
        ensures room { Texts.Room result Texts.capacity }
    {
        Text {
            bytes: [0; CAPACITY],
            length: 0,
        }
    }

    // Puts these bytes behind the text.
    #[tactic(auto, unfolding(crate::specs::Texts::appended))]
    pub fn push(&mut self, part: &[u8])
        requires { Texts.Room self.old (length part.now) }
        ensures value { self.new ≡ Texts.appended self.old part.now }
        ensures grown { Texts.Grown self.old self.new (length part.now) }
    {
        let end = self.length + part.len();
        self.bytes[self.length..end].copy_from_slice(part);
        self.length = end;
    }

    // Puts a word behind the text, in four hexadecimal digits. (Digits by hand here and below: `write!` says which characters come, and not that the
    // bytes behind them stay.)
    #[tactic(auto, unfolding(crate::specs::Texts::hex))]
    pub fn push_hex(&mut self, x: u16)
        requires { Texts.Room self.old 4 }
        ensures value { self.new ≡ Texts.appended self.old (Texts.hex x) }
        ensures grown { Texts.Grown self.old self.new 4 }
    {
        self.push(&[
            glyph(x / 0x1000),
            glyph(x / 0x100 % 16),
            glyph(x / 0x10 % 16),
            glyph(x % 16),
        ]);
    }

    // Puts a label behind the text, and then a word in hexadecimal.
    #[tactic(auto, using(crate::proofs::Laws::pushes))]
    pub fn push_labelled(&mut self, label: &[u8], x: u16)
        requires { Texts.Room self.old (length label.now + 4) }
        ensures value { self.new ≡ Texts.appended self.old (label.now ++ Texts.hex x) }
        ensures grown { Texts.Grown self.old self.new (length label.now + 4) }
    {
        self.push(label);
        self.push_hex(x);
    }

    // Puts a number behind the text, in decimal.
    #[tactic(auto, using(crate::proofs::Laws::digits, crate::proofs::Laws::pushes))]
    pub fn push_decimal(&mut self, n: usize)
        requires { Texts.Room self.old (length (Texts.decimal n)) }
        ensures value { self.new ≡ Texts.appended self.old (Texts.decimal n) }
        ensures grown { Texts.Grown self.old self.new (length (Texts.decimal n)) }
    {
        if n >= 10 {
            self.push_decimal(n / 10);
        }
        self.push(&[glyph((n % 10) as u16)]);
    }

    // The text's bytes.
    #[tactic(auto, unfolding(crate::specs::Texts::content))]
    pub fn as_bytes(&self) -> &[u8]
        requires { Texts.Held self.now }
        ensures value { result.now ≡ Texts.content self.now }
        ensures len { length result.now ≡ self.now.length }
    {
        &self.bytes[..self.length]
    }
}
