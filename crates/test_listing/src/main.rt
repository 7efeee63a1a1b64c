// Lines of the listing for words all over the range, shown. Then passes over all words, and sums of what came of them: five as an
// instruction's first word, two as a further one, all accepted; and one more with memories and buffers of wrong lengths among them.
#![tactic(auto)]

ghost use Rattle.std.specs.Prelude.{◌+◌, ◌<◌, ◌≤◌, IfOk};
ghost use Rattle.std.specs.Option.{IfSome};
ghost use Rattle.memory.specs.Memory.{size};
ghost use Rattle.listing.specs.Listing.{least_buffer};

use listing::{LEAST_BUFFER, Line};
use memory::Width;
use notation::Words;
use refusals::Refusal;
use seeds::{Seed, Sum, lines};

// Lines that are shown, and the factor that varies the bits of a word within its step.
const SHOWN: u16 = 108;

const SHOWN_SPREAD: u16 = 37;

// The address of a shown word, and the two words behind it.
const SHOWN_AT: u16 = 0x0100;

const SHOWN_SECOND: u16 = 0x0200;

const SHOWN_THIRD: u16 = 0x0302;

// Words that share a line of sums, and lines of a pass over all words.
const WORDS: u16 = 2048;

const LINES: u16 = 32;

// What a pass over all words does with them. Where nothing else is said, a word is the first of an instruction, at any address.
#[derive(Clone, Copy, PartialEq, Eq)]
enum Pass {
    Plain,
    // At addresses just before the memory's end.
    BeforeEnd,
    // At addresses just before they wrap.
    BeforeWrap,
    // The words in another order.
    Scattered,
    // The value as both further words of one instruction, MOV @value(R1),@other(R2).
    Indexed,
    // The value as the further word of LI R5,value.
    Immediate,
    // With refused calls: one memory in four has any length, and one buffer in three is too short.
    Refused,
}

const PASSES: [Pass; 8] = [
    Pass::Plain,
    Pass::BeforeEnd,
    Pass::BeforeWrap,
    Pass::Plain,
    Pass::Scattered,
    Pass::Indexed,
    Pass::Immediate,
    Pass::Refused,
];

// The factor of the other order is odd, so that each word comes once.
const SCATTER: u16 = 40503;

const MOV_INDEXED: u16 = 0xC8A1;

const LI_R5: u16 = 0x0205;

const OTHER_MEMORIES: u16 = 4;

const SHORT_BUFFERS: u16 = 3;

// The seed of all that is drawn.
const SEED: u32 = 9900;

// The length of the longest memory that is given.
const MEMORY: usize = memory::SIZE + 2;

// A buffer has at most so many bytes more than it needs; the length of the longest.
const SPARE: u16 = 16;

const TEXT: usize = LEAST_BUFFER + SPARE as usize;

// The sum so far, how many calls were accepted, and the bytes of their lines.
#[derive(Drop)]
struct Tally {
    sum: Sum,
    accepted: u32,
    length: u64,
}

// A memory, and the generator of all that is drawn.
#[derive(Drop)]
struct Bench {
    bytes: [u8; memory::SIZE],
    seed: Seed,
}

// Stores three words from an address on.
fn put(bytes: &mut [u8; memory::SIZE], address: u16, words: Words) {
    memory::store(bytes, Width::Word, address, words.first);
    memory::store(bytes, Width::Word, address.wrapping_add(2), words.second);
    memory::store(bytes, Width::Word, address.wrapping_add(4), words.third);
}

// Shows the line of a word that two others follow.
fn show(rt: &impl Print, bytes: &mut [u8; memory::SIZE], first: u16) {
    let words = Words {
        first,
        second: SHOWN_SECOND,
        third: SHOWN_THIRD,
    };
    put(bytes, SHOWN_AT, words);
    let mut text = [0; LEAST_BUFFER];
    if let Ok(line) = listing::list(bytes, SHOWN_AT, &mut text) {
        let _ = rt.write_all(&text[..line.length]);
    }
    let _ = rt.write_all(b"\n");
}

// Bits within a step, for the word of line `n`.
fn spread(n: u16, step: u16) -> u16
    requires n_bound { n < 108 }
    requires step_nonzero { 0 < step }
    ensures { result < step }
{
    n * SHOWN_SPREAD % step
}

// The word of line `n`, one of each step of four ranges.
fn shown_word(n: u16) -> u16
    requires { n < 108 }
{
    match n {
        0..64 => 0x0020 * n + spread(n, 0x0020),
        64..88 => 0x0800 + 0x0100 * (n - 64) + spread(n, 0x0100),
        88..96 => 0x2000 + 0x0400 * (n - 88) + spread(n, 0x0400),
        _ => 0x4000 + 0x1000 * (n - 96) + spread(n, 0x1000),
    }
}

// A word and any two others.
fn followed(seed: &mut Seed, first: u16) -> Words {
    Words {
        first,
        second: seed.word(),
        third: seed.word(),
    }
}

impl Pass {
    // An address: one of the last four before the memory's end, which is 0x4000, one of the last four of all, or any.
    fn address(self, seed: &mut Seed) -> u16 {
        match self {
            Pass::BeforeEnd => 0x3FFC + seed.below(4),
            Pass::BeforeWrap => 0xFFFC + seed.below(4),
            _ => seed.word(),
        }
    }

    // Three words: the value as the first, in order or scattered, or as further words of two instructions.
    fn words(self, seed: &mut Seed, value: u16) -> Words {
        match self {
            Pass::Scattered => followed(seed, value.wrapping_mul(SCATTER)),
            Pass::Indexed => Words {
                first: MOV_INDEXED,
                second: value,
                third: !value,
            },
            Pass::Immediate => Words {
                first: LI_R5,
                second: value,
                third: seed.word(),
            },
            _ => followed(seed, value),
        }
    }

    // The length of the memory that is given, if it is not the machine's: any up to MEMORY, which is `size + 2`.
    fn other_length(self, seed: &mut Seed) -> Option<usize>
        ensures { IfSome result (λ n. n ≤ size + 2) }
    {
        if self == Pass::Refused && seed.once_in(OTHER_MEMORIES) {
            Some(seed.below(MEMORY as u16 + 1) as usize)
        } else {
            None
        }
    }

    // The length of the buffer: enough, up to TEXT, which is `least_buffer + 16`; or with refused calls less.
    fn text_length(self, seed: &mut Seed) -> usize
        ensures { result ≤ least_buffer + 16 }
    {
        if self == Pass::Refused && seed.once_in(SHORT_BUFFERS) {
            seed.below(LEAST_BUFFER as u16) as usize
        } else {
            LEAST_BUFFER + seed.below(SPARE + 1) as usize
        }
    }
}

impl Tally {
    // Adds what a call answers and the buffer that it leaves. A refusal has no line.
    fn add(&mut self, answer: Result<Line, Refusal>, text: &[u8])
        requires { IfOk answer (λ line. line.length ≤ least_buffer) }
    {
        let (number, length, words) = match answer {
            Ok(line) => {
                self.accepted = self.accepted.wrapping_add(1);
                (0, line.length, line.words)
            }
            Err(refusal) => (refusal.number(), 0, 0),
        };
        self.sum.mix(number);
        self.sum.mix(length as u32);
        self.sum.mix(words);
        self.sum.mix_bytes(text);
        self.length = self.length.wrapping_add(length as u64);
    }
}

impl Bench {
    // Lists from the first bytes of a memory that may be longer.
    fn list_other(&self, length: usize, address: u16, text: &mut [u8]) -> Result<Line, Refusal>
        requires { length ≤ size + 2 }
        ensures { IfOk result (λ line. line.length ≤ least_buffer) }
    {
        let mut longer = [0; MEMORY];
        longer[..memory::SIZE].copy_from_slice(&self.bytes);
        listing::list(&longer[..length], address, text)
    }

    // One case of a pass, in a buffer of any bytes.
    fn one(&mut self, pass: Pass, value: u16, tally: &mut Tally) {
        let at = pass.address(&mut self.seed);
        put(&mut self.bytes, at, pass.words(&mut self.seed, value));
        let other = pass.other_length(&mut self.seed);
        let to = pass.text_length(&mut self.seed);
        let mut text = [0; TEXT];
        self.seed.fill(&mut text[..to]);
        let answer = match other {
            None => listing::list(&self.bytes, at, &mut text[..to]),
            Some(length) => self.list_other(length, at, &mut text[..to]),
        };
        tally.add(answer, &text[..to]);
    }

    // A line: new memory, its words, and the sums. (No word is above 65535.)
    fn line(&mut self, rt: &impl Print, pass: Pass, first: u16)
        requires { first ≤ 63488 }
    {
        self.seed.fill(&mut self.bytes);
        let mut tally = Tally {
            sum: Sum::ZERO,
            accepted: 0,
            length: 0,
        };
        for i in 0..WORDS {
            self.one(pass, first + i, &mut tally);
        }
        lines::number(rt, first);
        lines::number(rt, tally.accepted);
        lines::number(rt, tally.length);
        lines::last(rt, tally.sum);
    }
}

// The shown lines, and all passes.
fn all(rt: &impl Print) {
    let mut bytes = [0; memory::SIZE];
    for n in 0..SHOWN {
        show(rt, &mut bytes, shown_word(n));
    }
    let mut bench = Bench {
        bytes: [0; memory::SIZE],
        seed: Seed::new(SEED),
    };
    for pass in PASSES {
        for line in 0..LINES {
            bench.line(rt, pass, line * WORDS);
        }
    }
}

fn main(rt: HostRuntime) {
    all(&rt);
}
