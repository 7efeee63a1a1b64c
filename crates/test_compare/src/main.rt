// Pairs of images of both editions that differ in bytes of the memory and in fields, damaged or not, compared; and parts of images of wrong
// lengths.
#![tactic(auto)]

use calls::Outcome;
use differing_runs::PLACES;
use image_blocks::{EDITION, FIRST_EDITION, IMAGE_SIZE};
use image_seeds::damage;
use machine::State;
use pairs::{Damaged, Pair};
use patterns::Pattern;
use seeds::{Seed, Sum, lines};

mod calls;
mod fields;
mod pairs;
mod patterns;

// Lines of the last part of the output, and pairs of one of them.
const LINES: u32 = 128;

const PAIRS: u32 = 20;

// Both editions.
const EDITIONS: [u16; 2] = [FIRST_EDITION, EDITION];

// The length of a buffer with one byte more than an image has.
const LONG: usize = IMAGE_SIZE + 1;

// A memory, two images, the places that a comparison lists, and the generator of all that is drawn.
#[derive(Drop)]
struct Bench {
    bytes: [u8; memory::SIZE],
    first: [u8; IMAGE_SIZE],
    second: [u8; IMAGE_SIZE],
    places: [u32; PLACES],
    seed: Seed,
}

// Writes an image of this edition, of a state that is well formed.
fn write(bytes: &[u8; memory::SIZE], image: &mut [u8; IMAGE_SIZE], state: State, edition: u16) {
    let _ = image::write_image(state, bytes, image);
    damage::put_edition(image, edition);
}

// An image in a buffer that has one byte more.
fn longer(image: &[u8; IMAGE_SIZE]) -> [u8; LONG] {
    let mut buffer = [0; LONG];
    buffer[..IMAGE_SIZE].copy_from_slice(image);
    buffer
}

// Parts that are far too short, or have an image's length, one less or one more.
fn parts(buffer: &[u8; LONG]) -> [&[u8]; 5] {
    [
        &buffer[..0],
        &buffer[..1],
        &buffer[..IMAGE_SIZE - 1],
        &buffer[..IMAGE_SIZE],
        buffer,
    ]
}

impl Bench {
    // Makes a pair's images, of any bytes and any state; between them memory and state are changed.
    fn make(&mut self, pair: Pair) {
        self.seed.fill(&mut self.bytes);
        let base = fields::base(&mut self.seed, pair.no_rom);
        write(&self.bytes, &mut self.first, base, pair.first.edition);
        pair.pattern.apply(&mut self.bytes, &mut self.seed);
        let changed = fields::changed_in(base, pair.mask);
        write(&self.bytes, &mut self.second, changed, pair.second.edition);
        pair.first.damage(&mut self.first, &mut self.seed, base);
        pair.second
            .damage(&mut self.second, &mut self.seed, changed);
    }

    // Makes a pair and compares it.
    fn one(&mut self, pair: Pair) -> Outcome {
        self.make(pair);
        calls::compare(&self.first, &self.second, &mut self.places)
    }

    // A pair shown by itself.
    fn show(&mut self, rt: &impl Print, pair: Pair) {
        self.one(pair).show(rt);
    }

    // All that are shown so: those with a chosen pattern, those that differ in one field, those that differ in the edition at most, and
    // those with each kind of damage.
    fn show_all(&mut self, rt: &impl Print) {
        for row in patterns::CHOSEN {
            let pattern = Pattern::runs(row);
            self.show(rt, Pair::whole(pattern, 0, EDITION, EDITION));
        }
        for k in fields::FIRST..fields::END {
            for first in EDITIONS {
                for second in EDITIONS {
                    self.show(rt, Pair::whole(Pattern::NOTHING, 1 << k, first, second));
                }
            }
        }
        for first in EDITIONS {
            for second in EDITIONS {
                self.show(rt, Pair::of_editions(first, second));
            }
        }
        for kind in 0..damage::KINDS {
            for which in [Damaged::First, Damaged::Second, Damaged::Both] {
                for edition in EDITIONS {
                    let pair = Pair::damaged(&mut self.seed, kind, which, edition);
                    self.show(rt, pair);
                }
            }
        }
    }

    // Parts of all lengths, of a pair without damage, and of one whose first image is refused for its filler.
    fn show_parts(&mut self, rt: &impl Print) {
        for kind in [damage::NONE, damage::FILLER] {
            let pair = Pair::first_damaged(&mut self.seed, kind);
            self.make(pair);
            let firsts = longer(&self.first);
            let seconds = longer(&self.second);
            for first in parts(&firsts) {
                for second in parts(&seconds) {
                    calls::show_call(rt, first, second, &mut self.places);
                }
            }
        }
    }

    // A line: some pairs, how many were accepted, and the sum of what came of all.
    fn line(&mut self, rt: &impl Print) {
        let mut accepted = 0u64;
        let mut sum = Sum::ZERO;
        for _ in 0..PAIRS {
            let pair = Pair::any(&mut self.seed);
            let outcome = self.one(pair);
            outcome.mix_into(&mut sum);
            if outcome.answer.is_ok() {
                accepted = accepted.wrapping_add(1);
            }
        }
        lines::number(rt, accepted);
        lines::last(rt, sum);
    }
}

// All parts.
fn all(rt: &impl Print) {
    let mut bench = Bench {
        bytes: [0; memory::SIZE],
        first: [0; IMAGE_SIZE],
        second: [0; IMAGE_SIZE],
        places: [u32::MAX; PLACES],
        seed: Seed::new(256),
    };
    bench.show_all(rt);
    bench.show_parts(rt);
    for _ in 0..LINES {
        bench.line(rt);
    }
}

fn main(rt: HostRuntime) {
    all(&rt);
}
