// Images of both editions, changed in one place or two, most of them with the block's check word made right again.
ghost use Rattle.std.specs.Prelude.{◌+◌, ◌<◌};
ghost use Rattle.image_blocks.specs.Image as Image;

use image_blocks::IMAGE_SIZE;
use machine::State;
use seeds::{Seed, spoiled};

// How many kinds of damage there are, and classes of places. The kinds stay numbers, which are drawn, counted
// over and printed: an enum would be turned into them and out of them each time.
pub const KINDS: u16 = 24;

pub const PLACES: u16 = 3;

// The kind that damages block 0's filler, and the one that damages nothing.
pub const FILLER: u16 = 19;

pub const NONE: u16 = KINDS - 1;

// How many blocks an image has.
const BLOCKS: u16 = image_blocks::BLOCKS as u16;

// How many words of a block its check word covers.
const CHECKED: usize = image_blocks::CHECK / 2;

// Where the state's fields begin in block 0, after format and edition.
const STATE_AT: usize = image_blocks::CONTENT + 4;

// The numbers of edition and read-only address among block 0's words, of which the first is the block's number.
const EDITION: usize = 2;

const ROM: usize = image_blocks::ROM_FIELD + 1;

// A case: the image's edition, the kind of damage, and the class of its place.
#[derive(Clone, Copy)]
pub struct Case {
    pub edition: u16,
    pub kind: u16,
    pub place: u16,
}

// The word that starts at a byte.
fn word_at(image: &[u8; IMAGE_SIZE], at: usize) -> u16
    requires { at + 1 < Image.image_size }
{
    memory::word(image[at], image[at + 1])
}

// Puts a word at a byte.
fn put(image: &mut [u8; IMAGE_SIZE], at: usize, word: u16)
    requires { at + 1 < Image.image_size }
{
    image[at..at + 2].copy_from_slice(&word.to_be_bytes());
}

// A difference that is not 0: of one byte or of both.
fn difference(seed: &mut Seed) -> u16 {
    match seed.below(4) {
        0 => 1,
        1 => 256,
        2 => 65535,
        _ => 1 + seed.below(65535),
    }
}

// Adds a difference to word `n` of a block. (Blocks and words by number, as the damage is drawn: types for them would be made at each call.)
fn change(image: &mut [u8; IMAGE_SIZE], seed: &mut Seed, block: usize, n: usize)
    requires block_bound { block < Image.block_count }
    requires n_bound { n < 256 }
{
    let at = image_blocks::BLOCK_SIZE * block + 2 * n;
    let word = word_at(image, at);
    put(image, at, word.wrapping_add(difference(seed)));
}

// Makes a block's check word right.
fn mend(image: &mut [u8; IMAGE_SIZE], block: usize)
    requires { block < Image.block_count }
{
    let first = image_blocks::BLOCK_SIZE * block;
    let check = (0..CHECKED).fold(image_blocks::SUM, |rest, n| {
        rest.wrapping_sub(word_at(image, first + 2 * n))
    });
    put(image, first + image_blocks::CHECK, check);
}

// Changes word `n` of a block, whose check word is right after it.
fn change_and_mend(image: &mut [u8; IMAGE_SIZE], seed: &mut Seed, block: usize, n: usize)
    requires block_bound { block < Image.block_count }
    requires n_bound { n < 256 }
{
    change(image, seed, block, n);
    mend(image, block);
}

// A block of a class: the first, one in the middle, the last.
fn block_at(seed: &mut Seed, place: u16) -> usize
    ensures { result < Image.block_count }
{
    match place {
        0 => 0,
        1 => 1 + seed.below(BLOCKS - 2) as usize,
        _ => image_blocks::LAST,
    }
}

// Puts word `n` of block 0 in place, whose check word is right after it.
fn put_and_mend(image: &mut [u8; IMAGE_SIZE], n: usize, word: u16)
    requires { n < 256 }
{
    put(image, 2 * n, word);
    mend(image, 0);
}

// Puts a read-only address into block 0.
fn put_rom(image: &mut [u8; IMAGE_SIZE], rom: u32) {
    put_and_mend(image, ROM, (rom % 65536) as u16);
}

// Puts a state's words into block 0, all but the read-only address.
fn put_words(image: &mut [u8; IMAGE_SIZE], state: State) {
    let words = [
        state.wp,
        state.pc,
        state.st,
        state.flags,
        state.psi.mask,
        state.psi.direction,
        state.psi.latch,
        state.psi.load,
        state.psi.decrementer,
        state.psi.reading,
        state.psi.phase,
        state.psi.pending,
    ];
    for (n, word) in words.iter().enumerate() {
        put(image, STATE_AT + 2 * n, *word);
    }
    mend(image, 0);
}

// Puts a state's words into block 0 of an image of this edition.
pub fn put_state(image: &mut [u8; IMAGE_SIZE], state: State, edition: u16) {
    put_words(image, state);
    if edition == image_blocks::EDITION {
        put_rom(image, state.rom);
    }
}

// Makes an image of edition 2 one of this edition.
pub fn put_edition(image: &mut [u8; IMAGE_SIZE], edition: u16) {
    if edition == image_blocks::FIRST_EDITION {
        put_and_mend(image, EDITION, edition);
        put_rom(image, 0);
    }
}

// A word of block 0's filler, which begins earlier in edition 1.
fn filler(seed: &mut Seed, edition: u16) -> usize
    ensures { result < 256 }
{
    if edition == image_blocks::EDITION {
        16 + seed.below(239) as usize
    } else {
        15 + seed.below(240) as usize
    }
}

impl Case {
    // Damage to the state's words; to the read-only address alone where that is spoiled, which is filler in edition 1.
    fn damage_state(self, image: &mut [u8; IMAGE_SIZE], seed: &mut Seed, state: State) {
        let bad = seed.spoiled(state, self.kind);
        if self.kind < spoiled::ROM_STAYS {
            put_state(image, bad, self.edition);
        } else {
            put_rom(image, bad.rom);
        }
    }

    // Damage to block 0, to the filler, or to a block of the case's class. The last kind is none, and so are any further.
    fn damage_block(self, image: &mut [u8; IMAGE_SIZE], seed: &mut Seed) {
        if NONE <= self.kind {
            return;
        }
        let block = block_at(seed, self.place);
        match self.kind {
            12 => {
                let n = seed.below(255) as usize;
                change(image, seed, block, n);
            }
            13 => change(image, seed, block, 255),
            14 => change_and_mend(image, seed, block, 0),
            15 => change_and_mend(image, seed, 0, 1),
            16 => change_and_mend(image, seed, 0, EDITION),
            17 => put_and_mend(image, EDITION, seed.below(5)),
            18 => put_and_mend(image, ROM, 2 * seed.below(8193)),
            FILLER => {
                let n = filler(seed, self.edition);
                change_and_mend(image, seed, 0, n);
            }
            20 => {
                let n = 65 + seed.below(190) as usize;
                change_and_mend(image, seed, image_blocks::LAST, n);
            }
            21 => {
                let n = 1 + seed.below(254) as usize;
                change_and_mend(image, seed, block, n);
            }
            _ => {
                let other = seed.below(BLOCKS) as usize;
                change_and_mend(image, seed, block, 0);
                change(image, seed, other, 7);
            }
        }
    }

    // Damages an image of this state and of the case's edition.
    pub fn damage(self, image: &mut [u8; IMAGE_SIZE], seed: &mut Seed, state: State) {
        if self.kind < spoiled::WORD_WAYS {
            self.damage_state(image, seed, state);
        } else {
            self.damage_block(image, seed);
        }
    }
}
