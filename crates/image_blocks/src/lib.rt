// Single blocks: made, judged, and taken apart.
#![tactic(auto)]

ghost use Rattle.std.specs.Prelude.{◌≡◌, ℕ, suc, ◌+◌, ◌-◌, ◌*◌, ◌%◌, ◌<◌, min, List, length, take, drop, OnErr};
ghost use Rattle.memory.specs.Memory.{size};
ghost use Rattle.refusals.specs.Refusals as Refusals;
ghost use Rattle.image_blocks.specs.Image as Image;
ghost use Rattle.image_blocks.specs.Blocks as Blocks;

use machine::State;
use psi::Psi;
use refusals::Refusal;

// The bytes of a block: its number, its content, and from `CHECK` on its check word.
pub const BLOCK_SIZE: usize = 512;

pub const CONTENT: usize = 2;

pub const CHECK: usize = BLOCK_SIZE - 2;

pub const CONTENT_SIZE: usize = CHECK - CONTENT;

// The blocks of an image, the last of them, and the bytes of all.
pub const BLOCKS: usize = 34;

pub const LAST: usize = BLOCKS - 1;

pub const IMAGE_SIZE: usize = BLOCKS * BLOCK_SIZE;

// Block 0's content begins with these two words.
pub const FORMAT: u16 = 0x9901;

// The edition that is written, and the one before it, which has no read-only address.
pub const EDITION: u16 = 2;

pub const FIRST_EDITION: u16 = 1;

// The fields of block 0, a word each: format, edition, WP, PC, ST and flags, from `PSI_FIELD` on the PSI's, and in edition 2 the read-only
// address.
pub const PSI_FIELD: usize = 6;

pub const ROM_FIELD: usize = PSI_FIELD + Psi::WORDS;

pub const FIELDS: usize = ROM_FIELD + 1;

// Where the part of memory that the last block carries begins.
pub const LAST_PAGE: usize = CONTENT_SIZE * (LAST - 1);

// The filler in the last block, after the memory's last byte.
pub const TAIL: usize = BLOCK_SIZE * LAST + CONTENT + (memory::SIZE - LAST_PAGE);

pub const TAIL_END: usize = BLOCK_SIZE * LAST + CHECK;

// A block's words sum to this.
pub const SUM: u16 = 0xFFFF;

// The sum of the words that the bytes are, modulo 65536; with no way out before the end, so that the compiler takes many words at a time.
fn words_sum(part: &[u8]) -> u16
    ensures { result ≡ Image.words_sum part.now % 65536 }
{
    let (words, _) = part.as_chunks::<2>();
    words.iter().fold(
        0u16,
        |sum, word| sum.wrapping_add(u16::from_be_bytes(*word)),
    )
}

// Whether all bytes are 0: whether no bit is set in any. (`all` would stop at the first, and take byte by byte.)
pub fn zeros(part: &[u8]) -> bool
    ensures { result ≡ Image.zeros part.now }
{
    part.iter().fold(0u8, |ones, byte| ones | *byte) == 0
}

// Puts a word at a byte of a block.
#[tactic(auto, unfolding(crate::specs::Blocks::put_word))]
fn put_word(block: &mut [u8; BLOCK_SIZE], at: usize, word: u16)
    requires { at < Image.block_size - 1 }
    ensures { block.new ≡ Blocks.put_word block.old at word }
{
    let [high, low] = word.to_be_bytes();
    block[at] = high;
    block[at + 1] = low;
}

// Puts words into a block, from its content's first byte on.
fn put_words(block: &mut [u8; BLOCK_SIZE], words: &[u16; FIELDS])
    ensures { block.new ≡ Blocks.put_words block.old 0 words.now }
{
    for (n, word) in words.iter().enumerate() {
        put_word(block, 2 * n + CONTENT, *word);
    }
}

// The words of block 0. The read-only address of a well-formed state fits its word; any other state is not written.
#[tactic(auto, unfolding(crate::specs::Blocks::header_words, crate::specs::Image::fields))]
fn header_words(state: State) -> [u16; FIELDS]
    ensures { result ≡ Blocks.header_words state }
{
    let psi = state.psi;
    [
        FORMAT,
        EDITION,
        state.wp,
        state.pc,
        state.st,
        state.flags,
        psi.mask,
        psi.direction,
        psi.latch,
        psi.load,
        psi.decrementer,
        psi.reading,
        psi.phase,
        psi.pending,
        (state.rom % 65536) as u16,
    ]
}

// Block 0 without its check word.
fn header(state: State) -> [u8; BLOCK_SIZE]
    ensures { (m : List ℕ) → result ≡ Blocks.unchecked state m 0 }
{
    let mut block = [0u8; BLOCK_SIZE];
    put_words(&mut block, &header_words(state));
    block
}

// Block `i` + 1, which carries memory, without its check word.
fn page(lent: &[u8; memory::SIZE], i: usize) -> [u8; BLOCK_SIZE]
    requires { i < Image.page_count }
    ensures { (s : State) → result ≡ Blocks.unchecked s lent.now (suc i) }
{
    let mut block = [0u8; BLOCK_SIZE];
    put_word(&mut block, 0, (i + 1) as u16);
    // Either copy has a length that the compiler knows.
    if i + 1 < LAST {
        let from = CONTENT_SIZE * i;
        let to = from + CONTENT_SIZE;
        block[CONTENT..CHECK].copy_from_slice(&lent[from..to]);
    } else {
        let end = CONTENT + (memory::SIZE - LAST_PAGE);
        block[CONTENT..end].copy_from_slice(&lent[LAST_PAGE..memory::SIZE]);
    }
    block
}

// A block with its check word put in.
fn checked(block: [u8; BLOCK_SIZE]) -> [u8; BLOCK_SIZE]
    ensures { result ≡ Image.checked (take Image.check_at block) }
{
    let mut made = block;
    let sum = words_sum(&made[..CHECK]);
    put_word(&mut made, CHECK, SUM - sum);
    made
}

// Block `i` of the image. (That `i` is below the blocks' number is asked here and of `check_block`: their loops know it, and a type for it would be made
// anew at each turn.)
pub fn block(state: State, lent: &[u8; memory::SIZE], i: usize) -> [u8; BLOCK_SIZE]
    requires { i < Image.block_count }
    ensures { result ≡ Image.block state lent.now i }
{
    if i == 0 {
        checked(header(state))
    } else {
        checked(page(lent, i - 1))
    }
}

// Judges block `i` by itself: first the check, then the number.
#[tactic(auto, unfolding(refusals::specs::Refusals::block_of, refusals::specs::Refusals::block))]
pub fn check_block(image: &[u8; IMAGE_SIZE], i: usize) -> Result<(), Refusal>
    requires { i < Image.block_count }
    ensures number { Refusals.number_of result ≡ Image.block_fault image.now i }
    ensures block { OnErr result (Refusals.block_of result ≡ i) }
{
    let from = BLOCK_SIZE * i;
    let low = from + 1;
    let to = from + BLOCK_SIZE;
    let sum = words_sum(&image[from..to]);
    let number = memory::word(image[from], image[low]) as usize;
    if sum != SUM {
        return Err(Refusal::Check(i as u16));
    }
    if number != i {
        return Err(Refusal::BlockNumber(i as u16));
    }
    Ok(())
}

// Word `n` of block 0's content.
pub fn field(image: &[u8; IMAGE_SIZE], n: usize) -> u16
    requires { n < Image.field_count }
    ensures { result ≡ Image.field_of image.now n }
{
    let at = 2 * n + CONTENT;
    memory::word(image[at], image[at + 1])
}

// What block `i` + 1 carries of the memory: it lies behind the block's number.
pub fn page_of(image: &[u8; IMAGE_SIZE], i: usize) -> &[u8]
    requires { i < Image.page_count }
    ensures value { result.now ≡ take Image.content_size (drop (Image.content_size * i) (Image.memory_of image.now)) }
    ensures length { length result.now ≡ min Image.content_size (size - Image.content_size * i) }
{
    let start = BLOCK_SIZE * (i + 1) + CONTENT;
    let end = start + CONTENT_SIZE.min(memory::SIZE - CONTENT_SIZE * i);
    &image[start..end]
}

// The PSI that block 0 holds, from the blank one: document 01 wants its constructor used here. (Field by field, as the order of an image's words
// is read here.)
#[tactic(auto, unfolding(crate::specs::Image::psi_of))]
fn psi_of(image: &[u8; IMAGE_SIZE]) -> Psi
    ensures { result ≡ Image.psi_of image.now }
{
    let mut psi = Psi::blank();
    psi.mask = field(image, PSI_FIELD);
    psi.direction = field(image, PSI_FIELD + 1);
    psi.latch = field(image, PSI_FIELD + 2);
    psi.load = field(image, PSI_FIELD + 3);
    psi.decrementer = field(image, PSI_FIELD + 4);
    psi.reading = field(image, PSI_FIELD + 5);
    psi.phase = field(image, PSI_FIELD + 6);
    psi.pending = field(image, PSI_FIELD + 7);
    psi
}

// Whether the image is of edition 1.
#[tactic(auto, unfolding(crate::specs::Image::is_first))]
fn is_first(image: &[u8; IMAGE_SIZE]) -> bool
    ensures { result ≡ Image.is_first image.now }
{
    field(image, 1) == FIRST_EDITION
}

// The first read-only address: edition 1 has none.
#[tactic(auto, unfolding(crate::specs::Image::rom_of))]
pub fn rom_of(image: &[u8; IMAGE_SIZE]) -> u32
    ensures { result ≡ Image.rom_of image.now }
{
    if is_first(image) {
        State::NO_ROM
    } else {
        field(image, ROM_FIELD) as u32
    }
}

// Where the filler in block 0 begins: after the fields that its edition has.
#[tactic(auto, unfolding(crate::specs::Image::fields_in))]
pub fn rest(image: &[u8; IMAGE_SIZE]) -> usize
    ensures { result ≡ 2 * Image.fields_in image.now + 2 }
{
    if is_first(image) {
        2 * ROM_FIELD + CONTENT
    } else {
        2 * FIELDS + CONTENT
    }
}

// The state that block 0 holds.
#[tactic(auto, unfolding(crate::specs::Image::state_of))]
pub fn state_of(image: &[u8; IMAGE_SIZE]) -> State
    ensures { result ≡ Image.state_of image.now }
{
    State {
        wp: field(image, 2),
        pc: field(image, 3),
        st: field(image, 4),
        flags: field(image, 5),
        psi: psi_of(image),
        rom: rom_of(image),
    }
}
