// Images: 34 blocks that hold the state and the memory.
#![tactic(auto)]

ghost use Rattle.std.specs.Prelude.{◌≡◌, IfOk};
ghost use Rattle.image_blocks.specs.Image as Image;
ghost use Rattle.image.specs.Calls as Calls;

use image_blocks::{BLOCK_SIZE, BLOCKS, CHECK, CONTENT_SIZE, IMAGE_SIZE, LAST, TAIL, TAIL_END};
use machine::{Refused, State};
use refusals::Refusal;

// Judges the blocks, from the first on.
fn check_blocks(image: &[u8; IMAGE_SIZE]) -> Result<(), Refusal>
    ensures { Calls.fault_of result ≡ Calls.first_fault image.now Image.block_count 0 }
{
    for i in 0..BLOCKS {
        image_blocks::check_block(image, i)?;
    }
    Ok(())
}

// Whether all filler is 0: the rest of block 0, and what the last block has after the memory's last byte.
fn filler_clear(image: &[u8; IMAGE_SIZE]) -> bool
    ensures { result ≡ Image.zeros (Image.filler_of image.now) }
{
    let rest = image_blocks::rest(image);
    image_blocks::zeros(&image[rest..CHECK]) && image_blocks::zeros(&image[TAIL..TAIL_END])
}

// Whether this edition is read: 1 or 2. (A number, as the file has it: every other is refused.)
fn known_edition(edition: u16) -> bool
    ensures { result ≡ Calls.known_edition edition }
{
    matches!(edition, image_blocks::FIRST_EDITION | image_blocks::EDITION)
}

// Judges block 0's content and the filler.
#[tactic(auto, unfolding(crate::specs::Calls::content_fault, refusals::specs::Refusals::number_of, refusals::specs::Refusals::block_of, refusals::specs::Refusals::number, refusals::specs::Refusals::block))]
fn check_content(image: &[u8; IMAGE_SIZE]) -> Result<(), Refusal>
    ensures { Calls.fault_of result ≡ Calls.fault (Calls.content_fault image.now) }
{
    if image_blocks::field(image, 0) != image_blocks::FORMAT {
        return Err(Refusal::Format);
    }
    if !known_edition(image_blocks::field(image, 1)) {
        return Err(Refusal::Format);
    }
    if !image_blocks::state_of(image).well_formed() {
        return Err(Refusal::Content);
    }
    if !filler_clear(image) {
        return Err(Refusal::Content);
    }
    Ok(())
}

// An image that is in order by itself, as an array of its size.
#[tactic(auto, unfolding(crate::specs::Calls::image_fault, refusals::specs::Refusals::number_of, refusals::specs::Refusals::block_of, refusals::specs::Refusals::number, refusals::specs::Refusals::block))]
pub fn checked(image: &[u8]) -> Result<&[u8; IMAGE_SIZE], Refusal>
    ensures fault { Calls.fault_of result ≡ Calls.image_fault image.now }
    ensures bytes { IfOk result (λ whole. whole.now ≡ image.now) }
{
    let whole = image.as_array().ok_or(Refusal::ImageSize)?;
    check_blocks(whole)?;
    check_content(whole)?;
    Ok(whole)
}

// Fills memory from the blocks that carry it.
fn fill_memory(image: &[u8; IMAGE_SIZE], lent: &mut [u8; memory::SIZE])
    ensures { lent.new ≡ Image.memory_of image.now }
{
    for i in 0..LAST {
        let page = image_blocks::page_of(image, i);
        let from = CONTENT_SIZE * i;
        let to = from + page.len();
        lent[from..to].copy_from_slice(page);
    }
}

// A refused read: the state is blank.
fn unread(refusal: Refusal) -> Refused
    ensures { result ≡ Calls.unread refusal }
{
    Refused {
        refusal,
        state: State::blank(),
    }
}

// Reads an image: the state, and the memory into the lent bytes. A refusal leaves those.
pub fn read_image(image: &[u8], bytes: &mut [u8]) -> Result<State, Refused>
    ensures value { Calls.read_answer result ≡ (Calls.read image.now bytes.old).answer }
    ensures bytes_after { bytes.new ≡ (Calls.read image.now bytes.old).memory }
{
    let lent = bytes.as_mut_array().ok_or(unread(Refusal::MemorySize))?;
    let whole = checked(image).map_err(unread)?;
    fill_memory(whole, lent);
    Ok(image_blocks::state_of(whole))
}

// Fills the buffer, block by block.
fn fill_image(state: State, lent: &[u8; memory::SIZE], image: &mut [u8; IMAGE_SIZE])
    ensures { image.new ≡ Image.image state lent.now }
{
    for i in 0..BLOCKS {
        let block = image_blocks::block(state, lent, i);
        let from = BLOCK_SIZE * i;
        let to = from + BLOCK_SIZE;
        image[from..to].copy_from_slice(&block);
    }
}

// Writes an image of the state and the lent memory. It gives the state back, accepted or refused; a refusal leaves the buffer.
pub fn write_image(state: State, bytes: &[u8], image: &mut [u8]) -> Result<State, Refused>
    ensures value { Calls.write_answer result ≡ (Calls.write state bytes.now image.old).answer }
    ensures image_after { image.new ≡ (Calls.write state bytes.now image.old).image }
{
    let refused = |refusal| Refused { refusal, state };
    let lent = bytes.as_array().ok_or(refused(Refusal::MemorySize))?;
    let buffer = image.as_mut_array().ok_or(refused(Refusal::ImageSize))?;
    if !state.well_formed() {
        return Err(refused(Refusal::State));
    }
    fill_image(state, lent, buffer);
    Ok(state)
}
