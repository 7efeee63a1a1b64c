// The calls for C, Fortran and Rust, on arrays of words; `tms_replay_c` exports them: there a slice is a pointer and a length, an array or
// a number behind a reference a pointer. `include/tms_replay.h` declares them.
ghost use Rattle.std.specs.Prelude.{◌≡◌};
ghost use Rattle.tms_replay.specs.Exported as Exported;

use differing_runs::PLACES;
use state_array::{STATE_WORDS, state_of, words_of};

// A run's counts: the steps done, how many of them met an unassigned word, and two numbers for what the last one answered.
pub const COUNTS: usize = 4;

// The answer about a line: its length, and how many words its instruction takes.
pub const LINE_ANSWER: usize = 2;

// The answer about two images: the image and the block that a refusal names, which fields differ, how many runs of bytes.
pub const COMPARE_ANSWER: usize = 4;

// Power up on the lent memory.
#[tactic(auto, unfolding(crate::specs::Exported::power_up, machine::specs::Run::state_answer))]
pub fn tms_power_up(memory: &mut [u8], state: &mut [u32; STATE_WORDS]) -> u16
    ensures value { result ≡ (Exported.power_up memory.old).number }
    ensures memory_after { memory.new ≡ (Exported.power_up memory.old).memory }
    ensures state_after { state.new ≡ (Exported.power_up memory.old).state }
{
    match super::power_up(memory) {
        Ok(after) => {
            *state = words_of(after);
            0
        }
        Err(refused) => {
            *state = words_of(refused.state);
            refused.refusal.number()
        }
    }
}

// Runs at most `steps` steps, one record each, up to the stop address.
#[tactic(auto, unfolding(crate::specs::Exported::run, machine::specs::Run::run_answer))]
pub fn tms_run(
    memory: &mut [u8],
    state: &mut [u32; STATE_WORDS],
    records: &[u32],
    steps: usize,
    stop: u16,
    counts: &mut [u64; COUNTS],
) -> u16
    ensures { Exported.Promised memory.old state.old records.now steps stop result memory.new state.new counts.new }
{
    match super::run(memory, state_of(*state), records, steps, stop) {
        Ok(ran) => {
            *counts = [
                ran.steps as u64,
                ran.unassigned as u64,
                step_answers::number(ran.last) as u64,
                step_answers::value(ran.last) as u64,
            ];
            *state = words_of(ran.state);
            0
        }
        Err(refused) => {
            *counts = [0; COUNTS];
            refused.refusal.number()
        }
    }
}

// Reads an image into the lent memory and the state's words.
#[tactic(auto, unfolding(crate::specs::Exported::read, image::specs::Calls::read_answer))]
pub fn tms_read_image(
    image: &[u8],
    memory: &mut [u8],
    state: &mut [u32; STATE_WORDS],
    block: &mut u32,
) -> u16
    ensures value { result ≡ (Exported.read image.now memory.old).number }
    ensures memory_after { memory.new ≡ (Exported.read image.now memory.old).memory }
    ensures state_after { state.new ≡ (Exported.read image.now memory.old).state }
    ensures block_after { block.new ≡ (Exported.read image.now memory.old).block }
{
    match super::read_image(image, memory) {
        Ok(after) => {
            *state = words_of(after);
            *block = 0;
            0
        }
        Err(refused) => {
            *state = words_of(refused.state);
            *block = refused.refusal.block() as u32;
            refused.refusal.number()
        }
    }
}

// Writes an image of the state's words and the lent memory.
#[tactic(auto, unfolding(crate::specs::Exported::write, image::specs::Calls::write_answer))]
pub fn tms_write_image(state: &[u32; STATE_WORDS], memory: &[u8], image: &mut [u8]) -> u16
    ensures value { result ≡ (Exported.write state.now memory.now image.old).number }
    ensures image_after { image.new ≡ (Exported.write state.now memory.now image.old).image }
{
    match super::write_image(state_of(*state), memory, image) {
        Ok(_) => 0,
        Err(refused) => refused.refusal.number(),
    }
}

// Writes the line of the instruction at an address into the lent buffer.
#[tactic(auto, using(listing::proofs::Longest::answer_short), unfolding(crate::specs::Exported::list, listing::specs::Listing::list_answer))]
pub fn tms_list(
    memory: &[u8],
    address: u16,
    text: &mut [u8],
    answer: &mut [u32; LINE_ANSWER],
) -> u16
    ensures value { result ≡ (Exported.list memory.now address text.old).number }
    ensures text_after { text.new ≡ (Exported.list memory.now address text.old).text }
    ensures answer_after { answer.new ≡ (Exported.list memory.now address text.old).answer }
{
    match super::list(memory, address, text) {
        Ok(line) => {
            *answer = [line.length as u32, line.words as u32];
            0
        }
        Err(refusal) => {
            *answer = [0; LINE_ANSWER];
            refusal.number()
        }
    }
}

// Compares two images; `runs` gets start and length of the first 256 runs of differing bytes.
#[tactic(auto, unfolding(crate::specs::Exported::compare, comparison::specs::Compare::compare_answer))]
pub fn tms_compare_images(
    first: &[u8],
    second: &[u8],
    answer: &mut [u32; COMPARE_ANSWER],
    runs: &mut [u32; PLACES],
) -> u16
    ensures value { result ≡ (Exported.compare first.now second.now).number }
    ensures answer_after { answer.new ≡ (Exported.compare first.now second.now).answer }
    ensures runs_after { runs.new ≡ (Exported.compare first.now second.now).list }
{
    match super::compare_images(first, second, runs) {
        Ok(compared) => {
            *answer = [0, 0, compared.fields, compared.runs];
            0
        }
        Err(refused) => {
            let refusal = refused.refusal();
            *answer = [refused.image() as u32, refusal.block() as u32, 0, 0];
            refusal.number()
        }
    }
}
