// The functions of `include/tms_replay.h`: each is the call of that name of `tms_replay`, with the same clauses. (A static library's
// exports stand in its own crate, which no other can use.)
#![tactic(auto)]

ghost use Rattle.std.specs.Prelude.{◌≡◌};
ghost use Rattle.tms_replay.specs.Exported as Exported;

use differing_runs::PLACES;
use state_array::STATE_WORDS;
use tms_replay::exported;
use tms_replay::exported::{COMPARE_ANSWER, COUNTS, LINE_ANSWER};

// Power up on the lent memory.
#[unsafe(no_mangle)]
pub extern "C" fn tms_power_up(memory: &mut [u8], state: &mut [u32; STATE_WORDS]) -> u16
    ensures value { result ≡ (Exported.power_up memory.old).number }
    ensures memory_after { memory.new ≡ (Exported.power_up memory.old).memory }
    ensures state_after { state.new ≡ (Exported.power_up memory.old).state }
{
    exported::tms_power_up(memory, state)
}

// Runs at most `steps` steps, one record each, up to the stop address.
#[unsafe(no_mangle)]
pub extern "C" fn tms_run(
    memory: &mut [u8],
    state: &mut [u32; STATE_WORDS],
    records: &[u32],
    steps: usize,
    stop: u16,
    counts: &mut [u64; COUNTS],
) -> u16
    ensures { Exported.Promised memory.old state.old records.now steps stop result memory.new state.new counts.new }
{
    exported::tms_run(memory, state, records, steps, stop, counts)
}

// Reads an image into the lent memory and the state's words.
#[unsafe(no_mangle)]
pub extern "C" fn tms_read_image(
    image: &[u8],
    memory: &mut [u8],
    state: &mut [u32; STATE_WORDS],
    block: &mut u32,
) -> u16
    ensures value { result ≡ (Exported.read image.now memory.old).number }
    ensures memory_after { memory.new ≡ (Exported.read image.now memory.old).memory }
    ensures state_after { state.new ≡ (Exported.read image.now memory.old).state }
    ensures block_after { block.new ≡ (Exported.read image.now memory.old).block }
{
    exported::tms_read_image(image, memory, state, block)
}

// Writes an image of the state's words and the lent memory.
#[unsafe(no_mangle)]
pub extern "C" fn tms_write_image(
    state: &[u32; STATE_WORDS],
    memory: &[u8],
    image: &mut [u8],
) -> u16
    ensures value { result ≡ (Exported.write state.now memory.now image.old).number }
    ensures image_after { image.new ≡ (Exported.write state.now memory.now image.old).image }
{
    exported::tms_write_image(state, memory, image)
}

// Writes the line of the instruction at an address into the lent buffer.
#[unsafe(no_mangle)]
pub extern "C" fn tms_list(
    memory: &[u8],
    address: u16,
    text: &mut [u8],
    answer: &mut [u32; LINE_ANSWER],
) -> u16
    ensures value { result ≡ (Exported.list memory.now address text.old).number }
    ensures text_after { text.new ≡ (Exported.list memory.now address text.old).text }
    ensures answer_after { answer.new ≡ (Exported.list memory.now address text.old).answer }
{
    exported::tms_list(memory, address, text, answer)
}

// Compares two images; `runs` gets start and length of the first 256 runs of differing bytes.
#[unsafe(no_mangle)]
pub extern "C" fn tms_compare_images(
    first: &[u8],
    second: &[u8],
    answer: &mut [u32; COMPARE_ANSWER],
    runs: &mut [u32; PLACES],
) -> u16
    ensures value { result ≡ (Exported.compare first.now second.now).number }
    ensures answer_after { answer.new ≡ (Exported.compare first.now second.now).answer }
    ensures runs_after { runs.new ≡ (Exported.compare first.now second.now).list }
{
    exported::tms_compare_images(first, second, answer, runs)
}
