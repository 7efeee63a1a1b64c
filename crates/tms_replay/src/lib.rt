// The public calls: power up, run, read an image, write an image, list an instruction, compare two images. Module `exported` has them for C,
// Fortran and Rust. (Functions, and not names brought in: their contracts stand here together, and must-fail edits change each.)
#![tactic(auto)]

ghost use Rattle.std.specs.Prelude.{◌≡◌};
ghost use Rattle.machine.specs.Run as Run;
ghost use Rattle.image.specs.Calls as Calls;
ghost use Rattle.listing.specs.Listing as Listing;
ghost use Rattle.comparison.specs.Compare as Compare;

use comparison::{Compared, ComparisonRefused};
use differing_runs::PLACES;
use listing::Line;
use machine::{Ran, Refused, State};
use refusals::Refusal;

pub mod exported;

// The machine after power up.
pub fn power_up(bytes: &mut [u8]) -> Result<State, Refused>
    ensures value { Run.state_answer result ≡ (Run.power_up bytes.old).answer }
    ensures bytes_after { bytes.new ≡ (Run.power_up bytes.old).memory }
{
    replay_core::run::power_up(bytes)
}

// Runs at most `steps` steps, one record each, up to the stop address.
pub fn run(
    bytes: &mut [u8],
    state: State,
    records: &[u32],
    steps: usize,
    stop: u16,
) -> Result<Ran, Refused>
    ensures { Run.Promised bytes.old state records.now steps stop (Run.run_answer result) bytes.new }
{
    replay_core::run::run(bytes, state, records, steps, stop)
}

// Reads an image: the state, and the memory into the lent bytes.
pub fn read_image(image: &[u8], bytes: &mut [u8]) -> Result<State, Refused>
    ensures value { Calls.read_answer result ≡ (Calls.read image.now bytes.old).answer }
    ensures bytes_after { bytes.new ≡ (Calls.read image.now bytes.old).memory }
{
    image::read_image(image, bytes)
}

// Writes an image of the state and the lent memory.
pub fn write_image(state: State, bytes: &[u8], image: &mut [u8]) -> Result<State, Refused>
    ensures value { Calls.write_answer result ≡ (Calls.write state bytes.now image.old).answer }
    ensures image_after { image.new ≡ (Calls.write state bytes.now image.old).image }
{
    image::write_image(state, bytes, image)
}

// Writes the line of the instruction at an address into the lent buffer.
pub fn list(bytes: &[u8], address: u16, text: &mut [u8]) -> Result<Line, Refusal>
    ensures value { Listing.list_answer result ≡ (Listing.list bytes.now address text.old).answer }
    ensures text_after { text.new ≡ (Listing.list bytes.now address text.old).text }
{
    listing::list(bytes, address, text)
}

// Compares two images: which fields of block 0 differ, and which runs of bytes, the first 256 of them into the lent places.
pub fn compare_images(
    first: &[u8],
    second: &[u8],
    runs: &mut [u32; PLACES],
) -> Result<Compared, ComparisonRefused>
    ensures value { Compare.compare_answer result ≡ (Compare.compare first.now second.now).answer }
    ensures runs_after { runs.new ≡ (Compare.compare first.now second.now).list }
{
    comparison::compare_images(first, second, runs)
}
