// What differs between two images: the fields of block 0, and the runs of differing bytes of their memories.
#![tactic(auto)]

ghost use Rattle.std.specs.Prelude.{◌≡◌, ◌<◌, [], length};
ghost use Rattle.differing_runs.specs.Runs as Runs;
ghost use Rattle.image_blocks.specs.Image as Image;
ghost use Rattle.comparison.specs.Compare as Compare;

use differing_runs::{Found, PLACES};
use image_blocks::{FIELDS, IMAGE_SIZE, LAST, ROM_FIELD};
use refusals::Refusal;

// Which fields of block 0 differ (weight 2^k for field k, as C has them), and how many runs of bytes.
#[derive(Clone, Copy, Debug, PartialEq, Eq)]
pub struct Compared {
    pub fields: u32,
    pub runs: u32,
}

// Which image is refused, and why.
#[derive(Clone, Copy, Debug, PartialEq, Eq)]
pub enum ComparisonRefused {
    First(Refusal),
    Second(Refusal),
}

impl ComparisonRefused {
    // The image that is refused: 1 or 2.
    #[tactic(auto, unfolding(crate::specs::Compare::image_refused))]
    pub fn image(self) -> u16
        ensures { result ≡ Compare.image_refused self }
    {
        match self {
            ComparisonRefused::First(_) => 1,
            ComparisonRefused::Second(_) => 2,
        }
    }

    // Why it is refused.
    #[tactic(auto, unfolding(crate::specs::Compare::refusal))]
    pub fn refusal(self) -> Refusal
        ensures { result ≡ Compare.refusal self }
    {
        match self {
            ComparisonRefused::First(refusal) | ComparisonRefused::Second(refusal) => refusal,
        }
    }
}

// Field `k` as it is compared: edition 1 counts as having 16384, which means none, as its read-only address.
#[tactic(auto, unfolding(crate::specs::Compare::field))]
fn field(image: &[u8; IMAGE_SIZE], k: usize) -> u32
    requires { k < Image.field_count }
    ensures { result ≡ Compare.field image.now k }
{
    if k == ROM_FIELD {
        image_blocks::rom_of(image)
    } else {
        u32::from(image_blocks::field(image, k))
    }
}

// Weight 2^k for each field k that differs; the last is taken first.
fn fields(first: &[u8; IMAGE_SIZE], second: &[u8; IMAGE_SIZE]) -> u32
    ensures { result ≡ Compare.fields first.now second.now }
{
    let mut weights: u32 = 0;
    for k in (0..FIELDS).rev() {
        let differ = field(first, k) != field(second, k);
        weights = 2 * weights + u32::from(differ);
    }
    weights
}

// Lists the runs of the bytes that blocks 1 to 33 carry, and counts them.
fn runs(first: &[u8; IMAGE_SIZE], second: &[u8; IMAGE_SIZE], list: &mut [u32; PLACES]) -> u32
    requires { list.old ≡ Runs.places [] }
    ensures value { result ≡ length (Compare.runs first.now second.now) }
    ensures list_after { list.new ≡ Runs.places (Compare.runs first.now second.now) }
{
    let mut found = Found::nothing();
    for i in 0..LAST {
        let one = image_blocks::page_of(first, i);
        let other = image_blocks::page_of(second, i);
        found.scan(one, other, list);
    }
    found.runs() as u32
}

// Compares two images. The places get start and length of the first 256 runs, and zeros where there are fewer; on a refusal zeros.
pub fn compare_images(
    first: &[u8],
    second: &[u8],
    list: &mut [u32; PLACES],
) -> Result<Compared, ComparisonRefused>
    ensures value { Compare.compare_answer result ≡ (Compare.compare first.now second.now).answer }
    ensures list_after { list.new ≡ (Compare.compare first.now second.now).list }
{
    *list = [0; PLACES];
    let one = image::checked(first).map_err(ComparisonRefused::First)?;
    let two = image::checked(second).map_err(ComparisonRefused::Second)?;
    Ok(Compared {
        fields: fields(one, two),
        runs: runs(one, two, list),
    })
}
