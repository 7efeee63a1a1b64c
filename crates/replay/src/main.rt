// `replay IMAGE PINS OUT`: reads an image and a pin file, runs, writes the image after, and prints one line.
#![tactic(auto)]

mod failure;
mod files;
mod output;
mod system;

use failure::Failure;
use replay_files::pins;
use std::env::Env;
use std::fs::Files;

// A byte more than an image is enough to see that a file is too long.
const IMAGE_BUFFER: usize = image_blocks::IMAGE_SIZE + 1;

// The stop address and all the records that are taken.
const PINS_BUFFER: usize = 4 * (1 + pins::MOST);

// As many bytes as hold any path.
const PATH: usize = 4096;

// Runs, writes the image after, if there is one, and then prints the line. (A function of its own, so that reading the files needs no more of
// the stack than their buffers.)
fn replay<'a>(
    rt: &(impl Files + Print + Eprint),
    before: &[u8],
    file: &[u8],
    out: &'a [u8],
) -> Result<(), Failure<'a>> {
    let mut after = [0u8; image_blocks::IMAGE_SIZE];
    let done = replay_call::replay(before, file, &mut after);
    if done.number == 0 {
        output::replace(rt, out, &after)?;
    }
    rt.write_all(done.text.as_bytes())
        .map_err(|e| Failure::Of(b"standard output", e))
}

// Reads both files, and replays.
fn replay_files<'a>(
    rt: &(impl Files + Print + Eprint),
    image: &'a [u8],
    pins: &'a [u8],
    out: &'a [u8],
) -> Result<(), Failure<'a>> {
    let mut image_buffer = [0u8; IMAGE_BUFFER];
    let before = files::load(rt, image, &mut image_buffer).map_err(|e| Failure::Of(image, e))?;
    let mut pins_buffer = [0u8; PINS_BUFFER];
    let file = files::load(rt, pins, &mut pins_buffer).map_err(|e| Failure::Of(pins, e))?;
    replay(rt, before, file, out)
}

// Argument `i`, in the buffer; messages name it `name`.
fn argument<'a>(
    rt: &impl Env,
    i: usize,
    name: &'a [u8],
    buffer: &'a mut [u8],
) -> Result<&'a [u8], Failure<'a>> {
    system::arg(rt, i, buffer).map_err(|e| Failure::Of(name, e))
}

// The program on its arguments, which the buffers hold.
fn run<'a>(
    rt: &(impl Env + Files + Print + Eprint),
    image: &'a mut [u8; PATH],
    pins: &'a mut [u8; PATH],
    out: &'a mut [u8; PATH],
) -> Result<(), Failure<'a>> {
    if !system::has_arg(rt, 3) || system::has_arg(rt, 4) {
        return Err(Failure::Usage);
    }
    let image = argument(rt, 1, b"IMAGE", image)?;
    let pins = argument(rt, 2, b"PINS", pins)?;
    let out = argument(rt, 3, b"OUT", out)?;
    replay_files(rt, image, pins, out)
}

fn main(rt: HostRuntime) {
    let mut image = [0u8; PATH];
    let mut pins = [0u8; PATH];
    let mut out = [0u8; PATH];
    if let Err(failure) = run(&rt, &mut image, &mut pins, &mut out) {
        failure.tell(&rt);
    }
}
