// The replay on bytes: what the program does between reading its files and writing its output.
#![tactic(auto)]

ghost use Rattle.std.specs.Prelude.{◌≡◌, length};
ghost use Rattle.io.specs.Counts.{IsPrefixLen};
ghost use Rattle.machine.specs.Run as Run;
ghost use Rattle.text.specs.Texts as Texts;
ghost use Rattle.replay_files.specs.Pins as Pins;
ghost use Rattle.replay_call.specs.Replay as Replay;

use image_blocks::IMAGE_SIZE;
use machine::{Ran, Refused, State};
use replay_files::{line, pins};
use text::Text;

// The number and the line. A number, as the contract of `replay` names no block.
#[derive(Clone, Copy)]
pub struct Replayed {
    pub number: u16,
    pub text: Text,
}

// Runs on the records of the pin file, which are put into one array. (An array that `pins::records` answers takes the stack three times.)
fn run_on(state: State, file: &[u8], lent: &mut [u8; memory::SIZE]) -> Result<Ran, Refused>
    ensures { Run.Promised lent.old state (Pins.records file.now) (length (Pins.records file.now)) (Pins.stop file.now) (Run.run_answer result) lent.new }
{
    let mut records = [0u32; pins::MOST];
    pins::put_records(file, &mut records);
    let n = pins::record_count(file);
    tms_replay::run(lent, state, &records[..n], n, pins::stop(file))
}

// Reads the image, runs on the records of the pin file, and leaves the image after. A refusal leaves the lent bytes as they were.
fn run_between(image: &[u8], file: &[u8], after: &mut [u8; IMAGE_SIZE]) -> Result<Ran, Refused>
    ensures { Replay.told (Run.run_answer result) after.new ≡ Replay.replay image.now file.now after.old }
{
    let mut lent = [0u8; memory::SIZE];
    let start = tms_replay::read_image(image, &mut lent)?;
    let ran = run_on(start, file, &mut lent)?;
    tms_replay::write_image(ran.state, &lent, after)?;
    Ok(ran)
}

// The number of an outcome, and what the line tells of it: a refusal's state, and no step.
#[tactic(auto, unfolding(machine::specs::Run::run_answer))]
fn numbered(outcome: Result<Ran, Refused>) -> (u16, Ran)
    ensures number { result.0 ≡ (Run.run_answer outcome).number }
    ensures state { result.1.state ≡ (Run.run_answer outcome).state }
    ensures steps { result.1.steps ≡ (Run.run_answer outcome).steps }
    ensures unassigned { result.1.unassigned ≡ (Run.run_answer outcome).unassigned }
    ensures last { result.1.last ≡ (Run.run_answer outcome).last }
{
    match outcome {
        Ok(done) => (0, done),
        Err(refused) => (refused.refusal.number(), Ran::at_once(refused.state)),
    }
}

// Replays the image on the pin file, and leaves the image after.
pub fn replay(image: &[u8], file: &[u8], after: &mut [u8; IMAGE_SIZE]) -> Replayed
    ensures number_value { result.number ≡ (Replay.replay image.now file.now after.old).number }
    ensures prefix_len { IsPrefixLen result.text.length result.text.bytes }
    ensures text_value { result.text ≡ Texts.appended Texts.empty (Replay.replay image.now file.now after.old).line }
    ensures after_after { after.new ≡ (Replay.replay image.now file.now after.old).image }
{
    let (number, ran) = numbered(run_between(image, file, after));
    Replayed {
        number,
        text: line::line(number, &ran),
    }
}
