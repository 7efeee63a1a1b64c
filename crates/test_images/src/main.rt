// Images written, made ones of edition 1 or not, damaged, read, and written again, with lent parts of the right and of wrong lengths; sums
// of what came of it.
#![tactic(auto)]

ghost use Rattle.std.specs.Prelude.{◌<◌, ◌≤◌};

use image_blocks::IMAGE_SIZE;
use image_seeds::damage;
use image_seeds::damage::Case;
use machine::{Refused, State};
use seeds::{Seed, Sum, lines, spoiled};

// Lines of the second part of the output, and cases of one of them.
const LINES: u32 = 128;

const CASES: u32 = 20;

// The sizes of the memory and of an image.
const MEMORY: u16 = memory::SIZE as u16;

const IMAGE: u16 = IMAGE_SIZE as u16;

// One byte more.
const LONG_MEMORY: usize = memory::SIZE + 1;

const LONG_IMAGE: usize = IMAGE_SIZE + 1;

// Idle and no-sample together: not well formed.
const BOTH_FLAGS: u16 = (1 << State::IDLE) + (1 << State::NO_SAMPLE);

// A memory, an image, another that is written again, and the generator of all that is drawn.
#[derive(Drop)]
struct Bench {
    bytes: [u8; memory::SIZE],
    image: [u8; IMAGE_SIZE],
    again: [u8; IMAGE_SIZE],
    seed: Seed,
}

// What a call answers: the state that was read or written, or a refusal.
type Answer = Result<State, Refused>;

// What reading the image answered, and the sums of all answers of the case, of the memory and of the image.
#[derive(Drop)]
struct Outcome {
    read: Answer,
    answers: Sum,
    memory: Sum,
    image: Sum,
}

// The length of a part: the whole, or less.
fn size(seed: &mut Seed, whole: u16) -> usize
    requires { 0 < whole }
    ensures { result ≤ whole }
{
    let less = seed.below(whole);
    let size = if seed.once_in(2) { less } else { whole };
    size as usize
}

// A state, well formed or not.
fn any_state(seed: &mut Seed, state: State) -> State {
    let way = seed.below(2 * spoiled::WAYS);
    if way < spoiled::WAYS {
        seed.spoiled(state, way)
    } else {
        state
    }
}

// The numbers of a call's refusal and of its block; zeros where it is accepted.
fn numbers(answer: &Answer) -> [u16; 2] {
    match answer {
        Ok(_) => [0, 0],
        Err(refused) => [refused.refusal.number(), refused.refusal.block()],
    }
}

// The state that a call answers, refused or not.
fn state_of(answer: Answer) -> State {
    answer.unwrap_or_else(|refused| refused.state)
}

// Adds what a write answers to the sum.
fn mix_written(sum: &mut Sum, answer: Answer) {
    let [number, _] = numbers(&answer);
    sum.mix(number);
    sum.mix_state(state_of(answer));
}

// Adds what a read answers to the sum.
fn mix_read(sum: &mut Sum, answer: Answer) {
    for number in numbers(&answer) {
        sum.mix(number);
    }
    sum.mix_state(state_of(answer));
}

// Writes an image; answers the state that was written.
fn write(state: State, bytes: &[u8], image: &mut [u8]) -> Answer {
    image::write_image(state, bytes, image)
}

// Writes from a part of the memory into a part of the image.
fn write_parts(
    bytes: &[u8; memory::SIZE],
    image: &mut [u8; IMAGE_SIZE],
    seed: &mut Seed,
    state: State,
) -> Answer {
    let given = any_state(seed, state);
    let from = size(seed, MEMORY);
    let to = size(seed, IMAGE);
    write(given, &bytes[..from], &mut image[..to])
}

// Reads from a part of the image into a part of the memory.
fn read_parts(image: &[u8; IMAGE_SIZE], bytes: &mut [u8; memory::SIZE], seed: &mut Seed) -> Answer {
    let from = size(seed, IMAGE);
    let to = size(seed, MEMORY);
    image::read_image(&image[..from], &mut bytes[..to])
}

impl Outcome {
    // Adds it to the sum.
    fn mix_into(&self, sum: &mut Sum) {
        for number in numbers(&self.read) {
            sum.mix(number);
        }
        sum.mix(self.answers);
        sum.mix(self.memory);
        sum.mix(self.image);
    }
}

impl Bench {
    // Writes between parts, and then the whole image.
    fn write(&mut self, state: State, sum: &mut Sum) {
        let parts = write_parts(&self.bytes, &mut self.image, &mut self.seed, state);
        mix_written(sum, parts);
        let whole = write(state, &self.bytes, &mut self.image);
        mix_written(sum, whole);
    }

    // Where the state has both flags and no image of it was written: adds to the sum what is left in the image, which becomes one without
    // flags, and then the state's words are put into it.
    fn put_unwritten(&mut self, state: State, sum: &mut Sum) {
        if state.flags != BOTH_FLAGS {
            return;
        }
        sum.mix_bytes(&self.image);
        let plain = State { flags: 0, ..state };
        // The state is well formed without its flags, so it is written.
        let _ = write(plain, &self.bytes, &mut self.image);
        damage::put_state(&mut self.image, state, image_blocks::EDITION);
    }

    // Makes the image of a state and of any bytes, one of the case's edition, and damages it.
    fn prepare(&mut self, case: Case, sum: &mut Sum) {
        self.seed.fill(&mut self.bytes);
        let state = image_seeds::read_only_state(&mut self.seed, 4);
        self.write(state, sum);
        self.put_unwritten(state, sum);
        damage::put_edition(&mut self.image, case.edition);
        case.damage(&mut self.image, &mut self.seed, state);
    }

    // Writes again what was read of an accepted image.
    fn write_again(&mut self, state: State, sum: &mut Sum) {
        let answer = write(state, &self.bytes, &mut self.again);
        mix_written(sum, answer);
        sum.mix_bytes(&self.again);
    }

    // One case: an image written, damaged, and read into other bytes, between parts and then whole, and written again.
    fn one(&mut self, case: Case) -> Outcome {
        let mut answers = Sum::ZERO;
        self.prepare(case, &mut answers);
        self.seed.fill(&mut self.bytes);
        let parts = read_parts(&self.image, &mut self.bytes, &mut self.seed);
        mix_read(&mut answers, parts);
        answers.mix_bytes(&self.bytes);
        let read = image::read_image(&self.image, &mut self.bytes);
        answers.mix_state(state_of(read));
        if let Ok(state) = read {
            self.write_again(state, &mut answers);
        }
        Outcome {
            read,
            answers,
            memory: Sum::of_bytes(&self.bytes),
            image: Sum::of_bytes(&self.image),
        }
    }

    // A case shown by itself.
    fn show(&mut self, rt: &impl Print, case: Case) {
        let outcome = self.one(case);
        let [number, block] = numbers(&outcome.read);
        lines::number(rt, case.kind);
        lines::number(rt, case.edition);
        lines::number(rt, number);
        lines::number(rt, block);
        lines::sum(rt, outcome.answers);
        lines::sum(rt, outcome.memory);
        lines::last(rt, outcome.image);
    }

    // Any case; of the kinds about half are none.
    fn any_case(&mut self) -> Case {
        Case {
            edition: image_seeds::any_edition(&mut self.seed),
            kind: self.seed.below(2 * damage::KINDS),
            place: self.seed.below(damage::PLACES),
        }
    }

    // A line: some cases, how many were accepted, and the sum.
    fn line(&mut self, rt: &impl Print) {
        let mut accepted = 0u64;
        let mut sum = Sum::ZERO;
        for _ in 0..CASES {
            let case = self.any_case();
            let outcome = self.one(case);
            outcome.mix_into(&mut sum);
            if outcome.read.is_ok() {
                accepted = accepted.wrapping_add(1);
            }
        }
        lines::number(rt, accepted);
        lines::last(rt, sum);
    }
}

// What writes answer with a memory, and with an image, that has one byte too many.
fn write_longer(bytes: &[u8; LONG_MEMORY], image: &mut [u8; LONG_IMAGE]) -> [Answer; 2] {
    let state = State::blank();
    let memory = write(state, bytes, &mut image[..IMAGE_SIZE]);
    let whole = write(state, &bytes[..memory::SIZE], image);
    [memory, whole]
}

// The same of reads.
fn read_longer(image: &[u8; LONG_IMAGE], bytes: &mut [u8; LONG_MEMORY]) -> [Answer; 2] {
    let memory = image::read_image(&image[..IMAGE_SIZE], bytes);
    let whole = image::read_image(image, &mut bytes[..memory::SIZE]);
    [memory, whole]
}

// Shows the number of a call's refusal.
fn show_number(rt: &impl Print, answer: Answer) {
    let [number, _] = numbers(&answer);
    lines::number(rt, number);
}

// The four calls, and the bytes, which they leave.
fn show_longer(rt: &impl Print) {
    let mut bytes = [0; LONG_MEMORY];
    let mut image = [0; LONG_IMAGE];
    for answer in write_longer(&bytes, &mut image) {
        show_number(rt, answer);
    }
    for answer in read_longer(&image, &mut bytes) {
        show_number(rt, answer);
    }
    lines::sum(rt, Sum::of_bytes(&bytes));
    lines::last(rt, Sum::of_bytes(&image));
}

// Every kind of damage in every class of places in either edition, and then many cases.
fn all(rt: &impl Print) {
    show_longer(rt);
    let mut bench = Bench {
        bytes: [0; memory::SIZE],
        image: [0; IMAGE_SIZE],
        again: [0; IMAGE_SIZE],
        seed: Seed::new(17408),
    };
    for kind in 0..damage::KINDS {
        for place in 0..damage::PLACES {
            for edition in [image_blocks::FIRST_EDITION, image_blocks::EDITION] {
                let case = Case {
                    edition,
                    kind,
                    place,
                };
                bench.show(rt, case);
            }
        }
    }
    for _ in 0..LINES {
        bench.line(rt);
    }
}

fn main(rt: HostRuntime) {
    all(&rt);
}
