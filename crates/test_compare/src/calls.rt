// Calls of the comparison, and what came of them.
use comparison::{Compared, ComparisonRefused};
use differing_runs::PLACES;
use image_blocks::IMAGE_SIZE;
use seeds::{Sum, lines};

// What a comparison answers.
type Answer = Result<Compared, ComparisonRefused>;

// What comparing two images answered, and what it left in the first and the last places; the sums of all places, and of two calls more.
#[derive(Clone, Copy)]
pub struct Outcome {
    pub answer: Answer,
    pub ends: [u32; 4],
    pub listed: Sum,
    pub rest: Sum,
}

// Adds all places to the sum.
fn mix_places(sum: &mut Sum, places: &[u32; PLACES]) {
    for place in places {
        sum.mix(*place);
    }
}

// An answer's numbers: of a refusal, of its image and of its block, and the fields and runs; what it does not have is 0.
fn numbers(answer: Answer) -> [u32; 5] {
    match answer {
        Ok(compared) => [0, 0, 0, compared.fields, compared.runs],
        Err(refused) => [
            u32::from(refused.refusal().number()),
            u32::from(refused.image()),
            u32::from(refused.refusal().block()),
            0,
            0,
        ],
    }
}

// Adds an answer to the sum.
fn mix_answer(sum: &mut Sum, answer: Answer) {
    for number in numbers(answer) {
        sum.mix(number);
    }
}

// Adds what a call answers and leaves to the sum.
fn mix_call(sum: &mut Sum, first: &[u8], second: &[u8], places: &mut [u32; PLACES]) {
    let answer = comparison::compare_images(first, second, places);
    mix_answer(sum, answer);
    mix_places(sum, places);
}

// Compares two images, then them the other way round, and the first with itself.
pub fn compare(
    first: &[u8; IMAGE_SIZE],
    second: &[u8; IMAGE_SIZE],
    places: &mut [u32; PLACES],
) -> Outcome {
    let answer = comparison::compare_images(first, second, places);
    let ends = [places[0], places[1], places[PLACES - 2], places[PLACES - 1]];
    let mut listed = Sum::ZERO;
    mix_places(&mut listed, places);
    let mut rest = Sum::ZERO;
    mix_call(&mut rest, second, first, places);
    mix_call(&mut rest, first, first, places);
    Outcome {
        answer,
        ends,
        listed,
        rest,
    }
}

// Prints the numbers of an answer.
fn show_answer(rt: &impl Print, answer: Answer) {
    for number in numbers(answer) {
        lines::number(rt, number);
    }
}

impl Outcome {
    // Adds it to the sum.
    pub fn mix_into(&self, sum: &mut Sum) {
        mix_answer(sum, self.answer);
        for end in self.ends {
            sum.mix(end);
        }
        sum.mix(self.listed);
        sum.mix(self.rest);
    }

    // A line with it.
    pub fn show(&self, rt: &impl Print) {
        show_answer(rt, self.answer);
        for end in self.ends {
            lines::number(rt, end);
        }
        lines::sum(rt, self.listed);
        lines::last(rt, self.rest);
    }
}

// A line with one call's answer, and the sum of the places.
pub fn show_call(rt: &impl Print, first: &[u8], second: &[u8], places: &mut [u32; PLACES]) {
    let answer = comparison::compare_images(first, second, places);
    show_answer(rt, answer);
    let mut listed = Sum::ZERO;
    mix_places(&mut listed, places);
    lines::last(rt, listed);
}
