// What pairs of images are made from.
use super::patterns::Pattern;
use image_seeds::damage;
use image_seeds::damage::Case;
use seeds::Seed;

// What makes two images differ: the bytes of the memory, the fields (weight 2^k for field k), and editions and damage of each; and whether
// nothing is read-only in their base.
#[derive(Clone, Copy)]
pub struct Pair {
    pub pattern: Pattern,
    pub mask: u16,
    pub first: Case,
    pub second: Case,
    pub no_rom: bool,
}

// Which of two images are damaged.
#[derive(Clone, Copy)]
pub enum Damaged {
    First,
    Second,
    Both,
}

// An image that is not damaged.
fn whole(edition: u16) -> Case {
    Case {
        edition,
        kind: damage::NONE,
        place: 0,
    }
}

// A mask of any fields, or of none.
fn any_mask(seed: &mut Seed) -> u16 {
    let mask = seed.word();
    if seed.once_in(2) { 0 } else { mask }
}

impl Pair {
    // Two images of these editions that are not damaged.
    pub fn whole(pattern: Pattern, mask: u16, first: u16, second: u16) -> Self {
        Pair {
            pattern,
            mask,
            first: whole(first),
            second: whole(second),
            no_rom: false,
        }
    }

    // Two that differ in the edition at most.
    pub fn of_editions(first: u16, second: u16) -> Self {
        let mut pair = Pair::whole(Pattern::NOTHING, 0, first, second);
        pair.no_rom = true;
        pair
    }

    // Any two, of which the first has this kind of damage and the second none.
    pub fn first_damaged(seed: &mut Seed, kind: u16) -> Self {
        let pattern = Pattern::any(seed);
        let mask = seed.word();
        let edition = image_seeds::any_edition(seed);
        let first = Case {
            edition,
            kind,
            place: 0,
        };
        Pair {
            pattern,
            mask,
            first,
            second: whole(image_seeds::any_edition(seed)),
            no_rom: false,
        }
    }

    // Two images, of which some are of this edition and damaged.
    pub fn damaged(seed: &mut Seed, kind: u16, which: Damaged, edition: u16) -> Self {
        let pattern = Pattern::any(seed);
        let mask = seed.word();
        let whole = whole(image_seeds::any_edition(seed));
        let first = Case {
            edition,
            kind,
            place: seed.below(damage::PLACES),
        };
        let second = Case {
            edition,
            kind,
            place: seed.below(damage::PLACES),
        };
        let (first, second) = match which {
            Damaged::First => (first, whole),
            Damaged::Second => (whole, second),
            Damaged::Both => (first, second),
        };
        Pair {
            pattern,
            mask,
            first,
            second,
            no_rom: false,
        }
    }

    // Any pair; about one image in four is damaged.
    pub fn any(seed: &mut Seed) -> Self {
        let pattern = Pattern::any(seed);
        let mask = any_mask(seed);
        let editions = [
            image_seeds::any_edition(seed),
            image_seeds::any_edition(seed),
        ];
        let kinds = [seed.below(4 * damage::KINDS), seed.below(4 * damage::KINDS)];
        let places = [seed.below(damage::PLACES), seed.below(damage::PLACES)];
        let case = |i: usize| Case {
            edition: editions[i],
            kind: kinds[i],
            place: places[i],
        };
        Pair {
            pattern,
            mask,
            first: case(0),
            second: case(1),
            no_rom: false,
        }
    }
}
