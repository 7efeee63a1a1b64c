// Patterns of changes, and memories changed by them.
use seeds::Seed;

#[derive(Clone, Copy)]
pub enum Pattern {
    // `count` runs of `length` bytes, one in every `period` bytes from `start` on.
    Runs {
        start: u16,
        length: u16,
        period: u16,
        count: u16,
    },
    // One byte in so many.
    Sparse(u16),
}

// The start, length, period and count of each pattern that is chosen.
pub const CHOSEN: [[u16; 4]; 28] = [
    [0, 0, 1, 0],
    [0, 1, 1, 1],
    [16383, 1, 1, 1],
    [0, 16384, 16384, 1],
    [0, 1, 2, 255],
    [0, 1, 2, 256],
    [0, 1, 2, 257],
    [0, 1, 2, 258],
    [1, 3, 5, 255],
    [1, 3, 5, 256],
    [1, 3, 5, 257],
    [1, 3, 5, 258],
    [0, 1, 2, 8192],
    [1, 1, 2, 8192],
    [507, 2, 508, 32],
    [506, 2, 508, 32],
    [508, 1, 508, 32],
    [506, 1, 2, 2],
    [507, 1, 2, 2],
    [500, 3000, 3000, 1],
    [16256, 128, 128, 1],
    [16255, 129, 129, 1],
    [15873, 1, 2, 256],
    [15871, 1, 2, 257],
    [0, 508, 1016, 17],
    [2, 2, 4, 4096],
    [0, 16383, 16383, 1],
    [1, 16383, 16383, 1],
];

impl Pattern {
    // No change.
    pub const NOTHING: Pattern = Pattern::Runs {
        start: 0,
        length: 0,
        period: 1,
        count: 0,
    };

    // Runs with these numbers.
    pub fn runs([start, length, period, count]: [u16; 4]) -> Self {
        Pattern::Runs {
            start,
            length,
            period,
            count,
        }
    }

    // Runs of any length, anywhere.
    fn any_runs(seed: &mut Seed) -> Self {
        let start = seed.below(16384);
        let length = 1 + seed.below(600);
        let period = length + 1 + seed.below(600);
        Pattern::runs([start, length, period, seed.below(300)])
    }

    // About as many runs as are listed at most. (One function for both would need a clause for each of its numbers.)
    fn any_short_runs(seed: &mut Seed) -> Self {
        let start = seed.below(600);
        let length = 1 + seed.below(3);
        let period = length + 1 + seed.below(3);
        Pattern::runs([start, length, period, 250 + seed.below(16)])
    }

    // Any pattern.
    pub fn any(seed: &mut Seed) -> Self {
        match seed.below(4) {
            0 => Pattern::NOTHING,
            1 => Pattern::any_runs(seed),
            2 => Pattern::Sparse(1 + seed.below(64)),
            _ => Pattern::any_short_runs(seed),
        }
    }

    // Whether byte `i` is changed. With no period there are no runs.
    fn changes(self, seed: &mut Seed, i: u16) -> bool {
        match self {
            Pattern::Runs {
                start,
                length,
                period,
                count,
            } => {
                period != 0
                    && start <= i
                    && (i - start) / period < count
                    && (i - start) % period < length
            }
            Pattern::Sparse(n) => n != 0 && seed.once_in(n),
        }
    }

    // Changes a memory by the pattern.
    pub fn apply(self, bytes: &mut [u8; memory::SIZE], seed: &mut Seed) {
        for (i, byte) in bytes.iter_mut().enumerate() {
            if self.changes(seed, i as u16) {
                *byte = byte.wrapping_add((1 + seed.below(255)) as u8);
            }
        }
    }
}
