// Runs of bytes that differ between two memories, found from byte 0 on, part by part, and listed in lent places.
#![tactic(auto)]

ghost use Rattle.std.specs.Prelude.{◌≡◌, Bool, true, false, List, [], ◌∷◌, ◌++◌, ℕ, ◌+◌, ◌<◌, ◌≤◌, length, replicate};
ghost use Rattle.differing_runs.specs.Runs.{differences, runs_of, places};

mod listing;

// How many runs are listed at most, and the places that they take: start and length of each, as the exported call lays them out for C.
pub const LISTED: usize = 256;

pub const PLACES: usize = 2 * LISTED;

// What is found in the bytes before `address`: how many runs have ended, and how long the one is that has not, 0 if there is none: a number, and
// no `Option`, as `Scan.Holds` adds it to an address.
#[derive(Clone, Copy)]
pub struct Found {
    pub address: usize,
    pub ended: usize,
    pub length: usize,
    pub ghost within: { ended + length ≤ address },
}

impl Found {
    ghost use Rattle.differing_runs.specs.Scan.{Holds};

    // Before the first byte.
    pub fn nothing() -> Found
        ensures address { result.address ≡ 0 }
        ensures holds { Holds [] result (places []) }
    {
        Found {
            address: 0,
            ended: 0,
            length: 0,
        }
    }

    // How many runs there are.
    pub fn runs(&self) -> usize
        ensures upper_bound { result ≤ self.now.ended + self.now.length }
        ensures bound { result ≤ self.now.address }
        ensures value { (seen : List Bool) (list : List ℕ) → Holds seen self.now list → result ≡ length (runs_of seen) }
    {
        if self.length == 0 {
            self.ended
        } else {
            self.ended + 1
        }
    }

    // Goes over bytes that agree.
    fn agree(&mut self, count: usize)
        requires some { 0 < count }
        requires fits { self.old.address + count ≤ 65536 }
        ensures address { self.new.address ≡ self.old.address + count }
        ensures holds { (seen : List Bool) (list : List ℕ) → Holds seen self.old list → Holds (seen ++ replicate count false) self.new list }
    {
        self.ended = self.runs();
        self.length = 0;
        self.address += count;
    }

    // Goes over a byte that differs.
    fn differ(&mut self, list: &mut [u32; PLACES])
        requires fits { self.old.address < 65536 }
        ensures address { self.new.address ≡ self.old.address + 1 }
        ensures holds { (seen : List Bool) → length seen ≡ self.old.address → Holds seen self.old list.old → Holds (seen ++ true ∷ []) self.new list.new }
    {
        let start = self.address - self.length;
        self.length += 1;
        self.address += 1;
        listing::put_run(list, self.ended, start as u32, self.length as u32);
    }

    // Goes over two parts byte by byte.
    fn each(&mut self, first: &[u8], second: &[u8], list: &mut [u32; PLACES])
        requires same_size { length first.now ≡ length second.now }
        requires fits { self.old.address + length first.now ≤ 65536 }
        ensures address { self.new.address ≡ self.old.address + length first.now }
        ensures holds { (seen : List Bool) → length seen ≡ self.old.address → Holds seen self.old list.old → Holds (seen ++ differences first.now second.now) self.new list.new }
    {
        // A copy, which stays in registers: behind the reference the loop takes more than twice as long.
        let mut found = *self;
        for (one, other) in first.iter().zip(second) {
            if one == other {
                found.agree(1);
            } else {
                found.differ(list);
            }
        }
        *self = found;
    }

    // Goes over two parts, which carry the memories' bytes from `address` on; where they agree, all at once.
    pub fn scan(&mut self, first: &[u8], second: &[u8], list: &mut [u32; PLACES])
        requires same_size { length first.now ≡ length second.now }
        requires some { 0 < length first.now }
        requires fits { self.old.address + length first.now ≤ 65536 }
        ensures address { self.new.address ≡ self.old.address + length first.now }
        ensures holds { (seen : List Bool) → length seen ≡ self.old.address → Holds seen self.old list.old → Holds (seen ++ differences first.now second.now) self.new list.new }
    {
        if first == second {
            self.agree(first.len());
        } else {
            self.each(first, second, list);
        }
    }
}
