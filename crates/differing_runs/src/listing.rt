// The places of the runs that are listed.
ghost use Rattle.std.specs.Prelude.{◌≡◌};
ghost use Rattle.differing_runs.specs.Scan.{put_run};

use crate::{LISTED, PLACES};

// Puts run `n`, counted from 0, into its places, if it is listed.
#[tactic(auto, unfolding(crate::specs::Scan::put_run))]
pub fn put_run(list: &mut [u32; PLACES], n: usize, start: u32, size: u32)
    ensures { list.new ≡ put_run list.old n start size }
{
    if n < LISTED {
        list[2 * n] = start;
        list[2 * n + 1] = size;
    }
}
