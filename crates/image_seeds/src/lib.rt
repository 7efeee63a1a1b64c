// Images from a seed: states for them, editions, and damage.
#![tactic(auto)]

ghost use Rattle.std.specs.Prelude.{◌<◌};

use machine::State;
use seeds::Seed;

pub mod damage;

// A state with a read-only address, and flags below `limit`.
pub fn read_only_state(seed: &mut Seed, limit: u16) -> State
    requires { 0 < limit }
{
    let flags = seed.below(limit);
    let mut state = seed.state(flags);
    state.rom = seed.rom();
    state
}

// Either edition.
pub fn any_edition(seed: &mut Seed) -> u16 {
    1 + seed.below(2)
}
