// Single bits of words, counted from the lowest, and words joined bit by bit.
#![tactic(auto)]

ghost use Rattle.std.specs.Prelude.{◌≡◌, ◌<◌};
ghost use Rattle.bits.specs.Bits as Bits;
ghost use Rattle.bits.specs.Logic as Logic;

// Whether bit `n` of `w` is set; there is none from 32 on.
pub fn bit(w: u32, n: u32) -> bool
    ensures { result ≡ Bits.bit n w }
{
    if n < 32 { (w >> n) % 2 == 1 } else { false }
}

// `w` with bit `n` made `on`. (A number below 16 is asked here and of a few functions of the PSI: a type for it would be made at each call.)
pub fn put(w: u16, n: u32, on: bool) -> u16
    requires { n < 16 }
    ensures { result ≡ Bits.put n on w }
{
    let weight = 1u16 << n;
    w - (w & weight) + ((on as u16) << n)
}

// The ones of both words. (These functions of one operator each state its definition bit by bit, which the operators' own contracts don't.)
pub fn both(a: u16, b: u16) -> u16
    ensures { result ≡ Logic.both a b }
{
    a & b
}

// The ones of either word.
pub fn either(a: u16, b: u16) -> u16
    ensures { result ≡ Logic.either a b }
{
    a | b
}

// The ones of just one of the words.
pub fn exclusive(a: u16, b: u16) -> u16
    ensures { result ≡ Logic.exclusive a b }
{
    a ^ b
}

// The ones of `a` that `b` does not have.
#[tactic(auto, using(crate::proofs::Joined::without_inverted))]
pub fn without(a: u16, b: u16) -> u16
    ensures { result ≡ Logic.without a b }
{
    a & !b
}

// Each bit the other way round.
#[tactic(auto, unfolding(crate::specs::Logic::inverted))]
pub fn inverted(v: u16) -> u16
    ensures { result ≡ Logic.inverted v }
{
    !v
}

// The two bytes of a word exchanged.
#[tactic(auto, unfolding(crate::specs::Logic::swapped))]
pub fn swapped(v: u16) -> u16
    ensures { result ≡ Logic.swapped v }
{
    v.swap_bytes()
}
