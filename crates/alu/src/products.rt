// Products and quotients of unsigned words.
ghost use Rattle.std.specs.Prelude.{◌≡◌};
ghost use Rattle.alu.specs.Products as Products;

use super::Pair;

// The 32 bits of a product, as two words.
#[tactic(auto, using(std::proofs::lemmas::Bool::Decides::nat_tests), unfolding(crate::specs::Products::product))]
pub fn product(a: u16, b: u16) -> Pair
    ensures { result ≡ Products.product a b }
{
    let all = (a as u32) * (b as u32);
    Pair {
        high: (all / 65536) as u16,
        low: (all % 65536) as u16,
    }
}

// Quotient and remainder of a pair of words, where the quotient fits a word; else the pair.
#[tactic(auto, using(std::proofs::lemmas::Bool::Decides::nat_tests), unfolding(crate::specs::Products::divided))]
pub fn divided(d: u16, p: Pair) -> Pair
    ensures { result ≡ Products.divided d p }
{
    if d <= p.high {
        return p;
    }
    let all = (p.high as u32) * 65536 + p.low as u32;
    let by = d as u32;
    Pair {
        high: (all / by) as u16,
        low: (all % by) as u16,
    }
}
