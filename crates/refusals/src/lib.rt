// Why a call is refused, and the number that the papers, C and Fortran know it by.
#![tactic(auto)]

ghost use Rattle.std.specs.Prelude.{◌≡◌};
ghost use Rattle.refusals.specs.Refusals as Refusals;

// The reasons, in the order of their numbers.
#[derive(Clone, Copy, Debug, PartialEq, Eq)]
pub enum Refusal {
    // The memory does not have its 16384 bytes.
    MemorySize,
    // The state is not well formed.
    State,
    // More steps are asked for than there are records.
    Records,
    // The image, or the buffer for one, does not have an image's bytes.
    ImageSize,
    // The words of this block have another sum than a block's.
    Check(u16),
    // This block does not have its number.
    BlockNumber(u16),
    // The format word or the edition is unknown.
    Format,
    // The image's state is not well formed, or its filler is not 0.
    Content,
    // The buffer for a line is too short.
    TextBuffer,
}

impl Refusal {
    // The number that stands for a refusal; 0 stands for none.
    #[tactic(auto, unfolding(crate::specs::Refusals::number))]
    pub fn number(self) -> u16
        ensures { result ≡ Refusals.number self }
    {
        match self {
            Refusal::MemorySize => 1,
            Refusal::State => 2,
            Refusal::Records => 3,
            Refusal::ImageSize => 5,
            Refusal::Check(_) => 6,
            Refusal::BlockNumber(_) => 7,
            Refusal::Format => 8,
            Refusal::Content => 9,
            Refusal::TextBuffer => 11,
        }
    }

    // The block that a refusal names, else 0, as C has it.
    #[tactic(auto, unfolding(crate::specs::Refusals::block))]
    pub fn block(self) -> u16
        ensures { result ≡ Refusals.block self }
    {
        match self {
            Refusal::Check(block) | Refusal::BlockNumber(block) => block,
            _ => 0,
        }
    }
}
