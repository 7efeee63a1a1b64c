// Bytes and big-endian words of the lent memory.
#![tactic(auto)]

ghost use Rattle.std.specs.Prelude.{◌≡◌, ◌+◌, ◌*◌};
ghost use Rattle.memory.specs.Memory as Memory;

// How many bytes the memory has.
pub const SIZE: usize = 16384;

// The width of an operand.
#[derive(Clone, Copy)]
pub enum Width {
    Byte,
    Word,
}

// How many bytes an operand of this width has.
pub fn bytes(width: Width) -> u16
    ensures { result ≡ Memory.bytes width }
{
    match width {
        Width::Byte => 1,
        Width::Word => 2,
    }
}

// The word of two bytes, the high one first.
pub fn word(high: u8, low: u8) -> u16
    ensures { result ≡ high * 256 + low }
{
    u16::from_be_bytes([high, low])
}

// The first byte of an access of this width at this address. (Load and store, which know their width in each arm, work it out there.)
#[tactic(auto, unfolding(crate::specs::Memory::place))]
pub fn place(width: Width, address: u16) -> u16
    ensures { result ≡ Memory.place width address }
{
    match width {
        Width::Byte => address % (SIZE as u16),
        Width::Word => address / 2 * 2 % (SIZE as u16),
    }
}

// What an access of this width at this address reads.
#[tactic(auto, unfolding(crate::specs::Memory::loaded, crate::specs::Memory::number, crate::specs::Memory::place))]
pub fn load(memory: &[u8; SIZE], width: Width, address: u16) -> u16
    ensures { result ≡ Memory.loaded width memory.now address }
{
    match width {
        Width::Byte => memory[(address as usize) % SIZE] as u16,
        Width::Word => {
            let at = ((address / 2 * 2) as usize) % SIZE;
            word(memory[at], memory[at + 1])
        }
    }
}

// Stores the lowest byte, or the word, at this address.
#[tactic(auto, unfolding(crate::specs::Memory::stored, crate::specs::Memory::spread, crate::specs::Memory::place))]
pub fn store(memory: &mut [u8; SIZE], width: Width, address: u16, value: u16)
    ensures { memory.new ≡ Memory.stored width memory.old address value }
{
    match width {
        Width::Byte => memory[(address as usize) % SIZE] = (value % 256) as u8,
        Width::Word => {
            let at = ((address / 2 * 2) as usize) % SIZE;
            let [high, low] = value.to_be_bytes();
            memory[at] = high;
            memory[at + 1] = low;
        }
    }
}
