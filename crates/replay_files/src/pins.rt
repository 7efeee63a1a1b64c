// The pin file: big-endian 32-bit words, first the stop address, then one record a step.
ghost use Rattle.std.specs.Prelude.{◌≤◌, ◌≡◌, ◌++◌, length, map, drop, replicate};
ghost use Rattle.std.specs.Int.{w32, from_be_bytes};
ghost use Rattle.replay_files.specs.Pins as Pins;

// No more records than these are taken.
pub const MOST: usize = 16383;

// The stop address: the low half of the first word, or 1, which is never met, where there is no whole word (`Pins.stop`).
#[tactic(auto, using(crate::proofs::Words::stop_none, crate::proofs::Words::stop_some))]
pub fn stop(file: &[u8]) -> u16
    ensures { result ≡ Pins.stop file.now }
{
    match file {
        [_, _, high, low, ..] => u16::from_be_bytes([*high, *low]),
        _ => 1,
    }
}

// The words that are taken as records.
#[tactic(auto, using(crate::proofs::Words::records_of_chunks, crate::proofs::Words::no_records))]
fn taken(file: &[u8]) -> &[[u8; 4]]
    ensures bound { length result.now ≤ Pins.most }
    ensures value { map (from_be_bytes w32) result.now ≡ Pins.records file.now }
{
    let (words, _) = file.as_chunks::<4>();
    match words {
        [_, records @ ..] => &records[..records.len().min(MOST)],
        [] => &[],
    }
}

// How many records are taken from the file.
pub fn record_count(file: &[u8]) -> usize
    ensures upper_bound { result ≤ Pins.most }
    ensures value { result ≡ length (Pins.records file.now) }
{
    taken(file).len()
}

// Puts the file's records over the first places of an array. The clauses here and of `record_count` stay for `replay_call::run_on`, so the array has
// its count beside it.
pub fn put_records(file: &[u8], records: &mut [u32; MOST])
    ensures { records.new ≡ Pins.records file.now ++ drop (length (Pins.records file.now)) records.old }
{
    // By its index: after an `iter_mut` a proof knows no element.
    for (i, word) in taken(file).iter().enumerate() {
        records[i] = u32::from_be_bytes(*word);
    }
}

// The file's records, then zeros.
pub fn records(file: &[u8]) -> [u32; MOST]
    ensures { result ≡ Pins.records file.now ++ drop (length (Pins.records file.now)) (replicate Pins.most 0) }
{
    let mut records = [0u32; MOST];
    put_records(file, &mut records);
    records
}
