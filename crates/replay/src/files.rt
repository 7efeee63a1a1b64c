// Reading a file: its start, as much as the buffer holds.
ghost use Rattle.std.specs.Prelude.{◌≤◌, length, IfOk};

use crate::system;
use std::fs::Files;
use std::io;
use std::io::Read;

// Reads until the buffer is full or the file ends, and returns how many bytes came. `read_exact` refuses a short file, and `read_to_end`
// needs a heap.
fn read_all(file: &mut impl Read, buffer: &mut [u8]) -> io::Result<usize>
    ensures { IfOk result (λ n. n ≤ length buffer.old) }
{
    let mut done = 0;
    while done < buffer.len() {
        match file.read(&mut buffer[done..])? {
            0 => break,
            more => done += more,
        }
    }
    Ok(done)
}

// Reads the start of the file of this name into the buffer, and returns that part of it.
pub fn load<'a>(rt: &impl Files, path: &[u8], buffer: &'a mut [u8]) -> io::Result<&'a [u8]>
    ensures { IfOk result (λ bytes. length bytes.now ≤ length buffer.old) }
{
    let mut file = system::open_read(rt, path)?;
    let n = read_all(&mut file, buffer)?;
    Ok(&buffer[..n])
}
