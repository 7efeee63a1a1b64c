// What the program asks of the system: its arguments, and files by the bytes of their paths.
ghost use Rattle.std.specs.Prelude.{◌≡◌, ◌↔◌, ◌≤◌, length, IfOk, IsOk, IsUtf8};

use std::env::{Env, FillError};
use std::fs::{File, Files, OpenOptions};
use std::io::ErrorKind;
use std::{fs, io};

// The system's numbers for an argument that is missing and for a name that is too long: the kinds of `io::Error` have other words.
const EINVAL: i32 = 22;

pub const ENAMETOOLONG: i32 = 36;

// Whether the program was started with argument `i`; argument 0 is its own name.
pub fn has_arg(rt: &impl Env, i: usize) -> bool {
    let mut start = [0u8; 1];
    !matches!(rt.arg(i, &mut start), Err(FillError::NotPresent))
}

// Puts argument `i` at the start of the buffer, and returns that part of it.
pub fn arg<'a>(rt: &impl Env, i: usize, buffer: &'a mut [u8]) -> io::Result<&'a [u8]>
    ensures { IfOk result (λ arg. length arg.now ≤ length buffer.old) }
{
    match rt.arg(i, buffer) {
        Ok(n) => Ok(&buffer[..n]),
        Err(FillError::NotPresent) => Err(io::Error::from_raw_os_error(EINVAL)),
        Err(FillError::TooLong) => Err(io::Error::from_raw_os_error(ENAMETOOLONG)),
    }
}

// The path as std takes it, which must be text.
fn text(path: &[u8]) -> io::Result<&str>
    ensures when { IsOk result ↔ IsUtf8 path.now }
    ensures value { IfOk result (λ text. text.now ≡ path.now) }
{
    str::from_utf8(path).map_err(|_| io::Error::new(
        ErrorKind::InvalidFilename,
        "the path is not UTF-8",
    ))
}

// Opens a file for reading.
pub fn open_read<R: Files>(rt: &R, path: &[u8]) -> io::Result<R::File> {
    File::open(rt, text(path)?)
}

// Opens a file for reading and writing, and leaves its bytes as they are.
pub fn open_update<R: Files>(rt: &R, path: &[u8]) -> io::Result<R::File> {
    OpenOptions::new()
        .read(true)
        .write(true)
        .open(rt, text(path)?)
}

// Creates a file and opens it for writing. It fails where the name is taken.
pub fn create<R: Files>(rt: &R, path: &[u8]) -> io::Result<R::File> {
    OpenOptions::new()
        .write(true)
        .create_new(true)
        .open(rt, text(path)?)
}

// Gives a file another path, in the place of what has that path.
pub fn rename(rt: &impl Files, from: &[u8], to: &[u8]) -> io::Result<()> {
    fs::rename(rt, text(from)?, text(to)?)
}

// Removes a file.
pub fn unlink(rt: &impl Files, path: &[u8]) -> io::Result<()> {
    fs::remove_file(rt, text(path)?)
}
