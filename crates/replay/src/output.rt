// The output file: written whole beside its place, then renamed into it, so that it is never half written.
ghost use Rattle.std.specs.Prelude.{◌≤◌, length, IfOk};

use crate::failure::Failure;
use crate::system;
use std::fs::{Files, OpenFile};
use std::io;
use std::io::{ErrorKind, Write};

// A temporary's name, whose two digits change.
const TEMPORARY: &[u8; 14] = b".replay.00.tmp";

// A folder with a longer path gets no temporary.
const FOLDER: usize = 4000;

// The longest path of a temporary.
const NAME: usize = FOLDER + TEMPORARY.len();

// A file may take this name where there is none, or one that holds bytes, and no device or folder. What is there is closed after the message, as it
// may stand for a closed standard error.
fn check_replaceable<'a>(rt: &(impl Files + Eprint), path: &'a [u8]) -> Result<(), Failure<'a>> {
    match system::open_update(rt, path) {
        Ok(file) => {
            if let Err(error) = file.sync_all() {
                Failure::Of(path, error).tell(rt);
                return Err(Failure::Told);
            }
            Ok(())
        }
        Err(error) if error.kind() == ErrorKind::NotFound => Ok(()),
        Err(error) => Err(Failure::Of(path, error)),
    }
}

// The path without its last part.
fn folder(path: &[u8]) -> &[u8]
    ensures { length result.now ≤ length path.now }
{
    match path.iter().rposition(|byte| *byte == b'/') {
        Some(slash) => &path[..=slash],
        None => &[],
    }
}

// Puts the path of a temporary beside `path` into the buffer, and returns it.
fn temporary<'a>(path: &[u8], buffer: &'a mut [u8; NAME]) -> io::Result<&'a mut [u8]>
    ensures lower_bound { IfOk result (λ name. 14 ≤ length name.now) }
    ensures upper_bound { IfOk result (λ name. length name.now ≤ 4096) }
{
    let folder = folder(path);
    let at = folder.len();
    if at > FOLDER {
        return Err(io::Error::from_raw_os_error(system::ENAMETOOLONG));
    }
    let name = &mut buffer[..at + TEMPORARY.len()];
    name[..at].copy_from_slice(folder);
    name[at..].copy_from_slice(TEMPORARY);
    Ok(name)
}

// Makes the temporary under the first of a hundred names that is not taken.
fn create<R: Files>(rt: &R, name: &mut [u8]) -> io::Result<R::File>
    requires { 14 ≤ length name.old }
{
    let digits = name.len() - 6;
    let mut taken = io::Error::from(ErrorKind::AlreadyExists);
    for i in 0..100u8 {
        name[digits] = b'0' + i / 10;
        name[digits + 1] = b'0' + i % 10;
        match system::create(rt, name) {
            Err(error) if error.kind() == ErrorKind::AlreadyExists => taken = error,
            created => return created,
        }
    }
    Err(taken)
}

// Writes all bytes and closes the file.
fn fill(mut file: impl Write + OpenFile + Drop, bytes: &[u8]) -> io::Result<()> {
    file.write_all(bytes)?;
    file.sync_all()
}

// Puts the bytes in the file's place at once. Where that fails, the file stays as it was; where there is a temporary, the message is printed before
// that goes.
pub fn replace<'a>(
    rt: &(impl Files + Eprint),
    path: &'a [u8],
    bytes: &[u8],
) -> Result<(), Failure<'a>> {
    check_replaceable(rt, path)?;
    let mut buffer = [0u8; NAME];
    let name = temporary(path, &mut buffer).map_err(|e| Failure::Of(path, e))?;
    let file = create(rt, name).map_err(|e| Failure::Of(path, e))?;
    if let Err(error) = fill(file, bytes).and_then(|()| system::rename(rt, name, path)) {
        Failure::Of(path, error).tell(rt);
        let _ = system::unlink(rt, name);
        return Err(Failure::Told);
    }
    Ok(())
}
