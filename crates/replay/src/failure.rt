// Why the program stops, in the words of its message.
use std::fmt::{Display, Formatter, InlineText};
use std::{fmt, io};

#[derive(Drop)]
pub enum Failure<'a> {
    // There are not three arguments.
    Usage,
    // What failed, as the message names it, and why.
    Of(&'a [u8], io::Error),
    // The message is printed already.
    Told,
}

// An error's words, without the system's number for it.
fn reason(message: &str) -> &str {
    message
        .split_once(" (os error ")
        .map_or(message, |(words, _)| words)
}

impl Failure<'_> {
    // Prints the message, if it is not printed yet.
    pub fn tell(&self, rt: &impl Eprint) {
        if !matches!(self, Failure::Told) {
            let _ = eprintln!(rt; "{self}");
        }
    }
}

impl Display for Failure<'_> {
    fn fmt<W: fmt::Write>(&self, f: &mut Formatter<W>) -> fmt::Result {
        match self {
            Failure::Usage => f.write_str("usage: replay IMAGE PINS OUT"),
            Failure::Told => Ok(()),
            Failure::Of(what, error) => {
                let message = InlineText::<256>::of(*error);
                let reason = reason(message.as_str());
                match str::from_utf8(what) {
                    Ok(name) => write!(f, "{name}: {reason}"),
                    Err(_) => write!(f, "{}: {reason}", what.escape_ascii()),
                }
            }
        }
    }
}
