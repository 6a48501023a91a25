// Bytes in: a reader read to its end or to the end of a buffer, and a file by its name.
use std::env::FillError;
use std::fmt::InlineText;
use std::io::{Error, ErrorKind, Read, Result};
use std::rt::Env;
use std::str::from_utf8;
use std::{fs, io};

const NAME_TOO_LONG: i32 = 36;

// Room for any reason that the system gives.
const REASON: usize = 256;

// Says what could not be read or written, with the system's reason for it, without the number that the library puts
// behind.
pub(crate) fn complain(rt: &HostRuntime, what: &str, error: Error) {
    let text = InlineText::<REASON>::of(error);
    let text = text.as_str();
    let (reason, _) = text.split_once(" (os error").unwrap_or((text, ""));
    let _ = eprintln!(rt; "saftmagnet: {what}: {reason}");
}

// Reads until buf is full or nothing more comes.
fn fill<'a, R: Read>(source: &mut R, buf: &'a mut [u8]) -> Result<&'a [u8]> {
    let room = buf.len();
    let n = io::copy(&mut source.take(room as u64), &mut &mut buf[..])?;
    Ok(&buf[..room.min(n as usize)])
}

fn told<T: Drop>(rt: &HostRuntime, what: &str, read: Result<T>) -> Option<T> {
    read.map_err(|error| complain(rt, what, error)).ok()
}

// What cannot be read is told, and then there is nothing.
pub(crate) fn read_input<'a>(rt: &HostRuntime, buf: &'a mut [u8]) -> Option<&'a [u8]> {
    told(rt, "standard input", fill(&mut rt.stdin(), buf))
}

fn argument<'a>(rt: &HostRuntime, i: usize, buf: &'a mut [u8]) -> Result<&'a str> {
    let n = rt.arg(i, buf).map_err(|error| match error {
        FillError::NotPresent => Error::from(ErrorKind::NotFound),
        FillError::TooLong => Error::from_raw_os_error(NAME_TOO_LONG),
    })?;
    from_utf8(&buf[..n]).map_err(|_| Error::new(ErrorKind::InvalidInput, "it is not UTF-8"))
}

fn read_named<'a>(rt: &HostRuntime, name: &str, buf: &'a mut [u8]) -> Result<&'a [u8]> {
    fill(&mut fs::open(rt, name)?, buf)
}

// The file that the program's argument i names.
pub(crate) fn read_file<'a>(rt: &HostRuntime, i: usize, buf: &'a mut [u8]) -> Option<&'a [u8]> {
    let mut path = [0u8; 4096];
    let name = told(rt, "the name of a file", argument(rt, i, &mut path))?;
    told(rt, name, read_named(rt, name, buf))
}
