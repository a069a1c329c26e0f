// Files by the argument that names them.
ghost use Rattle.std.specs.Prelude.{◌≤◌, length, IfOk};

use crate::args::{LONGEST, argument};
use print::parts::first;
use std::io::{Read, Write};
use std::rt::{Env, Files};
use std::{fs, io, str};

// Whether a file that was read as far as there is room ends there.
fn ended<F: Read>(file: &mut F) -> io::Result<bool> {
    let mut more = [0u8; 1];
    Ok(file.read(&mut more)? == 0)
}

fn read_from<F: Read>(file: &mut F, t: &mut [u8]) -> io::Result<usize>
    ensures { IfOk result (λ n. n ≤ length t.new) }
{
    let n = print::input::fill(file, t)?;
    if !ended(file)? {
        return Err(io::Error::other("larger than settle takes"));
    }
    Ok(n)
}

// The library takes no other path.
fn path_of(word: &[u8]) -> io::Result<&str> {
    str::from_utf8(word).map_err(|_| io::Error::other("a path that is no UTF-8"))
}

fn read<R: Files>(rt: &R, word: &[u8], t: &mut [u8]) -> io::Result<usize> {
    let mut file = fs::open(rt, path_of(word)?)?;
    read_from(&mut file, t)
}

fn write<R: Files>(rt: &R, word: &[u8], s: &[u8]) -> io::Result<()> {
    let mut file = fs::create(rt, path_of(word)?)?;
    file.write_all(s)
}

// A whole file, read into the front of the bytes, or a complaint.
pub fn load<'a, R: Files + Env + AllocGlobal, E: Write>(
    rt: &R,
    err: &mut E,
    i: usize,
    t: &'a mut [u8],
) -> io::Result<Option<&'a [u8]>> {
    let mut buffer = [0u8; LONGEST];
    let path = argument(rt, i, &mut buffer).unwrap_or(&[]);
    match read(rt, path, t) {
        Ok(size) => Ok(Some(first(t, size))),
        Err(refusal) => {
            crate::said::failed(rt.alloc(), err, path, &refusal)?;
            Ok(None)
        }
    }
}

// The same for a file that may not be asked for.
pub fn load_any<'a, R: Files + Env + AllocGlobal, E: Write>(
    rt: &R,
    err: &mut E,
    i: Option<usize>,
    t: &'a mut [u8],
) -> io::Result<Option<&'a [u8]>> {
    match i {
        Some(i) => load(rt, err, i, t),
        None => Ok(Some(&[])),
    }
}

// Writes a whole file, and says whether it did.
pub fn save<R: Files + Env + AllocGlobal, E: Write>(
    rt: &R,
    err: &mut E,
    i: usize,
    s: &[u8],
) -> io::Result<bool> {
    let mut buffer = [0u8; LONGEST];
    let path = argument(rt, i, &mut buffer).unwrap_or(&[]);
    match write(rt, path, s) {
        Ok(()) => Ok(true),
        Err(refusal) => {
            crate::said::failed(rt.alloc(), err, path, &refusal)?;
            Ok(false)
        }
    }
}
