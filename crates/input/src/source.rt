// What is read: a file that an argument names, or standard input.
ghost use Rattle.std.specs.Prelude.{IfSome};
ghost use Rattle.io.specs.Counts.{IsPrefixLen};

use crate::{fail, number_of};
use std::env::FillError;
use std::io::{Read, Result, Seek, SeekFrom};
use std::rt::{Env, Files};
use std::{fs, str};

// A file, or standard input.
#[derive(Drop)]
pub enum Source<F, S> {
    File(F),
    Stdin(S),
}

impl<F: Read, S: Read> Read for Source<F, S> {
    fn read(&mut self, buf: &mut [u8]) -> Result<usize> {
        match self {
            Source::File(file) => file.read(buf),
            Source::Stdin(input) => input.read(buf),
        }
    }
}

#[derive(Drop)]
pub struct OpenedInput<F, S> {
    // What was opened, if it could be.
    pub source: Option<Source<F, S>>,
    // How many bytes the file's name has, at the start of the lent room for it.
    pub name: usize,
}

// Puts an argument at the start of the room, and answers its length: 0 where it is longer than the room; none where there is no such argument.
// The program's own name is number 0.
pub fn argument<R: Env>(rt: &R, i: usize, room: &mut [u8]) -> Option<usize>
    ensures { IfSome result (λ n. IsPrefixLen n room.new) }
{
    match rt.arg(i, room) {
        Ok(n) => Some(n),
        Err(FillError::TooLong) => Some(0),
        Err(FillError::NotPresent) => None,
    }
}

// Opens the file that an argument names, `-` being standard input. Where that fails, standard error says why.
pub fn open_argument<R: Env + Files + Input + Eprint + Alloc>(
    rt: &R,
    i: usize,
    name: &mut [u8],
) -> OpenedInput<R::File, R::Reader>
    ensures { IsPrefixLen result.name name.new }
{
    match rt.arg(i, name) {
        Ok(n) => OpenedInput {
            source: open(rt, &name[..n]),
            name: n,
        },
        Err(e) => {
            fail(rt, "argument", number_of_fill(e));
            OpenedInput {
                source: None,
                name: 0,
            }
        }
    }
}

// Linux's numbers of an argument that is missing, and of one that is longer than the room for it.
const EINVAL: i32 = 22;

const ENAMETOOLONG: i32 = 36;

// That of a name that is no UTF-8, which the library opens no file by.
const EILSEQ: i32 = 84;

fn number_of_fill(e: FillError) -> i32 {
    match e {
        FillError::NotPresent => EINVAL,
        FillError::TooLong => ENAMETOOLONG,
    }
}

// Opens the file of a name, or says why not.
fn open<R: Files + Input + Eprint + Alloc>(
    rt: &R,
    name: &[u8],
) -> Option<Source<R::File, R::Reader>> {
    if matches!(name, b"-") {
        return Some(Source::Stdin(rt.reader()));
    }
    let Ok(text) = str::from_utf8(name) else {
        fail(rt, "argument", EILSEQ);
        return None;
    };
    match fs::open(rt, text) {
        Ok(file) => Some(Source::File(file)),
        Err(e) => {
            fail(rt, text, number_of(&e));
            None
        }
    }
}

// The size of what is read, which stays where it stands. None where that is not told, as of a pipe.
pub fn size<R: Files, S>(rt: &R, from: &mut Source<R::File, S>) -> Option<u64> {
    match from {
        Source::File(file) => size_of_file(file),
        Source::Stdin(_) => size_of_input(rt),
    }
}

fn size_of_file<F: Seek>(file: &mut F) -> Option<u64> {
    let here = file.seek(SeekFrom::Current(0)).ok()?;
    let end = file.seek(SeekFrom::End(0));
    let _ = file.seek(SeekFrom::Start(here));
    end.ok()
}

// The size of the file that standard input is. A file of no bytes may be one whose size is not told, as those of /proc.
fn size_of_input<R: Files>(rt: &R) -> Option<u64> {
    match fs::metadata(rt, "/dev/stdin") {
        Ok(found) if found.is_file() && found.len() > 0 => Some(found.len()),
        _ => None,
    }
}
