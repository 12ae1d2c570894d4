// What each reader says at one place: its name, the place where it then stands, and its answer or its refusal.
use crate::opened::{part_of, text_bytes};
use crate::shown::{Answer, Item, Joined, Part};
use error::Fault;
use grids::Size;
use input::{Refusal, ValueRooms};
use params::State;
use std::io;
use std::io::Write;

// `NAME @PLACE ANSWER`, or the refusal.
fn put_read<W: Write>(
    name: &str,
    to: State,
    got: Result<Answer<'_>, Fault>,
    out: &mut W,
) -> io::Result<()> {
    match got {
        Ok(answer) => writeln!(out, "{name} @{} {answer}", to.place),
        Err(f) => writeln!(out, "{name} @{} {}", to.place, Refusal(f)),
    }
}

// What a reader that may meet `$` answers.
fn optional<T: Item>(got: Option<T>) -> Answer<'static> {
    match got {
        Some(x) => x.answer(),
        None => Answer::Unset,
    }
}

// Of the readers that need no room.
pub fn put_scalars<W: Write>(file: &[u8], at: State, out: &mut W) -> io::Result<()> {
    let mut to = at;
    let got = scalars::next_ref(file, &mut to).map(|n| n.answer());
    put_read("ref", to, got, out)?;
    to = at;
    let got = scalars::next_opt_ref(file, &mut to).map(|n| optional(n));
    put_read("opt_ref", to, got, out)?;
    to = at;
    let got = scalars::next_i64(file, &mut to).map(|n| n.answer());
    put_read("i64", to, got, out)?;
    to = at;
    let got = scalars::next_f64(file, &mut to).map(|x| x.answer());
    put_read("f64", to, got, out)?;
    to = at;
    let got = scalars::next_opt_f64(file, &mut to).map(|x| optional(x));
    put_read("opt_f64", to, got, out)?;
    to = at;
    let got = scalars::next_measure_f64(file, &mut to).map(|x| x.answer());
    put_read("measure", to, got, out)?;
    put_words(file, at, out)
}

fn put_words<W: Write>(file: &[u8], at: State, out: &mut W) -> io::Result<()> {
    let mut to = at;
    let got = words::next_enum(file, &mut to).map(|word| Answer::Part(part_of(
        file, word.start, word.stop,
    )));
    put_read("enum", to, got, out)?;
    to = at;
    let got = scalars::next_bool(file, &mut to).map(|truth| Answer::Truth(truth));
    put_read("bool", to, got, out)
}

// Of those that read into rooms, of which so much is lent to a text or to references.
pub fn put_lists<W: Write>(
    file: &[u8],
    at: State,
    most: usize,
    v: &mut ValueRooms,
    out: &mut W,
) -> io::Result<()> {
    put_text(file, at, most, v, out)?;
    let n = most.min(v.refs.len());
    let mut to = at;
    let got = lists::next_ref_list(file, &mut to, &mut v.refs[..n]);
    put_list("ref_list", to, got, v.refs.as_slice(), out)?;
    to = at;
    let got = lists::next_i64_list(file, &mut to, v.ints.as_mut_slice());
    put_list("i64_list", to, got, v.ints.as_slice(), out)?;
    to = at;
    let got = lists::next_f64_list(file, &mut to, v.reals.as_mut_slice());
    put_list("f64_list", to, got, v.reals.as_slice(), out)?;
    put_grids(file, at, n, v, out)
}

fn put_text<W: Write>(
    file: &[u8],
    at: State,
    most: usize,
    v: &mut ValueRooms,
    out: &mut W,
) -> io::Result<()> {
    let n = most.min(v.chars.len());
    let mut to = at;
    match words::next_str(file, &mut to, &mut v.chars[..n]) {
        Ok(text) => {
            let bytes = Part(text_bytes(file, text, v.chars.as_slice()));
            writeln!(out, "str @{} {bytes}", to.place)
        }
        Err(f) => put_read("str", to, Err(f), out),
    }
}

fn put_grids<W: Write>(
    file: &[u8],
    at: State,
    refs: usize,
    v: &mut ValueRooms,
    out: &mut W,
) -> io::Result<()> {
    let n = refs.min(v.refs.len());
    let mut to = at;
    let got = grids::next_ref_grid(file, &mut to, &mut v.refs[..n], v.ends.as_mut_slice());
    put_grid(
        "ref_grid",
        to,
        got,
        v.refs.as_slice(),
        v.ends.as_slice(),
        out,
    )?;
    to = at;
    let got = grids::next_f64_grid(file, &mut to, v.reals.as_mut_slice(), v.ends.as_mut_slice());
    put_grid(
        "f64_grid",
        to,
        got,
        v.reals.as_slice(),
        v.ends.as_slice(),
        out,
    )
}

// A list, whose items are in a room.
fn put_list<W: Write, T: Item>(
    name: &str,
    to: State,
    got: Result<usize, Fault>,
    room: &[T],
    out: &mut W,
) -> io::Result<()> {
    match got {
        Ok(n) => writeln!(
            out,
            "{name} @{} {}",
            to.place,
            Joined(&room[..n.min(room.len())])
        ),
        Err(f) => put_read(name, to, Err(f), out),
    }
}

// A grid, so many row ends of which are in another room.
fn put_grid<W: Write, T: Item>(
    name: &str,
    to: State,
    got: Result<Size, Fault>,
    room: &[T],
    ends: &[usize],
    out: &mut W,
) -> io::Result<()> {
    match got {
        Ok(size) => {
            let items = Joined(&room[..size.numbers.min(room.len())]);
            let ends = Joined(&ends[..size.rows.min(ends.len())]);
            writeln!(out, "{name} @{} {items}|{ends}", to.place)
        }
        Err(f) => put_read(name, to, Err(f), out),
    }
}
