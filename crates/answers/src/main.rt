// Answers a run of cases, for the comparison with the Rust original: each case of up to 1 MiB where the stack limit is above the rooms for it
// (`ulimit -s`; the script `step` raises it), and of up to 256 KiB where it does not.

#![tactic(auto)]

use compare_lines::Opened;
use compare_output::Course;
use input::{MIDDLE, MIDDLE_VALUES, Output, SMALL, SMALL_VALUES, TableRooms, ValueRooms};
use lookup::Tables;
use std::alloc::AllocError;
use std::io;
use std::io::Write;
use std::rt::Env;

// How many cases of the gate's run are told with the walks: unit files follow, which have many parameters.
const WALKS: usize = 4219;

// The stack limit from which on the large rooms are taken.
const NEEDED: u64 = 40000000;

// How many cases are told with the walks.
#[derive(Drop)]
struct Answers {
    walks: usize,
}

impl Course for Answers {
    fn tell<W: Write>(
        &self,
        number: usize,
        c: &Opened<'_>,
        v: &mut ValueRooms,
        out: &mut W,
    ) -> io::Result<()> {
        compare_lines::put_answers(c, v.chars.as_mut_slice(), out)?;
        if number < self.walks {
            return compare_lines::put_walks(c, v, out);
        }
        Ok(())
    }

    fn tell_last<W: Write>(
        &self,
        _file: &[u8],
        _t: Tables,
        _tables: &mut TableRooms,
        _out: &mut W,
    ) -> io::Result<()> {
        Ok(())
    }
}

// The error is a lack of memory for the rooms.
fn main(rt: HostRuntime) -> Result<(), AllocError> {
    if wants_help(&rt) {
        help(&rt);
        return Ok(());
    }
    // all cases are told with the walks, but in the gate's run
    let course = Answers {
        walks: if compare_input::replays(&rt) {
            WALKS
        } else {
            usize::MAX
        },
    };
    if input::stack_limit(&rt) < NEEDED {
        return compare_output::run(&rt, &course, SMALL, SMALL_VALUES);
    }
    compare_output::run(&rt, &course, MIDDLE, MIDDLE_VALUES)
}

// Whether the first argument asks for help.
fn wants_help<R: Env>(rt: &R) -> bool {
    let mut word = [0u8; 4096];
    match input::argument(rt, 1, &mut word) {
        Some(n) => matches!(&word[..n], b"-h" | b"--help"),
        None => false,
    }
}

fn help<R: Print + Eprint>(rt: &R) {
    let mut buffer = [0u8; 4096];
    let mut out = Output::new(rt, &mut buffer);
    let _ = put_usage(&mut out);
    out.finish();
}

fn put_usage<W: Write>(out: &mut W) -> io::Result<()> {
    writeln!(
        out,
        "usage: answers [FILE..]: prints all that the reader answers about each file, the name - being standard input, in the text form of the comparison"
    )?;
    writeln!(
        out,
        "without a file standard input is a run of cases: a length in decimal, LF and so many bytes, again and again"
    )
}
