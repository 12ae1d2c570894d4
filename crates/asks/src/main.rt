// Answers a run of cases with what the program `answers` does not show: kinds, keywords, rows by kind, parts by kind, the units of each
// record, 14, `skip_n` and `is_empty`, rooms that are too short, spans outside the file, kept rows. The rows are shown as they are read
// again from what was kept. Its lines are compared with those of the Rust original's driver (differential/README.md, `asks`).

#![tactic(auto)]

use compare_lines::Opened;
use compare_output::Course;
use input::{SMALL, SMALL_KEPT, TableRooms, ValueRooms};
use lookup::Tables;
use std::alloc::AllocError;
use std::io;
use std::io::Write;

#[derive(Drop)]
struct Asks;

impl Course for Asks {
    fn tell<W: Write>(
        &self,
        _number: usize,
        c: &Opened<'_>,
        v: &mut ValueRooms,
        out: &mut W,
    ) -> io::Result<()> {
        compare_lines::put_asked(c, v, out)?;
        compare_lines::put_kept(c, v, out)
    }

    fn tell_last<W: Write>(
        &self,
        file: &[u8],
        t: Tables,
        tables: &mut TableRooms,
        out: &mut W,
    ) -> io::Result<()> {
        compare_lines::put_full(file, t, tables, out)
    }
}

// The error is a lack of memory for the rooms.
fn main(rt: HostRuntime) -> Result<(), AllocError> {
    compare_output::run(&rt, &Asks, SMALL, SMALL_KEPT)
}
