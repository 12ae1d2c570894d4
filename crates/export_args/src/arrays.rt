// Lists and grids, for hosts in other languages: in lent numbers, and for grids the row ends in others.
ghost use Rattle.std.specs.Prelude.{length};
ghost use Rattle.reals.specs.Scalar.{reference_of, whole_of, real_of, any_real_of};
ghost use Rattle.params.specs.Answer.{told_read};
ghost use Rattle.lists.specs.Answer.{how_many};
ghost use Rattle.lists.specs.Read.{list_read};
ghost use Rattle.grids.specs.Grid.{grid_read, how_large, numbers_of, ends_of};
ghost use Rattle.host_numbers.specs.Answers.{HostReaderTold, Puts, PutsList, PutsReals};

use crate::reading;
use error::Fault;
use grids::Size;
use params::State;
use reals::Reals;

// Reads a list of references into `out`: 0, with how many in `count`.
pub fn hooflift_ref_list(
    file: &[u8],
    place: &mut usize,
    end: usize,
    out: &mut [u32],
    count: &mut usize,
    fault: &mut usize,
) -> u8
    ensures host_reader_told { HostReaderTold (how_many (list_read reference_of (length out.old) file.now place.old end)) result place fault }
    ensures puts_list { PutsList (list_read reference_of (length out.old) file.now place.old end).answer out }
    ensures puts { Puts (λ n. n) (how_many (list_read reference_of (length out.old) file.now place.old end)).answer count }
{
    let mut at = State { place: *place, end };
    let r = lists::next_ref_list(file, &mut at, out);
    host_numbers::put_read(r, at, place, count, fault)
}

// Reads a list of integers into `out`: 0, with how many in `count`.
pub fn hooflift_i64_list(
    file: &[u8],
    place: &mut usize,
    end: usize,
    out: &mut [i64],
    count: &mut usize,
    fault: &mut usize,
) -> u8
    ensures host_reader_told { HostReaderTold (how_many (list_read whole_of (length out.old) file.now place.old end)) result place fault }
    ensures puts_list { PutsList (list_read whole_of (length out.old) file.now place.old end).answer out }
    ensures puts { Puts (λ n. n) (how_many (list_read whole_of (length out.old) file.now place.old end)).answer count }
{
    let mut at = State { place: *place, end };
    let r = lists::next_i64_list(file, &mut at, out);
    host_numbers::put_read(r, at, place, count, fault)
}

// What a reader of a grid answers and leaves: how many numbers it has goes to `count`, and how many rows to `rows`.
fn put_grid(
    r: Result<Size, Fault>,
    at: State,
    place: &mut usize,
    count: &mut usize,
    rows: &mut usize,
    fault: &mut usize,
) -> u8
    ensures host_reader_told { HostReaderTold (told_read r at) result place fault }
    ensures puts { Puts (λ s. s.numbers) (told_read r at).answer count }
    ensures puts_2 { Puts (λ s. s.rows) (told_read r at).answer rows }
{
    if let Ok(size) = r {
        *count = size.numbers;
        *rows = size.rows;
    }
    reading::put_place(r, at, place, fault)
}

// Reads a list of lists of references: 0, with all its numbers in `out` and how many in `count`, and where each row ends in `ends` and how many
// rows in `rows`.
pub fn hooflift_ref_grid(
    file: &[u8],
    place: &mut usize,
    end: usize,
    out: &mut [u32],
    ends: &mut [usize],
    count: &mut usize,
    rows: &mut usize,
    fault: &mut usize,
) -> u8
    ensures host_reader_told { HostReaderTold (how_large (grid_read reference_of (length out.old) (length ends.old) file.now place.old end)) result place fault }
    ensures puts_list { PutsList (numbers_of (grid_read reference_of (length out.old) (length ends.old) file.now place.old end).answer) out }
    ensures puts_list_2 { PutsList (ends_of (grid_read reference_of (length out.old) (length ends.old) file.now place.old end).answer) ends }
    ensures puts { Puts (λ s. s.numbers) (how_large (grid_read reference_of (length out.old) (length ends.old) file.now place.old end)).answer count }
    ensures puts_2 { Puts (λ s. s.rows) (how_large (grid_read reference_of (length out.old) (length ends.old) file.now place.old end)).answer rows }
{
    let mut at = State { place: *place, end };
    let r = grids::next_ref_grid(file, &mut at, out, ends);
    put_grid(r, at, place, count, rows, fault)
}

// Reads a list of lists of reals: 0, with all its numbers in `out` and how many in `count`, and where each row ends in `ends` and how many
// rows in `rows`.
pub fn hooflift_f64_grid(
    file: &[u8],
    place: &mut usize,
    end: usize,
    out: &mut [f64],
    ends: &mut [usize],
    count: &mut usize,
    rows: &mut usize,
    fault: &mut usize,
) -> u8
    ensures host_reader_told { HostReaderTold (how_large (grid_read real_of (length out.old) (length ends.old) file.now place.old end)) result place fault }
    ensures puts_reals { PutsReals (numbers_of (grid_read real_of (length out.old) (length ends.old) file.now place.old end).answer) out }
    ensures puts_list { PutsList (ends_of (grid_read real_of (length out.old) (length ends.old) file.now place.old end).answer) ends }
    ensures puts { Puts (λ s. s.numbers) (how_large (grid_read real_of (length out.old) (length ends.old) file.now place.old end)).answer count }
    ensures puts_2 { Puts (λ s. s.rows) (how_large (grid_read real_of (length out.old) (length ends.old) file.now place.old end)).answer rows }
{
    let mut at = State { place: *place, end };
    let r = grids::next_f64_grid(file, &mut at, out, ends);
    put_grid(r, at, place, count, rows, fault)
}

// Reads a list of lists of any reals: as `hooflift_f64_grid`, and never 13.
pub fn hooflift_any_f64_grid(
    file: &[u8],
    place: &mut usize,
    end: usize,
    out: &mut [f64],
    ends: &mut [usize],
    count: &mut usize,
    rows: &mut usize,
    fault: &mut usize,
) -> u8
    ensures host_reader_told { HostReaderTold (how_large (grid_read any_real_of (length out.old) (length ends.old) file.now place.old end)) result place fault }
    ensures puts_reals { PutsReals (numbers_of (grid_read any_real_of (length out.old) (length ends.old) file.now place.old end).answer) out }
    ensures puts_list { PutsList (ends_of (grid_read any_real_of (length out.old) (length ends.old) file.now place.old end).answer) ends }
    ensures puts { Puts (λ s. s.numbers) (how_large (grid_read any_real_of (length out.old) (length ends.old) file.now place.old end)).answer count }
    ensures puts_2 { Puts (λ s. s.rows) (how_large (grid_read any_real_of (length out.old) (length ends.old) file.now place.old end)).answer rows }
{
    let mut at = State { place: *place, end };
    let r = grids::next_real_grid(Reals::Any, file, &mut at, out, ends);
    put_grid(r, at, place, count, rows, fault)
}
