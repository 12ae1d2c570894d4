// The argument reader's grids: lists of lists of references and of reals, into lent numbers and lent row ends.
//
// As the Rust's next_ref_grid and next_f64_grid; its rows of rows become one list of numbers and one of row ends. A grid is gone through
// twice, as a list is: the first time it is only counted, so that a refusal leaves both lent lists alone. A row end is a usize, since
// it counts the numbers of a file that may have more of them than 32 bits can say.
#![tactic(auto)]

ghost use Rattle.std.specs.Prelude.{◌≡◌, ◌+◌, ◌-◌, ◌≤◌, ◌<◌, ◌^◌, [], map, length};
ghost use Rattle.std.specs.Float.{binary64};
ghost use Rattle.std.specs.Float.Ieee.{to_bits};
ghost use Rattle.error.specs.Refusal.{told_result};
ghost use Rattle.params.specs.Answer.{told_read};
ghost use Rattle.reals.specs.Scalar.{reference_of, real_of};
ghost use Rattle.reals.specs.Which.{real_by};
ghost use Rattle.lists.specs.Items.{items_in, list_by, Ready, filled};
ghost use Rattle.lists.specs.Answer.{fated, told_fate, roomed, next_by, values_of, written};
ghost use Rattle.lists.specs.Laws.{tally};
ghost use Rattle.lists.specs.Lent.{item_value, lent_of, kind_room};
ghost use Rattle.grids.specs.Grid.{size, flat, ends_from, grid_read, grid_fits, size_fits, how_large, numbers_of, ends_of, add_row, row_of};
ghost use Rattle.grids.specs.Code.{size_told, GridReady, laid_from};

use error::Fault;
use lists::{BadItem, Kind, Shape};
use params::State;
use reals::{NotRead, Reals};

// How many rows and numbers a grid has.
#[derive(Clone, Copy, PartialEq, Eq)]
pub struct Size {
    pub rows: usize,
    pub numbers: usize,
}

// Counts the rows of a grid's inside and their numbers, or finds the first bad row or item.
fn count_rows(b: &[u8], kind: Kind) -> Result<Size, BadItem>
    ensures { told_fate result ≡ fated (tally add_row (size 0 0)) (items_in (row_of kind) b.now) }
{
    let mut i: usize = 0;
    let mut rows: usize = 0;
    let mut numbers: usize = 0;
    // Kept: where the next row begins is found with this one; an iterator that hides that would be longer than the loop.
    loop {
        let w = lists::item_at(b, i);
        match lists::count_list(&b[w.start..w.stop], kind) {
            Ok(k) => numbers += k,
            Err(bad) => return Err(bad.moved(w.start)),
        }
        rows += 1;
        if w.bound == b.len() {
            return Ok(Size { rows, numbers });
        }
        i = w.bound + 1;
    }
}

// Counts the rows of a grid and their numbers, or finds what is wrong with it.
pub fn count_grid(t: &[u8], kind: Kind) -> Result<Size, BadItem>
    ensures { told_fate result ≡ fated (tally add_row (size 0 0)) (list_by (row_of kind) t.now) }
{
    match lists::shape_of(t) {
        Shape::NotList => Err(BadItem {
            why: NotRead::NotReal,
            place: 0,
        }),
        Shape::Blank => Ok(Size {
            rows: 0,
            numbers: 0,
        }),
        Shape::Full => {
            let n = t.len();
            match count_rows(&t[1..n - 1], kind) {
                Ok(size) => Ok(size),
                Err(bad) => Err(bad.moved(1)),
            }
        }
    }
}

// Whether the grid that starts at `start` reads and fits into so many numbers and row ends: how large it is, or its refusal.
fn room_for(t: &[u8], start: usize, kind: Kind, room: usize, ends: usize) -> Result<Size, Fault>
    requires { start + length t.now < 2 ^ 63 }
    ensures { told_result result ≡ roomed (size_fits room ends) start (fated (tally add_row (size 0 0)) (list_by (row_of kind) t.now)) }
{
    match count_grid(t, kind) {
        Err(bad) => Err(bad.fault(start)),
        Ok(size) => {
            if (size.numbers <= room) & (size.rows <= ends) {
                return Ok(size);
            }
            Err(Fault::TooShort(start))
        }
    }
}

// Writes the numbers of a row that reads, from `base` on, and says how many they are: references and reals alone are lent.
fn fill_row(kind: Kind, t: &[u8], base: usize, refs: &mut [u32], reals: &mut [f64]) -> usize
    requires base_bound { base ≤ kind_room kind (length refs.old) 0 (length reals.old) }
    requires ready { Ready (list_by (item_value kind) t.now) (kind_room kind (length refs.old) 0 (length reals.old) - base) }
    ensures value { result ≡ length (values_of (list_by (item_value kind) t.now)) }
    ensures reals_after { lent_of kind refs.new [] reals.new
        ≡ laid_from base (values_of (list_by (item_value kind) t.now)) (lent_of kind refs.old [] reals.old) }
{
    match kind {
        Kind::References => lists::read_refs(t, &mut refs[base..]).unwrap_or(0),
        Kind::Floats(which) => lists::read_reals(which, t, &mut reals[base..]).unwrap_or(0),
        Kind::Integers | Kind::Any => 0,
    }
}

// Writes the numbers of a grid's inside that all read, and the ends of its rows.
fn fill_rows(kind: Kind, b: &[u8], refs: &mut [u32], reals: &mut [f64], ends: &mut [usize])
    requires { GridReady (items_in (list_by (item_value kind)) b.now) (kind_room kind (length refs.old) 0 (length reals.old)) (length ends.old) }
    ensures reals_after { lent_of kind refs.new [] reals.new
        ≡ filled (flat (values_of (items_in (list_by (item_value kind)) b.now))) (lent_of kind refs.old [] reals.old) }
    ensures ends_after { ends.new ≡ filled (ends_from 0 (values_of (items_in (list_by (item_value kind)) b.now))) ends.old }
{
    let mut i: usize = 0;
    let mut rows: usize = 0;
    let mut numbers: usize = 0;
    // Kept: where the next row begins is found with this one; an iterator that hides that would be longer than the loop.
    loop {
        let w = lists::item_at(b, i);
        let k = fill_row(kind, &b[w.start..w.stop], numbers, refs, reals);
        numbers += k;
        ends[rows] = numbers;
        rows += 1;
        if w.bound == b.len() {
            return;
        }
        i = w.bound + 1;
    }
}

// Writes the numbers of a grid that all read, and the ends of its rows.
fn fill_grid(kind: Kind, t: &[u8], refs: &mut [u32], reals: &mut [f64], ends: &mut [usize])
    requires { GridReady (list_by (list_by (item_value kind)) t.now) (kind_room kind (length refs.old) 0 (length reals.old)) (length ends.old) }
    ensures reals_after { lent_of kind refs.new [] reals.new
        ≡ filled (flat (values_of (list_by (list_by (item_value kind)) t.now))) (lent_of kind refs.old [] reals.old) }
    ensures ends_after { ends.new ≡ filled (ends_from 0 (values_of (list_by (list_by (item_value kind)) t.now))) ends.old }
{
    match lists::shape_of(t) {
        Shape::NotList | Shape::Blank => {}
        Shape::Full => {
            let n = t.len();
            fill_rows(kind, &t[1..n - 1], refs, reals, ends)
        }
    }
}

// Reads the text of a grid, which starts at `start`, into the lent numbers of its kind, for which there is so much room, and into row
// ends.
fn read_grid(
    kind: Kind,
    room: usize,
    start: usize,
    t: &[u8],
    refs: &mut [u32],
    reals: &mut [f64],
    ends: &mut [usize],
) -> Result<Size, Fault>
    requires short { start + length t.now < 2 ^ 63 }
    requires roomy { room ≡ kind_room kind (length refs.old) 0 (length reals.old) }
    ensures result_value { told_result result ≡ size_told (roomed (grid_fits room (length ends.old)) start (list_by (list_by (item_value kind)) t.now)) }
    ensures reals_after { lent_of kind refs.new [] reals.new
        ≡ written (numbers_of (roomed (grid_fits room (length ends.old)) start (list_by (list_by (item_value kind)) t.now))) (lent_of kind refs.old [] reals.old) }
    ensures ends_after { ends.new ≡ written (ends_of (roomed (grid_fits room (length ends.old)) start (list_by (list_by (item_value kind)) t.now))) ends.old }
{
    let size = room_for(t, start, kind, room, ends.len())?;
    fill_grid(kind, t, refs, reals, ends);
    Ok(size)
}

// Reads a grid into the lent numbers of its kind, for which there is so much room, and into row ends.
fn next_grid(
    kind: Kind,
    room: usize,
    file: &[u8],
    at: &mut State,
    refs: &mut [u32],
    reals: &mut [f64],
    ends: &mut [usize],
) -> Result<Size, Fault>
    requires { room ≡ kind_room kind (length refs.old) 0 (length reals.old) }
    ensures result_value { told_read result at.new
        ≡ how_large (next_by (list_by (list_by (item_value kind))) (grid_fits room (length ends.old)) file.now at.old.place at.old.end) }
    ensures reals_after { lent_of kind refs.new [] reals.new
        ≡ written (numbers_of (next_by (list_by (list_by (item_value kind))) (grid_fits room (length ends.old)) file.now at.old.place at.old.end).answer)
        (lent_of kind refs.old [] reals.old) }
    ensures ends_after { ends.new
        ≡ written (ends_of (next_by (list_by (list_by (item_value kind))) (grid_fits room (length ends.old)) file.now at.old.place at.old.end).answer)
        ends.old }
{
    let w = params::param_span(file, at)?;
    let t = &file[w.start..w.stop];
    read_grid(kind, room, w.start, t, refs, reals, ends)
}

// Reads a grid of references into lent numbers and row ends.
pub fn next_ref_grid(
    file: &[u8],
    at: &mut State,
    out: &mut [u32],
    ends: &mut [usize],
) -> Result<Size, Fault>
    ensures result_value { told_read result at.new ≡ how_large (grid_read reference_of (length out.old) (length ends.old) file.now at.old.place at.old.end) }
    ensures out_after { out.new
        ≡ written (numbers_of (grid_read reference_of (length out.old) (length ends.old) file.now at.old.place at.old.end).answer) out.old }
    ensures ends_after { ends.new
        ≡ written (ends_of (grid_read reference_of (length out.old) (length ends.old) file.now at.old.place at.old.end).answer) ends.old }
{
    let mut reals: [f64; 0] = [];
    next_grid(Kind::References, out.len(), file, at, out, &mut reals, ends)
}

// Reads a grid of reals, of the class or any, into lent numbers and row ends.
pub fn next_real_grid(
    which: Reals,
    file: &[u8],
    at: &mut State,
    out: &mut [f64],
    ends: &mut [usize],
) -> Result<Size, Fault>
    ensures result_value { told_read result at.new ≡ how_large (grid_read (real_by which) (length out.old) (length ends.old) file.now at.old.place at.old.end) }
    ensures out_after { map (to_bits binary64) out.new
        ≡ written (numbers_of (grid_read (real_by which) (length out.old) (length ends.old) file.now at.old.place at.old.end).answer)
        (map (to_bits binary64) out.old) }
    ensures ends_after { ends.new
        ≡ written (ends_of (grid_read (real_by which) (length out.old) (length ends.old) file.now at.old.place at.old.end).answer) ends.old }
{
    let mut refs: [u32; 0] = [];
    next_grid(
        Kind::Floats(which),
        out.len(),
        file,
        at,
        &mut refs,
        out,
        ends,
    )
}

// Reads a grid of reals of the class into lent numbers and row ends.
pub fn next_f64_grid(
    file: &[u8],
    at: &mut State,
    out: &mut [f64],
    ends: &mut [usize],
) -> Result<Size, Fault>
    ensures result_value { told_read result at.new ≡ how_large (grid_read real_of (length out.old) (length ends.old) file.now at.old.place at.old.end) }
    ensures out_after { map (to_bits binary64) out.new
        ≡ written (numbers_of (grid_read real_of (length out.old) (length ends.old) file.now at.old.place at.old.end).answer)
        (map (to_bits binary64) out.old) }
    ensures ends_after { ends.new
        ≡ written (ends_of (grid_read real_of (length out.old) (length ends.old) file.now at.old.place at.old.end).answer) ends.old }
{
    next_real_grid(Reals::Class, file, at, out, ends)
}
