// The argument reader's lists: references, integers and reals into lent numbers.
//
// As the Rust's next_ref_list, next_i64_list and next_f64_list, with split_top_level and trim_span. A list is gone through twice: the
// first time it is only counted, so that a refusal leaves the lent numbers alone, and the second time it is written; short lists of reals
// are kept from the first time. What a text says as a list, and its items one after another, are there for the crates above, which read
// lists of lists and lists of any length.
#![tactic(auto)]

ghost use Rattle.std.specs.Prelude.{◌≡◌, ◌+◌, ◌-◌, ◌≤◌, ◌<◌, ◌^◌, min, [], ◌++◌, map, length, take, drop, set};
ghost use Rattle.std.specs.Float.{binary64};
ghost use Rattle.std.specs.Float.Ieee.{to_bits};
ghost use Rattle.error.specs.Refusal.{told, told_result, refusal};
ghost use Rattle.params.specs.Answer.{told_read};
ghost use Rattle.reals.specs.Scalar.{reference_of, whole_of, real_of};
ghost use Rattle.reals.specs.Which.{real_by};
ghost use Rattle.lists.specs.Items.{item_end, ItemAt, told_verdict, ShapeAt, items_in, list_by, list_of, Ready, filled, Kept, Held};
ghost use Rattle.lists.specs.Answer.{roomed, count_of, CountedIn, told_fate, fated, mute, kind_of, values_of, next_by, fits_in, how_many, written};
ghost use Rattle.scalars.specs.Answer.{number_of};
ghost use Rattle.lists.specs.Lent.{item_value, lent_of, lent_in, SameRooms, kind_room, fits_in_rooms, kept_at};
ghost use Rattle.lists.specs.Read.{list_read};

use error::Fault;
use params::State;
use reals::{NotRead, Reals};

// An item without the whitespace at its ends, and its comma or the end of the list.
#[derive(Clone, Copy)]
pub struct Item {
    pub start: usize,
    pub stop: usize,
    pub bound: usize,
}

// What a text is: no list, a list without items, or one with them.
#[derive(Clone, Copy)]
pub enum Shape {
    NotList,
    Blank,
    Full,
}

// What the items of a list are to be. `Any` is no reading of reals, as `Reals::Any` is: anything is such an item, and items are only counted.
#[derive(Clone, Copy)]
pub enum Kind {
    References,
    Integers,
    Floats(Reals),
    Any,
}

// Why an item of a text does not read, and how far into the text it stands. What is no reference, integer or list is not read either: 12.
#[derive(Clone, Copy, PartialEq, Eq)]
pub struct BadItem {
    pub why: NotRead,
    pub place: usize,
}

impl BadItem {
    // The same, seen from so many bytes further back. A place past the greatest number counts as that one, here and below.
    pub fn moved(self, by: usize) -> BadItem
        ensures { result ≡ record { why = self.why; place = min (by + self.place) 18446744073709551615 } }
    {
        BadItem {
            why: self.why,
            place: by.saturating_add(self.place),
        }
    }

    // The refusal of the text that starts at `start`.
    pub fn fault(self, start: usize) -> Fault
        ensures { told result ≡ refusal (number_of self.why) 0 (min (start + self.place) 18446744073709551615) }
    {
        scalars::refused_real(self.why, start.saturating_add(self.place))
    }
}

// Where the item ends that begins at i: at its comma, or with the list.
fn item_end(b: &[u8], i: usize) -> usize
    requires { i ≤ length b.now }
    ensures b_value { drop result b.now ≡ item_end (drop i b.now) }
    ensures lower_bound { (i ≤ result) × (result ≤ length b.now) }
{
    match params::param_end(b, i) {
        Ok(cut) => cut.bound,
        Err(_) => b.len(),
    }
}

// The item of a list's inside from i on, or from its end where i is past that.
pub fn item_at(b: &[u8], i: usize) -> Item
    ensures { ItemAt b.now (min i (length b.now)) result }
{
    let from = i.min(b.len());
    let bound = item_end(b, from);
    let w = scalars::trim(&b[from..bound]);
    Item {
        start: from + w.start,
        stop: from + w.stop,
        bound,
    }
}

pub fn shape_of(t: &[u8]) -> Shape
    ensures { ShapeAt t.now result }
{
    let n = t.len();
    if n < 2 {
        return Shape::NotList;
    }
    if t[0] != b'(' {
        return Shape::NotList;
    }
    if t[n - 1] != b')' {
        return Shape::NotList;
    }
    let w = scalars::trim(&t[1..n - 1]);
    if w.start == w.stop {
        return Shape::Blank;
    }
    Shape::Full
}

// The lent numbers: a room for each kind of item. Those of another kind than is read have no places.
#[derive(Drop)]
struct Rooms<'a> {
    refs: &'a mut [u32],
    wholes: &'a mut [i64],
    reals: &'a mut [f64],
}

// Keeps a number at its place, if there is such a place.
fn keep<T: Copy>(out: &mut [T], n: usize, v: T)
    ensures { out.new ≡ set out.old n v }
{
    if n < out.len() {
        out[n] = v;
    }
}

// Reads an item of its kind, and keeps it as the n-th of the numbers of that kind.
fn take_item(kind: Kind, t: &[u8], n: usize, rooms: &mut Rooms) -> Result<(), NotRead>
    ensures same { SameRooms rooms.old rooms.new }
    ensures result_value { told_verdict result ≡ mute (item_value kind t.now) }
    ensures reals_after { lent_in kind rooms.new
        ≡ kept_at n (item_value kind t.now) (lent_in kind rooms.old) }
{
    match kind {
        Kind::References => match reals::parse_ref(t) {
            Some(v) => keep(rooms.refs, n, v),
            None => return Err(NotRead::NotReal),
        },
        Kind::Integers => match reals::parse_int(t) {
            Some(v) => keep(rooms.wholes, n, v),
            None => return Err(NotRead::NotReal),
        },
        Kind::Floats(which) => match reals::read_real(which, t) {
            Ok(v) => keep(rooms.reals, n, v),
            Err(why) => return Err(why),
        },
        Kind::Any => {}
    }
    Ok(())
}

// Reads the items of a list's inside and keeps the first of them, as many as there is room for; or finds the first bad one.
fn take_items(kind: Kind, b: &[u8], rooms: &mut Rooms) -> Result<usize, BadItem>
    ensures same { SameRooms rooms.old rooms.new }
    ensures result_value { told_fate result ≡ fated length (items_in (item_value kind) b.now) }
    ensures counted_in { CountedIn (length b.now + 1) result }
    ensures kept { Kept (items_in (item_value kind) b.now)
        (lent_in kind rooms.old)
        (lent_in kind rooms.new) }
{
    let mut i: usize = 0;
    let mut n: usize = 0;
    // Kept: where the next item begins is found with this one; an iterator that hides that would be longer than the loop.
    loop {
        let w = item_at(b, i);
        let t = &b[w.start..w.stop];
        match take_item(kind, t, n, rooms) {
            Ok(()) => n += 1,
            Err(why) => {
                return Err(BadItem {
                    why,
                    place: w.start,
                });
            }
        }
        if w.bound == b.len() {
            return Ok(n);
        }
        i = w.bound + 1;
    }
}

// Reads the items of a list and keeps the first of them, as many as there is room for; or finds what is wrong with it.
fn take_list(kind: Kind, t: &[u8], rooms: &mut Rooms) -> Result<usize, BadItem>
    ensures same { SameRooms rooms.old rooms.new }
    ensures result_value { told_fate result ≡ fated length (list_by (item_value kind) t.now) }
    ensures counted_in { CountedIn (length t.now) result }
    ensures kept { Kept (list_by (item_value kind) t.now)
        (lent_in kind rooms.old)
        (lent_in kind rooms.new) }
{
    match shape_of(t) {
        Shape::NotList => Err(BadItem {
            why: NotRead::NotReal,
            place: 0,
        }),
        Shape::Blank => Ok(0),
        Shape::Full => {
            let n = t.len();
            match take_items(kind, &t[1..n - 1], rooms) {
                Ok(k) => Ok(k),
                Err(bad) => Err(bad.moved(1)),
            }
        }
    }
}

// Counts the items of a list, or finds what is wrong with it.
pub fn count_list(t: &[u8], kind: Kind) -> Result<usize, BadItem>
    ensures result_value { told_fate result ≡ fated length (list_by (kind_of kind) t.now) }
    ensures counted_in { CountedIn (length t.now) result }
{
    let mut rooms = Rooms {
        refs: &mut [],
        wholes: &mut [],
        reals: &mut [],
    };
    take_list(kind, t, &mut rooms)
}

// The one of three rooms that is for numbers of a kind; there is none for any items.
fn room_of(kind: Kind, refs: usize, wholes: usize, reals: usize) -> usize
    ensures { result ≡ kind_room kind refs wholes reals }
{
    match kind {
        Kind::References => refs,
        Kind::Integers => wholes,
        Kind::Floats(_) => reals,
        Kind::Any => 0,
    }
}

// Writes the first n of the reals that were kept.
fn lay(first: &[f64], n: usize, out: &mut [f64])
    requires { (n ≤ length first.now) × (n ≤ length out.old) }
    ensures { out.new ≡ take n first.now ++ drop n out.old }
{
    out[..n].copy_from_slice(&first[..n]);
}

// Writes the n numbers of a list, the first of which were kept if they are reals: only what is not all kept is gone through again.
fn write_list(kind: Kind, t: &[u8], first: &[f64], n: usize, rooms: &mut Rooms)
    requires ready { Ready (list_by (item_value kind) t.now) (kind_room kind (length rooms.old.refs.now) (length rooms.old.wholes.now) (length rooms.old.reals.now)) }
    requires n_value { n ≡ length (values_of (list_by (item_value kind) t.now)) }
    requires held { Held (list_by (item_value kind) t.now) (lent_of kind [] [] first.now) }
    ensures same { SameRooms rooms.old rooms.new }
    ensures reals_after { lent_in kind rooms.new
        ≡ filled (values_of (list_by (item_value kind) t.now)) (lent_in kind rooms.old) }
{
    if n <= room_of(kind, 0, 0, first.len()) {
        lay(first, n, rooms.reals);
        return;
    }
    // It reads, as the first pass found.
    let _ = take_list(kind, t, rooms);
}

// Goes through a list for the first time: it is counted, and the first of its reals are kept.
fn first_pass(kind: Kind, t: &[u8], first: &mut [f64]) -> Result<usize, BadItem>
    ensures result_value { told_fate result ≡ fated length (list_by (item_value kind) t.now) }
    ensures counted_in { CountedIn (length t.now) result }
    ensures kept { Kept (list_by (item_value kind) t.now) (lent_of kind [] [] first.old) (lent_of kind [] [] first.new) }
{
    let mut rooms = Rooms {
        refs: &mut [],
        wholes: &mut [],
        reals: first,
    };
    take_list(kind, t, &mut rooms)
}

// Reads the text of a list, which starts at `start`, into the lent numbers of its kind. Most lists are the coordinates of one point, and a
// real takes long to read: as many as `first` has places for are written from the first pass.
fn read_list(
    kind: Kind,
    start: usize,
    t: &[u8],
    first: &mut [f64],
    rooms: &mut Rooms,
) -> Result<usize, Fault>
    requires { start + length t.now < 2 ^ 63 }
    ensures same { SameRooms rooms.old rooms.new }
    ensures result_value { told_result result ≡ count_of (roomed (fits_in_rooms kind rooms.old) start (list_by (item_value kind) t.now)) }
    ensures reals_after { lent_in kind rooms.new
        ≡ written (roomed (fits_in_rooms kind rooms.old) start (list_by (item_value kind) t.now))
        (lent_in kind rooms.old) }
{
    let n = match first_pass(kind, t, first) {
        Ok(n) => n,
        Err(bad) => return Err(bad.fault(start)),
    };
    if room_of(
        kind,
        rooms.refs.len(),
        rooms.wholes.len(),
        rooms.reals.len(),
    ) < n
    {
        return Err(Fault::TooShort(start));
    }
    write_list(kind, t, first, n, rooms);
    Ok(n)
}

// Reads the text of a list of references into lent numbers; places are told from the text's start.
pub fn read_refs(t: &[u8], out: &mut [u32]) -> Result<usize, Fault>
    ensures result_value { told_result result ≡ count_of (roomed (fits_in (length out.old)) 0 (list_of reference_of t.now)) }
    ensures out_after { out.new ≡ written (roomed (fits_in (length out.old)) 0 (list_of reference_of t.now)) out.old }
{
    let mut rooms = Rooms {
        refs: out,
        wholes: &mut [],
        reals: &mut [],
    };
    read_list(Kind::References, 0, t, &mut [], &mut rooms)
}

// Reads the text of a list of integers into lent numbers; places are told from the text's start.
pub fn read_wholes(t: &[u8], out: &mut [i64]) -> Result<usize, Fault>
    ensures result_value { told_result result ≡ count_of (roomed (fits_in (length out.old)) 0 (list_of whole_of t.now)) }
    ensures out_after { out.new ≡ written (roomed (fits_in (length out.old)) 0 (list_of whole_of t.now)) out.old }
{
    let mut rooms = Rooms {
        refs: &mut [],
        wholes: out,
        reals: &mut [],
    };
    read_list(Kind::Integers, 0, t, &mut [], &mut rooms)
}

// Reads the text of a list of reals into lent numbers; places are told from the text's start.
pub fn read_reals(which: Reals, t: &[u8], out: &mut [f64]) -> Result<usize, Fault>
    ensures result_value { told_result result ≡ count_of (roomed (fits_in (length out.old)) 0 (list_of (real_by which) t.now)) }
    ensures out_after { map (to_bits binary64) out.new
        ≡ written (roomed (fits_in (length out.old)) 0 (list_of (real_by which) t.now)) (map (to_bits binary64) out.old) }
{
    let mut first = [0.0; 16];
    let mut rooms = Rooms {
        refs: &mut [],
        wholes: &mut [],
        reals: out,
    };
    read_list(Kind::Floats(which), 0, t, &mut first, &mut rooms)
}

// Reads a list into the lent numbers of its kind.
fn next_list(
    kind: Kind,
    file: &[u8],
    at: &mut State,
    first: &mut [f64],
    rooms: &mut Rooms,
) -> Result<usize, Fault>
    ensures same { SameRooms rooms.old rooms.new }
    ensures result_value { told_read result at.new
        ≡ how_many (next_by (list_by (item_value kind)) (fits_in_rooms kind rooms.old) file.now at.old.place at.old.end) }
    ensures reals_after { lent_in kind rooms.new
        ≡ written (next_by (list_by (item_value kind)) (fits_in_rooms kind rooms.old) file.now at.old.place at.old.end).answer
        (lent_in kind rooms.old) }
{
    let w = params::param_span(file, at)?;
    let t = &file[w.start..w.stop];
    read_list(kind, w.start, t, first, rooms)
}

// Reads a list of references into lent numbers.
pub fn next_ref_list(file: &[u8], at: &mut State, out: &mut [u32]) -> Result<usize, Fault>
    ensures result_value { told_read result at.new ≡ how_many (list_read reference_of (length out.old) file.now at.old.place at.old.end) }
    ensures out_after { out.new ≡ written (list_read reference_of (length out.old) file.now at.old.place at.old.end).answer out.old }
{
    let mut rooms = Rooms {
        refs: out,
        wholes: &mut [],
        reals: &mut [],
    };
    next_list(Kind::References, file, at, &mut [], &mut rooms)
}

// Reads a list of integers into lent numbers.
pub fn next_i64_list(file: &[u8], at: &mut State, out: &mut [i64]) -> Result<usize, Fault>
    ensures result_value { told_read result at.new ≡ how_many (list_read whole_of (length out.old) file.now at.old.place at.old.end) }
    ensures out_after { out.new ≡ written (list_read whole_of (length out.old) file.now at.old.place at.old.end).answer out.old }
{
    let mut rooms = Rooms {
        refs: &mut [],
        wholes: out,
        reals: &mut [],
    };
    next_list(Kind::Integers, file, at, &mut [], &mut rooms)
}

// Reads a list of reals, of the class or any, into lent numbers.
pub fn next_real_list(
    which: Reals,
    file: &[u8],
    at: &mut State,
    out: &mut [f64],
) -> Result<usize, Fault>
    ensures result_value { told_read result at.new ≡ how_many (list_read (real_by which) (length out.old) file.now at.old.place at.old.end) }
    ensures out_after { map (to_bits binary64) out.new
        ≡ written (list_read (real_by which) (length out.old) file.now at.old.place at.old.end).answer (map (to_bits binary64) out.old) }
{
    let mut first = [0.0; 16];
    let mut rooms = Rooms {
        refs: &mut [],
        wholes: &mut [],
        reals: out,
    };
    next_list(Kind::Floats(which), file, at, &mut first, &mut rooms)
}

// Reads a list of reals of the class into lent numbers.
pub fn next_f64_list(file: &[u8], at: &mut State, out: &mut [f64]) -> Result<usize, Fault>
    ensures result_value { told_read result at.new ≡ how_many (list_read real_of (length out.old) file.now at.old.place at.old.end) }
    ensures out_after { map (to_bits binary64) out.new
        ≡ written (list_read real_of (length out.old) file.now at.old.place at.old.end).answer (map (to_bits binary64) out.old) }
{
    next_real_list(Reals::Class, file, at, out)
}
