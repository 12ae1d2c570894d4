// The rows of many ids in one call: what a host asks that follows all references of a record, or of a file.
//
// Each answer is `index::get`'s, but not each in turn: in a part of the ids the rows that can be told without reading one come first, then
// all of these are looked at, and the search follows for the ids that are left. A loop that reads and never jumps by what it read lets
// the processor wait for many lines of memory at once; a search waits for one.
#![tactic(auto)]

ghost use Rattle.std.specs.Prelude.{ℕ, ◌≡◌, true, false, ◌&&◌, ◌+◌, ◌-◌, ◌*◌, ◌/◌, ◌%◌, ◌≤◌, ◌<◌, min, max, leb, eqb, length, get_or};
ghost use Rattle.index.specs.Search.{first_row, searched, range_width};
ghost use Rattle.find_many.specs.Finds.{row_number, RowsTold};
ghost use Rattle.find_many.specs.Hints.{indexed_rows, searched_number, Hint, DenseRow, EvenRow, start_near, StartsAt, NearRow, RisesByStep, Guided};
ghost use Rattle.find_many.specs.Sweep.{Swept, SweptBy};

use index::Ids;

// A row's number, or 4294967295, which no row has.
pub fn number_of(row: Option<u32>) -> u32
    ensures { result ≡ row_number row }
{
    row.unwrap_or(4294967295)
}

// The row of an id by its number, as `index::get` finds it.
pub fn row_of(rows: &[u32], slots: &[u64], b: Ids, id: u32) -> u32
    ensures { result ≡ row_number (searched rows.now slots.now b id) }
{
    let r = index::first_row(slots, b, id);
    if index::stands(rows, slots.len(), b.count, r, id) {
        return r;
    }
    number_of(index::seek(rows, slots, b, id))
}

// Writes what `tell` says of each id of a part, and of the number beside it, in the place of that number.
fn sweep<F: Fn(u32, u32) -> u32>(ids: &[u32], found: &mut [u32], from: usize, to: usize, tell: F)
    requires part { (from ≤ to) × (to ≤ length ids.now) × (to ≤ length found.old) }
    requires tells { (i : ℕ) → from ≤ i → i < to → F.pre tell (get_or ids.now i 0) (get_or found.old i 0) }
    ensures { SweptBy (λ k r v. F.post tell k r v) ids.now found.old from to found.new }
{
    for i in from..to {
        found[i] = tell(ids[i], found[i]);
    }
}

// Whether the numbers beside the slots say that ids are dense in file order.
fn filed(b: Ids) -> bool
    ensures { result ≡ (b.direct && (b.distinct && eqb b.shift 0)) }
{
    let dense = b.distinct & (b.shift == 0);
    b.direct & dense
}

// The row that is as far from the first as an id is from the first id; 4294967295 for an id before the first.
fn dense_row(first: u32, id: u32) -> u32
    ensures { DenseRow first id result }
{
    if id < first { 4294967295 } else { id - first }
}

// The step by which n ids rise from the first to the last, or 0 where there is none.
fn step_of(n: usize, first: u32, last: u32) -> u32
    requires { 1 < n }
    ensures { 0 < result → result * (n - 1) ≡ last - first }
{
    if last <= first {
        return 0;
    }
    let span = (last - first) as usize;
    let step = span / (n - 1);
    if step * (n - 1) == span {
        step as u32
    } else {
        0
    }
}

// The step by which the ids of n rows rise in file order, where the rows are told by it; else 0.
fn step_for(b: Ids, n: usize) -> u32
    ensures { 0 < result → RisesByStep b n result }
{
    if n < 2 {
        return 0;
    }
    if b.distinct & (b.shift == 0) {
        return 0;
    }
    if b.direct & b.even {
        return step_of(n, b.first, b.last);
    }
    0
}

// Whether the rows are told by the guide.
fn is_guided(b: Ids, n: usize) -> bool
    ensures { result ≡ true → Guided b n }
{
    if n < 2 {
        return false;
    }
    if b.shift == 0 {
        return false;
    }
    if b.even {
        return false;
    }
    b.direct & b.distinct
}

// The row of an id where ids rise by one step. `scale` is 2^32 by the step, rounded up: a product serves for a division, and is tested.
fn even_row(first: u32, step: u32, scale: u64, id: u32) -> u32
    requires { scale ≤ 4294967296 }
    ensures { EvenRow first step id result }
{
    if id < first {
        return 4294967295;
    }
    let far = (id - first) as u64;
    let q = far * scale / 4294967296;
    if q * (step as u64) == far {
        q as u32
    } else {
        4294967295
    }
}

// The lesser of two numbers.
fn least(a: u64, b: usize) -> usize
    ensures { result ≡ min a b }
{
    if a < b as u64 { a as usize } else { b }
}

// Where an id's range begins by the guide to n rows; the last range has no end of its own, and an id in it counts as in the one before.
fn range_start(slots: &[u64], n: usize, b: Ids, id: u32) -> u32
    requires { (1 < n) × (n ≤ length slots.now) × (n ≤ 1073741824) }
    ensures { result ≡ start_near slots.now n b id }
{
    let q = index::range_of(id.saturating_sub(b.first), b.shift).min(n - 2);
    least(slots[q], n) as u32
}

// How far an id that is so far above the first stands in its range.
fn inside_of(far: u32, shift: u32) -> u32
    ensures { result ≡ far % range_width shift }
{
    far % (1u32 << (shift % 32))
}

// The row of an id by the guide, where it would stand if its range, which begins at `start`, were filled evenly; 4294967295 where the guide
// tells none.
fn near_row(slots: &[u64], n: usize, b: Ids, start: u32, id: u32) -> u32
    requires { (1 < n) × (n ≤ length slots.now) × (n ≤ 1073741824) × (start ≡ start_near slots.now n b id) }
    ensures { NearRow slots.now n b id result }
{
    if id < b.first {
        return 4294967295;
    }
    if b.last <= id {
        return 4294967295;
    }
    let far = id - b.first;
    let q = index::range_of(far, b.shift);
    if n - 1 <= q {
        return 4294967295;
    }
    let lo = start.max(1) as usize;
    let hi = least(slots[q + 1], n - 1);
    if hi <= lo {
        return 4294967295;
    }
    (lo + common::share(inside_of(far, b.shift), (hi - lo) as u32, b.shift)) as u32
}

// The rows of ids by the guide. The slots of all are read before any is made use of, so that their lines are fetched side by side.
fn guide_near(
    rows: &[u32],
    slots: &[u64],
    b: Ids,
    ids: &[u32],
    found: &mut [u32],
    from: usize,
    to: usize,
)
    requires { (from ≤ to) × (to ≤ length ids.now) × (to ≤ length found.old) × Guided b (indexed_rows rows.now slots.now b) }
    ensures { Swept (Hint rows.now slots.now b) ids.now found.old from to found.new }
{
    let n = index::room(rows.len(), slots.len(), b.count);
    sweep(ids, found, from, to, |id, _| range_start(slots, n, b, id));
    sweep(
        ids,
        found,
        from,
        to,
        |id, start| near_row(slots, n, b, start, id),
    );
}

// The rows that can be told without reading one: by the distance, the step or the guide, or where a search looks first.
fn near(rows: &[u32], slots: &[u64], b: Ids, ids: &[u32], found: &mut [u32], from: usize, to: usize)
    requires { (from ≤ to) × (to ≤ length ids.now) × (to ≤ length found.old) }
    ensures { Swept (Hint rows.now slots.now b) ids.now found.old from to found.new }
{
    if filed(b) {
        sweep(ids, found, from, to, |id, _| dense_row(b.first, id));
        return;
    }
    let n = index::room(rows.len(), slots.len(), b.count);
    let step = step_for(b, n);
    if 0 < step {
        let scale = 4294967295 / (step as u64) + 1;
        sweep(
            ids,
            found,
            from,
            to,
            |id, _| even_row(b.first, step, scale, id),
        );
        return;
    }
    if is_guided(b, n) {
        guide_near(rows, slots, b, ids, found, from, to);
        return;
    }
    sweep(ids, found, from, to, |id, _| index::first_row(slots, b, id));
}

// The row of an id: the one that is told, where it has the id, else what is sought.
fn settled(rows: &[u32], slots: &[u64], b: Ids, r: u32, id: u32) -> u32
    requires { Hint rows.now slots.now b id r }
    ensures { result ≡ searched_number rows.now slots.now b id }
{
    if index::stands(rows, slots.len(), b.count, r, id) {
        return r;
    }
    row_of(rows, slots, b, id)
}

// The rows of a part of the ids: what can be told is told, then all of it is looked at; where all have their ids that is all. Where one has
// not, as by the guide nearly always, the rows are near at least when they are looked at one by one.
fn get_part(
    rows: &[u32],
    slots: &[u64],
    b: Ids,
    ids: &[u32],
    found: &mut [u32],
    from: usize,
    to: usize,
)
    requires { (from ≤ to) × (to ≤ length ids.now) × (to ≤ length found.old) }
    ensures { Swept (λ k v. v ≡ searched_number rows.now slots.now b k) ids.now found.old from to found.new }
{
    near(rows, slots, b, ids, found, from, to);
    let n = index::room(rows.len(), slots.len(), b.count);
    if table::all_have(rows, n, ids, found, from, to) {
        return;
    }
    sweep(
        ids,
        found,
        from,
        to,
        |id, row| settled(rows, slots, b, row, id),
    );
}

// The rows of all ids, 128 at a time, so that the lines which one sweep over a part fetched are still near for the next.
fn get_parts(rows: &[u32], slots: &[u64], b: Ids, ids: &[u32], found: &mut [u32])
    requires { length ids.now ≤ length found.old }
    ensures { Swept (λ k v. v ≡ searched_number rows.now slots.now b k) ids.now found.old 0 (length ids.now) found.new }
{
    // Kept: a part ends where the next begins, so that a range by steps of 128 would say each bound twice.
    let mut i: usize = 0;
    while i < ids.len() {
        let to = i + (ids.len() - i).min(128);
        get_part(rows, slots, b, ids, found, i, to);
        i = to;
    }
}

// The row of each id, at the start of `found`; true. Where `found` is shorter than the ids, false, and it keeps its numbers.
pub fn get_all(rows: &[u32], slots: &[u64], b: Ids, ids: &[u32], found: &mut [u32]) -> bool
    ensures value { result ≡ leb (length ids.now) (length found.old) }
    ensures rows_told { RowsTold (λ k. row_number (searched rows.now slots.now b k)) ids.now found.old found.new }
{
    if found.len() < ids.len() {
        return false;
    }
    get_parts(rows, slots, b, ids, found);
    true
}
