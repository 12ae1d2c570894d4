// The scan: a lent file becomes rows in lent memory, or one numbered refusal with a place.
//
// As `scan` of the Rust's scan.rs. The file is read twice, first to decide and count, then to write, so that a refusal
// changes nothing that was lent. Nothing is sized by an id: a record takes one row and one id slot, whatever its number.
#![tactic(auto)]

ghost use Rattle.std.specs.Prelude.{◌≡◌, true, false, ◌+◌, ◌≤◌, ◌<◌, min, max, length, take, drop};
ghost use Rattle.common.specs.Pick.{pick};
ghost use Rattle.lex.specs.Byte.{white};
ghost use Rattle.error.specs.Refusal.{told_result};
ghost use Rattle.record.specs.Text.{past};
ghost use Rattle.record.specs.Word.{same_bytes, marker};
ghost use Rattle.statement.specs.Rows.{mapped, told_row, header_row_of};
ghost use Rattle.statement.specs.Statement.{statement};
ghost use Rattle.statement.specs.Tidy.{tidy};
ghost use Rattle.statement.specs.declared.Section.TheVariants.{Outside, InData};
ghost use Rattle.scan.specs.File.{marked, reading_of};
ghost use Rattle.table.specs.Table.{rows_fit, headers_fit, row_put, header_put};
ghost use Rattle.scan.specs.ScanMemory.{header_room, data_room, headers_of, records_of, counts_of, headers_after, rows_after, scan_lent};
ghost use Rattle.scan.specs.Laws.{PassWrites};
ghost use Rattle.scan.specs.Neat.{Neat, writes, knows, told_passed, NeatTold};
ghost use Rattle.scan.specs.TidyRun.{RecordsRan};
ghost use Rattle.scan.specs.Fits.{HeaderFits, RecordFits};

use error::Fault;
use statement::{HeaderSpan, RecordSpan, Said, Section};

// How many header rows and data rows there are, and the largest id.
#[derive(Clone, Copy, PartialEq, Eq)]
pub struct Counts {
    pub headers: usize,
    pub records: usize,
    pub max: u32,
}

// What a pass does with the rows that it finds: it counts them alone; stores them; or stores them, told that every data record is tidy.
#[derive(Clone, Copy, PartialEq, Eq)]
enum Task {
    Count,
    Store,
    StoreTidy,
}

impl Task {
    fn writes(self) -> bool
        ensures { result ≡ writes self }
    {
        match self {
            Task::Count => false,
            Task::Store | Task::StoreTidy => true,
        }
    }

    fn knows(self) -> bool
        ensures { result ≡ knows self }
    {
        match self {
            Task::Count | Task::Store => false,
            Task::StoreTidy => true,
        }
    }

    // The task of the pass that follows one that has found the file to be accepted, and all its data records tidy or not.
    fn storing(tidy: bool) -> Task
        ensures writing { writes result ≡ true }
        ensures knowing { knows result ≡ tidy }
    {
        if tidy { Task::StoreTidy } else { Task::Store }
    }
}

// Whether a text begins with the marker, after whitespace.
fn is_marker(t: &[u8]) -> bool
    ensures { result ≡ same_bytes (take 12 (past white t.now)) marker }
{
    let a = record::leading_space(t);
    t[a..].starts_with(b"ISO-10303-21")
}

// Whether the file begins with the marker, after a byte-order mark and whitespace.
fn is_marked(s: &[u8]) -> bool
    ensures { result ≡ marked s.now }
{
    match s.strip_prefix(b"\xEF\xBB\xBF") {
        Some(rest) => is_marker(rest),
        None => is_marker(s),
    }
}

// Puts a header row as row k, where the pass writes, and answers the next row's number.
// Kept: `write` is the pass's task, which is one number more in a register than a closure would be; both passes are one loop, so that they cannot part.
fn put_header(out: &mut [u32], k: usize, span: HeaderSpan, write: bool) -> usize
    requires { (k < headers_fit (length out.old)) × HeaderFits 4294967295 (header_row_of span) }
    ensures out_after { out.new ≡ pick write (header_put out.old k (header_row_of span)) out.old }
    ensures value { result ≡ k + 1 }
{
    if !write {
        return k + 1;
    }
    table::put_header(out, k, span);
    k + 1
}

// Puts a data row as row k, where the pass writes.
fn put_record(out: &mut [u32], k: usize, span: RecordSpan, write: bool)
    requires { RecordFits 4294967295 (told_row span) }
    ensures { out.new ≡ pick write (row_put out.old k (told_row span)) out.old }
{
    if !write {
        return;
    }
    table::put_row(out, k, span);
}

// Where a run of records ended: the place, how many rows there are, and the largest id.
#[derive(Clone, Copy)]
pub struct RunEnd {
    pub place: usize,
    pub count: usize,
    pub max: u32,
}

// Stores the data records from a place on, each read by its first `;` alone, where it is known that all are tidy; up to the first
// statement that is no data record, and as long as rows are left.
fn run(
    s: &[u8],
    rows: &mut [u32],
    room: usize,
    from: usize,
    stored: usize,
    largest: u32,
    known: bool,
) -> RunEnd
    requires { (length s.now ≤ 4294967295) × (from ≤ length s.now) × (room ≤ rows_fit (length rows.old)) × (known ≡ true → Neat s.now InData (drop from s.now)) }
    ensures { RecordsRan s.now room known from stored largest rows.old result.place result.count result.max rows.new }
{
    // Kept: how far a turn goes is what the record says, so no range counts them.
    let mut place = from;
    let mut count = stored;
    let mut max = largest;
    while known & (count < room) {
        let Some((span, _, next)) = statement::tidy_record(s, place) else {
            return RunEnd { place, count, max };
        };
        put_record(rows, count, span, true);
        count += 1;
        max = max.max(span.id);
        place = next;
    }
    RunEnd { place, count, max }
}

// How many data rows so many numbers and slots hold.
fn data_room(numbers: usize, slots: usize) -> usize
    ensures { result ≡ min (rows_fit numbers) slots }
{
    table::rows_fit(numbers).min(slots)
}

// Reads the file in order: counts, tells whether every data record is tidy, and stores each row where that is its task. What is stored before
// a refusal stays, so the scan stores only where an earlier pass has found none. Where every data record is known to be tidy nothing of those
// that follow the first of a section is tested again.
fn pass(
    s: &[u8],
    headers: &mut [u32],
    rows: &mut [u32],
    slots: usize,
    task: Task,
) -> Result<(Counts, bool), Fault>
    requires { (length s.now ≤ 4294967295) × (knows task ≡ true → Neat s.now Outside s.now) }
    ensures result_value { told_passed result ≡ mapped counts_of (reading_of s.now (header_room headers.old) (data_room rows.old slots)) }
    ensures pass_writes { PassWrites (writes task) (reading_of s.now (header_room headers.old) (data_room rows.old slots)) headers_of headers.old headers.new }
    ensures pass_writes_2 { PassWrites (writes task) (reading_of s.now (header_room headers.old) (data_room rows.old slots)) records_of rows.old rows.new }
    ensures neat_told { NeatTold s.now result }
{
    let write = task.writes();
    let known = task.knows();
    let room = data_room(rows.len(), slots);
    // Kept: how far a turn goes is what the statement says, so no range counts the places.
    let mut i = 0;
    let mut section = Section::Outside;
    let mut h: usize = 0;
    let mut r: usize = 0;
    let mut max: u32 = 0;
    let mut all = true;
    loop {
        let n = statement::noted_statement(s, i, section)?;
        all = all & n.tidy;
        match n.said {
            Said::Ends => {
                let counts = Counts {
                    headers: h,
                    records: r,
                    max,
                };
                return Ok((counts, all));
            }
            Said::Moves(to, next) => {
                section = to;
                i = next;
            }
            Said::Heads(span, start, next) => {
                if table::headers_fit(headers.len()) <= h {
                    return Err(Fault::NoRow(start));
                }
                h = put_header(headers, h, span, write);
                section = Section::InHeader;
                i = next;
            }
            Said::Records(span, start, next) => {
                if room <= r {
                    return Err(Fault::NoRow(start));
                }
                put_record(rows, r, span, write);
                section = Section::InData;
                let t = run(s, rows, room, next, r + 1, max.max(span.id), known);
                r = t.count;
                max = t.max;
                i = t.place;
            }
        }
    }
}

// Scans the file into lent rows: header rows of four numbers, data rows of six, and so many id slots, one a record. 8 where
// the rows of a kind, or the id slots, are used up. A refusal changes nothing; rows beyond the answer's keep their numbers.
pub fn scan(
    file: &[u8],
    headers: &mut [u32],
    rows: &mut [u32],
    slots: usize,
) -> Result<Counts, Fault>
    ensures result_value { told_result result ≡ mapped counts_of (scan_lent file.now headers.old rows.old slots) }
    ensures headers_after { headers.new ≡ headers_after (scan_lent file.now headers.old rows.old slots) headers.old }
    ensures rows_after { rows.new ≡ rows_after (scan_lent file.now headers.old rows.old slots) rows.old }
{
    if 4294967295 < file.len() {
        return Err(Fault::TooLong);
    }
    if !is_marked(file) {
        return Err(Fault::NoMarker);
    }
    let (_, tidy) = pass(file, headers, rows, slots, Task::Count)?;
    let (counts, _) = pass(file, headers, rows, slots, Task::storing(tidy))?;
    Ok(counts)
}
