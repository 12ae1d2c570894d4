// What a file needs of lent memory, told before anything is lent: its rows are counted and not written, and so are the numbers of its lists and
// grids, the rows of its grids and the bytes of its texts.
//
// A host asks this once, lends tables and lists of just this size, and no function then answers 8, nor 16 for a list, a grid or a text; what a
// reader finds that is set into a list aside, as the strings inside lists, for which a host asks `hooflift_text_length`.
#![tactic(auto)]

ghost use Rattle.std.specs.Prelude.{◌≡◌, length};
ghost use Rattle.error.specs.Refusal.{told_result};
ghost use Rattle.statement.specs.Rows.{mapped};
ghost use Rattle.scan.specs.File.{reading_of};
ghost use Rattle.argument_sizes.specs.Lengths.{record_sizes_of};
ghost use Rattle.argument_sizes.specs.Rules.{greater_sizes};
ghost use Rattle.needs.specs.Needs.{needs_in, needs_of};

use argument_sizes::Sizes;
use error::Fault;
use statement::{Said, Section};

// How many header rows and data rows, the largest id, the most numbers of a list or a grid, the longest text, and the most rows of a grid.
#[derive(Clone, Copy)]
pub struct Needs {
    pub headers: usize,
    pub records: usize,
    pub max: u32,
    pub items: usize,
    pub text: usize,
    pub rows: usize,
}

// What is needed so far, and by one record more.
fn with_record(most: Sizes, s: &[u8], place: usize, end: usize, complex: u32) -> Sizes
    ensures { result ≡ greater_sizes most (record_sizes_of s.now place end complex) }
{
    argument_sizes::larger_each(most, argument_sizes::record_sizes(s, place, end, complex))
}

// Reads the file in order and counts. There are never more rows than bytes.
fn pass(s: &[u8]) -> Result<Needs, Fault>
    ensures { told_result result ≡ mapped (needs_in s.now) (reading_of s.now (length s.now) (length s.now)) }
{
    let mut i = 0;
    let mut section = Section::Outside;
    let mut headers: usize = 0;
    let mut records: usize = 0;
    let mut max: u32 = 0;
    let mut most = Sizes {
        text: 0,
        items: 0,
        rows: 0,
    };
    // Kept: where a statement ends is found by reading it, so there is no range to go through.
    'read: loop {
        let said = statement::next_statement(s, i, section)?;
        match said {
            Said::Ends => {
                return Ok(Needs {
                    headers,
                    records,
                    max,
                    items: most.items,
                    text: most.text,
                    rows: most.rows,
                });
            }
            Said::Moves(to, next) => {
                section = to;
                i = next;
            }
            Said::Heads(span, _, next) => {
                section = Section::InHeader;
                headers += 1;
                most = with_record(most, s, span.args.start, span.args.end, 0);
                i = next;
            }
            Said::Records(span, _, next) => {
                section = Section::InData;
                records += 1;
                max = max.max(span.id);
                most = with_record(most, s, span.args.start, span.args.end, span.complex);
                i = next;
            }
        }
    }
}

// What a file needs; or what the scan refuses it with, whatever is lent. The scan itself, with nothing lent, tells all that comes before the
// first record.
pub fn count(file: &[u8]) -> Result<Needs, Fault>
    ensures { told_result result ≡ needs_of file.now }
{
    let mut headers = [0u32; 1];
    let mut rows = [0u32; 1];
    match scan::scan(file, &mut headers[..0], &mut rows[..0], 0) {
        Ok(_) => pass(file),
        Err(f) => match f {
            Fault::NoRow(_) => pass(file),
            _ => Err(f),
        },
    }
}
