// A file's own answers: it is opened in lent memory, and a record or its units are served, in one call.
//
// The contracts speak of the file alone, by the definitions of document 01: of no index and no table that somebody may have changed
// in between. What the lent memory holds afterwards is what opening the file left.
#![tactic(auto)]

ghost use Rattle.std.specs.Prelude.{◌≡◌};
ghost use Rattle.params.specs.Answer.{onward};
ghost use Rattle.store.specs.Store.{scan_into};
ghost use Rattle.units.specs.Answer.{told_units};
ghost use Rattle.serve.specs.Serve.{told_served, record_in, units_of, OpeningLeaves};

use error::Fault;
use statement::RecordSpan;
use units::Values;

// The record of an id in a file: the last of that id.
pub fn record_of(
    file: &[u8],
    headers: &mut [u32],
    rows: &mut [u32],
    slots: &mut [u64],
    id: u32,
) -> Result<Option<RecordSpan>, Fault>
    ensures result_value { told_served result ≡ onward (record_in id) (scan_into file.now headers.old rows.old slots.old) }
    ensures opening_leaves { OpeningLeaves file.now headers.old rows.old slots.old headers.new rows.new slots.new }
{
    let t = store::open(file, headers, rows, slots)?;
    Ok(lookup::get(rows, slots, t, id))
}

// The unit answer of a file.
pub fn units_of(
    file: &[u8],
    headers: &mut [u32],
    rows: &mut [u32],
    slots: &mut [u64],
) -> Result<Values, Fault>
    ensures result_value { told_units result ≡ onward (units_of file.now) (scan_into file.now headers.old rows.old slots.old) }
    ensures opening_leaves { OpeningLeaves file.now headers.old rows.old slots.old headers.new rows.new slots.new }
{
    let t = store::open(file, headers, rows, slots)?;
    units::resolve(file, rows, slots, t)
}
