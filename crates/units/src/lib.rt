// The unit answer of a file: how many millimetres and radians its numbers stand for, and its tolerance.
//
// As the Rust's units.rs, above the factors of single units. The first context whose units give a length factor decides. Unit and
// uncertainty lists have any length: no room is lent for them, and each is gone through twice, first to see that it reads whole.
#![tactic(auto)]

mod listed;
mod role;

ghost use Rattle.std.specs.Prelude.{◌≡◌};
ghost use Rattle.error.specs.Refusal.{told_result};
ghost use Rattle.statement.specs.Rows.{told_row};
ghost use Rattle.params.specs.Answer.{onward};
ghost use Rattle.factors.specs.SeenRecords.{seen_record_of, on_record};
ghost use Rattle.factors.specs.Code.{on_record_in};
ghost use Rattle.units.specs.Answer.{is_context, defaults, values_in, told_units};
ghost use Rattle.units.specs.Code.{context_or};
ghost use Rattle.units.specs.Units.{context_of};
ghost use Rattle.units.specs.InTable.{resolve_table};

use error::Fault;
use factors::Records;
use kinds::Kind;
use lookup::Tables;
use statement::RecordSpan;

// Length in mm, angle in radians, tolerance, and whether a length unit was found.
#[derive(Clone, Copy)]
pub struct Values {
    pub length: f64,
    pub angle: f64,
    pub tolerance: f64,
    pub resolved: bool,
}

// Millimetres, radians, a thousandth: what is assumed where no context gives a length factor.
fn assumed() -> Values
    ensures { values_in result ≡ defaults }
{
    Values {
        length: 1.0,
        angle: 1.0,
        tolerance: 1e-3,
        resolved: false,
    }
}

// Whether a record is a unit context.
fn is_context(file: &[u8], row: RecordSpan) -> Result<bool, Fault>
    ensures { told_result result ≡ onward (is_context file.now) (seen_record_of file.now (told_row row)) }
{
    let Some(args) = factors::self_or(file, row, Kind::GeometricRepresentationContext)? else {
        return Ok(false);
    };
    let mut at = factors::reader(args);
    Ok(scalars::next_i64(file, &mut at).is_ok())
}

// The units of a record, where it is a context; else those that are assumed.
fn context_units(records: Records, row: RecordSpan) -> Result<Values, Fault>
    ensures { told_units result ≡ on_record_in context_or records.entry (told_row row) }
{
    if !is_context(records.file, row)? {
        return Ok(assumed());
    }
    listed::context(records, row)
}

// The units of the first context, in file order, whose units give a length factor.
pub fn resolve(file: &[u8], rows: &[u32], slots: &[u64], t: Tables) -> Result<Values, Fault>
    ensures { told_units result ≡ resolve_table file.now rows.now slots.now t.ids t.records }
{
    let records = Records {
        file,
        rows,
        slots,
        tables: t,
    };
    for k in 0..table::table_rows(rows.len(), t.records) {
        let values = context_units(records, table::read_row(rows, k))?;
        if values.resolved {
            return Ok(values);
        }
    }
    Ok(assumed())
}

// The units that a record declares, as a context or as the list itself.
pub fn units_of_context(
    file: &[u8],
    rows: &[u32],
    slots: &[u64],
    t: Tables,
    row: RecordSpan,
) -> Result<Values, Fault>
    ensures { told_units result ≡ on_record context_of file.now rows.now slots.now t.ids (told_row row) }
{
    let records = Records {
        file,
        rows,
        slots,
        tables: t,
    };
    listed::context(records, row)
}
