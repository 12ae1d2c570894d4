// The units and the tolerance that a context lists.
ghost use Rattle.std.specs.Prelude.{◌≡◌, option_map};
ghost use Rattle.std.specs.Float.{binary64};
ghost use Rattle.std.specs.Float.Ieee.{to_bits};
ghost use Rattle.error.specs.Refusal.{told_result};
ghost use Rattle.statement.specs.Rows.{mapped, told_row};
ghost use Rattle.params.specs.Answer.{onward};
ghost use Rattle.factors.specs.SeenRecords.{self_or, seen_record_of};
ghost use Rattle.factors.specs.Answer.{told_factor};
ghost use Rattle.factors.specs.Code.{find_in, on_record_in};
ghost use Rattle.units.specs.Answer.{defaults, with_length, with_angle, values_in, told_units, refs_in, uncertainty_by};
ghost use Rattle.units.specs.Units.{unit_by, units_by, tolerance_by, listed_units, listed_tolerance, context_of};
ghost use Rattle.units.specs.Code.{RefsBy, RefsTo, ReadsAll, ids_of};

use crate::role::{Role, role_of};
use crate::{Values, assumed};
use error::Fault;
use factors::Records;
use kinds::Kind;
use statement::{Range, RecordSpan};

// The inside of the list of references that a record's part of a kind begins with, read whole; none where it has no references.
fn refs_of(file: &[u8], row: RecordSpan, kind: Kind) -> Result<Option<Range>, Fault>
    ensures { RefsTo file.now (onward (refs_in file.now) (onward (self_or kind) (seen_record_of file.now (told_row row)))) result }
{
    let Some(args) = factors::self_or(file, row, kind)? else {
        return Ok(None);
    };
    refs_at(file, args)
}

fn refs_at(file: &[u8], args: Range) -> Result<Option<Range>, Fault>
    ensures { RefsBy file.now args.start args.end result }
{
    let mut at = factors::reader(args);
    let list = params::param_span(file, &mut at)?;
    match lists::count_list(&file[list.start..list.stop], lists::Kind::References) {
        Err(bad) => Err(bad.fault(list.start)),
        Ok(count) => {
            if count == 0 {
                return Ok(None);
            }
            Ok(Some(Range {
                start: list.start + 1,
                end: list.stop - 1,
            }))
        }
    }
}

// The values with a length factor, where there is one.
fn with_length(u: Values, factor: Option<f64>) -> Values
    ensures { values_in result ≡ with_length (values_in u) (option_map (to_bits binary64) factor) }
{
    match factor {
        Some(length) => Values {
            length,
            resolved: true,
            ..u
        },
        None => u,
    }
}

// The values with an angle factor, where there is one.
fn with_angle(u: Values, factor: Option<f64>) -> Values
    ensures { values_in result ≡ with_angle (values_in u) (option_map (to_bits binary64) factor) }
{
    match factor {
        Some(angle) => Values { angle, ..u },
        None => u,
    }
}

// One unit of a list, by its id.
fn one_unit(records: Records, u: Values, id: u32) -> Result<Values, Fault>
    ensures { told_units result ≡ unit_by records.entry.file.now (find_in records.entry) (values_in u) id }
{
    let Some(row) = records.get(id) else {
        return Ok(u);
    };
    match role_of(records.file, row)? {
        Some(Role::Length) => Ok(with_length(u, factors::length_factor(records, row)?)),
        Some(Role::Angle) => Ok(with_angle(u, factors::angle_factor(records, row)?)),
        Some(Role::Solid) => Ok(u),
        None => Ok(u),
    }
}

// The units of the list whose inside is b.
fn units_from(records: Records, b: &[u8]) -> Result<Values, Fault>
    requires { ReadsAll b.now }
    ensures { told_units result ≡ units_by records.entry.file.now (find_in records.entry) defaults (ids_of b.now) }
{
    let mut u = assumed();
    let mut i = 0;
    // Kept: where the next item begins is found with this one. One walk for this and `tolerance_from` would have to promise which
    // references are left and that they grow fewer: more than the two loops say, which stop for different reasons.
    loop {
        let item = lists::item_at(b, i);
        let Some(id) = reals::parse_ref(&b[item.start..item.stop]) else {
            return Ok(u);
        };
        u = one_unit(records, u, id)?;
        if item.bound == b.len() {
            return Ok(u);
        }
        i = item.bound + 1;
    }
}

// The units that a context lists.
fn listed_units(records: Records, row: RecordSpan) -> Result<Values, Fault>
    ensures { told_units result ≡ on_record_in listed_units records.entry (told_row row) }
{
    match refs_of(records.file, row, Kind::GlobalUnitAssignedContext)? {
        Some(inside) => units_from(records, &records.file[inside.start..inside.end]),
        None => Ok(assumed()),
    }
}

// One listed uncertainty: a simple UNCERTAINTY_MEASURE_WITH_UNIT that reads; none where the next one is asked.
fn one_uncertainty(records: Records, id: u32) -> Result<Option<f64>, Fault>
    ensures { told_factor result ≡ uncertainty_by records.entry.file.now (find_in records.entry) id }
{
    let Some(row) = records.get(id) else {
        return Ok(None);
    };
    let args = lookup::args_of(records.file, row)?;
    if lookup::kind_in(records.file, row) != Kind::UncertaintyMeasureWithUnit {
        return Ok(None);
    }
    let mut at = factors::reader(args);
    factors::measure_number(records.file, &mut at)
}

// The tolerance of the list whose inside is b.
fn tolerance_from(records: Records, b: &[u8]) -> Result<f64, Fault>
    requires { ReadsAll b.now }
    ensures { mapped (to_bits binary64) (told_result result) ≡ tolerance_by records.entry.file.now (find_in records.entry) (ids_of b.now) }
{
    let mut i = 0;
    // Kept: where the next item begins is found with this one. Its twin is in `units_from`, where it is said why both stay.
    loop {
        let item = lists::item_at(b, i);
        let Some(id) = reals::parse_ref(&b[item.start..item.stop]) else {
            return Ok(1e-3);
        };
        if let Some(tolerance) = one_uncertainty(records, id)? {
            return Ok(tolerance);
        }
        if item.bound == b.len() {
            return Ok(1e-3);
        }
        i = item.bound + 1;
    }
}

// The tolerance that a context lists.
fn listed_tolerance(records: Records, row: RecordSpan) -> Result<f64, Fault>
    ensures { mapped (to_bits binary64) (told_result result) ≡ on_record_in listed_tolerance records.entry (told_row row) }
{
    match refs_of(records.file, row, Kind::GlobalUncertaintyAssignedContext)? {
        Some(inside) => tolerance_from(records, &records.file[inside.start..inside.end]),
        None => Ok(1e-3),
    }
}

// The units that a record declares, as a context or as the list itself. Its units come before its uncertainties.
pub fn context(records: Records, row: RecordSpan) -> Result<Values, Fault>
    ensures { told_units result ≡ on_record_in context_of records.entry (told_row row) }
{
    let u = listed_units(records, row)?;
    let tolerance = listed_tolerance(records, row)?;
    Ok(Values { tolerance, ..u })
}
