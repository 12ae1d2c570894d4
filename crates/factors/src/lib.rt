// The factor of one unit: how many millimetres or radians it has.
//
// As length_factor_to_mm, angle_factor_to_rad, measure_in_mm, si_part and conversion_part of the Rust's units.rs. A factor
// is an f64; some units have none, and some refuse the whole answer. The chain of conversions is followed by two functions that call
// each other, the count of conversion units that are left falling.
#![tactic(auto)]

ghost use Rattle.std.specs.Prelude.{◌≡◌, ◌≤◌, length, option_map};
ghost use Rattle.std.specs.Float.{binary64};
ghost use Rattle.std.specs.Float.Ieee.{to_bits};
ghost use Rattle.error.specs.Refusal.{told_result};
ghost use Rattle.nearest.specs.Product.{product};
ghost use Rattle.statement.specs.Rows.{told_row};
ghost use Rattle.params.specs.Answer.{onward, span};
ghost use Rattle.scalars.specs.Scalars.{measure_of};
ghost use Rattle.scalars.specs.Answer.{next_of};
ghost use Rattle.lookup.specs.Lookup.{row_for};
ghost use Rattle.parts.specs.Part.{part_of};
ghost use Rattle.factors.specs.SeenRecords.{seen_record_of, self_or};
ghost use Rattle.factors.specs.Factor.{angle_of, angle_number, measure_left, number_or_none};
ghost use Rattle.factors.specs.Left.{length_left};
ghost use Rattle.factors.specs.Unit.{name_or, si_length, si_angle, measure_ref, measure_run};
ghost use Rattle.factors.specs.Code.{NameIn, prefix_for, run_of, seen_unit, find_in, on_record_in};
ghost use Rattle.factors.specs.Answer.{told_arguments, told_factor};

use error::Fault;
use kinds::Kind;
use lookup::Tables;
use params::{Span, State};
use statement::{Range, RecordSpan};

// A file and the tables of its records, which are looked up by id.
#[derive(Clone, Copy)]
pub struct Records<'a> {
    pub file: &'a [u8],
    pub rows: &'a [u32],
    pub slots: &'a [u64],
    pub tables: Tables,
}

// What a record is as a unit, with the arguments that say it.
#[derive(Clone, Copy)]
enum UnitArgs {
    Si(Range),
    Conversion(Range),
}

impl Records<'_> {
    // The last record with this id, or none.
    pub fn get(self, id: u32) -> Option<RecordSpan>
        ensures { option_map told_row result ≡ row_for self.entry.rows.now self.entry.slots.now self.entry.tables.ids id }
    {
        lookup::get(self.rows, self.slots, self.tables, id)
    }
}

// A reader of arguments.
pub fn reader(args: Range) -> State
    ensures { result ≡ record { place = args.start; end = args.end } }
{
    State {
        place: args.start,
        end: args.end,
    }
}

// The arguments of the first part of a kind of the record whose arguments these are.
fn part_args(file: &[u8], args: Range, complex: u32, kind: Kind) -> Result<Option<Range>, Fault>
    ensures { told_arguments result ≡ run_of (part_of file.now args.start args.end complex kind) }
{
    let part = parts::complex_part(file, args.start, args.end, complex, kind)?;
    Ok(part.map(|p| p.args))
}

// The arguments of a record of a kind, or of its first part of that kind.
pub fn self_or(file: &[u8], row: RecordSpan, kind: Kind) -> Result<Option<Range>, Fault>
    ensures { told_arguments result ≡ onward (self_or kind) (seen_record_of file.now (told_row row)) }
{
    let args = lookup::args_of(file, row)?;
    if lookup::kind_in(file, row) == kind {
        return Ok(Some(args));
    }
    part_args(file, args, row.complex, kind)
}

// The arguments of a length measure: of a complex record its LENGTH_MEASURE_WITH_UNIT part, of a simple one its own.
fn measure_run(file: &[u8], row: RecordSpan) -> Result<Option<Range>, Fault>
    ensures { told_arguments result ≡ onward measure_run (seen_record_of file.now (told_row row)) }
{
    let args = lookup::args_of(file, row)?;
    if row.complex != 1 {
        return Ok(Some(args));
    }
    part_args(file, args, 1, Kind::LengthMeasureWithUnit)
}

// What a record is as a unit: an SI part goes before a conversion.
fn unit_at(file: &[u8], row: RecordSpan) -> Result<Option<UnitArgs>, Fault>
    ensures { told_result result ≡ onward seen_unit (seen_record_of file.now (told_row row)) }
{
    if let Some(args) = self_or(file, row, Kind::SiUnit)? {
        return Ok(Some(UnitArgs::Si(args)));
    }
    let conversion = self_or(file, row, Kind::ConversionBasedUnit)?;
    Ok(conversion.map(|args| UnitArgs::Conversion(args)))
}

// The bytes of a name; others where it is unreadable.
fn name_or<'a>(other: &'a [u8], file: &'a [u8], name: Result<Span, Fault>) -> &'a [u8]
    requires { NameIn (length file.now) name }
    ensures { result.now ≡ name_or other.now file.now (told_result name) }
{
    match name {
        Ok(n) => &file[n.start..n.stop],
        Err(_) => other,
    }
}

// The prefix of the SI unit whose arguments these are, where the unit has this name, letters in either case. An unreadable prefix is
// none, an unreadable name the one that is sought.
fn si_prefix<'a>(file: &'a [u8], args: Range, name: &[u8]) -> Option<&'a [u8]>
    ensures { option_map (λ p. p.now) result ≡ prefix_for file.now (span args.start args.end) name.now }
{
    let mut at = reader(args);
    let prefix = words::next_enum(file, &mut at);
    let unit = words::next_enum(file, &mut at);
    if !record::is_word(name_or(name, file, unit), name) {
        return None;
    }
    Some(name_or(b"", file, prefix))
}

// The factor of the SI unit of length whose arguments these are.
fn si_length(file: &[u8], args: Range) -> Option<f64>
    ensures { option_map (to_bits binary64) result ≡ si_length file.now (span args.start args.end) }
{
    let prefix = si_prefix(file, args, b"METRE")?;
    Some(prefixes::length_factor(prefix))
}

// The factor of the SI unit of angle.
fn si_angle(file: &[u8], args: Range) -> Option<f64>
    ensures { option_map (to_bits binary64) result ≡ si_angle file.now (span args.start args.end) }
{
    let prefix = si_prefix(file, args, b"RADIAN")?;
    Some(prefixes::prefix_factor(prefix))
}

// The reference of the measure in the arguments of a conversion unit, behind its name.
fn measure_ref(file: &[u8], args: Range) -> Result<u32, Fault>
    ensures { told_result result ≡ measure_ref file.now (span args.start args.end) }
{
    let mut at = reader(args);
    params::skip(file, &mut at)?;
    scalars::next_ref(file, &mut at)
}

// The number of a measure: none where it is unreadable; but a real outside the class refuses.
pub fn measure_number(file: &[u8], at: &mut State) -> Result<Option<f64>, Fault>
    ensures number { told_factor result ≡ number_or_none (next_of measure_of file.now at.old.place at.old.end).answer }
    ensures at_after { (at.new.place ≡ (next_of measure_of file.now at.old.place at.old.end).place) × (at.new.end ≡ at.old.end) }
{
    match scalars::next_measure_f64(file, at) {
        Ok(number) => Ok(Some(number)),
        Err(fault) => match fault {
            Fault::OutsideClass(_) => Err(fault),
            _ => Ok(None),
        },
    }
}

// A value times a factor, where there is one.
fn scaled(value: f64, factor: Option<f64>) -> Option<f64>
    ensures { option_map (to_bits binary64) result ≡ option_map (product (to_bits binary64 value)) (option_map (to_bits binary64) factor) }
{
    factor.map(|f| nearest::times(value, f))
}

// The factor of a length unit, with so many conversion units left on the chain: "A conversion unit leads to a measure". The one for
// which none is left is 15, before its name.
#[cycle(length_at_measure_in_mm)]
fn length_at(records: Records, row: RecordSpan, left: usize) -> Result<Option<f64>, Fault>
    ensures { told_factor result ≡ on_record_in (length_left left) records.entry (told_row row) }
{
    match unit_at(records.file, row)? {
        None => Ok(None),
        Some(UnitArgs::Si(args)) => Ok(si_length(records.file, args)),
        Some(UnitArgs::Conversion(args)) => {
            if left == 0 {
                return Err(Fault::TooDeep(row.args.start));
            }
            let id = measure_ref(records.file, args)?;
            measure_in_mm(records, id, left - 1)
        }
    }
}

// The factor of a length measure: "and the measure to its base unit, value times base factor".
#[cycle(length_at_measure_in_mm)]
fn measure_in_mm(records: Records, id: u32, left: usize) -> Result<Option<f64>, Fault>
    ensures { told_factor result ≡ measure_left left records.entry.file.now (find_in records.entry) id }
{
    let Some(measure) = records.get(id) else {
        return Ok(None);
    };
    let Some(args) = measure_run(records.file, measure)? else {
        return Ok(None);
    };
    let mut at = reader(args);
    let Some(number) = measure_number(records.file, &mut at)? else {
        return Ok(None);
    };
    let Ok(base) = scalars::next_ref(records.file, &mut at) else {
        return Ok(None);
    };
    let Some(unit) = records.get(base) else {
        return Ok(None);
    };
    let factor = length_at(records, unit, left)?;
    Ok(scaled(number, factor))
}

// The factor of a length unit, in millimetres.
pub fn length_factor(records: Records, row: RecordSpan) -> Result<Option<f64>, Fault>
    ensures { told_factor result ≡ on_record_in (length_left 16) records.entry (told_row row) }
{
    length_at(records, row, 16)
}

// The number of an angle's measure, alone.
fn angle_number(records: Records, id: u32) -> Result<Option<f64>, Fault>
    ensures { told_factor result ≡ angle_number records.entry.file.now (find_in records.entry) id }
{
    let Some(measure) = records.get(id) else {
        return Ok(None);
    };
    let mut at = reader(lookup::args_of(records.file, measure)?);
    measure_number(records.file, &mut at)
}

// The factor of an angle unit, in radians.
pub fn angle_factor(records: Records, row: RecordSpan) -> Result<Option<f64>, Fault>
    ensures { told_factor result ≡ on_record_in angle_of records.entry (told_row row) }
{
    match unit_at(records.file, row)? {
        None => Ok(None),
        Some(UnitArgs::Si(args)) => Ok(si_angle(records.file, args)),
        Some(UnitArgs::Conversion(args)) => angle_number(records, measure_ref(records.file, args)?),
    }
}
