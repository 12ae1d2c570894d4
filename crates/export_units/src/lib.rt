// Units, for hosts in other languages: the file's, and those of one context.
#![tactic(auto)]

ghost use Rattle.std.specs.Prelude.{◌≡◌};
ghost use Rattle.units.specs.Answer.{told_units};
ghost use Rattle.host_numbers.specs.Answers.{HostTold, Puts, PutsReal, PutsFound, PutsFoundReal, read_fault, found_code, truth_number};
ghost use Rattle.export_units.specs.Contexts.{file_units, row_units};

use error::Fault;
use units::Values;

// Tells a unit answer: 0, or the refusal's number, with its place.
fn put_units(
    r: Result<Values, Fault>,
    mm: &mut f64,
    rad: &mut f64,
    tolerance: &mut f64,
    resolved: &mut u8,
    fault: &mut usize,
) -> u8
    ensures host_told { HostTold (told_units r) result fault }
    ensures puts_real { PutsReal (λ u. u.length) (told_units r) mm }
    ensures puts_real_2 { PutsReal (λ u. u.angle) (told_units r) rad }
    ensures puts_real_3 { PutsReal (λ u. u.tolerance) (told_units r) tolerance }
    ensures puts { Puts (λ u. truth_number u.resolved) (told_units r) resolved }
{
    match r {
        Ok(v) => {
            *mm = v.length;
            *rad = v.angle;
            *tolerance = v.tolerance;
            *resolved = u8::from(v.resolved);
            0
        }
        Err(f) => host_numbers::put_fault(f, fault),
    }
}

// The file's units: 0, with mm for a unit of length, rad for a unit of angle, the tolerance, and 1 in `resolved` where a context says so.
pub fn hooflift_units(
    file: &[u8],
    rows: &[u32],
    slots: &[u64],
    tables: &[u64],
    mm: &mut f64,
    rad: &mut f64,
    tolerance: &mut f64,
    resolved: &mut u8,
    fault: &mut usize,
) -> u8
    ensures host_told { HostTold (file_units file.now rows.now slots.now tables.now) result fault }
    ensures puts_real { PutsReal (λ u. u.length) (file_units file.now rows.now slots.now tables.now) mm }
    ensures puts_real_2 { PutsReal (λ u. u.angle) (file_units file.now rows.now slots.now tables.now) rad }
    ensures puts_real_3 { PutsReal (λ u. u.tolerance) (file_units file.now rows.now slots.now tables.now) tolerance }
    ensures puts { Puts (λ u. truth_number u.resolved) (file_units file.now rows.now slots.now tables.now) resolved }
{
    let r = units::resolve(file, rows, slots, host_numbers::tables_of(tables));
    put_units(r, mm, rad, tolerance, resolved, fault)
}

// The units that the context in row k gives: as `hooflift_units`; 255 past the table.
pub fn hooflift_units_of_context(
    file: &[u8],
    rows: &[u32],
    slots: &[u64],
    tables: &[u64],
    k: usize,
    mm: &mut f64,
    rad: &mut f64,
    tolerance: &mut f64,
    resolved: &mut u8,
    fault: &mut usize,
) -> u8
    ensures value { result ≡ found_code (row_units file.now rows.now slots.now tables.now k) }
    ensures fault_after { fault.new ≡ read_fault (row_units file.now rows.now slots.now tables.now k) fault.old }
    ensures puts_found_real { PutsFoundReal (λ u. u.length) (row_units file.now rows.now slots.now tables.now k) mm }
    ensures puts_found_real_2 { PutsFoundReal (λ u. u.angle) (row_units file.now rows.now slots.now tables.now k) rad }
    ensures puts_found_real_3 { PutsFoundReal (λ u. u.tolerance) (row_units file.now rows.now slots.now tables.now k) tolerance }
    ensures puts_found { PutsFound (λ u. truth_number u.resolved) (row_units file.now rows.now slots.now tables.now k) resolved }
{
    let t = host_numbers::tables_of(tables);
    let Some(w) = lookup::entity(rows, t, k) else {
        return 255;
    };
    let r = units::units_of_context(file, rows, slots, t, w);
    put_units(r, mm, rad, tolerance, resolved, fault)
}
