// The functions of `export_units`, for hosts in C: the library answers each call, and each clause is its own. A static library exports the
// functions of its own files alone, and no crate is built on one.
// Kept: the C interface asks for a function of each name here: an exported function cannot be generic, and a static library is no crate
// that others build on.
#![tactic(auto)]

ghost use Rattle.std.specs.Prelude.{◌≡◌};
ghost use Rattle.host_numbers.specs.Answers.{HostTold, Puts, PutsReal, PutsFound, PutsFoundReal, read_fault, found_code, truth_number};
ghost use Rattle.export_units.specs.Contexts.{file_units, row_units};

// As `export_units::hooflift_units`.
#[unsafe(no_mangle)]
pub extern "C" fn hooflift_units(
    file: &[u8],
    rows: &[u32],
    slots: &[u64],
    tables: &[u64],
    mm: &mut f64,
    rad: &mut f64,
    tolerance: &mut f64,
    resolved: &mut u8,
    fault: &mut usize,
) -> u8
    ensures host_told { HostTold (file_units file.now rows.now slots.now tables.now) result fault }
    ensures puts_real { PutsReal (λ u. u.length) (file_units file.now rows.now slots.now tables.now) mm }
    ensures puts_real_2 { PutsReal (λ u. u.angle) (file_units file.now rows.now slots.now tables.now) rad }
    ensures puts_real_3 { PutsReal (λ u. u.tolerance) (file_units file.now rows.now slots.now tables.now) tolerance }
    ensures puts { Puts (λ u. truth_number u.resolved) (file_units file.now rows.now slots.now tables.now) resolved }
{
    export_units::hooflift_units(
        file, rows, slots, tables, mm, rad, tolerance, resolved, fault,
    )
}

// As `export_units::hooflift_units_of_context`.
#[unsafe(no_mangle)]
pub extern "C" fn hooflift_units_of_context(
    file: &[u8],
    rows: &[u32],
    slots: &[u64],
    tables: &[u64],
    k: usize,
    mm: &mut f64,
    rad: &mut f64,
    tolerance: &mut f64,
    resolved: &mut u8,
    fault: &mut usize,
) -> u8
    ensures value { result ≡ found_code (row_units file.now rows.now slots.now tables.now k) }
    ensures fault_after { fault.new ≡ read_fault (row_units file.now rows.now slots.now tables.now k) fault.old }
    ensures puts_found_real { PutsFoundReal (λ u. u.length) (row_units file.now rows.now slots.now tables.now k) mm }
    ensures puts_found_real_2 { PutsFoundReal (λ u. u.angle) (row_units file.now rows.now slots.now tables.now k) rad }
    ensures puts_found_real_3 { PutsFoundReal (λ u. u.tolerance) (row_units file.now rows.now slots.now tables.now k) tolerance }
    ensures puts_found { PutsFound (λ u. truth_number u.resolved) (row_units file.now rows.now slots.now tables.now k) resolved }
{
    export_units::hooflift_units_of_context(
        file, rows, slots, tables, k, mm, rad, tolerance, resolved, fault,
    )
}
