// What a file needs of lent memory, for hosts in other languages.
ghost use Rattle.export_tables.specs.Needed.{Needing};

// As `export_tables::hooflift_needs`.
#[unsafe(no_mangle)]
pub extern "C" fn hooflift_needs(
    file: &[u8],
    needs: &mut [u64],
    reason: &mut u8,
    fault: &mut usize,
) -> u8
    ensures { Needing file.now needs.old reason.old fault.old result needs.new reason.new fault.new }
{
    export_tables::hooflift_needs(file, needs, reason, fault)
}
