// What a file needs of lent memory, for hosts in other languages.
ghost use Rattle.std.specs.Prelude.{◌≡◌, ◌≤◌, length};
ghost use Rattle.std.proofs.lemmas.List.Edits.{sets};
ghost use Rattle.export_tables.specs.Needed.{needs_room, need_numbers, Needing};

use needs::Needs;

// How many numbers a host lends at least: more than are told so far.
const ROOM: usize = 12;

// Puts what a file needs at the start of `out`.
fn put_needs(out: &mut [u64], n: Needs)
    requires { needs_room ≤ length out.old }
    ensures { out.new ≡ sets out.old 0 (need_numbers n) }
{
    out[0] = n.headers as u64;
    out[1] = n.records as u64;
    out[2] = n.max as u64;
    out[3] = n.items as u64;
    out[4] = n.text as u64;
    out[5] = n.rows as u64;
}

// Tells what a file needs: 0, with how many header rows, how many data rows, which is how many id slots, the largest id, the most numbers of a
// list or a grid, the longest text and the most rows of a grid in the first of the lent numbers; or the refusal's number, with its
// reason and place; or 16 where fewer than `ROOM` are lent, before anything is read.
pub fn hooflift_needs(file: &[u8], needs: &mut [u64], reason: &mut u8, fault: &mut usize) -> u8
    ensures { Needing file.now needs.old reason.old fault.old result needs.new reason.new fault.new }
{
    if needs.len() < ROOM {
        return 16;
    }
    match needs::count(file) {
        Ok(n) => {
            put_needs(needs, n);
            0
        }
        Err(f) => {
            *reason = f.reason();
            host_numbers::put_fault(f, fault)
        }
    }
}
