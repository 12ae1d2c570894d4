// What a unit of a list measures.
ghost use Rattle.std.specs.Prelude.{◌≡◌, ◌≤◌, length, map};
ghost use Rattle.error.specs.Refusal.{told_result};
ghost use Rattle.statement.specs.Rows.{told_row, header_row_of};
ghost use Rattle.params.specs.Answer.{onward};
ghost use Rattle.parts.specs.Part.{parts_of};
ghost use Rattle.factors.specs.SeenRecords.{good_by, unit_part_of, seen_record_of};
ghost use Rattle.units.specs.Answer.{role_by};
ghost use Rattle.units.specs.Units.{role_of, first_role};
ghost use Rattle.units.specs.Code.{kind_at};

use error::Fault;
use kinds::Kind;
use statement::{HeaderSpan, RecordSpan};

#[derive(Clone, Copy, PartialEq, Eq)]
pub enum Role {
    Length,
    Angle,
    Solid,
}

// The role that a part of this kind gives, or none.
fn role_by(kind: Kind) -> Option<Role>
    ensures { result ≡ role_by kind }
{
    match kind {
        Kind::LengthUnit => Some(Role::Length),
        Kind::PlaneAngleUnit => Some(Role::Angle),
        Kind::SolidAngleUnit => Some(Role::Solid),
        _ => None,
    }
}

// The kind of a part; `Other` where its keyword is not in the file.
fn part_kind(file: &[u8], p: HeaderSpan) -> Kind
    ensures { result ≡ kind_at file.now (header_row_of p) }
{
    match file.get(p.keyword.start..p.keyword.end) {
        Some(keyword) => kinds::intern(keyword),
        None => Kind::Other,
    }
}

// The role of the first part that gives one, once all parts have been read, so that a fault behind it refuses.
fn role_from(file: &[u8], start: usize, end: usize) -> Result<Option<Role>, Fault>
    requires { start ≤ length file.now }
    ensures { told_result result ≡ good_by (λ ps. first_role (map (unit_part_of file.now) ps)) (parts_of file.now start end) }
{
    let mut i = start;
    let mut got = None;
    // Kept: where the next part begins is found with this one, and a refusal leaves the loop by `?`; an iterator that hides that would be longer.
    while let Some(p) = parts::next_part(file, i, end)? {
        got = got.or(role_by(part_kind(file, p)));
        i = p.args.end + 1;
    }
    Ok(got)
}

// The role of a record in a unit list: that of its parts; a simple record has none.
pub fn role_of(file: &[u8], row: RecordSpan) -> Result<Option<Role>, Fault>
    ensures { told_result result ≡ onward role_of (seen_record_of file.now (told_row row)) }
{
    let args = lookup::args_of(file, row)?;
    if row.complex != 1 {
        return Ok(None);
    }
    role_from(file, args.start, args.end)
}
