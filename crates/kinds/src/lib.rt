// The kinds of records that the units need, by their keywords, letters in either case.
//
// As the Rust's kind.rs, with ten of its names: all others are `Other` (docs/DIFFERENCES.md). A complex record has a kind of its
// own; its parts have kinds by their keywords.
#![tactic(auto)]

ghost use Rattle.std.specs.Prelude.{◌≡◌, map};
ghost use Rattle.common.specs.Bytes.{bytes};
ghost use Rattle.record.specs.Word.{same_bytes};
ghost use Rattle.record.specs.Byte.{upper};
ghost use Rattle.kinds.specs.Kind.{kind_of_keyword};
ghost use Rattle.kinds.specs.Rules.{name_of, told_kind_name, name_in, name_after};

#[derive(Clone, Copy, PartialEq, Eq)]
pub enum Kind {
    GeometricRepresentationContext,
    GlobalUnitAssignedContext,
    GlobalUncertaintyAssignedContext,
    LengthUnit,
    PlaneAngleUnit,
    SolidAngleUnit,
    SiUnit,
    ConversionBasedUnit,
    UncertaintyMeasureWithUnit,
    LengthMeasureWithUnit,
    Complex,
    Other,
}

// The ten kinds that have a keyword.
const NAMED: [Kind; 10] = [
    Kind::GeometricRepresentationContext,
    Kind::GlobalUnitAssignedContext,
    Kind::GlobalUncertaintyAssignedContext,
    Kind::LengthUnit,
    Kind::PlaneAngleUnit,
    Kind::SolidAngleUnit,
    Kind::SiUnit,
    Kind::ConversionBasedUnit,
    Kind::UncertaintyMeasureWithUnit,
    Kind::LengthMeasureWithUnit,
];

impl Kind {
    // The keyword of a kind, in capitals; `(complex)` for a complex record, and the empty text for `Other`.
    fn name(self) -> &'static [u8]
        ensures { result.now ≡ bytes (name_of self) }
    {
        match self {
            Kind::GeometricRepresentationContext => b"GEOMETRIC_REPRESENTATION_CONTEXT",
            Kind::GlobalUnitAssignedContext => b"GLOBAL_UNIT_ASSIGNED_CONTEXT",
            Kind::GlobalUncertaintyAssignedContext => b"GLOBAL_UNCERTAINTY_ASSIGNED_CONTEXT",
            Kind::LengthUnit => b"LENGTH_UNIT",
            Kind::PlaneAngleUnit => b"PLANE_ANGLE_UNIT",
            Kind::SolidAngleUnit => b"SOLID_ANGLE_UNIT",
            Kind::SiUnit => b"SI_UNIT",
            Kind::ConversionBasedUnit => b"CONVERSION_BASED_UNIT",
            Kind::UncertaintyMeasureWithUnit => b"UNCERTAINTY_MEASURE_WITH_UNIT",
            Kind::LengthMeasureWithUnit => b"LENGTH_MEASURE_WITH_UNIT",
            Kind::Complex => b"(complex)",
            Kind::Other => b"",
        }
    }
}

// The kind of a keyword.
pub fn intern(kw: &[u8]) -> Kind
    ensures { result ≡ kind_of_keyword kw.now }
{
    for kind in NAMED {
        if record::is_word(kw, kind.name()) {
            return kind;
        }
    }
    Kind::Other
}

// Whether two texts are the same word, letters in either case.
pub fn same_word(t: &[u8], w: &[u8]) -> bool
    ensures { result ≡ same_bytes (map upper t.now) (map upper w.now) }
{
    t.eq_ignore_ascii_case(w)
}

// A kind's name at the start of lent memory, in so many bytes; none where there is no room for it. As the Rust's `as_str`.
pub fn as_str(k: Kind, out: &mut [u8]) -> Option<usize>
    ensures result_value { told_kind_name result ≡ name_in (bytes (name_of k)) out.old }
    ensures out_after { out.new ≡ name_after (bytes (name_of k)) out.old }
{
    let name = k.name();
    let n = name.len();
    if out.len() < n {
        return None;
    }
    out[..n].copy_from_slice(name);
    Some(n)
}
