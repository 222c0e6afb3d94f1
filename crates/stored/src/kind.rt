// The types of entries.
ghost use Rattle.std.specs.Prelude.{◌≡◌, ◌<◌};
ghost use Rattle.stored.specs.Kinds.{number_of, IsKindAt};

use std::error::Error;
use std::fmt;

#[derive(Clone, Copy, Debug, PartialEq, Eq)]
pub enum EntryKind {
    ExprValue = 1,
    StructuralHash,
    ReduceMask,
    CanChangeMask,
    CanChangeCoefficient,
    SemilinearValue,
    CompactAtomTable,
    NormalizeToSemilinear,
    RefineTerms,
    FlattenComplexAtoms,
    ComputePartitions,
    RecoverStructure,
    CoalesceTerms,
    RunPasses,
    NormalizeByRules,
    Judge,
    JudgeForms,
}

impl EntryKind {
    // Its number, which is its place in a tally too.
    pub fn number(self) -> u8
        ensures is { result ≡ number_of self }
        ensures small { result < 18 }
    {
        self as u8
    }

    // All of them, by number.
    pub const ALL: [EntryKind; 17] = [
        EntryKind::ExprValue,
        EntryKind::StructuralHash,
        EntryKind::ReduceMask,
        EntryKind::CanChangeMask,
        EntryKind::CanChangeCoefficient,
        EntryKind::SemilinearValue,
        EntryKind::CompactAtomTable,
        EntryKind::NormalizeToSemilinear,
        EntryKind::RefineTerms,
        EntryKind::FlattenComplexAtoms,
        EntryKind::ComputePartitions,
        EntryKind::RecoverStructure,
        EntryKind::CoalesceTerms,
        EntryKind::RunPasses,
        EntryKind::NormalizeByRules,
        EntryKind::Judge,
        EntryKind::JudgeForms,
    ];
}

// The name of what an entry of the type is about.
impl fmt::Display for EntryKind {
    fn fmt<W: fmt::Write>(&self, f: &mut fmt::Formatter<W>) -> fmt::Result {
        f.write_str(match self {
            EntryKind::ExprValue => "expression value",
            EntryKind::StructuralHash => "structural hash",
            EntryKind::ReduceMask => "reduce_mask",
            EntryKind::CanChangeMask => "can_change_mask_to",
            EntryKind::CanChangeCoefficient => "can_change_coefficient_to",
            EntryKind::SemilinearValue => "semilinear value",
            EntryKind::CompactAtomTable => "compact_atom_table",
            EntryKind::NormalizeToSemilinear => "normalize_to_semilinear",
            EntryKind::RefineTerms => "refine_terms",
            EntryKind::FlattenComplexAtoms => "flatten_complex_atoms",
            EntryKind::ComputePartitions => "compute_partitions",
            EntryKind::RecoverStructure => "recover_structure",
            EntryKind::CoalesceTerms => "coalesce_terms",
            EntryKind::RunPasses => "run_passes",
            EntryKind::NormalizeByRules => "normalize_by_rules",
            EntryKind::Judge => "judge",
            EntryKind::JudgeForms => "judge_forms",
        })
    }
}

// A number that no type has.
#[derive(Clone, Copy, Debug, PartialEq, Eq)]
pub struct UnknownKind(pub u8);

impl fmt::Display for UnknownKind {
    fn fmt<W: fmt::Write>(&self, f: &mut fmt::Formatter<W>) -> fmt::Result {
        write!(f, "no type of entry has the number {}", self.0)
    }
}

impl Error for UnknownKind {}

impl TryFrom<u8> for EntryKind {
    type Error = UnknownKind;

    ghost try_from_gives = { IsKindAt };

    fn try_from(number: u8) -> Result<EntryKind, UnknownKind> {
        match number {
            1 => Ok(EntryKind::ExprValue),
            2 => Ok(EntryKind::StructuralHash),
            3 => Ok(EntryKind::ReduceMask),
            4 => Ok(EntryKind::CanChangeMask),
            5 => Ok(EntryKind::CanChangeCoefficient),
            6 => Ok(EntryKind::SemilinearValue),
            7 => Ok(EntryKind::CompactAtomTable),
            8 => Ok(EntryKind::NormalizeToSemilinear),
            9 => Ok(EntryKind::RefineTerms),
            10 => Ok(EntryKind::FlattenComplexAtoms),
            11 => Ok(EntryKind::ComputePartitions),
            12 => Ok(EntryKind::RecoverStructure),
            13 => Ok(EntryKind::CoalesceTerms),
            14 => Ok(EntryKind::RunPasses),
            15 => Ok(EntryKind::NormalizeByRules),
            16 => Ok(EntryKind::Judge),
            17 => Ok(EntryKind::JudgeForms),
            _ => Err(UnknownKind(number)),
        }
    }
}
