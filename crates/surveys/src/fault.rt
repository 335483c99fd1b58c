// The faults of a member's record.
ghost use Rattle.std.specs.Prelude.{◌≡◌, ◌<◌};
ghost use Rattle.member.specs.Fields.{SPECIES, FIELDS};
ghost use Rattle.files.specs.Fault.{fault_of};
ghost use Rattle.surveys.specs.SurveyFile.{zeroed, within, ordered, code_fault};

use crate::ranges::{is_used, limits_of, suits_kind};
use files::fault::Fault;
use files::limits::Limits;
use member::record::{CLOSE_STRINGER, CODE, KIND, MU_A, MU_B, Member, SPAN, SPECIES};

// Stays: ranges, as the definition has them; no enum has more species than these numbers.
const KINDS: Limits = Limits { low: 1, high: 7 };

const ALL_SPECIES: Limits = Limits { low: 1, high: 8 };

// Stays: the species is one of the list where the record uses it: `is_within` of that field, apart from it so that the loop over the
// fields keeps the only call of `is_within` and can take it in.
#[tactic(auto, unfolding(crate::specs::SurveyFile::within, member::specs::Format::range_of, member::specs::Format::ranges))]
fn species_within(m: Member) -> bool
    ensures { result ≡ within m SPECIES }
{
    ALL_SPECIES.contains(u32::from(m.fields[SPECIES]))
        || !is_used(m.fields[KIND], m.fields[CODE], SPECIES)
}

// The kind; the species, where used; the section's code, which must suit the kind.
#[tactic(auto, unfolding(crate::specs::SurveyFile::code_fault))]
pub fn code_fault(m: Member) -> Result<(), Fault>
    ensures { fault_of result ≡ code_fault m }
{
    let kind = m.fields[KIND];
    if !KINDS.contains(u32::from(kind)) {
        return Err(Fault::Kind);
    }
    if !species_within(m) {
        return Err(Fault::Species);
    }
    if !suits_kind(kind, m.fields[CODE]) {
        return Err(Fault::Section);
    }
    Ok(())
}

// A is at most B; of closely spaced stringers, whose board width and deck rot they are, it need not be.
#[tactic(auto, unfolding(crate::specs::SurveyFile::ordered))]
pub fn is_ordered(m: Member) -> bool
    ensures { result ≡ ordered m }
{
    m.fields[KIND] == CLOSE_STRINGER || m.fields[MU_A] <= m.fields[MU_B]
}

// The field is 0 where the record does not use it.
#[tactic(auto, unfolding(crate::specs::SurveyFile::zeroed))]
pub fn is_zeroed(m: Member, f: usize) -> bool
    requires { f < FIELDS }
    ensures { result ≡ zeroed m f }
{
    m.fields[f] == 0 || is_used(m.fields[KIND], m.fields[CODE], f)
}

// The field is in its range where the record uses it.
#[tactic(auto, unfolding(crate::specs::SurveyFile::within))]
pub fn is_within(m: Member, f: usize) -> bool
    requires { f < FIELDS }
    ensures { result ≡ within m f }
{
    let kind = m.fields[KIND];
    let code = m.fields[CODE];
    let limits = limits_of(kind, code, m.fields[SPAN], f);
    limits.contains(u32::from(m.fields[f])) || !is_used(kind, code, f)
}
