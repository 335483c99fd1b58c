// The permitted load of a member, from its record, the vehicle's class and its track.
ghost use Rattle.std.specs.Prelude.{◌≡◌, true, ◌*◌, ◌≤◌};
ghost use Rattle.section.specs.Fraction.{over, ◌≐◌};
ghost use Rattle.section.specs.Species.{bending_tenths, shear_tenths};
ghost use Rattle.section.specs.Units.{FitsSigned};
ghost use Rattle.member.specs.Fields.{KIND, SPECIES, MU_B, field};
ghost use Rattle.member.specs.Format.{AllowedMember, bending};
ghost use Rattle.member.specs.PermittedLoad.{load_factor_tenths, section_modulus, section_inertia, stiffness_of, joint_front, permitted_load};
ghost use Rattle.member.specs.Sizes.{Sizes, terms_of};

use crate::formula::{Lateral, Terms, dowelled, keyed, plates};
use crate::kind::Kind;
use crate::record::*;
use section::crescent::tiered_crescent;
use section::dowel::dowel_capacity;
use section::log::tiered_modulus;
use section::sawn::{area_left, sawn_area, sawn_modulus_sixths};
use section::species::{bending_factor, shear_factor};
use section::{Cm, KgfPerM};
use spread::beta::beta;
use spread::inertia::{deck_inertia, sawn_inertia, tiered_inertia};
use spread::stiffness::stiffness_number;

// The load factor n, in tenths.
// Stays: the class is a plain number, as `permitted_load` promises its answer of every u8 and `Vehicle` holds one.
fn load_factor(class: u8) -> u64
    ensures is { result ≡ load_factor_tenths class }
    ensures range { (11 ≤ result) × (result ≤ 14) }
{
    if class == 0 { 14 } else { 11 }
}

// What the formula of every kind takes.
fn terms(m: Member, class: u8) -> Terms
    requires { AllowedMember m }
    ensures is { result ≡ terms_of m class }
    ensures sizes { Sizes result }
{
    Terms {
        n: load_factor(class),
        q: m.dead_load(),
        l: m.span(),
    }
}

// The section modulus of a log or a sawn beam in bending, in thirtieths of a cm³: whole cm³, sixths and tenths are whole numbers of
// these.
fn modulus_thirtieths(m: Member) -> u64
    requires { AllowedMember m × (bending (field m KIND) ≡ true) }
    ensures is { over result 30 ≐ section_modulus m }
    ensures cap { result ≤ 43200000 }
{
    match m.section() {
        Section::Log(log) => 30 * tiered_modulus(log),
        Section::Sawn(sawn) => 5 * sawn_modulus_sixths(sawn),
        Section::Crescent(crescent) => 3 * tiered_crescent(crescent),
        Section::Dowels(_) | Section::Area { .. } => unreachable!(),
    }
}

// The moment of inertia of a closely spaced stringer, in twelfths of a cm⁴.
fn inertia(m: Member) -> u64
    requires { AllowedMember m × (field m KIND ≡ 7) }
    ensures is { over result 12 ≐ section_inertia m }
    ensures cap { result ≤ 518400000 }
{
    match m.section() {
        Section::Log(log) => tiered_inertia(log),
        Section::Sawn(sawn) => sawn_inertia(sawn),
        Section::Crescent(_) | Section::Dowels(_) | Section::Area { .. } => unreachable!(),
    }
}

// The stiffness number k of a closely spaced stringer and its deck, in ten-thousandths.
fn stiffness(m: Member) -> u64
    requires { AllowedMember m × (field m KIND ≡ 7) }
    ensures is { result ≡ stiffness_of m }
    ensures cap { result ≤ 100000 }
{
    stiffness_number(m.spacing(), inertia(m), m.span(), deck_inertia(m.deck()))
}

// Stays: K and S each have a function, as they have a column and a definition.
// The factor K of a member's species, in tenths.
fn bending(m: Member) -> u64
    requires { (1 ≤ field m SPECIES) × (field m SPECIES ≤ 8) }
    ensures is { result ≡ bending_tenths (field m SPECIES) }
    ensures cap { result ≤ 16 }
{
    bending_factor(m.number(SPECIES) as usize)
}

// The factor S of a member's species, in tenths.
fn shear(m: Member) -> u64
    requires { (1 ≤ field m SPECIES) × (field m SPECIES ≤ 8) }
    ensures is { result ≡ shear_tenths (field m SPECIES) }
    ensures cap { result ≤ 16 }
{
    shear_factor(m.number(SPECIES) as usize)
}

// What stands in front of a joint's formula, times 1000 · B.
fn joint_front(m: Member) -> u64
    requires { AllowedMember m × (4 ≤ field m KIND) × (field m KIND ≤ 6) }
    ensures { over result (1000 * field m MU_B) ≐ joint_front m }
{
    let h = m.height();
    let b = m.number(MU_B);
    match m.kind() {
        Kind::DowelledJoint => {
            dowelled(h, dowel_capacity(m.dowels()), bending(m), m.number(S6), b)
        }
        // Stays: the two numbers of code 4 by their fields, as `net_area` of specs/ has them.
        Kind::KeyedJoint => keyed(h, area_left(m.number(S1), m.number(S2)), shear(m), b),
        Kind::SteelPlates => plates(h, area_left(m.number(S1), m.number(S2)), b),
        _ => unreachable!(),
    }
}

// The permitted load of a member for a vehicle of this class and track.
pub fn permitted_load(m: Member, class: u8, track: Cm) -> KgfPerM
    requires { AllowedMember m }
    ensures is { result.0 ≡ permitted_load m class track.0 }
    ensures cap { FitsSigned result.0 }
{
    let terms = terms(m, class);
    let d = m.spacing();
    let lateral = Lateral { d, track };
    let x = m.distance();
    match m.kind() {
        Kind::Stringer => terms.stringer(modulus_thirtieths(m), bending(m), lateral),
        Kind::CrossBeam => terms.cross_beam(modulus_thirtieths(m), bending(m), x),
        Kind::Chord => terms.chord(m.height(), sawn_area(m.sawn()), bending(m), x, lateral),
        Kind::CloseStringer => {
            terms.close_stringer(
                modulus_thirtieths(m),
                bending(m),
                beta(stiffness(m), d, track),
            )
        }
        Kind::DowelledJoint | Kind::KeyedJoint | Kind::SteelPlates => {
            terms.joint(joint_front(m), m.number(MU_A), m.number(MU_B), x, lateral)
        }
    }
}
