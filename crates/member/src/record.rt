// A member and a vehicle as their files hold them.
ghost use Rattle.std.specs.Prelude.{◌≡◌, ◌<◌};
ghost use Rattle.member.specs.Fields.{KIND, SPAN, SPACING, DISTANCE, HEIGHT, DEAD_LOAD, CODE, S1, S2, S3, S4, S5, S6, MU_A, MU_B, LAST_KIND, LAST_CODE, field};
ghost use Rattle.member.specs.Format.{In, ◌‥◌};
ghost use Rattle.member.specs.Kind.{kind_number};
ghost use Rattle.member.specs.Section.{SectionIs};

use crate::kind::Kind;
use section::crescent::Crescent;
use section::dowel::Dowels;
use section::log::Log;
use section::sawn::Sawn;
use section::{Cm, Kgf, KgfPerM, Mm};
use spread::inertia::Deck;

// The places of a member's sixteen numbers, in the file's order.
// Stays: numbers, since document 01's named form loops over the fields, and `field` of specs/ takes any number.
pub const KIND: usize = 0;

pub const SPECIES: usize = 1;

pub const SPAN: usize = 2;

pub const SPACING: usize = 3;

pub const DISTANCE: usize = 4;

pub const HEIGHT: usize = 5;

pub const DEAD_LOAD: usize = 6;

pub const CODE: usize = 7;

pub const S1: usize = 8;

pub const S2: usize = 9;

pub const S3: usize = 10;

pub const S4: usize = 11;

pub const S5: usize = 12;

pub const S6: usize = 13;

pub const MU_A: usize = 14;

pub const MU_B: usize = 15;

pub const FIELDS: usize = 16;

// The number of `Kind::CloseStringer`.
pub const CLOSE_STRINGER: u16 = 7;

// The most members of a survey, and the most axles of a vehicle.
pub const MOST_MEMBERS: usize = 255;

pub const MOST_AXLES: usize = 16;

// Stays: no invariant, since `code_fault`, `order_answer`, `joined_member` and `read_survey` answer for records with any numbers; what a rating needs of
// one, `AllowedMember`, stands in the contracts.
// The sixteen numbers of a member's record.
#[derive(Clone, Copy)]
pub struct Member {
    pub fields: [u16; FIELDS],
}

// The members of a bridge, of which the first `count` are used.
// Stays: fixed memory without a heap; `AllowedSurvey` and `members_of`, under the theorems of rating, speak of both fields.
#[derive(Clone, Copy)]
pub struct Survey {
    pub count: usize,
    pub members: [Member; MOST_MEMBERS],
}

// A lorry: class, track, and of the first `axles` axles the weight and the distance from the axle in front.
// Stays: fixed memory without a heap; `AllowedVehicle` and `Heavier` speak of each field, the number of the class too.
#[derive(Clone, Copy)]
pub struct Vehicle {
    pub class: u8,
    pub track: Cm,
    pub axles: usize,
    pub weights: [Kgf; MOST_AXLES],
    pub distances: [Cm; MOST_AXLES],
}

// The section of a member, which its code picks.
#[derive(Clone, Copy)]
pub enum Section {
    Log(Log),
    Sawn(Sawn),
    Dowels(Dowels),
    // In cm².
    Area { given: u64, lost: u64 },
    Crescent(Crescent),
}

// A number leaves the record with its unit: lengths as `Cm`, the dead load as `KgfPerM`, a dowel's diameter as `Mm`. What has none
// of these units (codes, counts, cm²) is a plain number.
impl Member {
    // The number in a field.
    pub fn number(self, f: usize) -> u64
        requires { f < 16 }
        ensures { result ≡ field self f }
    {
        u64::from(self.fields[f])
    }

    // What the member is.
    pub fn kind(self) -> Kind
        requires { In (1 ‥ LAST_KIND) (field self KIND) }
        ensures { kind_number result ≡ field self KIND }
    {
        Kind::try_from(self.fields[KIND]).unwrap()
    }

    // Stays: four methods, since each gives a quantity its name and unit; one that took the field would be less plain.
    // l
    pub fn span(self) -> Cm
        ensures { result.0 ≡ field self SPAN }
    {
        Cm(self.number(SPAN))
    }

    // d
    pub fn spacing(self) -> Cm
        ensures { result.0 ≡ field self SPACING }
    {
        Cm(self.number(SPACING))
    }

    // x
    pub fn distance(self) -> Cm
        ensures { result.0 ≡ field self DISTANCE }
    {
        Cm(self.number(DISTANCE))
    }

    // h
    pub fn height(self) -> Cm
        ensures { result.0 ≡ field self HEIGHT }
    {
        Cm(self.number(HEIGHT))
    }

    // q
    pub fn dead_load(self) -> KgfPerM
        ensures { result.0 ≡ field self DEAD_LOAD }
    {
        KgfPerM(self.number(DEAD_LOAD))
    }

    // The section of code 1: s1 diameter, s2 rot, s3 tiers.
    pub fn log(self) -> Log
        requires { field self CODE ≡ 1 }
        ensures { (result.diameter.0 ≡ field self S1) × (result.rot.0 ≡ field self S2) × (result.tiers ≡ field self S3) }
    {
        Log {
            diameter: Cm(self.number(S1)),
            rot: Cm(self.number(S2)),
            tiers: self.number(S3),
        }
    }

    // The section of code 2: s1 width, s2 height, s3 side rot, s4 top rot, s5 pieces, s6 lost area.
    pub fn sawn(self) -> Sawn
        requires { field self CODE ≡ 2 }
        ensures { (result.width.0 ≡ field self S1) × (result.height.0 ≡ field self S2) × (result.side_rot.0 ≡ field self S3) × (result.top_rot.0 ≡ field self S4) × (result.pieces ≡ field self S5) × (result.lost ≡ field self S6) }
    {
        Sawn {
            width: Cm(self.number(S1)),
            height: Cm(self.number(S2)),
            side_rot: Cm(self.number(S3)),
            top_rot: Cm(self.number(S4)),
            pieces: self.number(S5),
            lost: self.number(S6),
        }
    }

    // The section of code 3: s1 type, s2 diameter, s3 middle thickness, s4 outer thickness, s5 rot, s6 cuts.
    pub fn dowels(self) -> Dowels
        requires { field self CODE ≡ 3 }
        ensures { (result.material ≡ field self S1) × (result.diameter.0 ≡ field self S2) × (result.middle.0 ≡ field self S3) × (result.outer.0 ≡ field self S4) × (result.rot.0 ≡ field self S5) × (result.cuts ≡ field self S6) }
    {
        Dowels {
            material: self.number(S1),
            diameter: Mm(self.number(S2)),
            middle: Cm(self.number(S3)),
            outer: Cm(self.number(S4)),
            rot: Cm(self.number(S5)),
            cuts: self.number(S6),
        }
    }

    // The section of code 5: s1 diameter, s2 depth of the crescent, s3 tiers.
    pub fn crescent(self) -> Crescent
        requires { field self CODE ≡ 5 }
        ensures { (result.diameter.0 ≡ field self S1) × (result.depth.0 ≡ field self S2) × (result.tiers ≡ field self S3) }
    {
        Crescent {
            diameter: Cm(self.number(S1)),
            depth: Cm(self.number(S2)),
            tiers: self.number(S3),
        }
    }

    // The section that the code picks.
    pub fn section(self) -> Section
        requires { In (1 ‥ LAST_CODE) (field self CODE) }
        ensures { SectionIs self result }
    {
        match self.number(CODE) {
            1 => Section::Log(self.log()),
            2 => Section::Sawn(self.sawn()),
            3 => Section::Dowels(self.dowels()),
            4 => Section::Area {
                given: self.number(S1),
                lost: self.number(S2),
            },
            5 => Section::Crescent(self.crescent()),
            _ => unreachable!(),
        }
    }

    // The deck over closely spaced stringers: x board count, h board thickness, A board width, B deck rot.
    pub fn deck(self) -> Deck
        requires { field self KIND ≡ 7 }
        ensures { (result.boards ≡ field self DISTANCE) × (result.thickness.0 ≡ field self HEIGHT) × (result.width.0 ≡ field self MU_A) × (result.rot.0 ≡ field self MU_B) }
    {
        Deck {
            boards: self.number(DISTANCE),
            thickness: Cm(self.number(HEIGHT)),
            width: Cm(self.number(MU_A)),
            rot: Cm(self.number(MU_B)),
        }
    }
}
