// What a file or a call may be refused for.
ghost use Rattle.std.specs.Prelude.{◌≡◌};
ghost use Rattle.files.specs.Reading.{test};
ghost use Rattle.files.specs.Fault.{fault_number, refusal_at};

use crate::Refusal;
use crate::answer::test;

// The faults of documents 01 and 02, in the order of their numbers.
#[derive(Clone, Copy, Debug, PartialEq, Eq)]
pub enum Fault {
    Length,
    Mark,
    Count,
    Kind,
    Species,
    Section,
    Range,
    Unused,
    NoSurvey,
    NoVehicle,
    NoPlace,
    NoRoom,
    Order,
    Sequence,
    Weight,
    Disagreement,
    Apart,
    Gauge,
}

impl Fault {
    // The documents' number.
    // Stays: a match, since the edits unused_as_range and sequence_as_order give two faults one number, which no two discriminants have.
    pub fn number(self) -> u64
        ensures { result ≡ fault_number self }
    {
        match self {
            Fault::Length => 1,
            Fault::Mark => 2,
            Fault::Count => 3,
            Fault::Kind => 4,
            Fault::Species => 5,
            Fault::Section => 6,
            Fault::Range => 7,
            Fault::Unused => 8,
            Fault::NoSurvey => 11,
            Fault::NoVehicle => 12,
            Fault::NoPlace => 13,
            Fault::NoRoom => 14,
            Fault::Order => 15,
            Fault::Sequence => 16,
            Fault::Weight => 17,
            Fault::Disagreement => 18,
            Fault::Apart => 19,
            Fault::Gauge => 20,
        }
    }

    // The refusal of a record that has this fault.
    pub fn at(self, place: u64) -> Refusal
        ensures { result ≡ refusal_at self place }
    {
        Refusal {
            number: self.number(),
            place,
        }
    }

    // Refused, at place 0, unless the test holds.
    pub fn unless(self, holds: bool) -> Result<(), Refusal>
        ensures { result ≡ test (fault_number self) holds }
    {
        test(self.number(), holds)
    }
}

// A fault that is of no record has place 0.
impl From<Fault> for Refusal {
    ghost from_gives = { λ fault refusal. refusal ≡ refusal_at fault 0 };

    fn from(fault: Fault) -> Refusal {
        fault.at(0)
    }
}
