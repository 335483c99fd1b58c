// What every file has in common: its numbers, its head, and what a file or a call is refused for. What is written goes into a lent output.
#![tactic(auto)]

ghost use Rattle.std.specs.Prelude.{Some};
ghost use Rattle.files.specs.Text.{refusal_text};

pub mod answer;
pub mod fault;
pub mod header;
pub mod limits;
pub mod output;
pub mod words;

use std::error::Error;
use std::fmt;

// Stays: a number and no `Fault`, since `refused_by` and what the theorems say of a refusal speak of the number, and the host gets it.
// A refusal: the documents' number, and the place of the record that has the fault. What is taken answers `Ok`.
#[derive(Clone, Copy, Debug, PartialEq, Eq)]
pub struct Refusal {
    pub number: u64,
    pub place: u64,
}

impl fmt::Display for Refusal {
    ghost output = { λ refusal. Some (refusal_text refusal) };

    fn fmt<W: fmt::Write>(&self, f: &mut fmt::Formatter<W>) -> fmt::Result {
        write!(f, "refused {} at {}", self.number, self.place)
    }
}

impl Error for Refusal {}
