// The input's two parts, and both loaded.
ghost use Rattle.std.specs.Prelude.{◌≡◌, ◌≤◌, length};
ghost use Rattle.session.specs.Answers.{loaded};
ghost use Rattle.bridge.specs.Input.{ENOUGH, LoadedFrom, survey_length, load_input};

use session::{After, load_files};
use surveys::file::{HEADER, RECORD, count_of};

// The longest survey and the longest vehicle that a count byte can call for, and one byte more.
pub const ENOUGH: usize = HEADER
    + RECORD * 255
    + (vehicles::axle::HEADER + vehicles::axle::LONGEST_AXLE * 255)
    + 1;

// How many bytes of the input are the survey: the last byte of its header is the count of records.
fn survey_length(input: &[u8]) -> usize
    ensures { result ≡ survey_length input.now }
{
    if input.len() < HEADER {
        return input.len();
    }
    let called = HEADER + RECORD * count_of(input);
    input.len().min(called)
}

// Loads the input of which the first n bytes of a buffer were read, or as many as the buffer holds: what is beyond them changes
// nothing.
pub fn load_read(buffer: &[u8], n: usize) -> After<()>
    requires { (ENOUGH ≤ length buffer.now) × (n ≤ length buffer.now) }
    ensures { LoadedFrom buffer.now n (loaded result) }
{
    load_input(&buffer[..n])
}

// Loads the survey, and where it is taken the vehicle.
fn load_input(input: &[u8]) -> After<()>
    ensures { loaded result ≡ load_input input.now }
{
    let (survey, vehicle) = input.split_at(survey_length(input));
    load_files(survey, vehicle)
}
