// The head of a file: mark, version, count of records and length.
ghost use Rattle.std.specs.Prelude.{◌≡◌, ◌≤◌, length};
ghost use Rattle.member.specs.Format.{◌‥◌};
ghost use Rattle.files.specs.Fault.{fault_of};
ghost use Rattle.files.specs.Header.{marked, header_fault};

use crate::fault::Fault;
use crate::limits::Limits;
use crate::words::word_at;

// The letters TB and a third one, and one of the versions.
#[tactic(auto, unfolding(crate::specs::Header::marked))]
fn is_marked(bytes: &[u8], letter: u8, versions: Limits) -> bool
    requires { 5 ≤ length bytes.now }
    ensures { result ≡ marked bytes.now letter (versions.low ‥ versions.high) }
{
    let version = versions.contains(u32::from(word_at(bytes, 3)));
    (bytes[0] == b'T') & (bytes[1] == b'B') & (bytes[2] == letter) & version
}

// Length where the file is shorter than the header, mark or version, count of records, length.
#[tactic(auto, unfolding(crate::specs::Header::header_fault))]
pub fn header_fault(
    bytes: &[u8],
    letter: u8,
    versions: Limits,
    header: usize,
    most: u32,
    size: usize,
) -> Result<(), Fault>
    requires { (5 ≤ header) × (header ≤ 16) × (size ≤ 64) }
    ensures { fault_of result ≡ header_fault letter (versions.low ‥ versions.high) header most size bytes.now }
{
    if bytes.len() < header {
        return Err(Fault::Length);
    }
    if !is_marked(bytes, letter, versions) {
        return Err(Fault::Mark);
    }
    let count = bytes[header - 1];
    let counts = Limits { low: 1, high: most };
    if !counts.contains(u32::from(count)) {
        return Err(Fault::Count);
    }
    if bytes.len() != header + size * usize::from(count) {
        return Err(Fault::Length);
    }
    Ok(())
}
