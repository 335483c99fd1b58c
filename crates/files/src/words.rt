// The numbers of a file, little-endian.
ghost use Rattle.std.specs.Prelude.{◌≡◌, ◌+◌, ◌*◌, ◌<◌, ◌≤◌, length};
ghost use Rattle.member.specs.Fields.{FIELDS};
ghost use Rattle.files.specs.Words.{word_at, words};

use member::record::FIELDS;

// The u16 at a place, its low byte first.
pub fn word_at(bytes: &[u8], at: usize) -> u16
    requires { at + 1 < length bytes.now }
    ensures { result ≡ word_at bytes.now at }
{
    u16::from_le_bytes([bytes[at], bytes[at + 1]])
}

// The sixteen words of a record.
pub fn words(bytes: &[u8], at: usize) -> [u16; FIELDS]
    requires { at + 2 * FIELDS ≤ length bytes.now }
    ensures { result ≡ words bytes.now at FIELDS }
{
    let mut row = [0u16; FIELDS];
    for i in 0..FIELDS {
        row[i] = word_at(bytes, at + 2 * i);
    }
    row
}
