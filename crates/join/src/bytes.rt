// The bytes of a survey's file of version 1, into the output.
ghost use Rattle.std.specs.Prelude.{◌≡◌, ◌+◌, ◌≤◌, length};
ghost use Rattle.std.proofs.Math.Seq.{paste};
ghost use Rattle.surveys.specs.SurveyFile.{SURVEY_HEADER, RECORD};
ghost use Rattle.join.specs.SurveyBytes.{head_bytes, record_bytes};

use files::output::put_number;
use member::record::{FIELDS, Member};

const VERSION: u64 = 1;

// "the letters TBR, u16 version 1, u8 count"
pub fn put_head(out: &mut [u8], count: usize)
    requires { SURVEY_HEADER ≤ length out.old }
    ensures { out.new ≡ paste out.old 0 (head_bytes count) SURVEY_HEADER }
{
    out[..3].copy_from_slice(b"TBR");
    put_number(out, 3, 2, VERSION);
    put_number(out, 5, 1, count as u64);
}

// "16 u16"
pub fn put_record(out: &mut [u8], at: usize, m: Member)
    requires { at + RECORD ≤ length out.old }
    ensures { out.new ≡ paste out.old at (record_bytes m) RECORD }
{
    for f in 0..FIELDS {
        put_number(out, at + 2 * f, 2, u64::from(m.fields[f]));
    }
}
