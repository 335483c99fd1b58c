// Bytes into a lent output: a number at a place.
ghost use Rattle.std.specs.Prelude.{◌≡◌, ◌+◌, ◌≤◌, length};
ghost use Rattle.std.proofs.Math.Seq.{paste};
ghost use Rattle.files.specs.Words.{bytes_of};

// A number in so many bytes, its low byte first.
pub fn put_number(out: &mut [u8], at: usize, width: usize, number: u64)
    requires { at + width ≤ length out.old }
    ensures { out.new ≡ paste out.old at (bytes_of width number) width }
{
    let mut rest = number;
    // Stays: no `to_le_bytes`, which has eight bytes, since `width` may be any number.
    for i in 0..width {
        out[at + i] = (rest % 256) as u8;
        rest /= 256;
    }
}
