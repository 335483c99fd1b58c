// Where the answers are printed. A write that fails is kept and nothing is written after it, so that the steps go on as if all were
// written; the end tells whether it was.
ghost use Rattle.std.specs.Prelude.{◌<◌};

use std::fmt::Display;
use std::io;

// A digit of a number to the base 16.
fn digit(n: u8) -> u8
    requires { n < 16 }
{
    if n < 10 { b'0' + n } else { b'a' + (n - 10) }
}

#[derive(Drop)]
pub struct Out {
    rt: HostRuntime,
    written: io::Result<()>,
}

impl Out {
    pub fn new(rt: HostRuntime) -> Out {
        Out {
            rt,
            written: Ok(()),
        }
    }

    pub fn bytes(&mut self, bytes: &[u8]) {
        if self.written.is_ok() {
            self.written = self.rt.write_all(bytes);
        }
    }

    pub fn print<T: Display + Drop>(&mut self, x: T) {
        if self.written.is_ok() {
            self.written = self.rt.print(x);
        }
    }

    // Two digits to the base 16, with no formatter: a buffer has thousands of bytes.
    pub fn hex(&mut self, n: u8) {
        self.bytes(&[digit(n / 16), digit(n % 16)]);
    }

    pub fn end(self) -> io::Result<()> {
        self.written
    }
}
