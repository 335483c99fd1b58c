// The least and the greatest that a number of a file may be.
ghost use Rattle.std.specs.Prelude.{◌≡◌};
ghost use Rattle.member.specs.Format.{◌‥◌};
ghost use Rattle.files.specs.Reading.{is_in};

#[derive(Clone, Copy, Debug, PartialEq, Eq)]
pub struct Limits {
    pub low: u32,
    pub high: u32,
}

impl Limits {
    // Both included.
    pub fn contains(self, n: u32) -> bool
        ensures { result ≡ is_in (self.low ‥ self.high) n }
    {
        (self.low..=self.high).contains(&n)
    }
}
