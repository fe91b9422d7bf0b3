ghost use Rattle.std.specs.Prelude.{◌≡◌};
ghost use Rattle.engine.specs.Making.{make_number};

// Why an engine is not made.
#[derive(Clone, Copy, PartialEq, Eq)]
pub enum MakeFault {
    SmallField = 15,
    SmallStore = 16,
}

impl MakeFault {
    // The number of a fault.
    pub fn number(self) -> u8
        ensures { result ≡ make_number self }
    {
        self as u8
    }
}
