// Why parameters are declined.
ghost use Rattle.std.specs.Prelude.{◌≡◌};
ghost use Rattle.array.specs.Checks.{fault_number};

#[derive(Clone, Copy, Debug, PartialEq, Eq)]
pub enum ParameterFault {
    // The data nodes are not 3 to 32.
    DataNodes = 11,
    // The Class A nodes are not 2 to k - 1.
    ClassA = 12,
    // The piggybacked nodes are not 1 to a - 1.
    Piggybacks = 13,
    // The Class B nodes are not 0 to k - tau - 1.
    ClassB = 14,
    // The field has fewer symbols than there are data and Class A nodes.
    SmallField = 15,
}

impl ParameterFault {
    pub fn number(self) -> u8
        ensures { result ≡ fault_number self }
    {
        self as u8
    }
}
