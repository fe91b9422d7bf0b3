// A symbol from a byte, and the byte from a symbol.
ghost use Rattle.std.specs.Prelude.{◌≡◌};
ghost use Rattle.byte.specs.Bytes.{byte as the_byte, byte_number};

use super::byte::Byte;

impl From<u8> for Byte {
    ghost from_gives = { λ value symbol. symbol ≡ the_byte value };

    fn from(value: u8) -> Byte {
        Byte { value }
    }
}

impl From<Byte> for u8 {
    ghost from_gives = { λ symbol value. value ≡ byte_number symbol };

    fn from(symbol: Byte) -> u8 {
        symbol.value
    }
}

// Kept: callers name the two ways by these words, and `From` names neither.
impl Byte {
    // The symbol that holds a byte.
    pub fn new(value: u8) -> Byte
        ensures { result ≡ the_byte value }
    {
        Byte::from(value)
    }

    // The byte that a symbol holds.
    pub fn value(self) -> u8
        ensures { result ≡ byte_number self }
    {
        u8::from(self)
    }
}
