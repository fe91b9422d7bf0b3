// A symbol of the byte field: one byte and never more, in memory too.
ghost use Rattle.std.specs.Prelude.{◌<◌};

#[repr(C)]
#[derive(Clone, Copy, PartialEq, Eq, Debug)]
pub struct Byte {
    pub(super) value: u8,
    ghost small: { value < 256 },
}
