// The start of a line whose end has not come.
ghost use Rattle.std.specs.Prelude.{◌≤◌, length};
ghost use Rattle.text.specs.Parts.{Free};

// The first 5,001 bytes of a line whose end has not come.
#[derive(Drop)]
pub struct Feed {
    pub(crate) held: Vec<u8>,
    ghost clean: { Free 10 held.items },
    ghost short: { length held.items ≤ 5001 },
}
