ghost use Rattle.std.specs.Prelude.{◌≡◌, length};

use engine::Engine;
use repair::TwoClass;
use sheet::Record;

// An engine with its store and its working memory.
#[derive(Drop)]
pub struct Machine<F, S> {
    pub(crate) engine: Engine<TwoClass>,
    pub(crate) store: S,
    pub(crate) memory: Vec<Record<F>>,
    ghost room: { length memory.items ≡ 1024 },
}
