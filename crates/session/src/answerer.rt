// What answers the lines of a session.
ghost use Rattle.std.specs.Prelude.{ℕ, List, OnOk};
ghost use Rattle.session.specs.Runs.{Adds};

use std::alloc::AllocError;

// Answers one line after another.
pub trait Answerer {
    // From a state, a line is answered by these bytes, which leaves another state.
    ghost answers: { Self → List ℕ → Self → List ℕ → Type 0 };

    // Adds the answer to a line to `out`.
    fn answer(&mut self, line: &[u8], out: &mut Vec<u8>) -> Result<(), AllocError>
        ensures { OnOk result (Adds out.old.items out.new.items (answers self.old line.now self.new)) };
}
