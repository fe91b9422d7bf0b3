// A session, line by line.
ghost use Rattle.std.specs.Prelude.{◌≡◌, OnOk};
ghost use Rattle.session.specs.Runs.{Adds};
ghost use Rattle.desk.specs.declared.state.State.TheVariants.{New as new_state};
ghost use Rattle.desk.specs.Sessions.{StateAnswers, SessionAnswers};

use crate::making::first;
use crate::serving::answer_on;
use crate::state::{Desk, State};
use answers::decline::Decline;
use answers::writing::write_reply;
use field::Decimal;
use requests::read_line;
use requests::request::Request;
use session::answerer::Answerer;
use std::alloc::{AllocError, Global};

// Adds the answer to a request in a state to `out`.
fn answer_in(
    heap: Global,
    state: &mut State,
    request: Request<'_>,
    out: &mut Vec<u8>,
) -> Result<(), AllocError>
    ensures { OnOk result (Adds out.old.items out.new.items (StateAnswers state.old request.entry state.new)) }
{
    match state {
        State::New => {
            let (next, reply) = first(heap, request)?;
            *state = next;
            write_reply(reply, out)
        }
        // Kept: the machine of each arm is of another type, so no one arm takes them all.
        State::DecimalBank(machine) => answer_on(heap, machine, request, out),
        State::DecimalImage(machine) => answer_on(heap, machine, request, out),
        State::ByteBank(machine) => answer_on(heap, machine, request, out),
        State::ByteImage(machine) => answer_on(heap, machine, request, out),
    }
}

impl Desk {
    // A session before its first line.
    pub fn new(heap: Global) -> Desk
        ensures { result.state ≡ new_state }
    {
        Desk {
            heap,
            state: State::New,
        }
    }
}

impl Answerer for Desk {
    ghost answers = { SessionAnswers };

    fn answer(&mut self, line: &[u8], out: &mut Vec<u8>) -> Result<(), AllocError> {
        match read_line(line) {
            Ok(request) => answer_in(self.heap, &mut self.state, request, out),
            Err(fault) => write_reply::<Decimal>(Err(Decline::from(fault)), out),
        }
    }
}
