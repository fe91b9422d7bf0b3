// Answers that echo what a line asks for.
ghost use Rattle.std.specs.Prelude.{OnOk};
ghost use Rattle.session.specs.Runs.{Adds};

use answers::decline::Decline;
use answers::reply::{Accepted, Reply};
use answers::writing::write_reply;
use byte::Byte;
use field::Decimal;
use requests::read_line;
use requests::request::{FieldKind, Request};
use session::answerer::Answerer;
use session::stage::{Stage, admit};
use std::alloc::{AllocError, Global};
use symbols::notation::Notation;
use symbols::reading::{SymbolFault, symbols_of};

// A session that holds its stage and its field, and no store.
// Kept: the stage stands beside the field, since `admit` asks for a stage.
#[derive(Drop)]
pub struct Echo {
    heap: Global,
    stage: Stage,
    field: FieldKind,
}

impl Echo {
    pub fn new(heap: Global) -> Echo {
        Echo {
            heap,
            stage: Stage::New,
            field: FieldKind::Decimal,
        }
    }

    // What a line asks for, where the session admits it.
    fn judged<'a>(&mut self, line: &'a [u8]) -> Result<Request<'a>, Decline> {
        let request = read_line(line)?;
        admit(self.stage, &request)?;
        if let Request::Make { field, .. } = request {
            self.stage = Stage::Made;
            self.field = field;
        }
        Ok(request)
    }
}

// What a request is answered, with symbols in the field in use.
// Kept: words that are no symbols are declined here as at a desk, whose answers are an engine's.
fn reply_to<S: Notation>(heap: Global, request: Request<'_>) -> Result<Reply<S>, AllocError> {
    let accepted = match request {
        Request::Make { k, .. } => Accepted::Made(k),
        Request::Set { symbols } => match symbols_of::<S>(heap, symbols) {
            Ok(read) => Accepted::Counted(read.len()),
            Err(SymbolFault::NotSymbol) => return Ok(Err(Decline::NotSymbol)),
            Err(SymbolFault::Memory) => return Err(AllocError),
        },
        Request::Put { row, symbol, .. } => match S::read_symbol(symbol.bytes) {
            Some(read) => Accepted::Fetched(row, read),
            None => return Ok(Err(Decline::NotSymbol)),
        },
        Request::Fetch { row, .. } => Accepted::Counted(row),
        Request::Lose { .. } => Accepted::Cleared(7),
        Request::Refresh { node } | Request::Mend { node } => Accepted::Counted(node),
    };
    Ok(Ok(accepted))
}

fn answer_in<S: Notation>(
    heap: Global,
    request: Request<'_>,
    out: &mut Vec<u8>,
) -> Result<(), AllocError>
    ensures { OnOk result (Adds out.old.items out.new.items (λ _. Unit {0})) }
{
    let reply = reply_to::<S>(heap, request)?;
    write_reply(reply, out)
}

impl Answerer for Echo {
    ghost answers = { λ _ _ _ _. Unit {0} };

    fn answer(&mut self, line: &[u8], out: &mut Vec<u8>) -> Result<(), AllocError> {
        match self.judged(line) {
            Err(decline) => write_reply::<Decimal>(Err(decline), out),
            Ok(request) => match self.field {
                FieldKind::Decimal => answer_in::<Decimal>(self.heap, request, out),
                FieldKind::Byte => answer_in::<Byte>(self.heap, request, out),
            },
        }
    }
}
