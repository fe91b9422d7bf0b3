// Requests to an engine with its store.
ghost use Rattle.std.specs.Prelude.{◌≡◌, length, IfOk, OnOk};
ghost use Rattle.calls.specs.History.{asked};
ghost use Rattle.requests.specs.declared.request.Request.TheVariants.{Set as set_request, Put as put_request};
ghost use Rattle.desk.specs.Engines.{Serving};
ghost use Rattle.session.specs.Runs.{Adds};
ghost use Rattle.desk.specs.Machines.{Called, Replies, Answers, Answered};

use crate::machine::Machine;
use crate::replies::reply_of;
use answers::decline::Decline;
use answers::reply::Reply;
use answers::writing::write_reply;
use calls::{Answer, Call, CallFault};
use engine::Engine;
use field::NumberedField;
use repair::{TwoClass, serve};
use requests::request::Request;
use sheet::Record;
use std::alloc::{AllocError, Global};
use store::Store;
use symbols::notation::Notation;
use symbols::reading::{SymbolFault, symbols_of};
use text::words::{Word, Words};

// A call with working memory that lies in a vector.
fn served<F: NumberedField, S: Store<F>>(
    engine: &Engine<TwoClass>,
    store: &mut S,
    call: Call<'_, F>,
    memory: &mut Vec<Record<F>>,
) -> Result<Answer<F>, CallFault>
    ensures serving { Serving F.Field.ops F.NumberedField.symbol F.NumberedField.size engine.now (asked call.entry) (length memory.old.items) result (S.Store.meaning store.old) (S.Store.meaning store.new) }
    ensures long { length memory.new.items ≡ length memory.old.items }
{
    serve(engine, store, call, memory.as_mut_slice())
}

impl<F: NumberedField, S: Store<F>> Machine<F, S> {
    // Serves a call.
    fn serve_call(&mut self, call: Call<'_, F>) -> Reply<F>
        ensures { Called F.Field.ops F.NumberedField.symbol F.NumberedField.size S.Store.meaning (asked call.entry) self.old self.new result }
    {
        let engine = self.engine;
        let answer = served(&engine, &mut self.store, call, &mut self.memory);
        reply_of(answer)
    }
}

// A set: its words are read as symbols first.
fn reply_set<F: NumberedField + Notation, S: Store<F>>(
    heap: Global,
    machine: &mut Machine<F, S>,
    words: Words<'_>,
) -> Result<Reply<F>, AllocError>
    ensures { IfOk result (λ reply. Replies F.Field.ops F.NumberedField.symbol F.NumberedField.size F.Notation.written S.Store.meaning (set_request words.entry) machine.old machine.new reply) }
{
    match symbols_of::<F>(heap, words) {
        Ok(symbols) => Ok(machine.serve_call(Call::Set(symbols.as_slice()))),
        Err(SymbolFault::NotSymbol) => Ok(Err(Decline::NotSymbol)),
        Err(SymbolFault::Memory) => Err(AllocError),
    }
}

// A put: its word is read as a symbol first.
fn reply_put<'m, F: NumberedField + Notation, S: Store<F>>(
    machine: &'m mut Machine<F, S>,
    row: usize,
    node: usize,
    word: Word<'_>,
) -> Reply<F>
    ensures { Replies F.Field.ops F.NumberedField.symbol F.NumberedField.size F.Notation.written S.Store.meaning (put_request row node word.entry) machine.old machine.new result }
{
    let symbol = F::read_symbol(word.bytes).ok_or(Decline::NotSymbol)?;
    let call: Call<'m, F> = Call::Put(row, node, symbol);
    machine.serve_call(call)
}

// What a machine replies to a request that is no make.
// A call has a lifetime, that of the symbols which a set lends; a call that lends none has it from the machine.
pub fn reply_to<'m, F: NumberedField + Notation, S: Store<F>>(
    heap: Global,
    machine: &'m mut Machine<F, S>,
    request: Request<'_>,
) -> Result<Reply<F>, AllocError>
    ensures { IfOk result (λ reply. Answers F.Field.ops F.NumberedField.symbol F.NumberedField.size F.Notation.written S.Store.meaning request.entry machine.old machine.new reply) }
{
    let call: Call<'m, F> = match request {
        Request::Make { .. } => return Ok(Err(Decline::AlreadyMade)),
        Request::Set { symbols } => return reply_set(heap, machine, symbols),
        Request::Put { row, node, symbol } => return Ok(reply_put(machine, row, node, symbol)),
        Request::Fetch { row, node } => Call::Fetch(row, node),
        Request::Lose { node } => Call::Lose(node),
        Request::Refresh { node } => Call::Refresh(node),
        Request::Mend { node } => Call::Mend(node),
    };
    Ok(machine.serve_call(call))
}

// Adds the answer of a machine to `out`.
pub fn answer_on<F: NumberedField + Notation, S: Store<F>>(
    heap: Global,
    machine: &mut Machine<F, S>,
    request: Request<'_>,
    out: &mut Vec<u8>,
) -> Result<(), AllocError>
    ensures { OnOk result (Adds out.old.items out.new.items (Answered F.Field.ops F.NumberedField.symbol F.NumberedField.size F.Notation.written S.Store.meaning request.entry machine.old machine.new)) }
{
    let reply = reply_to(heap, machine, request)?;
    write_reply(reply, out)
}
