// Answer lines, written.
// Kept: bytes are added to bytes, since a symbol's word is bytes and no text that `write!` could print.
ghost use Rattle.std.specs.Prelude.{◌≡◌, [], ◌∷◌, ◌++◌, IfOk, codes, decimal, OnOk};
ghost use Rattle.text.specs.Parts.{joined_by};
ghost use Rattle.answers.specs.Lines.{decline_words, place_words, reply_words, answer_line};

use crate::decline::Decline;
use crate::reply::{Accepted, Reply};
use sheet::Place;
use std::alloc::{AllocError, Global};
use symbols::notation::Notation;
use text::numbers::push_number;

// Adds the words of a row and a node to `out`.
fn write_place(place: Option<Place>, out: &mut Vec<u8>) -> Result<(), AllocError>
    ensures { OnOk result (out.new.items ≡ out.old.items ++ joined_by 9 (place_words place)) }
{
    match place {
        Some(at) => {
            push_number(out, at.row)?;
            out.push(b'\t')?;
            push_number(out, at.node)?;
        }
        None => out.extend_from_slice(b"-\t-")?,
    }
    Ok(())
}

// Adds the words of a decline to `out`, parted by tabs.
fn write_decline(decline: Decline, out: &mut Vec<u8>) -> Result<(), AllocError>
    ensures { OnOk result (out.new.items ≡ out.old.items ++ joined_by 9 (decline_words decline)) }
{
    out.extend_from_slice(b"no\t")?;
    push_number(out, decline.number())?;
    out.push(b'\t')?;
    write_place(decline.place(), out)?;
    Ok(())
}

// Adds `ok` and a number to `out`, parted by a tab.
fn write_number(number: usize, out: &mut Vec<u8>) -> Result<(), AllocError>
    ensures { OnOk result (out.new.items ≡ out.old.items ++ joined_by 9 (codes "ok" ∷ decimal number ∷ [])) }
{
    out.extend_from_slice(b"ok\t")?;
    push_number(out, number)?;
    Ok(())
}

// Adds `ok`, a count and a symbol to `out`, parted by tabs.
fn write_fetched<S: Notation>(count: usize, symbol: S, out: &mut Vec<u8>) -> Result<(), AllocError>
    ensures { OnOk result (out.new.items ≡ out.old.items ++ joined_by 9 (codes "ok" ∷ decimal count ∷ S.Notation.written symbol ∷ [])) }
{
    write_number(count, out)?;
    out.push(b'\t')?;
    symbol.write_symbol(out)?;
    Ok(())
}

// Adds the words of a reply to `out`, parted by tabs.
fn write_words<S: Notation>(reply: Reply<S>, out: &mut Vec<u8>) -> Result<(), AllocError>
    ensures { OnOk result (out.new.items ≡ out.old.items ++ joined_by 9 (reply_words S.Notation.written reply)) }
{
    match reply {
        Ok(Accepted::Made(number) | Accepted::Counted(number)) => write_number(number, out),
        // Kept: a cast that loses nothing, since no `From` leads from a u32 to a usize.
        Ok(Accepted::Cleared(sum)) => write_number(sum as usize, out),
        Ok(Accepted::Fetched(count, symbol)) => write_fetched(count, symbol, out),
        Err(decline) => write_decline(decline, out),
    }
}

// Adds the line of a reply to `out`.
pub fn write_reply<S: Notation>(reply: Reply<S>, out: &mut Vec<u8>) -> Result<(), AllocError>
    ensures { OnOk result (out.new.items ≡ out.old.items ++ answer_line S.Notation.written reply) }
{
    write_words(reply, out)?;
    out.push(b'\n')?;
    Ok(())
}

// The line of a reply.
pub fn answer_line<S: Notation>(heap: Global, reply: Reply<S>) -> Result<Vec<u8>, AllocError>
    ensures { IfOk result (λ v. v.items ≡ answer_line S.Notation.written reply) }
{
    let mut out = Vec::new(heap);
    write_reply(reply, &mut out)?;
    Ok(out)
}
