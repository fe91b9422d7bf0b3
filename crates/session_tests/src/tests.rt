// Words that just pass and just fail, and inputs cut into chunks.
ghost use Rattle.std.specs.Prelude.{◌<◌};

use crate::echo::Echo;
use byte::Byte;
use field::Decimal;
use session::held::Feed;
use session::streaming::answer_all;
use std::alloc::{AllocError, Global};
use std::test::Fail;
use symbols::notation::Notation;
use text::numbers::number;

fn is_symbol<S: Notation>(word: &[u8]) -> bool {
    S::read_symbol(word).is_some()
}

fn is_number(word: &[u8]) -> bool {
    number(word).is_some()
}

// The answers to an input that comes in chunks of a size.
fn answered(heap: Global, input: &[u8], size: usize) -> Result<Vec<u8>, AllocError>
    requires { 0 < size }
{
    let mut echo = Echo::new(heap);
    let mut feed = Feed::new(heap);
    let mut out = Vec::new(heap);
    for chunk in input.chunks(size) {
        feed.feed(&mut echo, chunk, &mut out)?;
    }
    feed.finish(&mut echo, &mut out)?;
    Ok(out)
}

#[test]
fn byte_symbols(rt: HostRuntime) {
    assert!(rt; is_symbol::<Byte>(b"0"));
    assert!(rt; is_symbol::<Byte>(b"7"));
    assert!(rt; is_symbol::<Byte>(b"255"));
    assert!(rt; !is_symbol::<Byte>(b"256"));
    assert!(rt; !is_symbol::<Byte>(b"007"));
    assert!(rt; !is_symbol::<Byte>(b"00"));
    assert!(rt; !is_symbol::<Byte>(b""));
    assert!(rt; !is_symbol::<Byte>(b"X"));
}

#[test]
fn decimal_symbols(rt: HostRuntime) {
    assert!(rt; is_symbol::<Decimal>(b"0"));
    assert!(rt; is_symbol::<Decimal>(b"9"));
    assert!(rt; is_symbol::<Decimal>(b"X"));
    assert!(rt; !is_symbol::<Decimal>(b"x"));
    assert!(rt; !is_symbol::<Decimal>(b"10"));
    assert!(rt; !is_symbol::<Decimal>(b"01"));
    assert!(rt; !is_symbol::<Decimal>(b""));
    assert!(rt; !is_symbol::<Decimal>(b":"));
}

#[test]
fn numbers(rt: HostRuntime) {
    assert!(rt; is_number(b"0"));
    assert!(rt; is_number(b"99999"));
    assert!(rt; !is_number(b"100000"));
    assert!(rt; !is_number(b"00"));
    assert!(rt; !is_number(b"01"));
    assert!(rt; !is_number(b""));
    assert!(rt; !is_number(b"/"));
    assert!(rt; !is_number(b":"));
}

#[test]
fn an_empty_input(rt: HostRuntime) -> Result<(), Fail> {
    let out = answered(rt.alloc(), b"", 1)?;
    assert!(rt; out.len() == 0);
    let mut echo = Echo::new(rt.alloc());
    let mut feed = Feed::new(rt.alloc());
    let mut fed = Vec::new(rt.alloc());
    feed.feed(&mut echo, b"", &mut fed)?;
    feed.finish(&mut echo, &mut fed)?;
    assert!(rt; fed.len() == 0);
    Ok(())
}

#[test]
fn empty_lines(rt: HostRuntime) -> Result<(), Fail> {
    let one = answered(rt.alloc(), b"\n", 1)?;
    assert!(rt; one.as_slice() == b"no\t21\t-\t-\n".as_slice());
    let two = answered(rt.alloc(), b"\n\n", 1)?;
    assert!(rt; two.as_slice() == b"no\t21\t-\t-\nno\t21\t-\t-\n".as_slice());
    Ok(())
}

#[test]
fn any_chunks(rt: HostRuntime) -> Result<(), Fail> {
    let input =
        b"lose\t1\nmake\tb\tc\t3\t2\t1\t0\n\nput\t1\t2\t255\nput\t1\t2\t256\nmake\t\nset\t0\t007\nfetch\t8\t9";
    let expected =
        b"no\t44\t-\t-\nok\t3\nno\t21\t-\t-\nok\t1\t255\nno\t24\t-\t-\nno\t22\t-\t-\nno\t24\t-\t-\nok\t8\n";
    for size in 1..90usize {
        let out = answered(rt.alloc(), input, size)?;
        assert!(rt; out.as_slice() == expected.as_slice());
    }
    Ok(())
}

#[test]
fn whole_input(rt: HostRuntime) -> Result<(), Fail> {
    let mut echo = Echo::new(rt.alloc());
    let mut input = b"lose\t1\nmake\tb\tc\t3\t2\t1\t0\nfetch\t8\t9".as_slice();
    let mut output = Vec::new(rt.alloc());
    answer_all::<_, _, _, 3>(rt.alloc(), &mut echo, &mut input, &mut output)?;
    assert!(rt; output.as_slice() == b"no\t44\t-\t-\nok\t3\nok\t8\n".as_slice());
    Ok(())
}
