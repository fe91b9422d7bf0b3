// Writes, for each byte that one reading of standard input gives (256 at most), a line with the byte, its inverse, and its products with the bytes 0 to 255.
#![tactic(auto)]

use byte::Byte;
use field::Field;
use std::io;
use std::io::{Read, Write};

fn main(rt: HostRuntime) -> io::Result<()> {
    // Kept: one reading of at most 256 bytes, of which there are 256.
    let mut bytes = [0u8; 256];
    let n = rt.stdin().read(&mut bytes)?;
    let mut line = String::new(rt.alloc());
    for a in &bytes[0..n] {
        line.clear();
        let symbol = Byte::new(*a);
        let inverse = symbol.inverse().value();
        write!(line, "{a} {inverse}")?;
        for b in 0..=255u8 {
            let product = symbol.product(Byte::new(b)).value();
            write!(line, " {product}")?;
        }
        line.push('\n')?;
        rt.stdout().write_all(line.as_bytes())?;
    }
    Ok(())
}
