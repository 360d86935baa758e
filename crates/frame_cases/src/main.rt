// Document 01's domain P, read into a store and handed out again by the frame reader: the refusal's number, 0 for none, then a line
// for each frame, which is the line that was read. It stands on `domain`.
#![tactic(auto)]

use bmap::STORE;
use domain::{next, start};
use std::io;
use std::io::Write;

const DIGITS: [u8; 16] = *b"0123456789ABCDEF";

// Frame after frame, until "no more" was heard twice: after the last frame the reader stays.
fn hand_out<W: Write>(out: &mut W, store: &[u8]) -> io::Result<()> {
    let mut r = start(store);
    writeln!(out, "{}", r.refusal)?;
    let mut left: usize = 2;
    while left > 0 {
        let part = next(&mut r);
        if part.is_empty() {
            writeln!(out, "no more")?;
            left -= 1;
        } else {
            print_line(out, part)?;
        }
    }
    Ok(())
}

// Two digits of upper-case hex for each byte, which go in one write: `{b:02X}` writes the first by itself where it is 0.
fn print_line<W: Write>(out: &mut W, part: &[u8]) -> io::Result<()> {
    for &b in part {
        out.write_all(&[DIGITS[b as usize / 16], DIGITS[b as usize % 16]])?;
    }
    writeln!(out)
}

fn main(rt: HostRuntime) -> io::Result<()> {
    let mut store = [0u8; STORE];
    // Lines that are refused leave zeros, over which no reader starts.
    let _ = domain::read(
        b"A10102\n\
          A20600C80140012C\n\
          A303000003\n\
          A403010001\n\
          A403020002\n\
          A50800241100001000DC\n\
          A50801241100001000DC\n\
          A60A002A001311000010000E\n\
          A60A012A0013110000100006\n\
          A90725110000100118\n",
        &mut store,
    );
    let mut out = rt.stdout();
    hand_out(&mut out, &store)?;
    // With a byte after its frames the store is no domain, and none of them is handed out.
    store[STORE - 1] = 1;
    hand_out(&mut out, &store)
}
