// The supplement reader: hex lines to a store, against an accepted domain.
ghost use Rattle.std.specs.Prelude.{◌≡◌, true, ◌≤◌, length, replicate};
ghost use Rattle.bmap.specs.Limits.{most_laws, supplement_size};
ghost use Rattle.bmap.specs.Supplement.{read_supplement};
ghost use Rattle.index.specs.Index.{domain_of, Sound};
ghost use Rattle.domain.specs.Read.{reading_of};
ghost use Rattle.supplement.specs.Read.{UnderRead, RefusedAt, LinesUnder};

use crate::under::{Under, found_alone, refused};
use bmap::{ReadError, Refusal, SUPPLEMENT};
use index::Index;
use line::{read_line, zero_from};

// A reading, and what was found of the domain and of the supplement that it leaves: who needs it checks neither again.
#[derive(Clone, Copy, Debug, PartialEq, Eq)]
pub struct ReadUnder {
    pub answer: Result<usize, ReadError>,
    pub under: Under,
}

// "Refusals: 10, then 15 for the domain (line 0), then line by line 1, 2, 3, 20, 4". After 10 the buffer keeps its bytes; any other
// refusal zeroes it.
pub fn read(store: &[u8], text: &[u8], buffer: &mut [u8]) -> Result<usize, ReadError>
    ensures answer { reading_of result ≡ (read_supplement store.now text.now buffer.old).answer }
    ensures buffer { buffer.new ≡ (read_supplement store.now text.now buffer.old).buffer }
{
    read_under(store, text, buffer).answer
}

// The same, with what was found: of a refused text the domain alone, and not accepted.
pub fn read_under(store: &[u8], text: &[u8], buffer: &mut [u8]) -> ReadUnder
    ensures { UnderRead store.now text.now buffer.old result buffer.new }
{
    let mut under = found_alone(domain::index_of(store));
    if buffer.len() < SUPPLEMENT {
        return refused_at(under.index, Refusal::NoRoom, 0);
    }
    if !under.ok {
        zero_from(buffer, 0);
        return refused_at(under.index, Refusal::NotDomain, 0);
    }
    match read_lines(store, &mut under, text, buffer) {
        Ok(used) => {
            zero_from(buffer, used);
            let answer = Ok(used);
            ReadUnder { answer, under }
        }
        Err(why) => {
            zero_from(buffer, 0);
            refused_at(under.index, why.refusal, why.line)
        }
    }
}

fn refused_at(index: Index, refusal: Refusal, line: usize) -> ReadUnder
    ensures { RefusedAt index refusal line result }
{
    let answer = Err(ReadError { refusal, line });
    let under = refused(index);
    ReadUnder { answer, under }
}

// Line after line, each decoded into the buffer and checked there. What stands after the frames is the caller's to zero.
fn read_lines(
    store: &[u8],
    under: &mut Under,
    text: &[u8],
    buffer: &mut [u8],
) -> Result<usize, ReadError>
    requires sound { Sound store.now under.old.index }
    requires ok { under.old.ok ≡ true }
    requires first { under.old.over ≡ replicate most_laws 0 }
    requires room { supplement_size ≤ length buffer.old }
    ensures { LinesUnder (domain_of store.now under.old.index) under.old text.now result under.new buffer.new }
{
    let mut rest = text;
    let mut used = 0;
    let mut line = 0;
    loop {
        match read_line(rest, &mut buffer[used..]) {
            Ok(Some(first)) => {
                line += 1;
                if let Err(refusal) = under.take(store, buffer, used, first.bytes) {
                    return Err(ReadError { refusal, line });
                }
                used += first.bytes;
                rest = &rest[first.characters..];
            }
            Ok(None) => return Ok(used),
            Err(refusal) => {
                return Err(ReadError {
                    refusal,
                    line: line + 1,
                });
            }
        }
    }
}
