// The domain reader: hex lines to a store.
ghost use Rattle.std.specs.Prelude.{◌≡◌, ◌≤◌, length};
ghost use Rattle.bmap.specs.Limits.{store_size};
ghost use Rattle.bmap.specs.Store.{read_domain};
ghost use Rattle.domain.specs.Read.{reading_of, on_line, FoundRead, LinesRead};

use crate::progress::Progress;
use bmap::{ReadError, Refusal, STORE};
use index::Index;
use line::{read_line, zero_from};

// What was read: so many bytes of the store are used, and the index of what stands there. Who needs it checks no frame again.
#[derive(Clone, Copy, Debug, PartialEq, Eq)]
pub struct ReadFound {
    pub used: usize,
    pub index: Index,
}

// "Domain reader: 10, then line by line 1, 2, 3, 5, 4, 6, then 7." After 10 the store keeps its bytes; any other refusal zeroes it.
pub fn read(text: &[u8], store: &mut [u8]) -> Result<usize, ReadError>
    ensures answer { reading_of result ≡ (read_domain text.now store.old).answer }
    ensures buffer { store.new ≡ (read_domain text.now store.old).buffer }
{
    let found = read_found(text, store)?;
    Ok(found.used)
}

// The same, with the index.
pub fn read_found(text: &[u8], store: &mut [u8]) -> Result<ReadFound, ReadError>
    ensures { FoundRead text.now store.old result store.new }
{
    if store.len() < STORE {
        return Err(ReadError {
            refusal: Refusal::NoRoom,
            line: 0,
        });
    }
    let reading = read_lines(text, store);
    zero_from(store, reading.map_or(0, |found| found.used));
    reading
}

// Line after line, each decoded into the store and checked there. What stands after the frames is the caller's to zero.
#[tactic(auto, using(crate::proofs::ReaderLaws::reads_used, crate::proofs::ReaderLaws::reads_lines))]
fn read_lines(text: &[u8], store: &mut [u8]) -> Result<ReadFound, ReadError>
    requires { store_size ≤ length store.old }
    ensures { LinesRead text.now result store.new }
{
    let mut progress = Progress::new();
    let mut rest = text;
    let mut used = 0;
    let mut line = 0;
    while let Some(first) = on_line(read_line(rest, &mut store[used..]), line + 1)? {
        line += 1;
        let next = used + first.bytes;
        on_line(
            progress.take(used, store[used], &store[used + 2..next]),
            line,
        )?;
        used = next;
        rest = &rest[first.characters..];
    }
    if !progress.is_complete() {
        return Err(ReadError {
            refusal: Refusal::Incomplete,
            line,
        });
    }
    Ok(ReadFound {
        used,
        index: progress.index,
    })
}

// What is refused of a line.
fn on_line<T>(answer: Result<T, Refusal>, line: usize) -> Result<T, ReadError>
    ensures { result ≡ on_line answer line }
{
    match answer {
        Ok(x) => Ok(x),
        Err(refusal) => Err(ReadError { refusal, line }),
    }
}
