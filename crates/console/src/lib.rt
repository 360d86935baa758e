// A reader's bytes, taken whole, and what a program writes for them: the programs `waroth`, `low_water` and `report` stand on it.
#![tactic(auto)]

ghost use Rattle.std.specs.Prelude.{◌≡◌, ◌≤◌, ◌<◌, ◌⊎◌, ℕ, List, length, take, OnOk, OnErr, IfSome};
ghost use Rattle.std.specs.Io.KnownBytes.{Consumes, IsAtEnd, Appends};
ghost use Rattle.console.specs.Took.{Took, FillsOrEnds};

use std::io;
use std::io::{Read, Write};

// How many bytes were taken, and whether a read failed after them.
#[derive(Drop)]
pub struct Taken {
    pub whole: io::Result<()>,
    pub size: usize,
}

// Reads to the end of the input, until the buffer is full, or until a read fails: what the reader gave stands at the front of the
// buffer, byte for byte, and a shorter input that is whole has no byte left. Which bytes standard input gives, no contract can say.
pub fn take_input<R: Read>(reader: &mut R, buffer: &mut [u8]) -> Taken
    ensures within { result.size ≤ length buffer.new }
    ensures bytes { Consumes (R.remaining reader.old) (R.remaining reader.new) (take result.size buffer.new) }
    ensures end { OnOk result.whole (result.size < length buffer.new → IsAtEnd (R.remaining reader.new)) }
{
    let mut size: usize = 0;
    while size < buffer.len() {
        match reader.read(&mut buffer[size..]) {
            Ok(0) => break,
            Ok(more) => size += more,
            Err(e) => return Taken {
                whole: Err(e),
                size,
            },
        }
    }
    Taken {
        whole: Ok(()),
        size,
    }
}

// A program, from input bytes to output bytes: its output is as many bytes at the front of the buffer as it counts.
pub trait Program {
    // What it may put: for an input and a buffer, how many bytes it counts and what the buffer holds then.
    ghost puts: { Self → List ℕ → List ℕ → ℕ → List ℕ → Type 0 };

    fn put(&self, input: &[u8], buffer: &mut [u8]) -> usize
        ensures within { result ≤ length buffer.new }
        ensures puts { puts self.now input.now buffer.old result buffer.new };
}

// All of a reader's bytes go through a program, and what it puts goes to a writer. Where the program puts f of its input, and bytes after
// those that the input's buffer holds do not change f, the writer gets f of all that the reader has.
pub fn run<R: Read, W: Write, P: Program>(
    from: &mut R,
    input: &mut [u8],
    output: &mut [u8],
    to: &mut W,
    program: &P,
) -> io::Result<()>
    // Of any reader: the writer got the output of the bytes taken.
    ensures answered { OnOk result ((bytes : List ℕ) × (n : ℕ)
        × Took (R.remaining from.old) (R.remaining from.new) input.new bytes × FillsOrEnds (R.remaining from.new) input.new bytes
        × P.puts program.now bytes output.old n output.new
        × Appends (W.contents to.old) (W.contents to.new) (take n output.new)) }
    // Nothing was put or written, as where a read failed; or all was taken and put, as where the write failed.
    ensures failed { OnErr result ((bytes : List ℕ)
        × Took (R.remaining from.old) (R.remaining from.new) input.new bytes
        × ((output.new ≡ output.old) × (to.new ≡ to.old)
        ⊎ FillsOrEnds (R.remaining from.new) input.new bytes × ((n : ℕ) × P.puts program.now bytes output.old n output.new))) }
    ensures whole { (f : List ℕ → List ℕ)
        → ((bytes : List ℕ) (n : ℕ) (left : List ℕ) → P.puts program.now bytes output.old n left → take n left ≡ f bytes)
        → ((bytes : List ℕ) → f (take (length input.old) bytes) ≡ f bytes)
        → OnOk result (IfSome (R.remaining from.old) (λ bytes. Appends (W.contents to.old) (W.contents to.new) (f bytes))) }
{
    let taken = take_input(from, input);
    // Half an input is not answered.
    taken.whole?;
    let written = program.put(&input[..taken.size], output);
    to.write_all(&output[..written])
}

#[cfg(test)]
mod tests {
    use super::*;

    // Gives at most so many bytes a read, and fails once, after so many reads.
    #[derive(Drop)]
    struct Pieces {
        left: &'static [u8],
        most: usize,
        reads: Option<usize>,
    }

    impl Read for Pieces {
        fn read(&mut self, buf: &mut [u8]) -> io::Result<usize> {
            if self.reads == Some(0) {
                self.reads = None;
                return Err(io::ErrorKind::TimedOut.into());
            }
            self.reads = self.reads.map(|n| n.saturating_sub(1));
            let n = self.most.min(self.left.len()).min(buf.len());
            buf[..n].copy_from_slice(&self.left[..n]);
            self.left = &self.left[n..];
            Ok(n)
        }
    }

    // What is taken of "A10102" into a buffer of so many bytes, and what is left to be read.
    #[test]
    fn takes_pieces(rt: HostRuntime) {
        for (most, room, taken, left) in [
            (6, 8, &b"A10102"[..], &b""[..]),
            (1, 8, b"A10102", b""),
            (4, 6, b"A10102", b""),
            (4, 5, b"A1010", b"2"),
            (9, 0, b"", b"A10102"),
        ] {
            let mut reader = Pieces {
                left: b"A10102",
                most,
                reads: None,
            };
            let mut buffer = [b'.'; 8];
            let got = take_input(&mut reader, &mut buffer[..room]);
            assert!(rt; got.whole.is_ok(), "{most} {room}");
            assert_eq!(rt; &buffer[..got.size], taken, "{most} {room}");
            assert_eq!(rt; reader.left, left, "{most} {room}");
        }
    }

    // A read that fails in mid-stream: what came before it is there, and the next call goes on behind it.
    #[test]
    fn says_that_a_read_failed(rt: HostRuntime) {
        let mut reader = Pieces {
            left: b"A10102",
            most: 2,
            reads: Some(2),
        };
        let mut buffer = [b'.'; 8];
        let got = take_input(&mut reader, &mut buffer);
        assert_eq!(rt;
            got.whole.map_err(|e| e.kind()),
            Err(io::ErrorKind::TimedOut)
        );
        assert_eq!(rt; &buffer[..got.size], &b"A101"[..]);
        let rest = take_input(&mut reader, &mut buffer);
        assert!(rt; rest.whole.is_ok());
        assert_eq!(rt; &buffer[..rest.size], &b"02"[..]);
    }

    // A slice is a reader too, and needs no fake.
    #[test]
    fn takes_a_slice(rt: HostRuntime) {
        let mut reader: &[u8] = b"A10102\n";
        let mut buffer = [0u8; 16];
        let got = take_input(&mut reader, &mut buffer);
        assert!(rt; got.whole.is_ok());
        assert_eq!(rt; &buffer[..got.size], &b"A10102\n"[..]);
    }

    // Puts its input as it stands, as far as there is room, and at most so many bytes.
    struct Copied {
        most: usize,
    }

    impl Program for Copied {
        ghost use Rattle.std.specs.Prelude.{◌≡◌, ◌≤◌, ◌++◌, take, drop};

        ghost puts = { λ it input buffer n left. (n ≤ it.most) × (left ≡ take n input ++ drop n buffer) };

        fn put(&self, input: &[u8], buffer: &mut [u8]) -> usize {
            let n = self.most.min(input.len()).min(buffer.len());
            buffer[..n].copy_from_slice(&input[..n]);
            n
        }
    }

    // What comes in pieces goes through whole; of half an input nothing is put or written.
    #[test]
    fn runs_a_program(rt: HostRuntime) {
        for (reads, put) in [(None, b"A101...."), (Some(2), b"........")] {
            let mut reader = Pieces {
                left: b"A10102",
                most: 2,
                reads,
            };
            let mut input = [b'.'; 8];
            let mut output = [b'.'; 8];
            let mut written = [b'.'; 8];
            let mut writer = &mut written[..];
            let ran = run(
                &mut reader,
                &mut input,
                &mut output,
                &mut writer,
                &Copied { most: 4 },
            );
            assert_eq!(rt; ran.is_ok(), reads.is_none());
            assert_eq!(rt; &output, put);
            assert_eq!(rt; &written, put);
        }
    }
}
