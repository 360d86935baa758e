// Zeros after what a reader put into a buffer: put there, and asked for.
ghost use Rattle.std.specs.Prelude.{◌≡◌, length, take, drop};
ghost use Rattle.bmap.specs.Buffer.{padded};
ghost use Rattle.bmap.specs.Store.{zeros};

// Zeros from a place to the end; a place past the end leaves all.
pub fn zero_from(buffer: &mut [u8], at: usize)
    ensures { buffer.new ≡ padded (length buffer.old) (take at buffer.old) }
{
    if at < buffer.len() {
        buffer[at..].fill(0);
    }
}

// Whether only zeros stand from a place to the end. The bytes are joined and tested once: a loop without an exit takes many at
// a time.
pub fn is_zero_from(buffer: &[u8], at: usize) -> bool
    ensures { result ≡ zeros (drop at buffer.now) }
{
    let rest = &buffer[at.min(buffer.len())..];
    let mut joined = 0;
    for &b in rest {
        joined |= b;
    }
    joined == 0
}
