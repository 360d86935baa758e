// The frame at a place of a store.
ghost use Rattle.std.specs.Prelude.{◌≡◌};
ghost use Rattle.line.specs.Frame.{frame_size_at};

use bmap::PAYLOAD;

// How many bytes the frame at a place has, which may lie anywhere: a kind other than 00, a count up to the limit, and the whole
// payload.
pub fn frame_at(store: &[u8], at: usize) -> Option<usize>
    ensures { result ≡ frame_size_at store.now at }
{
    if at >= store.len() {
        return None;
    }
    let left = store.len() - at;
    if left < 2 {
        return None;
    }
    if store[at] == 0 {
        return None;
    }
    let count = store[at + 1] as usize;
    if count > PAYLOAD {
        return None;
    }
    if count + 2 > left {
        return None;
    }
    Some(count + 2)
}
