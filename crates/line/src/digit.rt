// The characters of a line: its digits, each with its value, and its LF.
ghost use Rattle.std.specs.Prelude.{◌≡◌, true, ◌<◌, ◌≤◌, MatchOption, IfSome, eqb, get_or};
ghost use Rattle.bmap.specs.Line.{digit, digit_for, line_feed};
ghost use Rattle.line.specs.Within.{pair_of, worth, is_digit};

pub(crate) const LINE_FEED: u8 = b'\n';

// The byte that two digits spell.
#[inline(always)]
#[tactic(auto, using(crate::proofs::Digits::worth_most), unfolding(crate::specs::Within::pair_of))]
pub(crate) fn pair(high: u8, low: u8) -> Option<u8>
    ensures { MatchOption result (255 < pair_of high low) (λ b. (pair_of high low ≤ 255) × (b ≡ pair_of high low)) }
{
    u8::try_from(value(high) * 16 + value(low)).ok()
}

// The value of a digit, 256 for what is none, as it stands in the table that a `match` on single characters is compiled to. A
// pair is then tested once: with an `Option` here each character would be, and three bytes would take half as long again.
#[tactic(auto, using(crate::proofs::Digits::no_digit), unfolding(bmap::specs::Line::digit))]
fn value(c: u8) -> u16
    ensures { result ≡ worth (digit c) }
{
    match c {
        b'0' => 0,
        b'1' => 1,
        b'2' => 2,
        b'3' => 3,
        b'4' => 4,
        b'5' => 5,
        b'6' => 6,
        b'7' => 7,
        b'8' => 8,
        b'9' => 9,
        b'A' => 10,
        b'B' => 11,
        b'C' => 12,
        b'D' => 13,
        b'E' => 14,
        b'F' => 15,
        _ => 256,
    }
}

// Whether a character is a digit. No test here is a jump, so that a loop asks many characters at a time.
pub(crate) fn is_digit(c: u8) -> bool
    ensures { result ≡ is_digit c }
{
    ((b'0' <= c) & (c <= b'9')) | ((b'A' <= c) & (c <= b'F'))
}

// The byte that two characters spell that are known to be digits. It reads no table, so that a loop makes many at a time.
pub(crate) fn byte_of(high: u8, low: u8) -> u8
    requires { pair_of high low ≤ 255 }
    ensures { result ≡ pair_of high low }
{
    digit_value(high) * 16 + digit_value(low)
}

fn digit_value(c: u8) -> u8
    requires { is_digit c ≡ true }
    ensures { result ≡ worth (digit c) }
{
    if c <= b'9' { c - b'0' } else { c - b'A' + 10 }
}

// Whether a LF stands at a place.
pub(crate) fn feed_at(text: &[u8], at: usize) -> bool
    ensures { result ≡ eqb (get_or text.now at 0) line_feed }
{
    text.get(at) == Some(&LINE_FEED)
}

// The digit of a value below 16.
#[tactic(auto, unfolding(bmap::specs::Line::digit_for))]
pub(crate) fn digit_for(value: u8) -> u8
    requires { value < 16 }
    ensures { result ≡ digit_for value }
{
    if value < 10 {
        value + b'0'
    } else {
        value - 10 + b'A'
    }
}
