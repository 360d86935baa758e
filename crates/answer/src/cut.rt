// Where a part of the input begins: at the first line that starts with a word.
ghost use Rattle.answer.specs.Cut.{InLine, CutIn};

// The place of that line, or the input's end, and the number of lines before it.
#[derive(Clone, Copy)]
pub struct Cut {
    pub at: usize,
    pub lines: usize,
}

pub(crate) const LINE_FEED: u8 = b'\n';

// The first line that starts with the word; LF may be its last character, which then is the line's.
pub(crate) fn line_starting(input: &[u8], word: &[u8]) -> Cut
    requires { InLine word.now }
    ensures { CutIn word.now input.now result.at result.lines }
{
    let mut at: usize = 0;
    let mut lines: usize = 0;
    while at < input.len() {
        let rest = &input[at..];
        if rest.starts_with(word) {
            return Cut { at, lines };
        }
        lines += 1;
        let Some(feed) = rest.iter().position(|&c| c == LINE_FEED) else {
            return Cut {
                at: input.len(),
                lines,
            };
        };
        at += feed + 1;
    }
    Cut { at, lines }
}
