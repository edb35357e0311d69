//! A text cut into lines: only LF ends one, and the last needs none.
ghost use Rattle.std.specs.Prelude.{◌≡◌};
ghost use Rattle.std.specs.Iterator.{YieldsFirstRef, item_count};
ghost use Rattle.lines.specs.Cuts.{lines, read_part};

use super::mark;

/// Of an input that many bytes are read, and the rest is left: 64 KiB.
pub const LIMIT: usize = 65536;

/// The lines that are still to come.
#[derive(Drop)]
pub struct Input<'a> {
    rest: &'a [u8],
}

impl<'a> Input<'a> {
    ghost use Rattle.lines.specs.Inputs.{lines_left};

    /// The lines in the first `LIMIT` bytes of a text. A line that ends beyond them is cut there.
    pub fn new(text: &'a [u8]) -> Input<'a>
        ensures { lines_left result ≡ lines (read_part text.now) }
    {
        Input {
            rest: text.get(..LIMIT).unwrap_or(text),
        }
    }
}

impl<'a> Iterator for Input<'a> {
    ghost use Rattle.lines.specs.Inputs.{lines_left};

    type Item = &'a [u8];

    ghost next_gives = { YieldsFirstRef lines_left };

    ghost remaining = { item_count lines_left };

    // The next line, without its newline.
    fn next(&mut self) -> Option<&'a [u8]> {
        if self.rest.is_empty() {
            return None;
        }
        let (line, rest) = mark::cut(self.rest, b'\n');
        self.rest = rest.unwrap_or(&[]);
        Some(line)
    }
}
