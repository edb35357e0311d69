//! A line's pieces between commas, as tokens that borrow their bytes from the line and know their place in it.
ghost use Rattle.std.specs.Prelude.{◌≡◌, ◌+◌, ◌<◌, ◌≤◌, ◌^◌, true, false, length, MatchOption};
ghost use Rattle.std.specs.Char.{is_ascii_digit};
ghost use Rattle.std.specs.List.{list_all};
ghost use Rattle.lines.specs.Cuts.{extent, pieces, placed};
ghost use Rattle.lines.specs.Fields.{field_of, worth};

use super::mark;
use chip::refusal::Refusal;

#[derive(Clone, Copy)]
pub struct Token<'a> {
    pub text: &'a [u8],
    /// where the token starts in its line
    pub place: usize,
}

/// The tokens that are still to come.
#[derive(Drop)]
pub struct Tokens<'a> {
    // what comes after the last comma that was passed; none after the last token
    rest: Option<&'a [u8]>,
    // where the next token starts in the line
    place: usize,
    // so that there is a place for each token
    ghost fits: { place + extent rest < 2 ^ 64 },
}

impl<'a> Tokens<'a> {
    ghost use Rattle.lines.specs.Tokens.{tokens_left};

    pub fn new(line: &'a [u8]) -> Tokens<'a>
        ensures { tokens_left result ≡ placed 0 (pieces line.now) }
    {
        Tokens {
            rest: Some(line),
            place: 0,
        }
    }
}

impl<'a> Iterator for Tokens<'a> {
    ghost use Rattle.std.specs.Iterator.{YieldsFirstBy, item_count};
    ghost use Rattle.lines.specs.Tokens.{tokens_left};

    type Item = Token<'a>;

    ghost next_gives = { YieldsFirstBy (λ t. (t.text.now, t.place)) tokens_left };

    ghost remaining = { item_count tokens_left };

    // The next token, up to a comma or the end.
    fn next(&mut self) -> Option<Token<'a>> {
        let (text, rest) = mark::cut(self.rest?, b',');
        let place = self.place;
        self.place += text.len() + 1;
        self.rest = rest;
        Some(Token { text, place })
    }
}

// What at most five digits are worth, if all are digits.
fn worth(text: &[u8]) -> Option<u32>
    requires { length text.now ≤ 5 }
    ensures { MatchOption result (list_all is_ascii_digit text.now ≡ false) (λ n. (list_all is_ascii_digit text.now ≡ true) × (n ≡ worth text.now)) }
{
    let mut number = 0;
    for byte in text {
        if !byte.is_ascii_digit() {
            return None;
        }
        number = 10 * number + u32::from(*byte - b'0');
    }
    Some(number)
}

// A field's number: one to five digits, at most 65,535.
impl TryFrom<Token<'_>> for u16 {
    type Error = Refusal;

    ghost try_from_gives = { λ token number. number ≡ field_of token.text.now };

    fn try_from(token: Token) -> Result<u16, Refusal> {
        let text = token.text;
        if text.is_empty() || text.len() > 5 {
            return Err(Refusal::Unreadable);
        }
        let number = worth(text).ok_or(Refusal::Unreadable)?;
        u16::try_from(number).map_err(|_| Refusal::Unreadable)
    }
}
