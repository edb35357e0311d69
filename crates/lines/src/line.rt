//! One line: its word and its fields.
ghost use Rattle.std.specs.Prelude.{◌≡◌, Some, None, MatchResult};
ghost use Rattle.chip.specs.declared.refusal.Refusal.TheVariants.{Unreadable};
ghost use Rattle.lines.specs.Cuts.{pieces_left};
ghost use Rattle.lines.specs.Lines.{said, few, numbers};
ghost use Rattle.lines.specs.Numbers.{items};

use super::numbers::Numbers;
use super::token::{Token, Tokens};
use chip::refusal::Refusal;

#[derive(Clone, Copy)]
pub struct Line<'a> {
    pub word: Token<'a>,
    pub fields: Numbers,
}

// The numbers in all tokens that are still to come.
#[tactic(auto, using(crate::proofs::Cuts::next_piece, crate::proofs::Pieces::one_number_more))]
fn all_numbers(tokens: Tokens) -> Result<Numbers, Refusal>
    ensures { MatchResult result (λ ns. few (numbers (pieces_left tokens.entry.rest)) ≡ Some (items ns)) (λ e. (e ≡ Unreadable) × (few (numbers (pieces_left tokens.entry.rest)) ≡ None)) }
{
    let mut fields = Numbers::none();
    for token in tokens {
        fields.push(u16::try_from(token)?)?;
    }
    Ok(fields)
}

/// Reads a line, without its newline.
#[tactic(auto, using(crate::proofs::Cuts::next_piece, crate::proofs::Pieces::said_is))]
pub fn parse(line: &[u8]) -> Result<Line<'_>, Refusal>
    ensures { MatchResult result (λ l. said line.now ≡ Some (record { word = l.word.text.now; fields = items l.fields })) (λ e. (e ≡ Unreadable) × (said line.now ≡ None)) }
{
    if !(1..=80).contains(&line.len()) {
        return Err(Refusal::Unreadable);
    }
    let mut tokens = Tokens::new(line);
    let word = tokens.next().ok_or(Refusal::Unreadable)?;
    let fields = all_numbers(tokens)?;
    Ok(Line { word, fields })
}
