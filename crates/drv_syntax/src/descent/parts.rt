//! Parts that hold parts.

ghost use Rattle.drv_syntax.specs.Code.Lists.{closed_here, opened_here, owned_here};
ghost use Rattle.drv_syntax.specs.Code.Tests.{choice_open};
ghost use Rattle.drv_syntax.specs.Code.Writing.{seen};
ghost use Rattle.drv_syntax.specs.Labels.{no_label, part_label};
ghost use Rattle.drv_words.specs.Gives.{Gives};
ghost use Rattle.std.specs.Prelude.{◌≡◌, false, Ok};

use crate::descent::reader::Reader;
use crate::descent::simple::Tail;
use crate::descent::tokens::Open;
use crate::fault::SyntaxFault;
use crate::labels::Naming;
use crate::token::TokenKind;

/// An alternative that is not yet closed.
#[derive(Clone, Copy)]
pub struct Choice {
    /// Its token.
    pub part: Open,
    /// The place of its label.
    pub label: usize,
    /// All its tests so far are starred patterns without `!`.
    pub starred: bool,
}

/// A part opens here that names a word, of which this is said.
#[inline(always)]
pub fn open(
    kind: TokenKind,
    start: u32,
    word: &[u8],
    naming: Naming,
    r: &mut Reader<'_>,
) -> Result<Open, SyntaxFault>
    ensures { Gives SyntaxFault.Memory (λ part. (part, seen r.new)) result
        (Ok (opened_here kind
        (part_label word.now naming.starred naming.negated naming.asks) start (seen r.old))) }
{
    let token = r.tokens.len();
    r.tokens.open(kind, start)?;
    r.labels.push(word, naming)?;
    Ok(Open { token, start })
}

/// A part opens here that names nothing.
#[inline(always)]
pub fn open_unnamed(kind: TokenKind, start: u32, r: &mut Reader<'_>) -> Result<Open, SyntaxFault>
    ensures part { Gives SyntaxFault.Memory (λ part. (part, seen r.new)) result
        (Ok (opened_here kind no_label start (seen r.old))) }
    ensures rest { r.new.rest ≡ r.old.rest }
    ensures word { r.new.word.items ≡ r.old.word.items }
{
    let token = r.tokens.len();
    r.tokens.open(kind, start)?;
    r.labels.push_none()?;
    Ok(Open { token, start })
}

/// A part that opened ends here.
#[inline(always)]
pub fn close(kind: TokenKind, part: Open, r: &mut Reader<'_>)
    ensures { seen r.new ≡ closed_here kind part r.old.rest.at (seen r.old) }
{
    r.tokens.close(kind, part, r.rest.at());
}

/// The alternative that is open, or one that opens here.
#[inline(always)]
pub fn open_alternative(
    so_far: Option<Choice>,
    start: u32,
    r: &mut Reader<'_>,
) -> Result<Choice, SyntaxFault>
    ensures choice { Gives SyntaxFault.Memory (λ choice. (choice, (seen r.new).parts)) result
        (Ok (choice_open so_far start (seen r.old).parts)) }
    ensures rest { r.new.rest ≡ r.old.rest }
    ensures word { r.new.word.items ≡ r.old.word.items }
{
    if let Some(choice) = so_far {
        return Ok(choice);
    }
    let label = r.labels.len();
    let part = open_unnamed(TokenKind::Alternative, start, r)?;
    Ok(Choice {
        part,
        label,
        starred: true,
    })
}

/// An alternative ends, whose X ends so without the white space at its end. Its label says whether the
/// X has a `%*` of its own.
#[inline(always)]
pub fn close_choice(choice: Choice, tail: Tail, r: &mut Reader<'_>)
    ensures { seen r.new ≡ owned_here choice tail r.old.holds_star (seen r.old) }
{
    r.tokens.truncate(tail.tokens);
    r.labels.truncate(tail.labels);
    r.tokens
        .close(TokenKind::Alternative, choice.part, tail.kept);
    r.labels.hold(choice.label, r.holds_star);
}
