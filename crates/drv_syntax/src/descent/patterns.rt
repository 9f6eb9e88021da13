//! Patterns of switches.

ghost use Rattle.drv_syntax.specs.Code.Tests.{patterns_given};
ghost use Rattle.drv_syntax.specs.Code.Writing.{leaf_until, seen, spelled, value_given};
ghost use Rattle.drv_syntax.specs.Descent as descent;
ghost use Rattle.drv_syntax.specs.Labels.{part_label};
ghost use Rattle.drv_syntax.specs.Tree.{pattern};
ghost use Rattle.drv_words.specs.Gives.{Gives};
ghost use Rattle.std.specs.Prelude.{◌≡◌, false, Ok};

use crate::descent::reader::{Extent, Reader, Spelled, is_none, part_of_word, unclosed_fault};
use crate::descent::words::{Class, word_run};
use crate::fault::SyntaxFault;
use crate::labels::Naming;
use crate::token::{TestKind, TokenKind};

/// A word, and whether a star follows it.
#[derive(Clone, Copy)]
pub struct Starred<'a> {
    /// The word.
    pub word: Spelled<'a>,
    /// A star follows it.
    pub star: bool,
}

/// A pattern.
#[inline(always)]
pub fn pattern<'a>(
    outer: Option<u32>,
    at: u32,
    r: &mut Reader<'a>,
) -> Result<Starred<'a>, SyntaxFault>
    ensures { Gives SyntaxFault.Memory
        (λ p. (pattern (spelled p.word r.new.word.items) p.star, seen r.new)) result
        (value_given outer (seen r.old) (descent.pattern_at at r.old.rest)) }
{
    let Some(word) = word_run(Class::Word, r)? else {
        return Err(unclosed_fault(outer, at));
    };
    let first = r.rest.first();
    if first == Some(b'*') {
        r.rest.take(1);
        return Ok(Starred { word, star: true });
    }
    if !is_none(word, &r.word) {
        return Ok(Starred { word, star: false });
    }
    if first.is_none() {
        return Err(unclosed_fault(outer, at));
    }
    Err(SyntaxFault::EmptyTest(at as usize))
}

/// The braces hold this pattern, which has these bytes.
#[inline(always)]
fn emit_pattern(extent: Extent, p: Starred<'_>, r: &mut Reader<'_>) -> Result<(), SyntaxFault>
    ensures { Gives SyntaxFault.Memory (λ _. seen r.new) result (Ok (leaf_until
        TokenKind.Pattern
        (part_label (spelled p.entry.word r.old.word.items) p.entry.star false TestKind.Switch)
        extent.start extent.end (seen r.old))) }
{
    let naming = Naming {
        starred: p.star,
        negated: false,
        asks: TestKind::Switch,
    };
    part_of_word(TokenKind::Pattern, extent, p.word, naming, r)
}

/// Patterns after an ampersand, with the brace that closes them.
pub fn patterns(outer: Option<u32>, at: u32, r: &mut Reader<'_>) -> Result<(), SyntaxFault>
    ensures { Gives SyntaxFault.Memory (λ _. seen r.new) result
        (patterns_given outer (seen r.old)
        (descent.patterns at r.old.rest)) }
{
    loop {
        r.rest.skip_white();
        let start = r.rest.at();
        let p = pattern(outer, at, r)?;
        let end = r.rest.at();
        let extent = Extent { start, end };
        r.rest.skip_white();
        let Some(b) = r.rest.first() else {
            return Err(unclosed_fault(outer, at));
        };
        if b == b'}' {
            r.rest.take(1);
            emit_pattern(extent, p, r)?;
            return Ok(());
        }
        if b != b'&' {
            return Err(SyntaxFault::BadDirective(at as usize));
        }
        r.rest.take(1);
        emit_pattern(extent, p, r)?;
    }
}
