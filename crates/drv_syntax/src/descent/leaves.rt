//! Items without an inside.

ghost use Rattle.drv_syntax.specs.Code.Writing.{item_given, kind_seen, said_kind, seen};
ghost use Rattle.drv_syntax.specs.Descent as descent;
ghost use Rattle.drv_words.specs.Gives.{Gives};
ghost use Rattle.std.specs.Prelude.{◌≡◌, []};

use crate::descent::contexts::ListKind;
use crate::descent::patterns::pattern;
use crate::descent::reader::{Reader, is_none, part_with_word, unclosed_fault, write_here};
use crate::descent::runs::{RunKind, run_length};
use crate::descent::words::{Class, first, word_run};
use crate::directives::SayKind;
use crate::fault::SyntaxFault;
use crate::labels::{Naming, WORD_ALONE};
use crate::token::{TempKind, TestKind, TokenKind};

/// `%g` and its like, after the letter.
pub fn suffix(
    outer: Option<u32>,
    kind: TempKind,
    at: u32,
    r: &mut Reader<'_>,
) -> Result<(), SyntaxFault>
    ensures { Gives SyntaxFault.Memory (λ _. seen r.new) result (item_given outer at (seen r.old)
        (descent.suffix kind r.old.rest)) }
{
    let kind = TokenKind::TempName(kind);
    let bytes = r.rest.bytes();
    let size = run_length(RunKind::Suffix, bytes);
    if size != 0 {
        let word = r.rest.take(size);
        return part_with_word(kind, at, word, r);
    }
    match bytes {
        [b'%'] => Err(unclosed_fault(outer, r.rest.at())),
        [b'%', b'O', ..] => {
            r.rest.take(2);
            part_with_word(kind, at, b".o", r)
        }
        _ => part_with_word(kind, at, b"", r),
    }
}

/// `%x`, after the letter.
pub fn option(outer: Option<u32>, at: u32, r: &mut Reader<'_>) -> Result<(), SyntaxFault>
    ensures { Gives SyntaxFault.Memory (λ _. seen r.new) result (item_given outer at (seen r.old)
        (descent.option at r.old.rest)) }
{
    let Some(b) = r.rest.first() else {
        return Err(unclosed_fault(outer, at));
    };
    if b != b'{' {
        return Err(SyntaxFault::BadDirective(at as usize));
    }
    r.rest.take(1);
    let Some(word) = word_run(Class::Option, r)? else {
        return Err(unclosed_fault(outer, at));
    };
    let none = is_none(word, &r.word);
    let Some(_) = r.rest.first() else {
        return Err(unclosed_fault(outer, at));
    };
    if none {
        return Err(SyntaxFault::BadDirective(at as usize));
    }
    r.rest.take(1);
    write_here(TokenKind::Accumulate, at, word, WORD_ALONE, r)?;
    Ok(())
}

/// `%(`, after the bracket.
pub fn name(outer: Option<u32>, at: u32, r: &mut Reader<'_>) -> Result<(), SyntaxFault>
    ensures { Gives SyntaxFault.Memory (λ _. seen r.new) result (item_given outer at (seen r.old)
        (descent.named at r.old.rest)) }
{
    let size = run_length(RunKind::Name, r.rest.bytes());
    if size > 255 {
        return Err(SyntaxFault::BadDirective(at as usize));
    }
    let name = r.rest.take(size);
    let Some(b) = first(r.rest.bytes()) else {
        return Err(unclosed_fault(outer, at));
    };
    if size == 0 {
        return Err(SyntaxFault::BadDirective(at as usize));
    }
    if b != b')' {
        return Err(SyntaxFault::BadDirective(at as usize));
    }
    r.rest.take(1);
    part_with_word(TokenKind::NamedText, at, name, r)?;
    Ok(())
}

/// `%<` or `%>`, after the byte.
pub fn hide(outer: Option<u32>, at: u32, r: &mut Reader<'_>) -> Result<(), SyntaxFault>
    ensures { Gives SyntaxFault.Memory (λ _. seen r.new) result (item_given outer at (seen r.old)
        (descent.hide at r.old.rest)) }
{
    let p = pattern(outer, at, r)?;
    let naming = Naming {
        starred: p.star,
        negated: false,
        asks: TestKind::Switch,
    };
    write_here(TokenKind::Hide, at, p.word, naming, r)?;
    Ok(())
}

/// A text for the user.
#[inline(always)]
fn say_kind(kind: SayKind) -> TokenKind
    ensures { result ≡ said_kind kind }
{
    match kind {
        SayKind::AsError => TokenKind::UserError,
        SayKind::AsNotice => TokenKind::Notice,
    }
}

/// `%e` or `%n`, after the letter.
pub fn saying(
    outer: Option<u32>,
    list: ListKind,
    kind: SayKind,
    at: u32,
    r: &mut Reader<'_>,
) -> Result<(), SyntaxFault>
    ensures { Gives SyntaxFault.Memory (λ _. seen r.new) result (item_given outer at (seen r.old)
        (descent.saying (kind_seen list) kind r.old.rest)) }
{
    let Some(word) = word_run(Class::Said(list), r)? else {
        return Err(unclosed_fault(outer, r.rest.at()));
    };
    r.rest.take_if(b'\n');
    write_here(say_kind(kind), at, word, WORD_ALONE, r)?;
    Ok(())
}
