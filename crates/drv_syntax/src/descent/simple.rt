//! Items that hold no parts.

ghost use Rattle.drv_syntax.specs.Code.Lists.{begins, byte_here, context_seen, is_simple, item_ended, owner_seen, plains_on, tail_at};
ghost use Rattle.drv_syntax.specs.Code.Writing.{given, item_given, item_on, leaf_here, seen};
ghost use Rattle.drv_syntax.specs.Contexts.{newline_in};
ghost use Rattle.drv_syntax.specs.Descent as descent;
ghost use Rattle.drv_syntax.specs.Directives.{text_of};
ghost use Rattle.drv_syntax.specs.Labels.{no_label, word_label};
ghost use Rattle.drv_syntax.specs.Rest.{after, first_of};
ghost use Rattle.drv_syntax.specs.Tokens.{kind_of};
ghost use Rattle.drv_words.specs.Gives.{Gives};
ghost use Rattle.std.specs.Prelude.{◌≡◌, ◌==◌, ◌∷◌, [], false, true, Ok, Option, Some, ℕ};

use crate::descent::bytes::is_blank;
use crate::descent::contexts::{ListContext, ListKind, StarOwner};
use crate::descent::leaves::{hide, name, option, saying, suffix};
use crate::descent::reader::{Reader, part_with_word, unclosed_fault};
use crate::descent::runs::{RunKind, run_length};
use crate::directives::{BuiltinName, Directive};
use crate::fault::SyntaxFault;
use crate::token::TokenKind;

/// What a list of items ends with.
#[derive(Clone, Copy)]
pub struct Tail {
    /// Where it ends without the white space at its end.
    pub kept: u32,
    /// How many tokens there are up to there.
    pub tokens: usize,
    /// How many labels there are up to there.
    pub labels: usize,
    /// The byte after it, or 0 where the text ends.
    pub end: u8,
}

/// A part from this place on that names nothing, without parts inside it.
#[inline(always)]
fn part_without_word(kind: TokenKind, start: u32, r: &mut Reader<'_>) -> Result<(), SyntaxFault>
    ensures { Gives SyntaxFault.Memory (λ _. seen r.new) result
        (Ok (leaf_here kind no_label start (seen r.old))) }
{
    r.tokens.push(kind, start, r.rest.at())?;
    r.labels.push_none()
}

/// The name of the text that a letter denotes.
fn builtin_word(name: BuiltinName) -> &'static [u8]
    ensures { result.now ≡ text_of name }
{
    match name {
        BuiltinName::Assembler => b"asm",
        BuiltinName::AssemblerFinal => b"asm_final",
        BuiltinName::Linker => b"link",
        BuiltinName::Libraries => b"lib",
        BuiltinName::Support => b"libgcc",
        BuiltinName::StartFiles => b"startfile",
        BuiltinName::EndFiles => b"endfile",
        BuiltinName::Preprocessor => b"cpp",
        BuiltinName::Compiler => b"cc1",
        BuiltinName::CompilerPlus => b"cc1plus",
    }
}

/// `%*`.
fn star(owner: StarOwner, at: u32, r: &mut Reader<'_>) -> Result<(), SyntaxFault>
    ensures { (outer : Option ℕ) → Gives SyntaxFault.Memory (λ _. seen r.new) result
        (item_given outer at (seen r.old) (descent.star at at (owner_seen owner) r.old.rest)) }
{
    match owner {
        StarOwner::Nobody => return Err(SyntaxFault::StarOutside(at as usize)),
        StarOwner::Mixed => return Err(SyntaxFault::MixedStar(at as usize)),
        StarOwner::Starred => {}
    }
    part_without_word(TokenKind::Star, at, r)?;
    r.holds_star = true;
    Ok(())
}

/// What a directive goes on with, after its byte, where that holds no parts.
#[inline(always)]
pub fn directive(
    outer: Option<u32>,
    c: ListContext,
    at: u32,
    d: Directive,
    r: &mut Reader<'_>,
) -> Result<(), SyntaxFault>
    requires { is_simple d ≡ true }
    ensures { Gives SyntaxFault.Memory (λ _. seen r.new) result
        (item_given outer at (seen r.old) (descent.directive_by descent.no_lists descent.no_lists
        (context_seen c) at at d r.old.rest)) }
{
    match d {
        Directive::Whole(leaf) => part_without_word(TokenKind::Leaf(leaf), at, r),
        Directive::Named(name) => part_with_word(TokenKind::BuiltinText, at, builtin_word(name), r),
        Directive::WithSuffix(kind) => suffix(outer, kind, at, r),
        Directive::WithOption => option(outer, at, r),
        Directive::WithSaying(kind) => saying(outer, c.kind, kind, at, r),
        Directive::WithName => name(outer, at, r),
        Directive::WithPattern => hide(outer, at, r),
        Directive::OfStar => star(c.owner, at, r),
        Directive::Nowhere
        | Directive::WithCall
        | Directive::WithBraces
        | Directive::WithMarkedBraces(_) => Err(SyntaxFault::BadDirective(at as usize)),
    }
}

/// A newline, in arguments or not.
#[inline(always)]
fn newline(c: ListContext) -> TokenKind
    ensures { result ≡ kind_of (newline_in c.in_arguments) }
{
    if c.in_arguments {
        TokenKind::Blank
    } else {
        TokenKind::Newline
    }
}

/// An item of white space.
#[inline(always)]
fn white(kind: TokenKind, r: &mut Reader<'_>) -> Result<(), SyntaxFault>
    requires { begins r.old.rest.bytes ≡ true }
    ensures { Gives SyntaxFault.Memory (λ _. seen r.new) result
        (Ok (byte_here kind no_label (seen r.old))) }
{
    let start = r.rest.at();
    r.rest.take(1);
    part_without_word(kind, start, r)
}

/// After an item that is no white space.
#[inline(always)]
pub fn tail_here(r: &Reader<'_>) -> Tail
    ensures { result ≡ tail_at (seen r.now) }
{
    Tail {
        kept: r.rest.at(),
        tokens: r.tokens.len(),
        labels: r.labels.len(),
        end: 0,
    }
}

/// A plain byte.
#[inline(always)]
fn plain(b: u8, r: &mut Reader<'_>) -> Result<(), SyntaxFault>
    requires { begins r.old.rest.bytes ≡ true }
    ensures { Gives SyntaxFault.Memory (λ _. seen r.new) result
        (Ok (byte_here TokenKind.Plain (word_label (b ∷ [])) (seen r.old))) }
{
    let start = r.rest.at();
    r.rest.take(1);
    r.tokens.push(TokenKind::Plain, start, r.rest.at())?;
    r.labels.push_byte(b)
}

/// A backslash and the byte that it makes plain.
fn escape(outer: Option<u32>, r: &mut Reader<'_>) -> Result<(), SyntaxFault>
    requires { begins r.old.rest.bytes ≡ true }
    ensures { Gives SyntaxFault.Memory (λ _. seen r.new) result (item_given outer
        r.old.rest.at (seen r.old) (descent.escape r.old.rest)) }
{
    let start = r.rest.at();
    let Some(b) = r.rest.second() else {
        return Err(unclosed_fault(outer, start));
    };
    r.rest.take(2);
    r.tokens.push(TokenKind::Escape, start, r.rest.at())?;
    r.labels.push_byte(b)
}

/// A bar or a plain byte.
#[inline(always)]
fn bar_or_plain(c: ListContext, b: u8, r: &mut Reader<'_>) -> Result<(), SyntaxFault>
    requires { first_of r.old.rest.bytes ≡ Some b }
    ensures { Gives SyntaxFault.Memory (λ _. seen r.new) result (Ok (item_on r.old.rest.at
        (seen r.old).parts (descent.bar_or_plain c.in_arguments b) (after 1 r.old.rest))) }
{
    if b == b'|' && !c.in_arguments {
        let start = r.rest.at();
        r.rest.take(1);
        return part_without_word(TokenKind::Pipe, start, r);
    }
    plain(b, r)
}

/// An item that is no directive, from its first byte on, and what the list then ends with.
#[inline(always)]
pub fn item(
    outer: Option<u32>,
    c: ListContext,
    b: u8,
    tail: Tail,
    r: &mut Reader<'_>,
) -> Result<Tail, SyntaxFault>
    requires byte { first_of r.old.rest.bytes ≡ Some b }
    requires other { (b == 37) ≡ false }
    ensures { Gives SyntaxFault.Memory (λ tail. (tail, seen r.new)) result
        (given outer (item_ended tail (seen r.old)) (descent.item descent.no_lists
        descent.no_lists (context_seen c) b r.old.rest)) }
{
    if b == b'\\' {
        escape(outer, r)?;
        return Ok(tail_here(r));
    }
    if is_blank(b) {
        white(TokenKind::Blank, r)?;
        return Ok(tail);
    }
    if b == b'\n' {
        white(newline(c), r)?;
        return Ok(tail);
    }
    bar_or_plain(c, b, r)?;
    Ok(tail_here(r))
}

/// The plain bytes that the rest begins with, in a list of this kind.
#[inline(always)]
pub fn plains(kind: ListKind, tail: Tail, r: &mut Reader<'_>) -> Result<Tail, SyntaxFault>
    ensures { Gives SyntaxFault.Memory (λ tail. (tail, seen r.new)) result
        (Ok (plains_on kind tail (seen r.old))) }
{
    let size = run_length(RunKind::Plain(kind), r.rest.bytes());
    if size == 0 {
        return Ok(tail);
    }
    let start = r.rest.at();
    let run = r.rest.take(size);
    r.tokens.push_run(start, run)?;
    r.labels.push_bytes(run)?;
    Ok(tail_here(r))
}
