//! Lists of items, and the parts that hold lists.

ghost use Rattle.drv_syntax.specs.Code.Lists.{EndsAt, Opened, around, begins, brace_given, brace_kind, context_seen, directive_given, end_given, is_simple, later_given, listed_given, default_here, owner_when, result_given, tail_at, with_end, x_given};
ghost use Rattle.drv_syntax.specs.Code.Tests.{alternative_of, form_given, more_given, opening_seen, order_seen};
ghost use Rattle.drv_syntax.specs.Code.Tests.{tried_given};
ghost use Rattle.drv_syntax.specs.Code.Writing.{item_given, kind_seen, seen};
ghost use Rattle.drv_syntax.specs.Contexts as contexts;
ghost use Rattle.drv_syntax.specs.Descent as descent;
ghost use Rattle.drv_syntax.specs.Refusals as refusals;
ghost use Rattle.drv_syntax.specs.Rest.{after};
ghost use Rattle.drv_words.specs.Gives.{Gives};
ghost use Rattle.std.specs.Prelude.{◌≡◌, ◌≤◌, IfOk, Ok, true};

use crate::descent::contexts::{ListContext, ListKind, in_arguments, in_braces, in_x, outermost};
use crate::descent::functions::function;
use crate::descent::parts::{Choice, close, close_choice, open, open_alternative, open_unnamed};
use crate::descent::patterns::patterns;
use crate::descent::reader::{Reader, unclosed_fault};
use crate::descent::simple::{Tail, directive, item, plains, tail_here};
use crate::descent::tests::{
    Next, Opening, Order, Test, alternative_of, begin, judge_result, plain_test,
};
use crate::directives::{BraceKind, Directive, allows, directive_of};
use crate::fault::SyntaxFault;
use crate::labels::{Naming, WORD_ALONE};
use crate::token::{TestKind, TokenKind};

/// What braces hold.
#[derive(Clone, Copy)]
pub enum Inside {
    /// Patterns, which pass switches on: `%{S*&T*}`.
    Patterns,
    /// Alternatives, each a test and what it gives: `%{S:X; T:Y}`.
    Choices,
}

/// What braces or an alternative begin with.
#[derive(Clone, Copy)]
pub enum Form {
    /// Patterns, which end the braces.
    Patterns,
    /// The tests of this alternative.
    Tests(Choice),
}

/// The byte ends a list of this kind.
#[inline(always)]
fn ends_list(kind: ListKind, b: u8) -> bool
    ensures { result ≡ descent.ends_list (kind_seen kind) b }
{
    match kind {
        ListKind::Top => false,
        ListKind::InX => b == b';' || b == b'}',
        ListKind::InArguments => b == b')',
    }
}

/// What a list ends with, and the byte after it.
#[inline(always)]
fn with_end(tail: Tail, end: u8) -> Tail
    ensures { result ≡ with_end tail end }
{
    Tail { end, ..tail }
}

/// The end of a text in a list of this kind: a whole text ends there, and any other list isn't
/// closed.
#[inline(always)]
fn at_end(outer: Option<u32>, kind: ListKind, tail: Tail, n: u32) -> Result<Tail, SyntaxFault>
    ensures { result ≡ end_given outer (kind_seen kind) tail n }
{
    match kind {
        ListKind::Top => Ok(with_end(tail, 0)),
        ListKind::InX | ListKind::InArguments => Err(unclosed_fault(outer, n)),
    }
}

/// The directive holds no parts.
#[inline(always)]
fn is_simple(d: Directive) -> bool
    ensures { result ≡ is_simple d }
{
    !matches!(
        d,
        Directive::WithCall | Directive::WithBraces | Directive::WithMarkedBraces(_),
    )
}

/// An alternative without tests opens at its colon, with the colon.
#[inline(always)]
fn open_default(r: &mut Reader<'_>) -> Result<Choice, SyntaxFault>
    requires { begins r.old.rest.bytes ≡ true }
    ensures { Gives SyntaxFault.Memory (λ choice. (choice, seen r.new)) result
        (Ok (default_here (seen r.old))) }
{
    let start = r.rest.at();
    r.rest.take(1);
    let label = r.labels.len();
    let part = open_unnamed(TokenKind::Alternative, start, r)?;
    Ok(Choice {
        part,
        label,
        starred: false,
    })
}

/// The token of braces, by what is before them and what they hold.
#[inline(always)]
fn brace_token(kind: BraceKind, inside: Inside) -> TokenKind
    ensures { result ≡ brace_kind kind inside }
{
    match (kind, inside) {
        (BraceKind::InPlace, Inside::Patterns) => TokenKind::Emit,
        (BraceKind::InPlace, Inside::Choices) => TokenKind::Choose,
        (BraceKind::IntoFailureFile, _) => TokenKind::FailureFile,
        (BraceKind::IntoArgumentsFile, _) => TokenKind::ArgumentsFile,
    }
}

/// A list of items, up to the byte that ends it.
#[cycle(list)]
pub fn items(outer: Option<u32>, c: ListContext, r: &mut Reader<'_>) -> Result<Tail, SyntaxFault>
    requires { Opened (kind_seen c.kind) outer }
    ensures list { Gives SyntaxFault.Memory (λ tail. (tail, seen r.new)) result
        (listed_given outer (tail_at (seen r.old)) (seen r.old)
        ((descent.levels c.levels).0 (context_seen c) r.old.rest)) }
    ensures end { IfOk result (λ tail. EndsAt (kind_seen c.kind) tail.end r.new.rest.bytes) }
{
    let mut tail = tail_here(r);
    loop {
        tail = plains(c.kind, tail, r)?;
        let Some(b) = r.rest.first() else {
            let last = at_end(outer, c.kind, tail, r.rest.at())?;
            return Ok(last);
        };
        if ends_list(c.kind, b) {
            return Ok(with_end(tail, b));
        }
        if b == b'%' {
            percent(outer, c, r)?;
            tail = tail_here(r);
        } else {
            tail = item(outer, c, b, tail, r)?;
        }
    }
}

/// A directive, from its percent sign on.
#[inline(always)]
#[cycle(list)]
fn percent(outer: Option<u32>, c: ListContext, r: &mut Reader<'_>) -> Result<(), SyntaxFault>
    requires { begins r.old.rest.bytes ≡ true }
    ensures { Gives SyntaxFault.Memory (λ _. seen r.new) result
        (directive_given outer (context_seen c) (around c.levels) (seen r.old)) }
{
    let at = r.rest.at();
    r.rest.take(1);
    let Some(b) = r.rest.first() else {
        return Err(unclosed_fault(outer, at));
    };
    if !allows(c, b) {
        return Err(SyntaxFault::BadDirective(at as usize));
    }
    r.rest.take(1);
    let d = directive_of(b);
    if is_simple(d) {
        return directive(outer, c, at, d, r);
    }
    if c.levels == 0 {
        return Err(SyntaxFault::TooNested(at as usize));
    }
    match d {
        Directive::WithCall => call(outer, c, at, r),
        Directive::WithBraces => braces(outer, c, at, BraceKind::InPlace, r),
        Directive::WithMarkedBraces(kind) => {
            let Some(b) = r.rest.first() else {
                return Err(unclosed_fault(outer, at));
            };
            if b != b'{' {
                return Err(SyntaxFault::BadDirective(at as usize));
            }
            r.rest.take(1);
            braces(outer, c, at, kind, r)
        }
        _ => Err(SyntaxFault::BadDirective(at as usize)),
    }
}

/// A function's name and its arguments.
#[cycle(list)]
fn call(outer: Option<u32>, c: ListContext, at: u32, r: &mut Reader<'_>) -> Result<(), SyntaxFault>
    requires { 1 ≤ c.levels }
    ensures { Gives SyntaxFault.Memory (λ _. seen r.new) result (item_given outer at (seen r.old)
        (descent.call (around c.levels).0 (context_seen c) at r.old.rest)) }
{
    let outer = outermost(outer, at);
    let name = function(outer, at, r)?;
    let part = open(TokenKind::Function, at, name, WORD_ALONE, r)?;
    items(outer, in_arguments(c), r)?;
    r.rest.take(1);
    close(TokenKind::Function, part, r);
    Ok(())
}

/// The inside of braces, with the one that closes them.
#[inline(always)]
#[cycle(list)]
fn braces(
    outer: Option<u32>,
    c: ListContext,
    at: u32,
    kind: BraceKind,
    r: &mut Reader<'_>,
) -> Result<(), SyntaxFault>
    requires { 1 ≤ c.levels }
    ensures { Gives SyntaxFault.Memory (λ _. seen r.new) result (item_given outer at (seen r.old)
        (descent.braces (around c.levels).0 (around c.levels).1 (context_seen c) at kind
        r.old.rest)) }
{
    let part = open_unnamed(TokenKind::Choose, at, r)?;
    let inside = choices(outer, c, at, r)?;
    close(brace_token(kind, inside), part, r);
    Ok(())
}

/// Patterns, or alternatives.
#[inline(always)]
#[cycle(list)]
fn choices(
    outer: Option<u32>,
    c: ListContext,
    at: u32,
    r: &mut Reader<'_>,
) -> Result<Inside, SyntaxFault>
    requires { 1 ≤ c.levels }
    ensures { Gives SyntaxFault.Memory (λ inside. (inside, seen r.new)) result
        (brace_given outer (seen r.old)
        (descent.choices (around c.levels).0 (around c.levels).1 (context_seen c) at r.old.rest)) }
{
    let choice = match tests(outer, c, at, Opening::AtFront, r)? {
        Form::Patterns => return Ok(Inside::Patterns),
        Form::Tests(choice) => choice,
    };
    if x(outer, c, at, choice, r)? != b'}' {
        later(outer, c, at, r)?;
    }
    Ok(Inside::Choices)
}

/// Alternatives after the first.
#[cycle(list)]
fn later(outer: Option<u32>, c: ListContext, at: u32, r: &mut Reader<'_>) -> Result<(), SyntaxFault>
    requires { 1 ≤ c.levels }
    ensures { Gives SyntaxFault.Memory (λ _. seen r.new) result (later_given outer (seen r.old)
        (descent.later (around c.levels).0 (around c.levels).1 (context_seen c) at r.old.rest)) }
{
    loop {
        if r.rest.begins_after_white(b':') {
            r.rest.skip_white();
            let choice = open_default(r)?;
            if x(outer, c, at, choice, r)? != b'}' {
                return Err(SyntaxFault::EmptyTest(at as usize));
            }
            return Ok(());
        }
        let Form::Tests(choice) = tests(outer, c, at, Opening::AtNext, r)? else {
            return Err(SyntaxFault::BadDirective(at as usize));
        };
        if x(outer, c, at, choice, r)? == b'}' {
            return Ok(());
        }
    }
}

/// The X of an alternative, after its colon, and the byte that ends it.
#[cycle(list)]
fn x(
    outer: Option<u32>,
    c: ListContext,
    at: u32,
    choice: Choice,
    r: &mut Reader<'_>,
) -> Result<u8, SyntaxFault>
    requires { 1 ≤ c.levels }
    ensures { Gives SyntaxFault.Memory (λ end. (end, seen r.new)) result
        (x_given outer at choice (seen r.old) ((around c.levels).0
        (owner_when choice.starred (contexts.in_braces (context_seen c)))
        r.old.rest)) }
{
    let around = r.holds_star;
    r.holds_star = false;
    let tail = items(outermost(outer, at), in_x(c, choice), r)?;
    close_choice(choice, tail, r);
    r.holds_star = around;
    r.rest.take(1);
    Ok(tail.end)
}

/// The tests of an alternative, with the colon after them; or patterns, with the brace after them.
#[inline(always)]
#[cycle(list)]
fn tests(
    outer: Option<u32>,
    c: ListContext,
    at: u32,
    opening: Opening,
    r: &mut Reader<'_>,
) -> Result<Form, SyntaxFault>
    requires { 1 ≤ c.levels }
    ensures { Gives SyntaxFault.Memory (λ form. (form, seen r.new)) result
        (form_given outer (seen r.old) (descent.form (around c.levels).1 (context_seen c) at
        (opening_seen opening) r.old.rest)) }
{
    match test(outer, c, at, Order::First(opening), r)? {
        Next::Emits => Ok(Form::Patterns),
        Next::Joins => {
            patterns(outer, at, r)?;
            Ok(Form::Patterns)
        }
        Next::Asks(choice) => Ok(Form::Tests(choice)),
        Next::Bars(choice) => Ok(Form::Tests(more_tests(outer, c, at, choice, r)?)),
    }
}

/// More tests of an alternative, after a bar, with the colon after them.
#[cycle(list)]
fn more_tests(
    outer: Option<u32>,
    c: ListContext,
    at: u32,
    choice: Choice,
    r: &mut Reader<'_>,
) -> Result<Choice, SyntaxFault>
    requires { 1 ≤ c.levels }
    ensures { Gives SyntaxFault.Memory (λ choice. (choice, seen r.new)) result
        (more_given outer choice (seen r.old) (descent.more_tests (around c.levels).1
        (context_seen c) at r.old.rest)) }
{
    let mut choice = choice;
    loop {
        match test(outer, c, at, Order::AtBar(choice), r)? {
            Next::Emits | Next::Joins => return Err(SyntaxFault::BadDirective(at as usize)),
            Next::Asks(choice) => return Ok(choice),
            Next::Bars(more) => choice = more,
        }
    }
}

/// A test or a pattern, with the byte after it.
#[inline(always)]
#[cycle(list)]
fn test(
    outer: Option<u32>,
    c: ListContext,
    at: u32,
    order: Order,
    r: &mut Reader<'_>,
) -> Result<Next, SyntaxFault>
    requires { 1 ≤ c.levels }
    ensures { Gives SyntaxFault.Memory (λ next. (next, seen r.new)) result
        (tried_given outer at (order_seen order) (alternative_of order) (seen r.old)
        (descent.one_test (around c.levels).1 (context_seen c) at (order_seen order)
        r.old.rest)) }
{
    let begun = begin(outer, at, r)?;
    let test = Test { order, begun };
    if begun.byte != b'%' {
        return plain_test(outer, at, test, r);
    }
    if c.levels == 1 {
        return Err(SyntaxFault::TooNested(r.rest.at() as usize));
    }
    let choice = result(outer, c, at, test, r)?;
    r.rest.skip_white();
    let Some(b) = r.rest.first() else {
        return Err(unclosed_fault(outer, at));
    };
    r.rest.take(1);
    let judged = judge_result(at, choice, b)?;
    Ok(judged)
}

/// A test of a function's result, from its percent sign on.
#[cycle(list)]
fn result(
    outer: Option<u32>,
    c: ListContext,
    at: u32,
    test: Test,
    r: &mut Reader<'_>,
) -> Result<Choice, SyntaxFault>
    requires levels { 2 ≤ c.levels }
    requires percent { begins r.old.rest.bytes ≡ true }
    ensures { Gives SyntaxFault.Memory (λ choice. (choice, seen r.new)) result
        (result_given outer (alternative_of test.order) test.begun.start test.begun.negated (seen r.old)
        (descent.result (around c.levels).1 (context_seen c) at r.old.rest.at (after 1 r.old.rest))) }
{
    let percent = r.rest.at();
    r.rest.take(1);
    let Some(b) = r.rest.first() else {
        return Err(unclosed_fault(outer, at));
    };
    if b != b':' {
        return Err(SyntaxFault::BadDirective(percent as usize));
    }
    r.rest.take(1);
    let outer = outermost(outer, at);
    let name = function(outer, percent, r)?;
    let choice = open_alternative(alternative_of(test.order), test.begun.start, r)?;
    let naming = Naming {
        starred: false,
        negated: test.begun.negated,
        asks: TestKind::Result,
    };
    let part = open(TokenKind::Test, test.begun.start, name, naming, r)?;
    items(outer, in_arguments(in_braces(c)), r)?;
    r.rest.take(1);
    close(TokenKind::Test, part, r);
    Ok(Choice {
        starred: false,
        ..choice
    })
}
