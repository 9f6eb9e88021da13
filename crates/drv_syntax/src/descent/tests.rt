//! The tests of alternatives, up to the byte after each.

ghost use Rattle.drv_syntax.specs.Code.Tests.{after_given, alternative_of, asked_on, begun_given};
ghost use Rattle.drv_syntax.specs.Code.Tests.{emitted_label, mark_form, marked_as, naming_of};
ghost use Rattle.drv_syntax.specs.Code.Tests.{operand_seen, order_seen};
ghost use Rattle.drv_syntax.specs.Code.Tests.{pattern_ends, result_after, test_ends, test_of};
ghost use Rattle.drv_syntax.specs.Code.Tests.{tried_given, tried_seen};
ghost use Rattle.drv_syntax.specs.Code.Writing.{leaf_until, seen, spelled, value_given};
ghost use Rattle.drv_syntax.specs.Rest.{first_of};
ghost use Rattle.drv_syntax.specs.Contexts.{top};
ghost use Rattle.drv_syntax.specs.Descent as descent;
ghost use Rattle.drv_syntax.specs.Refusals.{may_emit};
ghost use Rattle.drv_syntax.specs.Spelling.{span};
ghost use Rattle.drv_words.specs.Gives.{Gives};
ghost use Rattle.std.specs.Prelude.{◌≡◌, ◌==◌, ◌++◌, ◌∷◌, [], false, Ok, Some};

use crate::descent::bytes::{is_mark, is_white};
use crate::descent::parts::{Choice, open_alternative};
use crate::descent::patterns::pattern;
use crate::descent::reader::{Extent, Reader, Spelled, is_none, part_of_word, unclosed_fault};
use crate::descent::words::{Class, word_run};
use crate::fault::SyntaxFault;
use crate::labels::{Labels, Naming, WORD_ALONE};
use crate::token::{TestKind, TokenKind};

/// Where the tests of an alternative are in their braces.
#[derive(Clone, Copy)]
pub enum Opening {
    /// At their front: they can be patterns.
    AtFront,
    /// At the front of a later alternative.
    AtNext,
}

/// Where a test is in its braces.
#[derive(Clone, Copy)]
pub enum Order {
    /// The first one of an alternative.
    First(Opening),
    /// After a bar, in this alternative.
    AtBar(Choice),
}

/// What a test asks, beside its word.
#[derive(Clone, Copy)]
pub enum Asked {
    /// A switch, by a word and a star or none.
    Switch { starred: bool },
    /// A suffix or a language, by a `.` or `,` and a word.
    Marked { mark: u8 },
    /// A `.` or `,`, a word or none, and a star.
    StarredMark { mark: u8 },
    /// A `.` or `,` alone.
    Bare { mark: u8 },
}

/// A test or a pattern that was read.
#[derive(Clone, Copy)]
pub struct Operand<'a> {
    /// Its word.
    pub word: Spelled<'a>,
    /// What it asks.
    pub asked: Asked,
}

/// The front of a test.
#[derive(Clone, Copy)]
pub struct Begun {
    /// Where it begins.
    pub start: u32,
    /// It has a `!`.
    pub negated: bool,
    /// Its first byte after that.
    pub byte: u8,
}

/// A test of which the front was read.
#[derive(Clone, Copy)]
pub struct Test {
    /// Where it is in its braces.
    pub order: Order,
    /// Its front.
    pub begun: Begun,
}

/// A test that was read, without the byte after it.
#[derive(Clone, Copy)]
pub struct Tested<'a> {
    /// Where it is, and its front.
    pub test: Test,
    /// What was read after that.
    pub operand: Operand<'a>,
    /// Where it ends.
    pub end: u32,
}

/// What a test and the byte after it make of the braces.
#[derive(Clone, Copy)]
pub enum Next {
    /// They hold this pattern alone.
    Emits,
    /// They hold this pattern and others.
    Joins,
    /// The X of this alternative comes next.
    Asks(Choice),
    /// Another test of this alternative comes next.
    Bars(Choice),
}

/// At this test, the braces can still be patterns.
#[inline(always)]
fn emits(test: Test) -> bool
    ensures { result ≡ may_emit (order_seen test.order) test.begun.negated }
{
    matches!(test.order, Order::First(Opening::AtFront)) && !test.begun.negated
}

/// The alternative that is open at a test there, if one is.
#[inline(always)]
pub fn alternative_of(order: Order) -> Option<Choice>
    ensures { result ≡ alternative_of order }
{
    match order {
        Order::AtBar(choice) => Some(choice),
        Order::First(_) => None,
    }
}

/// What a test can be that begins with a mark.
#[derive(Clone, Copy)]
pub enum MarkForm {
    /// A word.
    Word,
    /// A word or none, and a star.
    Star,
    /// Nothing.
    Bare,
}

/// What comes after the mark of a test, by the word that was read there and the byte after it.
#[inline(always)]
fn mark_form(
    outer: Option<u32>,
    at: u32,
    test: Test,
    word: Spelled<'_>,
    r: &Reader<'_>,
) -> Result<MarkForm, SyntaxFault>
    ensures { result ≡ mark_form outer at (may_emit (order_seen test.order) test.begun.negated)
        (descent.is_empty (spelled word.entry r.now.word.items)) (first_of r.now.rest.bytes) }
{
    let none = is_none(word, &r.word);
    let Some(b) = r.rest.first() else {
        if none {
            return Err(unclosed_fault(outer, at));
        }
        return Ok(MarkForm::Word);
    };
    let emits = emits(test);
    if b == b'*' {
        if emits {
            return Ok(MarkForm::Star);
        }
        if none {
            return Err(SyntaxFault::EmptyTest(at as usize));
        }
        return Err(SyntaxFault::BadDirective(at as usize));
    }
    if !none {
        return Ok(MarkForm::Word);
    }
    if emits && (b == b'}' || b == b'&' || is_white(b)) {
        return Ok(MarkForm::Bare);
    }
    Err(SyntaxFault::EmptyTest(at as usize))
}

/// What a test asks in this form.
#[inline(always)]
fn mark_question(form: MarkForm, mark: u8) -> Asked
    ensures { result ≡ marked_as form mark }
{
    match form {
        MarkForm::Word => Asked::Marked { mark },
        MarkForm::Star => Asked::StarredMark { mark },
        MarkForm::Bare => Asked::Bare { mark },
    }
}

/// What a test asks that begins with a mark, after it.
#[inline(always)]
fn mark_operand<'a>(
    outer: Option<u32>,
    at: u32,
    test: Test,
    r: &mut Reader<'a>,
) -> Result<Operand<'a>, SyntaxFault>
    ensures { Gives SyntaxFault.Memory
        (λ o. (operand_seen o r.new.word.items, seen r.new)) result
        (value_given outer (seen r.old) (descent.mark_text at
        (may_emit (order_seen test.order) test.begun.negated) test.begun.byte r.old.rest)) }
{
    let Some(word) = word_run(Class::Word, r)? else {
        return Err(unclosed_fault(outer, at));
    };
    let form = mark_form(outer, at, test, word, r)?;
    r.rest.take_if(b'*');
    Ok(Operand {
        word,
        asked: mark_question(form, test.begun.byte),
    })
}

/// What a test asks that doesn't ask for a function's result, or a pattern.
#[inline(always)]
fn plain_operand<'a>(
    outer: Option<u32>,
    at: u32,
    test: Test,
    r: &mut Reader<'a>,
) -> Result<Operand<'a>, SyntaxFault>
    requires byte { first_of r.old.rest.bytes ≡ Some test.begun.byte }
    requires other { (test.begun.byte == 37) ≡ false }
    ensures { Gives SyntaxFault.Memory
        (λ o. (operand_seen o r.new.word.items, seen r.new)) result
        (value_given outer (seen r.old) (descent.asked descent.no_lists top at
        (may_emit (order_seen test.order) test.begun.negated) r.old.rest)) }
{
    if is_mark(test.begun.byte) {
        r.rest.take(1);
        return mark_operand(outer, at, test, r);
    }
    let p = pattern(outer, at, r)?;
    Ok(Operand {
        word: p.word,
        asked: Asked::Switch { starred: p.star },
    })
}

/// The label of a pattern that names this word.
#[inline(always)]
fn label_pattern(asked: Asked, word: &[u8], labels: &mut Labels) -> Result<(), SyntaxFault>
    ensures { Gives SyntaxFault.Memory (λ _. labels.new) result
        (Ok (labels.old ++ emitted_label asked word.now ∷ [])) }
{
    let starred_word = Naming {
        starred: true,
        negated: false,
        asks: TestKind::Switch,
    };
    match asked {
        Asked::Switch { starred: true } => labels.push(word, starred_word),
        Asked::Switch { starred: false } => labels.push(word, WORD_ALONE),
        Asked::Marked { mark } => labels.push_marked(mark, word, WORD_ALONE),
        Asked::StarredMark { mark } => labels.push_marked(mark, word, starred_word),
        Asked::Bare { mark } => labels.push_byte(mark),
    }
}

/// The pattern that was read.
#[inline(always)]
fn write_pattern(tested: Tested<'_>, r: &mut Reader<'_>) -> Result<(), SyntaxFault>
    ensures { Gives SyntaxFault.Memory (λ _. seen r.new) result (Ok (leaf_until
        TokenKind.Pattern (emitted_label tested.entry.operand.asked
        (spelled tested.entry.operand.word r.old.word.items)) tested.entry.test.begun.start
        tested.entry.end (seen r.old))) }
{
    let o = tested.operand;
    r.tokens
        .push(TokenKind::Pattern, tested.test.begun.start, tested.end)?;
    match o.word {
        Spelled::Lent(bytes) => label_pattern(o.asked, bytes, &mut r.labels),
        Spelled::Copied => label_pattern(o.asked, &r.word, &mut r.labels),
    }
}

/// What is said of the word of a test with this front.
#[inline(always)]
fn naming_of(asked: Asked, begun: Begun) -> Naming
    ensures { result ≡ naming_of asked begun.negated }
{
    let (starred, asks) = match asked {
        Asked::Switch { starred } => (starred, TestKind::Switch),
        Asked::Marked { mark } | Asked::StarredMark { mark } | Asked::Bare { mark } => if mark
            == b'.'
        {
            (false, TestKind::Suffix)
        } else {
            (false, TestKind::Language)
        },
    };
    let negated = begun.negated;
    Naming {
        starred,
        negated,
        asks,
    }
}

/// The test that was read, in its alternative.
#[inline(always)]
fn write_test(tested: Tested<'_>, r: &mut Reader<'_>) -> Result<Choice, SyntaxFault>
    ensures { Gives SyntaxFault.Memory (λ choice. (choice, seen r.new)) result
        (Ok (asked_on (alternative_of tested.entry.test.order) (seen r.old)
        (span tested.entry.test.begun.start tested.entry.end) tested.entry.test.begun.negated
        (test_of tested.entry.operand.asked
        (spelled tested.entry.operand.word r.old.word.items)))) }
{
    let begun = tested.test.begun;
    let o = tested.operand;
    let choice = open_alternative(alternative_of(tested.test.order), begun.start, r)?;
    let naming = naming_of(o.asked, begun);
    let extent = Extent {
        start: begun.start,
        end: tested.end,
    };
    part_of_word(TokenKind::Test, extent, o.word, naming, r)?;
    Ok(Choice {
        starred: choice.starred && naming.starred && !naming.negated,
        ..choice
    })
}

/// The braces hold this pattern.
#[inline(always)]
fn emit_pattern(at: u32, tested: Tested<'_>, r: &mut Reader<'_>) -> Result<(), SyntaxFault>
    ensures { Gives SyntaxFault.Memory (λ _. seen r.new) result (pattern_ends at
        (may_emit (order_seen tested.entry.test.order) tested.entry.test.begun.negated)
        (emitted_label tested.entry.operand.asked
        (spelled tested.entry.operand.word r.old.word.items)) tested.entry.test.begun.start
        tested.entry.end (seen r.old)) }
{
    if !emits(tested.test) {
        return Err(SyntaxFault::BadDirective(at as usize));
    }
    write_pattern(tested, r)
}

/// The alternative has this test.
#[inline(always)]
fn alternative_with_test(
    at: u32,
    tested: Tested<'_>,
    r: &mut Reader<'_>,
) -> Result<Choice, SyntaxFault>
    ensures { Gives SyntaxFault.Memory (λ choice. (choice, seen r.new)) result
        (test_ends at (alternative_of tested.entry.test.order) tested.entry.test.begun.start
        tested.entry.end tested.entry.test.begun.negated tested.entry.operand.asked
        (spelled tested.entry.operand.word r.old.word.items) (seen r.old)) }
{
    match tested.operand.asked {
        Asked::Bare { .. } => return Err(SyntaxFault::EmptyTest(at as usize)),
        Asked::StarredMark { .. } => return Err(SyntaxFault::BadDirective(at as usize)),
        Asked::Switch { .. } | Asked::Marked { .. } => {}
    }
    write_test(tested, r)
}

/// What the byte after a test makes of it, with that byte.
#[inline(always)]
fn judge(at: u32, tested: Tested<'_>, b: u8, r: &mut Reader<'_>) -> Result<Next, SyntaxFault>
    requires { first_of r.old.rest.bytes ≡ Some b }
    ensures { Gives SyntaxFault.Memory (λ next. (next, seen r.new)) result
        (after_given (alternative_of tested.entry.test.order) (seen r.old)
        (descent.decided at (order_seen tested.entry.test.order)
        (tried_seen tested.entry.test.begun.start tested.entry.end
        tested.entry.test.begun.negated
        (operand_seen tested.entry.operand r.old.word.items) b))) }
{
    r.rest.take(1);
    match b {
        b'}' => {
            emit_pattern(at, tested, r)?;
            Ok(Next::Emits)
        }
        b'&' => {
            emit_pattern(at, tested, r)?;
            Ok(Next::Joins)
        }
        b':' => Ok(Next::Asks(alternative_with_test(at, tested, r)?)),
        b'|' => Ok(Next::Bars(alternative_with_test(at, tested, r)?)),
        _ => Err(SyntaxFault::BadDirective(at as usize)),
    }
}

/// The front of a test: white space, and a `!` and white space or nothing.
#[inline(always)]
pub fn begin(outer: Option<u32>, at: u32, r: &mut Reader<'_>) -> Result<Begun, SyntaxFault>
    ensures { Gives SyntaxFault.Memory (λ begun. (begun, seen r.new)) result
        (begun_given outer at (seen r.old)) }
{
    r.rest.skip_white();
    let start = r.rest.at();
    let Some(byte) = r.rest.first() else {
        return Err(unclosed_fault(outer, at));
    };
    if byte != b'!' {
        return Ok(Begun {
            start,
            negated: false,
            byte,
        });
    }
    r.rest.take(1);
    r.rest.skip_white();
    let Some(byte) = r.rest.first() else {
        return Err(unclosed_fault(outer, at));
    };
    Ok(Begun {
        start,
        negated: true,
        byte,
    })
}

/// A test that doesn't ask for a function's result, or a pattern, after its front.
#[inline(always)]
pub fn plain_test(
    outer: Option<u32>,
    at: u32,
    test: Test,
    r: &mut Reader<'_>,
) -> Result<Next, SyntaxFault>
    requires byte { first_of r.old.rest.bytes ≡ Some test.begun.byte }
    requires other { (test.begun.byte == 37) ≡ false }
    ensures { Gives SyntaxFault.Memory (λ next. (next, seen r.new)) result
        (tried_given outer at (order_seen test.order) (alternative_of test.order) (seen r.old)
        (descent.asked_from descent.no_lists top at (order_seen test.order) test.begun.start
        test.begun.negated r.old.rest)) }
{
    let operand = plain_operand(outer, at, test, r)?;
    let end = r.rest.at();
    r.rest.skip_white();
    let Some(b) = r.rest.first() else {
        return Err(unclosed_fault(outer, at));
    };
    let tested = Tested { test, operand, end };
    judge(at, tested, b, r)
}

/// What the byte after a test of a function's result makes of it.
pub fn judge_result(at: u32, choice: Choice, b: u8) -> Result<Next, SyntaxFault>
    ensures { result ≡ result_after at choice b }
{
    match b {
        b':' => Ok(Next::Asks(choice)),
        b'|' => Ok(Next::Bars(choice)),
        _ => Err(SyntaxFault::BadDirective(at as usize)),
    }
}
