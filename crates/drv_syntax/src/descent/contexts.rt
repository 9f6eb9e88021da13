//! The places of lists of items, and of the lists in them.

ghost use Rattle.drv_syntax.specs.Code.Lists.{context_seen, owner_when};
ghost use Rattle.drv_syntax.specs.Code.Writing.{open_at};
ghost use Rattle.drv_syntax.specs.Contexts as contexts;
ghost use Rattle.std.specs.Prelude.{◌≡◌, Some};

use crate::descent::parts::Choice;

/// What a list of items is.
#[derive(Clone, Copy)]
pub enum ListKind {
    /// A whole text.
    Top,
    /// The X of an alternative.
    InX,
    /// A function's arguments.
    InArguments,
}

/// What `%*` finds around it.
#[derive(Clone, Copy)]
pub enum StarOwner {
    /// No X.
    Nobody,
    /// An X without tests, or with one that is no starred pattern.
    Mixed,
    /// An X whose tests are starred patterns without `!`.
    Starred,
}

/// The place of a list of items.
#[derive(Clone, Copy)]
pub struct ListContext {
    /// What it is.
    pub kind: ListKind,
    /// In arguments at any depth.
    pub in_arguments: bool,
    /// What `%*` finds.
    pub owner: StarOwner,
    /// So many more braces and arguments may be within one another.
    pub levels: u8,
}

/// To the left of a colon in braces in a list with this context.
#[inline(always)]
pub fn in_braces(c: ListContext) -> ListContext
    ensures { context_seen result ≡ contexts.in_braces (context_seen c) }
{
    ListContext {
        levels: c.levels.saturating_sub(1),
        ..c
    }
}

/// In the arguments of a function in a list with this context.
#[inline(always)]
pub fn in_arguments(c: ListContext) -> ListContext
    ensures { context_seen result ≡ contexts.in_arguments (context_seen c) }
{
    ListContext {
        kind: ListKind::InArguments,
        in_arguments: true,
        levels: c.levels.saturating_sub(1),
        ..c
    }
}

/// In the X of this alternative, in braces in a list with this context.
#[inline(always)]
pub fn in_x(c: ListContext, choice: Choice) -> ListContext
    ensures { context_seen result
        ≡ owner_when choice.starred (contexts.in_braces (context_seen c)) }
{
    ListContext {
        kind: ListKind::InX,
        owner: if choice.starred {
            StarOwner::Starred
        } else {
            StarOwner::Mixed
        },
        levels: c.levels.saturating_sub(1),
        ..c
    }
}

/// The outermost directive that is open in one that begins here.
#[inline(always)]
pub fn outermost(outer: Option<u32>, at: u32) -> Option<u32>
    ensures { result ≡ Some (open_at outer at) }
{
    match outer {
        Some(outer) => Some(outer),
        None => Some(at),
    }
}
