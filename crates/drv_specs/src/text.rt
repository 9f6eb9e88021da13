//! A text that has a tree.

// In clauses: `parsed` is the tree of a text, or its fault. `Gives` says that a result is the
// defined one, or lack of memory.
ghost use Rattle.drv_syntax.specs.Outcome.{parsed};
ghost use Rattle.drv_syntax.specs.Parsed.{tree_of};
ghost use Rattle.drv_syntax.specs.declared.fault.SyntaxFault.TheVariants as syntax;
ghost use Rattle.drv_words.specs.Gives.{Gives};
ghost use Rattle.std.specs.Prelude.{◌≡◌, ◌++◌, IfOk};

use crate::bytes::following;
use drv_syntax::{SpecTree, SyntaxFault, parse};
use drv_words::Word;
use std::alloc::{AllocError, Global};
use std::marker::Model;
use std::rc::Rc;

/// A text and another after it.
pub(crate) fn join(alloc: Global, front: &[u8], back: &[u8]) -> Result<Word, AllocError>
    ensures { IfOk result (λ text. text ≡ front.now ++ back.now) }
{
    let mut text = Word::from_bytes(alloc, front)?;
    text.extend_from_slice(back)?;
    Ok(text)
}

/// The tree of a text with more after it. An older tree is read on, if its text begins this one.
pub(crate) fn longer_tree(
    alloc: Global,
    older: Option<SpecTree>,
    text: &[u8],
    more: &[u8],
) -> Result<SpecTree, SyntaxFault>
    ensures tree { Gives syntax.Memory tree_of result (parsed (text.now ++ more.now)) }
    ensures text { IfOk result (λ tree. tree ≡ text.now ++ more.now) }
{
    if let Some(tree) = older {
        if text.starts_with(tree.text()) {
            let added = join(alloc, following(text, tree.text().len()), more)?;
            return tree.extend(alloc, added.as_bytes());
        }
    }
    let whole = join(alloc, text, more)?;
    parse(alloc, whole.as_bytes())
}

/// A text that has a tree. Its copies share the tree.
#[derive(Drop)]
pub(crate) struct Text {
    shared: Rc<SpecTree>,
}

impl Model for Text {
    ghost use Rattle.std.specs.Prelude.{List, ℕ};

    ghost Value = { List ℕ };

    ghost view = { λ t. t.shared.value };
}

impl Clone for Text {
    ghost is_clone = { λ text copy. copy ≡ text };

    fn clone(&self) -> Result<Text, AllocError> {
        Ok(Text {
            shared: self.shared.clone()?,
        })
    }
}

impl Text {
    /// The text of a tree.
    pub(crate) fn new(alloc: Global, tree: SpecTree) -> Result<Text, AllocError>
        ensures { IfOk result (λ text. text ≡ tree) }
    {
        Ok(Text {
            shared: Rc::new(alloc, tree)?,
        })
    }

    /// The tree, unless other texts share it.
    pub(crate) fn into_tree(self) -> Option<SpecTree> {
        Rc::try_unwrap(self.shared).ok()
    }

    /// The tree.
    pub(crate) fn tree(&self) -> &SpecTree
        ensures { result.now ≡ self.now }
    {
        self.shared.as_ref()
    }
}
