//! Named texts and suffix pairs, as the directives of a file change them.

ghost use Rattle.drv_specs.specs.Code.Keyed.{texts_left};
ghost use Rattle.drv_specs.specs.Sets.{appended_text, deleted, no_specs, text_of, with_named};
ghost use Rattle.drv_specs.specs.Sets.{with_pair, worked_text};
ghost use Rattle.drv_syntax.specs.Outcome.{parsed};
ghost use Rattle.drv_syntax.specs.Parsed.{tree_of};
ghost use Rattle.drv_syntax.specs.declared.fault.SyntaxFault.TheVariants as syntax;
ghost use Rattle.drv_words.specs.Gives.{Gives};
ghost use Rattle.std.specs.Cmp.Lexicographic.{pointwise};
ghost use Rattle.std.specs.Map.{set_key};
ghost use Rattle.std.specs.Option.{option_map};
ghost use Rattle.std.specs.Prelude.{◌≡◌, IfOk, None, OnErr, OnOk, is_some, nat_eq, option_and_then};
ghost use Rattle.std.specs.Prelude.{slice_get, true};

use crate::bytes::without_white;
use crate::named_texts::NamedTexts;
use crate::text::{Text, join, longer_tree};
use drv_syntax::{SpecTree, SyntaxFault, parse};
use drv_words::{Listing, Word};
use indexmap::IndexMap;
use std::alloc::{AllocError, Global};
use std::marker::Model;

/// Named texts in order, and suffix pairs in order with the tree of each text that is run.
/// Contracts see the two lists.
#[derive(Drop)]
pub(crate) struct Entries {
    alloc: Global,
    named: NamedTexts,
    pairs: Listing<(Word, Word)>,
    trees: Vec<Option<Text>>,
    /// The tree that the text of the last addition had before it.
    older: Option<SpecTree>,
}

impl Model for Entries {
    ghost use Rattle.drv_specs.specs.Sets.{Set, worked_text};
    ghost use Rattle.std.specs.Prelude.{◌≡◌, map};

    ghost Value = { Set };

    ghost view = { λ e. record { named = e.named; pairs = e.pairs } };

    ghost invariant = { λ e. e.trees.items ≡ map worked_text e.pairs };
}

/// Copies of pairs.
fn copied_pairs(alloc: Global, pairs: &[(Word, Word)]) -> Result<Listing<(Word, Word)>, AllocError>
    ensures { IfOk result (λ copies. copies ≡ pairs.now) }
{
    let mut copies = Listing::from_vec(Vec::with_capacity(alloc, pairs.len())?);
    for (key, text) in pairs {
        copies.push((key.clone()?, text.clone()?))?;
    }
    Ok(copies)
}

/// A copy of a text, if there is one.
fn copied_text(text: &Option<Text>) -> Result<Option<Text>, AllocError>
    ensures { IfOk result (λ copy. copy ≡ text.now) }
{
    match text {
        Some(text) => Ok(Some(text.clone()?)),
        None => Ok(None),
    }
}

/// Copies of texts.
fn copied_texts(alloc: Global, texts: &[Option<Text>]) -> Result<Vec<Option<Text>>, AllocError>
    ensures { IfOk result (λ copies. copies.items ≡ texts.now) }
{
    let mut copies = Vec::with_capacity(alloc, texts.len())?;
    for text in texts {
        copies.push(copied_text(text)?)?;
    }
    Ok(copies)
}

impl Entries {
    /// None, without an allocation.
    pub(crate) fn empty(alloc: Global) -> Entries
        ensures { result ≡ no_specs }
    {
        Entries {
            alloc,
            named: NamedTexts::new(alloc),
            pairs: Listing::new(alloc),
            trees: Vec::new(alloc),
            older: None,
        }
    }

    /// No entries, with room for these numbers of texts and pairs.
    pub(crate) fn with_capacity(
        alloc: Global,
        texts: usize,
        pairs: usize,
    ) -> Result<Entries, AllocError>
        ensures { IfOk result (λ entries. entries ≡ no_specs) }
    {
        Ok(Entries {
            alloc,
            named: NamedTexts::with_capacity(alloc, texts)?,
            pairs: Listing::from_vec(Vec::with_capacity(alloc, pairs)?),
            trees: Vec::with_capacity(alloc, pairs)?,
            older: None,
        })
    }

    /// The allocator.
    pub(crate) fn alloc(&self) -> Global {
        self.alloc
    }

    /// A word of these bytes.
    pub(crate) fn word(&self, bytes: &[u8]) -> Result<Word, AllocError>
        ensures { IfOk result (λ word. word ≡ bytes.now) }
    {
        Word::from_bytes(self.alloc, bytes)
    }

    /// The named texts.
    pub(crate) fn named_texts(&self) -> &IndexMap<Vec<u8>, Option<Text>>
        ensures { texts_left result.now.entries ≡ self.now.named }
    {
        self.named.entries()
    }

    /// The suffix pairs.
    pub(crate) fn pairs(&self) -> &[(Word, Word)]
        ensures { result.now ≡ self.now.pairs }
    {
        self.pairs.as_slice()
    }

    /// The text of a name.
    #[inline(always)]
    pub(crate) fn text(&self, name: &[u8]) -> Option<&Text>
        ensures { option_map (λ text. text.now) result ≡ text_of self.now name.now }
    {
        self.named.get(name)
    }

    /// Whether a text has this name.
    pub(crate) fn has(&self, name: &[u8]) -> bool
        ensures { result ≡ is_some (text_of self.now name.now) }
    {
        self.named.get(name).is_some()
    }

    /// The text of the pair at a place, where it is run.
    pub(crate) fn worked_text(&self, place: usize) -> Option<&Text>
        ensures { option_map (λ text. text.now) result
            ≡ option_and_then worked_text (slice_get self.now.pairs place) }
    {
        match self.trees.get(place) {
            Some(Some(text)) => Some(text),
            _ => None,
        }
    }

    /// Puts a text under a name: a name that is there keeps its place, a new one goes last. Returns
    /// the text that the name had before. After an error a name that has a text still has it.
    pub(crate) fn insert(&mut self, name: &[u8], text: Text) -> Result<Option<Text>, AllocError>
        ensures put { OnOk result (self.new ≡ with_named self.old name.now text) }
        ensures kept { OnErr result
            (is_some (text_of self.old name.now) ≡ true → self.new ≡ self.old) }
    {
        self.named.insert(name, text)
    }

    /// The tree of the text of a name with more after it, or the one of an addition to no text.
    pub(crate) fn added_tree(
        &mut self,
        name: &[u8],
        addition: &[u8],
    ) -> Result<SpecTree, SyntaxFault>
        ensures tree { Gives syntax.Memory tree_of result
            (parsed (appended_text (text_of self.old name.now) addition.now)) }
        ensures text { IfOk result (λ tree. tree
            ≡ appended_text (text_of self.old name.now) addition.now) }
        ensures kept { self.new ≡ self.old }
    {
        let older = self.older.take();
        match self.named.get(name) {
            Some(text) => longer_tree(self.alloc, older, text.tree().text(), addition),
            None => {
                let text = join(self.alloc, b" ", without_white(addition))?;
                parse(self.alloc, text.as_bytes())
            }
        }
    }

    /// Keeps the tree of a text that was added to, so that the next addition needn't read it again.
    pub(crate) fn keep_older(&mut self, text: Option<Text>)
        ensures { self.new ≡ self.old }
    {
        self.older = match text {
            Some(text) => text.into_tree(),
            None => None,
        };
    }

    /// Takes a name away, if it is there.
    pub(crate) fn remove(&mut self, name: &[u8])
        ensures { self.new ≡ deleted self.old name.now }
    {
        self.named.remove(name);
    }

    /// Adds a pair at the end, with its text where that is run. After an error none is added.
    pub(crate) fn push_pair(
        &mut self,
        key: &[u8],
        text: &[u8],
        tree: Option<Text>,
    ) -> Result<(), AllocError>
        requires { tree ≡ worked_text (key.now, text.now) }
        ensures added { OnOk result (self.new ≡ with_pair self.old key.now text.now) }
        ensures kept { OnErr result (self.new ≡ self.old) }
    {
        let key = self.word(key)?;
        let text = self.word(text)?;
        self.trees.reserve(1)?;
        self.pairs.push((key, text))?;
        self.trees.push_reserved(tree);
        Ok(())
    }

    /// A copy, which shares the trees.
    pub(crate) fn try_clone(&self) -> Result<Entries, AllocError>
        ensures { IfOk result (λ copy. copy ≡ self.now) }
    {
        Ok(Entries {
            alloc: self.alloc,
            named: self.named.try_clone()?,
            pairs: copied_pairs(self.alloc, self.pairs.as_slice())?,
            trees: copied_texts(self.alloc, self.trees.as_slice())?,
            older: None,
        })
    }

    /// Gives a text a new name, in its place: under the new name it goes last, and from there to
    /// the place of the old one.
    pub(crate) fn rename(&mut self, old: &[u8], new: &[u8]) -> Result<(), AllocError>
        requires { text_of self.old new.now ≡ None }
        ensures { OnOk result (self.new ≡ record self.old {
          named = set_key (pointwise nat_eq old.now) self.old.named new.now;
        }) }
    {
        self.named.rename(old, new)
    }
}
