//! A spec text that has a tree.

ghost use Rattle.drv_syntax.specs.Code.Messages.{IsOpen, Says};
ghost use Rattle.drv_syntax.specs.Code.Parts.{IsRead};
ghost use Rattle.drv_syntax.specs.Faults.{MemoryOrRefused};
ghost use Rattle.drv_syntax.specs.Labels.{label_at, labels_of};
ghost use Rattle.drv_syntax.specs.Outcome.{parsed};
ghost use Rattle.drv_syntax.specs.Parsed.{tree_of};
ghost use Rattle.drv_syntax.specs.PlainRuns.{AreBytes, IsByte};
ghost use Rattle.drv_syntax.specs.Spelling.{Spells};
ghost use Rattle.drv_syntax.specs.Tokens.{tokens_of};
ghost use Rattle.drv_words.specs.Gives.{Gives};
ghost use Rattle.std.specs.Prelude.{◌≡◌, ◌<◌, ◌≤◌, ◌+◌, ◌-◌, ◌++◌, [], IfErr, IfOk, length, ℕ};

use crate::descent::{
    TextParts, ending_in, is_open, read_more, read_nothing, read_text, say_on, says,
};
use crate::fault::SyntaxFault;
use crate::labels::Labels;
use crate::token::{TestKind, Token};
use std::alloc::Global;
use std::marker::Model;

/// The most bytes of a text.
const TEXT_LIMIT: usize = 1_048_576;

/// What is kept of a tree.
#[derive(Drop)]
enum Parts {
    /// What the text gave, as it was read.
    Read(TextParts),
    /// The same of a text that ends in a text for the user, which could go on.
    Said(TextParts),
}

/// A spec text that has a tree, the list of its parts and what they name. Clauses see the text; its
/// tree is `tree_of` it.
#[derive(Drop)]
pub struct SpecTree {
    text: Vec<u8>,
    parts: Parts,
}

impl Model for SpecTree {
    ghost use Rattle.drv_syntax.specs.Code.Parts.{IsKept};
    ghost use Rattle.std.specs.Prelude.{List, ℕ};

    ghost Value = { List ℕ };

    ghost view = { λ t. t.text.items };

    ghost invariant = { λ t. IsKept t.text.items t.parts };
}

impl SpecTree {
    /// The tree of a text without bytes. The call allocates nothing.
    pub fn empty(alloc: Global) -> SpecTree
        ensures { result ≡ [] }
    {
        SpecTree {
            text: Vec::new(alloc),
            parts: Parts::Read(read_nothing(alloc)),
        }
    }

    /// The text.
    pub fn text(&self) -> &[u8]
        ensures { result.now ≡ self.now }
    {
        self.text.as_slice()
    }

    /// Its items, alternatives, tests and patterns of braces, by their start, outer ones first.
    #[tactic(auto, using(crate::proofs::TreeLists::listed_tokens))]
    pub fn tokens(&self) -> &[Token]
        ensures { result.now ≡ tokens_of (tree_of self.now) }
    {
        match &self.parts {
            Parts::Read(read) | Parts::Said(read) => read.tokens.as_slice(),
        }
    }

    #[tactic(auto, using(crate::proofs::TreeLists::listed_labels))]
    fn labels(&self) -> &Labels
        ensures { result.now ≡ labels_of (tree_of self.now) }
    {
        match &self.parts {
            Parts::Read(read) | Parts::Said(read) => &read.labels,
        }
    }

    /// What the part at this place names, without escapes: a byte, a suffix, an option, a text, a
    /// name, or the word of a pattern or a test; empty for other parts.
    pub fn word(&self, place: usize) -> &[u8]
        requires { place < length (tokens_of (tree_of self.now)) }
        ensures { result.now ≡ (label_at (tree_of self.now) place).word }
    {
        self.labels().word(place)
    }

    /// The plain bytes that follow one another from this place on, up to another part or to this end,
    /// in one slice. It may end sooner; a plain byte that is first is in it.
    pub fn plain_bytes(&self, place: usize, end: usize) -> &[u8]
        ensures bytes { AreBytes (tokens_of (tree_of self.now)) (labels_of (tree_of self.now)) place
            result.now }
        ensures within { length result.now ≤ end - place }
        ensures begins { (b : ℕ) → place < end
            → IsByte (tokens_of (tree_of self.now)) (labels_of (tree_of self.now)) place b
            → 0 < length result.now }
    {
        self.labels().plain_bytes(self.tokens(), place, end)
    }

    /// Whether a star follows the word of the part at this place.
    pub fn is_starred(&self, place: usize) -> bool
        requires { place < length (tokens_of (tree_of self.now)) }
        ensures { result ≡ (label_at (tree_of self.now) place).starred }
    {
        self.labels().is_starred(place)
    }

    /// Whether a `!` precedes the test at this place.
    pub fn is_negated(&self, place: usize) -> bool
        requires { place < length (tokens_of (tree_of self.now)) }
        ensures { result ≡ (label_at (tree_of self.now) place).negated }
    {
        self.labels().is_negated(place)
    }

    /// What the test at this place asks.
    pub fn asks(&self, place: usize) -> TestKind
        requires { place < length (tokens_of (tree_of self.now)) }
        ensures { result ≡ (label_at (tree_of self.now) place).asks }
    {
        self.labels().asks(place)
    }

    /// Whether the X of the alternative at this place has a `%*` of its own, one outside the Xs of
    /// inner braces.
    pub fn holds_star(&self, place: usize) -> bool
        requires { place < length (tokens_of (tree_of self.now)) }
        ensures { result ≡ (label_at (tree_of self.now) place).holds_star }
    {
        self.labels().holds_star(place)
    }

    /// The tree of the text with more after it, or its first fault. What was read of the text isn't
    /// read again, unless its last bytes are a suffix, a hidden pattern or a text for the user. After
    /// the first two a blank suffices. After a text for the user that was read again once, bytes
    /// without a backslash and a newline do.
    #[tactic(auto, using(crate::proofs::Kept::parsed_long, crate::proofs::Kept::tree_more, crate::proofs::Kept::fault_more, crate::proofs::Kept::more_kept, crate::proofs::Kept::short_kept))]
    pub fn extend(self, alloc: Global, more: &[u8]) -> Result<SpecTree, SyntaxFault>
        ensures tree { Gives SyntaxFault.Memory tree_of result (parsed (self ++ more.now)) }
        ensures text { IfOk result (λ t. t ≡ self ++ more.now) }
        ensures spelled { IfOk result (λ t. Spells t (tree_of t)) }
        ensures refused { IfErr result (MemoryOrRefused (self ++ more.now)) }
    {
        let start = self.text().len();
        if more.len() > TEXT_LIMIT - start {
            return Err(SyntaxFault::TextTooLong);
        }
        let SpecTree { mut text, parts } = self;
        let old = match parts {
            Parts::Read(old) => old,
            Parts::Said(old) => {
                if says(more) {
                    return say_more(text, old, more);
                }
                return read_again(alloc, text, more);
            }
        };
        if !ending_in(start, old.tokens.as_slice()).goes_on(more) {
            return read_again(alloc, text, more);
        }
        text.extend_from_slice(more)?;
        let read = read_more(alloc, start as u32, more, old)?;
        Ok(SpecTree {
            text,
            parts: Parts::Read(read),
        })
    }
}

/// A tree, of which is kept whether its text ends in a text for the user that could go on.
fn mark_open(alloc: Global, tree: SpecTree) -> SpecTree
    ensures { result ≡ tree }
{
    let SpecTree { text, parts } = tree;
    let read = match parts {
        Parts::Read(read) => read,
        parts => return SpecTree { text, parts },
    };
    if is_open(alloc, text.as_slice(), read.tokens.as_slice()) {
        return SpecTree {
            text,
            parts: Parts::Said(read),
        };
    }
    SpecTree {
        text,
        parts: Parts::Read(read),
    }
}

/// The tree of a text with more after it, or its first fault, where all of it is read.
fn read_again(alloc: Global, text: Vec<u8>, more: &[u8]) -> Result<SpecTree, SyntaxFault>
    ensures tree { Gives SyntaxFault.Memory tree_of result (parsed (text.items ++ more.now)) }
    ensures text { IfOk result (λ t. t ≡ text.items ++ more.now) }
    ensures spelled { IfOk result (λ t. Spells t (tree_of t)) }
    ensures refused { IfErr result (MemoryOrRefused (text.items ++ more.now)) }
{
    let mut text = text;
    text.extend_from_slice(more)?;
    let tree = parse(alloc, text.as_slice())?;
    Ok(mark_open(alloc, tree))
}

/// The tree of a text with more after it, where the text ends in a text for the user that goes on with
/// these bytes.
fn say_more(text: Vec<u8>, old: TextParts, more: &[u8]) -> Result<SpecTree, SyntaxFault>
    requires kept { IsRead text.items old }
    requires open { IsOpen text.items }
    requires says { Says more.now }
    requires size { length text.items + length more.now ≤ 1048576 }
    ensures tree { Gives SyntaxFault.Memory tree_of result (parsed (text.items ++ more.now)) }
    ensures text { IfOk result (λ t. t ≡ text.items ++ more.now) }
    ensures spelled { IfOk result (λ t. Spells t (tree_of t)) }
    ensures refused { IfErr result (MemoryOrRefused (text.items ++ more.now)) }
{
    let mut text = text;
    text.extend_from_slice(more)?;
    let read = say_on(text.len() as u32, more, old)?;
    Ok(SpecTree {
        text,
        parts: Parts::Said(read),
    })
}

/// The tree of a text, or its first fault.
#[tactic(auto, using(crate::proofs::Kept::parsed_long, crate::proofs::Kept::tree_whole, crate::proofs::Kept::fault_whole, crate::proofs::Kept::whole_kept, crate::proofs::ParsedGrammar::long_refused, crate::proofs::Kept::whole_spelled, crate::proofs::Kept::whole_refused))]
pub fn parse(alloc: Global, text: &[u8]) -> Result<SpecTree, SyntaxFault>
    ensures tree { Gives SyntaxFault.Memory tree_of result (parsed text.now) }
    ensures text { IfOk result (λ t. t ≡ text.now) }
    ensures spelled { IfOk result (λ t. Spells t (tree_of t)) }
    ensures refused { IfErr result (MemoryOrRefused text.now) }
{
    if text.len() > TEXT_LIMIT {
        return Err(SyntaxFault::TextTooLong);
    }
    let read = read_text(alloc, text)?;
    let text = Vec::from_slice(alloc, text)?;
    Ok(SpecTree {
        text,
        parts: Parts::Read(read),
    })
}
