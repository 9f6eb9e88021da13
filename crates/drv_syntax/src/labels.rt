//! What the parts of a text name.

ghost use Rattle.drv_syntax.specs.Code.Messages.{lengthened, with_last};
ghost use Rattle.drv_syntax.specs.Labels.{no_label, part_label, star_label, word_label};
ghost use Rattle.drv_syntax.specs.Code.Marks.{byte_labels, byte_marks};
ghost use Rattle.drv_syntax.specs.PlainRuns.{AreBytes, IsByte};
ghost use Rattle.drv_syntax.specs.declared.token.TokenKind.TheVariants as kinds;
ghost use Rattle.std.specs.Prelude.{◌≡◌, ◌<◌, ◌≤◌, ◌+◌, ◌-◌, ◌^◌, ◌++◌, ◌∷◌, [], IfErr, IfOk, IsTrue, Ok, false};
ghost use Rattle.std.specs.Prelude.{drop, get_or, length, slice_set, take, vec_capacity, vec_len, ℕ};
ghost use Rattle.drv_words.specs.Gives.{Gives};

use crate::fault::SyntaxFault;
use crate::room::reserve_one;
use crate::token::{TestKind, Token, TokenKind};
use std::alloc::Global;
use std::marker::Model;

/// The place of a word among the words, and what is said of it.
#[derive(Clone, Copy)]
pub struct LabelMark {
    /// Where it begins.
    pub start: u32,
    /// Where it ends.
    pub end: u32,
    /// A star follows it.
    pub starred: bool,
    /// A `!` precedes it.
    pub negated: bool,
    /// What the test asks.
    pub asks: TestKind,
    /// The X of the alternative has a `%*` of its own.
    pub holds_star: bool,
}

/// What is said of the word that a part names.
#[derive(Clone, Copy)]
pub struct Naming {
    /// A star follows it.
    pub starred: bool,
    /// A `!` precedes it.
    pub negated: bool,
    /// What the test asks.
    pub asks: TestKind,
}

/// Nothing is said of the word.
pub const WORD_ALONE: Naming = Naming {
    starred: false,
    negated: false,
    asks: TestKind::Switch,
};

/// The labels of the parts of a text, in the order of their tokens.
#[derive(Drop)]
pub struct Labels {
    words: Vec<u8>,
    marks: Vec<LabelMark>,
}

impl Model for Labels {
    ghost use Rattle.drv_syntax.specs.Labels.{Label};
    ghost use Rattle.drv_syntax.specs.Marks.{Within, marked_labels};
    ghost use Rattle.std.specs.Prelude.{List, length};

    ghost Value = { List Label };

    ghost view = { λ l. marked_labels l.words.items l.marks.items };

    ghost invariant = { λ l. Within (length l.words.items) l.marks.items };
}

/// The room that the words of a text may have beyond them, in bytes.
const KEPT_ROOM: usize = 64;

/// A place among the words of a text. The words of a text have its bytes at most, so it is small.
#[inline(always)]
fn place_of(size: usize) -> Result<u32, SyntaxFault>
    ensures { Gives SyntaxFault.Memory (λ place. place) result (Ok size) }
{
    if size > u32::MAX as usize {
        return Err(SyntaxFault::Memory);
    }
    Ok(size as u32)
}

/// The place of the word of a mark, once it is the last of all words; if it isn't, it is copied.
fn last_start(mark: LabelMark, words: &mut Vec<u8>) -> Result<u32, SyntaxFault>
    requires order { mark.start ≤ mark.end }
    requires within { mark.end ≤ length words.old.items }
    ensures kept { words.new.items
        ≡ words.old.items ++ drop (length words.old.items) words.new.items }
    ensures place { IfOk result (λ start. start ≤ length words.new.items) }
    ensures word { IfOk result (λ start. drop start words.new.items
        ≡ take (mark.end - mark.start) (drop mark.start words.old.items)) }
    ensures fails { IfErr result (λ fault. fault ≡ SyntaxFault.Memory) }
{
    let end = words.len();
    if mark.end as usize == end {
        return Ok(mark.start);
    }
    words.extend_from_within(mark.start as usize..mark.end as usize)?;
    place_of(end)
}

/// The marks of bytes that follow one another from this place on.
fn push_marks(start: u32, run: &[u8], marks: &mut Vec<LabelMark>)
    requires place { start + length run.now < 2 ^ 32 }
    requires reserved { vec_len marks.old + length run.now ≤ vec_capacity marks.old }
    ensures { marks.new.items ≡ marks.old.items ++ byte_marks start run.now }
{
    let mut place = start;
    for _byte in run {
        marks.push_reserved(LabelMark {
            start: place,
            end: place + 1,
            starred: false,
            negated: false,
            asks: TestKind::Switch,
            holds_star: false,
        });
        place += 1;
    }
}

/// Whether a part is a plain byte, and its word is kept at this place.
fn is_byte_at(token: &Token, mark: &LabelMark, place: usize) -> bool
    requires { place + 1 < 2 ^ 64 }
    ensures kind { IsTrue result → token.now.kind ≡ kinds.Plain }
    ensures start { IsTrue result → mark.now.start ≡ place }
    ensures end { IsTrue result → mark.now.end ≡ place + 1 }
    ensures other { result ≡ false → token.now.kind ≡ kinds.Plain → mark.now.start ≡ place
        → mark.now.end ≡ place + 1 → ⊥ }
{
    matches!(token.kind, TokenKind::Plain)
        && mark.start as usize == place
        && mark.end as usize == place + 1
}

impl Labels {
    /// None yet, without an allocation.
    pub fn new(alloc: Global) -> Labels
        ensures { result ≡ [] }
    {
        Labels {
            words: Vec::new(alloc),
            marks: Vec::new(alloc),
        }
    }

    /// None yet, with room for so many, and for so many bytes of their words.
    pub fn with_capacity(alloc: Global, count: usize, bytes: usize) -> Result<Labels, SyntaxFault>
        ensures { Gives SyntaxFault.Memory (λ made. made) result (Ok []) }
    {
        Ok(Labels {
            words: Vec::with_capacity(alloc, bytes)?,
            marks: Vec::with_capacity(alloc, count)?,
        })
    }

    /// One more, which names this word.
    #[tactic(auto, using(crate::proofs::MarkedWords::within_more, crate::proofs::MarkedWords::within_push, crate::proofs::MarkedWords::labels_added))]
    #[inline(always)]
    pub fn push(&mut self, word: &[u8], naming: Naming) -> Result<(), SyntaxFault>
        ensures { Gives SyntaxFault.Memory (λ _. self.new) result (Ok (self.old
            ++ part_label word.now naming.starred naming.negated naming.asks ∷ [])) }
    {
        let start = place_of(self.words.len())?;
        self.words.extend_from_slice(word)?;
        let end = place_of(self.words.len())?;
        reserve_one(&mut self.marks)?;
        self.marks.push_reserved(LabelMark {
            start,
            end,
            starred: naming.starred,
            negated: naming.negated,
            asks: naming.asks,
            holds_star: false,
        });
        Ok(())
    }

    /// The word of the last one goes on with these bytes.
    #[tactic(auto, using(crate::proofs::MarkedWords::within_grown))]
    pub fn lengthen_last(&mut self, more: &[u8]) -> Result<(), SyntaxFault>
        ensures { Gives SyntaxFault.Memory (λ _. self.new) result
            (Ok (with_last (λ label. lengthened label more.now) self.old)) }
    {
        let count = self.marks.len();
        if count == 0 {
            return Ok(());
        }
        let mark = self.marks[count - 1];
        let start = last_start(mark, &mut self.words)?;
        self.words.extend_from_slice(more)?;
        let end = place_of(self.words.len())?;
        self.marks[count - 1] = LabelMark {
            start,
            end,
            starred: mark.starred,
            negated: mark.negated,
            asks: mark.asks,
            holds_star: mark.holds_star,
        };
        Ok(())
    }

    /// One more, which names this byte and this word after it.
    #[tactic(auto, using(crate::proofs::MarkedWords::within_more, crate::proofs::MarkedWords::within_push, crate::proofs::MarkedWords::labels_marked))]
    pub fn push_marked(&mut self, mark: u8, word: &[u8], naming: Naming) -> Result<(), SyntaxFault>
        ensures { Gives SyntaxFault.Memory (λ _. self.new) result (Ok (self.old
            ++ part_label (mark ∷ word.now) naming.starred naming.negated naming.asks ∷ [])) }
    {
        let start = place_of(self.words.len())?;
        self.words.push(mark)?;
        self.words.extend_from_slice(word)?;
        let end = place_of(self.words.len())?;
        reserve_one(&mut self.marks)?;
        self.marks.push_reserved(LabelMark {
            start,
            end,
            starred: naming.starred,
            negated: naming.negated,
            asks: naming.asks,
            holds_star: false,
        });
        Ok(())
    }

    /// One more, which names this byte.
    #[tactic(auto, using(crate::proofs::MarkedWords::within_more, crate::proofs::MarkedWords::within_push, crate::proofs::MarkedWords::labels_added))]
    pub fn push_byte(&mut self, b: u8) -> Result<(), SyntaxFault>
        ensures { Gives SyntaxFault.Memory (λ _. self.new) result
            (Ok (self.old ++ word_label (b ∷ []) ∷ [])) }
    {
        let start = place_of(self.words.len())?;
        self.words.push(b)?;
        let end = place_of(self.words.len())?;
        reserve_one(&mut self.marks)?;
        self.marks.push_reserved(LabelMark {
            start,
            end,
            starred: false,
            negated: false,
            asks: TestKind::Switch,
            holds_star: false,
        });
        Ok(())
    }

    /// One more for each of these bytes, which names it.
    #[tactic(auto, using(crate::proofs::MarkedWords::within_more, crate::proofs::MarkedWords::within_run, crate::proofs::MarkedWords::labels_run))]
    #[inline(always)]
    pub fn push_bytes(&mut self, run: &[u8]) -> Result<(), SyntaxFault>
        ensures { Gives SyntaxFault.Memory (λ _. self.new) result
            (Ok (self.old ++ byte_labels run.now)) }
    {
        self.marks.reserve(run.len())?;
        let start = place_of(self.words.len())?;
        self.words.extend_from_slice(run)?;
        let end = place_of(self.words.len())?;
        push_marks(start, run, &mut self.marks);
        Ok(())
    }

    /// One more, which names nothing.
    #[tactic(auto, using(crate::proofs::MarkedWords::within_push, crate::proofs::MarkedWords::labels_none))]
    #[inline(always)]
    pub fn push_none(&mut self) -> Result<(), SyntaxFault>
        ensures { Gives SyntaxFault.Memory (λ _. self.new) result (Ok (self.old ++ no_label ∷ [])) }
    {
        reserve_one(&mut self.marks)?;
        self.marks.push_reserved(LabelMark {
            start: 0,
            end: 0,
            starred: false,
            negated: false,
            asks: TestKind::Switch,
            holds_star: false,
        });
        Ok(())
    }

    /// The one at this place becomes that of an alternative, whose X has a `%*` of its own or has
    /// none.
    #[tactic(auto, using(crate::proofs::MarkedWords::within_set, crate::proofs::MarkedWords::labels_set))]
    pub fn hold(&mut self, place: usize, holds_star: bool)
        ensures { self.new ≡ slice_set self.old place (star_label holds_star) }
    {
        if place < self.marks.len() {
            self.marks[place] = LabelMark {
                start: 0,
                end: 0,
                starred: false,
                negated: false,
                asks: TestKind::Switch,
                holds_star,
            };
        }
    }

    /// Gives back the room that none of them takes, but for some bytes of the words: to give those back
    /// takes more time than they are worth.
    pub fn shrink(&mut self)
        ensures { self.new ≡ self.old }
    {
        if self.words.capacity().saturating_sub(self.words.len()) > KEPT_ROOM {
            self.words.shrink_to_fit();
        }
        self.marks.shrink_to_fit();
    }

    /// Only the first ones, so many.
    #[tactic(auto, using(crate::proofs::MarkedWords::within_take, crate::proofs::MarkedWords::labels_take))]
    pub fn truncate(&mut self, count: usize)
        ensures { self.new ≡ take count self.old }
    {
        self.marks.truncate(count);
    }

    /// How many there are.
    pub fn len(&self) -> usize
        ensures { result ≡ length self.now }
    {
        self.marks.len()
    }

    /// The word of the one at this place.
    pub fn word(&self, place: usize) -> &[u8]
        requires { place < length self.now }
        ensures { result.now ≡ (get_or self.now place no_label).word }
    {
        let (words, marks) = (self.words.as_slice(), self.marks.as_slice());
        let mark = marks[place];
        &words[mark.start as usize..mark.end as usize]
    }

    /// Whether a star follows its word.
    pub fn is_starred(&self, place: usize) -> bool
        requires { place < length self.now }
        ensures { result ≡ (get_or self.now place no_label).starred }
    {
        self.marks[place].starred
    }

    /// Whether a `!` precedes its word.
    pub fn is_negated(&self, place: usize) -> bool
        requires { place < length self.now }
        ensures { result ≡ (get_or self.now place no_label).negated }
    {
        self.marks[place].negated
    }

    /// What its test asks.
    pub fn asks(&self, place: usize) -> TestKind
        requires { place < length self.now }
        ensures { result ≡ (get_or self.now place no_label).asks }
    {
        self.marks[place].asks
    }

    /// Whether the X of its alternative has a `%*` of its own.
    pub fn holds_star(&self, place: usize) -> bool
        requires { place < length self.now }
        ensures { result ≡ (get_or self.now place no_label).holds_star }
    {
        self.marks[place].holds_star
    }

    /// The bytes of plain parts that follow one another from this place on, up to another part or to
    /// this end, in one slice. It ends sooner where the word of a part isn't kept beside the one
    /// before it; a plain byte that is first is in it. `tokens` are those of the labels.
    pub fn plain_bytes(&self, tokens: &[Token], place: usize, end: usize) -> &[u8]
        ensures bytes { AreBytes tokens.now self.now place result.now }
        ensures within { length result.now ≤ end - place }
        ensures begins { (b : ℕ) → place < end → IsByte tokens.now self.now place b
            → 0 < length result.now }
    {
        let (words, marks) = (self.words.as_slice(), self.marks.as_slice());
        let last = end.min(tokens.len()).min(marks.len());
        if place >= last {
            return &[];
        }
        let start = marks[place].start as usize;
        let mut at = place;
        let mut stop = start;
        while at < last && is_byte_at(&tokens[at], &marks[at], stop) {
            at += 1;
            stop += 1;
        }
        &words[start..stop]
    }
}
