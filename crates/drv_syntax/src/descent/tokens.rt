//! The tokens of a text, while it is read.

ghost use Rattle.drv_syntax.specs.Code.Messages.{ended, with_last};
ghost use Rattle.drv_syntax.specs.Code.Tokens.{open_token, plain_tokens, whole_token};
ghost use Rattle.drv_words.specs.Gives.{Gives};
ghost use Rattle.std.specs.Prelude.{◌≡◌, ◌<◌, ◌≤◌, ◌^◌, ◌+◌, ◌++◌, ◌∷◌, [], Ok, length};
ghost use Rattle.std.specs.Prelude.{slice_set, take, vec_capacity, vec_len};

use crate::fault::SyntaxFault;
use crate::room::reserve_one;
use crate::token::{Token, TokenKind};
use std::alloc::Global;
use std::marker::Model;

/// A part that is not yet closed.
#[derive(Clone, Copy)]
pub struct Open {
    /// Its place in the list of tokens.
    pub token: usize,
    /// Where it begins.
    pub start: u32,
}

/// The tokens read so far, with those that are still open.
#[derive(Drop)]
pub struct Tokens {
    list: Vec<Token>,
}

impl Model for Tokens {
    ghost use Rattle.drv_syntax.specs.declared.token.Token.{Token};
    ghost use Rattle.std.specs.Prelude.{List};

    ghost Value = { List Token };

    ghost view = { λ t. t.list.items };
}

/// The tokens of plain bytes, the first of them at this place.
fn push_plains(n: u32, run: &[u8], list: &mut Vec<Token>)
    requires place { n + length run.now < 2 ^ 31 }
    requires reserved { vec_len list.old + length run.now ≤ vec_capacity list.old }
    ensures does { list.new.items ≡ list.old.items
        ++ plain_tokens n (length list.old.items + 1) run.now }
    ensures size { length list.new.items ≡ length list.old.items + length run.now }
{
    let mut place = n;
    let mut next = list.len();
    for _byte in run {
        next += 1;
        list.push_reserved(Token {
            kind: TokenKind::Plain,
            start: place,
            end: place + 1,
            next,
        });
        place += 1;
    }
}

/// A part that opens here.
fn opening_token(kind: TokenKind, start: u32) -> Token
    ensures { result ≡ open_token kind start }
{
    Token {
        kind,
        start,
        end: start,
        next: 0,
    }
}

impl Tokens {
    /// None yet, without an allocation.
    pub fn new(alloc: Global) -> Tokens
        ensures { result ≡ [] }
    {
        Tokens {
            list: Vec::new(alloc),
        }
    }

    /// None yet, with room for so many.
    pub fn with_capacity(alloc: Global, count: usize) -> Result<Tokens, SyntaxFault>
        ensures { Gives SyntaxFault.Memory (λ made. made) result (Ok []) }
    {
        Ok(Tokens {
            list: Vec::with_capacity(alloc, count)?,
        })
    }

    /// How many there are, which is the place of the next one.
    pub fn len(&self) -> usize
        ensures { result ≡ length self.now }
    {
        self.list.len()
    }

    /// The list.
    pub fn as_slice(&self) -> &[Token]
        ensures { result.now ≡ self.now }
    {
        self.list.as_slice()
    }

    /// A part opens here.
    #[inline(always)]
    pub fn open(&mut self, kind: TokenKind, start: u32) -> Result<(), SyntaxFault>
        ensures { Gives SyntaxFault.Memory (λ _. self.new) result
            (Ok (self.old ++ open_token kind start ∷ [])) }
    {
        reserve_one(&mut self.list)?;
        self.list.push_reserved(opening_token(kind, start));
        Ok(())
    }

    /// A part that is whole.
    #[inline(always)]
    pub fn push(&mut self, kind: TokenKind, start: u32, end: u32) -> Result<(), SyntaxFault>
        ensures { Gives SyntaxFault.Memory (λ _. self.new) result
            (Ok (self.old ++ whole_token kind start end (length self.old + 1) ∷ [])) }
    {
        let next = self.list.len() + 1;
        reserve_one(&mut self.list)?;
        self.list.push_reserved(Token {
            kind,
            start,
            end,
            next,
        });
        Ok(())
    }

    /// Plain bytes, the first of them at this place.
    #[inline(always)]
    pub fn push_run(&mut self, n: u32, run: &[u8]) -> Result<(), SyntaxFault>
        requires { n + length run.now < 2 ^ 31 }
        ensures { Gives SyntaxFault.Memory (λ _. self.new) result
            (Ok (self.old ++ plain_tokens n (length self.old + 1) run.now)) }
    {
        self.list.reserve(run.len())?;
        push_plains(n, run, &mut self.list);
        Ok(())
    }

    /// The part that opened there ends here, after those inside it.
    pub fn close(&mut self, kind: TokenKind, part: Open, end: u32)
        ensures { self.new ≡ slice_set self.old part.token
            (whole_token kind part.start end (length self.old)) }
    {
        let next = self.list.len();
        if part.token < next {
            self.list[part.token] = Token {
                kind,
                start: part.start,
                end,
                next,
            };
        }
    }

    /// The last one ends at this place.
    pub fn end_last(&mut self, end: u32)
        ensures { self.new ≡ with_last (λ token. ended token end) self.old }
    {
        let count = self.list.len();
        if count != 0 {
            let token = self.list[count - 1];
            self.list[count - 1] = Token {
                kind: token.kind,
                start: token.start,
                end,
                next: token.next,
            };
        }
    }

    /// Gives back the room that none of them takes.
    pub fn shrink(&mut self)
        ensures { self.new ≡ self.old }
    {
        self.list.shrink_to_fit();
    }

    /// Only the first ones, so many.
    pub fn truncate(&mut self, count: usize)
        ensures { self.new ≡ take count self.old }
    {
        self.list.truncate(count);
    }
}
