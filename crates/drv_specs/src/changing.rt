//! What a directive does to a set.

// In clauses: `Gives` says that a result is the defined one, or lack of memory. `parsed` is the
// tree of a text, or its fault.
ghost use Rattle.drv_specs.specs.Directives.{shown};
ghost use Rattle.drv_specs.specs.Loading.{change};
ghost use Rattle.drv_specs.specs.Sets.{append, appended_text, appends, begins_with_at, by_tree, is_alias};
ghost use Rattle.drv_specs.specs.Sets.{is_key, is_key_byte, is_key_text, is_name, is_name_byte};
ghost use Rattle.drv_specs.specs.Sets.{is_no_text, is_not_installed, is_sized, pair_text, put, Set};
ghost use Rattle.drv_specs.specs.Sets.{with_body, with_name, with_pair_body, with_pair_text};
ghost use Rattle.drv_specs.specs.Sets.{text_of, with_text};
ghost use Rattle.drv_specs.specs.Blanks.{is_white};
ghost use Rattle.drv_specs.specs.declared.fault.SpecsFault.TheVariants as fault;
ghost use Rattle.drv_syntax.specs.Outcome.{parsed};
ghost use Rattle.drv_words.specs.Gives.{Gives};
ghost use Rattle.std.specs.List.{list_all};
ghost use Rattle.std.specs.Prelude.{◌≡◌, IfOk, OnErr, is_some, true};

use crate::SpecsFault;
use crate::bytes::{has_byte, is_blank, is_white, without_end_white, without_first};
use crate::directive::Directive;
use crate::entries::Entries;
use crate::settling::ends_with_backslash;
use crate::text::Text;
use drv_syntax::{SyntaxFault, parse};
use drv_words::Word;
use std::alloc::Global;

/// Whether a name may have a byte.
fn is_name_byte(byte: u8) -> bool
    ensures { result ≡ is_name_byte byte }
{
    byte.is_ascii_alphanumeric() || byte == b'_' || byte == b'.' || byte == b'+' || byte == b'-'
}

/// Whether a text is as long as a name may be.
fn is_sized(name: &[u8]) -> bool
    ensures { result ≡ is_sized name.now }
{
    has_byte(name) && name.len() <= 255
}

/// Whether a name may have all these bytes.
fn has_name_bytes(name: &[u8]) -> bool
    ensures { result ≡ list_all is_name_byte name.now }
{
    name.iter().all(|byte| is_name_byte(*byte))
}

/// Whether a text is a name.
pub fn is_name(name: &[u8]) -> bool
    ensures { result ≡ is_name name.now }
{
    is_sized(name) && has_name_bytes(name)
}

/// Whether a key may have a byte.
fn is_key_byte(byte: u8) -> bool
    ensures { result ≡ is_key_byte byte }
{
    33 <= byte && byte <= 126 && byte != b':'
}

/// Whether a key or text begins with `@`: it is that of a language, or an alias.
pub fn begins_with_at(text: &[u8]) -> bool
    ensures { result ≡ begins_with_at text.now }
{
    matches!(text, [b'@', ..])
}

/// Whether a key may have all these bytes.
fn has_key_bytes(key: &[u8]) -> bool
    ensures { result ≡ list_all is_key_byte key.now }
{
    key.iter().all(|byte| is_key_byte(*byte))
}

/// Whether a text of any length is a key.
fn is_key_text(key: &[u8]) -> bool
    ensures { result ≡ is_key_text key.now }
{
    if begins_with_at(key) {
        return is_name(without_first(key));
    }
    has_byte(key) && has_key_bytes(key)
}

/// Whether a text is a key.
fn is_key(key: &[u8]) -> bool
    ensures { result ≡ is_key key.now }
{
    key.len() <= 255 && is_key_text(key)
}

/// Whether a pair's text says that a language isn't installed.
fn is_not_installed(text: &[u8]) -> bool
    ensures { result ≡ is_not_installed text.now }
{
    matches!(text, [b'#', ..])
}

/// Whether a pair's text is an alias.
fn is_alias(text: &[u8]) -> bool
    ensures { result ≡ is_alias text.now }
{
    match text {
        [b'@', name @ ..] => is_name(name),
        _ => false,
    }
}

/// Whether the text of a pair is not run.
fn is_no_text(text: &[u8]) -> bool
    ensures { result ≡ is_no_text text.now }
{
    is_not_installed(text) || is_alias(text)
}

/// Whether a text is white space alone.
fn is_all_white(text: &[u8]) -> bool
    ensures { result ≡ list_all is_white text.now }
{
    text.iter().all(|byte| is_white(*byte))
}

/// The text of a pair's body.
fn pair_text(body: &[u8]) -> &[u8]
    ensures { result.now ≡ pair_text body.now }
{
    let text = without_end_white(body);
    if is_no_text(text) { text } else { body }
}

/// The tree of a text, which is refused if it has none.
#[tactic(auto, using(crate::proofs::TreeChecks::tree_given, crate::proofs::TreeChecks::tree_refused))]
fn parsed_text(alloc: Global, name: &[u8], text: &[u8]) -> Result<Text, SpecsFault>
    ensures tree { (set : Set) → Gives fault.Memory (λ _. set) result
        (by_tree name.now set (parsed text.now)) }
    ensures text { IfOk result (λ parsed. parsed ≡ text.now) }
{
    match parse(alloc, text) {
        Ok(tree) => Ok(Text::new(alloc, tree)?),
        Err(SyntaxFault::Memory) => Err(SpecsFault::Memory),
        Err(fault) => Err(SpecsFault::Syntax {
            name: Word::from_bytes(alloc, name)?,
            fault,
        }),
    }
}

/// Whether a body appends: it begins with `+` and a blank.
pub fn appends(body: &[u8]) -> bool
    ensures { result ≡ appends body.now }
{
    match body {
        [b'+', blank, ..] => is_blank(*blank),
        _ => false,
    }
}

impl Entries {
    /// Puts a text that has a tree. After an error a name that has a text still has it.
    pub(crate) fn put(&mut self, name: &[u8], text: &[u8]) -> Result<(), SpecsFault>
        ensures gives { Gives fault.Memory (λ _. self.new) result (put self.old name.now text.now) }
        ensures kept { OnErr result
            (is_some (text_of self.old name.now) ≡ true → self.new ≡ self.old) }
    {
        let text = parsed_text(self.alloc(), name, text)?;
        self.insert(name, text)?;
        Ok(())
    }

    /// The text of a name after an addition to it.
    #[tactic(auto, using(crate::proofs::TreeChecks::tree_given, crate::proofs::TreeChecks::tree_refused))]
    fn added_text(&mut self, name: &[u8], addition: &[u8]) -> Result<Text, SpecsFault>
        ensures tree { (set : Set) → Gives fault.Memory (λ _. set) result
            (by_tree name.now set (parsed (appended_text (text_of self.old name.now) addition.now))) }
        ensures text { IfOk result (λ text. text
            ≡ appended_text (text_of self.old name.now) addition.now) }
        ensures kept { self.new ≡ self.old }
    {
        match self.added_tree(name, addition) {
            Ok(tree) => Ok(Text::new(self.alloc(), tree)?),
            Err(SyntaxFault::Memory) => Err(SpecsFault::Memory),
            Err(fault) => Err(SpecsFault::Syntax {
                name: self.word(name)?,
                fault,
            }),
        }
    }

    /// Adds to a text. After an error a name that has a text still has it.
    #[tactic(auto, using(crate::proofs::Appending::appended_puts, crate::proofs::Appending::appended_refused))]
    fn append(&mut self, name: &[u8], addition: &[u8]) -> Result<(), SpecsFault>
        ensures gives { Gives fault.Memory (λ _. self.new) result
            (append self.old name.now addition.now) }
        ensures kept { OnErr result
            (is_some (text_of self.old name.now) ≡ true → self.new ≡ self.old) }
    {
        if is_all_white(addition) {
            return Ok(());
        }
        let text = self.added_text(name, addition)?;
        let older = self.insert(name, text)?;
        self.keep_older(older);
        Ok(())
    }

    /// Does what a body says to a name. After an error a name that has a text still has it.
    fn put_body(&mut self, name: &[u8], body: &[u8]) -> Result<(), SpecsFault>
        ensures gives { Gives fault.Memory (λ _. self.new) result
            (with_body self.old name.now body.now) }
        ensures kept { OnErr result
            (is_some (text_of self.old name.now) ≡ true → self.new ≡ self.old) }
    {
        if body.is_empty() {
            self.remove(name);
            Ok(())
        } else if appends(body) {
            self.append(name, without_first(body))
        } else {
            self.put(name, body)
        }
    }

    /// Carries out a name with its body. After an error a name that has a text still has it.
    pub(crate) fn put_text(&mut self, name: &[u8], body: &[u8]) -> Result<(), SpecsFault>
        ensures gives { Gives fault.Memory (λ _. self.new) result
            (with_text self.old name.now body.now) }
        ensures kept { OnErr result
            (is_some (text_of self.old name.now) ≡ true → self.new ≡ self.old) }
    {
        if !is_name(name) {
            return Err(SpecsFault::BadName(self.word(name)?));
        }
        if ends_with_backslash(body) {
            return Err(SpecsFault::TrailingBackslash(self.word(name)?));
        }
        self.put_body(name, body)
    }

    /// Adds a pair of this text. After an error none is added.
    pub(crate) fn add_pair_text(&mut self, key: &[u8], text: &[u8]) -> Result<(), SpecsFault>
        ensures gives { Gives fault.Memory (λ _. self.new) result
            (with_pair_text self.old key.now text.now) }
        ensures kept { OnErr result (self.new ≡ self.old) }
    {
        if ends_with_backslash(text) {
            return Err(SpecsFault::TrailingBackslash(self.word(key)?));
        }
        if begins_with_at(key) && begins_with_at(text) {
            return Err(SpecsFault::AliasOfAlias(self.word(key)?));
        }
        if is_no_text(text) {
            self.push_pair(key, text, None)?;
            return Ok(());
        }
        let tree = parsed_text(self.alloc(), key, text)?;
        self.push_pair(key, text, Some(tree))?;
        Ok(())
    }

    /// Carries out a key with its body. After an error no pair is added.
    pub(crate) fn add_pair(&mut self, key: &[u8], body: &[u8]) -> Result<(), SpecsFault>
        ensures gives { Gives fault.Memory (λ _. self.new) result
            (with_pair_body self.old key.now body.now) }
        ensures kept { OnErr result (self.new ≡ self.old) }
    {
        if !is_key(key) {
            return Err(SpecsFault::BadName(self.word(key)?));
        }
        self.add_pair_text(key, pair_text(body))
    }

    /// Carries out a `%rename`.
    fn give_name(&mut self, old: &[u8], new: &[u8]) -> Result<(), SpecsFault>
        ensures { Gives fault.Memory (λ _. self.new) result (with_name self.old old.now new.now) }
    {
        if !is_name(old) {
            return Err(SpecsFault::BadName(self.word(old)?));
        }
        if !is_name(new) {
            return Err(SpecsFault::BadName(self.word(new)?));
        }
        if !self.has(old) {
            return Err(SpecsFault::RenameMissing(self.word(old)?));
        }
        if old == new {
            return Ok(());
        }
        if self.has(new) {
            return Err(SpecsFault::RenameTaken(self.word(new)?));
        }
        self.rename(old, new)?;
        Ok(())
    }

    /// Carries out a directive that reads no file.
    pub(crate) fn change(&mut self, directive: Directive<'_>) -> Result<(), SpecsFault>
        ensures { Gives fault.Memory (λ _. self.new) result
            (change self.old (shown directive.entry)) }
    {
        match directive {
            Directive::Text { name, body } => self.put_text(name, body),
            Directive::Pair { key, body } => self.add_pair(key, body),
            Directive::Rename { old, new } => self.give_name(old, new),
            Directive::Include { .. } => Ok(()),
            Directive::Bad(n) => Err(SpecsFault::BadLine(n)),
        }
    }
}
