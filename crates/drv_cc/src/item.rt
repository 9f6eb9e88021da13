//! What a word of the line gives.

ghost use Rattle.drv_cc.specs.Code.Building.{shown};
ghost use Rattle.drv_cc.specs.Items.{by_row, item, plain, unsettled, words_of};
ghost use Rattle.drv_options.specs.declared.option.Role.TheVariants.{Switch};
ghost use Rattle.drv_options.specs.declared.option.Spelling.TheVariants.{Alone};
ghost use Rattle.std.specs.Prelude.{◌≡◌, ◌++◌, [], IfOk, OnOk};

use crate::classes::class_of;
use crate::table::Row;
use drv_options::{Role, Spelling};
use drv_words::{Listing, Word};
use std::alloc::{AllocError, Global};

/// An item of the line.
#[derive(Drop)]
pub(crate) struct Item {
    /// The name that the option is called by, or the word.
    pub(crate) name: Word,
    /// The option's argument.
    pub(crate) argument: Word,
    /// How it is spelled.
    pub(crate) spelling: Spelling,
    /// What it is on the line.
    pub(crate) role: Role,
    /// The class of which the last item stays; empty where it has none.
    pub(crate) class: Word,
}

impl Clone for Item {
    ghost is_clone = { λ item copy. copy ≡ item };

    fn clone(&self) -> Result<Item, AllocError> {
        Ok(Item {
            name: self.name.clone()?,
            argument: self.argument.clone()?,
            spelling: self.spelling,
            role: self.role,
            class: self.class.clone()?,
        })
    }
}

/// The word of an argument. Most options have none, and an empty word is no copy.
fn word_of(alloc: Global, argument: &[u8]) -> Result<Word, AllocError>
    ensures { IfOk result (λ word. word ≡ argument.now) }
{
    match argument {
        [] => Ok(Word::empty(alloc)),
        _ => Word::from_bytes(alloc, argument),
    }
}

impl Item {
    /// An option with its argument.
    pub(crate) fn new(
        alloc: Global,
        name: &[u8],
        argument: &[u8],
        spelling: Spelling,
        role: Role,
    ) -> Result<Item, AllocError>
        ensures { IfOk result (λ made. made ≡ item name.now argument.now spelling role) }
    {
        Ok(Item {
            name: Word::from_bytes(alloc, name)?,
            argument: word_of(alloc, argument)?,
            spelling,
            role,
            class: class_of(alloc, spelling, name)?,
        })
    }

    /// Makes it the switch of its name.
    pub(crate) fn turn_to_switch(&mut self, alloc: Global) -> Result<(), AllocError>
        ensures { OnOk result (self.new ≡ item self.old.name [] Alone Switch) }
    {
        self.class = class_of(alloc, Spelling::Alone, self.name.as_bytes())?;
        self.argument = Word::empty(alloc);
        self.spelling = Spelling::Alone;
        self.role = Role::Switch;
        Ok(())
    }

    /// A word that is no option.
    pub(crate) fn plain(alloc: Global, role: Role, word: &[u8]) -> Result<Item, AllocError>
        ensures { IfOk result (λ made. made ≡ plain role word.now) }
    {
        Ok(Item {
            name: Word::from_bytes(alloc, word)?,
            argument: Word::empty(alloc),
            spelling: Spelling::Alone,
            role,
            class: Word::empty(alloc),
        })
    }

    /// An option of a row without names that say by which name it is called: unknown, with the newer
    /// name as its argument.
    pub(crate) fn of_two_names(
        alloc: Global,
        option: &[u8],
        name: &[u8],
    ) -> Result<Item, AllocError>
        ensures { IfOk result (λ made. made ≡ unsettled option.now name.now) }
    {
        Ok(Item {
            name: Word::from_bytes(alloc, option)?,
            argument: Word::from_bytes(alloc, name)?,
            spelling: Spelling::Alone,
            role: Role::Unknown,
            class: Word::empty(alloc),
        })
    }

    /// The option of a row with its argument.
    pub(crate) fn by_row(alloc: Global, row: &Row, argument: &[u8]) -> Result<Item, AllocError>
        ensures { IfOk result (λ made. made ≡ by_row (shown row.now) argument.now) }
    {
        Item::new(alloc, row.name, argument, row.spelling, row.role)
    }

    /// Adds the words that it is spelled as.
    pub(crate) fn add_words(&self, words: &mut Listing<Word>) -> Result<(), AllocError>
        ensures { OnOk result (words.new ≡ words.old ++ words_of self.now) }
    {
        match self.spelling {
            Spelling::Alone => words.push(self.name.clone()?)?,
            Spelling::Joined => {
                let mut word = self.name.clone()?;
                word.extend_from_slice(self.argument.as_bytes())?;
                words.push(word)?;
            }
            Spelling::Separate => {
                words.push(self.name.clone()?)?;
                words.push(self.argument.clone()?)?;
            }
            Spelling::Nowhere => {}
        }
        Ok(())
    }
}
