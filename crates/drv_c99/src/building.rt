//! A front that is built item by item.

// In clauses: `Gives` says that a result is the defined one, or lack of memory.
ghost use Rattle.drv_c99.specs.Code.Building.{begun, finished, noted, with_items};
ghost use Rattle.drv_c99.specs.Front.{Operand, Passed, given, name_of};
ghost use Rattle.drv_c99.specs.declared.fault.C99Fault.TheVariants as fault;
ghost use Rattle.drv_words.specs.Gives.{Gives};
ghost use Rattle.std.specs.Prelude.{◌≡◌, ◌⊎◌, ◌∷◌, ◌++◌, [], OnOk, codes, nat_eq};
ghost use Rattle.std.specs.Cmp.Lexicographic.{pointwise};
ghost use Rattle.std.specs.List.{list_any};

use crate::C99Fault;
use crate::option::{Taking, name};
use drv_words::{Listing, Word};
use std::alloc::{AllocError, Global};
use std::mem;

/// The words for the driver, in three lists, and whether one of them is an operand.
#[derive(Drop)]
pub(crate) struct Front {
    pub(crate) defined: Listing<Word>,
    pub(crate) undefined: Listing<Word>,
    pub(crate) others: Listing<Word>,
    pub(crate) has_operand: bool,
}

/// Adds an option and its argument as two words.
fn add_pair(
    alloc: Global,
    words: &mut Listing<Word>,
    option: &[u8],
    argument: &[u8],
) -> Result<(), AllocError>
    ensures { OnOk result (words.new ≡ words.old ++ option.now ∷ argument.now ∷ []) }
{
    words.push(Word::from_bytes(alloc, option)?)?;
    words.push(Word::from_bytes(alloc, argument)?)?;
    Ok(())
}

/// Adds two texts as one word.
fn add_joined(
    alloc: Global,
    words: &mut Listing<Word>,
    prefix: &[u8],
    rest: &[u8],
) -> Result<(), AllocError>
    ensures { OnOk result (words.new ≡ words.old ++ (prefix.now ++ rest.now) ∷ []) }
{
    let mut word = Word::from_bytes(alloc, prefix)?;
    word.extend_from_slice(rest)?;
    words.push(word)?;
    Ok(())
}

/// Whether an argument is a level.
fn is_level(argument: &[u8]) -> bool
    ensures { result ≡ list_any (pointwise nat_eq argument.now) (codes "0" ∷ codes "1" ∷ []) }
{
    matches!(argument, b"0" | b"1")
}

/// Moves the words of a list to the end of others.
fn move_list(list: Listing<Word>, words: &mut Vec<Word>) -> Result<(), AllocError>
    ensures { OnOk result (words.new.items ≡ words.old.items ++ list) }
{
    words.append(&mut list.into_vec())
}

impl Front {
    /// A front without items.
    pub(crate) fn new(alloc: Global) -> Front
        ensures { result ≡ begun }
    {
        Front {
            defined: Listing::new(alloc),
            undefined: Listing::new(alloc),
            others: Listing::new(alloc),
            has_operand: false,
        }
    }

    /// Adds an option that takes no argument.
    pub(crate) fn add_flag(&mut self, alloc: Global, word: &[u8]) -> Result<(), AllocError>
        ensures { OnOk result (self.new ≡ with_items self.old (Passed (word.now ∷ []) ∷ [])) }
    {
        add_joined(alloc, &mut self.others, b"", word)
    }

    /// Adds an operand.
    pub(crate) fn add_operand(
        &mut self,
        alloc: Global,
        prefix: &[u8],
        word: &[u8],
    ) -> Result<(), AllocError>
        ensures { OnOk result (self.new
            ≡ with_items self.old (Operand (prefix.now ++ word.now) ∷ [])) }
    {
        self.has_operand = true;
        add_joined(alloc, &mut self.others, prefix, word)
    }

    /// Adds an option and its argument.
    pub(crate) fn add_option(
        &mut self,
        alloc: Global,
        option: Taking,
        argument: &[u8],
    ) -> Result<(), C99Fault>
        ensures { Gives fault.Memory (λ u. self.new) result
            (noted self.old (given option argument.now)) }
    {
        let added = match option {
            Taking::Define => add_pair(alloc, &mut self.defined, b"-D", argument),
            Taking::Undefine => add_pair(alloc, &mut self.undefined, b"-U", argument),
            Taking::IncludeFolder => add_pair(alloc, &mut self.others, b"-I", argument),
            Taking::LibraryFolder => add_pair(alloc, &mut self.others, b"-L", argument),
            Taking::Output => add_pair(alloc, &mut self.others, b"-o", argument),
            Taking::Level if !is_level(argument) => {
                return Err(C99Fault::BadLevel(Word::from_bytes(alloc, argument)?));
            }
            Taking::Level => add_joined(alloc, &mut self.others, b"-O", argument),
            Taking::Library if argument.is_empty() => return Err(missing_argument(alloc, option)),
            Taking::Library => self.add_operand(alloc, b"-l", argument),
        };
        Ok(added?)
    }

    /// Moves the words to the end of others: the defined macros, the undefined macros, and the
    /// rest.
    fn move_after(&mut self, alloc: Global, words: &mut Vec<Word>) -> Result<(), AllocError>
        ensures { OnOk result (words.new.items
            ≡ words.old.items ++ self.old.defined ++ self.old.undefined ++ self.old.others) }
    {
        move_list(mem::replace(&mut self.defined, Listing::new(alloc)), words)?;
        move_list(
            mem::replace(&mut self.undefined, Listing::new(alloc)),
            words,
        )?;
        move_list(mem::replace(&mut self.others, Listing::new(alloc)), words)
    }

    /// Moves all words out of the front.
    pub(crate) fn finish(&mut self, alloc: Global) -> Result<Listing<Word>, C99Fault>
        ensures { Gives fault.Memory (λ words. words) result (finished self.old) }
    {
        if !self.has_operand {
            return Err(C99Fault::NoOperand);
        }
        let mut words = Vec::new(alloc);
        words.push(Word::from_bytes(alloc, b"-std=c99")?)?;
        self.move_after(alloc, &mut words)?;
        Ok(Listing::from_vec(words))
    }
}

/// The refusal of an option that has no argument.
pub(crate) fn missing_argument(alloc: Global, option: Taking) -> C99Fault
    ensures { (result ≡ fault.Memory) ⊎ (result ≡ fault.MissingArgument (name_of option)) }
{
    match Word::from_bytes(alloc, name(option)) {
        Ok(word) => C99Fault::MissingArgument(word),
        Err(_) => C99Fault::Memory,
    }
}
