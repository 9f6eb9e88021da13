//! Adds questions and messages to a journal.

ghost use Rattle.drv_system.specs.declared.event.Event.TheVariants as event;
ghost use Rattle.std.specs.Prelude.{◌≡◌, ◌∷◌, ◌++◌, [], OnErr, OnOk};

use crate::{Event, PathKind, ReadAnswer, TellAnswer};
use drv_words::{Word, copy_word};
use std::alloc::AllocError;

/// Adds the reading of a file.
pub fn note_read(
    journal: &mut Vec<Event>,
    path: &Word,
    answer: &ReadAnswer,
) -> Result<(), AllocError>
    ensures event { OnOk result (journal.new.items
        ≡ journal.old.items ++ event.Read path.now answer.now ∷ []) }
    ensures memory { OnErr result (journal.new.items ≡ journal.old.items) }
{
    let event = Event::Read(path.clone()?, answer.clone()?);
    Ok(journal.push(event)?)
}

/// Adds the question for a path's kind.
pub fn note_kind(journal: &mut Vec<Event>, path: &Word, kind: PathKind) -> Result<(), AllocError>
    ensures event { OnOk result (journal.new.items
        ≡ journal.old.items ++ event.Kind path.now kind ∷ []) }
    ensures memory { OnErr result (journal.new.items ≡ journal.old.items) }
{
    let event = Event::Kind(path.clone()?, kind);
    Ok(journal.push(event)?)
}

/// Adds the question for a variable.
pub fn note_variable(
    journal: &mut Vec<Event>,
    name: &Word,
    value: &Option<Word>,
) -> Result<(), AllocError>
    ensures event { OnOk result (journal.new.items
        ≡ journal.old.items ++ event.Variable name.now value.now ∷ []) }
    ensures memory { OnErr result (journal.new.items ≡ journal.old.items) }
{
    let event = Event::Variable(name.clone()?, copy_word(value)?);
    Ok(journal.push(event)?)
}

/// Adds a text that was written to standard error.
pub fn note_said(
    journal: &mut Vec<Event>,
    text: &Word,
    answer: TellAnswer,
) -> Result<(), AllocError>
    ensures event { OnOk result (journal.new.items
        ≡ journal.old.items ++ event.Say text.now answer ∷ []) }
    ensures memory { OnErr result (journal.new.items ≡ journal.old.items) }
{
    let event = Event::Say(text.clone()?, answer);
    Ok(journal.push(event)?)
}

/// Adds a text that was written to standard output.
pub fn note_put(journal: &mut Vec<Event>, text: &Word, answer: TellAnswer) -> Result<(), AllocError>
    ensures event { OnOk result (journal.new.items
        ≡ journal.old.items ++ event.Put text.now answer ∷ []) }
    ensures memory { OnErr result (journal.new.items ≡ journal.old.items) }
{
    let event = Event::Put(text.clone()?, answer);
    Ok(journal.push(event)?)
}
