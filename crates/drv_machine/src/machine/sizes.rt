//! How much is cut, for who watches.

use super::Machine;
use drv_words::Word;

/// How much is cut.
#[derive(Clone, Copy, Debug)]
pub(crate) struct Sizes {
    /// The commands that have ended.
    pub(crate) ended: usize,
    /// The words of the open command.
    pub(crate) words: usize,
    /// Whether a word is open.
    pub(crate) is_open: bool,
    /// The bytes of the open word.
    pub(crate) bytes: usize,
}

impl Machine {
    /// How much is cut.
    pub(crate) fn sizes(&self) -> Sizes {
        Sizes {
            ended: self.lines.len(),
            words: self.line.len(),
            is_open: self.is_open,
            bytes: self.word.len(),
        }
    }

    /// How many words the command at a place has, its name included; none where there is no command.
    pub(crate) fn words_of(&self, place: usize) -> usize {
        match self.lines.as_slice().get(place) {
            Some(line) => line.words.len().saturating_add(1),
            None => 0,
        }
    }

    /// The last word but one of the open command, where an open word is its last one.
    pub(crate) fn last_but_one(&self) -> Option<&Word> {
        let words = self.line.as_slice();
        let after = if self.is_open { 1 } else { 2 };
        words.get(words.len().checked_sub(after)?)
    }
}
