//! How a text can be read on after its end.

ghost use Rattle.drv_syntax.specs.Code.Ending as ending;
ghost use Rattle.std.specs.Prelude.{◌≡◌};

use crate::descent::bytes::is_blank;

/// How a text ends.
#[derive(Clone, Copy)]
pub enum Ending {
    /// After an item.
    Item,
    /// In an item that a blank ends as well.
    Word,
    /// In a text for the user, in which a blank is a byte as others.
    Message,
}

impl Ending {
    /// Whether it is in a text for the user.
    pub fn is_message(self) -> bool
        ensures { result ≡ ending.is_message self }
    {
        matches!(self, Ending::Message)
    }

    /// Whether what was read of a text that ends so can be kept where this follows it.
    pub fn goes_on(self, more: &[u8]) -> bool
        ensures { result ≡ ending.goes_on self more.now }
    {
        match (self, more) {
            (Ending::Item, [_, ..]) => true,
            (Ending::Word, [b, ..]) => is_blank(*b),
            _ => false,
        }
    }
}
