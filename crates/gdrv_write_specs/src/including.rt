//! The spec files that the texts of a gcc include.

use crate::asking::{Gcc, text};
use crate::fault::Fault;
use crate::texts::{add_all, has_bytes, joined};
use drv_dump::translate_dump;
use drv_gcc::{Included, named_texts, values};
use drv_words::{Listing, Word};
use std::alloc::Global;
use std::fs;

/// The texts of an included file in this driver's language. Each is on the line of its name.
fn texts_of_file(alloc: Global, content: &[u8]) -> Result<Word, Fault> {
    let mut dump = Word::empty(alloc);
    for line in values(alloc, b"*", content)?.as_slice() {
        let mut parts = line.as_bytes().splitn(2, |byte| *byte == b':');
        if let (Some(name), Some(body)) = (parts.next(), parts.next()) {
            add_all(&mut dump, &[b"*", name, b":\n", body.trim_ascii(), b"\n\n"])?;
        }
    }
    match translate_dump(alloc, dump.as_bytes()) {
        Ok(ours) => Ok(ours.texts),
        Err(_) => Ok(Word::empty(alloc)),
    }
}

impl<'a> Gcc<'a> {
    /// A spec file that the texts include.
    fn inclusion(self, name: &Word) -> Result<Included, Fault> {
        let path = self.path_of(name.as_bytes())?;
        let (is_there, texts) = match fs::read(self.rt, text(path.as_bytes())?) {
            Ok(content) => (true, texts_of_file(self.alloc(), content.as_slice())?),
            Err(_) => (false, Word::empty(self.alloc())),
        };
        Ok(Included {
            name: name.clone()?,
            is_there,
            texts,
        })
    }

    /// The spec files that these texts include. `%(include_words)` is a text of another kind, and so
    /// is one that gcc itself calls so.
    pub fn included_by(self, texts: &[u8]) -> Result<Listing<Included>, Fault> {
        let mut included = Listing::new(self.alloc());
        for name in named_texts(self.alloc(), b"%(include_", texts)?.as_slice() {
            let head = joined(
                self.alloc(),
                &[b"*include_".as_slice(), name.as_bytes(), b":\n"],
            )?;
            let is_words = name.as_bytes() == b"words".as_slice();
            if !is_words && !has_bytes(texts, head.as_bytes()) {
                included.push(self.inclusion(name)?)?;
            }
        }
        Ok(included)
    }
}
