//! The named texts of a set, in their order.

// In clauses: `texts_left` is the texts of a map.
ghost use Rattle.drv_specs.specs.Code.Keyed.{texts_left};
ghost use Rattle.indexmap.specs.IndexMap.{get_by, insert_entry};
ghost use Rattle.std.specs.Cmp.Lexicographic.{pointwise};
ghost use Rattle.std.specs.Global.{Vec};
ghost use Rattle.std.specs.Map.{lookup, remove_entry, set_key};
ghost use Rattle.std.specs.Option.{option_map};
ghost use Rattle.std.specs.Prelude.{◌≡◌, [], IfOk, IfSome, None, OnErr, OnOk, Some};
ghost use Rattle.std.specs.Prelude.{is_some, nat_eq, true};

use crate::places::Places;
use crate::text::Text;
use indexmap::IndexMap;
use std::alloc::{AllocError, Global};
use std::marker::Model;

/// Named texts in order. The map keeps the entry of a deleted name, without its text, until half of
/// the entries are such: so a deletion moves no other entry. Contracts see the list of the texts.
#[derive(Drop)]
pub(crate) struct NamedTexts {
    alloc: Global,
    kept: IndexMap<Vec<u8>, Option<Text>>,
    /// How many entries have no text.
    vacant: usize,
    /// Where the entries of names may be.
    places: Places,
}

impl Model for NamedTexts {
    ghost use Rattle.drv_specs.specs.Code.Keyed.{texts_left};
    ghost use Rattle.std.specs.Prelude.{List, ℕ};

    ghost Value = { List (List ℕ × List ℕ) };

    ghost view = { λ n. texts_left n.kept.entries };
}

/// Drops the entries that have no text.
fn drop_vacant(kept: &mut IndexMap<Vec<u8>, Option<Text>>)
    ensures { texts_left kept.new.entries ≡ texts_left kept.old.entries }
{
    kept.retain(
        |_name: &Vec<u8>, text: &mut Option<Text>| -> bool
            ensures { (result ≡ is_some text.old) × (text.new ≡ text.old) }
        { text.is_some() },
    );
}

/// The text of a name, if its entry is at this place.
fn text_there<'a>(
    kept: &'a IndexMap<Vec<u8>, Option<Text>>,
    place: usize,
    name: &[u8],
) -> Option<&'a Text>
    ensures { IfSome result (λ text. lookup (pointwise nat_eq name.now) (texts_left kept.now.entries)
        ≡ Some text.now) }
{
    match kept.get_index(place) {
        Some((key, text)) if key.as_slice() == name => text.as_ref(),
        _ => None,
    }
}

/// The text of a name, by a look-up of its hash. Most names are found before.
#[inline(never)]
fn text_at<'a>(kept: &'a IndexMap<Vec<u8>, Option<Text>>, name: &[u8]) -> Option<&'a Text>
    ensures { option_map (λ text. text.now) result
        ≡ lookup (pointwise nat_eq name.now) (texts_left kept.now.entries) }
{
    let Some(place) = kept.get_index_of(name) else {
        return None;
    };
    let Some((_, text)) = kept.get_index(place) else {
        return None;
    };
    text.as_ref()
}

/// Leaves the entry of a name without its text. Tells whether there is such an entry.
fn clear_text(kept: &mut IndexMap<Vec<u8>, Option<Text>>, name: &[u8]) -> bool
    ensures { texts_left kept.new.entries
        ≡ remove_entry (pointwise nat_eq name.now) (texts_left kept.old.entries) }
{
    match kept.get_mut(name) {
        Some(text) => {
            *text = None;
            true
        }
        None => false,
    }
}

impl NamedTexts {
    /// No texts. It allocates nothing.
    pub(crate) fn new(alloc: Global) -> NamedTexts
        ensures { result ≡ [] }
    {
        NamedTexts {
            alloc,
            kept: IndexMap::new(alloc),
            vacant: 0,
            places: Places::new(),
        }
    }

    /// No texts, with room for this many.
    pub(crate) fn with_capacity(alloc: Global, count: usize) -> Result<NamedTexts, AllocError>
        ensures { IfOk result (λ named. named ≡ []) }
    {
        Ok(NamedTexts {
            alloc,
            kept: IndexMap::with_capacity(alloc, count)?,
            vacant: 0,
            places: Places::new(),
        })
    }

    /// The map.
    pub(crate) fn entries(&self) -> &IndexMap<Vec<u8>, Option<Text>>
        ensures { texts_left result.now.entries ≡ self.now }
    {
        &self.kept
    }

    /// The text of a name.
    #[inline(always)]
    pub(crate) fn get(&self, name: &[u8]) -> Option<&Text>
        ensures { option_map (λ text. text.now) result ≡ lookup (pointwise nat_eq name.now) self.now }
    {
        match text_there(&self.kept, self.places.of(name), name) {
            Some(text) => Some(text),
            None => text_at(&self.kept, name),
        }
    }

    /// Puts a text under a name: a name that is there keeps its place, a new one goes last. Returns
    /// the text that the name had before. After an error a name that has a text still has it.
    pub(crate) fn insert(&mut self, name: &[u8], text: Text) -> Result<Option<Text>, AllocError>
        ensures old { IfOk result (λ old. old ≡ lookup (pointwise nat_eq name.now) self.old) }
        ensures put { OnOk result (self.new
            ≡ insert_entry (pointwise nat_eq) self.old name.now text) }
        ensures kept { OnErr result
            (is_some (lookup (pointwise nat_eq name.now) self.old) ≡ true → self.new ≡ self.old) }
    {
        let key = name.to_vec(self.alloc)?;
        let place = self.kept.len();
        match self.kept.insert(key, Some(text))? {
            None => {
                self.places.note(name, place);
                Ok(None)
            }
            Some(Some(old)) => Ok(Some(old)),
            // The name was deleted: its entry goes from its place, and comes last again.
            Some(None) => {
                let key = name.to_vec(self.alloc)?;
                let Some(text) = self.kept.shift_remove(name) else {
                    return Ok(None);
                };
                self.vacant = self.vacant.saturating_sub(1);
                self.kept.insert(key, text)?;
                Ok(None)
            }
        }
    }

    /// Takes a name away, if it is there.
    pub(crate) fn remove(&mut self, name: &[u8])
        ensures { self.new ≡ remove_entry (pointwise nat_eq name.now) self.old }
    {
        if !clear_text(&mut self.kept, name) {
            return;
        }
        self.vacant = self.vacant.saturating_add(1);
        // To drop them costs a pass, so it is done once they are the greater part.
        if self.vacant > self.kept.len() / 2 {
            drop_vacant(&mut self.kept);
            self.vacant = 0;
        }
    }

    /// Gives a text a new name, in its place: under the new name it goes last, and from there to
    /// the place of the old one.
    pub(crate) fn rename(&mut self, old: &[u8], new: &[u8]) -> Result<(), AllocError>
        requires { lookup (pointwise nat_eq new.now) self.old ≡ None }
        ensures { OnOk result (self.new ≡ set_key (pointwise nat_eq old.now) self.old new.now) }
    {
        let Some(text) = text_at(&self.kept, old) else {
            return Ok(());
        };
        let text = text.clone()?;
        let key = new.to_vec(self.alloc)?;
        let was_vacant = self.kept.shift_remove(new).is_some();
        self.vacant = self.vacant.saturating_sub(usize::from(was_vacant));
        self.kept.insert(key, Some(text))?;
        self.kept.swap_remove(old);
        Ok(())
    }

    /// A copy, which shares the trees.
    pub(crate) fn try_clone(&self) -> Result<NamedTexts, AllocError>
        ensures { IfOk result (λ copy. copy ≡ self.now) }
    {
        Ok(NamedTexts {
            alloc: self.alloc,
            kept: self.kept.clone()?,
            vacant: self.vacant,
            places: self.places,
        })
    }
}
