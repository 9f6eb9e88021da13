//! Laws of spec sets.

// In clauses: `Kept` is the invariant of every set. `Is` is a value that the facts give.
ghost use Rattle.drv_search.specs.declared.prefixes.Prefixes.{Prefixes};
ghost use Rattle.drv_specs.specs.Directives.{Directive, directives_of};
ghost use Rattle.drv_specs.specs.Dumping.{Plain, doubled, dumped};
ghost use Rattle.drv_specs.specs.Kept.{Kept};
ghost use Rattle.drv_specs.specs.Loading.{file_loaded, loaded};
ghost use Rattle.drv_specs.specs.Reading.{IsRead};
ghost use Rattle.drv_specs.specs.Sets.{Set, no_specs};
ghost use Rattle.drv_system.specs.Facts.{Facts};
ghost use Rattle.drv_system.specs.Known.{Is};
ghost use Rattle.std.specs.Prelude.{◌≡◌, ◌↔◌, List, Ok, ℕ};

use crate::SpecSet;

/// The law that the directives of a file's text are those that its lines give, read by cases:
/// without carriage returns and pairs of a backslash and a newline, line by line, each body up to
/// the next empty one. It takes and gives nothing.
pub fn directives_are_read()
    ensures { (text : List ℕ) (directives : List Directive)
        → (IsRead text directives ↔ (directives_of text ≡ directives)) }
{}

/// The law that a set's dump, loaded into the empty set, gives the set again, and over the set
/// itself its pairs twice. That isn't so where a named text begins with `+` and a blank: then that
/// text would be taken as an addition. It takes and gives nothing.
#[tactic(auto, using(crate::proofs::Reloads::dump_loaded, crate::proofs::Reloads::dump_doubles))]
pub fn dump_reloads()
    ensures gives_back { (F : Facts) (prefixes : Prefixes) (set : Set) → Kept set → Plain set
        → loaded F prefixes no_specs (dumped set) ≡ Is (Ok set) }
    ensures over { (F : Facts) (prefixes : Prefixes) (set : Set) → Kept set → Plain set
        → loaded F prefixes set (dumped set) ≡ Is (Ok (doubled set)) }
{}

/// The law that what every set keeps is kept by loading a text or a file. It takes and gives
/// nothing.
#[tactic(auto, using(crate::proofs::Keeping::loaded_keeps, crate::proofs::Keeping::file_loaded_keeps))]
pub fn loading_keeps()
    ensures texts { (F : Facts) (prefixes : Prefixes) (set after : Set) (text : List ℕ) → Kept set
        → loaded F prefixes set text ≡ Is (Ok after) → Kept after }
    ensures files { (F : Facts) (prefixes : Prefixes) (set after : Set) (name : List ℕ) → Kept set
        → file_loaded F prefixes set name ≡ Is (Ok after) → Kept after }
{}

impl SpecSet {
    /// The law that the dump of this set, loaded over the set, changes no named text and gives each
    /// pair once more, unless a named text begins with `+` and a blank. It gives nothing.
    pub fn reloads_over_itself(&self)
        ensures { Plain self.now → (F : Facts) (prefixes : Prefixes)
            → loaded F prefixes self.now (dumped self.now) ≡ Is (Ok (doubled self.now)) }
    {
        let _entries = &self.entries;
    }
}
