//! Laws about the definitions that the contracts cite.

// In clauses: `items_of` is the items of words, or their refusal.
ghost use Rattle.drv_c99.specs.Front.{Item, items_of};
ghost use Rattle.drv_c99.specs.Reading.{Offends, Reads};
ghost use Rattle.drv_c99.specs.declared.fault.C99Fault.{C99Fault};
ghost use Rattle.drv_c99.specs.declared.option.Side.{Side};
ghost use Rattle.std.specs.Prelude.{◌≡◌, ◌↔◌, Err, List, Ok, ℕ};

/// A law: the rules split a line into its items, one after another. A refusal is that of the first
/// offending word (POSIX.1-2017, c99, OPTIONS).
pub fn items_are_read()
    ensures reads { (side : Side) (words : List (List ℕ)) (items : List Item)
        → (Reads side words items ↔ (items_of side words ≡ Ok items)) }
    ensures offends { (side : Side) (words : List (List ℕ)) (fault : C99Fault)
        → (Offends side words fault ↔ (items_of side words ≡ Err fault)) }
{}
