//! Laws about the definitions that the contracts cite.

// In clauses: `Refuses` says why arguments are refused. `items_of` is the items of words, or their
// refusal.
ghost use Rattle.drv_args.specs.Expansion.{Refuses, Responds};
ghost use Rattle.drv_args.specs.Fronts.{Offends, Reads, items_of};
ghost use Rattle.drv_args.specs.declared.fault.ArgsFault.{ArgsFault};
ghost use Rattle.drv_system.specs.Facts.{Facts};
ghost use Rattle.std.specs.Prelude.{◌≡◌, ◌↔◌, Err, List, Ok, ℕ};
ghost use Rattle.drv_args.specs.declared.items.Item.{Item};

/// A law: words have one expansion, which reads the same files and leaves one number of
/// replacements, or they are refused for one reason, and never both.
pub fn one_expansion()
    ensures responds { (F : Facts) (left a b : ℕ) (words out out' files files' : List (List ℕ))
        → Responds F left words a out files → Responds F left words b out' files'
        → (a ≡ b) × (out ≡ out') × (files ≡ files') }
    ensures refused { (F : Facts) (left : ℕ) (words : List (List ℕ)) (f g : ArgsFault)
        → Refuses F left words f → Refuses F left words g → f ≡ g }
    ensures never_both { (F : Facts) (left a : ℕ) (words out files : List (List ℕ)) (fault : ArgsFault)
        → Responds F left words a out files → Refuses F left words fault → ⊥ }
{}

/// A law: the items of words are those of a concatenation of fronts, each fitted by its first row.
/// A refusal is that of the first offending word.
pub fn items_are_fronts()
    ensures reads { (words : List (List ℕ)) (items : List Item)
        → (Reads words items ↔ (items_of words ≡ Ok items)) }
    ensures offends { (words : List (List ℕ)) (fault : ArgsFault)
        → (Offends words fault ↔ (items_of words ≡ Err fault)) }
{}
