//! Laws of the definitions that the contracts cite.

ghost use Rattle.drv_cc.specs.Front.{front_of};
ghost use Rattle.drv_cc.specs.LevelRules.{NoneNames, level_after};
ghost use Rattle.drv_cc.specs.Levels.{debugging_of, level_named, no_debugging, toggle_named};
ghost use Rattle.drv_cc.specs.Levels.{version_named};
ghost use Rattle.drv_cc.specs.Said.{IsSaid};
ghost use Rattle.drv_cc.specs.declared.answer.Answer.TheVariants.{Run};
ghost use Rattle.drv_cc.specs.declared.answer.Call.{Call};
ghost use Rattle.drv_cc.specs.declared.answer.Surroundings.{Surroundings};
ghost use Rattle.drv_cc.specs.declared.item.Item.{Item};
ghost use Rattle.std.specs.Prelude.{◌≡◌, ◌∷◌, ◌++◌, Bool, List, Some, false, ℕ};

/// A law: the level of a line is that of the last option that names one, raised to 2 by a later one
/// that asks for records. The version is that of the last option that names one; and so is the
/// toggle. Where none names one, they are level 0, version 5 and no toggle (GCC manual, "Debugging
/// Options").
pub fn last_level_counts()
    ensures level { (before after : List Item) (i : Item) (level : ℕ)
        → level_named i.name ≡ Some level → NoneNames level_named after
        → (debugging_of no_debugging (before ++ i ∷ after)).level ≡ level_after after level }
    ensures no_level { (items : List Item) → NoneNames level_named items
        → (debugging_of no_debugging items).level ≡ level_after items no_debugging.level }
    ensures version { (before after : List Item) (i : Item) (version : ℕ)
        → version_named i.name ≡ Some version → NoneNames version_named after
        → (debugging_of no_debugging (before ++ i ∷ after)).version ≡ version }
    ensures no_version { (items : List Item) → NoneNames version_named items
        → (debugging_of no_debugging items).version ≡ no_debugging.version }
    ensures toggle { (before after : List Item) (i : Item) (toggle : Bool)
        → toggle_named i.name ≡ Some toggle → NoneNames toggle_named after
        → (debugging_of no_debugging (before ++ i ∷ after)).toggled ≡ toggle }
    ensures no_toggle { (items : List Item) → NoneNames toggle_named items
        → (debugging_of no_debugging items).toggled ≡ false }
{}

/// A law: the items of the driver's line are the words of a line that is carried out, in their order,
/// each by its row of the table. Left out are those that a later one of its class takes back, and
/// those that are spelled nowhere. Then come added ones: each is a word that only the spec file
/// reads, `-pthread`, or a folder. So nothing of the line is lost, and nothing is invented (GCC
/// manual, "Invoking GCC").
pub fn line_is_said()
    ensures { (known : List ℕ) (named words : List (List ℕ)) (around : Surroundings) (call : Call)
        → front_of known named around words ≡ Run call
        → IsSaid known named around words call.items }
{}
