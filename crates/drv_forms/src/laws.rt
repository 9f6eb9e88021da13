//! What holds of each line of a script.

ghost use Rattle.drv_forms.specs.Shell.{Values, moved, shell_words, stem_name, stem_text};
ghost use Rattle.std.specs.Prelude.{◌≡◌, List, [], Some, map, ℕ};

/// The shell reads the words of a script with the value of the variable `gdrv_stem` for each stem in
/// them, and so the words themselves where that is the stem. An empty stem is none.
#[tactic(auto, using(crate::proofs::Shells::stems_read, crate::proofs::Shells::stems_same, crate::proofs::Shells::words_read))]
pub fn words_are_read_back()
    ensures moved { (values : Values) (stem : List ℕ) (words : List (List ℕ))
        → shell_words values (stem_text stem words)
        ≡ Some (map (moved stem (values stem_name)) words) }
    ensures same { (values : Values) (stem : List ℕ) (words : List (List ℕ))
        → values stem_name ≡ stem → shell_words values (stem_text stem words) ≡ Some words }
    ensures plain { (values : Values) (words : List (List ℕ))
        → shell_words values (stem_text [] words) ≡ Some words }
{}
