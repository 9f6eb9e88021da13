//! Laws of the cut of a text. The functions do nothing: each is its contract.

ghost use Rattle.drv_machine.specs.Atoms.{atoms, items_step, levels_left};
ghost use Rattle.drv_machine.specs.Context as specs;
ghost use Rattle.drv_machine.specs.Cuts.{Balanced, Failure, File, Stretch, Stretched, begins_file};
ghost use Rattle.drv_machine.specs.Cuts.{bounds_file, each, failure_files, has_stray_pipe, if_any};
ghost use Rattle.drv_machine.specs.Cuts.{is_broken, line_of, lines, open_following, open_command};
ghost use Rattle.drv_machine.specs.Cuts.{output, path, path_of, removed, stretch_atoms, texts};
ghost use Rattle.drv_machine.specs.Cuts.{whether, without_file, words};
ghost use Rattle.drv_machine.specs.Cutting.{Cut, all_taken, argument_words, file_words};
ghost use Rattle.drv_machine.specs.Cutting.{nothing_cut};
ghost use Rattle.drv_machine.specs.Outcome.{outcome};
ghost use Rattle.drv_machine.specs.Told.{Told};
ghost use Rattle.drv_machine.specs.Working.{◌>>-◌, Atom, Break, Goes, World};
ghost use Rattle.drv_machine.specs.declared.outcome.Outcome.{Outcome};
ghost use Rattle.drv_syntax.specs.Tree.{Items};
ghost use Rattle.drv_system.specs.Facts.{Facts};
ghost use Rattle.drv_system.specs.Known.{Is};
ghost use Rattle.std.specs.List.{flat_map, list_any};
ghost use Rattle.std.specs.Prelude.{◌≡◌, ◌∷◌, ◌++◌, [], List, Ok, Some, false, length};
ghost use Rattle.std.specs.Prelude.{option_to_list, ℕ};

/// The law that a list of atoms is cut as the definitions over the whole list say. The output is
/// the last word that is marked as one and begins after the last `%V`. The removed files are the
/// words that are marked so. The failure files are the words that are marked as outputs, and of
/// each `%W` the last word that ends in it. The cut stops exactly where, of the words in their
/// order, the first is not found. Where none ends that is not open, it has as many `%W` and files
/// open as the list. It takes and gives nothing.
pub fn cut_law()
    ensures output { (F : Facts) (C : specs.Context) (atoms : List Atom) (c : Cut)
        → all_taken F C nothing_cut atoms ≡ Is (Ok c)
        → if_any (path F C) (output atoms) ≡ Is (Ok c.output) }
    ensures removed { (F : Facts) (C : specs.Context) (atoms : List Atom) (c : Cut)
        → all_taken F C nothing_cut atoms ≡ Is (Ok c)
        → each (path F C) (removed atoms) ≡ Is (Ok c.removed) }
    ensures failures { (F : Facts) (C : specs.Context) (atoms : List Atom) (c : Cut)
        → all_taken F C nothing_cut atoms ≡ Is (Ok c)
        → each (path_of F C) (failure_files atoms) ≡ Is (Ok c.on_failure) }
    ensures found { (F : Facts) (C : specs.Context) (atoms : List Atom)
        → whether (all_taken F C nothing_cut atoms) ≡ whether (each (path F C) (words atoms)) }
    ensures inside { (F : Facts) (C : specs.Context) (atoms : List Atom) (c : Cut) (n : ℕ)
        → all_taken F C nothing_cut atoms ≡ Is (Ok c) → open_following atoms Failure 0 ≡ Some n
        → length c.inside ≡ n }
    ensures outer { (F : Facts) (C : specs.Context) (atoms : List Atom) (c : Cut) (n : ℕ)
        → all_taken F C nothing_cut atoms ≡ Is (Ok c) → open_following atoms File 0 ≡ Some n
        → length (option_to_list c.outer) ≡ n }
{}

/// The law that a list of atoms in which no file begins is cut into the commands that the
/// definitions over the whole list say. The words of a command are those that end in it, and a
/// command without a word is dropped. A pipe is stray exactly where no word precedes it in its
/// command, or part of a word or a pipe follows it. The words of arguments are those of their last
/// command. It takes and gives nothing.
pub fn command_law()
    ensures lines { (F : Facts) (C : specs.Context) (atoms : List Atom) (c : Cut)
        → list_any begins_file atoms ≡ false
        → all_taken F C nothing_cut atoms ≡ Is (Ok c) → lines F C atoms ≡ Is (Ok c.lines) }
    ensures stray { (F : Facts) (C : specs.Context) (atoms : List Atom) (c : Cut)
        → list_any begins_file atoms ≡ false
        → all_taken F C nothing_cut atoms ≡ Is (Ok c) → has_stray_pipe atoms ≡ c.stray }
    ensures arguments { (F : Facts) (C : specs.Context) (atoms : List Atom) (found : List (List ℕ))
        → list_any begins_file atoms ≡ false → argument_words F C atoms ≡ Is (Ok found)
        → (line_of F C (open_command [] [] (atoms ++ Break ∷ [])) >>- λ line. Is (Ok line.words))
        ≡ Is (Ok found) }
{}

/// The law of a list of atoms in which `%@` makes files: their words are those that end in them.
/// The commands, stray pipes and arguments are those of the list without the files, where each file
/// is a break. It takes and gives nothing.
pub fn file_law()
    ensures words { (F : Facts) (C : specs.Context) (atoms : List Atom) (found : List (List ℕ))
        → list_any bounds_file atoms ≡ false → file_words F C atoms ≡ Is (Ok found)
        → (each (texts F C) (words (atoms ++ Break ∷ []))
        >>- λ lists. Is (Ok (flat_map (λ list. list) lists))) ≡ Is (Ok found) }
    ensures lines { (F : Facts) (C : specs.Context) (stretches : List Stretch) (c : Cut)
        → list_any is_broken stretches ≡ false
        → all_taken F C nothing_cut (flat_map stretch_atoms stretches) ≡ Is (Ok c)
        → lines F C (flat_map without_file stretches) ≡ Is (Ok c.lines) }
    ensures stray { (F : Facts) (C : specs.Context) (stretches : List Stretch) (c : Cut)
        → list_any is_broken stretches ≡ false
        → all_taken F C nothing_cut (flat_map stretch_atoms stretches) ≡ Is (Ok c)
        → has_stray_pipe (flat_map without_file stretches) ≡ c.stray }
    ensures arguments { (F : Facts) (C : specs.Context) (stretches : List Stretch)
        (found : List (List ℕ)) → list_any is_broken stretches ≡ false
        → argument_words F C (flat_map stretch_atoms stretches) ≡ Is (Ok found)
        → (line_of F C (open_command [] [] (flat_map without_file stretches ++ Break ∷ []))
        >>- λ line. Is (Ok line.words)) ≡ Is (Ok found) }
{}

/// The law that the atoms of every text are a list of which `file_law` speaks: no file is in
/// another, and none is left open. So definitions over its whole list of atoms say the job of a
/// text: its groups, output, marked files and failure files. No `%W` and no file ends that is not
/// open, in a text that is run to its end or not, and in any items of one, as the arguments of a
/// function. It takes and gives nothing.
pub fn text_law()
    ensures stretched { (F : Facts) (C : specs.Context) (items : Items) (list : List Atom)
        (w : World) → atoms F C items ≡ Goes list tt w → Stretched list }
    ensures told { (F : Facts) (C : specs.Context) (items : Items) (o : Outcome)
        → outcome F C items ≡ Is (Ok o) → Told F C items o }
    ensures balanced { (F : Facts) (C : specs.Context) (items : Items)
        → Balanced (atoms F C items) }
    ensures parts { (F : Facts) (C : specs.Context) (items : Items) (n : ℕ) (star : List ℕ)
        (w : World) → Balanced (items_step F C items (levels_left F C n) star w) }
{}
