//! Laws of pieces, of checks, and of what a set's texts hold.

ghost use Rattle.drv_check.specs.Agreement.{Agrees, all_loaded, faults_of};
ghost use Rattle.drv_check.specs.Branches.{covers, names_all};
ghost use Rattle.drv_check.specs.Checked.{checked};
ghost use Rattle.drv_check.specs.Coverage.{is_true, pattern_of};
ghost use Rattle.drv_check.specs.Numbers.{AreRead};
ghost use Rattle.drv_check.specs.Origins.{agree, byte_at, spot_at};
ghost use Rattle.drv_check.specs.Pieces.{pieces_of};
ghost use Rattle.drv_check.specs.declared.findings.Checking.{Checking};
ghost use Rattle.drv_check.specs.declared.findings.Source.{Source};
ghost use Rattle.drv_check.specs.declared.findings.Spot.{Spot};
ghost use Rattle.drv_check.specs.declared.known_names.Names.{Names};
ghost use Rattle.drv_match.specs.Matching.{is_named};
ghost use Rattle.drv_search.specs.Search.{prefixes_of};
ghost use Rattle.drv_search.specs.declared.prefixes.Prefixes.{Prefixes};
ghost use Rattle.drv_specs.specs.Builtin.{builtin_specs};
ghost use Rattle.drv_specs.specs.Directives.{directives_of};
ghost use Rattle.drv_specs.specs.Lines.{settle};
ghost use Rattle.drv_syntax.specs.Labels.{Label};
ghost use Rattle.drv_syntax.specs.declared.token.TestKind.TheVariants as asking;
ghost use Rattle.drv_system.specs.Facts.{Facts};
ghost use Rattle.drv_system.specs.Known.{Is};
ghost use Rattle.std.specs.Prelude.{◌≡◌, ◌++◌, ◌-◌, Bool, List, [], Some, drop, length, slice_get, true, ℕ};

/// The law that the pieces of what is left of a text are its directives, one by one: each piece,
/// read alone, is that directive, and the number of a line that is none is the piece's. It takes
/// and gives nothing.
#[tactic(auto, using(crate::proofs::PiecesRead::pieces_read))]
pub fn pieces_are_directives()
    ensures { (text : List ℕ) → AreRead (pieces_of (settle text)) (directives_of text) }
{}

/// The law that a check finds no fault exactly where the driver loads the files, those that are
/// loaded first among them, and that its first fault is the driver's refusal. It takes and gives
/// nothing.
#[tactic(auto, using(crate::proofs::CheckAgrees::checked_agrees))]
pub fn first_fault_is_refusal()
    ensures { (F : Facts) (prefixes : Prefixes) (whose : Names) (over names : List (List ℕ))
        (c : Checking)
        → prefixes_of F [] ≡ Is prefixes → checked F whose over names ≡ Is c
        → Agrees (faults_of c.findings) (all_loaded F prefixes builtin_specs (over ++ names)) }
{}

/// The law that a test of a switch is true on every line on which a test is true that it covers,
/// and that a pattern covers each pattern whose switches it names. It takes and gives nothing.
#[tactic(auto, using(crate::proofs::Covering::covered, crate::proofs::Covering::whole))]
pub fn covered_tests_are_true()
    ensures sound { (names : List (List ℕ)) (hidden : List Bool) (first second : Label)
        → first.asks ≡ asking.Switch → second.asks ≡ asking.Switch → covers first second ≡ true
        → is_true names hidden second ≡ true → is_true names hidden first ≡ true }
    ensures whole { (first second : Label)
        → ((name : List ℕ) → is_named (pattern_of second) name ≡ true
        → is_named (pattern_of first) name ≡ true)
        → names_all first second ≡ true }
{}

/// The law that a file has each byte of a text that has a spot, at that spot, where files have the
/// text's last bytes at its spots. It takes and gives nothing.
#[tactic(auto, using(crate::proofs::SpotLaws::placed))]
pub fn spots_have_bytes()
    ensures { (sources : List Source) (spots : List Spot) (text : List ℕ) (n : ℕ) (spot : Spot)
        → agree sources spots (drop (length text - length spots) text) ≡ true
        → spot_at spots (length text) n ≡ Some spot → byte_at sources spot ≡ slice_get text n }
{}
