//! Laws of the grammar. The functions do nothing: each is its contract.

ghost use Rattle.drv_syntax.specs.Faults.{IsCutAt, IsMisfit, Refused};
ghost use Rattle.drv_syntax.specs.Fronts.{Front};
ghost use Rattle.drv_syntax.specs.Outcome.{Bad, Cut, Got, Unrefused, descent, judged, parsed, read, text_limit};
ghost use Rattle.drv_syntax.specs.Refusals.{IsRefused};
ghost use Rattle.drv_syntax.specs.Spelling.{Spells};
ghost use Rattle.drv_syntax.specs.Tree.{Items};
ghost use Rattle.drv_syntax.specs.declared.fault.SyntaxFault.{SyntaxFault};
ghost use Rattle.drv_syntax.specs.declared.fault.SyntaxFault.TheVariants.{TextTooLong, Unclosed};
ghost use Rattle.std.specs.Prelude.{◌≡◌, ◌<◌, ◌≤◌, ◌+◌, ◌-◌, ◌++◌, Err, List, Ok, length, take, ℕ};

/// A refused text is refused at the end of its shortest prefix that is no front. Each prefix before
/// it is a front, with that byte it is refused there whatever follows, and no text that begins so
/// is a front.
pub fn shortest_prefix()
    ensures { (text : List ℕ) (k : ℕ) (fault : SyntaxFault) → read text ≡ Bad k fault
        → (k < length text) × ((j : ℕ) → j ≤ k → Front (take j text))
        × ((rest : List ℕ) → Front (take (k + 1) text ++ rest) → ⊥)
        × ((rest : List ℕ) → read (take (k + 1) text ++ rest) ≡ Bad k fault) }
{}

/// A text that has a front, which with the next byte is none, is refused at that byte.
pub fn refused_after_front()
    ensures { (text : List ℕ) (k : ℕ) → k < length text → Front (take k text)
        → (Front (take (k + 1) text) → ⊥) → (fault : SyntaxFault) × (read text ≡ Bad k fault) }
{}

/// A text is refused at the byte after its longest prefix that is a front, and at no other.
pub fn refused_at_misfit()
    ensures refused { (text : List ℕ) (place : ℕ) (fault : SyntaxFault)
        → read text ≡ Bad place fault → IsMisfit text place }
    ensures misfit { (text : List ℕ) (place : ℕ) → IsMisfit text place
        → (fault : SyntaxFault) × (read text ≡ Bad place fault) }
{}

/// What a front begins with is a front.
pub fn front_prefix()
    ensures { (text rest : List ℕ) → Front (text ++ rest) → Front text }
{}

/// A front that has no tree is cut short.
pub fn cut_front()
    ensures { (text : List ℕ) → Front text → ((items : Items) → Spells text items → ⊥)
        → (at : ℕ) × (read text ≡ Cut at) }
{}

/// A text that is cut short is cut at the place of what is open at its end, and at no other.
pub fn cut_at_open()
    ensures cut { (text : List ℕ) (place : ℕ) → read text ≡ Cut place → IsCutAt text place }
    ensures open { (text : List ℕ) (place : ℕ) → IsCutAt text place → read text ≡ Cut place }
{}

/// A text has one tree at most.
pub fn one_tree()
    ensures { (text : List ℕ) (a b : Items) → Spells text a → Spells text b → a ≡ b }
{}

/// A tree of a text is what the text gives.
pub fn spelled_is_read()
    ensures { (text : List ℕ) (items : Items) → Spells text items → read text ≡ Got items }
{}

/// What a text gives is a tree of it.
pub fn read_is_spelled()
    ensures { (text : List ℕ) (items : Items) → read text ≡ Got items → Spells text items }
{}

/// A front of a spec text is never refused.
pub fn front_is_unrefused()
    ensures { (text : List ℕ) → Front text → Unrefused text }
{}

/// A text that gives a tree, or is cut short, is a front.
pub fn unrefused_is_front()
    ensures { (text : List ℕ) → Unrefused text → Front text }
{}

/// A text that ends in the byte that no longer fits is refused at that byte, whatever follows, by
/// the fault of its case.
pub fn refusal_kinds()
    ensures { (text rest : List ℕ) (fault : SyntaxFault) → IsRefused text fault
        → read (text ++ rest) ≡ Bad (length text - 1) fault }
{}

/// A text that is refused has at its place one of these cases: up to that byte it is refused for
/// this fault by the grammar.
pub fn refused_kinds()
    ensures { (text : List ℕ) (k : ℕ) (fault : SyntaxFault) → read text ≡ Bad k fault
        → IsRefused (take (k + 1) text) fault }
{}

/// A text is refused for a fault exactly where the grammar refuses it for that one.
pub fn refused_by_grammar()
    ensures refused { (text : List ℕ) (fault : SyntaxFault)
        → parsed text ≡ Err fault → Refused text fault }
    ensures parsed { (text : List ℕ) (fault : SyntaxFault)
        → Refused text fault → parsed text ≡ Err fault }
{}

/// What a text is parsed to, by the grammar: its tree, the fault of its shortest prefix that is no
/// front, that it is cut short, with the place of what it leaves open, or that it is too long.
pub fn parsed_by_grammar()
    ensures tree { (text : List ℕ) (items : Items) → length text ≤ text_limit → Spells text items
        → parsed text ≡ Ok items }
    ensures refusal { (text rest : List ℕ) (fault : SyntaxFault)
        → length (text ++ rest) ≤ text_limit → IsRefused text fault
        → parsed (text ++ rest) ≡ Err fault }
    ensures cut { (text : List ℕ) → length text ≤ text_limit → Front text
        → ((items : Items) → Spells text items → ⊥)
        → (place : ℕ) × IsCutAt text place × (parsed text ≡ Err (Unclosed place)) }
    ensures too_long { (text : List ℕ) → text_limit < length text → parsed text ≡ Err TextTooLong }
{}

/// The grammar as functions, one for each part of a text, makes of each text what is read of it: its
/// tree, that it is cut short, or the first byte that doesn't fit. So a text that isn't too long is
/// parsed to what they make of it.
pub fn descent_is_read()
    ensures outcome { (text : List ℕ) → descent text ≡ read text }
    ensures parsed { (text : List ℕ) → length text ≤ text_limit
        → parsed text ≡ judged (descent text) }
{}
