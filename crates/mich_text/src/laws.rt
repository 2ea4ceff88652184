//! Laws of texts and of printed lines.
ghost use Rattle.std.specs.Prelude.{◌≡◌, ◌≤◌, ℕ, List, length, true};
ghost use Rattle.std.specs.List.{list_all};
ghost use Rattle.rules_text.specs.nodes.Limits.{statement_limit};
ghost use Rattle.rules_text.specs.nodes.Tree.{Tree};
ghost use Rattle.rules_text.specs.text.Printed.{printed};
ghost use Rattle.rules_text.specs.text.Text.{Stands, IsFault, IsNode, IsEnd};
ghost use Rattle.rules_text.specs.declared.text.TextKind.{TextKind};
ghost use Rattle.mich_text.specs.Line.{is_printing};
ghost use Rattle.mich_text.specs.Written.{CanBeWritten, HasTextForm};

/// A law, with nothing to run: a text is one thing only, ended, one node at one place, or one fault at one place.
pub fn one_reading()
    // one fault
    ensures faults { (before : ℕ) (text : List ℕ) (k j : TextKind) (left other : ℕ) → IsFault before text k left → IsFault before text j other → (left ≡ other) × (k ≡ j) }
    // one node, from one place to another
    ensures nodes { (text : List ℕ) (x y : Tree) (a b c d : ℕ) → Stands text x a b → Stands text y c d → (x ≡ y) × (a ≡ c) × (b ≡ d) }
    // and not both
    ensures apart { (before : ℕ) (text : List ℕ) (k : TextKind) (left : ℕ) (tree : Tree) (start end : ℕ) → IsFault before text k left → IsNode before text tree start end → ⊥ }
    // nor either of them where the text is ended
    ensures no_node_at_end { (before : ℕ) (text : List ℕ) (tree : Tree) (start end : ℕ) → IsEnd before text → IsNode before text tree start end → ⊥ }
    ensures no_fault_at_end { (before : ℕ) (text : List ℕ) (k : TextKind) (left : ℕ) → IsEnd before text → IsFault before text k left → ⊥ }
{}

/// A text gives only nodes whose names, annotations, numbers, strings and bytes have their forms and which have at most 1,000
/// levels. The line of such a node has only bytes that ASCII prints. By itself it is a text of that node, from its first byte to
/// its last, where it is no longer than a statement may be.
pub fn a_line_is_read_again()
    ensures forms { (before : ℕ) (text : List ℕ) (tree : Tree) (start end : ℕ) → IsNode before text tree start end → CanBeWritten tree }
    ensures again { (tree : Tree) → CanBeWritten tree → length (printed tree) ≤ statement_limit → IsNode 0 (printed tree) tree (length (printed tree)) 0 }
    ensures one_line { (tree : Tree) → HasTextForm tree → list_all is_printing (printed tree) ≡ true }
{}
