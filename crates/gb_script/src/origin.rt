// The leaves of a tree are those of its text.

ghost use Rattle.std.specs.Prelude.{◌≡◌, ℕ, List, true};
ghost use Rattle.gb_script.specs.declared.table.Step.{Step};
ghost use Rattle.gb_script.specs.Grammar.{Grammar};
ghost use Rattle.gb_script.specs.declared.action.Rule.{Rule};
ghost use Rattle.gb_script.specs.declared.head.Head.{Head};
ghost use Rattle.gb_script.specs.declared.text.Text.{Text};
ghost use Rattle.gb_script.specs.declared.tree.Node.{Node};
ghost use Rattle.gb_script.specs.Build.{built, IsTree};
ghost use Rattle.gb_script.specs.Each.{Each, EachOf};
ghost use Rattle.gb_script.specs.Leaves.{IsOf};
ghost use Rattle.gb_script.specs.Acts.{sorts_ok};
ghost use Rattle.gb_script.specs.Sorts.{Language, Sort, ValueSort};
ghost use Rattle.gb_script.specs.Spelled.{IsSpelled, spellings_ok, still_ok};
ghost use Rattle.gb_script.specs.Value.{flattened};

/// Whatever the table: each node of what steps build has no text, or that of a token, and the place of a token or of the
/// end; and so has each node of the tree that a text spells.
pub fn leaves_are_tokens()
    ensures built { (t : Text) (steps : List (Step Rule)) → EachOf (IsOf t) (flattened (built t steps)) }
    ensures trees { (g : Grammar Rule) (n : ℕ) (kinds : List ℕ) (t : Text) (x : Node) → IsTree g n kinds t x → Each (IsOf t) x }
{}

/// Where a table passes the tests, the text of each node of a tree is that of a token of a kind of its head, and so is its
/// place where it is of a kind whose nodes stay.
pub fn texts_are_spelled()
    ensures { (l : Language) (sorts : ℕ → List ValueSort) (spelling : Head → List ℕ) (still : Sort) (g : Grammar Rule) →
        sorts_ok l sorts g ≡ true → spellings_ok spelling g ≡ true → still_ok l sorts still g ≡ true →
        (n : ℕ) (kinds : List ℕ) (t : Text) (x : Node) → IsTree g n kinds t x → Each (IsSpelled l spelling still kinds t) x }
{}
