//! Where changes lead.

ghost use Rattle.std.specs.Prelude.{◌≡◌, List, [], ◌∷◌};
ghost use Rattle.std.specs.List.{AllByRecursion};
ghost use Rattle.gb_core.specs.declared.var.Var.{Var};
ghost use Rattle.gb_core.specs.declared.value.Value.{Value};
ghost use Rattle.gb_terms.specs.declared.op.Side.{Side};
ghost use Rattle.gb_terms.specs.declared.op.Side.TheVariants.{Left, Right, Bound};
ghost use Rattle.gb_terms.specs.declared.op.Read.TheVariants.{Program};
ghost use Rattle.gb_terms.specs.declared.term.Term.{Term};
ghost use Rattle.gb_walk.specs.declared.change.Change.TheVariants.{ToTerm, ToSide};
ghost use Rattle.gb_meaning.specs.Memory.{Memory, write};
ghost use Rattle.gb_meaning.specs.Setting.{Setting};
ghost use Rattle.gb_meaning.specs.Setting.Meaning.{finite};
ghost use Rattle.gb_meaning.specs.State.{State, memory_of, under, between};
ghost use Rattle.gb_meaning.specs.State.Binding.{memory};
ghost use Rattle.gb_meaning.specs.Terms.{Speaks, val};
ghost use Rattle.gb_laws.specs.Uses.{Uses, unbound};
ghost use Rattle.gb_laws.specs.Led.{Led};
ghost use Rattle.gb_laws.specs.Fit.{BindsNone};
ghost use Rattle.gb_laws.specs.Written.{with_side, IsSide, IsOne, Suits, Written, written_changes, all_written, IsWritten};

/// Where reads of a side go to the memory that the innermost binder binds, the changes lead to the state in which this memory
/// is that side.
pub fn bound_sides()
    ensures left { (g : Setting) (j : Speaks) (s : State) (m : Memory) →
        Led g j (ToSide Left (Bound 0) ∷ []) unbound (under s (memory m)) (between s m s.right) }
    ensures right { (g : Setting) (j : Speaks) (s : State) (m : Memory) →
        Led g j (ToSide Right (Bound 0) ∷ []) unbound (under s (memory m)) (between s s.left m) }
{}

/// Where a term takes the place of a variable in one memory, the changes lead to the state after a write of its value, if the
/// variable is read at types of this value alone, and the memory isn't used as a whole.
pub fn written_variables()
    ensures { (g : Setting) (j : Speaks) (x : Var) (r : Side) (t : Term) (v : Value) (s : State) (K : Uses) → IsOne x → IsSide r →
        val g j t s ≡ finite v → Suits g K x r v → BindsNone K →
        Led g j (ToTerm (Program x r) t ∷ []) K s (with_side s r (write g.types (memory_of s r) x v)) }
{}

/// The same of several terms that take the places of variables at once: the changes lead to the state after all writes, of the
/// values that the terms have before any of them.
pub fn variables_written_at_once()
    ensures { (g : Setting) (j : Speaks) (K : Uses) (s : State) (ws : List Written) → AllByRecursion (IsWritten g j K s) ws →
        BindsNone K → Led g j (written_changes ws) K s (all_written g s ws) }
{}
