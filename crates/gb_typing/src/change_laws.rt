//! Changes of well-typed terms.

ghost use Rattle.std.specs.Prelude.{◌≡◌, Bool, false, List};
ghost use Rattle.std.specs.List.{AllByRecursion};
ghost use Rattle.gb_core.specs.declared.ty.Ty.{Ty};
ghost use Rattle.gb_core.specs.declared.var.Var.{Var};
ghost use Rattle.gb_terms.specs.declared.term.Term.{Term};
ghost use Rattle.gb_walk.specs.Change.{Changes, term_changed};
ghost use Rattle.gb_meaning.specs.Setting.{Setting};
ghost use Rattle.gb_meaning.specs.State.{State};
ghost use Rattle.gb_meaning.specs.Terms.{val};
ghost use Rattle.gb_meaning.specs.Judgments.{Judge, IsFair, speaking};
ghost use Rattle.gb_meaning.specs.Written.{type_of};
ghost use Rattle.gb_laws.specs.Uses.{IsWithin};
ghost use Rattle.gb_laws.specs.Written.{Written, written_changes, all_written};
ghost use Rattle.gb_typing.specs.Context.{Context};
ghost use Rattle.gb_typing.specs.Typing.{IsTyped, IsForm};
ghost use Rattle.gb_typing.specs.Fits.{IsSettingOf, IsStateOf};
ghost use Rattle.gb_typing.specs.Puts.{Readable, every_variable, reading, clash, Leaves, IsTypedWrite, IsTypedPut};
ghost use Rattle.gb_typing.specs.Changes.{Leads, Enters, Made};

/// Changes that lead from a context to another one make a term that is well typed in the first well typed in the second, of the
/// same type.
pub fn changes()
    ensures { (binds : Bool) (t : Term) (cs : Changes) (c d : Context) → Leads binds cs c d → Enters binds t cs → IsTyped c t →
        Made d (type_of t) (term_changed t cs) }
{}

/// A write of a variable leaves what is read of each variable that doesn't clash with it. Variables clash if they are the same, or if
/// one is all globals of a module, and a global stands for both.
pub fn writes()
    ensures { (g : Setting) (x y : Var) (t : Ty) → clash g x y ≡ false → Leaves g x y t }
{}

/// A well-typed form, with well-typed terms in place of variables, many at once, is well typed, and means in a state what the form
/// means after the writes of the terms' values. A variable may be all globals of a module: the writes are to leave what else the form
/// reads, where this isn't so of itself. Each variable may be read by a form of whose reads nothing else is known.
pub fn substitution()
    ensures meaning { (c : Context) (g : Setting) → IsSettingOf c g → (j : Judge) → IsFair g j → (P : Readable) (f : Term) → IsTyped c f →
        IsWithin (reading P) f → (s : State) → IsStateOf c g s → (ws : List Written) → AllByRecursion (IsTypedWrite P c g s) ws →
        val g (speaking g j) (term_changed f (written_changes ws)) s ≡ val g (speaking g j) f (all_written g s ws) }
    ensures reads { (c : Context) (f : Term) → IsTyped c f → IsWithin (reading every_variable) f }
    ensures typed { (c : Context) (f : Term) → IsForm c f → (ws : List Written) → AllByRecursion (IsTypedPut c) ws →
        IsForm c (term_changed f (written_changes ws)) }
{}
