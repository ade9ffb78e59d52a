//! Binders have programs within them, and `false` is no lemma.

ghost use Rattle.std.specs.Prelude.{◌≡◌, ℕ, List, []};
ghost use Rattle.gb_core.specs.declared.value.Value.{Value};
ghost use Rattle.gb_terms.specs.declared.module.Bind.{Bind};
ghost use Rattle.gb_meaning.specs.Names.{Name};
ghost use Rattle.gb_meaning.specs.Values.{World};
ghost use Rattle.gb_meaning.specs.Setting.{Meaning};
ghost use Rattle.gb_meaning.specs.Declared.{Declarations};
ghost use Rattle.gb_meaning.specs.Adversary.{type_named};
ghost use Rattle.gb_meaning.specs.Settings.{Table, Interpretation, with_program};
ghost use Rattle.gb_meaning.specs.Within.{IsWithin};
ghost use Rattle.gb_meaning.specs.Holds.{IsModel, interpretation, declared_modules, Holds};
ghost use Rattle.gb_elab_laws.specs.Idle.{idle, AreDistinct, HaveStoredTypes};
ghost use Rattle.gb_elab_laws.specs.Falsehood.{falsehood};

/// Each binder has a program within it, whatever its restriction and its bounds are: the one that touches nothing and
/// answers with first values. The signatures of its module type have names of their own, and types that variables may have.
pub fn idle_program()
    ensures { (ds : Declarations) (i : Interpretation) (b : Bind) →
        AreDistinct (type_named ds b.ty).signatures → HaveStoredTypes i.size (type_named ds b.ty).signatures →
        IsWithin ds (with_program i b (idle i.size (type_named ds b.ty))) b (idle i.size (type_named ds b.ty)) }
{}

/// Where the declarations have a model and no section is open, `false` doesn't hold.
pub fn false_is_no_lemma()
    ensures { (ds : Declarations) (w : World) (size : Name → ℕ) (table : Table) →
        IsModel ds (interpretation w size table) → declared_modules ds ≡ [] → ¬ (Holds ds falsehood) }
{}
