//! Laws of the forms that rules make.

ghost use Rattle.std.specs.Prelude.{◌≡◌, true, List, None, Some};
ghost use Rattle.std.specs.List.{AllByRecursion};
ghost use Rattle.gb_core.specs.declared.ty.Ty.{Ty};
ghost use Rattle.gb_core.specs.declared.value.Value.{Value};
ghost use Rattle.gb_core.specs.declared.var.Var.{Var};
ghost use Rattle.gb_terms.specs.declared.decl.TypedName.{TypedName};
ghost use Rattle.gb_terms.specs.declared.op.Side.{Side};
ghost use Rattle.gb_terms.specs.declared.op.Side.TheVariants.{Own};
ghost use Rattle.gb_terms.specs.declared.term.Term.{Term};
ghost use Rattle.gb_walk.specs.Change.{term_changed};
ghost use Rattle.gb_meaning.specs.Values.{has};
ghost use Rattle.gb_meaning.specs.Memory.{Memory, write};
ghost use Rattle.gb_meaning.specs.Runs.{valued};
ghost use Rattle.gb_meaning.specs.Setting.{Setting};
ghost use Rattle.gb_meaning.specs.Setting.Meaning.{finite};
ghost use Rattle.gb_meaning.specs.State.{State, at, between, inside, under, memory_of};
ghost use Rattle.gb_meaning.specs.State.Binding.{value as of_value};
ghost use Rattle.gb_meaning.specs.Terms.{Speaks, quiet, val};
ghost use Rattle.gb_meaning.specs.Judgments.{Judge, IsFair, speaking, den};
ghost use Rattle.gb_meaning.specs.Written.{type_of};
ghost use Rattle.gb_laws.specs.Uses.{IsWithin};
ghost use Rattle.gb_laws.specs.Written.{IsSide, Written, with_side, written_changes, all_written};
ghost use Rattle.gb_laws.specs.Programs.{variable_type};
ghost use Rattle.gb_laws.specs.Typing.Binder.{value};
ghost use Rattle.gb_typing.specs.Context.{Context, Frame, erased, frame_of, reframed, with_own, with_sides, within};
ghost use Rattle.gb_typing.specs.Typing.{IsTyped, IsForm};
ghost use Rattle.gb_typing.specs.Programs.{IsExpression, IsValued};
ghost use Rattle.gb_typing.specs.Changes.{Made};
ghost use Rattle.gb_typing.specs.Fits.{IsSettingOf, IsStateOf};
ghost use Rattle.gb_typing.specs.Puts.{Readable, reading, IsTypedPut, IsTypedWrite};
ghost use Rattle.gb_typing.specs.Rules.{outermost};
ghost use Rattle.gb_typing.specs.Forms.{located, replaced, every, every_pair, IsAlone};

/// In the context of a goal, a form for every memory in the place of the own one, or for every two in the place of both sides, is a
/// form without them. It is true where the form is true in each memory, left out as the quantifier may be.
pub fn every_memory()
    ensures one_typed { (c : Context) → c ≡ outermost c → (F : Frame) (ls : List TypedName) → F ≡ Some ls → (f : Term) → IsForm (with_own c F) f →
        IsForm c (every Own f) }
    ensures one { (c : Context) → c ≡ outermost c → (F : Frame) (ls : List TypedName) → F ≡ Some ls → (f : Term) → IsForm (with_own c F) f →
        (g : Setting) → IsSettingOf c g → (j : Judge) → IsFair g j → (s : State) → den g j (every Own f) s ≡ true → (m : Memory) →
        den g j f (at s m) ≡ true }
    ensures pair_typed { (c : Context) → c ≡ outermost c → (F G : Frame) (ls rs : List TypedName) → F ≡ Some ls → G ≡ Some rs → (f : Term) →
        IsForm (with_sides c F G) f → IsForm c (every_pair f) }
    ensures pair { (c : Context) → c ≡ outermost c → (F G : Frame) (ls rs : List TypedName) → F ≡ Some ls → G ≡ Some rs → (f : Term) →
        IsForm (with_sides c F G) f → (g : Setting) → IsSettingOf c g → (j : Judge) → IsFair g j → (s : State) →
        den g j (every_pair f) s ≡ true → (m n : Memory) → den g j f (between s m n) ≡ true }
{}

/// An expression of a program, read in a memory of a goal, is typed there, and has the value that it has in the program.
pub fn expressions()
    ensures typed { (c : Context) (ls : List TypedName) (e : Term) → IsExpression c ls e → (F L K : Frame) (r : Side) → IsSide r →
        frame_of (reframed c F L K) r ≡ Some ls → Made (reframed c F L K) (type_of e) (located r e) }
    ensures value { (c : Context) (ls : List TypedName) (e : Term) → IsExpression c ls e → (g : Setting) (j : Speaks) (s : State) (r : Side) → IsSide r →
        val g j (located r e) s ≡ val g quiet e (inside s (memory_of s r)) }
{}

/// A form with a program's expression in place of a variable of its own, in one memory, is typed, and says what the form says after
/// the assignment, where no other variable that the form may read there clashes with it.
pub fn assignments()
    ensures typed { (c : Context) (ls : List TypedName) (F L K : Frame) (r : Side) → IsSide r → frame_of (reframed c F L K) r ≡ Some ls →
        (x : Var) (e : Term) → IsValued c ls e → variable_type (erased c) ls x ≡ Some (type_of e) → (f : Term) → IsForm (reframed c F L K) f →
        IsForm (reframed c F L K) (replaced r x e f) }
    ensures meaning { (c : Context) (ls : List TypedName) (F L K : Frame) (r : Side) → IsSide r → frame_of (reframed c F L K) r ≡ Some ls →
        (x : Var) (e : Term) → IsValued c ls e → variable_type (erased c) ls x ≡ Some (type_of e) → (g : Setting) → IsSettingOf c g →
        (j : Judge) → IsFair g j → (P : Readable) → IsAlone g x (P r) → (f : Term) → IsForm (reframed c F L K) f → IsWithin (reading P) f →
        (s : State) → IsStateOf (reframed c F L K) g s →
        den g j (replaced r x e f) s ≡ den g j f (with_side s r (write g.types (memory_of s r) x (valued g s e (memory_of s r)))) }
{}

/// A form with typed terms in place of variables, which may speak of a value that is bound, is typed where the value is bound, and
/// says there what the form says after the writes.
pub fn bound_values()
    ensures typed { (c : Context) (F L K : Frame) (u : Ty) (f : Term) → IsTyped (reframed (outermost c) F L K) f → (ws : List Written) →
        AllByRecursion (IsTypedPut (within (reframed (outermost c) F L K) (value u) None)) ws →
        Made (within (reframed (outermost c) F L K) (value u) None) (type_of f) (term_changed f (written_changes ws)) }
    ensures meaning { (c : Context) (F L K : Frame) (u : Ty) (g : Setting) → IsSettingOf (reframed (outermost c) F L K) g → (s : State) →
        IsStateOf (reframed (outermost c) F L K) g s → (v : Value) → has g.types u v ≡ true → (j : Judge) → IsFair g j → (P : Readable) (f : Term) →
        IsTyped (reframed (outermost c) F L K) f → IsWithin (reading P) f → (ws : List Written) →
        AllByRecursion (IsTypedWrite P (within (reframed (outermost c) F L K) (value u) None) g (under s (of_value (finite v)))) ws →
        val g (speaking g j) (term_changed f (written_changes ws)) (under s (of_value (finite v))) ≡ val g (speaking g j) f (all_written g s ws) }
{}
