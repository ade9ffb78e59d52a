//! Runs of well-typed programs.

ghost use Rattle.std.specs.Prelude.{◌≡◌, true, List, Some};
ghost use Rattle.gb_core.specs.declared.ty.Ty.{Ty};
ghost use Rattle.gb_core.specs.declared.value.Value.{Value};
ghost use Rattle.gb_core.specs.declared.var.Var.{Var};
ghost use Rattle.gb_dist.specs.WeightedList.{Every};
ghost use Rattle.gb_terms.specs.declared.decl.TypedName.{TypedName};
ghost use Rattle.gb_meaning.specs.Names.{Map};
ghost use Rattle.gb_meaning.specs.Values.{Types, has};
ghost use Rattle.gb_meaning.specs.Memory.{Memory, read, write, assigned};
ghost use Rattle.gb_meaning.specs.Program.{Program, Routine};
ghost use Rattle.gb_meaning.specs.Runs.{out, outcomes};
ghost use Rattle.gb_meaning.specs.Setting.{Setting};
ghost use Rattle.gb_meaning.specs.Meanings.{value_in};
ghost use Rattle.gb_meaning.specs.State.{State};
ghost use Rattle.gb_meaning.specs.Terms.{Speaks, quiet, val};
ghost use Rattle.gb_terms.specs.declared.term.Term.{Term};
ghost use Rattle.gb_laws.specs.Meant.{IsOf};
ghost use Rattle.gb_laws.specs.Typing.{Context, IsTyped};
ghost use Rattle.gb_meaning.specs.Written.{type_of, params_of};
ghost use Rattle.gb_laws.specs.Context.{IsSettingOf, IsStateOf, IsFractional};
ghost use Rattle.gb_laws.specs.Programs.{IsValued, closed_in, variable_type, Take, IsTypedProgram, IsTypedRoutine, HoldsGlobals, Holds, AreValuesOf, IsOutcome};

/// A well-typed expression of a program or a procedure, which reads neither logical variables nor what binders around bind,
/// has a meaning of its type in every state.
pub fn expressions()
    ensures meaning { (c : Context) (g : Setting) → IsSettingOf c g → (j : Speaks) → IsFractional j → (t : Term) → IsTyped (closed_in c) t →
        (s : State) → IsOf g.types (type_of t) (val g j t s) }
    ensures value { (c : Context) (g : Setting) → IsSettingOf c g → (t : Term) → IsValued (closed_in c) t → (s : State) →
        has g.types (type_of t) (value_in (val g quiet t s)) ≡ true }
{}

/// An assignment of a value of the type that the left side takes leaves a memory that holds values of the variables' types,
/// and the variable reads as it was written.
pub fn assignments()
    ensures held { (t : Types) (c : Context) (ls : List TypedName) (m : Memory) (xs : List Var) (ty : Ty) (v : Value) → Take c ls xs ty →
        has t ty v ≡ true → Holds t c ls m → Holds t c ls (assigned t m xs v) }
    ensures read_back { (t : Types) (c : Context) (ls : List TypedName) (m : Memory) (x : Var) (ty : Ty) (v : Value) →
        variable_type c ls x ≡ Some ty → has t ty v ≡ true → read t (write t m x v) x ty ≡ v }
{}

/// A well-typed program, run from a memory that holds values of the variables' types, ends in such memories.
pub fn programs()
    ensures { (g : Setting) (c : Context) → IsSettingOf c g → (s : State) → IsStateOf g.types c s → (ls : List TypedName) (p : Program) →
        IsTypedProgram c ls p → (m : Memory) → Holds g.types c ls m → Every (Holds g.types c ls) (out g s p m) }
{}

/// A well-typed procedure, from arguments of its parameters' types, has results of its type, and leaves globals with values
/// of theirs.
pub fn procedures()
    ensures { (g : Setting) (c : Context) → IsSettingOf c g → (r : Routine) → IsTypedRoutine c r → (vs : List Value) →
        AreValuesOf g.types (params_of r) vs → (globals : Map) → HoldsGlobals g.types c globals →
        Every (IsOutcome g.types c r) (outcomes g r vs globals) }
{}
