//! What the typing of forms gives.

ghost use Rattle.std.specs.Prelude.{◌≡◌, Bool, true, List, [], None, Option, Some};
ghost use Rattle.gb_core.specs.declared.place.Place.{Place};
ghost use Rattle.gb_core.specs.declared.ty.Ty.{Ty};
ghost use Rattle.gb_terms.specs.declared.decl.Module.{Module};
ghost use Rattle.gb_terms.specs.declared.decl.TypedName.{TypedName};
ghost use Rattle.gb_terms.specs.declared.term.Term.{Term};
ghost use Rattle.gb_script.specs.declared.head.Head.{Head};
ghost use Rattle.gb_script.specs.declared.tree.Node.{Node};
ghost use Rattle.gb_goal.specs.declared.sequent.Sequent.{Sequent};
ghost use Rattle.gb_goal.specs.Scope as scope;
ghost use Rattle.gb_goal.specs.Scope.{module_of};
ghost use Rattle.gb_meaning.specs.Names.{Name};
ghost use Rattle.gb_goal.specs.Answers.Answer.{given};
ghost use Rattle.gb_meaning.specs.Declared.{declared};
ghost use Rattle.gb_typing.specs.Programs.{HaveVariableTypes};
ghost use Rattle.gb_laws.specs.Typing.Binder.{value};
ghost use Rattle.gb_typing.specs.Context.{Context, of_program, procedure, within};
ghost use Rattle.gb_typing.specs.Modules.{interface_at};
ghost use Rattle.gb_typing.specs.Sequents.{of_sequent, two, IsTypedSequent};
ghost use Rattle.gb_typing.specs.Scopes.{context_of, in_module, procedure_types, IsTypedScope};
ghost use Rattle.gb_mods.specs.Meets.{Known};
ghost use Rattle.gb_names.specs.Allowed.{has_judgments};
ghost use Rattle.gb_names.specs.Judgments.{Named, called, named_procedure};
ghost use Rattle.gb_names.specs.Modules.{module_at};
ghost use Rattle.gb_names.specs.declared.bindings.Binding.{Binding};
ghost use Rattle.gb_names.specs.Environment.{Environment, of_function, program, statement};
ghost use Rattle.gb_elab.specs.Forms.{elaborated, function};
ghost use Rattle.gb_elab_prog.specs.Contexts.{nothing_around};
ghost use Rattle.gb_elab_laws.specs.Fitting.{IsFiniteIn, IsFormType, IsFormTypeIf, AreDeclared, AreIn, HasGlobals, MayStand, IsFitting, IsGiven, of_each_module, of_no_module};
ghost use Rattle.gb_elab_laws.specs.Known.{known_in};

/// In a context that fits the environment, what a form is elaborated to is a well-typed term of the wanted type, where this is one
/// that a form may have. Of all globals of a module together it speaks only where these may stand.
pub fn forms()
    ensures { (globs : Name → Bool) (t : Node) (c : Context) (at : Environment) (vs : List Binding) → IsFitting globs c at vs → (w : Option Ty) → IsFormTypeIf globs w →
        (u : Term) → elaborated t at vs w ≡ given u → IsGiven globs c at.language w u }
{}

/// What a function from a type of values to another type is elaborated to is a well-typed term of the other type, under a binder
/// of its argument.
pub fn functions()
    ensures { (globs : Name → Bool) (t : Node) (c : Context) (at : Environment) → IsFitting globs c at [] → (a b : Ty) → IsFiniteIn globs a → IsFormType globs b → (u : Term) →
        function t at a b ≡ given u → IsGiven globs (within c (value a) None) at.language (Some b) u }
{}

/// The contexts that fit the environments in which forms stand: that of a statement, in which the globals of the abstract modules that
/// are declared may stand together, and need no others; those of programs, where those of none may, where what is declared
/// stands and the globals of its module do, and those of the functions of a proof step, over some of the locals of its goal. A typed
/// scope stands in its context, with the globals of its modules.
pub fn environments()
    ensures statement { (globs : Name → Bool) (ds : scope.Declarations) → MayStand globs ds → IsTypedScope (declared ds) →
        IsFitting globs (of_sequent (context_of (declared ds)) nothing_around []) (statement ds nothing_around) [] }
    ensures names { (ds : scope.Declarations) → IsTypedScope (declared ds) → AreDeclared (context_of (declared ds)).operator ds }
    ensures globals { (ds : scope.Declarations) → IsTypedScope (declared ds) → (n : Name) (m : Module) → module_of ds n ≡ Some m →
        HasGlobals (context_of (declared ds)).global n m }
    ensures program { (c : Context) (ds : scope.Declarations) (m : Module) (ls : List TypedName) → AreDeclared c.operator ds →
        ((n : Name) (k : Module) → module_of ds n ≡ Some k → HasGlobals c.global n k) → HasGlobals c.global m.name m → HaveVariableTypes ls →
        IsFitting of_no_module (of_program c ls) (program ds m nothing_around ls) [] }
    ensures function { (ds : scope.Declarations) → IsTypedScope (declared ds) → (q : Sequent) (t : IsTypedSequent (context_of (declared ds)) q) →
        (ls rs xs ys : List TypedName) → AreIn of_each_module (Some ls) xs → AreIn of_each_module (Some rs) ys →
        IsFitting of_each_module (two (of_sequent (context_of (declared ds)) q t.frames) ls rs) (of_function ds q xs ys) [] }
{}

/// In the context of a typed scope, a module expression lacks and has what its typing says of it: the types of the modules that are
/// lacking, and the procedures with their types. So it does inside of a module that is typed so far, in the context of its next
/// procedure: there it may be made of the module's parameters, and of the module itself, with the procedures before.
pub fn module_expressions()
    ensures outside { (at : Environment) → IsTypedScope (declared at.declared) → at.inside ≡ None → (vs : List Binding) (t : Node) (k : Known) → module_at t at vs ≡ given k →
        interface_at (context_of (declared at.declared)).modules k.0 ≡ Some (known_in (context_of (declared at.declared)).modules k.1) }
    ensures inside { (at : Environment) → IsTypedScope (declared at.declared) → (m : Module) → at.inside ≡ Some m → (vs : List Binding) (t : Node) (k : Known) → module_at t at vs ≡ given k →
        interface_at (in_module (context_of (declared at.declared)) m (procedure_types m.procs)).modules k.0 ≡
        Some (known_in (in_module (context_of (declared at.declared)) m (procedure_types m.procs)).modules k.1) }
{}

/// In a context that fits the environment, where judgments may stand, a procedure that a judgment or a probability names is there, of the
/// type that it is taken to be of.
pub fn named_procedures()
    ensures judged { (globs : Name → Bool) (c : Context) (at : Environment) (vs : List Binding) → IsFitting globs c at vs → has_judgments at.language ≡ true →
        (h : Head) (ns : List Node) (p : Place) (n : Named) → named_procedure at vs h ns p ≡ given n → procedure c n.0 ≡ Some n.1 }
    ensures called { (globs : Name → Bool) (c : Context) (at : Environment) (vs : List Binding) → IsFitting globs c at vs → has_judgments at.language ≡ true →
        (h : Head) (ns : List Node) (p : Place) (n : Named) → called at vs h ns p ≡ given n → procedure c n.0 ≡ Some n.1 }
{}
