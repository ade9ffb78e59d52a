//! Statements with modules put in are typed.

ghost use Rattle.std.specs.Prelude.{◌≡◌, ◌++◌, true, List, Some};
ghost use Rattle.gb_terms.specs.declared.decl.Param.{Param};
ghost use Rattle.gb_terms.specs.declared.module.Bind.{Bind};
ghost use Rattle.gb_terms.specs.declared.module.Mexp.{Mexp};
ghost use Rattle.gb_terms.specs.declared.module.ProcRef.{ProcRef};
ghost use Rattle.gb_terms.specs.declared.term.Term.{Term};
ghost use Rattle.gb_goal.specs.Instances.{put_in_reference, stands_for};
ghost use Rattle.gb_goal.specs.Scope as scope;
ghost use Rattle.gb_meaning.specs.Declared.{Declarations};
ghost use Rattle.gb_meaning.specs.Written.{type_of};
ghost use Rattle.gb_typing.specs.Context.{Context, procedure};
ghost use Rattle.gb_typing.specs.Modules.{ProcedureType};
ghost use Rattle.gb_typing.specs.Scopes.{IsTypedScope, context_of};
ghost use Rattle.gb_typing.specs.Sequents.{AreBinders, with_modules};
ghost use Rattle.gb_typing.specs.Typing.{IsTyped};
ghost use Rattle.gb_arguments.specs.Arguments.{AreFit, given_for};
ghost use Rattle.gb_arguments.specs.Led.{AreNamedAs, IsLed, MayStand, led};
ghost use Rattle.gb_instances.specs.Put.{name_put, put};

/// A typed form stays typed where modules are put in for names, in a context that has what these stand for, if the form reads all globals of
/// those modules alone that may be read as a whole there, but for equations that become typed ones.
pub fn typed_forms()
    ensures { (ds : scope.Declarations) (ps : List Param) (es : List Mexp) (d e : Context) → IsLed ps es (λ a. e.has_globals (name_put ps es a) ≡ true) d e → (t : Term) → IsTyped d t →
        MayStand ds (stands_for ps es) e (λ a. e.has_globals (name_put ps es a) ≡ true) t → IsTyped e (put ds ps es t) × (type_of (put ds ps es t) ≡ led ps es (type_of t)) }
{}

/// Module expressions over all declarations fit the modules that a statement over the first ones binds, and their procedures' parameters have the
/// names that the binders' types give them. Then each procedure that has a type has the same one where the expressions are put in.
pub fn typed_procedures()
    ensures { (before later : Declarations) → IsTypedScope (before ++ later) → (bs : List Bind) → AreBinders (context_of before) bs → (es : List Mexp) → AreFit (context_of (before ++ later)) bs es →
        AreNamedAs (context_of (before ++ later)) bs es → (r : ProcRef) (t : ProcedureType) → procedure (with_modules (context_of before) bs) r ≡ Some t →
        procedure (context_of (before ++ later)) (put_in_reference (given_for bs es) r) ≡ Some t }
{}
