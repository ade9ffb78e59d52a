// The statement of a lemma.

ghost use Rattle.std.specs.Prelude.{◌≡◌, [], Some, None, Err, IfOk, OnOk};
ghost use Rattle.gb_core.specs.declared.place.Place.{Place};
ghost use Rattle.gb_core.specs.declared.refusal.Refused.TheVariants.{Script};
ghost use Rattle.gb_core.specs.declared.refusal.Why.{Why};
ghost use Rattle.gb_script.specs.Tree.{text_of};
ghost use Rattle.gb_goal.specs.Binders.{binder_entries};
ghost use Rattle.gb_goal.specs.Scope.{AreNew, entry_of};
ghost use Rattle.gb_goal.specs.Answers.{Answers};
ghost use Rattle.gb_elab_mod.specs.Lemmas.{claimed, lemma_name, stated, statement_given};

use gb_core::SharedItems;
use gb_core::refusal::Refused;
use gb_core::ty::Ty;
use gb_elab::form::typed;
use gb_elab_prog::context::{Bound, all_bound, context_of};
use gb_elab_prog::fresh::refuse_declared;
use gb_elab_prog::sizes::small;
use gb_goal::binders::binder_entries;
use gb_goal::scope::Scope;
use gb_goal::sequent::Sequent;
use gb_names::refusals::not_built;
use gb_names::setting::Setting;
use gb_script::head::Head;
use gb_script::tree::Node;
use std::alloc::Global;

/// The goal that a lemma states: its statement, in the context that its binders make. While the statement is typed, the modules that are
/// bound are declared, and then the scope is as it was; where memory ran out nothing is said of it.
///
/// # Errors
///
/// `DoubleName` at the lemma's name where it is taken; those of its binders; those of typing with the wanted type `bool`, and
/// `TooMany` of the nodes of a formula, whose place is for the caller to put in.
pub fn statement(alloc: Global, scope: &mut Scope, tree: &Node) -> Result<Sequent, Refused>
    ensures answer { Answers (statement_given scope.old tree.now) result }
    ensures free { OnOk result (entry_of scope.old (lemma_name tree.now) ≡ None) }
    ensures new { IfOk result (λ q. AreNew scope.old (binder_entries q.modules)) }
    ensures kept { OnOk result (scope.new ≡ scope.old) }
    ensures refused { (why : Why) (place : Place) → result ≡ Err (Script why place) → scope.new ≡ scope.old }
{
    match tree.head {
        Head::Lemma => match tree.parts.as_slice() {
            [name, binders, form] => stated(alloc, scope, name, binders.parts.as_slice(), form),
            _ => Err(not_built(tree.place)),
        },
        _ => Err(not_built(tree.place)),
    }
}

/// The same of a lemma of this name, these binders and this form.
#[tactic(auto, unfolding(crate::specs::Lemmas::stated))]
fn stated(
    alloc: Global,
    scope: &mut Scope,
    name: &Node,
    binders: &[Node],
    form: &Node,
) -> Result<Sequent, Refused>
    ensures answer { Answers (stated scope.old name.now binders.now form.now) result }
    ensures free { OnOk result (entry_of scope.old (text_of name.now) ≡ None) }
    ensures new { IfOk result (λ q. AreNew scope.old (binder_entries q.modules)) }
    ensures kept { OnOk result (scope.new ≡ scope.old) }
    ensures refused { (why : Why) (place : Place) → result ≡ Err (Script why place) → scope.new ≡ scope.old }
{
    refuse_declared(alloc, scope, name)?;
    let bound = all_bound(alloc, scope, binders)?;
    let declared = scope.len();
    let modules = binder_entries(alloc, bound.modules.as_slice())?;
    scope.declare_all(alloc, modules)?;
    let statement = claimed(alloc, scope, bound, form);
    scope.truncate(declared);
    statement
}

/// A form in the context of what is bound, whose modules are declared.
#[tactic(auto, unfolding(crate::specs::Lemmas::claimed))]
fn claimed(alloc: Global, scope: &Scope, bound: Bound, form: &Node) -> Result<Sequent, Refused>
    ensures answer { Answers (claimed scope.now bound form.now) result }
    ensures modules { IfOk result (λ q. q.modules ≡ bound.modules) }
{
    let (around, modules) = context_of(alloc, bound)?;
    let at = Setting::statement(scope, &around);
    let conclusion = small(typed(alloc, &at, &[], form, Some(&Ty::Bool))?)?;
    drop(at);
    let modules = SharedItems::new(alloc, modules)?;
    let mut stated = around;
    stated.conclusion = conclusion;
    stated.modules = modules;
    Ok(stated)
}
