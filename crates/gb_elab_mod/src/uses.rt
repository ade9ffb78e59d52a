// The typing of hypotheses and lemmas that steps use, with their arguments.

ghost use Rattle.std.specs.Prelude.{◌≡◌, [], ◌∷◌, ◌+◌, map, IfOk};
ghost use Rattle.std.specs.Option.{option_copied};
ghost use Rattle.gb_terms.specs.declared.term.Term.{out-Term};
ghost use Rattle.gb_walk.specs.declared.change.Change.TheVariants.{OfBound};
ghost use Rattle.gb_walk.specs.Change.{term_changed};
ghost use Rattle.gb_goal.specs.Answers.{Answers, Gives, ◌>>=◌ as ◌and_then◌};
ghost use Rattle.gb_mods.specs.Meets.{known_seen};
ghost use Rattle.gb_instances.specs.Instance.{given_seen};
ghost use Rattle.gb_goal.specs.Answers.Answer.{given};
ghost use Rattle.gb_script.specs.Tree.{head_of, text_of, parts_of, place_of};
ghost use Rattle.gb_elab_mod.specs.Taken.{new_name};
ghost use Rattle.gb_elab_mod.specs.Uses.{about_all, about_memory, about_named, about_statement, about_value, all_hinted, hinted, hypothesis_named, hypothesis, inside, is_for_module, is_memory, is_module, lemma_named, memory_of, module_given, modules_given, name_of, other_arguments, other_binders, rest_of, said_about, said_by, said_of, said_of_all, said_of_memory, said_of_modules, said_on, said_plainly, said_with_modules, used, used_named, used_of, value_of};

use crate::conclusions::{check_new, is_taken};
use crate::multiples::no_such;
use crate::other_locals::reads_other_locals;
use gb_core::Shared;
use gb_core::name::Name;
use gb_core::place::Place;
use gb_core::refusal::Refused;
use gb_core::same::same_name;
use gb_core::ty::Ty;
use gb_elab::form::term;
use gb_goal::scope::{Binder, Scope};
use gb_goal::sequent::{Hyp, Sequent};
use gb_instances::instance::{Given, instance_of};
use gb_mods::meets::Known;
use gb_names::memories::memory_at;
use gb_names::modules::module_at;
use gb_names::names::path;
use gb_names::refusals::{argument, not_built};
use gb_names::setting::Setting;
use gb_script::head::Head as NodeHead;
use gb_script::tree::Node;
use gb_steps::step::{Rule, UseRule};
use gb_terms::decl::TypedName;
use gb_terms::make::{forall, leaf, over, truth_ty};
use gb_terms::op::{Read, Side};
use gb_terms::term::{Form, Head, Term, Terms};
use gb_walk::change::Change;
use gb_walk::walk::changed;
use sqlite_items::Items;
use std::alloc::{AllocError, Global};

/// The form of the hypothesis of this name.
fn hypothesis_named<'a>(hyps: &'a [Hyp], name: &Name) -> Option<&'a Form>
    ensures { option_copied result ≡ hypothesis_named hyps.now name.now }
{
    for h in hyps {
        if same_name(name, &h.name) {
            return Some(&h.form);
        }
    }
    None
}

/// Whether a tree names a memory.
pub fn is_memory(head: NodeHead) -> bool
    ensures { result ≡ is_memory head }
{
    matches!(head, NodeHead::Memory)
}

/// The term of an argument for a value of this type.
fn value_of(
    alloc: Global,
    scope: &Scope,
    goal: &Sequent,
    ty: &Ty,
    tree: &Node,
) -> Result<Term, Refused>
    ensures { Answers (value_of scope.now goal.now ty.now tree.now) result }
{
    if is_memory(tree.head) {
        return Err(argument(tree.place));
    }
    term(alloc, scope, goal, tree, Some(ty))
}

/// What the body of a `forall` over values of this type says of an argument.
fn said_of_value(
    alloc: Global,
    scope: &Scope,
    goal: &Sequent,
    ty: &Ty,
    body: &Form,
    tree: &Node,
) -> Result<Form, Refused>
    ensures { Answers (value_of scope.now goal.now ty.now tree.now and_then λ t. given (term_changed body.now (OfBound 0 t ∷ []))) result }
{
    let term = value_of(alloc, scope, goal, ty, tree)?;
    Ok(changed(alloc, body, &[Change::OfBound(0, term)])?)
}

/// The memory of the context that an argument names.
pub fn memory_of(alloc: Global, scope: &Scope, goal: &Sequent, tree: &Node) -> Result<Side, Refused>
    ensures { Answers (memory_of scope.now goal.now (head_of tree.now) (parts_of tree.now) (place_of tree.now)) result }
{
    match (tree.head, tree.parts.as_slice()) {
        (NodeHead::Memory, [name]) => {
            let at = Setting::ambient(scope, goal);
            memory_at(alloc, &at, &[], &name.text, name.place)
        }
        _ => Err(argument(tree.place)),
    }
}

/// What the body of a quantifier over memories says of a memory.
pub fn about_named(alloc: Global, form: &Form, memory: Side) -> Result<Form, AllocError>
    ensures { IfOk result (λ made. made ≡ about_named form.now memory) }
{
    changed(alloc, form, &[Change::ToSide(Side::Bound(0), memory)])
}

/// What the body of a `forall` over memories says of a memory. Where it reads locals there that the goal doesn't, this isn't built.
fn said_of_memory(
    alloc: Global,
    goal: &Sequent,
    body: &Form,
    memory: Side,
    place: Place,
) -> Result<Form, Refused>
    ensures { Answers (said_of_memory goal.now body.now memory place) result }
{
    let said = about_named(alloc, body, memory)?;
    if reads_other_locals(&said, alloc, false, goal, memory)? {
        return Err(not_built(place));
    }
    Ok(said)
}

/// What a form says of an argument: it is a `forall`.
fn said_of(
    alloc: Global,
    scope: &Scope,
    goal: &Sequent,
    form: &Form,
    tree: &Node,
) -> Result<Form, Refused>
    ensures { Answers (said_of scope.now goal.now (out-Term form.now).head (out-Term form.now).args tree.now) result }
{
    match (form.head.get(), form.args.as_slice()) {
        (Head::All(ty), [body]) => said_of_value(alloc, scope, goal, ty.get(), body, tree),
        (Head::AllMemory, [body]) => {
            let memory = memory_of(alloc, scope, goal, tree)?;
            said_of_memory(alloc, goal, body, memory, tree.place)
        }
        _ => Err(argument(tree.place)),
    }
}

/// What a form says of arguments, one after another.
#[tactic(auto, unfolding(crate::specs::Uses::said_of_all))]
fn said_of_all(
    alloc: Global,
    scope: &Scope,
    goal: &Sequent,
    form: Form,
    arguments: &[Node],
) -> Result<Form, Refused>
    ensures { Answers (said_of_all scope.now goal.now form arguments.now) result }
{
    let mut said = form;
    for argument in arguments {
        said = said_of(alloc, scope, goal, &said, argument)?;
    }
    Ok(said)
}

/// The name of what is used.
pub fn name_of(alloc: Global, tree: &Node) -> Result<Name, AllocError>
    ensures { IfOk result (λ name. name ≡ name_of (head_of tree.now) (text_of tree.now) (parts_of tree.now)) }
{
    match tree.head {
        NodeHead::Path => path(alloc, tree.parts.as_slice()),
        _ => tree.text.copy(alloc),
    }
}

/// What is said of a variable of the context, said of all values of its type.
fn about_value(
    alloc: Global,
    variable: u32,
    ty: &Shared<Ty>,
    form: &Form,
) -> Result<Form, AllocError>
    ensures { IfOk result (λ made. made ≡ about_value variable ty.now form.now) }
{
    let nearest = leaf(alloc, Head::Bound(0), ty.share()?)?;
    let body = changed(
        alloc,
        form,
        &[Change::ToTerm(Read::Logical(variable), nearest)],
    )?;
    forall(alloc, ty.share()?, body)
}

/// What is said of a memory of the context, said of all memories.
fn about_memory(alloc: Global, memory: u32, form: &Form) -> Result<Form, AllocError>
    ensures { IfOk result (λ made. made ≡ about_memory memory form.now) }
{
    let body = changed(
        alloc,
        form,
        &[Change::ToSide(Side::Memory(memory), Side::Bound(0))],
    )?;
    let ty = truth_ty(alloc)?;
    over(alloc, Head::AllMemory, body, ty)
}

/// The number of the next variable or memory. One that is too large doesn't fit in memory, and so counts as a want of it.
fn after(number: u32) -> Result<u32, AllocError>
    ensures { IfOk result (λ next. next ≡ number + 1) }
{
    number.checked_add(1).ok_or(AllocError)
}

/// What is said of the variables and memories of the context from these numbers on, said of all by a leading `forall` for each
/// binder. None where the binders aren't as many.
#[tactic(auto, unfolding(crate::specs::Uses::about_all))]
fn about_all(
    alloc: Global,
    binders: &[Binder],
    values: &[TypedName],
    memories: &[Name],
    variable: u32,
    memory: u32,
    form: &Form,
) -> Result<Option<Form>, AllocError>
    ensures { IfOk result (λ made. made ≡ about_all binders.now values.now memories.now variable memory form.now) }
{
    match (binders, values, memories) {
        ([], [], []) => Ok(Some(form.share()?)),
        ([Binder::Value, rest @ ..], [value, others @ ..], _) => {
            let next = after(variable)?;
            match about_all(alloc, rest, others, memories, next, memory, form)? {
                Some(body) => Ok(Some(about_value(alloc, variable, &value.ty, &body)?)),
                None => Ok(None),
            }
        }
        ([Binder::Memory, rest @ ..], _, [_, others @ ..]) => {
            let next = after(memory)?;
            match about_all(alloc, rest, values, others, variable, next, form)? {
                Some(body) => Ok(Some(about_memory(alloc, memory, &body)?)),
                None => Ok(None),
            }
        }
        _ => Ok(None),
    }
}

/// What a form with leading `forall`s for binders says of arguments: of one for each of them, and of further ones.
fn said_on(
    alloc: Global,
    scope: &Scope,
    goal: &Sequent,
    binders: &[Binder],
    arguments: &[Node],
    place: Place,
    form: Form,
) -> Result<Form, Refused>
    ensures { Answers (said_on scope.now goal.now binders.now arguments.now place form) result }
{
    if arguments.len() < binders.len() {
        return Err(argument(place));
    }
    said_of_all(alloc, scope, goal, form, arguments)
}

/// What a statement says, said of all that these binders are for.
fn about_statement(
    alloc: Global,
    binders: &[Binder],
    statement: &Sequent,
) -> Result<Option<Form>, AllocError>
    ensures { IfOk result (λ made. made ≡ about_statement binders.now statement.now) }
{
    let values = statement.logical.as_slice();
    let memories = statement.memories.as_slice();
    about_all(
        alloc,
        binders,
        values,
        memories,
        0,
        0,
        &statement.conclusion,
    )
}

/// What a statement that binds no modules says of arguments.
fn said_plainly(
    alloc: Global,
    scope: &Scope,
    goal: &Sequent,
    binders: &[Binder],
    lemma: &Sequent,
    arguments: &[Node],
    place: Place,
) -> Result<Form, Refused>
    ensures { Answers (said_plainly scope.now goal.now binders.now lemma.now arguments.now place) result }
{
    match about_statement(alloc, binders, lemma)? {
        Some(form) => said_on(alloc, scope, goal, binders, arguments, place, form),
        None => Err(not_built(place)),
    }
}

/// What stands in the brackets round a module expression, if there are any.
fn inside(tree: &Node) -> &Node
    ensures { result.now ≡ inside (head_of tree.now) (parts_of tree.now) tree.now }
{
    match (tree.head, tree.parts.as_slice()) {
        (NodeHead::Bracketed, [inner]) => inner,
        _ => tree,
    }
}

/// The module that an argument is.
fn module_given<'a>(
    alloc: Global,
    scope: &'a Scope,
    goal: &'a Sequent,
    tree: &Node,
) -> Result<Known<'a>, Refused>
    ensures { Gives known_seen (module_given scope.now goal.now tree.now) result }
{
    let at = Setting::ambient(scope, goal);
    module_at(alloc, &at, &[], inside(tree))
}

fn is_module(binder: Binder) -> bool
    ensures { result ≡ is_module binder }
{
    matches!(binder, Binder::Module)
}

/// The binders for values and memories.
fn other_binders(alloc: Global, binders: &[Binder]) -> Result<Items<Binder>, AllocError>
    ensures { IfOk result (λ made. made ≡ other_binders binders.now) }
{
    let mut all = Items::new(alloc);
    for binder in binders {
        if !is_module(*binder) {
            all.push(*binder)?;
        }
    }
    Ok(all)
}

/// Whether the next argument, where these binders are left, is for a module.
fn is_for_module(binders: &[Binder]) -> bool
    ensures { result ≡ is_for_module binders.now }
{
    match binders {
        [binder, ..] => is_module(*binder),
        [] => false,
    }
}

/// The binders that are left behind the next argument.
fn rest_of(binders: &[Binder]) -> &[Binder]
    ensures { result.now ≡ rest_of binders.now }
{
    match binders {
        [_, rest @ ..] => rest,
        [] => binders,
    }
}

/// The modules that arguments give for the binders of a statement, in order. The other arguments are looked at in their places, as those of
/// a form with leading `forall`s, which says the same of any modules.
#[tactic(auto, unfolding(crate::specs::Uses::modules_given))]
fn modules_given<'a>(
    alloc: Global,
    scope: &'a Scope,
    goal: &'a Sequent,
    binders: &[Binder],
    form: Form,
    arguments: &[Node],
) -> Result<Items<Given<'a>>, Refused>
    ensures { Gives (map given_seen) (modules_given scope.now goal.now binders.now form arguments.now) result }
{
    let mut all = Items::new(alloc);
    let mut said = form;
    let mut left = binders;
    for argument in arguments {
        if is_for_module(left) {
            let known = module_given(alloc, scope, goal, argument)?;
            let place = argument.place;
            all.push(Given { known, place })?;
        } else {
            said = said_of(alloc, scope, goal, &said, argument)?;
        }
        left = rest_of(left);
    }
    Ok(all)
}

/// What a form says of the arguments that aren't for modules, one after another.
#[tactic(auto, unfolding(crate::specs::Uses::said_of_all))]
fn said_of_others(
    alloc: Global,
    scope: &Scope,
    goal: &Sequent,
    binders: &[Binder],
    form: Form,
    arguments: &[Node],
) -> Result<Form, Refused>
    ensures { Answers (said_of_all scope.now goal.now form (other_arguments binders.now arguments.now)) result }
{
    let mut said = form;
    let mut left = binders;
    for argument in arguments {
        match left {
            [binder, rest @ ..] => {
                if !is_module(*binder) {
                    said = said_of(alloc, scope, goal, &said, argument)?;
                }
                left = rest;
            }
            [] => said = said_of(alloc, scope, goal, &said, argument)?,
        }
    }
    Ok(said)
}

/// What a statement says of modules that are given, and then of the other arguments.
fn said_of_modules(
    alloc: Global,
    scope: &Scope,
    goal: &Sequent,
    binders: &[Binder],
    lemma: &Sequent,
    arguments: &[Node],
    place: Place,
    given: &[Given<'_>],
) -> Result<Form, Refused>
    ensures { Answers (said_of_modules scope.now goal.now binders.now lemma.now arguments.now place (map given_seen given.now)) result }
{
    let instance = instance_of(alloc, scope, lemma, given, place)?;
    let others = other_binders(alloc, binders)?;
    match about_statement(alloc, others.as_slice(), &instance)? {
        Some(form) => said_of_others(alloc, scope, goal, binders, form, arguments),
        None => Err(not_built(place)),
    }
}

/// The same, where modules are among the arguments: what the statement says of all that its other binders are for.
fn said_about(
    alloc: Global,
    scope: &Scope,
    goal: &Sequent,
    binders: &[Binder],
    lemma: &Sequent,
    arguments: &[Node],
    place: Place,
    form: Form,
) -> Result<Form, Refused>
    ensures { Answers (said_about scope.now goal.now binders.now lemma.now arguments.now place form) result }
{
    if arguments.len() < binders.len() {
        return Err(argument(place));
    }
    let given = modules_given(alloc, scope, goal, binders, form, arguments)?;
    said_of_modules(
        alloc,
        scope,
        goal,
        binders,
        lemma,
        arguments,
        place,
        given.as_slice(),
    )
}

/// What a statement that binds modules says of arguments.
fn said_with_modules(
    alloc: Global,
    scope: &Scope,
    goal: &Sequent,
    binders: &[Binder],
    lemma: &Sequent,
    arguments: &[Node],
    place: Place,
) -> Result<Form, Refused>
    ensures { Answers (said_with_modules scope.now goal.now binders.now lemma.now arguments.now place) result }
{
    let others = other_binders(alloc, binders)?;
    match about_statement(alloc, others.as_slice(), lemma)? {
        Some(form) => said_about(alloc, scope, goal, binders, lemma, arguments, place, form),
        None => Err(not_built(place)),
    }
}

/// What a statement with these binders says of arguments.
fn said_by(
    alloc: Global,
    scope: &Scope,
    goal: &Sequent,
    binders: &[Binder],
    lemma: &Sequent,
    arguments: &[Node],
    place: Place,
) -> Result<Form, Refused>
    ensures { Answers (said_by scope.now goal.now binders.now lemma.now arguments.now place) result }
{
    match lemma.modules.as_slice() {
        [] => said_plainly(alloc, scope, goal, binders, lemma, arguments, place),
        _ => said_with_modules(alloc, scope, goal, binders, lemma, arguments, place),
    }
}

/// The lemma of a name that nothing of the context has.
fn lemma_named<'a>(scope: &'a Scope, goal: &Sequent, name: &Name) -> Option<&'a Sequent>
    ensures { option_copied result ≡ lemma_named scope.now goal.now name.now }
{
    if is_taken(goal, name) {
        None
    } else {
        scope.lemma(name)
    }
}

/// The hypothesis or the lemma of a name, and its arguments.
#[tactic(auto, unfolding(crate::specs::Uses::used_named))]
fn used_named(
    alloc: Global,
    scope: &Scope,
    goal: &Sequent,
    name: &Name,
    arguments: &[Node],
    place: Place,
) -> Result<Form, Refused>
    ensures { Answers (used_named scope.now goal.now name.now arguments.now place) result }
{
    if let Some(form) = hypothesis_named(goal.hyps.as_slice(), name) {
        let form = form.share()?;
        return said_of_all(alloc, scope, goal, form, arguments);
    }
    match lemma_named(scope, goal, name) {
        Some(lemma) => {
            let binders = scope.binders(name);
            said_by(alloc, scope, goal, binders, lemma, arguments, place)
        }
        None => Err(no_such(alloc, scope, goal, name, place)),
    }
}

/// A hypothesis or a lemma, and its arguments.
fn used_of(
    alloc: Global,
    scope: &Scope,
    goal: &Sequent,
    tree: &Node,
    arguments: &[Node],
) -> Result<Form, Refused>
    ensures { Answers (used_of scope.now goal.now tree.now arguments.now) result }
{
    let name = name_of(alloc, tree)?;
    used_named(alloc, scope, goal, &name, arguments, tree.place)
}

/// What a hypothesis or a lemma with its arguments says.
pub fn used(alloc: Global, scope: &Scope, goal: &Sequent, tree: &Node) -> Result<Form, Refused>
    ensures { Answers (used scope.now goal.now tree.now) result }
{
    match (tree.head, tree.parts.as_slice()) {
        (NodeHead::Apply, [name, arguments @ ..]) => {
            used_of(alloc, scope, goal, name, arguments)
        }
        _ => used_of(alloc, scope, goal, tree, &[]),
    }
}

/// The hypothesis of a name.
pub fn hypothesis(
    alloc: Global,
    scope: &Scope,
    goal: &Sequent,
    name: &Name,
    place: Place,
) -> Result<Form, Refused>
    ensures { Answers (hypothesis scope.now goal.now name.now place) result }
{
    match hypothesis_named(goal.hyps.as_slice(), name) {
        Some(form) => Ok(form.share()?),
        None => Err(no_such(alloc, scope, goal, name, place)),
    }
}

/// What `smt` is told to use: a hypothesis, or in brackets what a hypothesis or a lemma says of arguments.
fn hinted(alloc: Global, scope: &Scope, goal: &Sequent, tree: &Node) -> Result<Form, Refused>
    ensures { Answers (hinted scope.now goal.now tree.now) result }
{
    match (tree.head, tree.parts.as_slice()) {
        (NodeHead::LemmaHint, [lemma]) => used(alloc, scope, goal, lemma),
        _ => hypothesis(alloc, scope, goal, &tree.text, tree.place),
    }
}

/// All that `smt` is told to use.
fn all_hinted(
    alloc: Global,
    scope: &Scope,
    goal: &Sequent,
    trees: &[Node],
) -> Result<Terms, Refused>
    ensures { Answers (all_hinted scope.now goal.now trees.now) result }
{
    let mut out = Items::new(alloc);
    for tree in trees {
        out.push(hinted(alloc, scope, goal, tree)?)?;
    }
    Ok(out)
}

/// The rule of `smt` with all that it is told to use.
pub fn smt_rule(
    alloc: Global,
    scope: &Scope,
    goal: &Sequent,
    trees: &[Node],
) -> Result<Rule, Refused>
    ensures { Answers (all_hinted scope.now goal.now trees.now and_then λ fs. given (Rule.Smt fs)) result }
{
    let hints = all_hinted(alloc, scope, goal, trees)?;
    Ok(Rule::Smt(hints))
}

/// The rule that shows the premises under which a hypothesis or a lemma says the conclusion.
pub fn apply_rule(
    alloc: Global,
    scope: &Scope,
    goal: &Sequent,
    tree: &Node,
) -> Result<Rule, Refused>
    ensures { Answers (used scope.now goal.now tree.now and_then (λ f. given (Rule.Use (UseRule.Apply f)))) result }
{
    let form = used(alloc, scope, goal, tree)?;
    Ok(Rule::Use(UseRule::Apply(form)))
}

/// The rule by which what a hypothesis or a lemma says is a hypothesis of a new name.
pub fn keep_rule(
    alloc: Global,
    scope: &Scope,
    goal: &Sequent,
    name: &Node,
    tree: &Node,
) -> Result<Rule, Refused>
    ensures { Answers (new_name scope.now goal.now (text_of name.now) (place_of name.now) and_then (λ _. used scope.now goal.now tree.now and_then (λ f. given (Rule.Use (UseRule.Have (text_of name.now) f))))) result }
{
    check_new(alloc, scope, goal, &name.text, name.place)?;
    let form = used(alloc, scope, goal, tree)?;
    let name = name.text.copy(alloc)?;
    Ok(Rule::Use(UseRule::Have(name, form)))
}
