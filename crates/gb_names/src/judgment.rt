// The procedures that a judgment speaks of.

ghost use Rattle.std.specs.Prelude.{◌≡◌, ◌∷◌, IfOk};
ghost use Rattle.std.specs.Option.{option_copied};
ghost use Rattle.gb_terms.specs.Make.{node};
ghost use Rattle.gb_terms.specs.declared.term.Head.TheVariants.{Equiv, Proc as procedure};
ghost use Rattle.gb_script.specs.Tree.{head_of, text_of, parts_of, place_of};
ghost use Rattle.gb_goal.specs.Answers.{Answers, Gives};
ghost use Rattle.gb_names.specs.Environment.{environment};
ghost use Rattle.gb_goal.specs.Seen.{typed};
ghost use Rattle.gb_mods.specs.Meets.{known_seen};
ghost use Rattle.gb_names.specs.Judgments.{about_procedure, both_procedures, called, declared_module, equivalent, functor_procedure, named_procedure, named_seen, of_functor, one_procedure, procedure_at, procedure_by, procedure_called, procedure_of_module, procedure_path, result_of};
ghost use Rattle.gb_names.specs.Modules.{with_modules};

use crate::bindings::Binding;
use crate::globals::{no_declared, no_procedure_of};
use crate::modules::{applied, applied_to, complete};
use crate::names::{append, dotted};
use crate::refusals::{argument, not_built};
use crate::setting::Setting;
use gb_core::Shared;
use gb_core::name::Name;
use gb_core::place::Place;
use gb_core::refusal::Refused;
use gb_core::ty::Ty;
use gb_goal::interface::ProcedureType;
use gb_goal::scope::{Entry, Scope};
use gb_mods::meets::Known;
use gb_script::head::Head as NodeHead;
use gb_script::tree::Node;
use gb_terms::decl::{Module, Typed, TypedName};
use gb_terms::make;
use gb_terms::module::{Mexp, ProcRef};
use gb_terms::term::{Form, Head, Subject, Terms};
use sqlite_items::Items;
use std::alloc::{AllocError, Global};

/// The declared module of this name, all of whose parameters are given: it has none.
///
/// # Errors
///
/// `UnknownName` of a name that nothing has, `Argument` of another thing and of a module that lacks arguments.
pub fn declared_module<'a>(
    alloc: Global,
    inside: Option<&Module>,
    scope: &'a Scope,
    name: &Name,
    place: Place,
) -> Result<&'a Module, Refused>
    ensures { Gives (λ m. m.now) (declared_module (option_copied inside.entry) scope.now name.now place) result }
{
    match scope.entry(name) {
        None => Err(no_declared(alloc, inside, scope, name, place)),
        Some(Entry::Module(m)) => {
            if m.params.is_empty() {
                Ok(m)
            } else {
                Err(argument(place))
            }
        }
        Some(_) => Err(argument(place)),
    }
}

/// A procedure as a text names it: its module's name, of all words but the last, and the last word.
pub fn procedure_path<'t>(
    alloc: Global,
    first: &Name,
    second: &'t Node,
    more: &'t [Node],
) -> Result<(Name, &'t Node), AllocError>
    ensures { IfOk result (λ made. (made.0, made.1.now) ≡ procedure_path first.now second.now more.now) }
{
    let mut module = String::from_str(alloc, first.as_str())?;
    let mut procedure = second;
    for word in more {
        append(&mut module, &procedure.text)?;
        procedure = word;
    }
    Ok((Name::new(module), procedure))
}

/// A procedure that is named: as a term names it, and its types.
#[derive(Drop)]
pub struct Named<'a> {
    pub reference: Shared<ProcRef>,
    pub ty: ProcedureType<'a>,
}

/// The procedure of this name of a module as a term names it.
fn referred(alloc: Global, module: Mexp, name: &Name) -> Result<Shared<ProcRef>, AllocError>
    ensures { IfOk result (λ made. made ≡ record { «module» = «module»; name = name.now }) }
{
    let name = name.copy(alloc)?;
    Shared::new(alloc, ProcRef { module, name })
}

/// The procedure of this name that a module has, all of whose parameters are given.
#[tactic(auto, unfolding(crate::specs::Judgments::procedure_of_module))]
fn procedure_of_module<'a>(
    alloc: Global,
    at: &Setting<'_>,
    known: Known<'a>,
    name: &Node,
    place: Place,
) -> Result<Named<'a>, Refused>
    ensures { Gives named_seen (procedure_of_module (environment at.now) (known_seen known.entry) name.now place) result }
{
    let procedures = known.interface.procedures;
    let module = complete(known, place)?;
    match procedures.type_of(&name.text) {
        Some(ty) => {
            let reference = referred(alloc, module, &name.text)?;
            Ok(Named { reference, ty })
        }
        None => Err(no_procedure_of(alloc, at, &module, &name.text, name.place)),
    }
}

/// The procedure of a module of this name.
#[tactic(auto, unfolding(crate::specs::Judgments::procedure_at))]
fn procedure_at<'a>(
    alloc: Global,
    at: &Setting<'a>,
    bound: &[Binding],
    module: &Name,
    name: &Node,
    arguments: &[Node],
    place: Place,
) -> Result<Named<'a>, Refused>
    ensures { Gives named_seen (procedure_at (environment at.now) bound.now («module».now, name.now) (with_modules arguments.now) place) result }
{
    let known = applied(alloc, at, bound, module, place, arguments)?;
    procedure_of_module(alloc, at, known, name, place)
}

/// The procedure of a functor with arguments in brackets behind its path, of which the first stands apart.
///
/// # Errors
///
/// Those of `modules::applied`, `Argument` where modules aren't given for all parameters, `UnknownName` of a name that is that of nothing
/// of the module, and `Argument` of a global's.
#[tactic(auto, unfolding(crate::specs::Judgments::procedure_at))]
pub fn functor_procedure<'a>(
    alloc: Global,
    at: &Setting<'a>,
    bound: &[Binding],
    words: (&Node, &[Node]),
    arguments: (&Node, &[Node]),
    name: &Node,
    place: Place,
) -> Result<Named<'a>, Refused>
    ensures { Gives named_seen (functor_procedure (environment at.now) bound.now words.entry.0.now words.entry.1.now (arguments.entry.0.now ∷ arguments.entry.1.now) name.now place) result }
{
    let module = dotted(alloc, &words.0.text, words.1)?;
    let known = applied_to(alloc, at, bound, &module, place, arguments.0, arguments.1)?;
    procedure_of_module(alloc, at, known, name, place)
}

/// The same of parts that are the arguments, and the name of a procedure.
fn of_functor<'a>(
    alloc: Global,
    at: &Setting<'a>,
    bound: &[Binding],
    first: &Node,
    words: &[Node],
    parts: &[Node],
    place: Place,
) -> Result<Named<'a>, Refused>
    ensures { Gives named_seen (of_functor (environment at.now) bound.now first.now words.now parts.now place) result }
{
    match parts {
        [arguments, name] => {
            let module = dotted(alloc, &first.text, words)?;
            let arguments = arguments.parts.as_slice();
            procedure_at(alloc, at, bound, &module, name, arguments, place)
        }
        _ => Err(not_built(place)),
    }
}

/// The procedure that these parts name behind their first word, with arguments for its module or without.
///
/// # Errors
///
/// As `functor_procedure`.
pub fn procedure_by<'a>(
    alloc: Global,
    at: &Setting<'a>,
    bound: &[Binding],
    head: NodeHead,
    first: &Node,
    parts: &[Node],
    place: Place,
) -> Result<Named<'a>, Refused>
    ensures { Gives named_seen (procedure_by (environment at.now) bound.now head first.now parts.now place) result }
{
    match head {
        NodeHead::ProcedurePath => match parts {
            [second, more @ ..] => {
                let (module, name) = procedure_path(alloc, &first.text, second, more)?;
                procedure_at(alloc, at, bound, &module, name, &[], place)
            }
            [] => Err(not_built(place)),
        },
        NodeHead::FunctorPath => {
            let (words, named) = parts.split_at(parts.len().saturating_sub(2));
            of_functor(alloc, at, bound, first, words, named, place)
        }
        _ => Err(not_built(place)),
    }
}

/// The same by all parts.
pub fn named_procedure<'a>(
    alloc: Global,
    at: &Setting<'a>,
    bound: &[Binding],
    head: NodeHead,
    parts: &[Node],
    place: Place,
) -> Result<Named<'a>, Refused>
    ensures { Gives named_seen (named_procedure (environment at.now) bound.now head parts.now place) result }
{
    match parts {
        [first, more @ ..] => procedure_by(alloc, at, bound, head, first, more, place),
        [] => Err(not_built(place)),
    }
}

/// The procedure that a call names, by the first word and the other parts of the call, of which the last are its arguments.
///
/// # Errors
///
/// As `functor_procedure`.
pub fn procedure_called<'a>(
    alloc: Global,
    at: &Setting<'a>,
    bound: &[Binding],
    head: NodeHead,
    first: &Node,
    parts: &[Node],
    place: Place,
) -> Result<Named<'a>, Refused>
    ensures { Gives named_seen (procedure_called (environment at.now) bound.now head first.now parts.now place) result }
{
    let front = &parts[..parts.len().saturating_sub(1)];
    match head {
        NodeHead::Call => {
            procedure_by(
                alloc,
                at,
                bound,
                NodeHead::ProcedurePath,
                first,
                front,
                place,
            )
        }
        NodeHead::FunctorCall => {
            procedure_by(alloc, at, bound, NodeHead::FunctorPath, first, front, place)
        }
        _ => Err(not_built(place)),
    }
}

/// The same by all parts.
pub fn called<'a>(
    alloc: Global,
    at: &Setting<'a>,
    bound: &[Binding],
    call: &Node,
) -> Result<Named<'a>, Refused>
    ensures { Gives named_seen (called (environment at.now) bound.now (head_of call.now) (parts_of call.now) (place_of call.now)) result }
{
    match call.parts.as_slice() {
        [first, more @ ..] => {
            procedure_called(alloc, at, bound, call.head, first, more, call.place)
        }
        [] => Err(not_built(call.place)),
    }
}

/// The two procedures that a judgment is about.
pub struct Both<'a> {
    pub left: Named<'a>,
    pub right: Named<'a>,
}

impl<'a> Drop for Both<'a> {
    fn drop(self) {
        let Both { left, right } = self;
        drop(left);
        drop(right);
    }
}

/// Refuses a judgment about a body, which isn't built.
fn about_procedure(head: NodeHead, place: Place) -> Result<(), Refused>
    ensures { Answers (about_procedure head place) result }
{
    match head {
        NodeHead::Block => Err(not_built(place)),
        _ => Ok(()),
    }
}

/// The procedure that a judgment at this place is about.
///
/// # Errors
///
/// As `both_procedures`.
pub fn one_procedure<'a>(
    alloc: Global,
    at: &Setting<'a>,
    bound: &[Binding],
    f: &Node,
    place: Place,
) -> Result<Named<'a>, Refused>
    ensures { Gives named_seen (one_procedure (environment at.now) bound.now f.now place) result }
{
    about_procedure(f.head, place)?;
    named_procedure(alloc, at, bound, f.head, f.parts.as_slice(), f.place)
}

/// The two procedures that a judgment at this place is about.
///
/// # Errors
///
/// `Syntax` of a body, and those of `named_procedure`.
pub fn both_procedures<'a>(
    alloc: Global,
    at: &Setting<'a>,
    bound: &[Binding],
    f: &Node,
    g: &Node,
    place: Place,
) -> Result<Both<'a>, Refused>
    ensures { Gives (λ b. (named_seen b.left, named_seen b.right)) (both_procedures (environment at.now) bound.now f.now g.now place) result }
{
    about_procedure(f.head, place)?;
    about_procedure(g.head, place)?;
    let left = named_procedure(alloc, at, bound, f.head, f.parts.as_slice(), f.place)?;
    let right = named_procedure(alloc, at, bound, g.head, g.parts.as_slice(), g.place)?;
    Ok(Both { left, right })
}

/// The judgment that two procedures are equivalent from a precondition to a postcondition.
pub fn equiv(alloc: Global, both: &Both<'_>, pre: Form, post: Form) -> Result<Form, AllocError>
    ensures { IfOk result (λ made. made ≡ equivalent both.now.left.reference both.now.right.reference pre post) }
{
    let mut args = Items::new(alloc);
    args.push(pre)?;
    args.push(post)?;
    equiv_of(alloc, both, args)
}

/// The judgment of these arguments on two procedures.
fn equiv_of(alloc: Global, both: &Both<'_>, args: Terms) -> Result<Form, AllocError>
    ensures { IfOk result (λ made. made ≡ node (Equiv (procedure both.now.left.reference) (procedure both.now.right.reference)) args Ty.Bool) }
{
    let ty = make::truth_ty(alloc)?;
    let left = both.left.reference.share()?;
    let right = both.right.reference.share()?;
    let head = Head::Equiv(Subject::Proc(left), Subject::Proc(right));
    make::term(alloc, head, args, ty)
}

/// What a postcondition reads of a procedure: its result, under the name `res`.
pub fn result_of(alloc: Global, ty: ProcedureType<'_>) -> Result<Typed, AllocError>
    ensures { IfOk result (λ made. made ≡ result_of (typed ty.entry)) }
{
    let name = Name::from_str(alloc, "res")?;
    let ty = ty.result.share()?;
    let mut all = Items::new(alloc);
    all.push(TypedName { name, ty })?;
    Ok(all)
}
