//! Module expressions: the modules that they are, and what is known of these.

ghost use Rattle.std.specs.Prelude.{◌≡◌, ◌∷◌, IfOk, MatchResult};
ghost use Rattle.std.specs.Option.{option_copied};
ghost use Rattle.gb_script.specs.Tree.{head_of, place_of};
ghost use Rattle.gb_goal.specs.Answers.{Answers, Fails, Gives};
ghost use Rattle.gb_goal.specs.Answers.Answer.{given as of_answer};
ghost use Rattle.gb_goal.specs.Seen.{seen};
ghost use Rattle.gb_mods.specs.Meets.{known_seen};
ghost use Rattle.gb_names.specs.Environment.{environment};
ghost use Rattle.gb_names.specs.Modules.{all_given, applied, bracketed, complete, expression, fitting, given_seen, module_at, named_module, names, next_given, with_given, with_modules, with_readings};

use crate::bindings::Binding;
use crate::ended::check_ended;
use crate::globals::no_declared;
use crate::names::{hidden, path, spelled};
use crate::refusals::argument;
use crate::setting::Setting;
use gb_core::name::Name;
use gb_core::place::Place;
use gb_core::refusal::Refused;
use gb_goal::instance::given_more;
use gb_goal::interface::{Interface, Procedures, interface_of};
use gb_mods::meets::{Known, meets_named};
use gb_script::head::Head;
use gb_script::tree::Node;
use gb_terms::decl::Param;
use gb_terms::module::{Mexp, Mexps};
use sqlite_items::Items;
use std::alloc::{AllocError, Global};

/// What is known of the module of this name, where nothing nearer has it. Its loops are proved to end, and those of all that it names,
/// unless a program names it.
#[tactic(auto, unfolding(crate::specs::Modules::named_module, crate::specs::Modules::known_module))]
fn named_module<'a>(
    alloc: Global,
    at: &Setting<'a>,
    bound: &[Binding],
    name: &Name,
    place: Place,
) -> Result<Interface<'a>, Refused>
    ensures { Gives seen (named_module (environment at.now) bound.now name.now place) result }
{
    if hidden(at, bound, name) {
        return Err(argument(place));
    }
    match interface_of(at.scope, at.inside, name) {
        Some(found) => {
            check_ended(alloc, at, name, place)?;
            Ok(found)
        }
        None => Err(no_declared(alloc, at.inside, at.scope, name, place)),
    }
}

/// Modules that are given for parameters, and the parameters that are left.
pub struct Given<'a> {
    pub modules: Mexps,
    pub left: &'a [Param],
}

impl<'a> Drop for Given<'a> {
    fn drop(self) {
        let Given { modules, left: _ } = self;
        drop(modules);
    }
}

impl<'a> Given<'a> {
    /// The module of this name with these modules for its parameters.
    fn of(
        self,
        alloc: Global,
        name: &Name,
        interface: Interface<'a>,
    ) -> Result<Known<'a>, AllocError>
        ensures { IfOk result (λ made. known_seen made ≡ with_given name.now (seen interface.entry) (given_seen self.entry)) }
    {
        let Given { modules, left } = self;
        let plain = Mexp::Name(name.copy(alloc)?);
        let module = given_more(alloc, &plain, modules)?;
        let interface = Interface {
            lacks: left,
            procedures: interface.procedures,
        };
        Ok(Known { module, interface })
    }
}

/// A module that is given for a parameter, of whose module type it is.
fn fitting(
    alloc: Global,
    at: &Setting<'_>,
    param: &Param,
    known: Known<'_>,
    place: Place,
) -> Result<Mexp, Refused>
    ensures { Answers (fitting (environment at.now) param.now (known_seen known.entry) place) result }
{
    meets_named(alloc, at.scope, at.inside, &known, &param.ty, place)?;
    Ok(known.module)
}

/// Gives a module for the first parameter that is left.
#[cycle(expressions)]
pub fn give(
    alloc: Global,
    at: &Setting<'_>,
    bound: &[Binding],
    given: &mut Given<'_>,
    tree: &Node,
) -> Result<(), Refused>
    ensures { MatchResult result
        (λ _. next_given (environment at.now) bound.now given.old.modules given.old.left.now (tree.now, module_at tree.now) ≡ of_answer (given_seen given.new))
        (λ e. Fails (next_given (environment at.now) bound.now given.old.modules given.old.left.now (tree.now, module_at tree.now)) e) }
{
    let left = given.left;
    let [param, more @ ..] = left else {
        return Err(argument(tree.place));
    };
    let known = module_at(alloc, at, bound, tree)?;
    let module = fitting(alloc, at, param, known, tree.place)?;
    given.modules.push(module)?;
    given.left = more;
    Ok(())
}

/// The module of this name with these arguments.
///
/// # Errors
///
/// At the name `UnknownName` where nothing has it, `Argument` where another thing has it, and `UnprovedLoop` with the first procedure whose
/// loops aren't proved, of the module or one that it names, unless a program names it. Then from left to right those of the arguments, each
/// of which is to meet the module type of its parameter, and `Argument` at the first one too many.
#[cycle(expressions)]
#[tactic(auto, unfolding(crate::specs::Modules::applied, crate::specs::Modules::all_given))]
pub fn applied<'a>(
    alloc: Global,
    at: &Setting<'a>,
    bound: &[Binding],
    name: &Name,
    place: Place,
    arguments: &[Node],
) -> Result<Known<'a>, Refused>
    ensures { Gives known_seen (applied name.now place (with_modules arguments.now) (environment at.now) bound.now) result }
{
    let interface = named_module(alloc, at, bound, name, place)?;
    let mut given = Given {
        modules: Items::new(alloc),
        left: interface.lacks,
    };
    for tree in arguments {
        give(alloc, at, bound, &mut given, tree)?;
    }
    Ok(given.of(alloc, name, interface)?)
}

/// The same, where the first argument stands apart.
#[tactic(auto, unfolding(crate::specs::Modules::applied, crate::specs::Modules::all_given))]
pub fn applied_to<'a>(
    alloc: Global,
    at: &Setting<'a>,
    bound: &[Binding],
    name: &Name,
    place: Place,
    first: &Node,
    more: &[Node],
) -> Result<Known<'a>, Refused>
    ensures { Gives known_seen (applied name.now place (with_modules (first.now ∷ more.now)) (environment at.now) bound.now) result }
{
    let interface = named_module(alloc, at, bound, name, place)?;
    let mut given = Given {
        modules: Items::new(alloc),
        left: interface.lacks,
    };
    give(alloc, at, bound, &mut given, first)?;
    for tree in more {
        give(alloc, at, bound, &mut given, tree)?;
    }
    Ok(given.of(alloc, name, interface)?)
}

/// Whether a name stands there.
fn names(head: Head) -> bool
    ensures { result ≡ names head }
{
    match head {
        Head::Name | Head::Path => true,
        _ => false,
    }
}

/// The module of this name with what stands behind it, which is to stand in brackets.
#[cycle(expressions)]
fn bracketed<'a>(
    alloc: Global,
    at: &Setting<'a>,
    bound: &[Binding],
    name: &Name,
    place: Place,
    head: Head,
    arguments: &[Node],
) -> Result<Known<'a>, Refused>
    ensures { Gives known_seen (bracketed name.now head (with_modules arguments.now) place (environment at.now) bound.now) result }
{
    match head {
        Head::Bracketed | Head::Tuple => applied(alloc, at, bound, name, place, arguments),
        _ => Err(argument(place)),
    }
}

/// The module that a part of a text is: a module expression, or a form that is spelled as one.
///
/// # Errors
///
/// Those of `applied`, and `Argument` of any other form.
#[cycle(expressions)]
#[tactic(auto, using(crate::proofs::Expressions::module_is))]
pub fn module_at<'a>(
    alloc: Global,
    at: &Setting<'a>,
    bound: &[Binding],
    tree: &Node,
) -> Result<Known<'a>, Refused>
    ensures { Gives known_seen (module_at tree.now (environment at.now) bound.now) result }
{
    expression(
        alloc,
        at,
        bound,
        tree.head,
        &tree.text,
        tree.parts.as_slice(),
        tree.place,
    )
}

/// The same, from its head, its text, its parts and its place.
#[cycle(expressions)]
#[tactic(auto, unfolding(crate::specs::Modules::expression), using(crate::proofs::Expressions::parts_read, crate::proofs::Expressions::wholes_read, crate::proofs::Expressions::words_read))]
fn expression<'a>(
    alloc: Global,
    at: &Setting<'a>,
    bound: &[Binding],
    head: Head,
    text: &Name,
    parts: &[Node],
    place: Place,
) -> Result<Known<'a>, Refused>
    ensures { Gives known_seen (expression head text.now (with_readings parts.now) place (environment at.now) bound.now) result }
{
    match head {
        Head::Name => applied(alloc, at, bound, text, place, &[]),
        Head::Path => {
            let name = path(alloc, parts)?;
            applied(alloc, at, bound, &name, place, &[])
        }
        Head::ModuleExpression => match parts {
            [first, arguments @ ..] => {
                let name = spelled(alloc, first)?;
                applied(alloc, at, bound, &name, first.place, arguments)
            }
            [] => Err(argument(place)),
        },
        Head::Apply => match parts {
            [first, behind] if names(first.head) => {
                let name = spelled(alloc, first)?;
                let arguments = behind.parts.as_slice();
                bracketed(alloc, at, bound, &name, place, behind.head, arguments)
            }
            _ => Err(argument(place)),
        },
        _ => Err(argument(place)),
    }
}

/// A module that lacks nothing.
pub fn complete(known: Known<'_>, place: Place) -> Result<Mexp, Refused>
    ensures { Answers (complete (known_seen known.entry) place) result }
{
    if known.interface.lacks.is_empty() {
        Ok(known.module)
    } else {
        Err(argument(place))
    }
}
