// Statements.

ghost use Rattle.std.specs.Prelude.{◌≡◌, [], ◌∷◌, ◌++◌, Some, IfOk};
ghost use Rattle.gb_core.specs.declared.ty.Ty.TheVariants.{Distr};
ghost use Rattle.gb_script.specs.Tree.{head_of, parts_of, place_of};
ghost use Rattle.gb_terms.specs.declared.op.Read.TheVariants.{Program};
ghost use Rattle.gb_terms.specs.declared.op.Side.TheVariants.{Own};
ghost use Rattle.gb_terms.specs.declared.term.Head.TheVariants.{Assign, Read};
ghost use Rattle.gb_terms.specs.Make.{node};
ghost use Rattle.gb_goal.specs.Answers.{Answers, Gives, ◌>>=◌ as ◌and_then◌};
ghost use Rattle.gb_goal.specs.Answers.Answer.{given};
ghost use Rattle.gb_names.specs.Environment.{environment, sampled};
ghost use Rattle.gb_elab.specs.Forms.{elaborated};
ghost use Rattle.gb_elab_stmt.specs.Targets.{pairs, type_of_all, variables_of};
ghost use Rattle.gb_elab_stmt.specs.Statements.{all_stated, alone, assignment, branching, called_to, counts_down, entry_stored, instruction, result_in, results_in, sampling, single, stated, stating, stored, stored_term, tuple_assignment, turning, variant, with_statings, written_to};

use crate::calls::call;
use crate::targets::{targets, type_of_all, variables_of};
use gb_core::copy::copy_var;
use gb_core::name::Name;
use gb_core::place::Place;
use gb_core::refusal::Refused;
use gb_core::ty::Ty;
use gb_core::{Shared, SharedItems};
use gb_elab::form::typed;
use gb_names::globals::Target;
use gb_names::names::{dotted, target};
use gb_names::refusals::{mismatch, not_built};
use gb_names::setting::Setting;
use gb_operators::kinds::entries;
use gb_operators::literals::place_inside;
use gb_script::head::Head;
use gb_script::tree::Node;
use gb_terms::make;
use gb_terms::op::{Op, Side};
use gb_terms::term::{Cmd, Head as TermHead, Instr, Instrs, Term};
use sqlite_items::Items;
use std::alloc::{AllocError, Global};
use std::slice::from_ref;

/// A sampling: the target is a variable of the procedure or a global, the source a distribution on its type.
#[tactic(auto, unfolding(crate::specs::Statements::sampling))]
fn sampling(
    alloc: Global,
    at: &Setting<'_>,
    name: &Name,
    from: &[Node],
    place: Place,
) -> Result<Instr, Refused>
    ensures { Answers (sampling (environment at.now) name.now from.now place) result }
{
    match from {
        [from] => {
            let Target { var, ty } = target(alloc, at, name, place)?;
            let from = source(alloc, at, from, &ty)?;
            Ok(Instr::Sample(var, from))
        }
        _ => Err(not_built(place)),
    }
}

/// The typed tree of a distribution on a type.
fn source(
    alloc: Global,
    at: &Setting<'_>,
    from: &Node,
    outcomes: &Shared<Ty>,
) -> Result<Term, Refused>
    ensures { Answers (elaborated from.now (sampled (environment at.now)) [] (Some (Distr outcomes.now))) result }
{
    let outcomes = outcomes.share()?;
    typed(alloc, &at.sampled(), &[], from, Some(&Ty::Distr(outcomes)))
}

/// An assignment to variables: the value is of the type of what they take together.
fn assigned(
    alloc: Global,
    at: &Setting<'_>,
    targets: &[Target],
    value: &Node,
) -> Result<Instr, Refused>
    ensures { Answers (elaborated value.now (environment at.now) [] (Some (type_of_all (pairs targets.now))) and_then λ e. given (Assign (variables_of (pairs targets.now)) e)) result }
{
    let ty = type_of_all(alloc, targets)?;
    let value = typed(alloc, at, &[], value, Some(ty.get()))?;
    let vars = variables_of(alloc, targets)?;
    Ok(Instr::Assign(vars, value))
}

/// An assignment: the target is a variable of the procedure or a global, the value of its type.
#[tactic(auto, unfolding(crate::specs::Statements::assignment))]
fn assignment(
    alloc: Global,
    at: &Setting<'_>,
    name: &Name,
    value: &[Node],
    place: Place,
) -> Result<Instr, Refused>
    ensures { Answers (assignment (environment at.now) name.now value.now place) result }
{
    match value {
        [value] => {
            let target = target(alloc, at, name, place)?;
            assigned(alloc, at, from_ref(&target), value)
        }
        _ => Err(not_built(place)),
    }
}

/// An assignment to several variables at once: the value is a tuple of their types.
#[tactic(auto, unfolding(crate::specs::Statements::tuple_assignment))]
fn tuple_assignment(
    alloc: Global,
    at: &Setting<'_>,
    paths: &[Node],
    value: &[Node],
    place: Place,
) -> Result<Instr, Refused>
    ensures { Answers (tuple_assignment (environment at.now) paths.now value.now place) result }
{
    match value {
        [value] => {
            let targets = targets(alloc, at, paths)?;
            assigned(alloc, at, targets.as_slice(), value)
        }
        _ => Err(not_built(place)),
    }
}

/// A call whose result these variables take.
fn called_to(
    alloc: Global,
    at: &Setting<'_>,
    targets: &[Target],
    calls: &[Node],
    place: Place,
) -> Result<Instr, Refused>
    ensures { Answers (called_to (environment at.now) (pairs targets.now) calls.now place) result }
{
    match calls {
        [c] => match c.parts.as_slice() {
            [first, rest @ ..] => call(alloc, at, targets, c.head, first, rest, c.place),
            [] => Err(not_built(c.place)),
        },
        _ => Err(not_built(place)),
    }
}

/// The result of a call is written to a variable of the procedure or a global.
#[tactic(auto, unfolding(crate::specs::Statements::result_in))]
fn result_in(
    alloc: Global,
    at: &Setting<'_>,
    name: &Name,
    calls: &[Node],
    place: Place,
) -> Result<Instr, Refused>
    ensures { Answers (result_in (environment at.now) name.now calls.now place) result }
{
    let target = target(alloc, at, name, place)?;
    called_to(alloc, at, from_ref(&target), calls, place)
}

/// .. to several variables at once.
#[tactic(auto, unfolding(crate::specs::Statements::results_in))]
fn results_in(
    alloc: Global,
    at: &Setting<'_>,
    paths: &[Node],
    calls: &[Node],
    place: Place,
) -> Result<Instr, Refused>
    ensures { Answers (results_in (environment at.now) paths.now calls.now place) result }
{
    let targets = targets(alloc, at, paths)?;
    called_to(alloc, at, targets.as_slice(), calls, place)
}

/// What is written to several variables.
fn written_to(
    alloc: Global,
    at: &Setting<'_>,
    paths: &[Node],
    head: Head,
    parts: &[Node],
    place: Place,
) -> Result<Instr, Refused>
    ensures { Answers (written_to (environment at.now) paths.now head parts.now place) result }
{
    match head {
        Head::Assign => tuple_assignment(alloc, at, paths, parts, place),
        Head::AssignCall => results_in(alloc, at, paths, parts, place),
        _ => Err(not_built(place)),
    }
}

/// What a variable holds.
fn read(alloc: Global, target: &Target) -> Result<Term, AllocError>
    ensures { IfOk result (λ made. made ≡ node (Read (Program target.now.var Own)) [] target.now.ty) }
{
    let ty = target.ty.share()?;
    let var = copy_var(alloc, &target.var)?;
    make::variable(alloc, var, Side::Own, ty)
}

/// A map as a variable has it, with another value at a key.
fn stored_term(alloc: Global, target: &Target, key: Term, value: Term) -> Result<Term, AllocError>
    ensures { IfOk result (λ made. made ≡ stored_term (target.now.var, target.now.ty) key value) }
{
    let map = read(alloc, target)?;
    let args = Items::from_vec(vec![in alloc; map, key, value]?);
    let ty = target.ty.share()?;
    make::term(alloc, TermHead::Builtin(Op::Set), args, ty)
}

/// The entry at a key is written, of a map with these types of keys and values.
#[tactic(auto, unfolding(crate::specs::Statements::entry_stored))]
fn entry_stored(
    alloc: Global,
    at: &Setting<'_>,
    target: &Target,
    of_key: &Ty,
    of_value: &Ty,
    key: &Node,
    value: &Node,
) -> Result<Instr, Refused>
    ensures { Answers (entry_stored (environment at.now) (target.now.var, target.now.ty) (of_key.now, of_value.now) key.now value.now) result }
{
    let key = typed(alloc, at, &[], key, Some(of_key))?;
    let value = typed(alloc, at, &[], value, Some(of_value))?;
    let made = stored_term(alloc, target, key, value)?;
    let vars = variables_of(alloc, from_ref(target))?;
    Ok(Instr::Assign(vars, made))
}

/// An entry of a map is written: the map becomes the one with this value at this key.
#[tactic(auto, unfolding(crate::specs::Statements::stored))]
fn stored(
    alloc: Global,
    at: &Setting<'_>,
    name: &Name,
    written: &[Node],
    place: Place,
) -> Result<Instr, Refused>
    ensures { Answers (stored (environment at.now) name.now written.now place) result }
{
    match written {
        [key, value] => {
            let target = target(alloc, at, name, place)?;
            let Some((of_key, of_value)) = entries(target.ty.get()) else {
                return Err(mismatch(place));
            };
            let (of_key, of_value) = (of_key.get(), of_value.get());
            entry_stored(alloc, at, &target, of_key, of_value, key, value)
        }
        _ => Err(not_built(place)),
    }
}

/// A statement without others in it, from its first part, which is the first word of its target or of the procedure that it calls, and the
/// others.
fn instruction(
    alloc: Global,
    at: &Setting<'_>,
    head: Head,
    first: &Node,
    rest: &[Node],
    place: Place,
) -> Result<Instr, Refused>
    ensures { Answers (instruction (environment at.now) head first.now rest.now place) result }
{
    let last = rest.len().saturating_sub(1);
    let (words, written) = (&rest[..last], &rest[last..]);
    match head {
        Head::Sample => sampling(
            alloc,
            at,
            &dotted(alloc, &first.text, words)?,
            written,
            place,
        ),
        Head::Assign => assignment(
            alloc,
            at,
            &dotted(alloc, &first.text, words)?,
            written,
            place,
        ),
        Head::Store => {
            let second = last.saturating_sub(1);
            let map = dotted(alloc, &first.text, &rest[..second])?;
            stored(alloc, at, &map, &rest[second..], place)
        }
        Head::AssignCall => result_in(
            alloc,
            at,
            &dotted(alloc, &first.text, words)?,
            written,
            place,
        ),
        Head::Call | Head::FunctorCall => call(alloc, at, &[], head, first, rest, place),
        Head::TupleStatement => match rest {
            [what] => {
                let (paths, parts) = (first.parts.as_slice(), what.parts.as_slice());
                written_to(alloc, at, paths, what.head, parts, place)
            }
            _ => Err(not_built(place)),
        },
        _ => Err(not_built(place)),
    }
}

/// The list of one statement.
fn one(alloc: Global, i: Instr) -> Result<Instrs, Refused>
    ensures { Answers (given (i ∷ [])) result }
{
    let mut list = Items::new(alloc);
    list.push(i)?;
    Ok(list)
}

/// One statement alone.
fn alone(
    alloc: Global,
    at: &Setting<'_>,
    head: Head,
    first: &Node,
    rest: &[Node],
    place: Place,
) -> Result<Instrs, Refused>
    ensures { Answers (alone (instruction (environment at.now) head first.now rest.now place)) result }
{
    let i = instruction(alloc, at, head, first, rest, place)?;
    one(alloc, i)
}

/// .. from its head and its parts.
fn single(
    alloc: Global,
    at: &Setting<'_>,
    head: Head,
    parts: &[Node],
    place: Place,
) -> Result<Instrs, Refused>
    ensures { Answers (single (environment at.now) head parts.now place) result }
{
    match parts {
        [first, rest @ ..] => alone(alloc, at, head, first, rest, place),
        [] => Err(not_built(place)),
    }
}

/// Whether a term has a type `int[n]`.
fn counts_down(variant: &Term) -> bool
    ensures { result ≡ counts_down variant.now }
{
    match variant.ty.get() {
        Ty::Mod(_) => true,
        _ => false,
    }
}

/// The variant of a loop, which stands before its statements.
#[tactic(auto, unfolding(crate::specs::Statements::variant))]
fn variant(alloc: Global, at: &Setting<'_>, parts: &[Node], place: Place) -> Result<Term, Refused>
    ensures { Answers (variant (environment at.now) parts.now place) result }
{
    match parts {
        [first, ..] => {
            let made = typed(alloc, at, &[], first, None)?;
            if counts_down(&made) {
                Ok(made)
            } else {
                Err(mismatch(place_inside(first)))
            }
        }
        [] => Err(not_built(place)),
    }
}

/// A statement alone of which the first word stands apart from what is behind it.
fn named(alloc: Global, at: &Setting<'_>, word: &Node, tail: &Node) -> Result<Instrs, Refused>
    ensures { Answers (alone (instruction (environment at.now) (head_of tail.now) word.now (parts_of tail.now) (place_of word.now))) result }
{
    alone(
        alloc,
        at,
        tail.head,
        word,
        tail.parts.as_slice(),
        word.place,
    )
}

/// Statements and others behind them.
fn joined(first: Instrs, more: Instrs) -> Result<Instrs, AllocError>
    ensures { IfOk result (λ made. made ≡ first ++ more) }
{
    let mut all = first;
    all.append(more)?;
    Ok(all)
}

/// The typed trees of a statement, or of those of a block.
#[cycle(statements)]
#[tactic(auto, using(crate::proofs::Stated::stated_is))]
fn stated(alloc: Global, at: &Setting<'_>, tree: &Node) -> Result<Instrs, Refused>
    ensures { Answers (stated tree.now (environment at.now)) result }
{
    stating(alloc, at, tree.head, tree.parts.as_slice(), tree.place)
}

/// .. from its head, its parts and its place.
#[cycle(statements)]
#[tactic(auto, using(crate::proofs::Stated::bare_is, crate::proofs::Stated::branching_is))]
fn stating(
    alloc: Global,
    at: &Setting<'_>,
    head: Head,
    parts: &[Node],
    place: Place,
) -> Result<Instrs, Refused>
    ensures { Answers (stating head (with_statings parts.now) place (environment at.now)) result }
{
    match head {
        Head::If => match parts {
            [test, sides @ ..] => branch(alloc, at, sides, test, place),
            [] => Err(not_built(place)),
        },
        Head::While => match parts {
            [guard, rest] => turning(alloc, at, rest, guard),
            _ => Err(not_built(place)),
        },
        Head::Loop => match parts {
            [_, list @ ..] => all_stated(alloc, at, list),
            [] => Err(not_built(place)),
        },
        Head::NamedLoop => match parts {
            [_, word, tail, list @ ..] => {
                let first = named(alloc, at, word, tail)?;
                let more = all_stated(alloc, at, list)?;
                Ok(joined(first, more)?)
            }
            _ => Err(not_built(place)),
        },
        Head::List => all_stated(alloc, at, parts),
        _ => single(alloc, at, head, parts, place),
    }
}

/// The statements of a side of a branch, or of a loop.
#[cycle(statements)]
fn block(alloc: Global, at: &Setting<'_>, tree: &Node) -> Result<Cmd, Refused>
    ensures { Gives (λ c. c.list) (stated tree.now (environment at.now)) result }
{
    let list = stated(alloc, at, tree)?;
    let list = SharedItems::new(alloc, list)?;
    Ok(Cmd { list })
}

/// A branch, by the trees of its sides, and its test.
#[cycle(statements)]
fn branch(
    alloc: Global,
    at: &Setting<'_>,
    sides: &[Node],
    test: &Node,
    place: Place,
) -> Result<Instrs, Refused>
    ensures { Answers (branching (environment at.now) test.now (with_statings sides.now) place) result }
{
    match sides {
        [yes, no] => {
            let test = typed(alloc, at, &[], test, Some(&Ty::Bool))?;
            let yes = block(alloc, at, yes)?;
            let no = block(alloc, at, no)?;
            one(alloc, Instr::If(test, yes, no))
        }
        _ => Err(not_built(place)),
    }
}

/// A loop, by the tree of its variant and its statements, and its guard.
#[cycle(statements)]
fn turning(alloc: Global, at: &Setting<'_>, rest: &Node, guard: &Node) -> Result<Instrs, Refused>
    ensures { Answers (turning (environment at.now) guard.now rest.now (stated rest.now)) result }
{
    let guard = typed(alloc, at, &[], guard, Some(&Ty::Bool))?;
    let variant = variant(alloc, at, rest.parts.as_slice(), rest.place)?;
    let turn = block(alloc, at, rest)?;
    one(alloc, Instr::While(guard, variant, turn))
}

/// The typed trees of statements one after another.
#[cycle(statements)]
fn all_stated(alloc: Global, at: &Setting<'_>, trees: &[Node]) -> Result<Instrs, Refused>
    ensures { Answers (all_stated (with_statings trees.now) (environment at.now)) result }
{
    let mut list = Items::new(alloc);
    for tree in trees {
        let more = stated(alloc, at, tree)?;
        list.append(more)?;
    }
    Ok(list)
}

/// The typed tree of a body.
///
/// # Errors
///
/// Of the first statement that has one: `UnknownName` and `Argument` of a target that is no variable of the procedure, those of its
/// forms, and `Syntax` where it isn't built.
pub fn body(alloc: Global, at: &Setting<'_>, statements: &[Node]) -> Result<Cmd, Refused>
    ensures { Gives (λ c. c.list) (all_stated (with_statings statements.now) (environment at.now)) result }
{
    let list = all_stated(alloc, at, statements)?;
    let list = SharedItems::new(alloc, list)?;
    Ok(Cmd { list })
}
