// Goals as rules see them.

ghost use Rattle.std.specs.Prelude.{◌≡◌, [], ◌∷◌, IfOk};
ghost use Rattle.gb_terms.specs.declared.term.Term.{out-Term};
ghost use Rattle.gb_goal.specs.Goal.{code_of, goal_of, form_of, judges_bodies};
ghost use Rattle.gb_goal.specs.Goal.Code.{body};
ghost use Rattle.gb_goal.specs.Goal.Goal.{hoare, phoare, equiv};
ghost use Rattle.gb_goal.specs.Views.{code_seen, goal_seen};

use gb_core::SharedItems;
use gb_core::ty::Ty;
use gb_terms::make::{term, truth_ty};
use gb_terms::module::ProcRef;
use gb_terms::op::Rel;
use gb_terms::term::{Cmd, Form, Head, Instr, Subject, Term, Terms};
use sqlite_items::Items;
use std::alloc::{AllocError, Global};

/// What a judgment speaks of.
#[derive(Clone, Copy)]
pub enum Code<'a> {
    Body(&'a [Instr]),
    Procedure(&'a ProcRef),
}

/// A goal: judgments with their precondition, their postcondition and their bound, or another form.
#[derive(Clone, Copy)]
pub enum Goal<'a> {
    Hoare(Code<'a>, &'a Form, &'a Form),
    Phoare(Code<'a>, Rel, &'a Form, &'a Form, &'a Term),
    Equiv(Code<'a>, Code<'a>, &'a Form, &'a Form),
    Ambient(&'a Form),
}

/// What a subject is.
fn code_of(subject: &Subject) -> Code<'_>
    ensures { code_seen result ≡ code_of subject.now }
{
    match subject {
        Subject::Body(body) => Code::Body(body.list.as_slice()),
        Subject::Proc(procedure) => Code::Procedure(procedure.get()),
    }
}

/// The goal that a form is.
pub fn goal_of(form: &Form) -> Goal<'_>
    ensures { goal_seen result ≡ goal_of form.now }
{
    match (form.head.get(), form.args.as_slice()) {
        (Head::Hoare(subject), [pre, post]) => Goal::Hoare(code_of(subject), pre, post),
        (Head::Phoare(subject, rel), [pre, post, bound]) => {
            Goal::Phoare(code_of(subject), *rel, pre, post, bound)
        }
        (Head::Equiv(left, right), [pre, post]) => {
            Goal::Equiv(code_of(left), code_of(right), pre, post)
        }
        _ => Goal::Ambient(form),
    }
}

/// Whether a form is a judgment that speaks of a body.
pub fn judges_bodies(form: &Form) -> bool
    ensures { result ≡ judges_bodies (out-Term form.now).head }
{
    match form.head.get() {
        Head::Hoare(subject) | Head::Phoare(subject, _) | Head::Equiv(subject, _) => {
            matches!(subject, Subject::Body(_))
        }
        _ => false,
    }
}

/// A precondition and a postcondition, as arguments of a judgment.
fn conditions(alloc: Global, pre: Form, post: Form) -> Result<Terms, AllocError>
    ensures { IfOk result (λ made. made ≡ pre ∷ post ∷ []) }
{
    Ok(Items::from_vec(vec![in alloc; pre, post]?))
}

/// What holds after a body, where it starts from the precondition.
pub fn hoare(
    alloc: Global,
    list: SharedItems<Instr>,
    pre: Form,
    post: Form,
) -> Result<Form, AllocError>
    ensures { IfOk result (λ made. made ≡ form_of (hoare (body list) pre post)) }
{
    let args = conditions(alloc, pre, post)?;
    let ty = truth_ty(alloc)?;
    let head = Head::Hoare(Subject::Body(Cmd { list }));
    term(alloc, head, args, ty)
}

/// How likely the postcondition is after a body, where it starts from the precondition.
pub fn phoare(
    alloc: Global,
    list: SharedItems<Instr>,
    rel: Rel,
    pre: Form,
    post: Form,
    bound: Term,
) -> Result<Form, AllocError>
    ensures { IfOk result (λ made. made ≡ form_of (phoare (body list) rel pre post bound)) }
{
    let args = Items::from_vec(vec![in alloc; pre, post, bound]?);
    let ty = truth_ty(alloc)?;
    let head = Head::Phoare(Subject::Body(Cmd { list }), rel);
    term(alloc, head, args, ty)
}

/// The equivalence of two bodies.
pub fn equiv(
    alloc: Global,
    left: SharedItems<Instr>,
    right: SharedItems<Instr>,
    pre: Form,
    post: Form,
) -> Result<Form, AllocError>
    ensures { IfOk result (λ made. made ≡ form_of (equiv (body left) (body right) pre post)) }
{
    let args = conditions(alloc, pre, post)?;
    let ty = truth_ty(alloc)?;
    let left = Subject::Body(Cmd { list: left });
    let right = Subject::Body(Cmd { list: right });
    term(alloc, Head::Equiv(left, right), args, ty)
}
