// Forms and programs.

ghost use Rattle.std.specs.Prelude.{◌≡◌, ◌∷◌, true, codes, OnOk};
ghost use Rattle.gb_print_names.specs.BoundNames.{place};
ghost use Rattle.gb_print_names.specs.Names.{variable};
ghost use Rattle.gb_print_names.specs.Open.{right_first};
ghost use Rattle.gb_print_names.specs.Modules.{procedure};
ghost use Rattle.gb_print_names.specs.Text.{◌▸◌, word, separated};
ghost use Rattle.gb_print.specs.FormText.{in_brackets, annotated, form, operand, part, bound_part, argument, arguments, inside_text, spoken, is_nil, targets, forms, instr_opening, otherwise, term_text, subject_text, cmd_text, instr_text, shown, all_shown};

use crate::binders::{letter, put_binding, stands};
use crate::layout::{put_before, put_closing, put_opening};
use gb_core::var::Var;
use gb_print_names::bound_names::{Known, Setting, bound_name};
use gb_print_names::modules::put_procedure;
use gb_print_names::occurring::{is_judgment, names_inside};
use gb_print_names::open::{needs_type, right_first, tells};
use gb_print_names::place::put_variable;
use gb_print_names::shape::{encloses, runs_on, shape_of, stands_alone};
use gb_print_names::text::Page;
use gb_print_names::types::put_type;
use gb_terms::module::ProcRef;
use gb_terms::term::{Cmd, Head, Instr, Subject, Term};
use gb_walk::binders::is_binder;
use std::alloc::{AllocError, Global};

/// A form, with its type where it needs one.
#[cycle(forms)]
pub fn put_form(
    alloc: Global,
    page: &mut Page,
    at: &Setting<'_>,
    known: bool,
    t: &Term,
) -> Result<(), AllocError>
    ensures { OnOk result (page.new ≡ record page.old { text = form (shown t.now) known (place at.now page.old.bound) page.old.text }) }
{
    if needs_type(known, t) {
        put_annotated(alloc, page, at, t)
    } else {
        put_term(alloc, page, at, known, t)
    }
}

/// A form with its type.
#[cycle(forms)]
fn put_annotated(
    alloc: Global,
    page: &mut Page,
    at: &Setting<'_>,
    t: &Term,
) -> Result<(), AllocError>
    ensures { OnOk result (page.new ≡ record page.old { text = annotated (shown t.now) (place at.now page.old.bound) page.old.text }) }
{
    page.text.put("(")?;
    put_term(alloc, page, at, true, t)?;
    page.text.put(" : ")?;
    put_type(alloc, &mut page.text, &page.bound, t.ty.get())?;
    page.text.put(")")
}

/// A form in brackets.
#[cycle(forms)]
fn put_bracketed(
    alloc: Global,
    page: &mut Page,
    at: &Setting<'_>,
    known: bool,
    t: &Term,
) -> Result<(), AllocError>
    ensures { OnOk result (page.new ≡ record page.old { text = in_brackets (term_text t.now known (place at.now page.old.bound)) page.old.text }) }
{
    page.text.put("(")?;
    put_term(alloc, page, at, known, t)?;
    page.text.put(")")
}

/// An operand: in brackets, unless it is an atom or a postfix form.
#[cycle(forms)]
fn put_operand(
    alloc: Global,
    page: &mut Page,
    at: &Setting<'_>,
    known: bool,
    t: &Term,
) -> Result<(), AllocError>
    ensures { OnOk result (page.new ≡ record page.old { text = operand (shown t.now) known (place at.now page.old.bound) page.old.text }) }
{
    if needs_type(known, t) {
        put_annotated(alloc, page, at, t)
    } else if stands_alone(shape_of(t.head.get()), t.args.as_slice()) {
        put_term(alloc, page, at, known, t)
    } else {
        put_bracketed(alloc, page, at, known, t)
    }
}

/// An argument of a head, under no binder.
#[cycle(forms)]
fn put_part(
    alloc: Global,
    page: &mut Page,
    at: &Setting<'_>,
    t: &Term,
    head: &Head,
    i: usize,
    known: bool,
) -> Result<(), AllocError>
    ensures { OnOk result (page.new ≡ record page.old { text = part head.now i (shown t.now) known (place at.now page.old.bound) page.old.text }) }
{
    if encloses(shape_of(head), i) {
        put_form(alloc, page, at, known, t)
    } else if runs_on(shape_of(head), i, shape_of(t.head.get())) {
        put_bracketed(alloc, page, at, known, t)
    } else {
        put_operand(alloc, page, at, known, t)
    }
}

/// What a head binds, and the form in which it does.
#[cycle(forms)]
fn put_bound_part(
    alloc: Global,
    page: &mut Page,
    at: &Setting<'_>,
    t: &Term,
    head: &Head,
    known: bool,
) -> Result<(), AllocError>
    ensures { OnOk result (page.new ≡ record page.old { text = bound_part head.now (shown t.now) known (place at.now page.old.bound) page.old.text }) }
{
    let shown = bound_name(alloc, at, &page.bound, letter(head))?;
    put_binding(alloc, &mut page.text, &page.bound, head, t, &shown)?;
    let stands = stands(alloc, head)?;
    page.bound.push(Known { stands, shown })?;
    put_form(alloc, page, at, known, t)?;
    page.bound.pop();
    Ok(())
}

#[cycle(forms)]
fn put_argument(
    alloc: Global,
    page: &mut Page,
    at: &Setting<'_>,
    t: &Term,
    head: &Head,
    i: usize,
    last: bool,
    known: bool,
) -> Result<(), AllocError>
    ensures { OnOk result (page.new ≡ record page.old { text = argument head.now i last (shown t.now) known (place at.now page.old.bound) page.old.text }) }
{
    if last && is_binder(head) {
        return put_bound_part(alloc, page, at, t, head, known);
    }
    put_before(&mut page.text, &page.bound, at, head, i, last)?;
    put_part(alloc, page, at, t, head, i, known)
}

/// Whether an argument is the last one, by those behind it.
fn is_last(behind: &[Term]) -> bool
    ensures { result ≡ is_nil (all_shown behind.now) }
{
    behind.is_empty()
}

/// The arguments of a head.
#[cycle(forms)]
fn put_arguments(
    alloc: Global,
    page: &mut Page,
    at: &Setting<'_>,
    args: &[Term],
    head: &Head,
    known: bool,
) -> Result<(), AllocError>
    ensures { OnOk result (page.new ≡ record page.old { text = arguments head.now (right_first args.now) 0 (all_shown args.now) known (place at.now page.old.bound) page.old.text }) }
{
    let first = right_first(args);
    for i in 0..args.len() {
        let last = is_last(&args[i + 1..]);
        let told = tells(head, first, known, i, last);
        put_argument(alloc, page, at, &args[i], head, i, last, told)?;
    }
    Ok(())
}

/// A term, from what stands where it does.
#[cycle(forms)]
#[tactic(auto, using(crate::proofs::FormSteps::term_is))]
fn put_term(
    alloc: Global,
    page: &mut Page,
    at: &Setting<'_>,
    known: bool,
    t: &Term,
) -> Result<(), AllocError>
    ensures { OnOk result (page.new ≡ record page.old { text = term_text t.now known (place at.now page.old.bound) page.old.text }) }
{
    if !is_judgment(t.head.get()) {
        return put_inside(alloc, page, at, known, t);
    }
    let names = names_inside(alloc, t.head.get(), t.args.as_slice(), at.taken)?;
    let inside = Setting {
        taken: names.as_slice(),
        ..*at
    };
    put_inside(alloc, page, &inside, known, t)
}

/// .. in a judgment with the names of its locals in scope.
#[cycle(forms)]
fn put_inside(
    alloc: Global,
    page: &mut Page,
    at: &Setting<'_>,
    known: bool,
    t: &Term,
) -> Result<(), AllocError>
    ensures { OnOk result (page.new ≡ record page.old { text = inside_text t.now known (place at.now page.old.bound) page.old.text }) }
{
    let head = t.head.get();
    put_opening(alloc, &mut page.text, &page.bound, at, head, t.ty.get())?;
    put_spoken(alloc, page, at, head)?;
    put_arguments(alloc, page, at, t.args.as_slice(), head, known)?;
    put_closing(alloc, &mut page.text, head)
}

/// The programs of a judgment.
#[cycle(forms)]
fn put_spoken(
    alloc: Global,
    page: &mut Page,
    at: &Setting<'_>,
    head: &Head,
) -> Result<(), AllocError>
    ensures { OnOk result (page.new ≡ record page.old { text = spoken head.now (place at.now page.old.bound) page.old.text }) }
{
    match head {
        Head::Hoare(s) | Head::Phoare(s, _) => put_subject(alloc, page, at, s),
        Head::Equiv(s, u) => {
            put_subject(alloc, page, at, s)?;
            page.text.put(" ~ ")?;
            put_subject(alloc, page, at, u)
        }
        _ => Ok(()),
    }
}

#[cycle(forms)]
fn put_subject(
    alloc: Global,
    page: &mut Page,
    at: &Setting<'_>,
    s: &Subject,
) -> Result<(), AllocError>
    ensures { OnOk result (page.new ≡ record page.old { text = subject_text s.now (place at.now page.old.bound) page.old.text }) }
{
    match s {
        Subject::Proc(procedure) => put_procedure(&mut page.text, &page.bound, procedure.get()),
        Subject::Body(c) => put_body(alloc, page, at, c),
    }
}

/// A body.
#[cycle(forms)]
fn put_body(alloc: Global, page: &mut Page, at: &Setting<'_>, c: &Cmd) -> Result<(), AllocError>
    ensures { OnOk result (page.new ≡ record page.old { text = cmd_text c.now (place at.now page.old.bound) page.old.text }) }
{
    page.text.put("{")?;
    for i in c.list.as_slice() {
        page.text.put(" ")?;
        put_instr(alloc, page, at, i)?;
    }
    page.text.put(" }")
}

fn put_target(page: &mut Page, arrow: &str, x: &Var) -> Result<(), AllocError>
    ensures { OnOk result (page.new ≡ record page.old { text = (variable page.old.bound x.now ▸ word arrow.now) page.old.text }) }
{
    put_variable(&mut page.text, &page.bound, x)?;
    page.text.put(arrow)
}

/// What a statement writes, with the arrow behind it.
fn put_targets(page: &mut Page, arrow: &str, list: &[Var]) -> Result<(), AllocError>
    ensures { OnOk result (page.new ≡ record page.old { text = targets arrow.now list.now page.old.bound page.old.text }) }
{
    match list {
        [] => Ok(()),
        [x] => put_target(page, arrow, x),
        [first, rest @ ..] => {
            page.text.put("(")?;
            put_variables(page, first, rest)?;
            page.text.put(")")?;
            page.text.put(arrow)
        }
    }
}

fn put_variables(page: &mut Page, first: &Var, rest: &[Var]) -> Result<(), AllocError>
    ensures { OnOk result (page.new ≡ record page.old { text = separated (codes ", ") (variable page.old.bound) (first.now ∷ rest.now) page.old.text }) }
{
    put_variable(&mut page.text, &page.bound, first)?;
    for x in rest {
        page.text.put(", ")?;
        put_variable(&mut page.text, &page.bound, x)?;
    }
    Ok(())
}

fn put_called(page: &mut Page, list: &[Var], p: &ProcRef) -> Result<(), AllocError>
    ensures { OnOk result (page.new ≡ record page.old { text = (targets (codes " <@ ") list.now page.old.bound ▸ procedure page.old.bound p.now ▸ word (codes "(")) page.old.text }) }
{
    put_targets(page, " <@ ", list)?;
    put_procedure(&mut page.text, &page.bound, p)?;
    page.text.put("(")
}

/// A statement begins with this; its forms and its bodies follow.
fn put_instr_opening(page: &mut Page, i: &Instr) -> Result<(), AllocError>
    ensures { OnOk result (page.new ≡ record page.old { text = instr_opening i.now page.old.bound page.old.text }) }
{
    match i {
        Instr::Assign(list, _) => put_targets(page, " <- ", list.as_slice()),
        Instr::Sample(x, _) => put_target(page, " <$ ", x),
        Instr::Call(list, p, _) => put_called(page, list.as_slice(), p.get()),
        Instr::If(..) => page.text.put("if ("),
        Instr::While(..) => page.text.put("while ("),
    }
}

/// A statement.
#[cycle(forms)]
fn put_instr(alloc: Global, page: &mut Page, at: &Setting<'_>, i: &Instr) -> Result<(), AllocError>
    ensures { OnOk result (page.new ≡ record page.old { text = instr_text i.now (place at.now page.old.bound) page.old.text }) }
{
    put_instr_opening(page, i)?;
    match i {
        Instr::Assign(_, e) => put_ended(alloc, page, at, e, ";"),
        Instr::Sample(_, d) => put_ended(alloc, page, at, d, ";"),
        Instr::Call(_, _, args) => put_given(alloc, page, at, args.as_slice()),
        Instr::If(test, yes, no) => {
            put_ended(alloc, page, at, test, ") ")?;
            put_body(alloc, page, at, yes)?;
            put_otherwise(alloc, page, at, no)
        }
        Instr::While(guard, variant, c) => {
            put_ended(alloc, page, at, guard, ") variant ")?;
            put_operand(alloc, page, at, false, variant)?;
            page.text.put(" ")?;
            put_body(alloc, page, at, c)
        }
    }
}

/// A form, and what stands behind it.
#[cycle(forms)]
fn put_ended(
    alloc: Global,
    page: &mut Page,
    at: &Setting<'_>,
    t: &Term,
    end: &str,
) -> Result<(), AllocError>
    ensures { OnOk result (page.new ≡ record page.old { text = (form (shown t.now) true (place at.now page.old.bound) ▸ word end.now) page.old.text }) }
{
    put_form(alloc, page, at, true, t)?;
    page.text.put(end)
}

/// The arguments of a call, and its end.
#[cycle(forms)]
fn put_given(
    alloc: Global,
    page: &mut Page,
    at: &Setting<'_>,
    list: &[Term],
) -> Result<(), AllocError>
    ensures { OnOk result (page.new ≡ record page.old { text = (forms (all_shown list.now) (place at.now page.old.bound) ▸ word (codes ");")) page.old.text }) }
{
    let [first, rest @ ..] = list else {
        return page.text.put(");");
    };
    put_form(alloc, page, at, true, first)?;
    for t in rest {
        page.text.put(", ")?;
        put_form(alloc, page, at, true, t)?;
    }
    page.text.put(");")
}

/// The branch behind `else`, where it has a statement.
#[cycle(forms)]
fn put_otherwise(
    alloc: Global,
    page: &mut Page,
    at: &Setting<'_>,
    c: &Cmd,
) -> Result<(), AllocError>
    ensures { OnOk result (page.new ≡ record page.old { text = otherwise (c.now, cmd_text c.now) (place at.now page.old.bound) page.old.text }) }
{
    if c.list.is_empty() {
        return Ok(());
    }
    page.text.put(" else ")?;
    put_body(alloc, page, at, c)
}
