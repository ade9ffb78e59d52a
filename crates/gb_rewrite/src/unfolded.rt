// Terms with an operator of the script unfolded.

ghost use Rattle.std.specs.Prelude.{◌≡◌, ◌∷◌, ◌++◌, [], map, IfOk};
ghost use Rattle.std.specs.List.{list_any};
ghost use Rattle.gb_terms.specs.declared.term.Term.{out-Term};
ghost use Rattle.gb_terms.specs.Make.{node};
ghost use Rattle.gb_rewrite.specs.Unfolded.{cmd_names, head_names, instr_names, is_operator, names, subject_names, unfolded};

use crate::rewritten::with_args;
use gb_core::name::Name;
use gb_core::same::same_name;
use gb_forms::arguments::at_arguments;
use gb_terms::term::{Cmd, Head, Instr, Subject, Term, Terms};
use sqlite_items::Items;
use std::alloc::{AllocError, Global};

/// Whether an operator of the script stands in a term, the programs in it included.
#[cycle(names)]
pub fn names(t: &Term, name: &Name) -> bool
    ensures { result ≡ names name.now t.now }
{
    head_names(t.head.get(), name) || any_names(t.args.as_slice(), name)
}

#[cycle(names)]
fn any_names(list: &[Term], name: &Name) -> bool
    ensures { result ≡ list_any (λ b. b) (map (names name.now) list.now) }
{
    for t in list {
        if names(t, name) {
            return true;
        }
    }
    false
}

#[cycle(names)]
fn head_names(head: &Head, name: &Name) -> bool
    ensures { result ≡ head_names name.now head.now }
{
    match head {
        Head::User(operator) => same_name(name, operator),
        Head::Hoare(s) | Head::Phoare(s, _) => subject_names(s, name),
        Head::Equiv(s, t) => subject_names(s, name) || subject_names(t, name),
        _ => false,
    }
}

#[cycle(names)]
fn subject_names(subject: &Subject, name: &Name) -> bool
    ensures { result ≡ subject_names name.now subject.now }
{
    match subject {
        Subject::Proc(_) => false,
        Subject::Body(c) => cmd_names(c, name),
    }
}

#[cycle(names)]
fn cmd_names(c: &Cmd, name: &Name) -> bool
    ensures { result ≡ cmd_names name.now c.now }
{
    any_statement_names(c.list.as_slice(), name)
}

#[cycle(names)]
fn any_statement_names(list: &[Instr], name: &Name) -> bool
    ensures { result ≡ list_any (λ b. b) (map (instr_names name.now) list.now) }
{
    for i in list {
        if instr_names(i, name) {
            return true;
        }
    }
    false
}

#[cycle(names)]
fn instr_names(i: &Instr, name: &Name) -> bool
    ensures { result ≡ instr_names name.now i.now }
{
    match i {
        Instr::Assign(_, e) | Instr::Sample(_, e) => names(e, name),
        Instr::Call(_, _, args) => any_names(args.as_slice(), name),
        Instr::If(e, a, b) => names(e, name) || (cmd_names(a, name) || cmd_names(b, name)),
        Instr::While(e, v, a) => names(e, name) || (names(v, name) || cmd_names(a, name)),
    }
}

fn is_operator(head: &Head, name: &Name) -> bool
    ensures { result ≡ is_operator name.now head.now }
{
    match head {
        Head::User(operator) => same_name(name, operator),
        _ => false,
    }
}

/// A term with an operator's body in place of each application of it. The programs of judgments stay as they are.
#[cycle(unfolded)]
#[tactic(auto, using(crate::proofs::Layers::unfolded_out))]
pub fn unfolded(alloc: Global, t: &Term, name: &Name, body: &Term) -> Result<Term, AllocError>
    ensures { IfOk result (λ made. made ≡ unfolded name.now body.now t.now) }
{
    let args = all_unfolded(alloc, t.args.as_slice(), name, body)?;
    if is_operator(t.head.get(), name) {
        return at_arguments(alloc, body, args.as_slice());
    }
    with_args(alloc, t, args)
}

#[cycle(unfolded)]
pub fn all_unfolded(
    alloc: Global,
    list: &[Term],
    name: &Name,
    body: &Term,
) -> Result<Terms, AllocError>
    ensures { IfOk result (λ made. made ≡ map (unfolded name.now body.now) list.now) }
{
    let mut made = Items::new(alloc);
    for t in list {
        let t = unfolded(alloc, t, name, body)?;
        made.push(t)?;
    }
    Ok(made)
}
