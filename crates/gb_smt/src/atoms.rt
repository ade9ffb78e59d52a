// The atoms of a leaf: its Boolean parts that are no connectives.

ghost use Rattle.std.specs.Prelude.{◌≡◌, ◌↔◌, ◌≤◌, [], ◌∷◌, IsTrue, IfOk, OnOk, take, length};
ghost use Rattle.std.specs.List.{Contains, flat_map};
ghost use Rattle.gb_terms.specs.declared.term.Term.{out-Term};
ghost use Rattle.gb_smt.specs.Atoms.{is_over_forms, is_connective, atom_of, is_atom, own_atom, reach_of, reached, term_atoms, atoms_of, AreAdded, IsCount};

use crate::leaves::Leaf;
use gb_core::Shared;
use gb_core::ty::Ty;
use gb_terms::op::Op;
use gb_terms::same::same;
use gb_terms::term::{Head, Term, Terms};
use gb_walk::binders::is_binder;
use sqlite_items::Items;
use std::alloc::{AllocError, Global};

/// Whether the arguments of an operator are forms.
fn is_over_forms(args: &[Term]) -> bool
    ensures { result ≡ is_over_forms args.now }
{
    match args.first() {
        Some(first) => matches!(first.ty.get(), Ty::Bool),
        None => false,
    }
}

/// Whether a form is a connective: equality of forms is one too.
fn is_connective(t: &Term) -> bool
    ensures { result ≡ is_connective t.now }
{
    match t.head.get() {
        Head::Builtin(op) => match op {
            Op::Not | Op::And | Op::Or | Op::Implies | Op::Iff => true,
            Op::Equal | Op::NotEqual => is_over_forms(t.args.as_slice()),
            _ => false,
        },
        _ => false,
    }
}

/// The atom that a form is or negates: `s <> t` is the negation of `s = t`.
fn atom_of(alloc: Global, t: &Term) -> Result<Term, AllocError>
    ensures { IfOk result (λ atom. atom ≡ atom_of t.now) }
{
    match t.head.get() {
        Head::Builtin(Op::NotEqual) => {
            let head = Shared::new(alloc, Head::Builtin(Op::Equal))?;
            let args = t.args.share()?;
            let ty = t.ty.share()?;
            Ok(Term { head, args, ty })
        }
        _ => t.share(),
    }
}

fn is_among(list: &[Term], t: &Term) -> bool
    ensures { IsTrue result ↔ Contains list.now t.now }
{
    for atom in list {
        if same(atom, t) {
            return true;
        }
    }
    false
}

/// Whether a form is an atom: no connective, and no literal.
fn is_atom(t: &Term) -> bool
    ensures { result ≡ is_atom t.now }
{
    matches!(t.ty.get(), Ty::Bool) && !matches!(t.head.get(), Head::Lit(_)) && !is_connective(t)
}

/// Adds an atom, if it isn't there yet.
fn add_new(atom: Term, atoms: &mut Terms) -> Result<(), AllocError>
    ensures { OnOk result (AreAdded atoms.old (atom ∷ []) atoms.new) }
{
    if is_among(atoms.as_slice(), &atom) {
        return Ok(());
    }
    atoms.push(atom)
}

/// Adds the atom that a term is or negates, if it isn't there yet.
fn note_own_atom(alloc: Global, t: &Term, atoms: &mut Terms) -> Result<(), AllocError>
    ensures { OnOk result (AreAdded atoms.old (own_atom t.now) atoms.new) }
{
    if is_atom(t) {
        add_new(atom_of(alloc, t)?, atoms)
    } else {
        Ok(())
    }
}

/// Which arguments of a term may hold atoms.
#[derive(Clone, Copy)]
pub enum Reach {
    Nothing,
    /// All but the last.
    Front,
    All,
}

/// A part that binds something, a judgment and the event of a probability are constants.
fn reach_of(head: &Head) -> Reach
    ensures { result ≡ reach_of head.now }
{
    match head {
        Head::Hoare(_) | Head::Phoare(_, _) | Head::Equiv(_, _) => Reach::Nothing,
        Head::Pr(_, _) => Reach::Front,
        _ => {
            if is_binder(head) {
                Reach::Nothing
            } else {
                Reach::All
            }
        }
    }
}

/// How many arguments of a term, from the first on, may hold atoms.
fn number_reached(t: &Term) -> usize
    ensures within { result ≤ length (out-Term t.now).args }
    ensures reached { take result (out-Term t.now).args ≡ reached (reach_of (out-Term t.now).head) (out-Term t.now).args }
{
    let count = t.args.len();
    match reach_of(t.head.get()) {
        Reach::Nothing => 0,
        Reach::Front => count.saturating_sub(1),
        Reach::All => count,
    }
}

/// Adds the atoms of a term that aren't there yet.
#[cycle(note_atoms)]
fn note_atoms(alloc: Global, t: &Term, atoms: &mut Terms) -> Result<(), AllocError>
    ensures { OnOk result (AreAdded atoms.old (term_atoms t.now) atoms.new) }
{
    note_own_atom(alloc, t, atoms)?;
    note_atoms_of(alloc, t.args.as_slice(), number_reached(t), atoms)
}

/// Adds those of the first terms of a list.
#[cycle(note_atoms)]
fn note_atoms_of(
    alloc: Global,
    list: &[Term],
    count: usize,
    atoms: &mut Terms,
) -> Result<(), AllocError>
    requires { count ≤ length list.now }
    ensures { OnOk result (AreAdded atoms.old (flat_map term_atoms (take count list.now)) atoms.new) }
{
    for at in 0..count {
        note_atoms(alloc, &list[at], atoms)?;
    }
    Ok(())
}

/// The number of atoms of a leaf, each counted once.
pub fn number_of_atoms(alloc: Global, leaf: &Leaf) -> Result<u64, AllocError>
    ensures { IfOk result (IsCount (atoms_of leaf.now)) }
{
    let mut atoms = Items::new(alloc);
    note_atoms_of(alloc, leaf.hyps.as_slice(), leaf.hyps.len(), &mut atoms)?;
    note_atoms(alloc, &leaf.conclusion, &mut atoms)?;
    Ok(atoms.len() as u64)
}
