// Where a program may lose weight, in itself and in what it calls.

ghost use Rattle.std.specs.Prelude.{◌≡◌, ◌++◌, [], ◌∷◌, map, IfOk};
ghost use Rattle.std.specs.List.{list_any};
ghost use Rattle.std.specs.Option.{option_copied};
ghost use Rattle.gb_goal.specs.Goal.{code_of};
ghost use Rattle.gb_mods.specs.Called.{all_reached};
ghost use Rattle.gb_full.specs.Loss.{body_loses, body_loss, code_loss, meant_each, meant_if, each_named, entry_loses, first_loss, full_operators, head_loses, head_names, is_among, known_of, known_seen, loses_by, losing_seen, loss_seen, losses, named, names_at, operator_loses, oracles_loss, procedure_loss, reached_seen, round, statement_loss, table, unknown, with_named};

use gb_core::Shared;
use gb_core::copy::copy_var;
use gb_core::name::{Name, Names};
use gb_core::var::Var;
use gb_goal::scope::{Entry, Scope};
use gb_mods::called::{Procedures, all_reached, calls, same_procedure};
use gb_mods::meant::{Meant, meant_by};
use gb_terms::module::ProcRef;
use gb_terms::term::{Head, Instr, Subject, Term};
use sqlite_items::Items;
use std::alloc::{AllocError, Global};

/// Where weight may be lost.
#[derive(Drop)]
pub enum Loss {
    Nowhere,
    /// First where this variable is sampled.
    Sampled(Var),
    /// First in a call of a procedure of which it isn't known what it stands for.
    Called,
}

/// The same, of a variable that a body has.
#[derive(Clone, Copy)]
enum Losing<'a> {
    Nowhere,
    Sampled(&'a Var),
    Called,
}

fn is_among(names: &[Name], name: &Name) -> bool
    ensures { result ≡ is_among names.now name.now }
{
    for other in names {
        if *name == *other {
            return true;
        }
    }
    false
}

/// Whether this head may lose weight in an operator's body, where these operators are full.
fn body_head_loses(head: &Head, full: &[Name]) -> bool
    ensures { result ≡ head_loses (unknown full.now) head.now }
{
    match head {
        Head::Restrict => true,
        Head::User(name) => !is_among(full, name),
        _ => false,
    }
}

/// Whether an operator's body may lose weight, where these operators are full.
#[cycle(bodies)]
#[tactic(auto, using(crate::proofs::LossSteps::body_loses_out))]
fn body_loses(body: &Term, full: &[Name]) -> bool
    ensures { result ≡ body_loses full.now body.now }
{
    body_head_loses(body.head.get(), full) || any_body_loses(body.args.as_slice(), full)
}

#[cycle(bodies)]
fn any_body_loses(list: &[Term], full: &[Name]) -> bool
    ensures { result ≡ list_any (body_loses full.now) list.now }
{
    for term in list {
        if body_loses(term, full) {
            return true;
        }
    }
    false
}

/// Whether a declared operator may lose weight, where these are full.
fn entry_loses(entry: Option<&Entry>, full: &[Name]) -> bool
    ensures { result ≡ entry_loses full.now (option_copied entry.entry) }
{
    match entry {
        Some(Entry::Operator(operator)) => body_loses(&operator.body, full),
        Some(Entry::AbstractOperator(_)) => false,
        _ => true,
    }
}

/// Whether a head may lose weight, where these operators are full that bodies of operators name.
fn head_loses(head: &Head, scope: &Scope, full: &[Name]) -> bool
    ensures { result ≡ head_loses (operator_loses scope.now full.now) head.now }
{
    match head {
        Head::Restrict => true,
        Head::User(name) => entry_loses(scope.entry(name), full),
        _ => false,
    }
}

/// Whether a distribution may lose weight: `drestrict` stands in it, with operators unfolded. It is told what `full_operators` gives.
#[cycle(losing)]
#[tactic(auto, using(crate::proofs::LossSteps::loses_by_out))]
pub fn may_lose(term: &Term, scope: &Scope, full: &[Name]) -> bool
    ensures { result ≡ loses_by scope.now full.now term.now }
{
    head_loses(term.head.get(), scope, full) || any_may_lose(term.args.as_slice(), scope, full)
}

#[cycle(losing)]
fn any_may_lose(list: &[Term], scope: &Scope, full: &[Name]) -> bool
    ensures { result ≡ list_any (loses_by scope.now full.now) list.now }
{
    for term in list {
        if may_lose(term, scope, full) {
            return true;
        }
    }
    false
}

/// Adds the operator of the script that a head is.
fn head_named(alloc: Global, head: &Head, found: Names) -> Result<Names, AllocError>
    ensures { IfOk result (λ made. made ≡ found ++ head_names head.now) }
{
    let mut all = found;
    if let Head::User(name) = head {
        all.push(name.copy(alloc)?)?;
    }
    Ok(all)
}

/// Adds the operators of the script that stand in a term.
#[cycle(naming)]
#[tactic(auto, using(crate::proofs::LossSteps::named_behind))]
fn named(term: &Term, alloc: Global, found: Names) -> Result<Names, AllocError>
    ensures { IfOk result (λ made. made ≡ found ++ named term.now) }
{
    let own = head_named(alloc, term.head.get(), found)?;
    each_named(term.args.as_slice(), alloc, own)
}

#[cycle(naming)]
fn each_named(list: &[Term], alloc: Global, found: Names) -> Result<Names, AllocError>
    ensures { IfOk result (λ made. made ≡ found ++ each_named list.now) }
{
    let mut all = found;
    for term in list {
        all = named(term, alloc, all)?;
    }
    Ok(all)
}

/// The operators that stand in the body of a declared one.
fn names_at(alloc: Global, entry: Option<&Entry>) -> Result<Names, AllocError>
    ensures { IfOk result (λ made. made ≡ names_at (option_copied entry.entry)) }
{
    let none = Items::new(alloc);
    match entry {
        Some(Entry::Operator(operator)) => named(&operator.body, alloc, none),
        _ => Ok(none),
    }
}

/// These operators, and those others of a list that are full.
fn with_named(alloc: Global, scope: &Scope, full: Names, list: &[Name]) -> Result<Names, AllocError>
    ensures { IfOk result (λ made. made ≡ with_named scope.now full list.now) }
{
    let mut all = full;
    for name in list {
        if !is_among(all.as_slice(), name) && !entry_loses(scope.entry(name), all.as_slice()) {
            all.push(name.copy(alloc)?)?;
        }
    }
    Ok(all)
}

/// The full operators that bodies of operators name. Each body names what is declared before it.
#[tactic(auto, unfolding(crate::specs::Loss::full_operators))]
pub fn full_operators(alloc: Global, scope: &Scope) -> Result<Names, AllocError>
    ensures { IfOk result (λ made. made ≡ full_operators scope.now) }
{
    let mut full = Items::new(alloc);
    for i in 0..scope.len() {
        let names = names_at(alloc, scope.entry_at(i))?;
        full = with_named(alloc, scope, full, names.as_slice())?;
    }
    Ok(full)
}

/// A procedure, and where it may lose weight first, with what it calls.
#[derive(Clone, Copy)]
struct Known<'a> {
    procedure: &'a ProcRef,
    loss: Losing<'a>,
}

/// What is known of a procedure.
fn known_of<'a>(known: &[Known<'a>], procedure: &ProcRef) -> Losing<'a>
    ensures { losing_seen result ≡ known_of (map known_seen known.now) procedure.now }
{
    for x in known {
        if same_procedure(x.procedure, procedure) {
            return x.loss;
        }
    }
    Losing::Called
}

/// Where a statement may lose weight first, with what it calls. It is told which operators are full, and what is known of procedures.
#[cycle(statements)]
fn statement_loss<'a>(
    statement: &'a Instr,
    scope: &Scope,
    full: &[Name],
    known: &[Known<'a>],
) -> Losing<'a>
    ensures { losing_seen result ≡ statement_loss scope.now full.now (map known_seen known.now) statement.now }
{
    match statement {
        Instr::Assign(..) => Losing::Nowhere,
        Instr::Sample(target, from) => {
            if may_lose(from, scope, full) {
                Losing::Sampled(target)
            } else {
                Losing::Nowhere
            }
        }
        Instr::Call(_, procedure, _) => known_of(known, procedure.get()),
        Instr::If(_, yes, no) => match body_loss(yes.list.as_slice(), scope, full, known) {
            Losing::Nowhere => body_loss(no.list.as_slice(), scope, full, known),
            found => found,
        },
        Instr::While(_, _, body) => body_loss(body.list.as_slice(), scope, full, known),
    }
}

/// Where a body may lose weight first, in the order of the text, with what it calls at each call.
#[cycle(statements)]
fn body_loss<'a>(list: &'a [Instr], scope: &Scope, full: &[Name], known: &[Known<'a>]) -> Losing<'a>
    ensures { losing_seen result ≡ body_loss scope.now full.now (map known_seen known.now) list.now }
{
    for statement in list {
        match statement_loss(statement, scope, full, known) {
            Losing::Nowhere => {}
            found => return found,
        }
    }
    Losing::Nowhere
}

/// What is known of the first of these procedures that may lose weight.
fn oracles_loss<'a>(known: &[Known<'a>], list: &[Shared<ProcRef>]) -> Losing<'a>
    ensures { losing_seen result ≡ oracles_loss (map known_seen known.now) list.now }
{
    for x in list {
        match known_of(known, x.get()) {
            Losing::Nowhere => {}
            found => return found,
        }
    }
    Losing::Nowhere
}

/// A procedure that is reached, and what it stands for.
#[derive(Drop)]
pub struct Reached {
    pub procedure: Shared<ProcRef>,
    pub meant: Meant,
}

impl Reached {
    /// Where it may lose weight first, with what it calls. A procedure of an abstract module loses what its oracles lose.
    fn loss<'a>(&'a self, scope: &Scope, full: &[Name], known: &[Known<'a>]) -> Losing<'a>
        ensures { losing_seen result ≡ procedure_loss scope.now full.now (map known_seen known.now) self.now.meant }
    {
        match &self.meant {
            Meant::Unknown => Losing::Called,
            Meant::Declared(procedure) => {
                body_loss(procedure.get().body.list.as_slice(), scope, full, known)
            }
            Meant::Any(_, oracles) => oracles_loss(known, oracles.as_slice()),
        }
    }
}

/// What is known of procedures, by what is known of those that they call.
fn round<'a>(
    alloc: Global,
    scope: &Scope,
    full: &[Name],
    known: &[Known<'a>],
    list: &'a [Reached],
) -> Result<Items<Known<'a>>, AllocError>
    ensures { IfOk result (λ made. map known_seen made ≡ round scope.now full.now (map known_seen known.now) (map reached_seen list.now)) }
{
    let mut all = Items::new(alloc);
    for x in list {
        let loss = x.loss(scope, full, known);
        let procedure = x.procedure.get();
        all.push(Known { procedure, loss })?;
    }
    Ok(all)
}

/// What is known of procedures, where these have all among them that they call.
#[tactic(auto, using(crate::proofs::LossSteps::rounds_next), unfolding(crate::specs::Loss::losses))]
fn losses<'a>(
    alloc: Global,
    scope: &Scope,
    full: &[Name],
    list: &'a [Reached],
) -> Result<Items<Known<'a>>, AllocError>
    ensures { IfOk result (λ made. map known_seen made ≡ losses scope.now full.now (map reached_seen list.now)) }
{
    let mut known = Items::new(alloc);
    for i in 0..list.len() {
        known = round(alloc, scope, full, known.as_slice(), list)?;
    }
    Ok(known)
}

fn meant_each(
    alloc: Global,
    scope: &Scope,
    list: &[Shared<ProcRef>],
) -> Result<Items<Reached>, AllocError>
    ensures { IfOk result (λ made. map reached_seen made ≡ meant_each scope.now list.now) }
{
    let mut all = Items::new(alloc);
    for x in list {
        let meant = meant_by(alloc, scope, x.get())?;
        let procedure = x.share()?;
        all.push(Reached { procedure, meant })?;
    }
    Ok(all)
}

/// Procedures and all that they call.
fn reached_from(
    alloc: Global,
    scope: &Scope,
    first: Procedures,
) -> Result<Items<Reached>, AllocError>
    ensures { IfOk result (λ made. map reached_seen made ≡ meant_if scope.now (all_reached scope.now first)) }
{
    match all_reached(alloc, scope, first)? {
        Some(all) => meant_each(alloc, scope, all.as_slice()),
        None => Ok(Items::new(alloc)),
    }
}

impl Losing<'_> {
    fn copy(self, alloc: Global) -> Result<Loss, AllocError>
        ensures { IfOk result (λ made. loss_seen made ≡ losing_seen self.entry) }
    {
        match self {
            Losing::Nowhere => Ok(Loss::Nowhere),
            Losing::Sampled(var) => {
                let var = copy_var(alloc, var)?;
                Ok(Loss::Sampled(var))
            }
            Losing::Called => Ok(Loss::Called),
        }
    }
}

/// Where a body may lose weight first, where these procedures have all among them that it calls, and all that they call.
fn loss_among<'a>(
    alloc: Global,
    scope: &Scope,
    full: &[Name],
    list: &'a [Instr],
    reached: &'a [Reached],
) -> Result<Loss, AllocError>
    ensures { IfOk result (λ lost. loss_seen lost ≡ body_loss scope.now full.now (losses scope.now full.now (map reached_seen reached.now)) list.now) }
{
    let known = losses(alloc, scope, full, reached)?;
    body_loss(list, scope, full, known.as_slice()).copy(alloc)
}

/// Where a body may lose weight first, in the order of the text, with what it calls at each call.
pub fn first_loss(alloc: Global, scope: &Scope, list: &[Instr]) -> Result<Loss, AllocError>
    ensures { IfOk result (λ lost. loss_seen lost ≡ first_loss scope.now list.now) }
{
    let first = calls(alloc, Items::new(alloc), list)?;
    let reached = reached_from(alloc, scope, first)?;
    let full = full_operators(alloc, scope)?;
    loss_among(alloc, scope, full.as_slice(), list, reached.as_slice())
}

/// Where one of several procedures may lose weight first, where these have all among them that they call.
fn loss_of(
    alloc: Global,
    scope: &Scope,
    full: &[Name],
    procedure: &ProcRef,
    reached: &[Reached],
) -> Result<Loss, AllocError>
    ensures { IfOk result (λ lost. loss_seen lost ≡ known_of (losses scope.now full.now (map reached_seen reached.now)) procedure.now) }
{
    let known = losses(alloc, scope, full, reached)?;
    known_of(known.as_slice(), procedure).copy(alloc)
}

/// Where the first of these procedures that may lose weight loses it, where the reached ones have all among them that these call.
pub fn first_of(
    alloc: Global,
    scope: &Scope,
    reached: &[Reached],
    list: &[Shared<ProcRef>],
) -> Result<Loss, AllocError>
    ensures { IfOk result (λ lost. loss_seen lost ≡ oracles_loss (losses scope.now (full_operators scope.now) (map reached_seen reached.now)) list.now) }
{
    let full = full_operators(alloc, scope)?;
    let known = losses(alloc, scope, full.as_slice(), reached)?;
    oracles_loss(known.as_slice(), list).copy(alloc)
}

/// Where a procedure may lose weight first, with what it calls.
fn procedure_loss(
    alloc: Global,
    scope: &Scope,
    procedure: &Shared<ProcRef>,
) -> Result<Loss, AllocError>
    ensures { IfOk result (λ lost. loss_seen lost ≡ known_of (table scope.now (procedure.now ∷ [])) procedure.now) }
{
    let mut first = Items::new(alloc);
    first.push(procedure.share()?)?;
    let reached = reached_from(alloc, scope, first)?;
    let full = full_operators(alloc, scope)?;
    loss_of(
        alloc,
        scope,
        full.as_slice(),
        procedure.get(),
        reached.as_slice(),
    )
}

/// The same of what a judgment speaks of.
pub fn subject_loss(alloc: Global, scope: &Scope, subject: &Subject) -> Result<Loss, AllocError>
    ensures { IfOk result (λ lost. loss_seen lost ≡ code_loss scope.now (code_of subject.now)) }
{
    match subject {
        Subject::Body(body) => first_loss(alloc, scope, body.list.as_slice()),
        Subject::Proc(named) => procedure_loss(alloc, scope, named),
    }
}
