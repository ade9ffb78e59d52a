// What a script has built so far.

ghost use Rattle.std.specs.Prelude.{◌≡◌, [], true, take, IfOk};
ghost use Rattle.gb_state.specs.Opened.{in_context, is_undeclared, modules_of};

use gb_core::SharedItems;
use gb_core::name::{Name, Names};
use gb_goal::scope::{Binders, ProcName, Scope};
use gb_goal::sequent::Sequent;
use gb_steps::goals::Goals;
use gb_terms::module::Bind;
use sqlite_items::Items;
use std::alloc::{AllocError, Global};

/// What is proved.
#[derive(Drop)]
pub enum Claim {
    /// A lemma: its name, what it states, and what its binders bind.
    Lemma {
        name: Name,
        statement: Sequent,
        binders: Binders,
    },
    /// That the loops of a procedure end.
    Loops(ProcName),
}

impl Claim {
    /// The abstract modules that are declared while the steps of the proof run: those that the lemma binds.
    pub fn modules(&self) -> &[Bind]
        ensures { result.now ≡ modules_of self.now }
    {
        match self {
            Claim::Lemma { statement, .. } => statement.modules.as_slice(),
            Claim::Loops(_) => &[],
        }
    }

    /// One owner more of all that the claim holds.
    pub fn share(&self, alloc: Global) -> Result<Claim, AllocError>
        ensures { IfOk result (λ claim. claim ≡ self.now) }
    {
        match self {
            Claim::Lemma {
                name,
                statement,
                binders,
            } => lemma_claim(alloc, name, statement, binders),
            Claim::Loops(procedure) => Ok(Claim::Loops(copied(alloc, procedure)?)),
        }
    }
}

/// That a lemma holds.
pub fn lemma_claim(
    alloc: Global,
    name: &Name,
    statement: &Sequent,
    binders: &Binders,
) -> Result<Claim, AllocError>
    ensures { IfOk result (λ claim. claim ≡ Claim.Lemma name.now statement.now binders.now) }
{
    let name = name.copy(alloc)?;
    let statement = statement.share()?;
    let binders = binders.share()?;
    Ok(Claim::Lemma {
        name,
        statement,
        binders,
    })
}

fn copied(alloc: Global, procedure: &ProcName) -> Result<ProcName, AllocError>
    ensures { IfOk result (λ made. made ≡ procedure.now) }
{
    let module = procedure.module.copy(alloc)?;
    let name = procedure.name.copy(alloc)?;
    Ok(ProcName { module, name })
}

/// An open proof: what is claimed, the goals that are left, the first one first, and whether the word `proof` may still follow.
#[derive(Drop)]
pub struct OpenProof {
    pub claim: Claim,
    pub goals: Goals,
    pub fresh: bool,
}

/// The modules that a lemma binds, or none.
fn modules_shared(alloc: Global, claim: &Claim) -> Result<SharedItems<Bind>, AllocError>
    ensures { IfOk result (λ made. made ≡ modules_of claim.now) }
{
    match claim {
        Claim::Lemma { statement, .. } => statement.modules.share(),
        Claim::Loops(_) => SharedItems::empty(alloc),
    }
}

/// One owner more of each goal.
fn shared(alloc: Global, goals: &Goals) -> Result<Goals, AllocError>
    ensures { IfOk result (λ made. made ≡ goals.now) }
{
    let mut made = Goals::new(alloc);
    let mut at = goals.len();
    while at > 0 {
        at -= 1;
        match goals.get(at) {
            Some(goal) => made.push(goal.share()?)?,
            None => {}
        }
    }
    Ok(made)
}

impl OpenProof {
    /// A goal of the proof with the modules of its lemma in its context.
    pub fn in_context(&self, alloc: Global, goal: &Sequent) -> Result<Sequent, AllocError>
        ensures { IfOk result (λ made. made ≡ in_context self.now.claim goal.now) }
    {
        goal.with_modules(modules_shared(alloc, &self.claim)?)
    }

    /// One owner more of all that the proof holds.
    pub fn share(&self, alloc: Global) -> Result<OpenProof, AllocError>
        ensures { IfOk result (λ proof. proof ≡ self.now) }
    {
        let claim = self.claim.share(alloc)?;
        let goals = shared(alloc, &self.goals)?;
        Ok(OpenProof {
            claim,
            goals,
            fresh: self.fresh,
        })
    }
}

/// Lets go of all but the first few names.
fn cut_back(names: &mut Names, count: usize)
    ensures { names.new ≡ take count names.old }
{
    while names.len() > count {
        let _last = names.pop();
    }
}

/// The declarations, the open proof, and the names of the lemmas in the order in which they were proved.
#[derive(Drop)]
pub struct State {
    pub scope: Scope,
    pub proof: Option<OpenProof>,
    pub lemmas: Names,
    ghost undeclared: { is_undeclared scope proof ≡ true },
}

impl State {
    /// The state before the first command.
    pub fn new(alloc: Global) -> State
        ensures scope { result.scope ≡ [] }
        ensures proof { result.proof ≡ None }
        ensures lemmas { result.lemmas ≡ [] }
    {
        State {
            scope: Scope::new(alloc),
            proof: None,
            lemmas: Items::new(alloc),
        }
    }

    /// Goes back to the first few declarations and lemmas, and to the proof that was open then. It takes no memory.
    pub fn restore(&mut self, declared: usize, proved: usize, proof: Option<OpenProof>)
        requires { is_undeclared (take declared self.old.scope) proof ≡ true }
        ensures scope { self.new.scope ≡ take declared self.old.scope }
        ensures proof { self.new.proof ≡ proof }
        ensures lemmas { self.new.lemmas ≡ take proved self.old.lemmas }
    {
        self.scope.truncate(declared);
        self.proof = proof;
        cut_back(&mut self.lemmas, proved);
    }
}
