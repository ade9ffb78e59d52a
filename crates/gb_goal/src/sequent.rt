// Sequents.

ghost use Rattle.std.specs.Prelude.{◌≡◌, [], IfOk};
ghost use Rattle.gb_terms.specs.Nodes.{saturated};
ghost use Rattle.gb_goal.specs.Nodes.{hyp_nodes, sequent_nodes};

use gb_core::SharedItems;
use gb_core::name::Name;
use gb_terms::decl::TypedName;
use gb_terms::module::Bind;
use gb_terms::nodes::nodes_of;
use gb_terms::term::Form;
use sqlite_items::Items;
use std::alloc::{AllocError, Global};

/// A hypothesis.
pub struct Hyp {
    pub name: Name,
    pub form: Form,
}

impl Drop for Hyp {
    fn drop(self) {
        let Hyp { name, form } = self;
        drop(name);
        drop(form);
    }
}

/// A goal: in its context of logical variables, memories, abstract modules and hypotheses, the conclusion holds.
pub struct Sequent {
    pub logical: SharedItems<TypedName>,
    pub memories: SharedItems<Name>,
    pub modules: SharedItems<Bind>,
    pub hyps: SharedItems<Hyp>,
    pub conclusion: Form,
}

impl Drop for Sequent {
    fn drop(self) {
        let Sequent {
            logical,
            memories,
            modules,
            hyps,
            conclusion,
        } = self;
        drop(logical);
        drop(memories);
        drop(modules);
        drop(hyps);
        drop(conclusion);
    }
}

pub type Sequents = Items<Sequent>;

/// The goal of a conclusion in the empty context.
pub fn ambient(alloc: Global, conclusion: Form) -> Result<Sequent, AllocError>
    ensures { IfOk result (λ made. made ≡ record { logical = []; memories = []; modules = []; hyps = []; conclusion = conclusion }) }
{
    let logical = SharedItems::empty(alloc)?;
    let memories = SharedItems::empty(alloc)?;
    let modules = SharedItems::empty(alloc)?;
    let hyps = SharedItems::empty(alloc)?;
    Ok(Sequent {
        logical,
        memories,
        modules,
        hyps,
        conclusion,
    })
}

impl Sequent {
    /// The same context with another conclusion.
    pub fn with_conclusion(&self, conclusion: Form) -> Result<Sequent, AllocError>
        ensures { IfOk result (λ made. made ≡ record self.now { conclusion = conclusion }) }
    {
        let logical = self.logical.share()?;
        let memories = self.memories.share()?;
        let modules = self.modules.share()?;
        let hyps = self.hyps.share()?;
        Ok(Sequent {
            logical,
            memories,
            modules,
            hyps,
            conclusion,
        })
    }

    /// The same goal with these modules in its context.
    pub fn with_modules(&self, modules: SharedItems<Bind>) -> Result<Sequent, AllocError>
        ensures { IfOk result (λ made. made ≡ record self.now { modules = modules }) }
    {
        let logical = self.logical.share()?;
        let memories = self.memories.share()?;
        let hyps = self.hyps.share()?;
        let conclusion = self.conclusion.share()?;
        Ok(Sequent {
            logical,
            memories,
            modules,
            hyps,
            conclusion,
        })
    }

    /// One owner more of all that the goal holds.
    pub fn share(&self) -> Result<Sequent, AllocError>
        ensures { IfOk result (λ made. made ≡ self.now) }
    {
        let conclusion = self.conclusion.share()?;
        self.with_conclusion(conclusion)
    }
}

fn nodes_of_hyps(hyps: &[Hyp]) -> u64
    ensures { result ≡ saturated (hyp_nodes hyps.now) }
{
    let mut total = 0u64;
    for h in hyps {
        total = total.saturating_add(nodes_of(&h.form));
    }
    total
}

/// The number of nodes of the hypotheses and the conclusion, or 2^64 - 1 where they have more.
pub fn nodes(s: &Sequent) -> u64
    ensures { result ≡ saturated (sequent_nodes s.now) }
{
    nodes_of_hyps(s.hyps.as_slice()).saturating_add(nodes_of(&s.conclusion))
}
