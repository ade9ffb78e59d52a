// The open goals of a proof.

ghost use Rattle.std.specs.Prelude.{◌≡◌, ◌↔◌, [], ◌∷◌, ◌++◌, length, map, drop, sum, IsTrue, OnOk, OnErr, MatchOption};
ghost use Rattle.std.specs.List.{slice_get};
ghost use Rattle.std.specs.Option.{option_copied};
ghost use Rattle.gb_terms.specs.Nodes.{saturated};
ghost use Rattle.gb_goal.specs.Nodes.{sequent_nodes};

use gb_core::Stack;
use gb_goal::sequent::{Sequent, Sequents, nodes};
use std::alloc::{AllocError, Global};
use std::marker::Model;

/// An open goal, and how many nodes it and the goals below it have together: 2^64 - 1 where they have more.
#[derive(Drop)]
struct Open {
    goal: Sequent,
    nodes: u64,
}

/// The open goals of a proof, on a stack with the first one on top, so that a step costs nothing for the goals on which it
/// doesn't work. Contracts see their list, the first goal first.
#[derive(Drop)]
pub struct Goals {
    stack: Stack<Open>,
}

impl Model for Goals {
    ghost use Rattle.std.specs.Prelude.{List};
    ghost use Rattle.std.specs.Coded.{codes};
    ghost use Rattle.gb_goal.specs.declared.sequent.Sequent.{Sequent};
    ghost use Rattle.gb_goal.specs.contracts.sequent.Sequent as sequent;
    ghost use Rattle.gb_steps.specs.Goals.{goals_of, AreCounted};

    ghost Value = { List Sequent };

    ghost coded = { Prim.hlevel (codes, sequent.the_row.coded) };

    ghost view = { λ g. goals_of g.stack };

    ghost invariant = { λ g. AreCounted g.stack };
}

impl Goals {
    pub fn new(alloc: Global) -> Goals
        ensures { result ≡ [] }
    {
        Goals {
            stack: Stack::new(alloc),
        }
    }

    pub fn len(&self) -> usize
        ensures { result ≡ length self.now }
    {
        self.stack.len()
    }

    pub fn is_empty(&self) -> bool
        ensures { IsTrue result ↔ (self.now ≡ []) }
    {
        self.len() == 0
    }

    /// The goal behind this many others.
    pub fn get(&self, at: usize) -> Option<&Sequent>
        ensures { option_copied result ≡ slice_get self.now at }
    {
        match self.stack.get(at) {
            Some(open) => Some(&open.goal),
            None => None,
        }
    }

    /// The number of nodes of the goals behind this many others, or 2^64 - 1 where they have more.
    pub fn nodes_behind(&self, at: usize) -> u64
        ensures { result ≡ saturated (sum (map sequent_nodes (drop at self.now))) }
    {
        match self.stack.get(at) {
            Some(open) => open.nodes,
            None => 0,
        }
    }

    /// Takes the first goal off, if there is one.
    pub fn pop(&mut self) -> Option<Sequent>
        ensures { MatchOption result ((self.old ≡ []) × (self.new ≡ [])) (λ first. self.old ≡ first ∷ self.new) }
    {
        match self.stack.pop() {
            Some(open) => Some(open.goal),
            None => None,
        }
    }

    /// Puts a goal in front of the others.
    pub fn push(&mut self, goal: Sequent) -> Result<(), AllocError>
        ensures ok { OnOk result (self.new ≡ goal ∷ self.old) }
        ensures err { OnErr result (self.new ≡ self.old) }
    {
        let nodes = nodes(&goal).saturating_add(self.nodes_behind(0));
        self.stack.push(Open { goal, nodes })
    }

    /// Puts these goals in the place of the first one. Where memory runs out nothing is said of the goals.
    pub fn replace_first(&mut self, goals: Sequents) -> Result<(), AllocError>
        ensures { OnOk result (self.new ≡ goals ++ drop 1 self.old) }
    {
        let _replaced = self.pop();
        let mut rest = goals;
        while let Some(goal) = rest.pop() {
            self.push(goal)?;
        }
        Ok(())
    }
}
