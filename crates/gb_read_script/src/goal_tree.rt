// From the lines of a goal to its tree.

ghost use Rattle.std.specs.Prelude.{IfOk};
ghost use Rattle.std.specs.List.{All};
ghost use Rattle.gb_script.specs.Parsing.{Spells};
ghost use Rattle.gb_language.specs.Language.{goal_language, IsLine, IsLineTree, Of};
ghost use Rattle.gb_read_script.specs.GoalLines.{IsEntry, IsConclusion};
ghost use Rattle.gb_read_script.specs.Goal.{AreTreesOf};

use crate::goal_lines::{ReadGoal, ReadLine};
use gb_language::reading::line_tree;
use gb_script::tree::{Node, Nodes};
use sqlite_items::Items;
use std::alloc::{AllocError, Global};

/// The trees of a goal: an entry of its context is a variable, a memory or a module, or a node `Hypothesis`.
pub struct SequentTree {
    pub context: Nodes,
    pub conclusion: Node,
}

impl Drop for SequentTree {
    fn drop(self) {
        let SequentTree {
            context,
            conclusion,
        } = self;
        drop(context);
        drop(conclusion);
    }
}

// The tree that a line is.
fn tree_of(alloc: Global, line: &ReadLine) -> Result<Node, AllocError>
    ghost given: { Of }
    requires part { IsLine given.part }
    requires steps { Spells goal_language given.part given.kinds line.now.steps }
    ensures { IfOk result (λ x. IsLineTree given.part given.kinds line.now.text x) }
{
    let steps = Vec::from_slice(alloc, line.steps.as_slice())?;
    line_tree(alloc, &line.text, steps)
}

/// The tree of a goal.
#[tactic(auto, using(crate::proofs::Trees::one_more))]
pub fn tree(alloc: Global, goal: &ReadGoal) -> Result<SequentTree, AllocError>
    requires context { All IsEntry goal.now.context }
    requires conclusion { IsConclusion goal.now.conclusion }
    ensures { IfOk result (AreTreesOf goal.now) }
{
    let mut context = Items::new(alloc);
    for line in goal.context.as_slice() {
        context.push(tree_of(alloc, line)?)?;
    }
    let conclusion = tree_of(alloc, &goal.conclusion)?;
    Ok(SequentTree {
        context,
        conclusion,
    })
}
