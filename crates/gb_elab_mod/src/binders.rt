// What the binders of a lemma bind.

ghost use Rattle.std.specs.Prelude.{◌≡◌, ◌++◌, map, IfOk};
ghost use Rattle.gb_goal.specs.declared.scope.Binder.TheVariants.{Value};
ghost use Rattle.gb_elab_mod.specs.Lemmas.{binders_in, binds, each_binds};

use gb_core::SharedItems;
use gb_goal::scope::{Binder, Binders};
use gb_script::head::Head;
use gb_script::tree::Node;
use sqlite_items::Items;
use std::alloc::{AllocError, Global};

/// A value for each word, behind others.
fn with_values(found: Items<Binder>, words: &[Node]) -> Result<Items<Binder>, AllocError>
    ensures { IfOk result (λ made. made ≡ found ++ map (λ x. Value) words.now) }
{
    let mut all = found;
    for _word in words {
        all.push(Binder::Value)?;
    }
    Ok(all)
}

/// What a binder of this head and these parts binds, behind others.
fn with_binder(
    found: Items<Binder>,
    head: Head,
    parts: &[Node],
) -> Result<Items<Binder>, AllocError>
    ensures { IfOk result (λ made. made ≡ found ++ binds head parts.now) }
{
    let mut all = found;
    match head {
        Head::Values => match parts {
            [_, more, _] => {
                all.push(Binder::Value)?;
                with_values(all, more.parts.as_slice())
            }
            _ => Ok(all),
        },
        Head::Memory => {
            all.push(Binder::Memory)?;
            Ok(all)
        }
        Head::ModuleBind => {
            all.push(Binder::Module)?;
            Ok(all)
        }
        _ => Ok(all),
    }
}

fn each_binds(alloc: Global, list: &[Node]) -> Result<Items<Binder>, AllocError>
    ensures { IfOk result (λ made. made ≡ each_binds list.now) }
{
    let mut all = Items::new(alloc);
    for binder in list {
        all = with_binder(all, binder.head, binder.parts.as_slice())?;
    }
    Ok(all)
}

/// What the binders of a lemma bind, in the order of the text. Nothing of a tree that is no lemma.
pub fn binders(alloc: Global, tree: &Node) -> Result<Binders, AllocError>
    ensures { IfOk result (λ made. made ≡ binders_in tree.now) }
{
    match (tree.head, tree.parts.as_slice()) {
        (Head::Lemma, [_, list, _]) => {
            let binders = each_binds(alloc, list.parts.as_slice())?;
            SharedItems::new(alloc, binders)
        }
        _ => SharedItems::empty(alloc),
    }
}
