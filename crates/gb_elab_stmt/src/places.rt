// The places of statements.

ghost use Rattle.std.specs.Prelude.{◌≡◌, ◌++◌, IfOk, OnOk};
ghost use Rattle.gb_elab_stmt.specs.Statements.{counting, inside, places, with_places};

use gb_core::place::Place;
use gb_script::head::Head;
use gb_script::tree::Node;
use sqlite_items::Items;
use std::alloc::{AllocError, Global};

pub type Places = Items<Place>;

/// Adds the places of a statement and of those in it, or of the statements of a block.
#[cycle(places)]
#[tactic(auto, using(crate::proofs::Stated::places_is))]
fn add_places(found: &mut Places, tree: &Node) -> Result<(), AllocError>
    ensures { OnOk result (found.new ≡ found.old ++ places tree.now) }
{
    add_counted(found, tree.head, tree.parts.as_slice(), tree.place)
}

/// .. from its head, its parts and its place.
#[cycle(places)]
fn add_counted(
    found: &mut Places,
    head: Head,
    parts: &[Node],
    place: Place,
) -> Result<(), AllocError>
    ensures { OnOk result (found.new ≡ found.old ++ counting head (with_places parts.now) place) }
{
    match head {
        Head::If => {
            found.push(place)?;
            match parts {
                [_, yes, no] => {
                    add_places(found, yes)?;
                    add_places(found, no)
                }
                _ => Ok(()),
            }
        }
        Head::While => {
            found.push(place)?;
            match parts {
                [_, rest] => add_places(found, rest),
                _ => Ok(()),
            }
        }
        Head::Loop => match parts {
            [_, list @ ..] => add_inside(found, list),
            [] => found.push(place),
        },
        Head::NamedLoop => match parts {
            [_, word, _, list @ ..] => {
                found.push(word.place)?;
                add_inside(found, list)
            }
            _ => found.push(place),
        },
        Head::List => add_inside(found, parts),
        _ => found.push(place),
    }
}

/// Adds the places of the statements of these parts.
#[cycle(places)]
fn add_inside(found: &mut Places, parts: &[Node]) -> Result<(), AllocError>
    ensures { OnOk result (found.new ≡ found.old ++ inside (with_places parts.now)) }
{
    for part in parts {
        add_places(found, part)?;
    }
    Ok(())
}

/// The places of the statements of a block, those in others among them, in the order of the text.
pub fn places(alloc: Global, block: &Node) -> Result<Places, AllocError>
    ensures { IfOk result (λ found. found ≡ places block.now) }
{
    let mut found = Items::new(alloc);
    add_places(&mut found, block)?;
    Ok(found)
}
