// The enumerations that commands declare.

ghost use Rattle.std.specs.Prelude.{◌≡◌, [], ◌∷◌, map, take, IfOk, OnOk};
ghost use Rattle.gb_script.specs.Tree.{text_of, head_of, parts_of};
ghost use Rattle.gb_session.specs.Commands.{enumeration, enumerated};

use gb_core::name::Names;
use gb_print_names::bound_names::Enumeration;
use gb_script::head::Head;
use gb_script::tree::Node;
use sqlite_items::Items;
use std::alloc::{AllocError, Global};

pub type Enumerations = Items<Enumeration>;

fn texts(alloc: Global, nodes: &[Node]) -> Result<Names, AllocError>
    ensures { IfOk result (λ names. names ≡ map text_of nodes.now) }
{
    let mut names = Items::new(alloc);
    for node in nodes {
        names.push(node.text.copy(alloc)?)?;
    }
    Ok(names)
}

fn note_enumeration(
    alloc: Global,
    made: &mut Enumerations,
    name: &Node,
    constants: &[Node],
) -> Result<(), AllocError>
    requires { made.old ≡ [] }
    ensures { OnOk result (made.new ≡ record { name = text_of name.now; constants = map text_of constants.now } ∷ []) }
{
    let constants = texts(alloc, constants)?;
    let name = name.text.copy(alloc)?;
    made.push(Enumeration { name, constants })
}

/// The enumeration that a command declares, if it declares one.
pub fn enumerated(alloc: Global, head: Head, parts: &[Node]) -> Result<Enumerations, AllocError>
    ensures { IfOk result (λ made. made ≡ enumerated head parts.now) }
{
    let mut made = Items::new(alloc);
    if let Head::TypeDeclaration = head {
        if let [name, declared] = parts {
            if let Head::Enumeration = declared.head {
                note_enumeration(alloc, &mut made, name, declared.parts.as_slice())?;
            }
        }
    }
    Ok(made)
}

/// Lets go of all but the first few.
pub fn cut_back(enumerations: &mut Enumerations, count: usize)
    ensures { enumerations.new ≡ take count enumerations.old }
{
    while enumerations.len() > count {
        let _last = enumerations.pop();
    }
}
