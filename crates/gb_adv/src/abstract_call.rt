//! Procedures of abstract modules, and the calls of them that end bodies.

ghost use Rattle.std.specs.Prelude.{◌≡◌};
ghost use Rattle.std.specs.Option.{option_map};
ghost use Rattle.gb_goal.specs.Interfaces.{procedure_type};
ghost use Rattle.gb_call.specs.LastCall.{call_seen};
ghost use Rattle.gb_adv.specs.Abstract.{abstract_seen, any_one, calling, procedure_seen, same_abstract};

use gb_call::last_call::Last;
use gb_core::Shared;
use gb_core::name::Name;
use gb_core::same::same_name;
use gb_goal::interface::{ProcedureType, procedure_type};
use gb_goal::scope::Scope;
use gb_mods::meant::Meant;
use gb_terms::module::ProcRef;

/// A procedure of an abstract module: the module, its name and its type, and the oracles that its signature names.
#[derive(Clone, Copy)]
pub struct AbstractProcedure<'a> {
    pub owner: &'a Name,
    pub name: &'a Name,
    pub ty: ProcedureType<'a>,
    pub oracles: &'a [Shared<ProcRef>],
}

/// A call at the end of a body, of such a procedure.
#[derive(Clone, Copy)]
pub struct AbstractCall<'a> {
    pub call: Last<'a>,
    pub called: AbstractProcedure<'a>,
}

impl AbstractProcedure<'_> {
    /// Whether both are the same procedure of the same module, whatever modules stand for the module's parameters.
    pub fn is_same(&self, other: &AbstractProcedure<'_>) -> bool
        ensures { result ≡ same_abstract (procedure_seen self.now) (procedure_seen other.now) }
    {
        same_name(self.owner, other.owner) && same_name(self.name, other.name)
    }
}

/// A reference that stands for this, where that is a procedure of an abstract module.
pub fn any_one<'a>(
    scope: &'a Scope,
    reference: &'a ProcRef,
    meant: &'a Meant,
) -> Option<AbstractProcedure<'a>>
    ensures { option_map procedure_seen result ≡ any_one reference.now (procedure_type scope.now None reference.now) meant.now }
{
    match (meant, procedure_type(scope, None, reference)) {
        (Meant::Any(owner, oracles), Some(ty)) => Some(AbstractProcedure {
            owner,
            name: &reference.name,
            ty,
            oracles: oracles.as_slice(),
        }),
        _ => None,
    }
}

/// A call of a reference that stands for this, where that is a procedure of an abstract module.
pub fn abstract_call<'a>(
    scope: &'a Scope,
    call: Last<'a>,
    meant: &'a Meant,
) -> Option<AbstractCall<'a>>
    ensures { option_map abstract_seen result ≡ option_map (calling (call_seen call.entry))
        (any_one (call_seen call.entry).procedure (procedure_type scope.now None (call_seen call.entry).procedure) meant.now) }
{
    let called = any_one(scope, call.procedure.get(), meant)?;
    Some(AbstractCall { call, called })
}
