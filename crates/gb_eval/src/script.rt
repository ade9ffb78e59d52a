// The operators of a script.

ghost use Rattle.std.specs.Prelude.{◌≡◌, length, pred};
ghost use Rattle.std.specs.Option.{option_copied};
ghost use Rattle.gb_eval.specs.Script.{body_at};

use gb_core::name::Name;
use gb_goal::scope::{Entry, Scope};
use gb_terms::term::Term;

/// The operators of a script, which are opened in one another so many times at most.
#[derive(Clone, Copy)]
pub struct Script<'a> {
    pub scope: &'a Scope,
    pub depth: usize,
}

/// A script whose operators are opened as often as it has names. Bodies name earlier operators alone, so each is opened that
/// evaluation comes to.
pub fn script_of<'a>(scope: &'a Scope) -> Script<'a>
    ensures scope { result.scope.now ≡ scope.now }
    ensures depth { result.depth ≡ length scope.now }
{
    Script {
        scope,
        depth: scope.len(),
    }
}

/// The body of the operator of this name, where it is opened.
pub fn body_of<'a>(script: &Script<'a>, name: &Name) -> Option<&'a Term>
    ensures { option_copied result ≡ body_at script.now.scope.now script.now.depth name.now }
{
    if script.depth == 0 {
        return None;
    }
    match script.scope.entry(name) {
        Some(Entry::Operator(operator)) => Some(&operator.body),
        _ => None,
    }
}

/// The script as bodies see it: its operators are opened once less.
pub fn inside<'a>(script: &Script<'a>) -> Script<'a>
    ensures scope { result.scope.now ≡ script.now.scope.now }
    ensures depth { result.depth ≡ pred script.now.depth }
{
    Script {
        scope: script.scope,
        depth: script.depth.saturating_sub(1),
    }
}
