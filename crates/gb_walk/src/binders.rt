// Heads that bind.

ghost use Rattle.std.specs.Prelude.{◌≡◌};
ghost use Rattle.gb_walk.specs.Layers.{is_binder};

use gb_terms::term::Head;

/// Whether a head binds something in its last argument.
pub fn is_binder(head: &Head) -> bool
    ensures { result ≡ is_binder head.now }
{
    matches!(
        head,
        Head::All(_)
            | Head::Some(_)
            | Head::AllMemory
            | Head::SomeMemory
            | Head::AllModule(_)
            | Head::Mu
            | Head::Sum(_)
            | Head::Map
            | Head::Restrict
    )
}
