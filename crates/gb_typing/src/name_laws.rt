//! Names that are free.

ghost use Rattle.std.specs.Prelude.{◌≡◌, ◌++◌, List};
ghost use Rattle.gb_terms.specs.declared.module.Bind.{Bind};
ghost use Rattle.gb_meaning.specs.Names.{Name};
ghost use Rattle.gb_meaning.specs.Declared.{Declarations, module_named};
ghost use Rattle.gb_meaning.specs.Naming.{IsFresh};
ghost use Rattle.gb_typing.specs.Naming.{IsKept};
ghost use Rattle.gb_typing.specs.Added.{IsNewModule, IsClosedScope};

/// In a scope as scripts make it, an abstract module is new under each name that is free. A name that no declaration
/// has stands for none of them, and it goes on to name the module that it did.
pub fn free_names()
    ensures modules { (ds : Declarations) (n : Name) (b : Bind) → IsClosedScope ds → IsFresh ds n → b.name ≡ n →
        IsNewModule ds n b }
    ensures kept { (es : Declarations) (hs : List Name) (n : Name) → IsFresh es n → IsKept es hs n }
    ensures stays { (ds es : Declarations) (n : Name) → IsFresh es n → module_named (ds ++ es) n ≡ module_named ds n }
{}
