// Laws of names.

ghost use Rattle.std.specs.Prelude.{◌≢◌, ◌<◌, ◌^◌, ℕ, [], ◌∷◌, length};
ghost use Rattle.gb_print_names.specs.BoundNames.{Place, bound_name};

/// Binders with different numbers of binders around them have different names, whatever their letters and whatever is in scope. So no
/// binder hides the name of one around it.
pub fn names_differ()
    ensures { (l k : ℕ) (p q : Place) → length p.bound < 2 ^ 64 → length q.bound < 2 ^ 64 → length p.bound ≢ length q.bound → bound_name (l ∷ []) p ≢ bound_name (k ∷ []) q }
{}
