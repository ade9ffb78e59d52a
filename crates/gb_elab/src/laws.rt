//! Laws of typing.

ghost use Rattle.std.specs.Prelude.{◌≡◌, List, Option};
ghost use Rattle.gb_core.specs.declared.ty.Ty.{Ty};
ghost use Rattle.gb_names.specs.declared.bindings.Binding.{Binding};
ghost use Rattle.gb_terms.specs.declared.term.Term.{Term};
ghost use Rattle.gb_script.specs.declared.tree.Node.{Node};
ghost use Rattle.gb_names.specs.Wanted.{HasType};
ghost use Rattle.gb_goal.specs.Answers.Answer.{given};
ghost use Rattle.gb_names.specs.Environment.{Environment};
ghost use Rattle.gb_elab.specs.Forms.{elaborated};

/// What a form means has the wanted type.
pub fn wanted_types()
    ensures { (t : Node) (at : Environment) (bound : List Binding) (w : Option Ty) (u : Term) →
        elaborated t at bound w ≡ given u → HasType w u }
{}
