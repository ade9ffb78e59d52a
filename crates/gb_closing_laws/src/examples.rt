//! How many labels small forms need.

ghost use Rattle.std.specs.Prelude.{◌≡◌, Some, None, [], ◌∷◌};
ghost use Rattle.gb_core.specs.declared.var.Var.TheVariants.{Glob};
ghost use Rattle.gb_labels.specs.Labels.{choices, choice_at};
ghost use Rattle.gb_labels.specs.Things.{most_labels};
ghost use Rattle.gb_closing_laws.specs.Examples.{a, b, alike, both_in_each, in_each_memory, one_value, only_one, turned};

/// Two reads need two labels, however often they stand; a quantified variable counts too, and so does what is read of a quantified
/// memory, where no two of its variables clash: the globals of A and of B may both be read where A's restriction excludes B. An
/// option's value counts once, however often it stands, beside the option. Of one or two labels for A and of one to three for B the
/// fifth choice is of two and two.
#[tactic(auto, using(crate::proofs::SmallForms::globals_hold, crate::proofs::SmallForms::others_hold, crate::proofs::SmallForms::options_hold, crate::proofs::SmallForms::one_term))]
pub fn labels_of_small_forms()
    ensures alike { most_labels [] [] alike ≡ Some (record { name = a; count = 2 } ∷ []) }
    ensures turned { most_labels [] (alike ∷ []) turned ≡ Some (record { name = a; count = 2 } ∷ []) }
    ensures only_one { most_labels [] [] only_one ≡ Some (record { name = a; count = 2 } ∷ []) }
    ensures in_each_memory { most_labels [] [] in_each_memory ≡ Some (record { name = a; count = 2 } ∷ []) }
    ensures both_in_each { most_labels [] [] both_in_each ≡ None }
    ensures kept_off { most_labels (record { «module» = a; variables = Glob b ∷ [] } ∷ []) [] both_in_each ≡ Some (record { name = a; count = 2 } ∷ record { name = b; count = 2 } ∷ []) }
    ensures one_value { most_labels [] [] one_value ≡ Some (record { name = a; count = 2 } ∷ []) }
    ensures how_many { choices (record { name = a; count = 2 } ∷ record { name = b; count = 3 } ∷ []) ≡ 6 }
    ensures fifth { choice_at (record { name = a; count = 2 } ∷ record { name = b; count = 3 } ∷ []) 4 ≡ record { name = a; count = 2 } ∷ record { name = b; count = 2 } ∷ [] }
{}
