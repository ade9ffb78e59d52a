//! Choices of numbers of labels, and settings for them.

ghost use Rattle.std.specs.Prelude.{◌≡◌, ◌<◌, ℕ};
ghost use Rattle.gb_core.specs.declared.ty.Ty.{Ty};
ghost use Rattle.gb_core.specs.declared.ty.Ty.TheVariants.{Glob};
ghost use Rattle.gb_terms.specs.declared.term.Term.{Term};
ghost use Rattle.gb_meaning.specs.Names.{Name};
ghost use Rattle.gb_meaning.specs.Setting.{Setting};
ghost use Rattle.gb_meaning.specs.State.{State};
ghost use Rattle.gb_meaning.specs.Terms.{quiet, val};
ghost use Rattle.gb_meaning.specs.Values.{values};
ghost use Rattle.gb_meaning.specs.Globs.{IsGlobless};
ghost use Rattle.gb_meaning.specs.Naming.{AnyName};
ghost use Rattle.gb_typing.specs.Naming.{NoName, TermNames};
ghost use Rattle.gb_walk.specs.Clash.{Exclusions};
ghost use Rattle.gb_labels.specs.Memories.{AreKeptApart};
ghost use Rattle.gb_labels.specs.Labels.{Labels, labels, choices, choice_at};
ghost use Rattle.gb_closing_laws.specs.Chosen.{AreUpTo};
ghost use Rattle.gb_closing_laws.specs.Settings.{AreUnnamed, with_labels};

/// Numbers of labels from 1 up to greatest ones are one of the choices up to these.
pub fn each_choice()
    ensures { (most ls : Labels) → AreUpTo most ls → (i : ℕ) × (i < choices most) × (choice_at most i ≡ ls) }
{}

/// With labels the globals of each module have the values of so many labels. Types that speak of no module keep their values, and
/// terms that speak of none mean the same. Variables that don't clash are kept apart, where no variable that restrictions exclude is a
/// global of the name that the labels have.
pub fn settings_with_labels()
    ensures labels { (own : Name) (num : Name → ℕ) (g : Setting) (a : Name) → values (with_labels own num g).types (Glob a) ≡ values (with_labels own num g).types (labels (num a)) }
    ensures others { (own : Name) (num : Name → ℕ) (g : Setting) (t : Ty) → IsGlobless t → values g.types t ≡ values (with_labels own num g).types t }
    ensures apart { (own : Name) (num : Name → ℕ) (g : Setting) (es : Exclusions) → AreUnnamed own es → AreKeptApart es (with_labels own num g).types }
    ensures terms { (own : Name) (num : Name → ℕ) (g : Setting) (e : Term) → TermNames NoName AnyName e → (s : State) → val g quiet e s ≡ val (with_labels own num g) quiet e s }
{}
