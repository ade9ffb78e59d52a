//! A claim about modules' globals is as true of them as of labels, where each has as many labels as the claim has things of it.

ghost use Rattle.std.specs.Prelude.{◌≡◌, Some, List, []};
ghost use Rattle.gb_terms.specs.declared.term.Term.{Term};
ghost use Rattle.gb_meaning.specs.Setting.{Setting};
ghost use Rattle.gb_meaning.specs.State.{State};
ghost use Rattle.gb_meaning.specs.Terms.{Speaks, val};
ghost use Rattle.gb_meaning.specs.Written.{type_of};
ghost use Rattle.gb_laws.specs.Context.{IsSettingOf};
ghost use Rattle.gb_laws.specs.Typing.{Context, IsTyped};
ghost use Rattle.gb_walk.specs.Clash.{Exclusions};
ghost use Rattle.gb_labels.specs.Reads.{Vars};
ghost use Rattle.gb_labels.specs.Labels.{Labels};
ghost use Rattle.gb_labels.specs.Things.{most_labels};
ghost use Rattle.gb_closing_laws.specs.Pairs.{Pairing};
ghost use Rattle.gb_closing_laws.specs.Related.{ReadTypes, MeaningRelated, StateRelated};
ghost use Rattle.gb_closing_laws.specs.Needs.{quantified, opened, HasFirsts, HasRoom, Counts};
ghost use Rattle.gb_closing_laws.specs.Model.{AreAlike, AreApart, SaysOfMemories, HaveLabels, OfClaim, IsClaimed, HasReadValues, IsModelled};

/// In two settings that differ in the modules' globals alone, a counted term has related meanings in related states, where there is room
/// for the pairs that its quantifiers need, and first values are pairs as far as its options need them.
pub fn related_terms()
    ensures { (es : Exclusions) (c : Context) (g h : Setting) → IsSettingOf c g → AreAlike es g h → AreApart c → (j k : Speaks) → SaysOfMemories g j → SaysOfMemories h k →
        (T : ReadTypes) (vss : List Vars) (t : Term) → IsTyped c t → Counts es T vss t → (P : Pairing g.types h.types) (s r : State) → HasFirsts g.types h.types P.pairs (opened t) →
        HasRoom g.types h.types P.pairs (quantified t) → StateRelated g h P.pairs T c.bound vss s r → MeaningRelated g.types h.types P.pairs (type_of t) (val g j t s) (val h k t r) }
{}

/// In a setting with as many values of each module's globals as a claim has things of them, or with as many values as another
/// setting has, the variables of the claim have values under which it is as true as it is in a state of the other setting.
pub fn small_model()
    ensures { (es : Exclusions) (c : Context) (g h : Setting) → IsSettingOf c g → AreAlike es g h → AreApart c → c.bound ≡ [] → (j k : Speaks) → SaysOfMemories g j → SaysOfMemories h k →
        (T : ReadTypes) (hyps : List Term) (t : Term) → OfClaim (IsClaimed c T) hyps t → (most : Labels) → most_labels es hyps t ≡ Some most → HaveLabels g.types h.types most →
        (s : State) → HasReadValues g T s → IsModelled g j s h k hyps t }
{}
