//! Laws of forms that read nothing that clashes with a variable.

ghost use Rattle.std.specs.Prelude.{◌≡◌, None};
ghost use Rattle.gb_core.specs.declared.var.Var.{Var};
ghost use Rattle.gb_terms.specs.declared.op.Side.{Side};
ghost use Rattle.gb_terms.specs.declared.op.Side.TheVariants.{Left, Right};
ghost use Rattle.gb_terms.specs.declared.term.Term.{Term};
ghost use Rattle.gb_walk.specs.Clash.{Exclusions, first_clash};
ghost use Rattle.gb_meaning.specs.Setting.{Setting};
ghost use Rattle.gb_laws.specs.Uses.{IsWithin};
ghost use Rattle.gb_laws.specs.Written.{IsSide};
ghost use Rattle.gb_typing.specs.Context.{Context};
ghost use Rattle.gb_typing.specs.Typing.{IsTyped};
ghost use Rattle.gb_typing.specs.Puts.{Readable, reading};
ghost use Rattle.gb_typing.specs.Forms.{IsAlone, IsKeptOff};

/// Where no clash is found in a typed form, the form reads variables alone among which no other one clashes with that variable in any
/// setting where what restrictions exclude is kept off; likewise of a variable on the left and one on the right.
pub fn clashes()
    ensures one { (es : Exclusions) (c : Context) (f : Term) → IsTyped c f → (r : Side) → IsSide r → (x : Var) → first_clash es r x f ≡ None →
        (P : Readable) × IsWithin (reading P) f × ((g : Setting) → IsKeptOff es g → IsAlone g x (P r)) }
    ensures two { (es : Exclusions) (c : Context) (f : Term) → IsTyped c f → (x y : Var) → first_clash es Left x f ≡ None → first_clash es Right y f ≡ None →
        (P : Readable) × IsWithin (reading P) f × ((g : Setting) → IsKeptOff es g → IsAlone g x (P Left)) × ((g : Setting) → IsKeptOff es g → IsAlone g y (P Right)) }
{}
