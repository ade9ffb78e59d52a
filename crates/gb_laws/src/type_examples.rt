//! Terms that are well typed, and terms that aren't.

ghost use Rattle.gb_core.specs.declared.ty.Ty.TheVariants as ty;
ghost use Rattle.gb_terms.specs.declared.op.Op.TheVariants as op;
ghost use Rattle.gb_laws.specs.Typing.{Context, IsTyped};
ghost use Rattle.gb_meaning.specs.Names.{Name};
ghost use Rattle.gb_meaning.specs.Setting.{Setting};
ghost use Rattle.gb_laws.specs.Context.{NamesFull, IsFullOperator};
ghost use Rattle.gb_laws.specs.TypeExamples.{within, innermost, doubled, coin, coin_measure, drawn_by};

/// `b /\ b` is well typed for b of type `bool`, and `b + b` isn't.
pub fn operators()
    ensures conjunction { (c : Context) → IsTyped (within c ty.Bool) (doubled op.And ty.Bool ty.Bool) }
    ensures sum { (c : Context) → IsTyped (within c ty.Bool) (doubled op.Plus ty.Bool ty.Bool) → ⊥ }
{}

/// `mu {0,1} (fun b => b)` is well typed; with an event that reads a real it isn't.
pub fn measures()
    ensures event { (c : Context) → IsTyped c (coin_measure (innermost ty.Bool)) }
    ensures real { (c : Context) → IsTyped c (coin_measure (innermost ty.Real)) → ⊥ }
{}

/// The fair coin is of full weight, also where another operator of the script gives distributions that lose weight; what such
/// an operator itself gives isn't known to be of full weight.
pub fn full_coin()
    ensures coin { (g : Setting) → NamesFull g coin }
    ensures operator { (g : Setting) (n : Name) → NamesFull g (drawn_by n) → IsFullOperator g n }
{}
