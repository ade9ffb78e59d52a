//! What judgments say of procedures that answer for an oracle.

ghost use Rattle.std.specs.Prelude.{Bool, List};
ghost use Rattle.gb_meaning.specs.Names.{Map};
ghost use Rattle.gb_meaning.specs.Program.{Routine};
ghost use Rattle.gb_meaning.specs.Setting.{Setting};
ghost use Rattle.gb_meaning.specs.Values.{Global};
ghost use Rattle.gb_meaning.specs.Declared.{Signature};
ghost use Rattle.gb_prog.specs.Coupled.{AreCoupled};
ghost use Rattle.gb_prog.specs.KeptProperty.{Keeps};
ghost use Rattle.gb_prog.specs.OracleJudged.{IsFor, HasOwnNames, AreJudgedAlike, IsJudgedToKeep, AreJudgedUntil};
ghost use Rattle.gb_prog.specs.Until.{AreCoupledUntil};

/// Procedures of a signature's types, whose parameters may have names of their own, that are coupled by a judgment, on a relation of globals and on results that are read the same, are coupled
/// so from all arguments of the signature's types; and so on, until an event has come about. A property of globals that a judgment says a procedure keeps is kept from them.
pub fn judged_answers()
    ensures coupled { (g : Setting) (gs : List Global) (R : Map → Map → Bool) (s : Signature) (r q : Routine) → IsFor g s r → IsFor g s q → HasOwnNames r → HasOwnNames q →
        AreJudgedAlike g R s.result r q → AreCoupled g gs R s r q }
    ensures until { (g : Setting) (gs : List Global) (B : Map → Bool) (R : Map → Map → Bool) (s : Signature) (r q : Routine) → IsFor g s r → IsFor g s q → HasOwnNames r → HasOwnNames q →
        AreJudgedUntil g B R s.result r q → AreCoupledUntil g gs B R s r q }
    ensures kept { (g : Setting) (I : Map → Bool) (s : Signature) (r : Routine) → IsFor g s r → IsJudgedToKeep g I r → Keeps g I s r }
{}
