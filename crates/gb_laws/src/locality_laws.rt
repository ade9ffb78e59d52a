//! Runs depend on what they read, and change what they write, alone.

ghost use Rattle.std.specs.Prelude.{◌≡◌, List};
ghost use Rattle.gb_core.specs.declared.value.Value.{Value};
ghost use Rattle.gb_dist.specs.WeightedList.{dmap, Every};
ghost use Rattle.gb_meaning.specs.Names.{Path, Map, get, set};
ghost use Rattle.gb_meaning.specs.Values.{Types};
ghost use Rattle.gb_meaning.specs.Memory.{Memory};
ghost use Rattle.gb_meaning.specs.Program.{Program, Routine};
ghost use Rattle.gb_meaning.specs.Setting.{Setting};
ghost use Rattle.gb_meaning.specs.State.{State, inside};
ghost use Rattle.gb_meaning.specs.Runs.{out, outcomes};
ghost use Rattle.gb_laws.specs.Cells.{Key, Cells, get_at, set_at, Agree, GlobalsAgree, Among};
ghost use Rattle.gb_laws.specs.States.{Near};
ghost use Rattle.gb_laws.specs.Pairs.{Zip, SameOrKept, SameOutcome};
ghost use Rattle.gb_laws.specs.Reads.{program_cells, routine_cells, Unread};
ghost use Rattle.gb_laws.specs.Writes.{Unwritten, UnwrittenBy};

/// A program leaves the places of a memory that it doesn't write.
pub fn unwritten()
    ensures program { (g : Setting) (s : State) (c : Program) (k : Key) → Unwritten g c k → (m : Memory) →
        Every (λ n. get_at n k ≡ get_at m k) (out g s c m) }
    ensures procedure { (g : Setting) (r : Routine) (p : Path) → UnwrittenBy g r (Key.global p) → (vs : List Value) (globals : Map) →
        Every (λ n. get n.globals p ≡ get globals p) (outcomes g r vs globals) }
{}

/// A run commutes with a write at a place that the program neither reads nor writes, as an equality of lists.
pub fn commutation()
    ensures program { (g : Setting) (v : Value) (s : State) (c : Program) (k : Key) → Unread (program_cells g c) k → Unwritten g c k →
        (m : Memory) → out g s c (set_at m k v) ≡ dmap (λ n. set_at n k v) (out g s c m) }
    ensures procedure { (g : Setting) (v : Value) (r : Routine) (p : Path) → Unread (routine_cells g r) (Key.global p) →
        UnwrittenBy g r (Key.global p) → (vs : List Value) (globals : Map) →
        outcomes g r vs (set globals p v) ≡ dmap (λ n. set_at n (Key.global p) v) (outcomes g r vs globals) }
{}

/// A run depends on what its program reads alone. From two memories that agree on it, in contexts that agree, come the
/// same entries with the same weights, one by one: each place is the same in both, or it holds what it held before. So what
/// was agreed on stays so. Outcomes of a procedure have the same result, from globals that agree on what it reads.
pub fn dependence()
    ensures program { (g : Setting) (s q : State) (c : Program) (m n : Memory) →
        Near g.types (Among (program_cells g c)) (inside s m) (inside q n) → Zip (SameOrKept m n) (out g s c m) (out g q c n) }
    ensures procedure { (g : Setting) (r : Routine) (vs : List Value) (m n : Map) → GlobalsAgree g.types (Among (routine_cells g r)) m n →
        Zip (SameOutcome m n) (outcomes g r vs m) (outcomes g r vs n) }
    ensures agreement { (t : Types) (l : Cells) (m n a b : Memory) → Agree t (Among l) m n → SameOrKept m n a b → Agree t (Among l) a b }
{}
