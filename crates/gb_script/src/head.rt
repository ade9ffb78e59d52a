// What nodes are.

ghost use Rattle.std.specs.Prelude.{◌≡◌};
ghost use Rattle.gb_script.specs.Head.{looseness, hold, goes_under, is_joiner, joins};

/// What a node is: one for each kind of tree of the language.
#[derive(Clone, Copy)]
pub enum Head {
    /// Parts that stand together and are no tree of their own.
    List,
    // Words.
    Name,
    Number,
    Path,
    // Types.
    PlainType,
    IntType,
    BitsType,
    BracketedType,
    MapType,
    ProductType,
    OptionType,
    GlobType,
    // Binders.
    Values,
    Memory,
    ModuleBind,
    QueryBound,
    Limit,
    // Forms: what they begin with.
    Unit,
    Coin,
    Bracketed,
    Typed,
    Tuple,
    Absolute,
    Uniform,
    Weights,
    Weight,
    Equalities,
    EquatedGlob,
    Glob,
    Function,
    TypedFunction,
    Quantified,
    Conditional,
    Hoare,
    Phoare,
    Equiv,
    Lossless,
    Probability,
    Block,
    // Forms: what stands before or behind an operand or between two, from the tightest to the loosest.
    Bounded,
    Get,
    Set,
    Component,
    ToReal,
    Sided,
    Apply,
    Negative,
    Product,
    Quotient,
    PowerProduct,
    Sum,
    Difference,
    Xor,
    Compared,
    Not,
    And,
    Or,
    Implies,
    Iff,
    Chosen,
    // Modules, procedures and calls.
    ModuleExpression,
    ProcedurePath,
    FunctorPath,
    Call,
    FunctorCall,
    // Statements.
    Sample,
    Store,
    Assign,
    AssignCall,
    TupleStatement,
    If,
    While,
    Loop,
    NamedLoop,
    // Commands.
    Require,
    Imported,
    TypeDeclaration,
    AbstractType,
    TypeAlias,
    Enumeration,
    OperatorDeclaration,
    DefinedOperator,
    Constant,
    TypedConstant,
    AbstractOperator,
    Axiom,
    Lemma,
    Local,
    Module,
    AscribedModule,
    ModuleAlias,
    ModuleType,
    ModuleParameter,
    Signature,
    AllOracles,
    Oracles,
    Oracle,
    Globals,
    Procedure,
    Formal,
    Variables,
    Termination,
    Proof,
    Qed,
    Section,
    EndSection,
    Declare,
    AbstractTheory,
    Theory,
    EndTheory,
    Clone,
    TypeSubstitution,
    OperatorSubstitution,
    Realisation,
    Undo,
    // Proof steps and their combinators.
    Tactic,
    Next,
    Branches,
    By,
    Try,
    Repeat,
    Group,
    Rule,
    NoIntroduction,
    Introduction,
    Drop,
    TrivialPattern,
    SmtPattern,
    BothPatterns,
    EitherPattern,
    PlainStep,
    Move,
    Witness,
    ApplyLemma,
    HaveForm,
    HaveLemma,
    RewriteLemma,
    RewriteBack,
    RewriteHypothesis,
    RewriteOperator,
    RewriteLaw,
    RewriteSplit,
    Subst,
    CaseStep,
    Proc,
    BodyStep,
    Seq,
    WhileStep,
    Rnd,
    CallStep,
    CallLemma,
    CallInvariant,
    CallUpto,
    CallContract,
    Inline,
    Swap,
    Forward,
    Backward,
    PositionStep,
    Conseq,
    Transitivity,
    PlainTransitivity,
    FunctorTransitivity,
    Contract,
    ByStep,
    FelCounter,
    FelBounds,
    Guard,
    Smt,
    LemmaHint,
    Linear,
    Scaled,
    ScaledBack,
    EagerCall,
    EagerWhile,
    Bodies,
    // Lines of goals.
    Hypothesis,
}

/// How loosely an item of this head binds to what stands before it.
pub fn looseness(item: Head) -> u8
    ensures { result ≡ looseness item }
{
    match item {
        Head::Apply => 2,
        Head::Product | Head::Quotient | Head::PowerProduct => 4,
        Head::Sum | Head::Difference | Head::Xor => 5,
        Head::Compared => 6,
        Head::And => 8,
        Head::Or => 9,
        Head::Implies => 10,
        Head::Iff => 11,
        Head::Chosen => 12,
        // What binds tightest: suffixes.
        _ => 1,
    }
}

/// Up to which looseness items behind such a node stand inside its last part; 0 where none do.
pub fn hold(node: Head) -> u8
    ensures { result ≡ hold node }
{
    match node {
        Head::Apply => 1,
        Head::Negative => 2,
        Head::Product | Head::Quotient | Head::PowerProduct => 3,
        Head::Sum | Head::Difference | Head::Xor => 4,
        Head::Compared => 5,
        Head::Not => 6,
        Head::And => 7,
        Head::Or => 8,
        // Its chains group to the right.
        Head::Implies => 10,
        Head::Iff => 10,
        _ => 0,
    }
}

/// An item of this head stands inside the last part of such a node, and not behind the whole node.
pub fn goes_under(item: Head, node: Head) -> bool
    ensures { result ≡ goes_under item node }
{
    looseness(item) <= hold(node)
}

fn is_joiner(head: Head) -> bool
    ensures { result ≡ is_joiner head }
{
    match head {
        Head::Apply => true,
        _ => false,
    }
}

/// The parts of an item of this head stand behind those of such a node.
pub fn joins(item: Head, node: Head) -> bool
    ensures { result ≡ joins item node }
{
    is_joiner(item) && is_joiner(node)
}
