// Proof steps with typed arguments.

use gb_core::Shared;
use gb_core::name::Name;
use gb_core::place::Place;
use gb_dist::frac::Frac;
use gb_terms::module::ProcRef;
use gb_terms::op::Rel;
use gb_terms::term::{Form, RealTerm, Term, Terms};
use sqlite_items::Items;

/// A proof step. Its place is its first word, where the refusals of its rule stand.
pub struct Step {
    pub rule: Rule,
    pub place: Place,
}

impl Drop for Step {
    fn drop(self) {
        let Step { rule, place: _ } = self;
        drop(rule);
    }
}

/// A rule with its arguments, by the crate that has it.
pub enum Rule {
    OnBodies(BodyRule),
    Relational(RelationalRule),
    Chance(ChanceRule),
    Probability(ProbabilityRule),
    Call(Contract),
    /// As by `Call`, by a judgment of the procedure that is known.
    CallKnown(Acts, Form),
    Abstract(AbstractRule),
    While(Invariant),
    Transform(Acts, Transformation),
    Ambient(AmbientRule),
    Use(UseRule),
    Rewrite(RewriteRule),
    /// The forms are known at the goal, besides its hypotheses.
    Smt(Terms),
    Linear(Multiples),
}

impl Drop for Rule {
    fn drop(self) {
        match self {
            Rule::OnBodies(rule) => drop(rule),
            Rule::Relational(rule) => drop(rule),
            Rule::Chance(_) => {}
            Rule::Probability(rule) => drop(rule),
            Rule::Call(contract) => drop(contract),
            Rule::CallKnown(_, judgment) => drop(judgment),
            Rule::Abstract(rule) => drop(rule),
            Rule::While(invariant) => drop(invariant),
            Rule::Transform(_, rule) => drop(rule),
            Rule::Ambient(rule) => drop(rule),
            Rule::Use(rule) => drop(rule),
            Rule::Rewrite(rule) => drop(rule),
            Rule::Smt(known) => drop(known),
            Rule::Linear(multiples) => drop(multiples),
        }
    }
}

/// A hypothesis, by its place in the goal, and the number by which it is multiplied: none where it is no fraction.
#[derive(Clone, Copy)]
pub struct Multiple {
    pub hyp: usize,
    pub factor: Option<Frac>,
}

pub type Multiples = Items<Multiple>;

/// The programs of a goal on which a step acts: all of them, or one of two.
#[derive(Clone, Copy)]
pub enum Acts {
    All,
    Left,
    Right,
}

/// How many statements stand before a cut, in one body or in two.
#[derive(Clone, Copy)]
pub enum Cut {
    One(u128),
    Two(u128, u128),
}

/// What takes the place of the conditions and the bound of a judgment; those stay for which nothing is said.
#[derive(Drop)]
pub struct Weakened {
    pub pre: Option<Form>,
    pub post: Option<Form>,
    pub bound: Option<RealTerm>,
}

/// A rule on programs, for judgments of every kind.
#[derive(Drop)]
pub enum BodyRule {
    Proc,
    Skip,
    /// Bodies that are cut in two, and what is said between their parts.
    Seq(Cut, Form),
    If(Acts),
    Wp(Acts),
    /// The goal where a form holds before, and the goal where it doesn't.
    Case(Form),
    /// The judgment with other conditions, to which the old ones lead and which lead to the old ones.
    Conseq(Weakened),
    /// A step to which the form of the goal does not fit: its arguments have no types there.
    Unfit,
}

/// A rule on equivalences.
#[derive(Drop)]
pub enum RelationalRule {
    /// A coupling of two samplings by functions: none is the identity, one is its own inverse, two are a function and
    /// its inverse. Each function is a term in which the sampled value is the innermost bound variable.
    Rnd(Terms),
    /// The programs exchange their places.
    Symmetry,
    /// The sampling that ends the program on a side leaves.
    Drawn(Acts),
    /// Both procedures by way of a third one.
    Transitivity(Between),
    /// Two programs of the same statements, by what they read.
    Sim,
}

/// A procedure between two others: what is to hold before and after the left one and it, and before and after it and the right one.
#[derive(Drop)]
pub struct Between {
    pub procedure: Shared<ProcRef>,
    pub left_pre: Form,
    pub left_post: Form,
    pub right_pre: Form,
    pub right_post: Form,
}

/// A rule on judgments with a probability.
#[derive(Clone, Copy)]
pub enum ChanceRule {
    /// A sampling at the end of the body.
    Rnd,
    /// From a probability to what always holds.
    Hoare,
}

/// A rule on probabilities of events after procedures.
#[derive(Drop)]
pub enum ProbabilityRule {
    /// A comparison of two probabilities, by an equivalence of their procedures with these conditions.
    ByEquiv(Conditions),
    /// A comparison of a probability with a bound, by a judgment of its procedure with these conditions.
    ByPhoare(Conditions),
    /// Two probabilities of one procedure, from the same arguments and memory, that are compared so, by their events.
    ByEvents(Rel),
    /// A bound that every probability keeps: at least 0, or at most 1.
    Within(Rel),
}

/// A law of events, by which a sum or a difference takes the place of the first probability that it speaks of.
#[derive(Drop)]
pub enum EventLaw {
    /// An event that is a disjunction.
    Or,
    /// An event that is a negation.
    Not,
    /// An event that never is.
    False,
    /// A probability of this procedure, by whether its event comes with another one, or without it.
    Split(Shared<ProcRef>, Form),
}

/// What is to hold before and after procedures.
#[derive(Drop)]
pub struct Conditions {
    pub pre: Form,
    pub post: Form,
}

/// What is said of the procedure that the programs call last on which a step acts.
#[derive(Drop)]
pub struct Contract {
    pub acts: Acts,
    pub pre: Form,
    pub post: Form,
}

/// What is kept until an event has come about, which is read in the right memory.
#[derive(Drop)]
pub struct Until {
    pub event: Form,
    pub kept: Form,
}

/// A rule on procedures of abstract modules, by a form that their oracles keep.
#[derive(Drop)]
pub enum AbstractRule {
    /// The calls that end the programs.
    Call(Form),
    /// The calls that end two programs, by a form that is kept until an event has come about, which the right oracles keep.
    CallUntil(Until),
    /// The procedures themselves.
    Proc(Form),
}

/// What each turn keeps of the loops that end the programs on which a step acts.
#[derive(Drop)]
pub struct Invariant {
    pub acts: Acts,
    pub kept: Form,
}

/// A rule that puts other statements into a program, of which the place of the first is 1.
#[derive(Drop)]
pub enum Transformation {
    /// A statement passes others.
    Swap(Passing),
    /// The statement at a place leaves.
    Kill(u128),
    /// An `if` or a loop at a place, whose guard is always true there, or always false.
    Decided(u128, bool),
    /// One turn of the loop at a place stands in front of it.
    Unroll(u128),
    /// Bodies in place of calls.
    Inline(Calls),
}

/// The statement that passes others, by its place, and over how many it goes: to the front, or to the back.
#[derive(Clone, Copy)]
pub struct Passing {
    pub at: u128,
    pub by: u128,
    pub front: bool,
}

/// Calls of a program: those of one procedure, or all.
#[derive(Drop)]
pub enum Calls {
    Of(Shared<ProcRef>),
    All,
}

/// A rule on conclusions of every kind and the hypotheses around them.
#[derive(Drop)]
pub enum AmbientRule {
    /// A conjunction or an equivalence into its parts.
    Split,
    /// The left side of a disjunction.
    Left,
    /// The right side of a disjunction.
    Right,
    /// A conclusion that is a hypothesis.
    Assumption,
    /// The conclusion where a form is true, and where it isn't.
    Case(Form),
    /// A form is shown, and then is a hypothesis of this name.
    Have(Name, Form),
    /// The value of a leading `forall` as a variable of this name, or a leading premise as a hypothesis of this name.
    Introduce(Name),
    /// The memory of a leading `forall` as a memory of this name.
    IntroduceMemory(Name),
    /// A leading premise is dropped.
    Discard,
    /// A leading premise that is a conjunction as two premises; one that is an `exists` as a `forall` in front.
    Unpack,
    /// A leading premise that is a disjunction as one goal for each side.
    Branch,
    /// A term in place of the value that an `exists` binds.
    Witness(Term),
    /// A memory of the goal, by its number, in place of the memory that an `exists` binds.
    WitnessMemory(u32),
    /// No goals, where the conclusion is closed by its parts and the hypotheses; else the goal stays.
    Trivial,
    /// No goals, where the conclusion is closed by its parts and the hypotheses.
    Done,
}

/// A rule that uses a form that is known at a goal.
#[derive(Drop)]
pub enum UseRule {
    /// The conclusion follows from the form: its premises are shown.
    Apply(Form),
    /// The form is a hypothesis of this name.
    Have(Name, Form),
}

/// A rule that puts equals for equals.
#[derive(Drop)]
pub enum RewriteRule {
    /// The right side of an equation or an equivalence that is known takes the place of its left side.
    Forward(Form),
    /// The left side takes the place of the right side.
    Back(Form),
    /// An equation among the hypotheses, by its place in the goal, is used up for a variable.
    Subst(usize),
    /// An operator is replaced by its body.
    Unfold(Name),
    /// Sums and differences of probabilities take the place of one.
    Law(EventLaw),
}
