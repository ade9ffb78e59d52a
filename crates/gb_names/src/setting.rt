// Where a form stands.

ghost use Rattle.std.specs.Prelude.{◌≡◌};
ghost use Rattle.std.specs.Option.{option_copied};
ghost use Rattle.gb_names.specs.Environment.{environment, ambient, in_arguments, in_judgments, may_read, memories_seen, of_function, of_operator, own_of, program, reading, relational, sampled, sampled_in, sides_of, speaking, statement, unary, valued, valued_in};

use gb_core::name::Name;
use gb_goal::scope::Scope;
use gb_goal::sequent::Sequent;
use gb_terms::decl::{Module, TypedName};
use gb_terms::op::Side;
use std::marker::Model;

/// What the names of a form mean: the declarations of the script, the module around it as far as it is typed, the context of the
/// sequent around it (an empty one where there is none), the program variables and the named memories that it may read, and which
/// language it is written in.
pub struct Setting<'a> {
    pub scope: &'a Scope,
    pub inside: Option<&'a Module>,
    pub sequent: &'a Sequent,
    pub variables: Variables<'a>,
    pub memories: Memories<'a>,
    pub language: Language,
}

impl<'a> Drop for Setting<'a> {
    fn drop(self) {
        let Setting {
            scope: _,
            inside: _,
            sequent: _,
            variables,
            memories: _,
            language: _,
        } = self;
        drop(variables);
    }
}

/// Of the named memories, those of the context and those that are bound in a form, the ones that it may read.
#[derive(Clone, Copy)]
pub enum Memories<'a> {
    /// All of them.
    All,
    /// All of them, but none in the judgments in the form, as in the statement of a lemma.
    Outside,
    /// The one of this name, as in the arguments of a probability.
    Only(&'a Name),
    None,
}

impl<'a> Memories<'a> {
    /// What the judgments in a form may read.
    pub fn in_judgments(self) -> Memories<'a>
        ensures { memories_seen result ≡ in_judgments (memories_seen self.entry) }
    {
        match self {
            Memories::All => Memories::All,
            _ => Memories::None,
        }
    }

    /// What the arguments of a probability from the memory of this name may read.
    pub fn in_arguments(self, name: &'a Name) -> Memories<'a>
        ensures { memories_seen result ≡ in_arguments name.now (memories_seen self.entry) }
    {
        match self {
            Memories::None => Memories::None,
            _ => Memories::Only(name),
        }
    }

    /// Whether the memory of this name may be read.
    pub fn may_read(self, name: &Name) -> bool
        ensures { result ≡ may_read (memories_seen self.entry) name.now }
    {
        match self {
            Memories::All | Memories::Outside => true,
            Memories::Only(other) => *other == *name,
            Memories::None => false,
        }
    }
}

/// The program variables that are not globals and that a form may read, with their types.
pub enum Variables<'a> {
    /// None, as in an ambient form.
    Absent,
    /// Those of one program, read by their names alone.
    Own(Borrowed<'a, TypedName>),
    /// Those of two programs, each read with its side.
    Sides {
        left: Borrowed<'a, TypedName>,
        right: Borrowed<'a, TypedName>,
    },
}

impl<'a> Drop for Variables<'a> {
    fn drop(self) {
        match self {
            Variables::Absent => {}
            Variables::Own(own) => drop(own),
            Variables::Sides { left, right } => {
                drop(left);
                drop(right);
            }
        }
    }
}

/// A list that is held elsewhere. Contracts see its elements.
pub struct Borrowed<'a, T> {
    list: &'a [T],
}

impl<'a, T> Drop for Borrowed<'a, T> {
    fn drop(self) {
        let Borrowed { list: _ } = self;
    }
}

impl<'a, T> Model for Borrowed<'a, T> {
    ghost use Rattle.std.specs.Prelude.{List};
    ghost use Rattle.std.specs.Coded.{coded_list};

    ghost Value = { List T };

    ghost coded = { coded_list T.code };

    ghost view = { λ b. b.list.now };
}

impl<'a, T> Borrowed<'a, T> {
    fn as_slice(&self) -> &'a [T]
        ensures { result.now ≡ self.now }
    {
        self.list
    }

    fn again(&self) -> Borrowed<'a, T>
        ensures { result ≡ self.now }
    {
        Borrowed { list: self.list }
    }
}

/// Program expressions have no quantifier, judgment or side, and a distribution only where one is sampled. A function of a
/// proof step is put in where the memories of a judgment are bound, so it has no judgment of its own.
#[derive(Clone, Copy)]
pub enum Language {
    Formula,
    Function,
    Program,
    /// A distribution that a program samples, of whatever type.
    Sampled,
    /// The body of an operator, which has no memory and no judgment.
    Operator,
}

impl Language {
    fn sampled(self) -> Language
        ensures { result ≡ sampled_in self }
    {
        match self {
            Language::Program => Language::Sampled,
            other => other,
        }
    }

    fn valued(self) -> Language
        ensures { result ≡ valued_in self }
    {
        match self {
            Language::Sampled => Language::Program,
            other => other,
        }
    }
}

impl<'a> Variables<'a> {
    fn borrow(&self) -> Variables<'a>
        ensures { result ≡ self.now }
    {
        match self {
            Variables::Absent => Variables::Absent,
            Variables::Own(own) => Variables::Own(own.again()),
            Variables::Sides { left, right } => Variables::Sides {
                left: left.again(),
                right: right.again(),
            },
        }
    }
}

impl<'a> Setting<'a> {
    /// The setting of a form of a proof step that reads no program variable.
    pub fn ambient(scope: &'a Scope, sequent: &'a Sequent) -> Setting<'a>
        ensures { environment result ≡ ambient scope.now sequent.now }
    {
        Setting {
            scope,
            inside: None,
            sequent,
            variables: Variables::Absent,
            memories: Memories::All,
            language: Language::Formula,
        }
    }

    /// The setting of a form of a proof step on one program with these variables.
    pub fn unary(scope: &'a Scope, sequent: &'a Sequent, variables: &'a [TypedName]) -> Setting<'a>
        ensures { environment result ≡ unary scope.now sequent.now variables.now }
    {
        Setting {
            scope,
            inside: None,
            sequent,
            variables: Variables::Own(Borrowed { list: variables }),
            memories: Memories::All,
            language: Language::Formula,
        }
    }

    /// The setting of a form of a proof step on two programs with these variables.
    pub fn relational(
        scope: &'a Scope,
        sequent: &'a Sequent,
        left: &'a [TypedName],
        right: &'a [TypedName],
    ) -> Setting<'a>
        ensures { environment result ≡ relational scope.now sequent.now left.now right.now }
    {
        let (left, right) = (Borrowed { list: left }, Borrowed { list: right });
        Setting {
            scope,
            inside: None,
            sequent,
            variables: Variables::Sides { left, right },
            memories: Memories::All,
            language: Language::Formula,
        }
    }

    /// The setting of the statement of a lemma.
    pub fn statement(scope: &'a Scope, sequent: &'a Sequent) -> Setting<'a>
        ensures { environment result ≡ statement scope.now sequent.now }
    {
        Setting::ambient(scope, sequent).reading(Memories::Outside)
    }

    /// The same setting, of a form that may read these named memories.
    pub fn reading(self, memories: Memories<'a>) -> Setting<'a>
        ensures { environment result ≡ reading (memories_seen memories.entry) (environment self.entry) }
    {
        let Setting {
            scope,
            inside,
            sequent,
            variables,
            memories: _,
            language,
        } = self;
        Setting {
            scope,
            inside,
            sequent,
            variables,
            memories,
            language,
        }
    }

    /// The setting of a function of a proof step, on two programs with these variables.
    pub fn function(
        scope: &'a Scope,
        sequent: &'a Sequent,
        left: &'a [TypedName],
        right: &'a [TypedName],
    ) -> Setting<'a>
        ensures { environment result ≡ of_function scope.now sequent.now left.now right.now }
    {
        let (left, right) = (Borrowed { list: left }, Borrowed { list: right });
        Setting {
            scope,
            inside: None,
            sequent,
            variables: Variables::Sides { left, right },
            memories: Memories::All,
            language: Language::Function,
        }
    }

    /// The setting of the body of an operator.
    pub fn operator(scope: &'a Scope, sequent: &'a Sequent) -> Setting<'a>
        ensures { environment result ≡ of_operator scope.now sequent.now }
    {
        Setting {
            scope,
            inside: None,
            sequent,
            variables: Variables::Absent,
            memories: Memories::None,
            language: Language::Operator,
        }
    }

    /// The setting of an expression of a program of this module, which is typed so far, with these variables.
    pub fn program(
        scope: &'a Scope,
        module: &'a Module,
        sequent: &'a Sequent,
        variables: &'a [TypedName],
    ) -> Setting<'a>
        ensures { environment result ≡ program scope.now «module».now sequent.now variables.now }
    {
        Setting {
            scope,
            inside: Some(module),
            sequent,
            variables: Variables::Own(Borrowed { list: variables }),
            memories: Memories::None,
            language: Language::Program,
        }
    }

    /// The setting of a distribution that is sampled where a form is, of whatever type.
    pub fn sampled(&self) -> Setting<'a>
        ensures { environment result ≡ sampled (environment self.now) }
    {
        self.speaking(self.language.sampled())
    }

    /// The setting of a part that isn't sampled where the form is.
    pub fn valued(&self) -> Setting<'a>
        ensures { environment result ≡ valued (environment self.now) }
    {
        self.speaking(self.language.valued())
    }

    /// The same setting, of a form in another language.
    fn speaking(&self, language: Language) -> Setting<'a>
        ensures { environment result ≡ speaking language (environment self.now) }
    {
        Setting {
            scope: self.scope,
            inside: self.inside,
            sequent: self.sequent,
            variables: self.variables.borrow(),
            memories: self.memories,
            language,
        }
    }

    /// The variables that are read by their names alone.
    pub fn own(&self) -> &[TypedName]
        ensures { result.now ≡ own_of self.now.variables }
    {
        match &self.variables {
            Variables::Own(own) => own.as_slice(),
            _ => &[],
        }
    }

    /// The variables of the left program or of the right one, where there are two.
    pub fn on_side(&self, side: Side) -> Option<&[TypedName]>
        ensures { option_copied result ≡ sides_of self.now.variables side }
    {
        match &self.variables {
            Variables::Sides { left, right } => match side {
                Side::Left => Some(left.as_slice()),
                Side::Right => Some(right.as_slice()),
                _ => None,
            },
            _ => None,
        }
    }
}
