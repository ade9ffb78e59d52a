// The scope of a script.

ghost use Rattle.std.specs.Prelude.{◌≡◌, ◌≤◌, ◌↔◌, [], ◌∷◌, ◌++◌, length, take, None, string_bytes, IsTrue, IfOk, OnOk, OnErr};
ghost use Rattle.std.specs.Option.{option_copied, option_map};
ghost use Rattle.gb_goal.specs.Instances.{instance};
ghost use Rattle.gb_goal.specs.Scope.{abstract_of, AreNew, binders_of, constant_named, declarations_in, entry_at, entry_of, instance_at, is_proved, is_the_same, lemma_of, module_of, module_type_of, operator_named, path_of, proc_in, proc_of, procedure_of, type_named, weight};

use crate::instance::instance;
use crate::interface::suits;
use crate::module_type::ModuleType;
use crate::sequent::Sequent;
use gb_core::name::Name;
use gb_core::same::same_name;
use gb_core::ty::Ty;
use gb_core::{Shared, SharedItems};
use gb_terms::decl::{Module, Proc};
use gb_terms::module::{Bind, Mexp, ProcRef};
use gb_terms::term::Term;
use indexmap::IndexMap;
use sqlite_items::{Boxed, Items};
use std::alloc::{AllocError, Global};
use std::marker::Model;

/// A constant of an enumeration: its type, and its number there, from 0.
#[derive(Drop)]
pub struct Constant {
    pub ty: Shared<Ty>,
    pub number: u64,
}

/// An operator with a body, in which the parameters are the innermost bound variables, the last one first.
pub struct Operator {
    pub params: SharedItems<Shared<Ty>>,
    pub body: Term,
}

impl Drop for Operator {
    fn drop(self) {
        let Operator { params, body } = self;
        drop(params);
        drop(body);
    }
}

/// The types of an operator's parameters, and that of its result.
pub struct OperatorType {
    pub params: SharedItems<Shared<Ty>>,
    pub result: Shared<Ty>,
}

impl Drop for OperatorType {
    fn drop(self) {
        let OperatorType { params, result } = self;
        drop(params);
        drop(result);
    }
}

/// What a binder of a lemma binds.
#[derive(Clone, Copy)]
pub enum Binder {
    Value,
    Memory,
    Module,
}

/// What the binders of a lemma bind, in the order of the text.
pub type Binders = SharedItems<Binder>;

/// A procedure of a declared module, by the names of both. A script writes them with a dot between.
pub struct ProcName {
    pub module: Name,
    pub name: Name,
}

impl Drop for ProcName {
    fn drop(self) {
        let ProcName { module, name } = self;
        drop(module);
        drop(name);
    }
}

impl ProcName {
    /// What a script writes for the procedure.
    pub fn path(&self, alloc: Global) -> Result<Name, AllocError>
        ensures { IfOk result (λ n. n ≡ path_of self.now) }
    {
        let mut text = String::from_str(alloc, self.module.as_str())?;
        text.push_str(".")?;
        text.push_str(self.name.as_str())?;
        Ok(Name::new(text))
    }
}

fn is_the_same(a: &ProcName, b: &ProcName) -> bool
    ensures { result ≡ is_the_same a.now b.now }
{
    same_name(&a.module, &b.module) && same_name(&a.name, &b.name)
}

/// A thing that a script has declared.
pub enum Entry {
    ModuleType(ModuleType),
    Module(Module),
    /// A module that a lemma binds, while the steps of its proof run.
    AbstractModule(Bind),
    /// A lemma's statement, and its binders.
    Lemma(Sequent, Binders),
    /// What the name of a type stands for: an abbreviated type, or an enumeration.
    Type(Shared<Ty>),
    /// A type of any values.
    AbstractType,
    Constant(Constant),
    Operator(Operator),
    /// An operator without a body.
    AbstractOperator(OperatorType),
    /// That the loops of a procedure are proved. It stands under the path of the procedure.
    Terminating(ProcName),
}

/// Things with their names, in order of declaration.
pub type Entries = Items<(Name, Boxed<Entry>)>;

impl Drop for Entry {
    fn drop(self) {
        match self {
            Entry::ModuleType(ty) => drop(ty),
            Entry::Module(module) => drop(module),
            Entry::AbstractModule(bind) => drop(bind),
            Entry::Lemma(statement, binders) => {
                drop(statement);
                drop(binders)
            }
            Entry::Type(ty) => drop(ty),
            Entry::AbstractType => {}
            Entry::Constant(constant) => drop(constant),
            Entry::Operator(operator) => drop(operator),
            Entry::AbstractOperator(ty) => drop(ty),
            Entry::Terminating(proc) => drop(proc),
        }
    }
}

/// How many declarations a thing counts as.
fn weight(entry: &Entry) -> usize
    ensures weight { result ≡ weight entry.now }
    ensures small { result ≤ 1 }
{
    match entry {
        Entry::Constant(_) | Entry::Terminating(_) => 0,
        _ => 1,
    }
}

/// All that a script has declared so far. Contracts see the list of names with what they name, in order of declaration.
pub struct Scope {
    entries: IndexMap<String, Boxed<Entry>>,
}

impl Drop for Scope {
    fn drop(self) {
        let Scope { entries } = self;
        drop(entries);
    }
}

impl Model for Scope {
    ghost use Rattle.std.specs.Prelude.{map, string_bytes};
    ghost use Rattle.gb_goal.specs.Scope.{Declarations};
    ghost use Rattle.gb_goal.specs.contracts.scope.Entry as entry;
    ghost use Rattle.std.specs.Coded.{codes};

    ghost Value = { Declarations };

    ghost coded = { Prim.hlevel (codes, entry.the_row.coded) };

    ghost view = { λ s. map (λ p. (string_bytes p.0, p.1)) s.entries.entries };
}

/// The first procedure of this name.
pub fn procedure_named<'a>(procs: &'a [Shared<Proc>], name: &Name) -> Option<&'a Shared<Proc>>
    ensures { option_copied result ≡ proc_of procs.now name.now }
{
    for p in procs {
        if same_name(name, &p.get().name) {
            return Some(p);
        }
    }
    None
}

/// The procedure of this name in a module without parameters.
fn procedure_in(found: Option<&Module>, name: &Name) -> Result<Option<Shared<Proc>>, AllocError>
    ensures { IfOk result (λ p. p ≡ proc_in (option_copied found.entry) name.now) }
{
    match found {
        Some(module) if module.params.is_empty() => {
            shared(procedure_named(module.procs.as_slice(), name))
        }
        _ => Ok(None),
    }
}

fn shared(found: Option<&Shared<Proc>>) -> Result<Option<Shared<Proc>>, AllocError>
    ensures { IfOk result (λ p. p ≡ option_copied found.entry) }
{
    match found {
        Some(p) => {
            let p = p.share()?;
            Ok(Some(p))
        }
        None => Ok(None),
    }
}

/// The procedure of this name in a module with modules for its parameters, if they suit these.
fn instance_at(
    alloc: Global,
    scope: &Scope,
    found: Option<&Module>,
    args: &[Mexp],
    name: &Name,
) -> Result<Option<Shared<Proc>>, AllocError>
    ensures { IfOk result (λ p. p ≡ instance_at scope.now (option_copied found.entry) args.now name.now) }
{
    match found {
        Some(module) if suits(scope, module.params.as_slice(), args) => {
            instance_in(alloc, module, args, name)
        }
        _ => Ok(None),
    }
}

fn instance_in(
    alloc: Global,
    module: &Module,
    args: &[Mexp],
    name: &Name,
) -> Result<Option<Shared<Proc>>, AllocError>
    ensures { IfOk result (λ p. p ≡ option_map (instance «module».now.params args.now) (proc_of «module».now.procs name.now)) }
{
    match procedure_named(module.procs.as_slice(), name) {
        Some(p) => {
            let made = instance(alloc, module.params.as_slice(), args, p.get())?;
            Ok(Some(Shared::new(alloc, made)?))
        }
        None => Ok(None),
    }
}

impl Scope {
    pub fn new(alloc: Global) -> Scope
        ensures { result ≡ [] }
    {
        Scope {
            entries: IndexMap::new(alloc),
        }
    }

    /// The number of declarations. The constants of an enumeration are declared with their type, as one, and a proof
    /// that loops end gives no name to anything.
    pub fn declarations(&self) -> usize
        ensures { result ≡ declarations_in self.now }
    {
        let mut count = 0usize;
        for i in 0..self.entries.len() {
            if let Some((_, entry)) = self.entries.get_index(i) {
                count += weight(entry.get());
            }
        }
        count
    }

    pub fn is_empty(&self) -> bool
        ensures { IsTrue result ↔ (self.now ≡ []) }
    {
        self.entries.is_empty()
    }

    /// How many names there are.
    pub fn len(&self) -> usize
        ensures { result ≡ length self.now }
    {
        self.entries.len()
    }

    /// Lets go of all but the first few names, as they were before the others were declared.
    pub fn truncate(&mut self, count: usize)
        ensures { self.new ≡ take count self.old }
    {
        self.entries.truncate(count);
    }

    /// The thing of this number, from 0, in order of declaration.
    pub fn entry_at(&self, i: usize) -> Option<&Entry>
        ensures { option_copied result ≡ entry_at self.now i }
    {
        match self.entries.get_index(i) {
            Some((_, entry)) => Some(entry.get()),
            None => None,
        }
    }

    /// The thing of this name.
    pub fn entry(&self, name: &Name) -> Option<&Entry>
        ensures { option_copied result ≡ entry_of self.now name.now }
    {
        match self.entries.get(name.as_str()) {
            Some(found) => Some(found.get()),
            None => None,
        }
    }

    /// Whether no declaration has this name.
    pub fn is_free(&self, name: &Name) -> bool
        ensures { IsTrue result ↔ (entry_of self.now name.now ≡ None) }
    {
        self.entry(name).is_none()
    }

    /// The module of this name.
    pub fn module(&self, name: &Name) -> Option<&Module>
        ensures { option_copied result ≡ module_of self.now name.now }
    {
        match self.entry(name) {
            Some(Entry::Module(module)) => Some(module),
            _ => None,
        }
    }

    /// The module type of this name.
    pub fn module_type(&self, name: &Name) -> Option<&ModuleType>
        ensures { option_copied result ≡ module_type_of self.now name.now }
    {
        match self.entry(name) {
            Some(Entry::ModuleType(ty)) => Some(ty),
            _ => None,
        }
    }

    /// The abstract module of this name.
    pub fn abstract_module(&self, name: &Name) -> Option<&Bind>
        ensures { option_copied result ≡ abstract_of self.now name.now }
    {
        match self.entry(name) {
            Some(Entry::AbstractModule(bind)) => Some(bind),
            _ => None,
        }
    }

    /// The statement of the lemma of this name.
    pub fn lemma(&self, name: &Name) -> Option<&Sequent>
        ensures { option_copied result ≡ lemma_of self.now name.now }
    {
        match self.entry(name) {
            Some(Entry::Lemma(sequent, _)) => Some(sequent),
            _ => None,
        }
    }

    /// What the binders of the lemma of this name bind. Empty where there is no such lemma.
    pub fn binders(&self, name: &Name) -> &[Binder]
        ensures { result.now ≡ binders_of self.now name.now }
    {
        match self.entry(name) {
            Some(Entry::Lemma(_, binders)) => binders.as_slice(),
            _ => &[],
        }
    }

    /// The type that a name stands for.
    pub fn type_named(&self, alloc: Global, name: &Name) -> Result<Option<Shared<Ty>>, AllocError>
        ensures { IfOk result (λ found. found ≡ type_named self.now name.now) }
    {
        match self.entry(name) {
            Some(Entry::Type(ty)) => Ok(Some(ty.share()?)),
            Some(Entry::AbstractType) => {
                let name = name.copy(alloc)?;
                Ok(Some(Shared::new(alloc, Ty::Abstract(name))?))
            }
            _ => Ok(None),
        }
    }

    /// The constant of this name, which an enumeration has.
    pub fn constant_named(&self, name: &Name) -> Option<&Constant>
        ensures { option_copied result ≡ constant_named self.now name.now }
    {
        match self.entry(name) {
            Some(Entry::Constant(constant)) => Some(constant),
            _ => None,
        }
    }

    /// The types of the operator of this name, with a body or without one.
    pub fn operator_named(&self, name: &Name) -> Result<Option<OperatorType>, AllocError>
        ensures { IfOk result (λ found. found ≡ operator_named self.now name.now) }
    {
        match self.entry(name) {
            Some(Entry::Operator(operator)) => {
                let params = operator.params.share()?;
                let result = operator.body.ty.share()?;
                Ok(Some(OperatorType { params, result }))
            }
            Some(Entry::AbstractOperator(ty)) => {
                let params = ty.params.share()?;
                let result = ty.result.share()?;
                Ok(Some(OperatorType { params, result }))
            }
            _ => Ok(None),
        }
    }

    /// The procedure that a reference means, of a declared module that lacks none: where it has parameters, its own one with the
    /// reference's modules for them, if these suit them.
    pub fn procedure(
        &self,
        alloc: Global,
        reference: &ProcRef,
    ) -> Result<Option<Shared<Proc>>, AllocError>
        ensures { IfOk result (λ p. p ≡ procedure_of self.now reference.now) }
    {
        let name = &reference.name;
        match &reference.module {
            Mexp::Name(module) => procedure_in(self.module(module), name),
            Mexp::Apply(module, args) => {
                instance_at(alloc, self, self.module(module), args.as_slice(), name)
            }
        }
    }

    /// Whether the loops of this procedure are proved.
    pub fn is_proved(&self, alloc: Global, proc: &ProcName) -> Result<bool, AllocError>
        ensures { IfOk result (λ b. b ≡ is_proved self.now proc.now) }
    {
        let path = proc.path(alloc)?;
        match self.entry(&path) {
            Some(Entry::Terminating(proved)) => Ok(is_the_same(proc, proved)),
            _ => Ok(false),
        }
    }

    fn insert(&mut self, key: String, entry: Boxed<Entry>) -> Result<(), AllocError>
        requires { entry_of self.old (string_bytes key) ≡ None }
        ensures ok { OnOk result (self.new ≡ self.old ++ (string_bytes key, entry) ∷ []) }
        ensures err { OnErr result (self.new ≡ self.old) }
    {
        self.entries.insert(key, entry)?;
        Ok(())
    }

    /// Declares a module under its name, which is free.
    pub fn declare_module(&mut self, alloc: Global, declared: Module) -> Result<(), AllocError>
        requires { entry_of self.old declared.name ≡ None }
        ensures ok { OnOk result (self.new ≡ self.old ++ (declared.name, Entry.Module declared) ∷ []) }
        ensures err { OnErr result (self.new ≡ self.old) }
    {
        let key = String::from_str(alloc, declared.name.as_str())?;
        let entry = Boxed::new(alloc, Entry::Module(declared))?;
        self.insert(key, entry)
    }

    /// Declares a lemma by its statement and its binders, under a free name.
    pub fn declare_lemma(
        &mut self,
        alloc: Global,
        name: Name,
        statement: Sequent,
        binders: Binders,
    ) -> Result<(), AllocError>
        requires { entry_of self.old name ≡ None }
        ensures ok { OnOk result (self.new ≡ self.old ++ (name, Entry.Lemma statement binders) ∷ []) }
        ensures err { OnErr result (self.new ≡ self.old) }
    {
        let entry = Boxed::new(alloc, Entry::Lemma(statement, binders))?;
        let key = String::from_str(alloc, name.as_str())?;
        self.insert(key, entry)
    }

    /// Declares that the loops of a procedure are proved, under its path, which is free.
    pub fn declare_proved(&mut self, alloc: Global, proc: ProcName) -> Result<(), AllocError>
        requires { entry_of self.old (path_of proc) ≡ None }
        ensures ok { OnOk result (self.new ≡ self.old ++ (path_of proc, Entry.Terminating proc) ∷ []) }
        ensures err { OnErr result (self.new ≡ self.old) }
    {
        let path = proc.path(alloc)?;
        let key = String::from_str(alloc, path.as_str())?;
        let entry = Boxed::new(alloc, Entry::Terminating(proc))?;
        self.insert(key, entry)
    }

    /// Declares things under their names, which are free and different.
    pub fn declare_all(&mut self, alloc: Global, mut added: Entries) -> Result<(), AllocError>
        requires { AreNew self.old added }
        ensures { OnOk result (self.new ≡ self.old ++ added) }
    {
        while !added.is_empty() {
            let (name, entry) = added.remove(0);
            let key = String::from_str(alloc, name.as_str())?;
            self.insert(key, entry)?;
        }
        Ok(())
    }
}
