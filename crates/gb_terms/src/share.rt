// One owner more of a tree, in place of a copy.

ghost use Rattle.std.specs.Prelude.{◌≡◌, IfOk};
ghost use Rattle.gb_terms.specs.declared.term.Head.TheVariants.{Assign, Sample, Call, If, While};

use crate::decl::{Typed, TypedName};
use crate::module::{Mexp, ProcRef};
use crate::op::Read;
use crate::term::{Cmd, Instr, Instrs, Subject, Term, Terms};
use gb_core::copy::copy_var;
use gb_core::var::Var;
use gb_core::{Shared, SharedItems};
use sqlite_items::Items;
use std::alloc::{AllocError, Global};

pub fn copy_read(alloc: Global, x: &Read) -> Result<Read, AllocError>
    ensures { IfOk result (λ made. made ≡ x.now) }
{
    match x {
        Read::Logical(place) => Ok(Read::Logical(*place)),
        Read::Program { var, side } => {
            let var = copy_var(alloc, var)?;
            Ok(Read::Program { var, side: *side })
        }
    }
}

impl TypedName {
    pub fn copy(&self, alloc: Global) -> Result<TypedName, AllocError>
        ensures { IfOk result (λ made. made ≡ self.now) }
    {
        let name = self.name.copy(alloc)?;
        let ty = self.ty.share()?;
        Ok(TypedName { name, ty })
    }
}

pub fn copy_typed(alloc: Global, list: &[TypedName]) -> Result<Typed, AllocError>
    ensures { IfOk result (λ made. made ≡ list.now) }
{
    let mut out = Items::new(alloc);
    for x in list {
        let x = x.copy(alloc)?;
        out.push(x)?;
    }
    Ok(out)
}

impl Term {
    pub fn share(&self) -> Result<Term, AllocError>
        ensures { IfOk result (λ made. made ≡ self.now) }
    {
        let head = self.head.share()?;
        let args = self.args.share()?;
        let ty = self.ty.share()?;
        Ok(Term { head, args, ty })
    }
}

pub fn share_terms(alloc: Global, list: &[Term]) -> Result<Terms, AllocError>
    ensures { IfOk result (λ made. made ≡ list.now) }
{
    let mut out = Items::new(alloc);
    for x in list {
        let x = x.share()?;
        out.push(x)?;
    }
    Ok(out)
}

impl Mexp {
    /// The same module expression: its arguments are shared.
    pub fn share(&self, alloc: Global) -> Result<Mexp, AllocError>
        ensures { IfOk result (λ made. made ≡ self.now) }
    {
        match self {
            Mexp::Name(name) => {
                let name = name.copy(alloc)?;
                Ok(Mexp::Name(name))
            }
            Mexp::Apply(name, args) => {
                let args = args.share()?;
                let name = name.copy(alloc)?;
                Ok(Mexp::Apply(name, args))
            }
        }
    }
}

impl Subject {
    pub fn share(&self) -> Result<Subject, AllocError>
        ensures { IfOk result (λ made. made ≡ self.now) }
    {
        match self {
            Subject::Proc(procedure) => {
                let procedure = procedure.share()?;
                Ok(Subject::Proc(procedure))
            }
            Subject::Body(body) => {
                let body = body.share()?;
                Ok(Subject::Body(body))
            }
        }
    }
}

impl Cmd {
    pub fn share(&self) -> Result<Cmd, AllocError>
        ensures { IfOk result (λ made. made ≡ self.now) }
    {
        let list = self.list.share()?;
        Ok(Cmd { list })
    }
}

pub fn share_instrs(alloc: Global, list: &[Instr]) -> Result<Instrs, AllocError>
    ensures { IfOk result (λ made. made ≡ list.now) }
{
    let mut out = Items::new(alloc);
    for x in list {
        let x = x.share(alloc)?;
        out.push(x)?;
    }
    Ok(out)
}

impl Instr {
    /// The same statement: its terms, its bodies and its lists are shared.
    pub fn share(&self, alloc: Global) -> Result<Instr, AllocError>
        ensures { IfOk result (λ made. made ≡ self.now) }
    {
        match self {
            Instr::Assign(vars, value) => share_assign(vars, value),
            Instr::Sample(var, from) => share_sample(alloc, var, from),
            Instr::Call(vars, procedure, args) => share_call(vars, procedure, args),
            Instr::If(test, yes, no) => share_if(test, yes, no),
            Instr::While(guard, variant, body) => share_while(guard, variant, body),
        }
    }
}

fn share_assign(vars: &SharedItems<Var>, value: &Term) -> Result<Instr, AllocError>
    ensures { IfOk result (λ made. made ≡ Assign vars.now value.now) }
{
    let vars = vars.share()?;
    let value = value.share()?;
    Ok(Instr::Assign(vars, value))
}

fn share_sample(alloc: Global, var: &Var, from: &Term) -> Result<Instr, AllocError>
    ensures { IfOk result (λ made. made ≡ Sample var.now from.now) }
{
    let var = copy_var(alloc, var)?;
    let from = from.share()?;
    Ok(Instr::Sample(var, from))
}

fn share_call(
    vars: &SharedItems<Var>,
    procedure: &Shared<ProcRef>,
    args: &SharedItems<Term>,
) -> Result<Instr, AllocError>
    ensures { IfOk result (λ made. made ≡ Call vars.now procedure.now args.now) }
{
    let vars = vars.share()?;
    let procedure = procedure.share()?;
    let args = args.share()?;
    Ok(Instr::Call(vars, procedure, args))
}

fn share_if(test: &Term, yes: &Cmd, no: &Cmd) -> Result<Instr, AllocError>
    ensures { IfOk result (λ made. made ≡ If test.now yes.now no.now) }
{
    let yes = yes.share()?;
    let no = no.share()?;
    let test = test.share()?;
    Ok(Instr::If(test, yes, no))
}

fn share_while(guard: &Term, variant: &Term, body: &Cmd) -> Result<Instr, AllocError>
    ensures { IfOk result (λ made. made ≡ While guard.now variant.now body.now) }
{
    let body = body.share()?;
    let variant = variant.share()?;
    let guard = guard.share()?;
    Ok(Instr::While(guard, variant, body))
}
