// Trees put together again from the parts that changed. A part that is none stays: what stands there gets one owner more.
#![tactic(auto)]

ghost use Rattle.std.specs.Prelude.{◌≡◌, Some, unwrap_or, IfOk, OnOk, option_map};
ghost use Rattle.gb_terms.specs.declared.term.Head.TheVariants.{Body, Assign, Sample, Call, If, While};
ghost use Rattle.gb_terms.specs.declared.term.Term.{out-Term};
ghost use Rattle.gb_terms.specs.declared.term.Cmd.{roll-Cmd};
ghost use Rattle.gb_terms.specs.Make.{node};
ghost use Rattle.gb_walk.specs.Rebuild.{caught_up, with_next};

use gb_core::copy::copy_var;
use gb_core::var::Var;
use gb_core::{Shared, SharedItems};
use gb_terms::module::{Mexp, ProcRef};
use gb_terms::op::{Read, Rel, Side};
use gb_terms::term::{Cmd, Head, Instr, Instrs, Subject, Term, Terms};
use sqlite_items::Items;
use std::alloc::{AllocError, Global};

/// The term that is made, or the one that stands.
pub fn term_or_kept(made: Option<Term>, kept: &Term) -> Result<Term, AllocError>
    ensures { IfOk result (λ term. term ≡ unwrap_or made kept.now) }
{
    match made {
        Some(term) => Ok(term),
        None => kept.share(),
    }
}

/// The body that is made, or the one that stands.
pub fn cmd_or_kept(made: Option<Cmd>, kept: &Cmd) -> Result<Cmd, AllocError>
    ensures { IfOk result (λ cmd. cmd ≡ unwrap_or made kept.now) }
{
    match made {
        Some(cmd) => Ok(cmd),
        None => kept.share(),
    }
}

fn subject_or_kept(made: Option<Subject>, kept: &Subject) -> Result<Subject, AllocError>
    ensures { IfOk result (λ subject. subject ≡ unwrap_or made kept.now) }
{
    match made {
        Some(subject) => Ok(subject),
        None => kept.share(),
    }
}

fn head_or_kept(made: Option<Shared<Head>>, kept: &Shared<Head>) -> Result<Shared<Head>, AllocError>
    ensures { IfOk result (λ head. head ≡ unwrap_or made kept.now) }
{
    match made {
        Some(head) => Ok(head),
        None => kept.share(),
    }
}

fn args_or_kept(
    made: Option<SharedItems<Term>>,
    kept: &SharedItems<Term>,
) -> Result<SharedItems<Term>, AllocError>
    ensures { IfOk result (λ args. args ≡ unwrap_or made kept.now) }
{
    match made {
        Some(args) => Ok(args),
        None => kept.share(),
    }
}

/// The head that is made, or the one that stands, to look at.
pub fn head_now<'a>(made: &'a Option<Shared<Head>>, kept: &'a Shared<Head>) -> &'a Head
    ensures { result.now ≡ unwrap_or made.now kept.now }
{
    match made {
        Some(head) => head.get(),
        None => kept.get(),
    }
}

/// A term with another head or with other arguments.
pub fn rebuilt_term(
    term: &Term,
    head: Option<Shared<Head>>,
    args: Option<SharedItems<Term>>,
) -> Result<Option<Term>, AllocError>
    ensures { IfOk result (λ made. unwrap_or made term.now ≡ node (unwrap_or head (out-Term term.now).head) (unwrap_or args (out-Term term.now).args) (out-Term term.now).ty) }
{
    if head.is_none() && args.is_none() {
        return Ok(None);
    }
    let head = head_or_kept(head, &term.head)?;
    let args = args_or_kept(args, &term.args)?;
    let ty = term.ty.share()?;
    Ok(Some(Term { head, args, ty }))
}

fn new_head(alloc: Global, head: Head) -> Result<Option<Shared<Head>>, AllocError>
    ensures { IfOk result (λ made. made ≡ Some head) }
{
    let head = Shared::new(alloc, head)?;
    Ok(Some(head))
}

/// The head of a place that moves.
pub fn bound_head(alloc: Global, index: Option<u32>) -> Result<Option<Shared<Head>>, AllocError>
    ensures { IfOk result (λ made. made ≡ option_map Head.Bound index) }
{
    match index {
        Some(index) => new_head(alloc, Head::Bound(index)),
        None => Ok(None),
    }
}

/// The head of a read of a program variable that is led to another memory.
pub fn read_head(
    alloc: Global,
    var: &Var,
    side: Option<Side>,
) -> Result<Option<Shared<Head>>, AllocError>
    ensures { IfOk result (λ made. made ≡ option_map (λ s. Head.Read (Read.Program var.now s)) side) }
{
    match side {
        Some(side) => {
            let var = copy_var(alloc, var)?;
            new_head(alloc, Head::Read(Read::Program { var, side }))
        }
        None => Ok(None),
    }
}

/// The head of the globals of a module in another memory.
pub fn glob_head(
    alloc: Global,
    owner: &Shared<Mexp>,
    side: Option<Side>,
) -> Result<Option<Shared<Head>>, AllocError>
    ensures { IfOk result (λ made. made ≡ option_map (Head.Glob owner.now) side) }
{
    match side {
        Some(side) => {
            let owner = owner.share()?;
            new_head(alloc, Head::Glob(owner, side))
        }
        None => Ok(None),
    }
}

/// The head of a probability from another memory.
pub fn pr_head(
    alloc: Global,
    procedure: &Shared<ProcRef>,
    side: Option<Side>,
) -> Result<Option<Shared<Head>>, AllocError>
    ensures { IfOk result (λ made. made ≡ option_map (Head.Pr procedure.now) side) }
{
    match side {
        Some(side) => {
            let procedure = procedure.share()?;
            new_head(alloc, Head::Pr(procedure, side))
        }
        None => Ok(None),
    }
}

/// The head of a judgment on another program.
pub fn hoare_head(
    alloc: Global,
    subject: Option<Subject>,
) -> Result<Option<Shared<Head>>, AllocError>
    ensures { IfOk result (λ made. made ≡ option_map Head.Hoare subject) }
{
    match subject {
        Some(subject) => new_head(alloc, Head::Hoare(subject)),
        None => Ok(None),
    }
}

/// The same with a bound.
pub fn phoare_head(
    alloc: Global,
    subject: Option<Subject>,
    rel: Rel,
) -> Result<Option<Shared<Head>>, AllocError>
    ensures { IfOk result (λ made. made ≡ option_map (λ s. Head.Phoare s rel) subject) }
{
    match subject {
        Some(subject) => new_head(alloc, Head::Phoare(subject, rel)),
        None => Ok(None),
    }
}

/// The head of an equivalence of which a program or both become others.
pub fn equiv_head(
    alloc: Global,
    left: &Subject,
    right: &Subject,
    made_left: Option<Subject>,
    made_right: Option<Subject>,
) -> Result<Option<Shared<Head>>, AllocError>
    ensures { IfOk result (λ made. unwrap_or made (Head.Equiv left.now right.now) ≡ Head.Equiv (unwrap_or made_left left.now) (unwrap_or made_right right.now)) }
{
    if made_left.is_none() && made_right.is_none() {
        return Ok(None);
    }
    let left = subject_or_kept(made_left, left)?;
    let right = subject_or_kept(made_right, right)?;
    new_head(alloc, Head::Equiv(left, right))
}

/// The judgment's program of another body.
pub fn rebuilt_body(body: Option<Cmd>) -> Option<Subject>
    ensures { result ≡ option_map Body body }
{
    match body {
        Some(body) => Some(Subject::Body(body)),
        None => None,
    }
}

/// The assignment of another value.
pub fn rebuilt_assign(
    targets: &SharedItems<Var>,
    value: Option<Term>,
) -> Result<Option<Instr>, AllocError>
    ensures { IfOk result (λ made. made ≡ option_map (Assign targets.now) value) }
{
    match value {
        Some(value) => {
            let targets = targets.share()?;
            Ok(Some(Instr::Assign(targets, value)))
        }
        None => Ok(None),
    }
}

/// The sampling from another distribution.
pub fn rebuilt_sample(
    alloc: Global,
    target: &Var,
    from: Option<Term>,
) -> Result<Option<Instr>, AllocError>
    ensures { IfOk result (λ made. made ≡ option_map (Sample target.now) from) }
{
    match from {
        Some(from) => {
            let target = copy_var(alloc, target)?;
            Ok(Some(Instr::Sample(target, from)))
        }
        None => Ok(None),
    }
}

/// The call on other arguments.
pub fn rebuilt_call(
    targets: &SharedItems<Var>,
    procedure: &Shared<ProcRef>,
    args: Option<SharedItems<Term>>,
) -> Result<Option<Instr>, AllocError>
    ensures { IfOk result (λ made. made ≡ option_map (Call targets.now procedure.now) args) }
{
    match args {
        Some(args) => {
            let targets = targets.share()?;
            let procedure = procedure.share()?;
            Ok(Some(Instr::Call(targets, procedure, args)))
        }
        None => Ok(None),
    }
}

/// A conditional with other parts.
pub fn rebuilt_if(
    test: &Term,
    yes: &Cmd,
    no: &Cmd,
    made_test: Option<Term>,
    made_yes: Option<Cmd>,
    made_no: Option<Cmd>,
) -> Result<Option<Instr>, AllocError>
    ensures { IfOk result (λ made. unwrap_or made (If test.now yes.now no.now) ≡ If (unwrap_or made_test test.now) (unwrap_or made_yes yes.now) (unwrap_or made_no no.now)) }
{
    if made_test.is_none() && made_yes.is_none() && made_no.is_none() {
        return Ok(None);
    }
    let test = term_or_kept(made_test, test)?;
    let yes = cmd_or_kept(made_yes, yes)?;
    let no = cmd_or_kept(made_no, no)?;
    Ok(Some(Instr::If(test, yes, no)))
}

/// A loop with other parts.
pub fn rebuilt_while(
    guard: &Term,
    variant: &Term,
    body: &Cmd,
    made_guard: Option<Term>,
    made_variant: Option<Term>,
    made_body: Option<Cmd>,
) -> Result<Option<Instr>, AllocError>
    ensures { IfOk result (λ made. unwrap_or made (While guard.now variant.now body.now) ≡ While (unwrap_or made_guard guard.now) (unwrap_or made_variant variant.now) (unwrap_or made_body body.now)) }
{
    if made_guard.is_none() && made_variant.is_none() && made_body.is_none() {
        return Ok(None);
    }
    let guard = term_or_kept(made_guard, guard)?;
    let variant = term_or_kept(made_variant, variant)?;
    let body = cmd_or_kept(made_body, body)?;
    Ok(Some(Instr::While(guard, variant, body)))
}

/// The elements of a list that `out` lacks, behind its own.
fn catch_up_terms(out: &mut Terms, list: &[Term]) -> Result<(), AllocError>
    ensures { OnOk result (out.new ≡ caught_up out.old list.now) }
{
    for i in out.len()..list.len() {
        out.push(list[i].share()?)?;
    }
    Ok(())
}

/// The term that is made in the place behind these, where one is made: `out` catches up with them first.
pub fn put_term(out: &mut Terms, before: &[Term], made: Option<Term>) -> Result<(), AllocError>
    ensures { OnOk result (out.new ≡ with_next out.old before.now made) }
{
    match made {
        Some(term) => {
            catch_up_terms(out, before)?;
            out.push(term)
        }
        None => Ok(()),
    }
}

/// The terms of `out`, and those behind them in the list as they stand; none where `out` has none.
pub fn finished_terms(
    alloc: Global,
    out: Terms,
    list: &[Term],
) -> Result<Option<SharedItems<Term>>, AllocError>
    ensures { IfOk result (λ made. unwrap_or made list.now ≡ caught_up out list.now) }
{
    if out.is_empty() {
        return Ok(None);
    }
    let mut out = out;
    catch_up_terms(&mut out, list)?;
    let made = SharedItems::new(alloc, out)?;
    Ok(Some(made))
}

fn catch_up_instrs(alloc: Global, out: &mut Instrs, list: &[Instr]) -> Result<(), AllocError>
    ensures { OnOk result (out.new ≡ caught_up out.old list.now) }
{
    for i in out.len()..list.len() {
        out.push(list[i].share(alloc)?)?;
    }
    Ok(())
}

/// The statement that is made in the place behind these, where one is made.
pub fn put_instr(
    alloc: Global,
    out: &mut Instrs,
    before: &[Instr],
    made: Option<Instr>,
) -> Result<(), AllocError>
    ensures { OnOk result (out.new ≡ with_next out.old before.now made) }
{
    match made {
        Some(instr) => {
            catch_up_instrs(alloc, out, before)?;
            out.push(instr)
        }
        None => Ok(()),
    }
}

/// The body of the statements of `out`, and of those behind them as they stand; none where `out` has none.
pub fn finished_cmd(alloc: Global, out: Instrs, cmd: &Cmd) -> Result<Option<Cmd>, AllocError>
    ensures { IfOk result (λ made. unwrap_or made cmd.now ≡ roll-Cmd (record { list = caught_up out cmd.now.list })) }
{
    if out.is_empty() {
        return Ok(None);
    }
    let mut out = out;
    catch_up_instrs(alloc, &mut out, cmd.list.as_slice())?;
    let list = SharedItems::new(alloc, out)?;
    Ok(Some(Cmd { list }))
}
