// Goals and forms as text.

ghost use Rattle.std.specs.Prelude.{◌≡◌, [], ◌++◌, map, IfOk, OnOk};
ghost use Rattle.gb_print_names.specs.BoundNames.{place};
ghost use Rattle.gb_print_names.specs.Text.{each};
ghost use Rattle.gb_print.specs.GoalText.{typed_names, with_enumerations, context_names, variable_line, memory_line, module_line, hypothesis_line, goal_text, place_of_form, place_of_goal, printed_form, printed_goal};
ghost use Rattle.gb_print.specs.Forms.{form_tree};
ghost use Rattle.gb_print.specs.Goals.{IsWrittenGoal, IsGoalReadAs};
ghost use Rattle.gb_print.specs.ReadBack.{IsReadAs};
ghost use Rattle.gb_print.specs.Written.{IsWritten};

use crate::binders::put_typed;
use crate::form::put_form;
use crate::laws::{printed_forms_are_read, printed_goals_are_read};
use gb_core::Stack;
use gb_core::name::{Name, Names};
use gb_goal::scope::Scope;
use gb_goal::sequent::{Hyp, Sequent};
use gb_print_names::bound_names::{Enumeration, Setting};
use gb_print_names::modules::put_abstract_module;
use gb_print_names::occurring::note_name;
use gb_print_names::text::{Page, Text};
use gb_terms::decl::TypedName;
use gb_terms::module::Bind;
use gb_terms::term::Form;
use sqlite_items::Items;
use std::alloc::{AllocError, Global};

fn page(alloc: Global) -> Page
    ensures { result ≡ record { text = []; bound = [] } }
{
    Page {
        text: Text::new(alloc),
        bound: Stack::new(alloc),
    }
}

fn note_typed(alloc: Global, names: &mut Names, list: &[TypedName]) -> Result<(), AllocError>
    ensures { OnOk result (names.new ≡ names.old ++ typed_names list.now) }
{
    for x in list {
        note_name(alloc, names, &x.name)?;
    }
    Ok(())
}

fn note_names(alloc: Global, names: &mut Names, list: &[Name]) -> Result<(), AllocError>
    ensures { OnOk result (names.new ≡ names.old ++ list.now) }
{
    for x in list {
        note_name(alloc, names, x)?;
    }
    Ok(())
}

fn note_modules(alloc: Global, names: &mut Names, list: &[Bind]) -> Result<(), AllocError>
    ensures { OnOk result (names.new ≡ names.old ++ map (λ b. b.name) list.now) }
{
    for x in list {
        note_name(alloc, names, &x.name)?;
    }
    Ok(())
}

fn note_hypotheses(alloc: Global, names: &mut Names, list: &[Hyp]) -> Result<(), AllocError>
    ensures { OnOk result (names.new ≡ names.old ++ map (λ h. h.name) list.now) }
{
    for x in list {
        note_name(alloc, names, &x.name)?;
    }
    Ok(())
}

fn note_enumerations(
    alloc: Global,
    names: &mut Names,
    list: &[Enumeration],
) -> Result<(), AllocError>
    ensures { OnOk result (names.new ≡ with_enumerations list.now names.old) }
{
    for e in list {
        note_name(alloc, names, &e.name)?;
        note_names(alloc, names, e.constants.as_slice())?;
    }
    Ok(())
}

/// The names of a context.
fn context_names(alloc: Global, s: &Sequent) -> Result<Names, AllocError>
    ensures { IfOk result (λ names. names ≡ context_names s.now) }
{
    let mut names = Items::new(alloc);
    note_typed(alloc, &mut names, s.logical.as_slice())?;
    note_names(alloc, &mut names, s.memories.as_slice())?;
    note_modules(alloc, &mut names, s.modules.as_slice())?;
    note_hypotheses(alloc, &mut names, s.hyps.as_slice())?;
    Ok(names)
}

fn put_variables(alloc: Global, page: &mut Page, list: &[TypedName]) -> Result<(), AllocError>
    ensures { OnOk result (page.new ≡ record page.old { text = each (variable_line page.old.bound) list.now page.old.text }) }
{
    for x in list {
        put_typed(alloc, &mut page.text, &page.bound, &x.name, x.ty.get())?;
        page.text.put("\n")?;
    }
    Ok(())
}

fn put_memories(text: &mut Text, list: &[Name]) -> Result<(), AllocError>
    ensures { OnOk result (text.new ≡ each memory_line list.now text.old) }
{
    for name in list {
        text.put("&")?;
        text.put(name.as_str())?;
        text.put("\n")?;
    }
    Ok(())
}

fn put_modules(alloc: Global, page: &mut Page, list: &[Bind]) -> Result<(), AllocError>
    ensures { OnOk result (page.new ≡ record page.old { text = each (module_line page.old.bound) list.now page.old.text }) }
{
    for bind in list {
        put_abstract_module(alloc, &mut page.text, &page.bound, &bind.name, bind)?;
        page.text.put("\n")?;
    }
    Ok(())
}

fn put_hypotheses(
    alloc: Global,
    page: &mut Page,
    at: &Setting<'_>,
    list: &[Hyp],
) -> Result<(), AllocError>
    ensures { OnOk result (page.new ≡ record page.old { text = each (hypothesis_line (place at.now page.old.bound)) list.now page.old.text }) }
{
    for hyp in list {
        page.text.put(hyp.name.as_str())?;
        page.text.put(" : ")?;
        put_form(alloc, page, at, true, &hyp.form)?;
        page.text.put("\n")?;
    }
    Ok(())
}

fn put_goal(alloc: Global, page: &mut Page, at: &Setting<'_>, s: &Sequent) -> Result<(), AllocError>
    ensures { OnOk result (page.new ≡ record page.old { text = goal_text (place at.now page.old.bound) s.now page.old.text }) }
{
    put_variables(alloc, page, s.logical.as_slice())?;
    put_memories(&mut page.text, s.memories.as_slice())?;
    put_modules(alloc, page, s.modules.as_slice())?;
    put_hypotheses(alloc, page, at, s.hyps.as_slice())?;
    page.text.put("---\n")?;
    put_form(alloc, page, at, true, &s.conclusion)?;
    page.text.put("\n")
}

fn form_bytes(
    alloc: Global,
    scope: &Scope,
    enumerations: &[Enumeration],
    t: &Form,
    logical: &[TypedName],
    memories: &[Name],
) -> Result<Vec<u8>, AllocError>
    ensures { IfOk result (λ bytes. bytes.items ≡ printed_form scope.now enumerations.now logical.now memories.now t.now) }
{
    let mut names = Items::new(alloc);
    note_typed(alloc, &mut names, logical)?;
    note_names(alloc, &mut names, memories)?;
    note_enumerations(alloc, &mut names, enumerations)?;
    let at = Setting {
        scope,
        enumerations,
        logical,
        memories,
        taken: names.as_slice(),
    };
    let mut page = page(alloc);
    put_form(alloc, &mut page, &at, true, t)?;
    let Page { text, bound: _ } = page;
    Ok(text.into_bytes())
}

fn goal_bytes(
    alloc: Global,
    scope: &Scope,
    enumerations: &[Enumeration],
    s: &Sequent,
) -> Result<Vec<u8>, AllocError>
    ensures { IfOk result (λ bytes. bytes.items ≡ printed_goal scope.now enumerations.now s.now) }
{
    let mut names = context_names(alloc, s)?;
    note_enumerations(alloc, &mut names, enumerations)?;
    let at = Setting {
        scope,
        enumerations,
        logical: s.logical.as_slice(),
        memories: s.memories.as_slice(),
        taken: names.as_slice(),
    };
    let mut page = page(alloc);
    put_goal(alloc, &mut page, &at, s)?;
    let Page { text, bound: _ } = page;
    Ok(text.into_bytes())
}

/// A form as text. The lists name the logical variables and the memories of its context. Where it can be written in the
/// language (`IsWritten`), the text spells the form's tree and no other, and [`gb_read_script::reading::form`] answers it, if
/// it is within 64 levels.
pub fn print_form(
    alloc: Global,
    scope: &Scope,
    enumerations: &[Enumeration],
    t: &Form,
    logical: &[TypedName],
    memories: &[Name],
) -> Result<Vec<u8>, AllocError>
    ensures text { IfOk result (λ bytes. bytes.items ≡ printed_form scope.now enumerations.now logical.now memories.now t.now) }
    ensures read { IfOk result (λ bytes. IsWritten 0 (place_of_form scope.now enumerations.now logical.now memories.now) t.now → IsReadAs bytes.items (form_tree t.now (place_of_form scope.now enumerations.now logical.now memories.now))) }
{
    printed_forms_are_read();
    let bytes = form_bytes(alloc, scope, enumerations, t, logical, memories)?;
    Ok(bytes)
}

/// A goal as text: its context by kind, one entry a line, then `---`, then its conclusion on one line. Where it can be
/// written in the language (`IsWrittenGoal`), the text spells the goal's tree and no other, and
/// [`gb_read_script::goal::goal`] answers it.
pub fn print_goal(
    alloc: Global,
    scope: &Scope,
    enumerations: &[Enumeration],
    s: &Sequent,
) -> Result<Vec<u8>, AllocError>
    ensures text { IfOk result (λ bytes. bytes.items ≡ printed_goal scope.now enumerations.now s.now) }
    ensures read { IfOk result (λ bytes. IsWrittenGoal (place_of_goal scope.now enumerations.now s.now) s.now → IsGoalReadAs bytes.items (place_of_goal scope.now enumerations.now s.now) s.now) }
{
    printed_goals_are_read();
    let bytes = goal_bytes(alloc, scope, enumerations, s)?;
    Ok(bytes)
}
