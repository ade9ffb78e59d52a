// Numbers of labels.

ghost use Rattle.std.specs.Prelude.{◌≡◌, suc, ◌-◌, ◌^◌, ◌<◌, ◌++◌, min, IfOk, OnOk};
ghost use Rattle.gb_labels.specs.Labels.{count_of, choices, choice_at};
ghost use Rattle.gb_labels.specs.Things.{with_one};

use gb_core::name::Name;
use sqlite_items::Items;
use std::alloc::{AllocError, Global};

/// How many labels stand for the values of all globals of the abstract module of this name.
#[derive(Drop)]
pub struct Label {
    pub name: Name,
    pub count: u32,
}

pub type Labels = Items<Label>;

/// The number of labels of a module, if it has one.
pub fn count_of(list: &[Label], name: &Name) -> Option<u32>
    ensures { result ≡ count_of list.now name.now }
{
    for label in list {
        if label.name == *name {
            return Some(label.count);
        }
    }
    None
}

/// The same module with one label more. A number that doesn't fit `u32` is refused as want of memory.
fn one_more(alloc: Global, label: &Label) -> Result<Label, AllocError>
    ensures { IfOk result (λ made. made ≡ record { name = label.now.name; count = suc label.now.count }) }
{
    let count = label.count.checked_add(1).ok_or(AllocError)?;
    let name = label.name.copy(alloc)?;
    Ok(Label { name, count })
}

/// One more of a module, which comes last where it is new.
pub fn with_one(alloc: Global, list: Labels, name: &Name) -> Result<Labels, AllocError>
    ensures { IfOk result (λ made. made ≡ with_one list name.now) }
{
    let mut list = list;
    for at in 0..list.len() {
        let label = &list.as_slice()[at];
        if label.name == *name {
            let more = one_more(alloc, label)?;
            list.set(at, more);
            return Ok(list);
        }
    }
    let name = name.copy(alloc)?;
    list.push(Label { name, count: 1 })?;
    Ok(list)
}

/// How many choices there are of a number of labels for each module, from 1 up to its number here; at most 2^64 - 1 are counted.
pub fn choices(most: &[Label]) -> u64
    ensures { result ≡ min (choices most.now) (2 ^ 64 - 1) }
{
    let [label, others @ ..] = most else {
        return 1;
    };
    u64::from(label.count).saturating_mul(choices(others))
}

/// The number at a place below a greatest one, from 1 up.
fn number_at(most: u32, at: u64) -> u32
    requires { at < most }
    ensures { result ≡ suc at }
{
    at as u32 + 1
}

/// Adds the choice at a place, the first module slowest.
fn add_choice(alloc: Global, most: &[Label], at: u64, out: &mut Labels) -> Result<(), AllocError>
    requires { at < min (choices most.now) (2 ^ 64 - 1) }
    ensures { OnOk result (out.new ≡ out.old ++ choice_at most.now at) }
{
    let [label, others @ ..] = most else {
        return Ok(());
    };
    let each = choices(others);
    let name = label.name.copy(alloc)?;
    let count = number_at(label.count, at / each);
    out.push(Label { name, count })?;
    add_choice(alloc, others, at % each, out)
}

/// The choice at a place.
pub fn choice_at(alloc: Global, most: &[Label], at: u64) -> Result<Labels, AllocError>
    requires { at < min (choices most.now) (2 ^ 64 - 1) }
    ensures { IfOk result (λ made. made ≡ choice_at most.now at) }
{
    let mut out = Items::new(alloc);
    add_choice(alloc, most, at, &mut out)?;
    Ok(out)
}
