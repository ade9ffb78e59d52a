// What labels of a connective or an equation and of its arguments imply.

ghost use Rattle.std.specs.Prelude.{◌≡◌, ◌↔◌, true, IsTrue, IfSome, MatchOption};
ghost use Rattle.gb_equality.specs.Connectives.{is_over_forms, truth};
ghost use Rattle.gb_equality.specs.Rules.{Fits, IsComplete, IsEquated, IsEven, IsForced, IsImplied, IsPossible};

use crate::connectives::Connective;
use gb_closing::labels::{FALSE, TRUE};

/// Two labels that have to be one.
#[derive(Clone, Copy)]
pub struct Equation {
    pub left: usize,
    pub right: usize,
}

/// What a table says of a connective of two truths.
fn truth(connective: Connective, p: bool, q: bool) -> bool
    ensures { result ≡ truth connective p q }
{
    match connective {
        Connective::Truth(b) => b,
        Connective::Not => !p,
        Connective::And => p && q,
        Connective::Or => p || q,
        Connective::Implies => !p || q,
        Connective::Iff => if p { q } else { !q },
        Connective::Unlike => if p { !q } else { q },
        _ => false,
    }
}

/// Whether a truth may have a label.
fn fits(label: usize, p: bool) -> bool
    ensures { IsTrue result ↔ Fits label p }
{
    if p { label != FALSE } else { label != TRUE }
}

/// Whether two truths of arguments may have the labels, and with them the form.
fn fit(connective: Connective, own: usize, left: usize, right: usize, p: bool, q: bool) -> bool
    ensures { IsTrue result ↔ (Fits left p × Fits right q × Fits own (truth connective p q)) }
{
    fits(left, p) && fits(right, q) && fits(own, truth(connective, p, q))
}

/// Whether some truths that may have the labels are as the table says.
fn is_possible(connective: Connective, own: usize, left: usize, right: usize) -> bool
    ensures { IsTrue result ↔ IsPossible connective own left right }
{
    fit(connective, own, left, right, false, false)
        || fit(connective, own, left, right, false, true)
        || fit(connective, own, left, right, true, false)
        || fit(connective, own, left, right, true, true)
}

/// The truth of a label that isn't one yet, where it can't be the other one.
fn forced(label: usize, may_be_false: bool, may_be_true: bool) -> Option<Equation>
    ensures { IfSome result (IsForced label may_be_false may_be_true) }
{
    if label <= TRUE {
        return None;
    }
    if !may_be_false {
        return Some(Equation {
            left: label,
            right: TRUE,
        });
    }
    if !may_be_true {
        return Some(Equation {
            left: label,
            right: FALSE,
        });
    }
    None
}

/// The truth of the form, or else of an argument, where the other labels leave one alone.
fn forced_by_table(
    connective: Connective,
    own: usize,
    left: usize,
    right: usize,
) -> Option<Equation>
    requires { is_over_forms connective ≡ true }
    ensures { IfSome result (IsImplied connective own left right) }
{
    let own_false = is_possible(connective, FALSE, left, right);
    let own_true = is_possible(connective, TRUE, left, right);
    if let Some(equation) = forced(own, own_false, own_true) {
        return Some(equation);
    }
    let left_false = is_possible(connective, own, FALSE, right);
    let left_true = is_possible(connective, own, TRUE, right);
    if let Some(equation) = forced(left, left_false, left_true) {
        return Some(equation);
    }
    let right_false = is_possible(connective, own, left, FALSE);
    let right_true = is_possible(connective, own, left, TRUE);
    forced(right, right_false, right_true)
}

/// Two labels that have to be one by the table of a connective.
fn implied_by_table(
    connective: Connective,
    own: usize,
    left: usize,
    right: usize,
) -> Option<Equation>
    requires { is_over_forms connective ≡ true }
    ensures { MatchOption result (IsComplete connective own left right) (IsImplied connective own left right) }
{
    if !is_possible(connective, own, left, right) {
        return Some(Equation {
            left: FALSE,
            right: TRUE,
        });
    }
    forced_by_table(connective, own, left, right)
}

/// Two labels that have to be one by an equation, which has the label `same` where its sides have one label.
fn implied_by_equation(same: usize, own: usize, left: usize, right: usize) -> Option<Equation>
    ensures { MatchOption result (IsEven same own left right) (IsEquated same own left right) }
{
    if left != right && own == same {
        return Some(Equation { left, right });
    }
    if left == right && own != same {
        return Some(Equation {
            left: own,
            right: same,
        });
    }
    None
}

/// Two labels that have to be one by what a form is, from its own label and those of its first and second argument.
pub fn implied(connective: Connective, own: usize, left: usize, right: usize) -> Option<Equation>
    ensures { MatchOption result (IsComplete connective own left right) (IsImplied connective own left right) }
{
    match connective {
        Connective::Other => None,
        Connective::Equal => implied_by_equation(TRUE, own, left, right),
        Connective::NotEqual => implied_by_equation(FALSE, own, left, right),
        _ => implied_by_table(connective, own, left, right),
    }
}
