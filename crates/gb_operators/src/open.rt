// Open forms, which take the type that is wanted of them.

ghost use Rattle.std.specs.Prelude.{◌≡◌};
ghost use Rattle.gb_operators.specs.Open.{is_open, is_some_name, opens, right_first, with_openness};

use gb_core::name::Name;
use gb_script::head::Head;
use gb_script::tree::Node;

/// Whether a form takes the type that is wanted of it: a numeral, `None`, `empty`, `Some` of an open form, and sums,
/// products and negations of open forms.
#[cycle(open)]
pub fn is_open(t: &Node) -> bool
    ensures { result ≡ is_open t.now }
{
    opens(t.head, &t.text, t.parts.as_slice())
}

/// .. from its head, its text and its parts.
#[cycle(open)]
#[tactic(auto, unfolding(crate::specs::Open::opens))]
fn opens(head: Head, text: &Name, parts: &[Node]) -> bool
    ensures { result ≡ opens head text.now (with_openness parts.now) }
{
    match head {
        Head::Number => true,
        Head::Name => text.as_str() == "None" || text.as_str() == "empty",
        Head::Bracketed | Head::Negative => match parts {
            [a] => is_open(a),
            _ => false,
        },
        Head::Sum | Head::Difference | Head::Xor | Head::Product => match parts {
            [a, b] => is_open(a) && is_open(b),
            _ => false,
        },
        Head::Apply => match parts {
            [f, a] => is_some(f.head, &f.text) && is_open(a),
            _ => false,
        },
        _ => false,
    }
}

/// Whether a form is the name `Some`.
fn is_some(head: Head, text: &Name) -> bool
    ensures { result ≡ is_some_name head text.now }
{
    match head {
        Head::Name => text.as_str() == "Some",
        _ => false,
    }
}

/// Whether the right side of an operator is typed first.
pub fn right_first(left: &Node, right: &Node) -> bool
    ensures { result ≡ right_first left.now right.now }
{
    is_open(left) && !is_open(right)
}
