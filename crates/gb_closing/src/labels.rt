// Labels of rows, and which of them are equal.

ghost use Rattle.std.specs.Prelude.{◌≡◌, ◌↔◌, IsTrue};
ghost use Rattle.gb_closing.specs.Labels.{label_at, labels_at};

/// The label of false forms.
pub const FALSE: usize = 0;
/// The label of true forms. Greater labels are those of terms whose truth isn't known, or that have none.
pub const TRUE: usize = 1;

/// The label at a place, or that of false forms where there is none.
#[tactic(auto, using(crate::proofs::Places::at_found, crate::proofs::Places::at_missing))]
pub fn label_at(labels: &[usize], place: usize) -> usize
    ensures { result ≡ label_at labels.now place }
{
    match labels.get(place) {
        Some(label) => *label,
        None => FALSE,
    }
}

/// Whether places have equal labels, one by one.
pub fn have_same_labels(labels: &[usize], a: &[usize], b: &[usize]) -> bool
    ensures { IsTrue result ↔ labels_at labels.now a.now ≡ labels_at labels.now b.now }
{
    if a.len() != b.len() {
        return false;
    }
    for at in 0..a.len() {
        if label_at(labels, a[at]) != label_at(labels, b[at]) {
            return false;
        }
    }
    true
}
