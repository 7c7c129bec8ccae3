// Functions over the table of labels.
ghost use Rattle.std.specs.Prelude.{◌≡◌, map};
ghost use Rattle.model.specs.declared.rows.Label.{Label};
ghost use Rattle.model.specs.Labels.{label_row, root, offset_of, moved, aliased, standing};

use model::rows::{Label, Place, UNKNOWN};

// The row of a label, or that of an unbound one.
fn row_of(labels: &[Label], label: u32) -> Label
    ensures { result ≡ label_row labels.now label }
{
    labels
        .get(label as usize)
        .copied()
        .unwrap_or(Label::unbound(false))
}

// The label that a label stands for, once its aliases are followed.
fn root_of(labels: &[Label], start: u32) -> u32
    ensures { result ≡ root labels.now start }
{
    // No more turns than there are labels: that is why it ends.
    let mut label = start;
    for _turn in 0..labels.len() {
        let Place::AliasOf(alias) = row_of(labels, label).place else {
            return label;
        };
        label = alias;
    }
    label
}

/// The offset that a label resolves to, or UNKNOWN.
pub fn resolve(labels: &[Label], label: u32) -> u32
    ensures { result ≡ offset_of labels.now label }
{
    match row_of(labels, root_of(labels, label)).place {
        Place::At(offset) => offset,
        _ => UNKNOWN,
    }
}

// Edits each row.
fn edit_rows<F: Fn(Label) -> Label>(labels: &mut [Label], edit: F)
    ghost into: { Label → Label }
    requires callable { F.IsAlwaysCallable edit }
    requires edits { (x y : Label) → F.post edit x y → y ≡ into x }
    ensures { labels.new ≡ map into labels.old }
{
    for row in labels.iter_mut() {
        *row = edit(*row);
    }
}

/// Moves each label that stands at one offset to another.
pub fn move_labels(labels: &mut [Label], from: u32, to: u32)
    ensures { labels.new ≡ map (moved from to) labels.old }
{
    edit_rows(labels, |row| {
        if row.place == Place::At(from) {
            Label {
                place: Place::At(to),
                ..row
            }
        } else {
            row
        }
    });
}

/// Each label that stands at an offset becomes an alias of another label.
pub fn alias_labels(labels: &mut [Label], at: u32, target: u32)
    ensures { labels.new ≡ map (aliased at target) labels.old }
{
    edit_rows(labels, |row| {
        if row.place == Place::At(at) {
            Label {
                place: Place::AliasOf(target),
                ..row
            }
        } else {
            row
        }
    });
}

/// How many labels stand at an offset.
pub fn count_standing(labels: &[Label], offset: u32) -> usize
    ensures { result ≡ standing offset labels.now }
{
    labels
        .iter()
        .filter(|row| row.place == Place::At(offset))
        .count()
}
