// What is done to the last standing branch.
ghost use Rattle.std.specs.Prelude.{◌≡◌, ◌<◌, vec_len};
ghost use Rattle.model.specs.Simplify.{cut, turn};
ghost use Rattle.simplification.specs.Rules.{apply};
ghost use Rattle.simplification.specs.declared.rules.Rule.TheVariants.{CutToNext, Redirect, CutUnreached, TurnBefore};
ghost use Rattle.tables.specs.View.{view};

use crate::rules::{Outcome, Rule};
use slices::labels::{count_standing, resolve};
use tables::tables::Tables;

// The last branch is cut: labels at the tail move to its start. That a branch stands is true of a moment, so no type has it.
fn cut_last_branch(tables: &mut Tables)
    requires { 0 < vec_len tables.old.branches.rows }
    ensures { view tables.new ≡ cut (view tables.old) }
{
    let tail = tables.code.rows.len() as u32;
    let start = tables.last_branch_of().start;
    tables.move_labels_at(tail, start);
    tables.drop_last_branch();
}

// A branch is turned round, in the code too, and it and its fixup lead to another label.
fn turn_round(tables: &mut Tables, n: usize, label: u32)
    requires { n < vec_len tables.old.branches.rows }
    ensures { view tables.new ≡ turn (view tables.old) n label }
{
    let branch = tables.standing_branch(n);
    let bytes = branch.turned(label).bytes;
    let size = (branch.end - branch.start) as usize;
    tables.invert_branch(n, label);
    tables.retarget_fixup(branch.fixup as usize, label);
    tables.overwrite_code(branch.start as usize, &bytes[0..size]);
}

// It leads to where it ends: it is cut.
fn cut_to_next(tables: &mut Tables) -> Outcome
    requires { 0 < vec_len tables.old.branches.rows }
    ensures { (result, view tables.new) ≡ apply CutToNext (view tables.old) }
{
    let branch = tables.last_branch_of();
    if resolve(tables.labels.rows.as_slice(), branch.target) as usize == tables.code.rows.len() {
        cut_last_branch(tables);
        return Outcome::Applied;
    }
    Outcome::Passed
}

// Labels at its start become aliases of its target.
fn redirect_labels(tables: &mut Tables) -> Outcome
    requires { 0 < vec_len tables.old.branches.rows }
    ensures { (result, view tables.new) ≡ apply Redirect (view tables.old) }
{
    let branch = tables.last_branch_of();
    if branch.is_conditional()
        || resolve(tables.labels.rows.as_slice(), branch.target) == branch.start
    {
        return Outcome::Stopped;
    }
    if count_standing(tables.labels.rows.as_slice(), branch.start) == 0 {
        return Outcome::Passed;
    }
    tables.alias_labels_at(branch.start, branch.target);
    Outcome::Applied
}

// Nothing falls into it: it is cut.
fn cut_unreached(tables: &mut Tables) -> Outcome
    ensures { (result, view tables.new) ≡ apply CutUnreached (view tables.old) }
{
    match tables.adjoining_branch() {
        Some(before) if !before.is_conditional() => {
            cut_last_branch(tables);
            Outcome::Applied
        }
        _ => Outcome::Passed,
    }
}

// The conditional before it only jumps over it: that is turned round, and it is cut.
fn turn_before(tables: &mut Tables) -> Outcome
    ensures { (result, view tables.new) ≡ apply TurnBefore (view tables.old) }
{
    let Some(before) = tables.adjoining_branch() else {
        return Outcome::Passed;
    };
    if !before.is_conditional()
        || resolve(tables.labels.rows.as_slice(), before.target) as usize
            != tables.code.rows.len()
    {
        return Outcome::Passed;
    }
    let target = tables.last_branch_of().target;
    // The branch before the last is written to by its number.
    let place = tables.branches.rows.len() - 2;
    cut_last_branch(tables);
    turn_round(tables, place, target);
    Outcome::Applied
}

/// Tries a rule on the last standing branch.
// A rule of the project: the rounds go over the rules by a loop, so that this is a switch on which one to try.
pub fn apply_rule(tables: &mut Tables, rule: Rule) -> Outcome
    requires { 0 < vec_len tables.old.branches.rows }
    ensures { (result, view tables.new) ≡ apply rule (view tables.old) }
{
    match rule {
        Rule::CutToNext => cut_to_next(tables),
        Rule::Redirect => redirect_labels(tables),
        Rule::CutUnreached => cut_unreached(tables),
        Rule::TurnBefore => turn_before(tables),
    }
}
