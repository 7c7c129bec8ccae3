// Simplifying the branches at the end of the code.
ghost use Rattle.std.specs.Prelude.{◌≡◌};
ghost use Rattle.model.specs.Calls.{optimize_branches};
ghost use Rattle.model.specs.Simplify.{all_rounds, simplified};
ghost use Rattle.tables.specs.View.{view};

use crate::attempts::apply_rule;
use crate::rules::{Outcome, Rule};
use model::Refusal;
use model::rows::Place;
use tables::tables::Tables;

/// labels at the start of a branch that simplification takes
pub const MAX_LABELS_AT_BRANCH: usize = 100;

// Rounds, until no rule applies.
fn run_rounds(tables: &mut Tables)
    ensures { view tables.new ≡ (all_rounds (view tables.old)).1 }
{
    'rounds: loop {
        if tables.branches.rows.is_empty() {
            break 'rounds;
        }
        let branch = tables.last_branch_of();
        if branch.end as usize != tables.code.rows.len() {
            break 'rounds;
        }
        // A rule of the project: the rounds are left from inside the loops over labels and over rules, so that neither
        // loop is a chain or a function of its own.
        let mut stood: usize = 0;
        for label in tables.labels.rows.iter() {
            if label.place == Place::At(branch.start) {
                stood += 1;
                if stood > MAX_LABELS_AT_BRANCH {
                    break 'rounds;
                }
            }
        }
        for rule in [
            Rule::CutToNext,
            Rule::Redirect,
            Rule::CutUnreached,
            Rule::TurnBefore,
        ] {
            match apply_rule(tables, rule) {
                Outcome::Applied => continue 'rounds,
                Outcome::Stopped => break 'rounds,
                Outcome::Passed => {}
            }
        }
        break 'rounds;
    }
}

/// Simplifies the branches at the end of the code, unless it is to be skipped.
pub fn simplify(tables: &mut Tables, skip: bool)
    ensures { view tables.new ≡ simplified skip (view tables.old) }
{
    if skip {
        return;
    }
    run_rounds(tables);
    tables.forget();
}

/// Simplifies on request: not while a region is open, nor after the buffer broke off.
pub fn optimize_branches(tables: &mut Tables, skip: bool) -> Result<(), Refusal>
    ensures { (result, view tables.new) ≡ optimize_branches (view tables.old) skip }
{
    tables.unbroken()?;
    tables.no_region_open()?;
    simplify(tables, skip);
    Ok(())
}
