ghost use Rattle.std.specs.Prelude.{◌≡◌, Ok, Err, MatchResult};
ghost use Rattle.change.specs.Lists.{checked};

use crate::change::Change;
use crate::list::{BadList, Totals, check_list};

// A list that breaks no rule, and its totals.
#[derive(Clone, Copy)]
pub struct ValidList<'a> {
    pub changes: &'a [Change],
    pub totals: Totals,
    ghost valid: { checked changes.now ≡ Ok totals },
}

impl<'a> ValidList<'a> {
    // The list, if it is one.
    pub fn new(changes: &'a [Change]) -> Result<ValidList<'a>, BadList>
        ensures { MatchResult result (λ l. l.changes.now ≡ changes.now) (λ e. checked changes.now ≡ Err e) }
    {
        let totals = check_list(changes)?;
        Ok(ValidList { changes, totals })
    }
}
