//! Lists of names of steps.

ghost use Rattle.std.specs.Prelude.{◌≡◌, IfOk};

use gr_base::{NoMemory, StepId};
use std::alloc::Global;
use std::marker::Model;

/// Names of steps, in an order.
#[derive(Drop)]
pub struct StepList {
    ids: Vec<StepId>,
}

impl Model for StepList {
    ghost use Rattle.std.specs.Prelude.{List};
    ghost use Rattle.gr_base.specs.declared.names.StepId.{StepId};

    ghost Value = { List StepId };

    ghost view = { λ list. list.ids.items };
}

impl StepList {
    /// The list of these names.
    pub fn new(ids: Vec<StepId>) -> StepList
        ensures { result ≡ ids.items }
    {
        StepList { ids }
    }

    /// The names, the first one first.
    pub fn as_slice(&self) -> &[StepId]
        ensures { result.now ≡ self.now }
    {
        self.ids.as_slice()
    }

    /// A copy of the list.
    pub fn copy(&self, alloc: Global) -> Result<StepList, NoMemory>
        ensures { IfOk result (λ list. list ≡ self.now) }
    {
        let ids = copied(alloc, self.as_slice())?;
        Ok(StepList { ids })
    }
}

fn copied(alloc: Global, ids: &[StepId]) -> Result<Vec<StepId>, NoMemory>
    ensures { IfOk result (λ copies. copies.items ≡ ids.now) }
{
    let mut copies = Vec::with_capacity(alloc, ids.len())?;
    for id in ids {
        copies.push_reserved(id.copy(alloc)?);
    }
    Ok(copies)
}
