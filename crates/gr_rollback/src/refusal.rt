//! Why steps are not taken back, done again or put in another order.

use gr_base::StepId;
use thiserror::Error;

/// Why steps are not taken back, done again or put in another order.
#[derive(Debug, Drop, Error)]
pub enum BackRefused {
    /// B1: no step is kept.
    #[error("no step is kept")]
    NothingToUndo,
    /// B2: no step of this name is kept.
    #[error("no such step is kept")]
    NotKept,
    /// B3: the names are not those of the steps that are kept, each once.
    #[error("other steps are kept")]
    NotTheSteps,
    /// B4: these two steps conflict, and would change places; the first is the earlier one in the log.
    #[error("the order breaks a dependence")]
    BreaksDependence(StepId, StepId),
    /// B5: no step may be done again.
    #[error("no step can be taken again")]
    NothingToRedo,
    /// B6: a growth was refused. These steps were taken back, or done again, before that.
    #[error("out of memory")]
    NoMemory(Vec<StepId>),
}
