//! How goroutines go past their communication.

ghost use Rattle.std.specs.Prelude.{◌≡◌};
ghost use Rattle.std.specs.Option.{option_map_or};
ghost use Rattle.gr_base.specs.declared.kinds.Kind.TheVariants.{Pick};
ghost use Rattle.gr_step.specs.Passing.{crossing};

use crate::turn::Meeting;
use gr_base::{Kind, Value};
use gr_goros::Arrival;

/// The kind of a communication, which may be that of a clause.
pub(crate) fn kind_by(clause: Option<u32>, kind: Kind) -> Kind
    ensures { result ≡ option_map_or Pick clause kind }
{
    match clause {
        Some(number) => Kind::Pick(number),
        None => kind,
    }
}

/// How two goroutines go past their communication: the kind of the step, what arrives at the one that takes it, and what
/// arrives at the one that it meets.
#[derive(Drop)]
pub(crate) struct Crossing {
    pub(crate) kind: Kind,
    pub(crate) passes: Arrival,
    pub(crate) meets: Arrival,
}

impl Crossing {
    /// A meeting in a step of a kind, or in the pick of its clause. The goroutine of the meeting gets the first value, and the
    /// one that it meets, which waits with a clause of its own, the second.
    #[inline(always)]
    pub(crate) fn of(
        meeting: &Meeting<'_>,
        kind: Kind,
        got: Option<(Value, bool)>,
        case: Option<u32>,
        given: Option<(Value, bool)>,
    ) -> Crossing
        ensures { result ≡ crossing meeting.now kind got case given }
    {
        let clause = meeting.clause;
        Crossing {
            kind: kind_by(clause, kind),
            passes: Arrival::Passes { clause, got },
            meets: Arrival::IsMet {
                clause: case,
                got: given,
            },
        }
    }
}
