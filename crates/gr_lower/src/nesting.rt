//! The for and select statements around a place.
ghost use Rattle.std.specs.Prelude.{◌≡◌};
ghost use Rattle.gr_lower.specs.StatementCode as spec;
ghost use Rattle.gr_lower.specs.Headings.{ways_of};

/// A for or select statement: the instruction after it, and where its next turn begins if it is a for.
#[derive(Clone, Copy)]
pub struct Way {
    pub out: usize,
    pub again: Option<usize>,
}

/// The statements around a place, the innermost first.
#[derive(Clone, Copy)]
pub enum Ways<'a> {
    Outside,
    Inside(Way, &'a Ways<'a>),
}

/// Where a break leads that leaves this one of the statements, counted outwards from the nearest, which is 0.
pub fn leaving(depth: usize, ways: &Ways) -> Option<usize>
    ensures { result ≡ spec.leaving depth (ways_of ways.now) }
{
    match ways {
        Ways::Outside => None,
        Ways::Inside(way, _) if depth == 0 => Some(way.out),
        Ways::Inside(_, outer) => leaving(depth - 1, outer),
    }
}

/// Where a continue leads that goes to the next turn of this one of the statements.
pub fn turning(depth: usize, ways: &Ways) -> Option<usize>
    ensures { result ≡ spec.turning depth (ways_of ways.now) }
{
    match ways {
        Ways::Outside => None,
        Ways::Inside(way, _) if depth == 0 => way.again,
        Ways::Inside(_, outer) => turning(depth - 1, outer),
    }
}
