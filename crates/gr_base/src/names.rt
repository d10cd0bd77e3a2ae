//! Names of goroutines, channels and steps.

ghost use Rattle.std.specs.Prelude.{◌≡◌, ◌+◌, ◌<◌, ◌^◌, ◌++◌, ◌∷◌, [], ◌↔◌, IsTrue, IfOk, nat_eq};
ghost use Rattle.std.specs.Cmp.Lexicographic.{pointwise, slice_cmp};
ghost use Rattle.std.specs.Ordering.{nat_cmp, as_partial_cmp};
ghost use Rattle.std.specs.Cmp.{partial_order_from_own_ties};
ghost use Rattle.std.specs.Cmp.Rules.{comparing, hashing};
ghost use Rattle.std.specs.Hash as fed;
ghost use Rattle.std.proofs.Common.{rules};
ghost use Rattle.gr_base.specs.Counts.{IsCount, IsGoName};

use crate::memory::NoMemory;
use std::alloc::Global;
use std::cmp::Ordering;
use std::hash::{Hash, Hasher};
use std::marker::Model;
use std::sync::ArcSlice;

/// A goroutine, named by the counts of children that lead to it from the goroutine of `main`, whose own name has none. The
/// third child of the first child of `main`'s goroutine has the counts 1 and 3. Each count is from 1 to 4,294,967,295, and
/// there may be any number of them. A name comes before the names of its descendants. The counts are shared by all copies of
/// a name.
#[derive(Debug, Drop)]
pub struct GoName {
    counts: ArcSlice<u32>,
}

impl Model for GoName {
    ghost use Rattle.std.specs.Prelude.{List, ℕ};
    ghost use Rattle.std.specs.Arc.{arc_slice_items};
    ghost use Rattle.gr_base.specs.Counts.{IsGoName};

    ghost Value = { List ℕ };

    ghost view = { λ name. arc_slice_items name.counts };

    ghost invariant = { λ name. IsGoName (arc_slice_items name.counts) };
}

impl GoName {
    /// The goroutine of `main`, `g0`.
    pub fn main(alloc: Global) -> Result<GoName, NoMemory>
        ensures { IfOk result (λ name. name ≡ []) }
    {
        GoName::from_counts(Vec::new(alloc))
    }

    /// The name with these counts.
    pub(crate) fn from_counts(counts: Vec<u32>) -> Result<GoName, NoMemory>
        requires { IsGoName counts.items }
        ensures { IfOk result (λ name. name ≡ counts.items) }
    {
        let counts = ArcSlice::from_vec(counts)?;
        Ok(GoName { counts })
    }

    /// The counts, the first child's first.
    pub fn counts(&self) -> &[u32]
        ensures value { result.now ≡ self.now }
        ensures valid { IsGoName self.now }
    {
        self.counts.as_slice()
    }

    /// Whether this is the goroutine of `main`.
    pub fn is_main(&self) -> bool
        ensures { IsTrue result ↔ (self.now ≡ []) }
    {
        self.counts().is_empty()
    }

    /// The name of the goroutine's `n`-th child.
    pub fn child(&self, alloc: Global, n: u32) -> Result<GoName, NoMemory>
        requires { 0 < n }
        ensures { IfOk result (λ name. name ≡ self.now ++ n ∷ []) }
    {
        let mut counts = Vec::with_capacity(alloc, self.counts.len().saturating_add(1))?;
        counts.extend_from_slice(self.counts())?;
        counts.push(n)?;
        GoName::from_counts(counts)
    }

    /// A copy of the name. It shares the counts, takes no memory, and is refused only where 2^63 - 1 names share them.
    pub fn copy(&self, _alloc: Global) -> Result<GoName, NoMemory>
        ensures { IfOk result (λ name. name ≡ self.now) }
    {
        let counts = self.counts.clone()?;
        Ok(GoName { counts })
    }
}

impl PartialEq for GoName {
    ghost eq = { pointwise nat_eq };

    ghost laws = { Prim.search (comparing, rules) };

    #[inline(always)]
    fn eq(&self, other: &GoName) -> bool {
        match self.counts() {
            [] => other.counts().is_empty(),
            [count] => match other.counts() {
                [other] => *count == *other,
                _ => false,
            },
            counts => counts == other.counts(),
        }
    }
}

impl Eq for GoName {
    ghost laws = { Prim.search (comparing, rules) };
}

impl Hash for GoName {
    ghost hash_input = { fed.slice fed.u32 };

    ghost respects_eq = { Prim.search (hashing, rules) };

    fn hash<H: Hasher>(&self, state: &mut H) {
        self.counts().hash(state);
    }
}

impl PartialOrd for GoName {
    ghost partial_cmp = { as_partial_cmp (slice_cmp nat_cmp) };

    ghost laws = { partial_order_from_own_ties (Prim.search (comparing, rules)) (Prim.search (comparing, rules)) };

    fn partial_cmp(&self, other: &GoName) -> Option<Ordering> {
        Some(self.cmp(other))
    }
}

impl Ord for GoName {
    ghost cmp = { slice_cmp nat_cmp };

    ghost total = { Prim.search (comparing, rules) };

    ghost matches_partial_cmp = { Prim.search (comparing, rules) };

    ghost matches_eq = { Prim.search (comparing, rules) };

    fn cmp(&self, other: &GoName) -> Ordering {
        let others = other.counts();
        match self.counts() {
            [] => {
                if others.is_empty() {
                    Ordering::Equal
                } else {
                    Ordering::Less
                }
            }
            [count] => match others {
                [] => Ordering::Greater,
                [other_count] => (*count).cmp(other_count),
                _ => self.counts().cmp(&others),
            },
            counts => counts.cmp(&others),
        }
    }
}

/// A channel, named by the goroutine that made it and its number among the channels of that goroutine's making, from 1.
/// Channels are in the order of their goroutines, and those of one goroutine in the order of their numbers.
#[derive(Debug, PartialEq, Eq, PartialOrd, Ord, Hash, Drop)]
pub struct ChName {
    pub go: GoName,
    pub n: u32,
}

impl ChName {
    /// A copy of the name, which shares its counts.
    pub fn copy(&self, alloc: Global) -> Result<ChName, NoMemory>
        ensures { IfOk result (λ name. name ≡ self.now) }
    {
        let go = self.go.copy(alloc)?;
        Ok(ChName { go, n: self.n })
    }
}

/// A step, named by the goroutine that took it and its ordinal among that goroutine's steps, from 1.
/// Steps are in the order of their goroutines, and those of one goroutine in the order of their ordinals.
#[derive(Debug, PartialEq, Eq, PartialOrd, Ord, Hash, Drop)]
pub struct StepId {
    pub go: GoName,
    pub n: u64,
}

impl StepId {
    /// A copy of the name, which shares its counts.
    pub fn copy(&self, alloc: Global) -> Result<StepId, NoMemory>
        ensures { IfOk result (λ step. step ≡ self.now) }
    {
        let go = self.go.copy(alloc)?;
        Ok(StepId { go, n: self.n })
    }
}
