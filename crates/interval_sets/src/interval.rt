//! Intervals and their ends.
ghost use Rattle.std.specs.Prelude.{◌≡◌, ◌&&◌, IfOk};
ghost use Rattle.interval_sets.specs.Intervals.{lower_cmp, upper_cmp, ends_cmp, leaves_nothing, is_empty, is_before, is_after, is_below, is_above, holds, greater_lower, lesser_upper, meet_of, met_holds};

use super::ranked::{NoMemory, Ranked};
use std::alloc::Global;
use std::cmp::Ordering;

/// One end of an interval.
#[derive(Debug, Drop)]
pub enum End<V> {
    /// No bound.
    Free,
    /// The bound is inside.
    With(V),
    /// The bound is outside.
    Without(V),
}

/// The values from a lower to an upper end. It may hold nothing.
#[derive(Debug, Drop)]
pub struct Interval<V> {
    pub lower: End<V>,
    pub upper: End<V>,
}

impl<V: Ranked> End<V> {
    pub fn copy(&self, alloc: Global) -> Result<End<V>, NoMemory>
        ensures { IfOk result (λ made. made ≡ self.now) }
    {
        match self {
            End::Free => Ok(End::Free),
            End::With(v) => Ok(End::With(v.copy(alloc)?)),
            End::Without(v) => Ok(End::Without(v.copy(alloc)?)),
        }
    }

    fn cmp_lower(&self, other: &End<V>) -> Ordering
        ensures { result ≡ lower_cmp V.order self.now other.now }
    {
        match (self, other) {
            (End::Free, End::Free) => Ordering::Equal,
            (End::Free, _) => Ordering::Less,
            (_, End::Free) => Ordering::Greater,
            (End::With(a), End::With(b)) => a.cmp_rank(b),
            (End::With(a), End::Without(b)) => a.cmp_rank(b).then(Ordering::Less),
            (End::Without(a), End::With(b)) => a.cmp_rank(b).then(Ordering::Greater),
            (End::Without(a), End::Without(b)) => a.cmp_rank(b),
        }
    }

    fn cmp_upper(&self, other: &End<V>) -> Ordering
        ensures { result ≡ upper_cmp V.order self.now other.now }
    {
        match (self, other) {
            (End::Free, End::Free) => Ordering::Equal,
            (End::Free, _) => Ordering::Greater,
            (_, End::Free) => Ordering::Less,
            (End::With(a), End::With(b)) => a.cmp_rank(b),
            (End::With(a), End::Without(b)) => a.cmp_rank(b).then(Ordering::Greater),
            (End::Without(a), End::With(b)) => a.cmp_rank(b).then(Ordering::Less),
            (End::Without(a), End::Without(b)) => a.cmp_rank(b),
        }
    }

    fn has_before(&self, v: &V) -> bool
        ensures { result ≡ is_before V.order self.now v.now }
    {
        match self {
            End::Free => false,
            End::With(a) => v.cmp_rank(a).is_lt(),
            End::Without(a) => !v.cmp_rank(a).is_gt(),
        }
    }

    fn has_after(&self, v: &V) -> bool
        ensures { result ≡ is_after V.order self.now v.now }
    {
        match self {
            End::Free => false,
            End::With(b) => v.cmp_rank(b).is_gt(),
            End::Without(b) => !v.cmp_rank(b).is_lt(),
        }
    }

    /// Whether nothing lies between this lower end and an upper one: they cross, or are equal and
    /// not both included.
    pub fn leaves_nothing_to(&self, upper: &End<V>) -> bool
        ensures { result ≡ leaves_nothing V.order self.now upper.now }
    {
        match (self, upper) {
            (End::Free, _) => false,
            (_, End::Free) => false,
            (End::With(a), End::With(b)) => a.cmp_rank(b).is_gt(),
            (End::With(a), End::Without(b)) => !a.cmp_rank(b).is_lt(),
            (End::Without(a), End::With(b)) => !a.cmp_rank(b).is_lt(),
            (End::Without(a), End::Without(b)) => !a.cmp_rank(b).is_lt(),
        }
    }
}

/// The lower end that lets less through, or the first of two that tie.
pub fn greater_lower<'a, V: Ranked>(a: &'a End<V>, b: &'a End<V>) -> &'a End<V>
    ensures { result.now ≡ greater_lower V.order a.now b.now }
{
    if a.cmp_lower(b).is_lt() { b } else { a }
}

/// The upper end that lets less through, or the first of two that tie.
pub fn lesser_upper<'a, V: Ranked>(a: &'a End<V>, b: &'a End<V>) -> &'a End<V>
    ensures { result.now ≡ lesser_upper V.order a.now b.now }
{
    if a.cmp_upper(b).is_gt() { b } else { a }
}

impl<V: Ranked> Interval<V> {
    pub fn copy(&self, alloc: Global) -> Result<Interval<V>, NoMemory>
        ensures { IfOk result (λ made. made ≡ self.now) }
    {
        Ok(Interval {
            lower: self.lower.copy(alloc)?,
            upper: self.upper.copy(alloc)?,
        })
    }

    /// Whether a value is on the inner side of both ends.
    pub fn holds(&self, v: &V) -> bool
        ensures { result ≡ holds V.order self.now v.now }
    {
        !(self.below(v) || self.above(v))
    }

    /// Whether a value is above the upper end.
    pub fn above(&self, v: &V) -> bool
        ensures { result ≡ is_above V.order self.now v.now }
    {
        self.upper.has_after(v)
    }

    /// Whether a value is below the lower end.
    pub fn below(&self, v: &V) -> bool
        ensures { result ≡ is_below V.order self.now v.now }
    {
        self.lower.has_before(v)
    }

    /// Whether the ends cross, or are equal and not both included. An interval that is not empty
    /// by its ends may still hold no value, as one between two neighbours.
    pub fn is_empty(&self) -> bool
        ensures { result ≡ is_empty V.order self.now }
    {
        self.lower.leaves_nothing_to(&self.upper)
    }

    /// The interval from the greater lower to the lesser upper end. It is `None` exactly where
    /// that is empty.
    pub fn meet(&self, alloc: Global, other: &Interval<V>) -> Result<Option<Interval<V>>, NoMemory>
        ensures value { IfOk result (λ met. met ≡ meet_of V.order self.now other.now) }
        ensures both { IfOk result (λ met. (v : V)
            → met_holds V.order met v ≡ (holds V.order self.now v && holds V.order other.now v)) }
    {
        let lower = greater_lower(&self.lower, &other.lower);
        let upper = lesser_upper(&self.upper, &other.upper);
        if lower.leaves_nothing_to(upper) {
            return Ok(None);
        }
        Ok(Some(Interval {
            lower: lower.copy(alloc)?,
            upper: upper.copy(alloc)?,
        }))
    }

    /// The order by lower end and then by upper end.
    pub fn cmp_ends(&self, other: &Interval<V>) -> Ordering
        ensures { result ≡ ends_cmp V.order self.now other.now }
    {
        self.lower
            .cmp_lower(&other.lower)
            .then(self.upper.cmp_upper(&other.upper))
    }
}

#[cfg(test)]
mod tests {
    use super::*;
    use std::test::Fail;

    #[derive(Debug, Drop)]
    struct Level(u8);

    impl Ranked for Level {
        ghost use Rattle.std.specs.Ordering.{nat_cmp, on};
        ghost use Rattle.std.specs.Cmp.{on_total, nat_cmp_total};

        ghost order = { on (λ level. level.0) nat_cmp };

        fn cmp_rank(&self, other: &Level) -> Ordering {
            self.0.cmp(&other.0)
        }

        fn copy(&self, _: Global) -> Result<Level, NoMemory> {
            Ok(Level(self.0))
        }

        ghost total = { on_total (λ level. level.0) nat_cmp_total };
    }

    fn from(lower: u8, upper: End<Level>) -> Interval<Level> {
        Interval {
            lower: End::With(Level(lower)),
            upper,
        }
    }

    #[test]
    fn meets(rt: HostRuntime) -> Result<(), Fail> {
        let below_three = from(1, End::Without(Level(3)));
        let met = below_three.meet(rt.alloc(), &from(2, End::Free))?;
        let met = met.ok_or("apart")?;
        assert!(rt; met.holds(&Level(2)));
        assert!(rt; met.above(&Level(3)));
        assert!(rt; met.below(&Level(1)));
        assert_eq!(rt; met.cmp_ends(&below_three), Ordering::Greater);
        let apart = below_three.meet(rt.alloc(), &from(3, End::Free))?;
        assert!(rt; apart.is_none());
        Ok(())
    }
}
