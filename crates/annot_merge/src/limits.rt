// The limit that the bounds of all instances set.
ghost use Rattle.std.specs.Prelude.{◌≡◌, ◌≢◌, ◌≤◌, ◌<◌, ◌^◌, ◌∷◌, ◌++◌, [], ℕ, List, MatchBool};
ghost use Rattle.std.specs.Prelude.{Option, Some, length, slice_get, slice_set};
ghost use Rattle.annot_merge.specs.Bounds.{AllowsAt};
ghost use Rattle.annot_merge.specs.Limits.{IsBefore, IsBelow, IsLimit, IsNearer, IsNext, IsNone};
ghost use Rattle.annot_merge.specs.Limits.{IsOneOf, Leads};

use crate::limit::{Lead, Limit};

/// Whether a note that starts here isn't behind the limit.
#[inline(always)]
pub fn allows(limit: &Limit, place: &Limit) -> bool
    ensures { MatchBool result
        (AllowsAt (Some limit.now.start) limit.now.instance place.now.start place.now.instance)
        (¬ AllowsAt (Some limit.now.start) limit.now.instance place.now.start place.now.instance) }
{
    if place.start == limit.start {
        return place.instance <= limit.instance;
    }
    place.start < limit.start
}

/// Whether a floor of an instance stands before the limit.
#[inline(always)]
pub fn is_lower(floor: u64, instance: u32, limit: &Limit) -> bool
    ensures { MatchBool result (IsBefore floor instance limit.now)
        ((limit.now.start ≤ floor) × (floor ≡ limit.now.start → limit.now.instance ≤ instance)) }
{
    if floor == limit.start {
        return instance < limit.instance;
    }
    floor < limit.start
}

// The nearer of a limit and the bound of one more instance.
fn nearer(limit: Limit, instance: u32, bound: Option<u64>) -> Limit
    ensures next { IsNearer limit instance bound result }
    ensures here { IsBelow result bound instance }
    ensures still { (other : ℕ) (one : Option ℕ) → IsBelow limit one other
        → IsBelow result one other }
    ensures one { IsOneOf result limit instance bound }
    ensures sets { (before now : List (Option ℕ)) → now ≡ slice_set before instance bound
        → instance < length now → instance ≢ limit.instance
        → IsLimit before limit → IsLimit now result }
{
    match bound {
        Some(floor) => {
            if is_lower(floor, instance, &limit) {
                return Limit {
                    start: floor,
                    instance,
                };
            }
            limit
        }
        None => limit,
    }
}

/// The least of the bounds, or a place behind all where there is none.
#[inline(never)]
pub fn limit_of(bounds: &[Option<u64>]) -> Limit
    requires { length bounds.now < 2 ^ 32 }
    ensures { IsLimit bounds.now result }
{
    let mut limit = Limit {
        start: u64::MAX,
        instance: u32::MAX,
    };
    for (place, bound) in bounds.iter().enumerate() {
        limit = nearer(limit, place as u32, *bound);
    }
    limit
}

// The nearer of a limit and the bound of one more instance, unless it is that of one.
fn nearer_but(limit: Limit, instance: u32, bound: Option<u64>, but: u32) -> Limit
    ensures { (bounds : List (Option ℕ)) → length bounds ≡ instance → IsNext bounds but limit
        → IsNext (bounds ++ bound ∷ []) but result }
{
    if instance == but {
        return limit;
    }
    nearer(limit, instance, bound)
}

// The least of the bounds, but for that of one instance.
fn limit_but(bounds: &[Option<u64>], but: u32) -> Limit
    requires { length bounds.now < 2 ^ 32 }
    ensures { IsNext bounds.now but result }
{
    let mut limit = Limit {
        start: u64::MAX,
        instance: u32::MAX,
    };
    for (place, bound) in bounds.iter().enumerate() {
        limit = nearer_but(limit, place as u32, *bound, but);
    }
    limit
}

/// The first of so many, and how far it is the first.
pub fn lead_of(bounds: &[Option<u64>]) -> Lead
    requires { length bounds.now < 2 ^ 32 }
    ensures { Leads bounds.now result }
{
    let least = limit_of(bounds);
    Lead {
        least,
        others: limit_but(bounds, least.instance),
    }
}

// Whether a limit is behind all places.
fn is_none(limit: &Limit) -> bool
    ensures { MatchBool result (IsNone limit.now) (Unit {0}) }
{
    limit.start == u64::MAX && limit.instance == u32::MAX
}

// The least of the bounds, but for that of the first. Often the next instance has the same bound.
#[inline(always)]
fn next_of(first: Limit, bounds: &[Option<u64>]) -> Limit
    requires { length bounds.now < 2 ^ 32 }
    ensures { IsLimit bounds.now first → IsNext bounds.now first.instance result }
{
    let next = first.instance as usize + 1;
    if next < bounds.len() {
        if is_at(bounds[next], first.start) {
            return Limit {
                start: first.start,
                instance: next as u32,
            };
        }
    }
    limit_but(bounds, first.instance)
}

// The same after a change of the bound of the first, which isn't before the others any more.
#[inline(always)]
fn lead_gone(lead: Lead, bounds: &[Option<u64>]) -> Lead
    requires few { length bounds.now < 2 ^ 32 }
    requires past { (bound : Option ℕ) → slice_get bounds.now lead.least.instance ≡ Some bound
        → IsBelow lead.others bound lead.least.instance }
    ensures { (before : List (Option ℕ)) (bound : Option ℕ)
        → bounds.now ≡ slice_set before lead.least.instance bound
        → Leads before lead → Leads bounds.now result }
{
    if is_none(&lead.others) {
        return Lead {
            least: lead.others,
            others: lead.others,
        };
    }
    Lead {
        least: lead.others,
        others: next_of(lead.others, bounds),
    }
}

/// The first and the next after a change of the bound of the first.
#[inline(always)]
pub fn lead_past(lead: Lead, bounds: &[Option<u64>]) -> Lead
    requires within { lead.least.instance < length bounds.now }
    requires few { length bounds.now < 2 ^ 32 }
    ensures { (before : List (Option ℕ)) (bound : Option ℕ)
        → bounds.now ≡ slice_set before lead.least.instance bound
        → Leads before lead → Leads bounds.now result }
{
    match bounds[lead.least.instance as usize] {
        Some(start) => {
            if is_lower(start, lead.least.instance, &lead.others) {
                return Lead {
                    least: Limit {
                        start,
                        instance: lead.least.instance,
                    },
                    others: lead.others,
                };
            }
            lead_gone(lead, bounds)
        }
        None => lead_gone(lead, bounds),
    }
}

/// The first and the next after a change of one bound.
pub fn lead_behind(lead: Lead, bounds: &[Option<u64>], instance: u32, bound: Option<u64>) -> Lead
    requires within { instance < length bounds.now }
    requires few { length bounds.now < 2 ^ 32 }
    ensures { (before : List (Option ℕ)) → bounds.now ≡ slice_set before instance bound
        → Leads before lead → Leads bounds.now result }
{
    if instance == lead.least.instance {
        return lead_past(lead, bounds);
    }
    let least = nearer(lead.least, instance, bound);
    if least.instance == instance {
        return Lead {
            least,
            others: lead.least,
        };
    }
    if instance == lead.others.instance {
        return Lead {
            least,
            others: limit_but(bounds, least.instance),
        };
    }
    Lead {
        least,
        others: nearer(lead.others, instance, bound),
    }
}

// Whether a bound is behind a start, or there is none.
#[inline(always)]
fn is_behind(bound: Option<u64>, start: u64) -> bool
    ensures { MatchBool result ((floor : ℕ) → bound ≡ Some floor → start < floor) (Unit {0}) }
{
    match bound {
        Some(floor) => start < floor,
        None => true,
    }
}

// Whether a bound is this one.
#[inline(always)]
fn is_at(bound: Option<u64>, start: u64) -> bool
    ensures { MatchBool result (bound ≡ Some start) (Unit {0}) }
{
    match bound {
        Some(floor) => floor == start,
        None => false,
    }
}

/// The limit behind a change of the bound that set it. Mostly the next instance has the same bound.
#[inline(always)]
pub fn limit_past(limit: Limit, bounds: &[Option<u64>]) -> Limit
    requires { length bounds.now < 2 ^ 32 }
    ensures { (before : List (Option ℕ)) (bound : Option ℕ)
        → bounds.now ≡ slice_set before limit.instance bound
        → IsLimit before limit → IsLimit bounds.now result }
{
    let mut at = limit.instance as usize;
    while at < bounds.len() {
        if is_at(bounds[at], limit.start) {
            return Limit {
                start: limit.start,
                instance: at as u32,
            };
        }
        if !is_behind(bounds[at], limit.start) {
            return limit_of(bounds);
        }
        at += 1;
    }
    limit_of(bounds)
}

/// The limit behind a change of one bound.
#[inline(always)]
pub fn limit_behind(
    limit: Limit,
    bounds: &[Option<u64>],
    instance: u32,
    bound: Option<u64>,
) -> Limit
    requires within { instance < length bounds.now }
    requires few { length bounds.now < 2 ^ 32 }
    ensures { (before : List (Option ℕ)) → bounds.now ≡ slice_set before instance bound
        → IsLimit before limit → IsLimit bounds.now result }
{
    if instance == limit.instance {
        return limit_past(limit, bounds);
    }
    nearer(limit, instance, bound)
}
