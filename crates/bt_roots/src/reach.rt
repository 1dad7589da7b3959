//! The walk over the links: what is reachable from some objects.
ghost use Rattle.std.specs.Prelude.{◌≡◌, ◌≤◌, ◌↔◌, true, Any, IsTrue, OnOk, IfOk, Contains, length};
ghost use Rattle.std.specs.BTreeSet.{contains};
ghost use Rattle.std.specs.List.{list_any};
ghost use Rattle.bt_roots.specs.TargetOrder.{target_cmp};
ghost use Rattle.bt_roots.specs.Reachable.{IsReachable, IsSource, IsAscending};
ghost use Rattle.bt_roots.specs.Walk.{Grows, IsByFrom, IsClosedBut, IsStarted, SplitsBelow, SplitsUpto, has};

use crate::Target;
use host_words::NoMemory;
use std::alloc::Global;
use std::collections::BTreeSet;

/// From and to.
pub(crate) type Link = (Target, Target);

// What was reached, and those of it whose links are still to be walked.
#[derive(Drop)]
struct Reached {
    seen: BTreeSet<Target>,
    todo: Vec<Target>,
}

impl Reached {
    fn add(&mut self, target: Target) -> Result<(), NoMemory>
        ensures grows { OnOk result (Grows self.old self.new (λ x. x ≡ target)) }
        ensures added { OnOk result (has self.new target ≡ true) }
    {
        if self.seen.insert(target)? {
            self.todo.push(target)?;
        }
        Ok(())
    }
}

// How many links lead from an object below this one.
fn count_below(links: &[Link], from: Target) -> usize
    requires { IsByFrom links.now }
    ensures within { result ≤ length links.now }
    ensures split { SplitsBelow links.now from result }
{
    links.partition_point(|link| link.0 < from)
}

// How many links lead from an object up to this one.
fn count_upto(links: &[Link], from: Target) -> usize
    requires { IsByFrom links.now }
    ensures within { result ≤ length links.now }
    ensures split { SplitsUpto links.now from result }
{
    links.partition_point(|link| link.0 <= from)
}

// The links that lead from the object.
fn links_from(links: &[Link], from: Target) -> &[Link]
    requires { IsByFrom links.now }
    ensures { (link : Target × Target) →
        Contains result.now link ↔ (Contains links.now link × (link.0 ≡ from)) }
{
    let start = count_below(links, from);
    let end = count_upto(links, from);
    &links[start..end]
}

// Reaches what the links from the object lead to.
fn follow(reached: &mut Reached, links: &[Link], from: Target) -> Result<(), NoMemory>
    requires { IsByFrom links.now }
    ensures grows { OnOk result (Grows reached.old reached.new (λ x. Contains links.now (from, x))) }
    ensures added { OnOk result ((x : Target) → Contains links.now (from, x) → has reached.new x ≡ true) }
{
    for link in links_from(links, from) {
        reached.add(link.1)?;
    }
    Ok(())
}

// Reaches the starts, from which nothing is walked yet.
fn start(alloc: Global, starts: &[Target]) -> Result<Reached, NoMemory>
    ensures { IfOk result (IsStarted starts.now) }
{
    let mut reached = Reached {
        seen: BTreeSet::new(alloc),
        todo: Vec::new(alloc),
    };
    for target in starts {
        reached.add(*target)?;
    }
    Ok(reached)
}

// Walks until nothing is left to walk from.
fn walk(reached: &mut Reached, links: &[Link]) -> Result<(), NoMemory>
    requires sorted { IsByFrom links.now }
    requires started { IsClosedBut reached.old links.now }
    ensures kept { OnOk result ((x : Target) → has reached.old x ≡ true → has reached.new x ≡ true) }
    ensures only { OnOk result ((x : Target) →
        has reached.new x ≡ true → IsReachable (λ y. has reached.old y ≡ true) links.now x) }
    ensures closed { OnOk result ((x y : Target) →
        has reached.new x ≡ true → Contains links.now (x, y) → has reached.new y ≡ true) }
{
    'walking: while let Some(from) = reached.todo.pop() {
        follow(reached, links, from)?;
    }
    Ok(())
}

// What was reached, in ascending order.
fn ascending(alloc: Global, reached: &Reached) -> Result<Vec<Target>, NoMemory>
    ensures items { IfOk result (λ live. live.items ≡ reached.now.seen.keys) }
    ensures ascending { IfOk result (λ live. IsAscending live.items) }
{
    reached.seen.iter().copied().collect(alloc)
}

// Whether the link leads to the target.
fn leads(link: &Link, target: Target) -> bool
    ensures { IsTrue result ↔ (link.now.1 ≡ target) }
{
    link.1 == target
}

// The target, and the objects from which a link leads to it.
fn sources(alloc: Global, links: &[Link], target: Target) -> Result<BTreeSet<Target>, NoMemory>
    ensures { IfOk result (λ sources. (x : Target) →
        (contains target_cmp sources x ≡ true) ↔ IsSource links.now target x) }
{
    let mut sources = BTreeSet::new(alloc);
    sources.insert(target)?;
    for link in links {
        if leads(link, target) {
            sources.insert(link.0)?;
        }
    }
    Ok(sources)
}

/// Whether one of the starts is the target, or a link leads from one of them to it.
pub(crate) fn lead_to(
    alloc: Global,
    starts: &[Target],
    links: &[Link],
    target: Target,
) -> Result<bool, NoMemory>
    ensures { IfOk result (λ lead. IsTrue lead ↔ Any (IsSource links.now target) starts.now) }
{
    let sources = sources(alloc, links, target)?;
    Ok(is_one_among(starts, &sources))
}

// Whether one of the starts is among the sources.
fn is_one_among(starts: &[Target], sources: &BTreeSet<Target>) -> bool
    ensures { result ≡ list_any (contains target_cmp sources.now) starts.now }
{
    starts.iter().any(|start| sources.contains(start))
}

/// What is reachable over the links from the starts, in ascending order. Each link is walked once.
pub(crate) fn reachable_from(
    alloc: Global,
    starts: &[Target],
    links: &[Link],
) -> Result<Vec<Target>, NoMemory>
    ensures reachable { IfOk result (λ live. (x : Target) →
        Contains live.items x ↔ IsReachable (Contains starts.now) links.now x) }
    ensures ascending { IfOk result (λ live. IsAscending live.items) }
{
    let mut sorted = Vec::from_slice(alloc, links)?;
    sorted.sort_unstable();
    let mut reached = start(alloc, starts)?;
    walk(&mut reached, &sorted)?;
    ascending(alloc, &reached)
}
