//! Pairs of services in the order of their names.

ghost use Rattle.std.specs.Prelude.{◌≡◌, ℕ, IfOk, map, unwrap_or};
ghost use Rattle.std.specs.Ordering.{nat_cmp};
ghost use Rattle.std.specs.BTreeMap.{get};
ghost use Rattle.call_links.specs.NumberedCalls.{text_in};
ghost use Rattle.call_links.specs.LinkTallies.{tally_seen, tallies_seen};
ghost use Rattle.call_links.specs.ServiceRanks.{service_entry, name_entry, rank_of, link_of};
ghost use Rattle.call_links.specs.ServiceRanks.{services_met, named, numbers_by_name, ranked};

use crate::numbered_span::NumberedSpan;
use crate::tally::LinkTally;
use jaeger_model::Text;
use std::alloc::{AllocError, Global};
use std::collections::BTreeMap;
use trace_model::Link;

/// Returns the name of the service of a span.
#[tactic(auto, using(crate::proofs::ServiceTables::name_kept))]
fn name_of<'a>(span: &NumberedSpan<'a>) -> &'a Text
    ensures { result.now ≡ text_in span.now.span }
{
    &span.reported().process.service
}

/// Returns a span of each service of the tallies, by the number of the service.
fn services_met<'a>(
    alloc: Global,
    tallies: &BTreeMap<(u32, u32), LinkTally<'a>>,
) -> Result<BTreeMap<u32, NumberedSpan<'a>>, AllocError>
    ensures { IfOk result (λ m.
        map service_entry m.entries ≡ services_met (tallies_seen tallies.now.entries)) }
{
    let mut services = BTreeMap::new(alloc);
    for (numbers, tally) in tallies {
        services.insert(numbers.0, tally.caller.duplicate())?;
        services.insert(numbers.1, tally.callee.duplicate())?;
    }
    Ok(services)
}

/// Returns the numbers of the services by their names. No other function compares names.
fn by_name<'a>(
    alloc: Global,
    services: BTreeMap<u32, NumberedSpan<'a>>,
) -> Result<BTreeMap<&'a Text, u32>, AllocError>
    ensures { IfOk result (λ m.
        map name_entry m.entries ≡ named (map service_entry services.entry.entries)) }
{
    let mut names = BTreeMap::new(alloc);
    for (number, span) in services {
        names.insert(name_of(&span), number)?;
    }
    Ok(names)
}

/// Returns the numbers of the services in order of their names.
fn numbers_by_name(
    alloc: Global,
    tallies: &BTreeMap<(u32, u32), LinkTally<'_>>,
) -> Result<Vec<u32>, AllocError>
    ensures { IfOk result (λ v. v.items ≡ numbers_by_name (tallies_seen tallies.now.entries)) }
{
    let services = services_met(alloc, tallies)?;
    let names = by_name(alloc, services)?;
    let mut numbers = Vec::new(alloc);
    for (_, number) in names {
        numbers.push(number)?;
    }
    Ok(numbers)
}

/// Returns the place of each number in the list.
fn ranks(alloc: Global, numbers: &[u32]) -> Result<BTreeMap<u32, usize>, AllocError>
    ensures { IfOk result (λ m. (n : ℕ) → get nat_cmp m n ≡ rank_of numbers.now n) }
{
    let mut ranks = BTreeMap::new(alloc);
    for (rank, number) in numbers.iter().enumerate() {
        // Impossible: a number that is there already, since none is twice in the list. The contract doesn't ask for that.
        if !ranks.contains_key(number) {
            ranks.insert(*number, rank)?;
        }
    }
    Ok(ranks)
}

/// Returns the rank of a number.
fn rank(ranks: &BTreeMap<u32, usize>, number: u32) -> Result<usize, AllocError>
    ensures { IfOk result (λ rank. rank ≡ unwrap_or (get nat_cmp ranks.now number) 0) }
{
    match ranks.get(&number) {
        Some(rank) => Ok(*rank),
        // Impossible: each service of a tally has a name, and so a rank.
        None => Err(AllocError),
    }
}

/// Sorts the tallies by the ranks of their services.
fn by_ranks<'a>(
    alloc: Global,
    tallies: BTreeMap<(u32, u32), LinkTally<'a>>,
    ranks: &BTreeMap<u32, usize>,
) -> Result<BTreeMap<(usize, usize), LinkTally<'a>>, AllocError>
    ensures { IfOk result (λ m. map tally_seen m.entries ≡
        ranked (λ n. unwrap_or (get nat_cmp ranks.now n) 0) (tallies_seen tallies.entry.entries)) }
{
    let mut ranked = BTreeMap::new(alloc);
    for (numbers, tally) in tallies {
        let caller = rank(ranks, numbers.0)?;
        let callee = rank(ranks, numbers.1)?;
        ranked.insert((caller, callee), tally)?;
    }
    Ok(ranked)
}

/// Sorts the tallies by the names of their services. Each name is compared with the others once; pairs are sorted
/// by numbers.
pub(crate) fn in_order<'a>(
    alloc: Global,
    tallies: BTreeMap<(u32, u32), LinkTally<'a>>,
) -> Result<BTreeMap<(usize, usize), LinkTally<'a>>, AllocError>
    ensures { IfOk result (λ m. map tally_seen m.entries ≡
        ranked (λ n. unwrap_or (rank_of (numbers_by_name (tallies_seen tallies.entry.entries)) n) 0)
        (tallies_seen tallies.entry.entries)) }
{
    let numbers = numbers_by_name(alloc, &tallies)?;
    let ranks = ranks(alloc, &numbers)?;
    by_ranks(alloc, tallies, &ranks)
}

/// Makes a link of each tally, in their order. The links share the names.
pub(crate) fn linked(
    alloc: Global,
    ordered: BTreeMap<(usize, usize), LinkTally<'_>>,
) -> Result<Vec<Link>, AllocError>
    ensures { IfOk result (λ v.
        v.items ≡ map (λ e. link_of e.1) (map tally_seen ordered.entry.entries)) }
{
    let mut links = Vec::with_capacity(alloc, ordered.len())?;
    for (_, tally) in ordered {
        links.push(Link {
            parent: tally.caller.service()?,
            child: tally.callee.service()?,
            calls: tally.calls,
        })?;
    }
    Ok(links)
}
