//! Numbers for the hosts of the spans of a trace, so that no clock has a host's text.

ghost use Rattle.std.specs.Prelude.{◌≡◌, ℕ, List, IfOk, OnOk, cond, Some, unwrap_or};
ghost use Rattle.std.specs.BTreeMap.{get};
ghost use Rattle.std.specs.Option.{option_or};
ghost use Rattle.jaeger_model.specs.Texts.{same_text, text_cmp};
ghost use Rattle.trace_model.specs.SharedProcesses.{ShareProcesses};
ghost use Rattle.trace_adjust.specs.Hosts.{AreHostNumbers, hosts_of};

use crate::clock::NO_HOST;
use crate::lent_placed::LentPlaced;
use jaeger_model::Text;
use std::alloc::{AllocError, Global};
use std::collections::BTreeMap;
use trace_model::{place_by_key, place_u32, store_by_key};

/// Returns the number of a host, which gets the fresh one if it has none.
fn number_of(numbers: &mut BTreeMap<Text, u32>, host: Text, fresh: u32) -> Result<u32, AllocError>
    ensures number { IfOk result (λ n. n ≡ unwrap_or (get text_cmp numbers.old host) fresh) }
    ensures numbers { OnOk result ((t : List ℕ) → get text_cmp numbers.new t ≡
        option_or (get text_cmp numbers.old t) (cond (same_text t host) (Some fresh) None)) }
{
    if let Some(number) = numbers.get(&host) {
        return Ok(*number);
    }
    numbers.insert(host, fresh)?;
    Ok(fresh)
}

/// Returns the number of the host of each span: one more than the index of the first span that has it, or
/// [`NO_HOST`] if it is empty. A host's text is read once for the spans with one key, which have one process, and
/// else for each span.
pub(crate) fn host_numbers(
    alloc: Global,
    trace: &[LentPlaced],
    process_keys: &[u64],
) -> Result<Vec<u32>, AllocError>
    requires { ShareProcesses trace.now process_keys.now }
    ensures { IfOk result (λ v.
        AreHostNumbers (hosts_of trace.now) trace.now v.items) }
{
    let mut numbers = BTreeMap::new(alloc);
    numbers.insert(Text::new(alloc), NO_HOST)?;
    let mut kept = BTreeMap::new(alloc);
    let mut hosts = Vec::with_capacity(alloc, trace.len())?;
    for (index, placed) in trace.iter().enumerate() {
        let key = process_keys.get(index).copied();
        let number = match place_by_key(&kept, key) {
            Some(number) => number,
            None => {
                let fresh = place_u32(index + 1)?;
                let number = number_of(&mut numbers, placed.host(alloc)?, fresh)?;
                store_by_key(&mut kept, key, number)?;
                number
            }
        };
        hosts.push(number)?;
    }
    Ok(hosts)
}
