// Changes that are merged with those of the bases below them.
ghost use Rattle.std.specs.Prelude.{◌≡◌, true, IfOk};
ghost use Rattle.std.specs.Map.{keys_of};
ghost use Rattle.rules_data.specs.values.Val.{no_pair};
ghost use Rattle.rules_data.specs.big_maps.Changes.{changed};
ghost use Rattle.mich_term.specs.Keyed.{IsIncreasing};
ghost use Rattle.mich_term.specs.ValueView.{put_pairs};
ghost use Rattle.mich_bigmap.specs.Bases.{seen};
ghost use Rattle.mich_bigmap.specs.Formed.{is_there};
ghost use Rattle.mich_bigmap.specs.Merged.{AreMerged, Bare, all_with, entries_over};
ghost use Rattle.mich_bigmap.specs.Puts.{only_put};
ghost use Rattle.mich_bigmap.specs.Stacked.{AreLayers, bases_of};
ghost use Rattle.mich_bigmap.specs.Ticketless.{HoldNoTickets};

use crate::flattening::{apply, copy_changes, puts_of};
use crate::layers::{Changes, Layer, below};
use mich_base::Memory;
use mich_term::Table;
use std::alloc::Global;

// Changes written over the lower ones. Memory where there is no room for them.
#[tactic(auto, using(crate::proofs::Weaving::all_with_last))]
fn woven(alloc: Global, lower: &Changes, changes: Changes) -> Result<Changes, Memory>
    requires lower { IsIncreasing (keys_of lower.now) }
    requires upper { IsIncreasing (keys_of changes) }
    ensures { IfOk result (λ cs. cs ≡ all_with changes lower.now) }
{
    let mut all = copy_changes(alloc, lower)?;
    let mut left = changes.into_entries();
    'write: while let Some((key, change)) = left.next_back() {
        all.insert(key, change)?;
    }
    Ok(all)
}

// What changes make of those below them. Memory where there is no room for it.
fn overwritten(alloc: Global, lower: &Changes, changes: Changes) -> Result<Changes, Memory>
    requires lower { IsIncreasing (keys_of lower.now) }
    requires upper { IsIncreasing (keys_of changes) }
    ensures merged { IfOk result (λ cs. AreMerged lower.now changes cs) }
    ensures increasing { IfOk result (λ cs. IsIncreasing (keys_of cs)) }
    ensures ticketless { IfOk result (λ cs. Bare lower.now → Bare changes → Bare cs) }
{
    woven(alloc, lower, changes)
}

// Whether something is put at each key.
#[tactic(auto, using(crate::proofs::Putting::and_next))]
fn only_put(changes: &Changes) -> bool
    ensures only { result ≡ only_put changes.now }
    ensures increasing { IsIncreasing (keys_of changes.now) }
{
    let mut all = true;
    for (key, change) in changes.iter() {
        let _key = key;
        let there = change.is_some();
        all = all && there;
    }
    all
}

// Changes over nothing as changes that only put. Memory where there is no room for them.
pub(crate) fn alone(alloc: Global, changes: Changes) -> Result<Changes, Memory>
    ensures entries { IfOk result (λ cs. changed (seen cs) no_pair ≡ changed (seen changes) no_pair) }
    ensures increasing { IfOk result (λ cs. IsIncreasing (keys_of cs)) }
    ensures puts { IfOk result (λ cs. put_pairs cs ≡ changed (seen changes) no_pair) }
{
    if only_put(&changes) {
        return Ok(changes);
    }
    let mut entries = Table::new(alloc);
    apply(&mut entries, changes)?;
    puts_of(alloc, entries)
}

// Changes over a base, merged with its own where it doesn't hold at least four times as many, and so on downwards; and the base
// that they are over then. Memory where there is no room for them.
pub(crate) fn merged(
    alloc: Global,
    layers: &[Layer],
    base: Option<u64>,
    changes: Changes,
) -> Result<(Option<u64>, Changes), Memory>
    requires layers { AreLayers layers.now }
    requires increasing { IsIncreasing (keys_of changes) }
    ensures same { IfOk result (λ r. entries_over (bases_of layers.now) r ≡ entries_over (bases_of layers.now) (base, changes)) }
    ensures there { IfOk result (λ r. is_there (bases_of layers.now) r.0 ≡ true) }
    ensures increasing { IfOk result (λ r. IsIncreasing (keys_of r.1)) }
    ensures ticketless { HoldNoTickets (bases_of layers.now) → Bare changes → IfOk result (λ r. Bare r.1) }
{
    let Some(number) = base else {
        return Ok((None, alone(alloc, changes)?));
    };
    let Some((layer, rest)) = below(layers, number) else {
        return Ok((None, alone(alloc, changes)?));
    };
    if layer.changes.len() / 4 >= changes.len() {
        return Ok((base, changes));
    }
    let all = overwritten(alloc, &layer.changes, changes)?;
    merged(alloc, rest, layer.over, all)
}
