// Big maps whose entries are all put into the store.
ghost use Rattle.std.specs.Prelude.{◌≡◌, true, false, Some, IfOk};
ghost use Rattle.std.specs.Map.{keys_of};
ghost use Rattle.rules_data.specs.big_maps.Changes.{changed};
ghost use Rattle.mich_base.specs.undo.History.{Keeps};
ghost use Rattle.mich_term.specs.Holding.{any_entry_carries};
ghost use Rattle.mich_term.specs.Keyed.{IsIncreasing};
ghost use Rattle.mich_term.specs.ValueView.{big_pairs};
ghost use Rattle.mich_term.specs.declared.value.BigMap.{out-BigMap};
ghost use Rattle.mich_bigmap.specs.Bases.{big_in, entries_in, seen};
ghost use Rattle.mich_bigmap.specs.Extended.{Extends};
ghost use Rattle.mich_bigmap.specs.Formed.{IsFormed, HasBase, is_there};
ghost use Rattle.mich_bigmap.specs.Settled.{IsSettled};
ghost use Rattle.mich_bigmap.specs.Ticketless.{HoldNoTickets, PutNoTickets};

use crate::layers::Changes;
use crate::merging::merged;
use crate::store::Store;
use mich_base::Memory;
use mich_term::{BigMap, Table, puts_ticket};
use std::alloc::Global;

// Puts changes into the store as a base over another, merged with those that it would be over and that don't hold at least four times as many.
#[tactic(auto, using(mich_base::proofs::undo_lemmas::ForCallers::keeps_same, crate::proofs::Extending::extends_same))]
fn lay(alloc: Global, store: &mut Store, over: Option<u64>, changes: Changes) -> Result<u64, Memory>
    requires { IsIncreasing (keys_of changes) }
    ensures same { IfOk result (λ k. entries_in store.new.bases.present (Some k) ≡ changed (seen changes) (entries_in store.old.bases.present over)) }
    ensures there { IfOk result (λ k. is_there store.new.bases.present (Some k) ≡ true) }
    ensures others { Extends store.old.bases.present store.new.bases.present }
    ensures keeps { Keeps store.old.bases store.new.bases }
    ensures ticketless { HoldNoTickets store.old.bases.present → PutNoTickets changes → HoldNoTickets store.new.bases.present }
    ensures noted { store.new.noted ≡ store.old.noted }
{
    let (under, all) = merged(alloc, store.layers(), over, changes)?;
    store.extend(under, all)
}

/// A big map of the same entries, all kept in the store: it has a base and an empty overlay. One that puts a ticket stays as it is,
/// since the values of a base are copied. After Memory the store is given up with its world (Octez "big_map").
#[tactic(auto, using(mich_base::proofs::undo_lemmas::ForCallers::keeps_same, crate::proofs::Extending::extends_same, crate::proofs::Settled::bare_is, crate::proofs::Settled::none_there))]
pub fn settle(alloc: Global, store: &mut Store, m: BigMap) -> Result<BigMap, Memory>
    requires { IsFormed m }
    ensures same { IfOk result (λ n. big_in store.new.bases.present n ≡ big_in store.old.bases.present m) }
    ensures settled { any_entry_carries (big_pairs m) ≡ false → IfOk result (λ n. IsSettled n) }
    ensures stays { any_entry_carries (big_pairs m) ≡ true → IfOk result (λ n. n ≡ m) }
    ensures formed { IfOk result (λ n. IsFormed n) }
    ensures there { HasBase store.old.bases.present m → IfOk result (λ n. HasBase store.new.bases.present n) }
    ensures others { Extends store.old.bases.present store.new.bases.present }
    ensures keeps { Keeps store.old.bases store.new.bases }
    ensures ticketless { HoldNoTickets store.old.bases.present → HoldNoTickets store.new.bases.present }
    ensures noted { store.new.noted ≡ store.old.noted }
{
    if m.overlay.len() == 0 && m.base.is_some() {
        return Ok(m);
    }
    if puts_ticket(&m) {
        return Ok(m);
    }
    settle_anew(alloc, store, m)
}

// The same of a big map that puts no ticket: its overlay is put into the store.
fn settle_anew(alloc: Global, store: &mut Store, m: BigMap) -> Result<BigMap, Memory>
    requires formed { IsFormed m }
    requires bare { PutNoTickets (out-BigMap m).overlay }
    ensures same { IfOk result (λ n. big_in store.new.bases.present n ≡ big_in store.old.bases.present m) }
    ensures settled { IfOk result (λ n. IsSettled n) }
    ensures formed { IfOk result (λ n. IsFormed n) }
    ensures there { IfOk result (λ n. HasBase store.new.bases.present n) }
    ensures others { Extends store.old.bases.present store.new.bases.present }
    ensures keeps { Keeps store.old.bases store.new.bases }
    ensures ticketless { HoldNoTickets store.old.bases.present → HoldNoTickets store.new.bases.present }
    ensures noted { store.new.noted ≡ store.old.noted }
{
    let number = lay(alloc, store, m.base, m.overlay)?;
    Ok(BigMap {
        base: Some(number),
        overlay: Table::new(alloc),
    })
}
