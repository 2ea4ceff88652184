// Big maps whose entries are all taken out of the store.
ghost use Rattle.std.specs.Prelude.{◌≡◌, None, IfOk};
ghost use Rattle.mich_term.specs.declared.value.BigMap.{out-BigMap};
ghost use Rattle.mich_bigmap.specs.Bases.{big_in};
ghost use Rattle.mich_bigmap.specs.Formed.{IsFormed};

use crate::flattening::{apply, collect, copy_changes, puts_of};
use crate::store::Store;
use mich_base::Memory;
use mich_term::BigMap;
use std::alloc::Global;

/// A big map of the same entries that keeps them all in itself. Memory where there is no room for it.
pub fn unshared(alloc: Global, store: &Store, m: &BigMap) -> Result<BigMap, Memory>
    ensures same { IfOk result (λ n. big_in store.now.bases.present n ≡ big_in store.now.bases.present m.now) }
    ensures formed { IfOk result (λ n. IsFormed n) }
    ensures base { IfOk result (λ n. (out-BigMap n).base ≡ None) }
{
    let mut entries = collect(alloc, store.layers(), m.base)?;
    let changes = copy_changes(alloc, &m.overlay)?;
    apply(&mut entries, changes)?;
    let overlay = puts_of(alloc, entries)?;
    Ok(BigMap {
        base: None,
        overlay,
    })
}
