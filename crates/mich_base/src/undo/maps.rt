// Maps whose writes can be taken back, and the journal that keeps what they replaced.
ghost use Rattle.std.specs.Prelude.{◌≡◌, ◌<◌, [], ◌∷◌, ◌++◌, IfOk, OnErr, vec_len, vec_capacity};
ghost use Rattle.std.specs.BTreeMap.{insert_entry, IsOrdered, get};
ghost use Rattle.mich_base.specs.undo.Undone.{undone};

use crate::Memory;
use std::collections::BTreeMap;

/// Writes a value at a key, and gives what stood there. Memory where there is no room for it; the map is then unchanged.
pub fn put<K: Ord + Copy + Drop, V: Drop>(
    map: &mut BTreeMap<K, V>,
    key: K,
    value: V,
) -> Result<Option<V>, Memory>
    ensures old { IfOk result (λ old. old ≡ get K.cmp map.old key) }
    ensures new { IfOk result (λ _. map.new.entries ≡ insert_entry K.cmp map.old.entries key value) }
    ensures back { IfOk result (λ old. undone K.cmp map.new.entries key old ≡ map.old.entries) }
    ensures unchanged { OnErr result (map.new.entries ≡ map.old.entries) }
    ensures ordered { IsOrdered K.cmp map.old }
{
    let old = map.insert(key, value)?;
    Ok(old)
}

/// Takes a write back: what stood at the key stands there again. It takes no memory.
pub fn put_back<K: Ord + Drop, V: Drop>(map: &mut BTreeMap<K, V>, key: K, old: Option<V>)
    ensures { map.new.entries ≡ undone K.cmp map.old.entries key old }
{
    match old {
        Some(value) => {
            if let Some(place) = map.get_mut(&key) {
                *place = value;
            }
        }
        None => {
            map.remove(&key);
        }
    }
}

/// Adds an entry to a journal that has room for it.
pub fn note<T: Drop>(journal: &mut Vec<T>, entry: T)
    requires { vec_len journal.old < vec_capacity journal.old }
    ensures { journal.new.items ≡ journal.old.items ++ entry ∷ [] }
{
    let noted = journal.push(entry).is_ok();
    prove!(noted);
}
