// The key of a ticket.
ghost use Rattle.std.specs.Prelude.{◌≡◌, ◌++◌, IfOk, OnOk};
ghost use Rattle.rules_text.specs.text.Printed.{printed};
ghost use Rattle.mich_audit.specs.Key.{identity_node};
ghost use Rattle.mich_audit.specs.View.{identity_seen};

use crate::part::Identity;
use mich_base::{Memory, Text};
use mich_text::print;
use std::alloc::Global;

// Adds bytes to a text.
fn put(text: &mut Vec<u8>, bytes: &[u8]) -> Result<(), Memory>
    ensures { OnOk result (text.new.items ≡ text.old.items ++ bytes.now) }
{
    text.extend_from_slice(bytes)?;
    Ok(())
}

/// The printed sequence of the issuer, the type and the content of a ticket. Memory where there is no room for it.
pub(crate) fn key_of(alloc: Global, id: &Identity<'_>) -> Result<Text, Memory>
    ensures { IfOk result (λ key. key ≡ printed (identity_node (identity_seen id.now))) }
{
    let issuer = hex::encode(alloc, id.issuer.as_slice())?;
    let kind = print(alloc, id.kind)?;
    let content = print(alloc, id.content)?;
    let mut key = Vec::new(alloc);
    put(&mut key, b"{ 0x")?;
    put(&mut key, issuer.as_str().as_bytes())?;
    put(&mut key, b" ; ")?;
    put(&mut key, kind.as_slice())?;
    put(&mut key, b" ; ")?;
    put(&mut key, content.as_slice())?;
    put(&mut key, b" }")?;
    Text::from_vec(key)
}
