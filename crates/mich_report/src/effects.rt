// What operations did.
ghost use Rattle.std.specs.Prelude.{◌≡◌, ◌++◌, ◌∷◌, [], IfOk, OnOk, map};
ghost use Rattle.rules_text.specs.nodes.Tree.{trees_of};
ghost use Rattle.rules_text.specs.text.Printed.{printed};
ghost use Rattle.rules_world.specs.lines.Nodes.{effect_node, sequence};
ghost use Rattle.mich_text.specs.Line.{joined};
ghost use Rattle.mich_ops.specs.View.{effect};

use crate::changes::put_changes;
use crate::fields::{put_address, put_argument, put_int, put_number, put_place, put_text};
use crate::line::{put, put_separator};
use mich_base::{Memory, Rows};
use mich_ops::Effect;
use std::alloc::Global;

// An effect with its fields, behind a line.
fn put_effect(alloc: Global, line: &mut Vec<u8>, done: &Effect) -> Result<(), Memory>
    ensures { OnOk result (line.new.items ≡ line.old.items ++ printed (effect_node (effect done.now))) }
{
    match done {
        Effect::Transfer(sender, to, amount, argument, changes) => {
            put(line, b"Transfer")?;
            put_place(alloc, line, sender)?;
            put_address(alloc, line, to)?;
            put_number(alloc, line, *amount)?;
            put_argument(alloc, line, argument)?;
            put_changes(alloc, line, changes)
        }
        Effect::Give(sender, to, issuer, ty, content, amount, changes) => {
            put(line, b"Give")?;
            put_place(alloc, line, sender)?;
            put_address(alloc, line, to)?;
            put_place(alloc, line, issuer)?;
            put_argument(alloc, line, ty)?;
            put_argument(alloc, line, content)?;
            put_int(alloc, line, amount)?;
            put_changes(alloc, line, changes)
        }
        Effect::Origination(sender, made, amount) => {
            put(line, b"Origination")?;
            put_place(alloc, line, sender)?;
            put_place(alloc, line, made)?;
            put_number(alloc, line, *amount)
        }
        Effect::Event(sender, tag, ty, value) => {
            put(line, b"Event")?;
            put_place(alloc, line, sender)?;
            put_text(alloc, line, tag)?;
            put_argument(alloc, line, ty)?;
            put_argument(alloc, line, value)
        }
        Effect::Storage(address, bytes, burn) => {
            put(line, b"Storage")?;
            put_place(alloc, line, address)?;
            put_number(alloc, line, *bytes)?;
            put_number(alloc, line, *burn)
        }
    }
}

// Effects, the first behind a space and each other behind its sign.
fn put_each(alloc: Global, line: &mut Vec<u8>, effects: &Rows<Effect>) -> Result<(), Memory>
    ensures { OnOk result (line.new.items ≡ line.old.items ++ joined (32 ∷ []) (trees_of (map effect_node (map effect effects.now)))) }
{
    let mut begun = false;
    'effects: for done in effects.as_slice() {
        put_separator(line, begun)?;
        put_effect(alloc, line, done)?;
        begun = true;
    }
    Ok(())
}

/// Puts effects behind a line, in their order. Memory where there is no room for them.
pub(crate) fn put_effects(
    alloc: Global,
    line: &mut Vec<u8>,
    effects: &Rows<Effect>,
) -> Result<(), Memory>
    ensures { OnOk result (line.new.items ≡ line.old.items ++ printed (sequence (map effect_node (map effect effects.now)))) }
{
    if effects.is_empty() {
        return put(line, b"{}");
    }
    put(line, b"{")?;
    put_each(alloc, line, effects)?;
    put(line, b" }")
}
