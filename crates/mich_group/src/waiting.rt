// Operations that wait for their turn.
ghost use Rattle.std.specs.Prelude.{◌≡◌, ◌++◌, map, reverse, IfOk};
ghost use Rattle.mich_group.specs.declared.waiting.Sent.{Sent};
ghost use Rattle.mich_group.specs.Waiting.{sent_by};

use mich_base::{Memory, Rows};
use mich_ops::Issued;

/// An operation that the contract of these 20 bytes issued, and that waits for its turn.
#[derive(Drop)]
pub(crate) struct Sent {
    pub(crate) by: [u8; 20],
    pub(crate) operation: Issued,
}

#[tactic(auto, using(crate::proofs::Sending::send_one))]
// Puts operations that a contract issued in front of all that wait: the last is the next one.
pub(crate) fn send(
    waiting: &mut Rows<Sent>,
    by: [u8; 20],
    emitted: Rows<Issued>,
) -> Result<(), Memory>
    ensures { IfOk result (λ _. waiting.new ≡ waiting.old ++ reverse (map (sent_by by) emitted)) }
{
    let mut left = emitted;
    'emitted: while let Some(operation) = left.pop() {
        waiting.push(Sent { by, operation })?;
    }
    Ok(())
}
