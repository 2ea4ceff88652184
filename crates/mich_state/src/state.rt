// A run on its way.
ghost use Rattle.std.specs.Prelude.{◌≤◌, ◌+◌};
ghost use Rattle.rules_text.specs.nodes.Limits.{most_contents, operation_limit};

use mich_base::Rows;
use mich_gas::Meter;
use mich_ops::Issued;
use mich_step::Env;
use mich_term::Value;
use mich_tickets::Ledger;

/// What is counted in a group: the operations issued, the originations, and the group's own number. There are at most as many
/// operations as may be issued, and at most as many originations as operations and contents (this host's own limits).
#[derive(Debug, Drop)]
pub struct Counts {
    /// How many operations were issued in the group.
    pub issued: u32,
    /// How many originations, the group's own and those that code issued.
    pub originated: u32,
    /// The number of the group.
    pub group: u64,
    ghost issued_within: { issued ≤ operation_limit },
    ghost originated_within: { originated ≤ issued + most_contents },
}

/// The values and the counts of a run, apart from its code.
#[derive(Drop)]
pub struct State {
    /// The values, the last of which is on top.
    pub stack: Rows<Value>,
    /// The gas that is left.
    pub meter: Meter,
    pub counts: Counts,
    /// Where and for whom the code runs.
    pub env: Env,
    /// The ledger of tickets. It lists the changes of the run.
    pub ledger: Ledger,
    /// The operations that the run issued, in order.
    pub issued: Rows<Issued>,
}
