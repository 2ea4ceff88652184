// The lines of a printed run.
use crate::part::{Identity, Parts};

/// What a line tells: amounts in mutez or of tickets, and parts of tickets.
#[derive(Debug, Drop)]
pub(crate) enum Line<'a> {
    Group(i128, Parts<'a>),
    Account(u128, Parts<'a>),
    Contract {
        balance: u128,
        parts: Parts<'a>,
        // Whether it has a fourth argument.
        fourth: bool,
    },
    Tickets {
        identity: Identity<'a>,
        minted: u128,
        burnt: u128,
        held: u128,
    },
    Fees(u128),
    StorageBurn(u128),
    Supply(u128),
}
