// Amounts of tickets that a line tells.
use mich_base::{Bytes, Node, Rows};

/// Whether so much of a ticket was minted, was burnt, or is held.
#[derive(Clone, Copy, Debug)]
pub(crate) enum Sort {
    Minted,
    Burnt,
    Held,
}

/// The issuer of a ticket, and its type and content as nodes (Octez "Tickets").
#[derive(Debug, Drop)]
pub(crate) struct Identity<'a> {
    pub(crate) issuer: &'a Bytes,
    pub(crate) kind: &'a Node,
    pub(crate) content: &'a Node,
}

/// An amount of a ticket.
#[derive(Debug, Drop)]
pub(crate) struct Part<'a> {
    pub(crate) sort: Sort,
    pub(crate) identity: Identity<'a>,
    pub(crate) amount: u128,
}

pub(crate) type Parts<'a> = Rows<Part<'a>>;
