// Files in which tickets are given and sent.
use crate::support::{is_answered, text};
use mich_base::Memory;
use std::alloc::Global;
use std::test::Fail;

// A contract that mints five tickets, burns three and sends the others to the second account; another that keeps the ticket that it is
// called with.
pub(crate) const TICKETS_ARE_SENT: &str =
    "Chain 0x7a06a770 1 0;Account 0x000000000000000000000000000000000000000001 1000; Account 0x000000000000000000000000000000000000000002 \
        0; Group 0x000000000000000000000000000000000000000001 { Originate 0 1 0 { parameter address; storage unit; code { CAR ; CONTRACT \
        (ticket nat) ; IF_NONE { UNIT ; FAILWITH } {} ; PUSH mutez 0 ; PUSH nat 5 ; PUSH nat 7 ; TICKET ; IF_NONE { UNIT ; FAILWITH } {} ; \
        PUSH (pair nat nat) (Pair 2 3) ; SWAP ; SPLIT_TICKET ; IF_NONE { UNIT ; FAILWITH } { UNPAIR } ; DIP { DROP } ; TRANSFER_TOKENS ; \
        NIL operation ; SWAP ; CONS ; UNIT ; SWAP ; PAIR } } Unit }; \
        Group 0x000000000000000000000000000000000000000001 { Call 0 1000 0 0x01000000000000000100000000000000000000000000 \"default\" \
        0x00000000000000000000000000000000000000000002 }; \
        Group 0x000000000000000000000000000000000000000001 { Originate 0 1 0 { parameter (or (ticket %keep nat) nat); storage (option \
        (ticket nat)); code { CAR ; IF_LEFT { SOME } { DROP ; NONE (ticket nat) } ; NIL operation ; PAIR } } None };";

const SENT: &str =
    "Group 1 { Applied 1 { Origination 0x00000000000000000000000000000000000000000001 0x01000000000000000100000000000000000000000000 0 } \
        }\n\
        Group 2 { Applied 31 { Transfer 0x00000000000000000000000000000000000000000001 0x01000000000000000100000000000000000000000000 0 \
        0x00000000000000000000000000000000000000000002 { Minted 0x01000000000000000100000000000000000000000000 nat 7 5 ; Burnt \
        0x01000000000000000100000000000000000000000000 nat 7 3 } ; Transfer 0x01000000000000000100000000000000000000000000 \
        0x00000000000000000000000000000000000000000002 0 (Ticket 0x01000000000000000100000000000000000000000000 nat 7 2) {} } }\n\
        Group 3 { Applied 1 { Origination 0x00000000000000000000000000000000000000000001 0x01000000000000000300000000000000000000000000 0 \
        } }\nGroup 4 ";

const FIRST_HOLDS_NONE: &str = "\nAccount 0x000000000000000000000000000000000000000001 1000 {}\n";

const SECOND_HOLDS_TWO: &str =
    "Account 0x000000000000000000000000000000000000000002 0 { Held 0x01000000000000000100000000000000000000000000 nat 7 2 }\n";

const NONE_IS_KEPT: &str =
    "Contract 0x01000000000000000100000000000000000000000000 0 Unit\nContract 0x01000000000000000300000000000000000000000000 0 None\n\
        Tickets 0x01000000000000000100000000000000000000000000 nat 7 5 3 2\nFees 0\nSupply 1000\n";

// What the second account then gives, and why that fails.
static BAD_GIFTS: [(&str, &str); 17] = [
    (
        "Give 0 0 0x01000000000000000100000000000000000000000000 foo 7 2 0x00000000000000000000000000000000000000000001 \"default\"",
        "{ Failed 0 OutOfGas }",
    ),
    (
        "Give 0 10 0x01000000000000000100000000000000000000000000 foo 7 3 0x00000000000000000000000000000000000000000001 \"default\"",
        "{ Failed 0 (BadParameter 0) }",
    ),
    (
        "Give 0 10 0x01000000000000000100000000000000000000000000 7 7 2 0x00000000000000000000000000000000000000000001 \"default\"",
        "{ Failed 0 (BadParameter 0) }",
    ),
    (
        "Give 0 10 0x01000000000000000100000000000000000000000000 (list nat) { 7 } 2 0x00000000000000000000000000000000000000000001 \
            \"default\"",
        "{ Failed 0 (BadParameter 0) }",
    ),
    (
        "Give 0 10 0x01000000000000000100000000000000000000000000 nat -7 2 0x00000000000000000000000000000000000000000001 \"mint\"",
        "{ Failed 0 (BadParameter 0) }",
    ),
    (
        "Give 0 10 0x01000000000000000100000000000000000000000000 (pair nat nat) (Pair 7 \"a\") 2 \
            0x01000000000000000400000000000000000000000000 \"default\"",
        "{ Failed 0 (BadParameter 0) }",
    ),
    (
        "Give 0 10 0x01000000000000000100000000000000000000000000 nat 7 3 0x00000000000000000000000000000000000000000001 \"mint\"",
        "{ Failed 0 NoEntrypoint }",
    ),
    (
        "Give 0 10 0x01000000000000000100000000000000000000000000 nat 7 3 0x01000000000000000400000000000000000000000000 \"mint\"",
        "{ Failed 0 NoContract }",
    ),
    (
        "Give 0 10 0x01000000000000000100000000000000000000000000 nat 7 3 0x01000000000000000300000000000000000000000000 \"mint\"",
        "{ Failed 0 NoEntrypoint }",
    ),
    (
        "Give 0 10 0x01000000000000000100000000000000000000000000 nat 7 3 0x01000000000000000300000000000000000000000000 \"default\"",
        "{ Failed 0 (BadParameter 0) }",
    ),
    (
        "Give 0 10 0x01000000000000000100000000000000000000000000 int 7 3 0x01000000000000000300000000000000000000000000 \"keep\"",
        "{ Failed 0 (BadParameter 0) }",
    ),
    (
        "Give 0 10 0x01000000000000000100000000000000000000000000 nat 7 3 0x01000000000000000300000000000000000000000000 \"keep\"",
        "{ Failed 0 TicketShort }",
    ),
    (
        "Give 0 10 0x01000000000000000100000000000000000000000000 nat 7 3 0x00000000000000000000000000000000000000000001 \"default\"",
        "{ Failed 0 TicketShort }",
    ),
    (
        "Give 0 10 0x01000000000000000100000000000000000000000000 nat 8 1 0x00000000000000000000000000000000000000000001 \"default\"",
        "{ Failed 0 TicketShort }",
    ),
    (
        "Give 0 10 0x01000000000000000300000000000000000000000000 nat 7 1 0x00000000000000000000000000000000000000000001 \"default\"",
        "{ Failed 0 TicketShort }",
    ),
    (
        "Give 0 5 0x01000000000000000100000000000000000000000000 nat 7 2 0x01000000000000000300000000000000000000000000 \"keep\"",
        "{ Failed 0 OutOfGas }",
    ),
    (
        "Give 0 10 0x01000000000000000100000000000000000000000000 nat 7 2 0x00000000000000000000000000000000000000000001 \"default\" ; \
            Give 0 10 0x01000000000000000100000000000000000000000000 nat 7 1 0x00000000000000000000000000000000000000000001 \"default\"",
        "{ Backtracked ; Failed 0 TicketShort }",
    ),
];

// Whether a gift of the second account comes to this.
fn fails_with(alloc: Global, gift: &str, receipt: &str) -> Result<bool, Memory> {
    let source = "Group 0x000000000000000000000000000000000000000002 { ";
    let file = text(alloc, &[TICKETS_ARE_SENT, source, gift, " }"], 4)?;
    let lines = [
        SENT,
        receipt,
        FIRST_HOLDS_NONE,
        SECOND_HOLDS_TWO,
        NONE_IS_KEPT,
    ];
    let written = text(alloc, &lines, 5)?;
    is_answered(alloc, "replay", file.as_str(), 0, written.as_str())
}

// Fails with the first gift that comes to something else.
fn all_fail_with(alloc: Global, rows: &[(&'static str, &'static str)]) -> Result<(), Fail> {
    for (gift, receipt) in rows {
        if !fails_with(alloc, gift, receipt)? {
            return Err(Fail::new(*gift));
        }
    }
    Ok(())
}

#[test]
fn gifts_that_fail(rt: HostRuntime) -> Result<(), Fail> {
    all_fail_with(rt.alloc(), &BAD_GIFTS)
}

// What the second account gives, and what is written then: tickets go to the first account, one of them to an account that isn't there,
// both to itself, to a contract that keeps them, and first to the first account and then back.
static GIFTS: [(&str, &str); 5] = [
    (
        "Group 0x000000000000000000000000000000000000000002 { Give 0 10 0x01000000000000000100000000000000000000000000 (nat :count) 7 2 \
            0x00000000000000000000000000000000000000000001 \"default\" }",
        "{ Applied 1 { Give 0x00000000000000000000000000000000000000000002 0x00000000000000000000000000000000000000000001 \
            0x01000000000000000100000000000000000000000000 nat 7 2 {} } }\n\
            Account 0x000000000000000000000000000000000000000001 1000 { Held 0x01000000000000000100000000000000000000000000 nat 7 2 }\n\
            Account 0x000000000000000000000000000000000000000002 0 {}\nContract 0x01000000000000000100000000000000000000000000 0 Unit\n\
            Contract 0x01000000000000000300000000000000000000000000 0 None\n\
            Tickets 0x01000000000000000100000000000000000000000000 nat 7 5 3 2\nFees 0\nSupply 1000\n",
    ),
    (
        "Group 0x000000000000000000000000000000000000000002 { Give 0 1 0x01000000000000000100000000000000000000000000 nat 7 1 \
            0x00000000000000000000000000000000000000000003 \"default\" }",
        "{ Applied 1 { Give 0x00000000000000000000000000000000000000000002 0x00000000000000000000000000000000000000000003 \
            0x01000000000000000100000000000000000000000000 nat 7 1 {} } }\nAccount 0x000000000000000000000000000000000000000001 1000 {}\n\
            Account 0x000000000000000000000000000000000000000002 0 { Held 0x01000000000000000100000000000000000000000000 nat 7 1 }\n\
            Account 0x000000000000000000000000000000000000000003 0 { Held 0x01000000000000000100000000000000000000000000 nat 7 1 }\n\
            Contract 0x01000000000000000100000000000000000000000000 0 Unit\n\
            Contract 0x01000000000000000300000000000000000000000000 0 None\n\
            Tickets 0x01000000000000000100000000000000000000000000 nat 7 5 3 2\nFees 0\nSupply 1000\n",
    ),
    (
        "Group 0x000000000000000000000000000000000000000002 { Give 0 10 0x01000000000000000100000000000000000000000000 nat 7 2 \
            0x00000000000000000000000000000000000000000002 \"default\" }",
        "{ Applied 1 { Give 0x00000000000000000000000000000000000000000002 0x00000000000000000000000000000000000000000002 \
            0x01000000000000000100000000000000000000000000 nat 7 2 {} } }\nAccount 0x000000000000000000000000000000000000000001 1000 {}\n\
            Account 0x000000000000000000000000000000000000000002 0 { Held 0x01000000000000000100000000000000000000000000 nat 7 2 }\n\
            Contract 0x01000000000000000100000000000000000000000000 0 Unit\n\
            Contract 0x01000000000000000300000000000000000000000000 0 None\n\
            Tickets 0x01000000000000000100000000000000000000000000 nat 7 5 3 2\nFees 0\nSupply 1000\n",
    ),
    (
        "Group 0x000000000000000000000000000000000000000002 { Give 0 10 0x01000000000000000100000000000000000000000000 nat 7 2 \
            0x01000000000000000300000000000000000000000000 \"keep\" }",
        "{ Applied 6 { Give 0x00000000000000000000000000000000000000000002 0x010000000000000003000000000000000000000000006b656570 \
            0x01000000000000000100000000000000000000000000 nat 7 2 {} } }\nAccount 0x000000000000000000000000000000000000000001 1000 {}\n\
            Account 0x000000000000000000000000000000000000000002 0 {}\nContract 0x01000000000000000100000000000000000000000000 0 Unit\n\
            Contract 0x01000000000000000300000000000000000000000000 0 (Some (Ticket 0x01000000000000000100000000000000000000000000 nat 7 \
            2))\nTickets 0x01000000000000000100000000000000000000000000 nat 7 5 3 2\nFees 0\nSupply 1000\n",
    ),
    (
        "Group 0x000000000000000000000000000000000000000002 { Give 0 10 0x01000000000000000100000000000000000000000000 nat 7 2 \
            0x00000000000000000000000000000000000000000001 \"default\" }; \
            Group 0x000000000000000000000000000000000000000001 { Give 5 10 0x01000000000000000100000000000000000000000000 nat 7 1 \
            0x00000000000000000000000000000000000000000002 \"default\" }",
        "{ Applied 1 { Give 0x00000000000000000000000000000000000000000002 0x00000000000000000000000000000000000000000001 \
            0x01000000000000000100000000000000000000000000 nat 7 2 {} } }\n\
            Group 5 { Applied 1 { Give 0x00000000000000000000000000000000000000000001 0x00000000000000000000000000000000000000000002 \
            0x01000000000000000100000000000000000000000000 nat 7 1 {} } }\n\
            Account 0x000000000000000000000000000000000000000001 995 { Held 0x01000000000000000100000000000000000000000000 nat 7 1 }\n\
            Account 0x000000000000000000000000000000000000000002 0 { Held 0x01000000000000000100000000000000000000000000 nat 7 1 }\n\
            Contract 0x01000000000000000100000000000000000000000000 0 Unit\n\
            Contract 0x01000000000000000300000000000000000000000000 0 None\n\
            Tickets 0x01000000000000000100000000000000000000000000 nat 7 5 3 2\nFees 5\nSupply 1000\n",
    ),
];

// Whether these lines are written where these groups follow.
fn goes_on(alloc: Global, groups: &str, lines: &str) -> Result<bool, Memory> {
    let file = text(alloc, &[TICKETS_ARE_SENT, groups], 2)?;
    let written = text(alloc, &[SENT, lines], 2)?;
    is_answered(alloc, "replay", file.as_str(), 0, written.as_str())
}

// Fails with the first groups of which something else is written.
fn all_go_on(alloc: Global, rows: &[(&'static str, &'static str)]) -> Result<(), Fail> {
    for (groups, lines) in rows {
        if !goes_on(alloc, groups, lines)? {
            return Err(Fail::new(*groups));
        }
    }
    Ok(())
}

#[test]
fn gifts(rt: HostRuntime) -> Result<(), Fail> {
    all_go_on(rt.alloc(), &GIFTS)
}

// A contract with 5 mutez mints four tickets and sends them to an account that isn't there: with so many mutez, and what is written then.
static TICKETS_WITH_MUTEZ: [(&str, &str); 2] = [
    (
        "2",
        "{ Applied 20 { Transfer 0x00000000000000000000000000000000000000000001 0x01000000000000000100000000000000000000000000 0 \
            0x00000000000000000000000000000000000000000003 { Minted 0x01000000000000000100000000000000000000000000 string \"a\" 4 } ; \
            Transfer 0x01000000000000000100000000000000000000000000 0x00000000000000000000000000000000000000000003 2 (Ticket \
            0x01000000000000000100000000000000000000000000 string \"a\" 4) {} } }\n\
            Account 0x000000000000000000000000000000000000000001 95 {}\n\
            Account 0x000000000000000000000000000000000000000003 2 { Held 0x01000000000000000100000000000000000000000000 string \"a\" 4 }\n\
            Contract 0x01000000000000000100000000000000000000000000 3 Unit\n\
            Tickets 0x01000000000000000100000000000000000000000000 string \"a\" 4 0 4\nFees 0\nSupply 100\n",
    ),
    (
        "6",
        "{ Failed 1 BalanceTooLow }\nAccount 0x000000000000000000000000000000000000000001 95 {}\n\
            Contract 0x01000000000000000100000000000000000000000000 5 Unit\nFees 0\nSupply 100\n",
    ),
];

// Whether these lines are written where tickets are sent with so many mutez.
fn are_sent(alloc: Global, mutez: &str, lines: &str) -> Result<bool, Memory> {
    let file = format!(in alloc;
        "Chain 0x7a06a770 1 0;Account 0x000000000000000000000000000000000000000001 100; Group \
            0x000000000000000000000000000000000000000001 {{ Originate 0 1 5 {{ parameter address; storage unit; code {{ CAR ; CONTRACT \
            (ticket string) ; IF_NONE {{ UNIT ; FAILWITH }} {{}} ; PUSH mutez {mutez} ; PUSH nat 4 ; PUSH string \"a\" ; TICKET ; \
            IF_NONE {{ UNIT ; FAILWITH }} {{}} ; TRANSFER_TOKENS ; NIL operation ; SWAP ; CONS ; UNIT ; SWAP ; PAIR }} }} Unit }}; \
            Group 0x000000000000000000000000000000000000000001 {{ Call 0 1000 0 0x01000000000000000100000000000000000000000000 \
            \"default\" 0x00000000000000000000000000000000000000000003 }}"
    )?;
    let first = "Group 1 { Applied 1 { Origination 0x00000000000000000000000000000000000000000001 \
            0x01000000000000000100000000000000000000000000 5 } }\nGroup 2 ";
    let written = text(alloc, &[first, lines], 2)?;
    is_answered(alloc, "replay", file.as_str(), 0, written.as_str())
}

// Fails with the first mutez with which something else is written.
fn all_are_sent(alloc: Global, rows: &[(&'static str, &'static str)]) -> Result<(), Fail> {
    for (mutez, lines) in rows {
        if !are_sent(alloc, mutez, lines)? {
            return Err(Fail::new(*mutez));
        }
    }
    Ok(())
}

#[test]
fn tickets_with_mutez(rt: HostRuntime) -> Result<(), Fail> {
    all_are_sent(rt.alloc(), &TICKETS_WITH_MUTEZ)
}
