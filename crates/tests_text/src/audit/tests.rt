use mich_audit::{Verdict, audit};
use mich_base::Memory;
use std::alloc::Global;
use std::test::Fail;

const TRANSFER: &str =
    "Group 1 { Applied 1 { Transfer 0x00000000000000000000000000000000000000000001 \
    0x00000000000000000000000000000000000000000002 1 Unit {} } }\n\
    Account 0x000000000000000000000000000000000000000001 989 {}\n\
    Account 0x000000000000000000000000000000000000000002 1 {}\n";

// A contract mints 10 seats, of which an account burns one and another contract keeps three.
const SEATS: &str = "Group 1 { Applied 20 { Transfer 0x00 0x01 0 Unit \
    { Minted 0x01000000000000000100000000000000000000000000 string \"seat\" 10 } } }\n\
    Group 2 { Applied 13 { Give 0x00 0x01 0x01000000000000000100000000000000000000000000 string \"seat\" 4 \
    { Burnt 0x01000000000000000100000000000000000000000000 string \"seat\" 1 } } }\n\
    Group 3 { Failed 0 TicketShort }\n\
    Account 0x00 0 { Held 0x01000000000000000100000000000000000000000000 string \"seat\" 6 }\n\
    Contract 0x01 0 (Some (Ticket 0x01000000000000000100000000000000000000000000 string \"seat\" 3))\n";

// The verdict on a text, behind which this stands.
fn verdict_on(alloc: Global, text: &str, end: &str) -> Result<Verdict, Memory> {
    let text = format!(in alloc; "{text}{end}")?;
    audit(alloc, text.as_str().as_bytes())
}

#[test]
fn mutez_is_summed(rt: HostRuntime) -> Result<(), Fail> {
    let alloc = rt.alloc();
    for (end, verdict) in [
        ("Fees 10\nSupply 1000\n", Verdict::Agrees),
        ("Fees 10\nSupply 1001\n", Verdict::Supply),
        ("Fees 11\nSupply 1000\n", Verdict::Supply),
    ] {
        assert_eq!(rt; verdict_on(alloc, TRANSFER, end)?, verdict, "at {end}");
    }
    Ok(())
}

#[test]
fn tickets_are_summed(rt: HostRuntime) -> Result<(), Fail> {
    let alloc = rt.alloc();
    for (line, verdict) in [
        (
            "Tickets 0x01000000000000000100000000000000000000000000 string \"seat\" 10 1 9\n",
            Verdict::Agrees,
        ),
        (
            "Tickets 0x01000000000000000100000000000000000000000000 string \"seat\" 10 0 9\n",
            Verdict::Tickets(1),
        ),
        ("", Verdict::Missing),
    ] {
        let text = format!(in alloc; "{SEATS}{line}")?;
        assert_eq!(rt;
            verdict_on(alloc, text.as_str(), "Fees 0\nSupply 0\n")?,
            verdict,
            "at {line}"
        );
    }
    Ok(())
}

#[test]
fn a_text_without_its_form_is_refused(rt: HostRuntime) -> Result<(), Fail> {
    let alloc = rt.alloc();
    for (text, line) in [
        ("", 1),
        ("Fees 0\n", 2),
        ("Fees 0\nSupply 0", 2),
        ("Fees 0;\nSupply 0\n", 1),
        ("Fees 0\nSupply 0\nSupply 0\n", 3),
        ("Group 2 {}\nFees 0\nSupply 0\n", 1),
    ] {
        assert_eq!(rt;
            verdict_on(alloc, text, "")?,
            Verdict::BadForm(line),
            "at {text}"
        );
    }
    Ok(())
}

#[test]
fn a_comment_may_end_in_a_sign(rt: HostRuntime) -> Result<(), Fail> {
    let alloc = rt.alloc();
    assert_eq!(rt;
        verdict_on(alloc, "Fees 0 # ;\nSupply 0\n", "")?,
        Verdict::Agrees
    );
    Ok(())
}

#[test]
fn a_storage_burn_stands_where_contracts_have_sizes(rt: HostRuntime) -> Result<(), Fail> {
    let alloc = rt.alloc();
    for (text, verdict) in [
        (
            "Contract 0x00 5 Unit 1\nFees 2\nStorageBurn 1\nSupply 8\n",
            Verdict::Agrees,
        ),
        (
            "Contract 0x00 5 Unit 1\nFees 2\nSupply 7\n",
            Verdict::BadForm(3),
        ),
        (
            "Contract 0x00 5 Unit\nFees 2\nStorageBurn 1\nSupply 8\n",
            Verdict::BadForm(3),
        ),
    ] {
        assert_eq!(rt; verdict_on(alloc, text, "")?, verdict, "at {text}");
    }
    Ok(())
}
