// The line that a node is.
ghost use Rattle.std.specs.Prelude.{◌≡◌, Some, None, option_map, IfOk};
ghost use Rattle.rules_audit.specs.Fields.{named};
ghost use Rattle.rules_audit.specs.Lines.{account_of, amount_line, contract_of, contract_with, fees, group_of, line_by, line_of, storage_burn, supply, tickets_of};
ghost use Rattle.mich_base.specs.View.{tree, trees};
ghost use Rattle.mich_audit.specs.View.{line_seen};

use crate::counted::{four, six};
use crate::fields::{amount_from, holdings_of, issuer_of, plain, tickets_in};
use crate::line::Line;
use crate::part::Identity;
use crate::receipts::receipt_of;
use mich_base::{Memory, Node, Nodes, Rows};
use std::alloc::Global;

// number receipt
#[tactic(auto, using(crate::proofs::Counts::group_fields))]
fn group_of(alloc: Global, args: &Nodes) -> Result<Option<Line<'_>>, Memory>
    ensures { IfOk result (λ line. option_map line_seen line ≡ group_of (trees args.now)) }
{
    let Some((Node::Int(number), receipt)) = args.both() else {
        return Ok(None);
    };
    let mut parts = Rows::new(alloc);
    if receipt_of(receipt, &mut parts)? {
        Ok(Some(Line::Group(*number, parts)))
    } else {
        Ok(None)
    }
}

// key_hash balance holdings
#[tactic(auto, using(crate::proofs::Counts::account_fields))]
fn account_of(alloc: Global, args: &Nodes) -> Result<Option<Line<'_>>, Memory>
    ensures { IfOk result (λ line. option_map line_seen line ≡ account_of (trees args.now)) }
{
    let Some((_, balance, holdings)) = args.three() else {
        return Ok(None);
    };
    let Some(balance) = amount_from(0, balance) else {
        return Ok(None);
    };
    let mut parts = Rows::new(alloc);
    if holdings_of(holdings, &mut parts)? {
        Ok(Some(Line::Account(balance, parts)))
    } else {
        Ok(None)
    }
}

fn contract_with<'a>(
    alloc: Global,
    balance: &Node,
    storage: &'a Node,
    fourth: bool,
) -> Result<Option<Line<'a>>, Memory>
    ensures { IfOk result (λ line. option_map line_seen line ≡ contract_with (tree balance.now) (tree storage.now) fourth) }
{
    let Some(balance) = amount_from(0, balance) else {
        return Ok(None);
    };
    let mut parts = Rows::new(alloc);
    if tickets_in(storage, &mut parts)? {
        Ok(Some(Line::Contract {
            balance,
            parts,
            fourth,
        }))
    } else {
        Ok(None)
    }
}

// address balance storage, and maybe a size
#[tactic(auto, using(crate::proofs::Counts::contract_fields))]
fn contract_of(alloc: Global, args: &Nodes) -> Result<Option<Line<'_>>, Memory>
    ensures { IfOk result (λ line. option_map line_seen line ≡ contract_of (trees args.now)) }
{
    if let Some((_, balance, storage)) = args.three() {
        return contract_with(alloc, balance, storage, false);
    }
    match four(args) {
        Some((_, balance, storage, _)) => contract_with(alloc, balance, storage, true),
        None => Ok(None),
    }
}

// issuer type content minted burnt held
#[tactic(auto, using(crate::proofs::Counts::tickets_fields))]
fn tickets_of(args: &Nodes) -> Option<Line<'_>>
    ensures { option_map line_seen result ≡ tickets_of (trees args.now) }
{
    let Some((issuer, kind, content, minted, burnt, held)) = six(args) else {
        return None;
    };
    let issuer = issuer_of(issuer)?;
    let minted = amount_from(0, minted)?;
    let burnt = amount_from(0, burnt)?;
    let held = amount_from(0, held)?;
    let identity = Identity {
        issuer,
        kind,
        content,
    };
    Some(Line::Tickets {
        identity,
        minted,
        burnt,
        held,
    })
}

#[tactic(auto, using(crate::proofs::Counts::amount_fields))]
fn fees_of(args: &Nodes) -> Option<Line<'_>>
    ensures { option_map line_seen result ≡ amount_line fees (trees args.now) }
{
    let Some(amount) = args.only() else {
        return None;
    };
    let amount = amount_from(0, amount)?;
    Some(Line::Fees(amount))
}

#[tactic(auto, using(crate::proofs::Counts::amount_fields))]
fn storage_burn_of(args: &Nodes) -> Option<Line<'_>>
    ensures { option_map line_seen result ≡ amount_line storage_burn (trees args.now) }
{
    let Some(amount) = args.only() else {
        return None;
    };
    let amount = amount_from(0, amount)?;
    Some(Line::StorageBurn(amount))
}

#[tactic(auto, using(crate::proofs::Counts::amount_fields))]
fn supply_of(args: &Nodes) -> Option<Line<'_>>
    ensures { option_map line_seen result ≡ amount_line supply (trees args.now) }
{
    let Some(amount) = args.only() else {
        return None;
    };
    let amount = amount_from(0, amount)?;
    Some(Line::Supply(amount))
}

fn line_by<'a>(alloc: Global, name: &[u8], args: &'a Nodes) -> Result<Option<Line<'a>>, Memory>
    ensures { IfOk result (λ line. option_map line_seen line ≡ line_by name.now (trees args.now)) }
{
    if name == b"Group".as_slice() {
        group_of(alloc, args)
    } else if name == b"Account".as_slice() {
        account_of(alloc, args)
    } else if name == b"Contract".as_slice() {
        contract_of(alloc, args)
    } else if name == b"Tickets".as_slice() {
        Ok(tickets_of(args))
    } else if name == b"Fees".as_slice() {
        Ok(fees_of(args))
    } else if name == b"StorageBurn".as_slice() {
        Ok(storage_burn_of(args))
    } else if name == b"Supply".as_slice() {
        Ok(supply_of(args))
    } else {
        Ok(None)
    }
}

/// The line that a node is, or none. Memory where there is no room for its parts.
pub(crate) fn line_of(alloc: Global, node: &Node) -> Result<Option<Line<'_>>, Memory>
    ensures { IfOk result (λ line. option_map line_seen line ≡ line_of (tree node.now)) }
{
    match plain(node) {
        Some(app) => line_by(alloc, app.name.as_slice(), &app.args),
        None => Ok(None),
    }
}
