// A walk over a node that finds its first fault as a type, without making the type.
ghost use Rattle.std.specs.Prelude.{◌≡◌, ℕ, ◌+◌, ◌<◌, ◌^◌, ◌∷◌, MatchOption};
ghost use Rattle.rules_text.specs.nodes.Tree.{size, sizes};
ghost use Rattle.mich_base.specs.View.{tree, trees};
ghost use Rattle.mich_types.specs.Scanned.{asked_of_argument, asked_of_first, asked_of_second, of_argument, of_arguments, of_simple, of_operation, of_pair, nodes_over, scanned, scans, bare, over_one, over_two, over_pair, joined};
ghost use Rattle.mich_types.specs.Answers.{IsScan, IsBelowTwo};

use crate::former::{Former, former_of_name};
use mich_base::{Node, Nodes};
use rules_data::types::{OneArgument, TwoArguments};

// What must be known of a type to judge the types around it: how many nodes it has, 2,001 for all larger ones,
// and the attributes that arguments must have.
#[derive(Clone, Copy, Debug)]
pub(crate) struct Summary {
    pub(crate) nodes: u16,
    pub(crate) comparable: bool,
    pub(crate) passable: bool,
    pub(crate) big_value: bool,
}

// The summary of a type, and the location behind its node.
#[derive(Clone, Copy, Debug)]
pub(crate) struct Found {
    pub(crate) summary: Summary,
    pub(crate) next: u32,
}

// The nodes of a type over parts with so many.
fn nodes_over(a: u16, b: u16) -> u16
    ensures { result ≡ nodes_over a b }
{
    (u32::from(a) + u32::from(b) + 1).min(2001) as u16
}

fn of_simple() -> Summary
    ensures { result ≡ of_simple }
{
    Summary {
        nodes: 1,
        comparable: true,
        passable: true,
        big_value: true,
    }
}

fn of_operation() -> Summary
    ensures { result ≡ of_operation }
{
    Summary {
        nodes: 1,
        comparable: false,
        passable: false,
        big_value: false,
    }
}

impl Summary {
    // Whether it has the attribute that an argument must have.
    fn is_argument_of(self, former: OneArgument) -> bool
        ensures { result ≡ asked_of_argument former self }
    {
        match former {
            OneArgument::Option | OneArgument::List => true,
            OneArgument::Set | OneArgument::Ticket => self.comparable,
            OneArgument::Contract => self.passable,
        }
    }

    fn is_first_of(self, former: TwoArguments) -> bool
        ensures { result ≡ asked_of_first former self }
    {
        match former {
            TwoArguments::Or | TwoArguments::Lambda => true,
            TwoArguments::Map | TwoArguments::BigMap => self.comparable,
        }
    }

    fn is_second_of(self, former: TwoArguments) -> bool
        ensures { result ≡ asked_of_second former self }
    {
        match former {
            TwoArguments::Or | TwoArguments::Map | TwoArguments::Lambda => true,
            TwoArguments::BigMap => self.big_value,
        }
    }

    // The summary of the type that is made of it.
    fn under(self, former: OneArgument) -> Summary
        ensures { result ≡ of_argument former self }
    {
        let nodes = nodes_over(self.nodes, 0);
        match former {
            OneArgument::Option => Summary { nodes, ..self },
            OneArgument::List | OneArgument::Set => Summary {
                nodes,
                comparable: false,
                ..self
            },
            OneArgument::Contract => Summary {
                nodes,
                comparable: false,
                passable: true,
                big_value: false,
            },
            OneArgument::Ticket => Summary {
                nodes,
                comparable: false,
                passable: true,
                big_value: true,
            },
        }
    }

    // The summary of the pair of it and another.
    fn paired(self, other: Summary) -> Summary
        ensures { result ≡ of_pair self other }
    {
        Summary {
            nodes: nodes_over(self.nodes, other.nodes),
            comparable: self.comparable && other.comparable,
            passable: self.passable && other.passable,
            big_value: self.big_value && other.big_value,
        }
    }

    // The summary of the type that is made of it and another.
    fn with(self, former: TwoArguments, other: Summary) -> Summary
        ensures { result ≡ of_arguments former self other }
    {
        let both = self.paired(other);
        match former {
            TwoArguments::Or => both,
            TwoArguments::Map => Summary {
                comparable: false,
                ..both
            },
            TwoArguments::BigMap => Summary {
                comparable: false,
                big_value: false,
                ..both
            },
            TwoArguments::Lambda => Summary {
                comparable: false,
                passable: true,
                big_value: true,
                ..both
            },
        }
    }
}

// What the node at a location is as a type, or the location of its first fault.
#[cycle(scan)]
pub(crate) fn scan(node: &Node, at: u32) -> Result<Found, u32>
    requires { at + size (tree node.now) < 2 ^ 32 }
    ensures { IsScan (scanned at (tree node.now)) (at + size (tree node.now)) result }
{
    let Node::Prim(app) = node else {
        return Err(at);
    };
    match former_of_name(&app.name) {
        Former::Simple(_) => scan_bare(of_simple(), &app.args, at),
        Former::Operation => scan_bare(of_operation(), &app.args, at),
        Former::One(former) => scan_one(former, &app.args, at),
        Former::Two(former) => scan_two(former, &app.args, at),
        Former::Pair => scan_pair(&app.args, at),
        Former::NoType => Err(at),
    }
}

fn scan_bare(summary: Summary, args: &Nodes, at: u32) -> Result<Found, u32>
    requires { at + 1 + sizes (trees args.now) < 2 ^ 32 }
    ensures { IsScan (bare summary at (scans (at + 1) (trees args.now))) (at + 1 + sizes (trees args.now)) result }
{
    if !args.is_empty() {
        return Err(at);
    }
    Ok(Found {
        summary,
        next: at + 1,
    })
}

#[cycle(scan)]
fn scan_one(former: OneArgument, args: &Nodes, at: u32) -> Result<Found, u32>
    requires { at + 1 + sizes (trees args.now) < 2 ^ 32 }
    ensures { IsScan (over_one former at (scans (at + 1) (trees args.now))) (at + 1 + sizes (trees args.now)) result }
{
    let Some(argument) = args.only() else {
        return Err(at);
    };
    let part = scan(argument, at + 1)?;
    if !part.summary.is_argument_of(former) {
        return Err(at + 1);
    }
    Ok(Found {
        summary: part.summary.under(former),
        next: part.next,
    })
}

#[cycle(scan)]
fn scan_two(former: TwoArguments, args: &Nodes, at: u32) -> Result<Found, u32>
    requires { at + 1 + sizes (trees args.now) < 2 ^ 32 }
    ensures { IsScan (over_two former at (scans (at + 1) (trees args.now))) (at + 1 + sizes (trees args.now)) result }
{
    let Some((left, right)) = args.both() else {
        return Err(at);
    };
    let first = scan(left, at + 1)?;
    if !first.summary.is_first_of(former) {
        return Err(at + 1);
    }
    let second = scan(right, first.next)?;
    if !second.summary.is_second_of(former) {
        return Err(first.next);
    }
    Ok(Found {
        summary: first.summary.with(former, second.summary),
        next: second.next,
    })
}

#[cycle(scan)]
fn scan_pair(args: &Nodes, at: u32) -> Result<Found, u32>
    requires { at + 1 + sizes (trees args.now) < 2 ^ 32 }
    ensures { IsScan (over_pair at (scans (at + 1) (trees args.now))) (at + 1 + sizes (trees args.now)) result }
{
    let Some((first, second, rest)) = two_or_more(args) else {
        return Err(at);
    };
    let first = scan(first, at + 1)?;
    let mut whole = scan_next(first, second)?;
    for node in rest {
        whole = scan_next(whole, node)?;
    }
    Ok(whole)
}

// A pair with the node behind it as a further part.
#[cycle(scan)]
fn scan_next(whole: Found, node: &Node) -> Result<Found, u32>
    requires { whole.next + size (tree node.now) < 2 ^ 32 }
    ensures { IsScan (joined whole.summary (scanned whole.next (tree node.now))) (whole.next + size (tree node.now)) result }
{
    let part = scan(node, whole.next)?;
    Ok(Found {
        summary: whole.summary.paired(part.summary),
        next: part.next,
    })
}

// The first two nodes and those behind them. None where there are fewer.
fn two_or_more(nodes: &Nodes) -> Option<(&Node, &Node, &[Node])>
    ensures { MatchOption result (IsBelowTwo nodes.now) (λ p. nodes.now ≡ p.0.now ∷ p.1.now ∷ p.2.now) }
{
    match nodes.as_slice() {
        [first, second, rest @ ..] => Some((first, second, rest)),
        _ => None,
    }
}
