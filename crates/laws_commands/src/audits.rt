//! Laws of audits.
ghost use Rattle.laws_commands.specs.audits.Changes.{ReceiptsTellChanges};
ghost use Rattle.laws_commands.specs.audits.FileLogs.{FilesTellChanges};
ghost use Rattle.laws_commands.specs.audits.Identities.{LiteralsTellComparable, NodesTellTickets};
ghost use Rattle.laws_commands.specs.audits.Written.{TextsAreJudged};
ghost use Rattle.laws_commands.specs.audits.Follows.{ToldLinesFollow, ToldTicketsAreApart};
ghost use Rattle.laws_commands.specs.audits.Totals.{TotalsAreTold};
ghost use Rattle.laws_commands.specs.audits.Judged.{TicketLinesAgree, TicketsHaveLines, ToldLinesAgree};
ghost use Rattle.laws_commands.specs.audits.Receipts.{GroupLinesAreTold};
ghost use Rattle.laws_commands.specs.audits.Runs.{GoodRunsAgree, WorldsAreTold};
ghost use Rattle.laws_commands.specs.audits.Amounts.{ReceiptsHaveRanges};
ghost use Rattle.laws_commands.specs.audits.Files.{FilesEndGood, PlainRunsAgree};
ghost use Rattle.laws_commands.specs.audits.Plain.{MintedRunsAgree, PlainMintsSuffice};
ghost use Rattle.laws_commands.specs.audits.Agreement.{RunsAgree};
ghost use Rattle.laws_commands.specs.audits.States.{StateLinesAreTold};
ghost use Rattle.laws_commands.specs.audits.ToldLines.{ToldSupplyAgrees};
ghost use Rattle.laws_commands.specs.audits.Laws.{OneVerdict, SameNodes, PrintedLinesAreRead, LiteralsTellTickets};

/// A text has one verdict.
pub fn one_verdict()
    ensures { OneVerdict }
{}

/// Nodes, and tickets by their nodes, are told apart by their parts.
pub fn same_nodes()
    ensures { SameNodes }
{}

/// What is read of the printed line of a node that can be printed is that node.
pub fn printed_lines_are_read()
    ensures { PrintedLinesAreRead }
{}

/// The literal of a value tells the tickets in it, and no others (Octez "Tickets").
pub fn literals_tell_tickets()
    ensures { LiteralsTellTickets }
{}

/// A group adds to the log of tickets what its receipt tells, and nothing else.
pub fn receipts_tell_changes()
    ensures { ReceiptsTellChanges }
{}

/// The supply that is told of a run is the sum of what is told of its accounts, its contracts and the fees.
pub fn told_supply_agrees()
    ensures { ToldSupplyAgrees }
{}

/// The line of a group tells the changes of its receipt, and no others.
pub fn group_lines_are_told()
    ensures { GroupLinesAreTold }
{}

/// The lines of a world at its end tell its balances, its tickets and its sums.
pub fn state_lines_are_told()
    ensures { StateLinesAreTold }
{}

/// The log of the world at a file's end is what the receipts of its groups tell.
pub fn files_tell_changes()
    ensures { FilesTellChanges }
{}

/// The verdict on a text of printed nodes, whose lines can follow one another, is that on the lines.
pub fn texts_are_judged()
    ensures { TextsAreJudged }
{}

/// Comparable values are told apart by their literals.
pub fn literals_tell_comparable()
    ensures { LiteralsTellComparable }
{}

/// Tickets with comparable contents are told apart by the nodes that are printed of them.
pub fn nodes_tell_tickets()
    ensures { NodesTellTickets }
{}

/// The tickets that are told of a world with comparable contents are no two alike.
pub fn told_tickets_are_apart()
    ensures { ToldTicketsAreApart }
{}

/// The lines that are told of a run can follow one another, and the supply is the last of them.
pub fn told_lines_follow()
    ensures { ToldLinesFollow }
{}

/// Behind receipts that tell the log of a good world, as much is told of each ticket as was minted, burnt and is held.
pub fn totals_are_told()
    ensures { TotalsAreTold }
{}

/// The line of each ticket agrees with all that is told of the ticket, and what was minted is held or was burnt.
pub fn ticket_lines_agree()
    ensures { TicketLinesAgree }
{}

/// Each ticket of which something is told has a line.
pub fn tickets_have_lines()
    ensures { TicketsHaveLines }
{}

/// The verdict on the lines that are told of a run is that they agree.
pub fn told_lines_agree()
    ensures { ToldLinesAgree }
{}

/// All numbers of a world behind receipts are in their ranges.
pub fn worlds_are_told()
    ensures { WorldsAreTold }
{}

/// What is printed of a run agrees, where it ends in a good world with comparable contents and its nodes can be written.
pub fn good_runs_agree()
    ensures { GoodRunsAgree }
{}

/// All amounts in the receipt of a group are in their ranges.
pub fn receipts_have_ranges()
    ensures { ReceiptsHaveRanges }
{}

/// The world at a file's end is good, and the amounts in its receipts are in their ranges.
pub fn files_end_good()
    ensures { FilesEndGood }
{}

/// What is printed of a file that is applied to its end agrees, where the contents of its tickets are comparable and its nodes can
/// be written.
pub fn plain_runs_agree()
    ensures { PlainRunsAgree }
{}

/// Where all that was minted in a good world has comparable contents, so has all that is held or was burnt.
pub fn plain_mints_suffice()
    ensures { PlainMintsSuffice }
{}

/// What is printed of a file that is applied to its end agrees, where all that was minted has comparable contents and its nodes
/// can be written.
pub fn minted_runs_agree()
    ensures { MintedRunsAgree }
{}

/// What is printed of a file that is applied to its end agrees with its own numbers, where its nodes can be written.
pub fn runs_agree()
    ensures { RunsAgree }
{}
