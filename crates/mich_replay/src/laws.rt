// Laws of what a file comes to.
ghost use Rattle.std.specs.Prelude.{◌≡◌, ◌<◌, ◌++◌, ℕ, List, length, Option};
ghost use Rattle.rules_text.specs.nodes.Limits.{file_limit};
ghost use Rattle.rules_text.specs.nodes.Tree.{Tree};
ghost use Rattle.rules_files.specs.commands.Answers.{Answer};
ghost use Rattle.rules_files.specs.commands.Codec.{IsCodecAnswer};
ghost use Rattle.rules_files.specs.commands.Replay.{Replay, State, IsReplay};
ghost use Rattle.rules_files.specs.commands.Scripts.{IsCheckAnswer};
ghost use Rattle.rules_world.specs.world.Laws.{FailedGroupsMoveFees, RefusedGroupsMoveNothing};
ghost use Rattle.rules_world.specs.world.World.{World};
ghost use Rattle.rules_files.specs.commands.Commands.{Command, command_of};
ghost use Rattle.mich_replay.specs.Laws.{ConservesMutez, ConservesTickets, HasAnAnswer, HasOneAnswer, KeepsAnswer, NoGroupIsStuck};

use laws_world::groups::{failed_groups_move_fees, refused_groups_move_nothing};

/// What words ask for has one answer: whatever the files hold, no two statuses and texts are answers to it, and where its files are known,
/// and a snapshot that it loads is made of bytes, one is. So each file comes to something, and no workload is refused.
pub fn commands_have_one_answer()
    ensures once { (command : Command) → HasOneAnswer command }
    ensures some { (words : List (List ℕ)) → HasAnAnswer (command_of words) }
    ensures replays { (file : List ℕ) → (done : Replay) × IsReplay file done }
{}

/// Each group of a file has an outcome: code that was accepted is never stuck.
pub fn no_group_is_stuck()
    ensures { NoGroupIsStuck }
{}

/// Mutez is neither made nor lost: at the end of a file, balances, fees and burns are together what its accounts were granted.
pub fn mutez_is_conserved()
    ensures { ConservesMutez }
{}

/// Tickets are neither made nor lost but by minting and burning: at the end of a file, the owners of each hold what was minted of it
/// less what was burnt (Octez "Tickets").
pub fn tickets_are_conserved()
    ensures { ConservesTickets }
{}

/// A group is all or nothing: one that is refused changes nothing, and one with a content that failed moves its fees alone.
pub fn groups_are_all_or_nothing()
    ensures refused { RefusedGroupsMoveNothing }
    ensures failed { FailedGroupsMoveFees }
{
    refused_groups_move_nothing();
    failed_groups_move_fees();
}

/// A file that is longer than a file may be is refused, and its answer doesn't depend on the bytes behind the first one too many: it
/// may be cut there.
pub fn long_files_are_decided_by_their_fronts()
    ensures replay { (file more : List ℕ) (done : Replay) → file_limit < length file → IsReplay file done → IsReplay (file ++ more) done }
    ensures refused { (file : List ℕ) (done : Replay) (w : World) → file_limit < length file → IsReplay file done → done.ending ≡ State w → ⊥ }
    ensures codec { (command : Tree → Option Answer) (file more : List ℕ) (answer : Answer) → KeepsAnswer command file more answer }
    ensures check { (file more : List ℕ) (answer : Answer) → file_limit < length file → IsCheckAnswer file answer → IsCheckAnswer (file ++ more) answer }
    ensures status { (command : Tree → Option Answer) (file : List ℕ) (answer : Answer) → file_limit < length file
        → IsCodecAnswer command file answer → answer.status ≡ 2 }
    ensures check_status { (file : List ℕ) (answer : Answer) → file_limit < length file → IsCheckAnswer file answer → answer.status ≡ 2 }
{}
