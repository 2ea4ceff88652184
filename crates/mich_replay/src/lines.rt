// The lines that are written of refusals.
ghost use Rattle.std.specs.Prelude.{◌≡◌, IfOk, string_bytes};
ghost use Rattle.rules_files.specs.commands.Lines.{file_fault_name, usage_line};
ghost use Rattle.mich_replay.specs.View.{file_fault_seen};

use crate::outcome::FileFault;
use mich_answers::text_kind_name;
use std::alloc::{AllocError, Global};

/// The name of why a file is refused.
pub(crate) fn file_fault_name(fault: FileFault) -> &'static str
    ensures { result.now ≡ file_fault_name (file_fault_seen fault) }
{
    match fault {
        FileFault::Text(kind) => text_kind_name(kind),
        FileFault::BadStatement => "BadStatement",
        FileFault::BadOrder => "BadOrder",
        FileFault::BadCosts => "BadCosts",
        FileFault::RepeatedAccount => "RepeatedAccount",
        FileFault::SupplyLimit => "SupplyLimit",
    }
}

/// The line for words that are no command.
pub(crate) fn usage_line(alloc: Global) -> Result<String, AllocError>
    ensures { IfOk result (λ s. string_bytes s ≡ usage_line) }
{
    String::from_str(
        alloc,
        "usage: mich replay|check|encode|decode|pack|snapshot|certify|verify|audit FILE, or mich resume SNAP FILE, or mich generate N\n",
    )
}
