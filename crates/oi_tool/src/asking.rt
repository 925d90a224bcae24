ghost use Rattle.std.specs.Prelude.{◌≡◌, ◌↔◌, IfOk, IsTrue, false, map};
ghost use Rattle.std.specs.String.{string_bytes};
ghost use Rattle.oi_nodedb.specs.Answers.{IsSetting};
ghost use Rattle.oi_admin.specs.Commands.{AreWordsOf};
ghost use Rattle.oi_admin.specs.Readings.{IsReadBy};
ghost use Rattle.oi_tool.specs.Asking.{Ask, IsFit};

use oi_admin::{AdminCommand, read_words};
use oi_base::NoMemory;
use oi_settings::{is_open, takes_value};
use oi_words::WordsFault;
use std::alloc::Global;

/// The command that the words ask for, where the tool carries it out by itself.
pub fn read_command(alloc: Global, words: &[String]) -> Result<AdminCommand, WordsFault>
    ensures { IsReadBy (Ask (map (λ s. string_bytes s) words.now)) result }
{
    let command = match read_words(alloc, words) {
        Ok(command) => command,
        Err(fault) => return Err(fault),
    };
    match is_fit(alloc, &command) {
        Ok(true) => Ok(command),
        Ok(false) => Err(WordsFault::Invalid),
        Err(_) => Err(WordsFault::Memory),
    }
}

fn is_fit(alloc: Global, command: &AdminCommand) -> Result<bool, NoMemory>
    ensures { IfOk result (λ b. IsTrue b ↔ IsFit command.now) }
{
    match command {
        AdminCommand::Update {
            filter: _,
            name,
            value,
        } => is_setting(alloc, name.as_slice(), value.as_slice()),
        other => Ok(!other.needs_daemon()),
    }
}

fn is_setting(alloc: Global, name: &[u8], value: &[u8]) -> Result<bool, NoMemory>
    ensures { IfOk result (λ b. IsTrue b ↔ IsSetting name.now value.now) }
{
    Ok(is_open(name) && takes_value(alloc, name, value)?)
}
