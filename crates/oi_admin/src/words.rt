ghost use Rattle.std.specs.Prelude.{◌≡◌, true, false, Some, codes, map};
ghost use Rattle.std.specs.String.{string_bytes};
ghost use Rattle.oi_admin.specs.Commands.{AreWordsOf, IsCommand, IsFilter};
ghost use Rattle.oi_admin.specs.Readings.{IsReadBy};
ghost use Rattle.oi_admin.specs.Rows.{is_discovery, is_node, is_operation, is_session, is_update};

use crate::command::AdminCommand;
use crate::readings::{iface_of, read_filter, read_name, read_portal};
use crate::rows::{
    is_discovery, is_list, is_login, is_logout, is_node, is_operation, is_session, is_update,
};
use oi_base::Label;
use oi_nodedb::Filter;
use oi_settings::RecordKey;
use oi_words::{Options, WordsFault, read_options};
use std::alloc::Global;

/// Reads the words behind the tool's name.
///
/// # Errors
///
/// `Invalid` where they ask for no command: options that do not go together, one that stands twice, or a value outside
/// its grammar.
pub fn read_words(alloc: Global, words: &[String]) -> Result<AdminCommand, WordsFault>
    ensures { IsReadBy (AreWordsOf (map (λ s. string_bytes s) words.now)) result }
{
    match read_options(alloc, words) {
        Ok(options) => command_of(alloc, &options),
        Err(fault) => Err(fault),
    }
}

// The command that the options ask for.
fn command_of(alloc: Global, options: &Options) -> Result<AdminCommand, WordsFault>
    ensures { IsReadBy (IsCommand options.now) result }
{
    if is_discovery(options) {
        return discovery_of(alloc, options);
    }
    if is_session(options) {
        return Ok(AdminCommand::Sessions);
    }
    if !is_node(options) {
        return Err(WordsFault::Invalid);
    }
    if is_operation(b"new", options) {
        return new_of(alloc, options);
    }
    match read_filter(alloc, options) {
        Ok(filter) => filtered(alloc, options, filter),
        Err(fault) => Err(fault),
    }
}

fn discovery_of(alloc: Global, options: &Options) -> Result<AdminCommand, WordsFault>
    requires { is_discovery options.now ≡ true }
    ensures { IsReadBy (IsCommand options.now) result }
{
    match &options.portal {
        Some(text) => match read_portal(alloc, text) {
            Ok((portal, _)) => Ok(AdminCommand::Discover { portal }),
            Err(fault) => Err(fault),
        },
        None => Err(WordsFault::Invalid),
    }
}

fn new_of(alloc: Global, options: &Options) -> Result<AdminCommand, WordsFault>
    requires mode { is_node options.now ≡ true }
    requires operation { is_operation (codes "new") options.now ≡ true }
    ensures { IsReadBy (IsCommand options.now) result }
{
    match (&options.target, &options.portal) {
        (Some(target), Some(portal)) => new_at(alloc, options, target, portal),
        _ => Err(WordsFault::Invalid),
    }
}

// The same with the target and the portal that the options give.
fn new_at(
    alloc: Global,
    options: &Options,
    target: &Label,
    portal: &Label,
) -> Result<AdminCommand, WordsFault>
    requires mode { is_node options.now ≡ true }
    requires operation { is_operation (codes "new") options.now ≡ true }
    requires target { options.now.target ≡ Some target.now }
    requires portal { options.now.portal ≡ Some portal.now }
    ensures { IsReadBy (IsCommand options.now) result }
{
    let target = match read_name(alloc, target) {
        Ok(target) => target,
        Err(fault) => return Err(fault),
    };
    let (portal, tag) = match read_portal(alloc, portal) {
        Ok(place) => place,
        Err(fault) => return Err(fault),
    };
    match iface_of(alloc, &options.iface) {
        Ok(iface) => Ok(AdminCommand::New {
            key: RecordKey::new(target, portal, tag.unwrap_or(1), iface),
        }),
        Err(fault) => Err(fault),
    }
}

// The command over the records that the filter means.
fn filtered(alloc: Global, options: &Options, filter: Filter) -> Result<AdminCommand, WordsFault>
    requires mode { is_node options.now ≡ true }
    requires old { is_operation (codes "new") options.now ≡ false }
    requires filter { IsFilter options.now filter }
    ensures { IsReadBy (IsCommand options.now) result }
{
    if is_list(options) {
        return Ok(AdminCommand::List { filter });
    }
    if is_operation(b"show", options) {
        return Ok(AdminCommand::Show { filter });
    }
    if is_operation(b"delete", options) {
        return Ok(AdminCommand::Delete { filter });
    }
    if is_login(options) {
        return Ok(AdminCommand::Login { filter });
    }
    if is_logout(options) {
        return Ok(AdminCommand::Logout { filter });
    }
    if !is_update(options) {
        return Err(WordsFault::Invalid);
    }
    update_of(alloc, options, filter)
}

fn update_of(alloc: Global, options: &Options, filter: Filter) -> Result<AdminCommand, WordsFault>
    requires mode { is_node options.now ≡ true }
    requires operation { is_update options.now ≡ true }
    requires filter { IsFilter options.now filter }
    ensures { IsReadBy (IsCommand options.now) result }
{
    let (Some(name), Some(value)) = (&options.name, &options.value) else {
        return Err(WordsFault::Invalid);
    };
    let (Ok(name), Ok(value)) = (name.copy(alloc), value.copy(alloc)) else {
        return Err(WordsFault::Memory);
    };
    Ok(AdminCommand::Update {
        filter,
        name,
        value,
    })
}
