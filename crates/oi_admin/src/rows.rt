ghost use Rattle.std.specs.Prelude.{◌≡◌, ◌||◌, codes};
ghost use Rattle.oi_admin.specs.Rows.{has_value, is_discovery, is_flagless, is_list, is_login, is_logout, is_node, is_operation, is_operationless, is_recordless, is_session, is_settingless, is_update};

use oi_base::Label;
use oi_words::Options;

// Whether the option has this value.
fn has_value(given: &Option<Label>, text: &[u8]) -> bool
    ensures { result ≡ has_value given.now text.now }
{
    match given {
        Some(value) => value.as_slice() == text,
        None => false,
    }
}

fn is_flagless(options: &Options) -> bool
    ensures { result ≡ is_flagless options.now }
{
    !options.login && !options.logout
}

fn is_settingless(options: &Options) -> bool
    ensures { result ≡ is_settingless options.now }
{
    options.name.is_none() && options.value.is_none()
}

fn is_operationless(options: &Options) -> bool
    ensures { result ≡ is_operationless options.now }
{
    options.operation.is_none() && is_settingless(options)
}

/// Whether the mode is that of records.
pub fn is_node(options: &Options) -> bool
    ensures { result ≡ is_node options.now }
{
    has_value(&options.mode, b"node") && options.discovery.is_none()
}

pub fn is_list(options: &Options) -> bool
    ensures { result ≡ is_list options.now }
{
    is_operationless(options) && is_flagless(options)
}

pub fn is_login(options: &Options) -> bool
    ensures { result ≡ is_login options.now }
{
    is_operationless(options) && options.login && !options.logout
}

pub fn is_logout(options: &Options) -> bool
    ensures { result ≡ is_logout options.now }
{
    is_operationless(options) && options.logout && !options.login
}

/// Whether the options ask for this operation, without a setting.
pub fn is_operation(operation: &[u8], options: &Options) -> bool
    ensures { result ≡ is_operation operation.now options.now }
{
    has_value(&options.operation, operation) && is_settingless(options) && is_flagless(options)
}

/// Whether the operation is an update.
pub fn is_update(options: &Options) -> bool
    ensures { result ≡ is_update options.now }
{
    has_value(&options.operation, b"update") && is_flagless(options)
}

fn is_recordless(options: &Options) -> bool
    ensures { result ≡ is_recordless options.now }
{
    options.target.is_none()
        && options.iface.is_none()
        && is_operationless(options)
        && is_flagless(options)
}

/// Whether the options ask for a discovery by SendTargets.
pub fn is_discovery(options: &Options) -> bool
    ensures { result ≡ is_discovery options.now }
{
    has_value(&options.mode, b"discovery") && is_send_targets(options) && is_recordless(options)
}

fn is_send_targets(options: &Options) -> bool
    ensures { result ≡ (has_value options.now.discovery (codes "sendtargets") || has_value options.now.discovery (codes "st")) }
{
    has_value(&options.discovery, b"sendtargets") || has_value(&options.discovery, b"st")
}

/// Whether the options ask for the sessions.
pub fn is_session(options: &Options) -> bool
    ensures { result ≡ is_session options.now }
{
    has_value(&options.mode, b"session")
        && options.discovery.is_none()
        && options.portal.is_none()
        && is_recordless(options)
}
