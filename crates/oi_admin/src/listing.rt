ghost use Rattle.std.specs.Prelude.{◌≡◌, ◌++◌, IfOk, OnOk};
ghost use Rattle.oi_nodedb.specs.Filters.{matching};
ghost use Rattle.oi_settings.specs.Texts.{line_text, lines_of};
ghost use Rattle.oi_admin.specs.Listings.{is_password, list_line, list_text, place_text, session_line, session_text, show_text, shown_pairs, shown_value, via_text};

use oi_base::{NoMemory, write_number};
use oi_names::{Portal, SessionInfo};
use oi_nodedb::{Filter, is_portal};
use oi_settings::{NodeRecord, RecordKey};
use std::alloc::Global;

/// The lines of the records that the filter means.
pub fn list_text(
    alloc: Global,
    records: &[NodeRecord],
    filter: &Filter,
) -> Result<Vec<u8>, NoMemory>
    ensures { IfOk result (λ t. t.items ≡ list_text (matching filter.now records.now)) }
{
    let mut text = Vec::new(alloc);
    for record in records {
        if filter.matches(record.key()) {
            append_list_line(record.key(), &mut text)?;
        }
    }
    Ok(text)
}

/// The settings of the records that the filter means, passwords masked.
pub fn show_text(
    alloc: Global,
    records: &[NodeRecord],
    filter: &Filter,
) -> Result<Vec<u8>, NoMemory>
    ensures { IfOk result (λ t. t.items ≡ show_text (matching filter.now records.now)) }
{
    let mut text = Vec::new(alloc);
    for record in records {
        if filter.matches(record.key()) {
            append_shown(record, &mut text)?;
        }
    }
    Ok(text)
}

/// The lines of the sessions.
pub fn session_text(alloc: Global, living: &[SessionInfo]) -> Result<Vec<u8>, NoMemory>
    ensures { IfOk result (λ t. t.items ≡ session_text living.now) }
{
    let mut text = Vec::new(alloc);
    for session in living {
        append_session(session, &mut text)?;
    }
    Ok(text)
}

fn append_list_line(key: &RecordKey, out: &mut Vec<u8>) -> Result<(), NoMemory>
    ensures { OnOk result (out.new.items ≡ out.old.items ++ list_line key.now) }
{
    append_place(&key.portal, key.tag, key.target.as_slice(), out)?;
    out.push(b'\n')?;
    Ok(())
}

// Appends `ADDRESS:PORT,TAG TARGET`.
fn append_place(portal: &Portal, tag: u16, target: &[u8], out: &mut Vec<u8>) -> Result<(), NoMemory>
    ensures { OnOk result (out.new.items ≡ out.old.items ++ place_text portal.now tag target.now) }
{
    portal.write(out)?;
    out.push(b',')?;
    write_number(tag as u64, out)?;
    out.push(b' ')?;
    out.extend_from_slice(target)?;
    Ok(())
}

fn append_session(session: &SessionInfo, out: &mut Vec<u8>) -> Result<(), NoMemory>
    ensures { OnOk result (out.new.items ≡ out.old.items ++ session_line session.now) }
{
    out.extend_from_slice(b"tcp: [")?;
    write_number(session.sid as u64, out)?;
    out.extend_from_slice(b"] ")?;
    append_place(
        &session.key.portal,
        session.tag,
        session.key.target.as_slice(),
        out,
    )?;
    append_via(session, out)?;
    out.push(b'\n')?;
    Ok(())
}

fn append_via(session: &SessionInfo, out: &mut Vec<u8>) -> Result<(), NoMemory>
    ensures { OnOk result (out.new.items ≡ out.old.items ++ via_text session.now) }
{
    if is_portal(&session.key.portal, &session.current) {
        return Ok(());
    }
    out.extend_from_slice(b" via ")?;
    session.current.write(out)
}

fn append_shown(node: &NodeRecord, out: &mut Vec<u8>) -> Result<(), NoMemory>
    ensures { OnOk result (out.new.items ≡ out.old.items ++ lines_of (shown_pairs node.now.pairs)) }
{
    for at in 0..node.count() {
        let (name, value) = node.pair(at);
        append_line(name, shown_value(name, value), out)?;
    }
    Ok(())
}

fn append_line(name: &[u8], value: &[u8], out: &mut Vec<u8>) -> Result<(), NoMemory>
    ensures { OnOk result (out.new.items ≡ out.old.items ++ line_text name.now value.now) }
{
    out.extend_from_slice(name)?;
    out.extend_from_slice(b" = ")?;
    out.extend_from_slice(value)?;
    out.push(b'\n')?;
    Ok(())
}

fn shown_value<'a>(name: &[u8], value: &'a [u8]) -> &'a [u8]
    ensures { result.now ≡ shown_value name.now value.now }
{
    if is_password(name) && !value.is_empty() {
        return b"********";
    }
    value
}

fn is_password(name: &[u8]) -> bool
    ensures { result ≡ is_password name.now }
{
    name == b"node.session.auth.password".as_slice()
        || name == b"node.session.auth.password_in".as_slice()
}
