ghost use Rattle.std.specs.Prelude.{◌≡◌, ◌++◌, OnOk};
ghost use Rattle.std.specs.Fmt.{decimal};
ghost use Rattle.oi_text.specs.Pairs.{spelled, text_of};
ghost use Rattle.oi_target_login.specs.Answers.{address_keys, binary_text, declared_keys, group_keys, word_text};

use oi_base::{NoMemory, write_number};
use oi_names::Portal;
use oi_text::write_binary;

/// Appends one pair as text.
pub fn put(key: &[u8], value: &[u8], out: &mut Vec<u8>) -> Result<(), NoMemory>
    ensures { OnOk result (out.new.items ≡ out.old.items ++ spelled key.now value.now) }
{
    out.extend_from_slice(key)?;
    out.push(b'=')?;
    out.extend_from_slice(value)?;
    out.push(0)?;
    Ok(())
}

/// Appends a key with `Yes` or `No`.
pub fn put_word(key: &[u8], value: bool, out: &mut Vec<u8>) -> Result<(), NoMemory>
    ensures { OnOk result (out.new.items ≡ out.old.items ++ spelled key.now (word_text value)) }
{
    match value {
        true => put(key, b"Yes", out),
        false => put(key, b"No", out),
    }
}

/// Appends a key with a decimal number.
pub fn put_number(key: &[u8], value: u32, out: &mut Vec<u8>) -> Result<(), NoMemory>
    ensures { OnOk result (out.new.items ≡ out.old.items ++ spelled key.now (decimal value)) }
{
    out.extend_from_slice(key)?;
    out.push(b'=')?;
    write_number(value as u64, out)?;
    out.push(0)?;
    Ok(())
}

/// Appends a key with a binary value.
pub fn put_bytes(key: &[u8], bytes: &[u8], out: &mut Vec<u8>) -> Result<(), NoMemory>
    ensures { OnOk result (out.new.items ≡ out.old.items ++ spelled key.now (binary_text bytes.now)) }
{
    out.extend_from_slice(key)?;
    out.push(b'=')?;
    write_binary(bytes, out)?;
    out.push(0)?;
    Ok(())
}

/// Appends the portal group tag, which a discovery is not told.
pub fn put_group(tag: u16, discovers: bool, out: &mut Vec<u8>) -> Result<(), NoMemory>
    ensures { OnOk result (out.new.items ≡ out.old.items ++ text_of (group_keys tag discovers)) }
{
    match discovers {
        true => Ok(()),
        false => {
            put_number(b"TargetPortalGroupTag", tag as u32, out)?;
            Ok(())
        }
    }
}

/// Appends the length that the target takes, in the last response.
pub fn put_declared(last: bool, out: &mut Vec<u8>) -> Result<(), NoMemory>
    ensures { OnOk result (out.new.items ≡ out.old.items ++ text_of (declared_keys last)) }
{
    match last {
        false => Ok(()),
        true => {
            put_number(b"MaxRecvDataSegmentLength", 65_536, out)?;
            Ok(())
        }
    }
}

/// Appends the portal at which a target is found.
pub fn put_address(portal: &Portal, out: &mut Vec<u8>) -> Result<(), NoMemory>
    ensures { OnOk result (out.new.items ≡ out.old.items ++ text_of (address_keys portal.now)) }
{
    out.extend_from_slice(b"TargetAddress=")?;
    portal.write(out)?;
    out.push(0)?;
    Ok(())
}
