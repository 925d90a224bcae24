ghost use Rattle.std.specs.Prelude.{◌≡◌, ◌+◌, ◌≤◌, length};
ghost use Rattle.oi_disk.specs.Commands.{long_at};
ghost use Rattle.oi_reserve.specs.Orders.{action_of, is_form, order_of, suits};

/// The service action of PERSISTENT RESERVE OUT.
#[derive(Clone, Copy, Debug, PartialEq, Eq)]
pub enum Action {
    Register,
    Reserve,
    Release,
    Clear,
    Preempt,
    /// REGISTER AND IGNORE EXISTING KEY.
    RegisterAnyway,
}

/// A PERSISTENT RESERVE OUT that can be judged: the action, the type of reservation, and the keys of its parameters.
#[derive(Clone, Copy, Debug, PartialEq, Eq)]
pub struct Order {
    pub action: Action,
    pub form: u8,
    pub key: u64,
    pub new_key: u64,
}

const WRONG_LENGTH: u8 = 0x1a;

pub(crate) const BAD_FIELD: u8 = 0x24;

pub(crate) const BAD_PARAMETER: u8 = 0x26;

/// The order of a CDB and its parameters, or the additional sense code of its refusal.
pub(crate) fn read_order(cdb: &[u8; 16], payload: &[u8]) -> Result<Order, u8>
    ensures { result ≡ order_of cdb.now payload.now }
{
    let stated = u32::from_be_bytes([cdb[5], cdb[6], cdb[7], cdb[8]]);
    if stated != 24 || payload.len() != 24 {
        return Err(WRONG_LENGTH);
    }
    let Some(action) = action_of(cdb[1]) else {
        return Err(BAD_FIELD);
    };
    if cdb[2] / 16 != 0 || !suits(action, cdb[2] % 16) {
        return Err(BAD_FIELD);
    }
    if payload[20] != 0 {
        return Err(BAD_PARAMETER);
    }
    Ok(Order {
        action,
        form: cdb[2] % 16,
        key: key_at(payload, 0),
        new_key: key_at(payload, 8),
    })
}

fn key_at(payload: &[u8], k: usize) -> u64
    requires { k + 8 ≤ length payload.now }
    ensures { result ≡ long_at payload.now k }
{
    u64::from_be_bytes([
        payload[k],
        payload[k + 1],
        payload[k + 2],
        payload[k + 3],
        payload[k + 4],
        payload[k + 5],
        payload[k + 6],
        payload[k + 7],
    ])
}

fn action_of(byte: u8) -> Option<Action>
    ensures { result ≡ action_of byte }
{
    match byte {
        0 => Some(Action::Register),
        1 => Some(Action::Reserve),
        2 => Some(Action::Release),
        3 => Some(Action::Clear),
        4 => Some(Action::Preempt),
        6 => Some(Action::RegisterAnyway),
        _ => None,
    }
}

fn suits(action: Action, form: u8) -> bool
    ensures { result ≡ suits action form }
{
    match action {
        Action::Register | Action::RegisterAnyway | Action::Clear => true,
        Action::Reserve | Action::Release | Action::Preempt => is_form(form),
    }
}

fn is_form(form: u8) -> bool
    ensures { result ≡ is_form form }
{
    form == 1 || form == 3 || form == 5 || form == 6
}
