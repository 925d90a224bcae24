ghost use Rattle.std.specs.Prelude.{◌≡◌, ◌||◌};
ghost use Rattle.oi_reserve.specs.Access.{form_allows, is_read, wish_of};

use oi_disk::Command;

/// What a command wants of a reserved unit.
#[derive(Clone, Copy, Debug, PartialEq, Eq)]
pub enum Wish {
    /// Nothing that a reservation keeps back.
    Free,
    Reads,
    Writes,
}

/// READ wants to read, WRITE and SYNCHRONIZE CACHE want to write.
pub fn wish_of(command: Command) -> Wish
    ensures { result ≡ wish_of command }
{
    match command {
        Command::Read { .. } => Wish::Reads,
        Command::Write { .. } | Command::Sync => Wish::Writes,
        Command::Ready | Command::Inquiry | Command::Capacity | Command::Unknown => Wish::Free,
    }
}

pub(crate) fn is_read(wish: Wish) -> bool
    ensures { result ≡ is_read wish }
{
    match wish {
        Wish::Reads => true,
        Wish::Free | Wish::Writes => false,
    }
}

pub(crate) fn form_allows(form: u8, read: bool, registered: bool) -> bool
    ensures { result ≡ form_allows form read registered }
{
    match form {
        1 => read,
        5 => read || registered,
        6 => registered,
        _ => false,
    }
}
