ghost use Rattle.std.specs.Prelude.{◌≡◌};
ghost use Rattle.oi_net.specs.Paths.{is_draft, is_name, is_step, names_record};

/// The byte with which the name of a text begins that is being written. No part of a record's path begins with it.
pub(crate) const DRAFT: char = '~';

/// Whether a record can have this path. Slashes part it; each part is the name of a file or folder, and so is not
/// empty, `.` or `..`, and has no byte 0. None begins with `~`, as the files do in which a text stands that is being
/// written.
pub fn names_record(path: &str) -> bool
    ensures { result ≡ names_record path.now }
{
    path.split('/').all(is_name)
}

pub(crate) fn is_name(part: &str) -> bool
    ensures { result ≡ is_name part.now }
{
    let part = part.as_bytes();
    !is_step(part) && !is_draft(part) && !part.contains(&0)
}

fn is_step(part: &[u8]) -> bool
    ensures { result ≡ is_step part.now }
{
    matches!(part, [] | [b'.'] | [b'.', b'.'])
}

fn is_draft(part: &[u8]) -> bool
    ensures { result ≡ is_draft part.now }
{
    matches!(part, [b'~', ..])
}
