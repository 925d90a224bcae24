ghost use Rattle.std.specs.Prelude.{◌≡◌, ◌<◌, ◌≤◌, ◌-◌, ◌%◌};
ghost use Rattle.oi_base.specs.TagLayout.{command_tag, kind_of, management_tag};

/// An initiator task tag. Bits 28 to 31 hold the age of the connection, so that a tag comes again only after sixteen
/// logins; bit 27 marks the tags of management PDUs.
#[derive(Clone, Copy, Debug, PartialEq, Eq)]
pub struct Tag(pub u32);

/// What a tag names.
#[derive(Clone, Copy, Debug, PartialEq, Eq)]
pub enum TagKind {
    /// ffffffff, which names no task (RFC 7143, section 11.2.1.8).
    Reserved,
    /// The tag of a SCSI command.
    Command { age: u8, index: u16 },
    /// The tag of a task management, NOP-Out or Logout request.
    Management { age: u8, n: u32 },
    /// A value that this initiator gives to nothing.
    Other,
}

impl Tag {
    /// ffffffff, which names no task.
    pub const RESERVED: Tag = Tag(0xffff_ffff);

    /// The tag of the command with this index in the pool of tags.
    pub fn command(age: u8, index: u16) -> Tag
        requires age { age < 16 }
        requires index { index < 2048 }
        ensures { result.0 ≡ command_tag age index }
    {
        Tag(age as u32 * 0x1000_0000 + index as u32)
    }

    /// The tag of the management PDU with this number on its connection.
    pub fn management(age: u8, n: u32) -> Tag
        requires age { age < 16 }
        requires number { n < 1000000 }
        ensures { result.0 ≡ management_tag age n }
    {
        Tag(age as u32 * 0x1000_0000 + 0x0800_0000 + n)
    }

    /// What this tag names.
    pub fn kind(self) -> TagKind
        ensures { result ≡ kind_of self.0 }
    {
        if self.0 == 0xffff_ffff {
            return TagKind::Reserved;
        }
        let age = (self.0 / 0x1000_0000) as u8;
        let low = self.0 % 0x1000_0000;
        if low < 2048 {
            TagKind::Command {
                age,
                index: low as u16,
            }
        } else if 0x0800_0000 <= low && low < 0x0800_0000 + 1_000_000 {
            TagKind::Management {
                age,
                n: low - 0x0800_0000,
            }
        } else {
            TagKind::Other
        }
    }
}

/// The age of the connection with this generation (the number of the session's login, counted from 1), which the tags
/// of that connection carry.
pub fn age_of(generation: u64) -> u8
    requires { 1 ≤ generation }
    ensures { result ≡ (generation - 1) % 16 }
{
    ((generation - 1) % 16) as u8
}
