use oi_outside::{LinkRead, LinkWrite, ReadTurn, WriteTurn};
use std::io::{ErrorKind, Read, Write};
use std::net::TcpStream;

/// The reading half of a connection. It does not tell its bytes.
#[derive(Drop)]
pub struct LoopRead {
    stream: TcpStream,
    faults: u64,
}

impl LoopRead {
    ghost use Rattle.std.specs.Prelude.{◌≡◌};

    pub(crate) fn new(stream: TcpStream) -> LoopRead
        ensures { result.faults ≡ 0 }
    {
        LoopRead { stream, faults: 0 }
    }
}

impl LinkRead for LoopRead {
    ghost use Rattle.std.specs.Prelude.{◌≡◌, ◌<◌, None, Option, length};
    ghost use Rattle.oi_outside.specs.ReadLinks.{ReadHalf, IsGotSize, IsReadCounted};

    ghost half = { λ _. None };

    ghost faults = { λ h. h.faults };

    fn read(&mut self, buf: &mut [u8]) -> ReadTurn
        requires { 0 < length buf.old }
        ensures size { IsGotSize result buf.new }
        ensures half { ◌≡◌ {A = Option ReadHalf} None None }
        ensures count { IsReadCounted result self.old.faults self.new.faults }
    {
        match self.stream.read(buf) {
            Ok(0) => ReadTurn::End,
            Ok(count) => ReadTurn::Got(count),
            Err(e) if e.kind() == ErrorKind::WouldBlock => ReadTurn::NotYet,
            Err(_) => {
                self.faults = self.faults.saturating_add(1);
                ReadTurn::Failed
            }
        }
    }
}

/// The writing half of a connection. It does not tell its bytes.
#[derive(Drop)]
pub struct LoopWrite {
    stream: TcpStream,
    faults: u64,
}

impl LoopWrite {
    ghost use Rattle.std.specs.Prelude.{◌≡◌};

    pub(crate) fn new(stream: TcpStream) -> LoopWrite
        ensures { result.faults ≡ 0 }
    {
        LoopWrite { stream, faults: 0 }
    }
}

impl LinkWrite for LoopWrite {
    ghost use Rattle.std.specs.Prelude.{◌≡◌, ◌<◌, None, Option, length};
    ghost use Rattle.oi_outside.specs.WriteLinks.{WriteHalf, IsTookSize, IsWriteCounted};

    ghost half = { λ _. None };

    ghost faults = { λ h. h.faults };

    fn write(&mut self, piece: &[u8]) -> WriteTurn
        requires { 0 < length piece.now }
        ensures size { IsTookSize result piece.now }
        ensures half { ◌≡◌ {A = Option WriteHalf} None None }
        ensures count { IsWriteCounted result self.old.faults self.new.faults }
    {
        match self.stream.write(piece) {
            Ok(count) if count > 0 => WriteTurn::Took(count),
            Err(e) if e.kind() == ErrorKind::WouldBlock => WriteTurn::NotYet,
            _ => {
                self.faults = self.faults.saturating_add(1);
                WriteTurn::Failed
            }
        }
    }
}
