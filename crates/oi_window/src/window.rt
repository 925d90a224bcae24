use crate::serials::{before, raised};
use oi_base::Serial;

/// The numbers of commands (RFC 7143, section 4.2.2.1): the CmdSN of the next command, and ExpCmdSN and MaxCmdSN as the
/// target told them last.
#[derive(Clone, Copy, Debug, PartialEq, Eq)]
pub struct Window {
    next: Serial,
    expected: Serial,
    max: Serial,
}

impl Window {
    ghost use Rattle.std.specs.Prelude.{◌≡◌, IsTrue};
    ghost use Rattle.oi_window.specs.Numbering.{expected_of, is_open, max_of, next_of, window_advanced, window_after, window_at};

    /// The window at the beginning of a connection, where no command is told as received.
    pub fn at(next: Serial, max: Serial) -> Window
        ensures { result ≡ window_at next.0 max.0 }
    {
        Window {
            next,
            expected: next,
            max,
        }
    }

    /// The CmdSN of the next command.
    pub fn next(&self) -> Serial
        ensures { result.0 ≡ next_of self.now }
    {
        self.next
    }

    /// ExpCmdSN, the next number that the target expects.
    pub fn expected(&self) -> Serial
        ensures { result.0 ≡ expected_of self.now }
    {
        self.expected
    }

    /// MaxCmdSN, the last number that the target takes.
    pub fn max(&self) -> Serial
        ensures { result.0 ≡ max_of self.now }
    {
        self.max
    }

    /// Whether the target takes the next command.
    pub fn is_open(&self) -> bool
        ensures { result ≡ is_open self.now }
    {
        self.next == self.max || self.next.less(self.max)
    }

    /// Takes ExpCmdSN and MaxCmdSN of a PDU. Both are ignored where MaxCmdSN comes before ExpCmdSN - 1; else each
    /// number rises to the new one.
    pub fn update(&mut self, exp: Serial, max: Serial)
        ensures { self.new ≡ window_after exp.0 max.0 self.old }
    {
        if max.less(before(exp)) {
            return;
        }
        self.expected = raised(self.expected, exp);
        self.max = raised(self.max, max);
    }

    /// The next command has been sent.
    pub fn advance(&mut self)
        requires { IsTrue (is_open self.old) }
        ensures { self.new ≡ window_advanced self.old }
    {
        self.next = self.next.next();
    }
}
