use oi_base::Label;
use oi_names::Portal;
use oi_nodedb::Filter;
use oi_settings::RecordKey;

/// What the words of iscsiadm ask for. A filter names the records that are meant.
#[derive(Debug, Drop)]
pub enum AdminCommand {
    /// `-m discovery -t sendtargets`: asks the portal for its targets, and makes a record of each.
    Discover {
        portal: Portal,
    },
    /// `-m node`: a line for each record.
    List {
        filter: Filter,
    },
    /// `-o show`: the settings of each record, passwords masked.
    Show {
        filter: Filter,
    },
    /// `-o update`: gives each record this value of the name.
    Update {
        filter: Filter,
        name: Label,
        value: Label,
    },
    /// `-o delete`: takes each record away.
    Delete {
        filter: Filter,
    },
    /// `-o new`: makes a record, unless there is one.
    New {
        key: RecordKey,
    },
    /// `-l`: logs in by each record.
    Login {
        filter: Filter,
    },
    /// `-u`: logs out the sessions of each record.
    Logout {
        filter: Filter,
    },
    /// `-m session`: a line for each living session.
    Sessions,
}

impl AdminCommand {
    ghost use Rattle.std.specs.Prelude.{◌≡◌};
    ghost use Rattle.oi_admin.specs.Applies.{needs_daemon};

    /// Whether only a running daemon carries the command out: it discovers, logs in or logs out.
    pub fn needs_daemon(&self) -> bool
        ensures { result ≡ needs_daemon self.now }
    {
        match self {
            AdminCommand::Discover { portal: _ } => true,
            AdminCommand::Login { filter: _ } => true,
            AdminCommand::Logout { filter: _ } => true,
            _ => false,
        }
    }
}
