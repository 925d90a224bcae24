ghost use Rattle.std.specs.Prelude.{◌≡◌, map, option_copied, option_map, bytes_eq};
ghost use Rattle.std.specs.List.{find};
ghost use Rattle.oi_settings.specs.Schema.{is_of_key, is_open, row_named, row_of};
ghost use Rattle.oi_settings.specs.Texts.{rows_of};

/// The part of a record's key that a setting names.
#[derive(Clone, Copy, Debug, PartialEq, Eq)]
pub enum Part {
    Target,
    Tag,
    Address,
    Port,
    Interface,
}

/// The values that a setting may have.
#[derive(Clone, Copy, Debug, PartialEq, Eq)]
pub enum Range {
    /// A part of the record's key.
    OfKey(Part),
    /// A decimal number.
    Number { low: u32, high: u32 },
    /// `-1`, or a decimal number from 0.
    NumberOrNever { high: u32 },
    /// `Yes` or `No`.
    YesNo,
    /// `manual` or `automatic`.
    Startup,
    /// `None` or `CHAP`.
    Method,
    /// At most 255 bytes, none of them zero or a line feed.
    Credential,
}

/// One setting: its name, its value in a fresh record, and the values that it may have. The text of a part of the key
/// comes from the key.
#[derive(Clone, Copy)]
pub struct Setting {
    pub name: &'static [u8],
    pub initial: &'static [u8],
    pub range: Range,
}

/// The form of a record's text, which its first line tells. Texts of both are read, and those of the second one are
/// written.
#[derive(Clone, Copy, Debug, PartialEq, Eq)]
pub enum Schema {
    First,
    Second,
}

/// Every setting, in the order of a fresh record. The first schema lacks the last one.
static SETTINGS: [Setting; 30] = [
    Setting {
        name: b"node.name",
        initial: b"",
        range: Range::OfKey(Part::Target),
    },
    Setting {
        name: b"node.tpgt",
        initial: b"",
        range: Range::OfKey(Part::Tag),
    },
    Setting {
        name: b"node.conn[0].address",
        initial: b"",
        range: Range::OfKey(Part::Address),
    },
    Setting {
        name: b"node.conn[0].port",
        initial: b"",
        range: Range::OfKey(Part::Port),
    },
    Setting {
        name: b"iface.iscsi_ifacename",
        initial: b"",
        range: Range::OfKey(Part::Interface),
    },
    Setting {
        name: b"node.startup",
        initial: b"manual",
        range: Range::Startup,
    },
    Setting {
        name: b"node.session.auth.authmethod",
        initial: b"None",
        range: Range::Method,
    },
    Setting {
        name: b"node.session.auth.username",
        initial: b"",
        range: Range::Credential,
    },
    Setting {
        name: b"node.session.auth.password",
        initial: b"",
        range: Range::Credential,
    },
    Setting {
        name: b"node.session.auth.username_in",
        initial: b"",
        range: Range::Credential,
    },
    Setting {
        name: b"node.session.auth.password_in",
        initial: b"",
        range: Range::Credential,
    },
    Setting {
        name: b"node.session.timeo.replacement_timeout",
        initial: b"120",
        range: Range::NumberOrNever { high: 86_400 },
    },
    Setting {
        name: b"node.conn[0].timeo.login_timeout",
        initial: b"15",
        range: Range::Number { low: 1, high: 3600 },
    },
    Setting {
        name: b"node.conn[0].timeo.logout_timeout",
        initial: b"15",
        range: Range::Number { low: 1, high: 3600 },
    },
    Setting {
        name: b"node.conn[0].timeo.noop_out_interval",
        initial: b"5",
        range: Range::Number { low: 0, high: 3600 },
    },
    Setting {
        name: b"node.conn[0].timeo.noop_out_timeout",
        initial: b"5",
        range: Range::Number { low: 1, high: 3600 },
    },
    Setting {
        name: b"node.session.err_timeo.abort_timeout",
        initial: b"15",
        range: Range::Number { low: 1, high: 3600 },
    },
    Setting {
        name: b"node.session.err_timeo.lu_reset_timeout",
        initial: b"30",
        range: Range::Number { low: 1, high: 3600 },
    },
    Setting {
        name: b"node.session.err_timeo.tgt_reset_timeout",
        initial: b"30",
        range: Range::Number { low: 1, high: 3600 },
    },
    Setting {
        name: b"node.session.cmds_max",
        initial: b"128",
        range: Range::Number { low: 1, high: 2048 },
    },
    Setting {
        name: b"node.session.queue_depth",
        initial: b"32",
        range: Range::Number { low: 1, high: 1024 },
    },
    Setting {
        name: b"node.session.iscsi.InitialR2T",
        initial: b"No",
        range: Range::YesNo,
    },
    Setting {
        name: b"node.session.iscsi.ImmediateData",
        initial: b"Yes",
        range: Range::YesNo,
    },
    Setting {
        name: b"node.session.iscsi.FirstBurstLength",
        initial: b"262144",
        range: Range::Number {
            low: 512,
            high: 16_777_215,
        },
    },
    Setting {
        name: b"node.session.iscsi.MaxBurstLength",
        initial: b"16776192",
        range: Range::Number {
            low: 512,
            high: 16_777_215,
        },
    },
    Setting {
        name: b"node.session.iscsi.DefaultTime2Wait",
        initial: b"2",
        range: Range::Number { low: 0, high: 3600 },
    },
    Setting {
        name: b"node.session.iscsi.DefaultTime2Retain",
        initial: b"0",
        range: Range::Number { low: 0, high: 3600 },
    },
    Setting {
        name: b"node.session.iscsi.MaxOutstandingR2T",
        initial: b"1",
        range: Range::Number {
            low: 1,
            high: 65_535,
        },
    },
    Setting {
        name: b"node.conn[0].iscsi.MaxRecvDataSegmentLength",
        initial: b"262144",
        range: Range::Number {
            low: 512,
            high: 262_144,
        },
    },
    Setting {
        name: b"node.session.oi.count_disrupted",
        initial: b"Yes",
        range: Range::YesNo,
    },
];

/// The settings that the texts of a schema have.
pub fn settings_of(schema: Schema) -> &'static [Setting]
    ensures { map row_of result.now ≡ rows_of schema }
{
    let all = every_setting();
    match schema {
        Schema::First => &all[..29],
        Schema::Second => all,
    }
}

fn every_setting() -> &'static [Setting]
    ensures { map row_of result.now ≡ rows_of Schema.Second }
{
    &SETTINGS
}

/// The setting of this name.
pub fn setting_named<'a>(name: &[u8], settings: &'a [Setting]) -> Option<&'a Setting>
    ensures { option_map row_of (option_copied result) ≡ row_named name.now (map row_of settings.now) }
{
    first_named(name, settings)
}

fn first_named<'a>(name: &[u8], settings: &'a [Setting]) -> Option<&'a Setting>
    ensures { option_copied result ≡ find (λ s. bytes_eq s.name.now name.now) settings.now }
{
    settings.iter().find(|setting| setting.name == name)
}

/// Whether the name is that of a setting that can be updated, and not one that comes from the key.
pub fn is_open(name: &[u8]) -> bool
    ensures { result ≡ is_open name.now }
{
    match setting_named(name, every_setting()) {
        Some(setting) => !is_of_key(setting.range),
        None => false,
    }
}

fn is_of_key(range: Range) -> bool
    ensures { result ≡ is_of_key range }
{
    matches!(range, Range::OfKey(_))
}
