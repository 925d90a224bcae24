ghost use Rattle.std.specs.Prelude.{◌≡◌, ◌<◌, ◌++◌, ℕ, List, None, Some, true, IfOk, OnOk, OnErr, length, option_copied, slice_get};
ghost use Rattle.std.specs.Fmt.{decimal};
ghost use Rattle.oi_settings.specs.Pairs.{AreOnce, put, value_of};
ghost use Rattle.oi_settings.specs.Schema.{Takes, fresh_pairs, initial_by, is_open, part_text, row_named, table};
ghost use Rattle.oi_settings.specs.Texts.{IsLine, IsNode, lines_of, text_of};

use crate::key::RecordKey;
use crate::line::append_line;
use crate::schema::{Part, Range, Schema, Setting, settings_of};
use crate::settings::Settings;
use oi_base::{Label, NoMemory, write_number};
use std::alloc::Global;
use std::marker::Model;

/// The record of one target at one portal: its key, and its settings with names unknown to this program among them, in
/// their order. Every setting of the schema is there, and has a value of its range.
#[derive(Drop)]
pub struct NodeRecord {
    key: RecordKey,
    settings: Settings,
}

impl Model for NodeRecord {
    ghost use Rattle.oi_settings.specs.Texts.{IsNode, Node};

    ghost Value = { Node };

    ghost view = { λ r. record { key = r.key; pairs = r.settings } };

    ghost invariant = { λ r. IsNode record { key = r.key; pairs = r.settings } };
}

impl NodeRecord {
    /// The record of a key with the initial value of every setting.
    pub fn fresh(alloc: Global, key: RecordKey) -> Result<NodeRecord, NoMemory>
        ensures { IfOk result (λ r. (r.key ≡ key) × (r.pairs ≡ fresh_pairs key)) }
    {
        let settings = fresh_settings(alloc, &key)?;
        Ok(NodeRecord { key, settings })
    }

    /// The record of a key and the settings that name it.
    pub(crate) fn from_parts(key: RecordKey, settings: Settings) -> NodeRecord
        requires { IsNode record { key = key; pairs = settings } }
        ensures { result ≡ record { key = key; pairs = settings } }
    {
        NodeRecord { key, settings }
    }

    pub fn key(&self) -> &RecordKey
        ensures key { result.now ≡ self.now.key }
        ensures well_formed { IsNode self.now }
    {
        &self.key
    }

    /// The value of a name.
    pub fn value(&self, name: &[u8]) -> Option<&Label>
        ensures value { option_copied result ≡ value_of name.now self.now.pairs }
        ensures well_formed { IsNode self.now }
    {
        self.settings.value(name)
    }

    /// How many names there are.
    pub fn count(&self) -> usize
        ensures { result ≡ length self.now.pairs }
    {
        self.settings.len()
    }

    /// The name and value at this place.
    pub fn pair(&self, at: usize) -> (&[u8], &[u8])
        requires { at < length self.now.pairs }
        ensures { slice_get self.now.pairs at ≡ Some (result.0.now, result.1.now) }
    {
        self.settings.pair(at)
    }

    /// Gives a setting another value. `is_open` tests the name and `takes_value` the value.
    pub fn set(&mut self, name: Label, value: Label) -> Result<(), NoMemory>
        requires open { is_open name ≡ true }
        requires taken { Takes table name value }
        ensures ok { OnOk result (self.new ≡ record { key = self.old.key; pairs = put name value self.old.pairs }) }
        ensures err { OnErr result (self.new ≡ self.old) }
    {
        self.settings.put(name.into_vec(), value)
    }

    /// Gives a name that no setting has this value.
    pub fn mark(&mut self, name: Label, value: Label) -> Result<(), NoMemory>
        requires line { IsLine name value }
        requires unknown { row_named name table ≡ None }
        ensures ok { OnOk result (self.new ≡ record { key = self.old.key; pairs = put name value self.old.pairs }) }
        ensures err { OnErr result (self.new ≡ self.old) }
    {
        self.settings.put(name.into_vec(), value)
    }

    pub fn copy(&self, alloc: Global) -> Result<NodeRecord, NoMemory>
        ensures { IfOk result (λ r. r ≡ self.now) }
    {
        let settings = copied(alloc, &self.settings)?;
        Ok(NodeRecord {
            key: self.key.copy(alloc)?,
            settings,
        })
    }

    /// Appends the record's text.
    pub fn write_text(&self, out: &mut Vec<u8>) -> Result<(), NoMemory>
        ensures ok { OnOk result (out.new.items ≡ out.old.items ++ text_of self.now.pairs) }
        ensures err { OnErr result (out.new.items ≡ out.old.items) }
    {
        let start = out.len();
        let done = append_text(&self.settings, out);
        if done.is_err() {
            out.truncate(start);
        }
        done
    }
}

fn fresh_settings(alloc: Global, key: &RecordKey) -> Result<Settings, NoMemory>
    ensures { IfOk result (λ ps. ps ≡ fresh_pairs key.now) }
{
    let mut fresh = Settings::new(alloc);
    for setting in settings_of(Schema::Second) {
        put_initial(alloc, setting, key, &mut fresh)?;
    }
    Ok(fresh)
}

fn put_initial(
    alloc: Global,
    setting: &Setting,
    key: &RecordKey,
    fresh: &mut Settings,
) -> Result<(), NoMemory>
    ensures { OnOk result (fresh.new ≡ put setting.now.name.now (initial_by setting.now.range setting.now.initial.now key.now) fresh.old) }
{
    let name = Vec::from_slice(alloc, setting.name)?;
    fresh.put(name, initial_value(alloc, setting, key)?)
}

fn initial_value(alloc: Global, setting: &Setting, key: &RecordKey) -> Result<Label, NoMemory>
    ensures { IfOk result (λ v. v ≡ initial_by setting.now.range setting.now.initial.now key.now) }
{
    match setting.range {
        Range::OfKey(part) => part_text(alloc, part, key),
        _ => Label::from_slice(alloc, setting.initial),
    }
}

fn part_text(alloc: Global, part: Part, key: &RecordKey) -> Result<Label, NoMemory>
    ensures { IfOk result (λ v. v ≡ part_text part key.now) }
{
    match part {
        Part::Target => Label::from_slice(alloc, key.target.as_slice()),
        Part::Tag => decimal(alloc, key.tag),
        Part::Address => key.portal.address.copy(alloc),
        Part::Port => decimal(alloc, key.portal.port),
        Part::Interface => key.iface.copy(alloc),
    }
}

fn decimal(alloc: Global, number: u16) -> Result<Label, NoMemory>
    ensures { IfOk result (λ v. v ≡ decimal number) }
{
    let mut text = Vec::new(alloc);
    write_number(number as u64, &mut text)?;
    Ok(Label::from_vec(text))
}

fn copied(alloc: Global, settings: &Settings) -> Result<Settings, NoMemory>
    requires { AreOnce settings.now }
    ensures { IfOk result (λ ps. ps ≡ settings.now) }
{
    let mut copy = Settings::new(alloc);
    for at in 0..settings.len() {
        let (name, value) = settings.pair(at);
        let name = Vec::from_slice(alloc, name)?;
        copy.put(name, Label::from_slice(alloc, value)?)?;
    }
    Ok(copy)
}

// Appends the text of the settings; where it fails, a part of it.
fn append_text(settings: &Settings, out: &mut Vec<u8>) -> Result<(), NoMemory>
    ensures ok { OnOk result (out.new.items ≡ out.old.items ++ text_of settings.now) }
    ensures err { OnErr result ((more : List ℕ) × (out.new.items ≡ out.old.items ++ more)) }
{
    out.extend_from_slice(b"# BEGIN RECORD 2\n")?;
    append_lines(settings, out)?;
    out.extend_from_slice(b"# END RECORD\n")?;
    Ok(())
}

fn append_lines(settings: &Settings, out: &mut Vec<u8>) -> Result<(), NoMemory>
    ensures ok { OnOk result (out.new.items ≡ out.old.items ++ lines_of settings.now) }
    ensures err { OnErr result ((more : List ℕ) × (out.new.items ≡ out.old.items ++ more)) }
{
    for at in 0..settings.len() {
        let (name, value) = settings.pair(at);
        match append_line(name, value, out) {
            Ok(()) => {}
            Err(fault) => return Err(fault),
        }
    }
    Ok(())
}
