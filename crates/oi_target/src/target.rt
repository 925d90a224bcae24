ghost use Rattle.std.specs.Prelude.{◌≡◌};
ghost use Rattle.oi_target.specs.Targets.{stream_of};

use crate::config::TargetConfig;
use crate::feed::remove_link;
use crate::link::{Link, Standing};
use oi_base::{NoMemory, Series};
use oi_chap::{Purpose, words_for};
use oi_names::Portal;
use oi_sendtargets::Found;
use oi_stream::Splitter;
use oi_target_login::{ChapConfig, LoginRules, TargetLogin};
use oi_units::Units;
use rand_chacha::ChaCha20Rng;
use std::alloc::Global;
use std::marker::Model;

/// The data segment that a target takes.
pub(crate) const SEGMENT: u32 = 65_536;

/// A test target with all its connections.
#[derive(Debug, Drop)]
pub struct Target {
    pub(crate) alloc: Global,
    portal: Portal,
    pub(crate) rules: LoginRules,
    pub(crate) listing: Series<Found>,
    pub(crate) units: Units,
    pub(crate) words: ChaCha20Rng,
    pub(crate) handle: u16,
    pub(crate) links: Vec<Link>,
    pub(crate) broken: bool,
}

impl Model for Target {
    ghost use Rattle.oi_target.specs.Targets as specs;

    ghost Value = { specs.Target };

    ghost view = { λ t. record {
      portal = t.portal;
      rules = t.rules;
      listing = t.listing;
      units = t.units;
      words = t.words;
      handle = t.handle;
      links = t.links.items;
      broken = t.broken;
    } };
}

fn stream_of(chap: &Option<ChapConfig>) -> u64
    ensures { result ≡ stream_of chap.now }
{
    match chap {
        None => 0,
        Some(chap) => chap.key,
    }
}

impl Target {
    ghost use Rattle.std.specs.Prelude.{◌≤◌, IfOk, All, length};
    ghost use Rattle.oi_disk.specs.Disks.{least_disk, most_disk};
    ghost use Rattle.oi_target.specs.Feeding.{Connects};
    ghost use Rattle.oi_target.specs.Targets.{new_target, with_links, without};
    ghost use Rattle.oi_units.specs.Units.{most_units};

    /// A target to which nobody is connected: at most 8 logical units, of 8 to 65,536 blocks each.
    pub fn new(alloc: Global, config: TargetConfig) -> Result<Target, NoMemory>
        requires units { length config.blocks ≤ most_units }
        requires sizes { All (λ n. (least_disk ≤ n) × (n ≤ most_disk)) config.blocks }
        ensures { IfOk result (λ t. t ≡ new_target config) }
    {
        let units = Units::new(alloc, config.blocks.as_slice())?;
        let words = words_for(stream_of(&config.chap), Purpose::TargetChallenges);
        let TargetConfig {
            name,
            portal,
            tag,
            blocks: _,
            chap,
            listing,
            moved,
        } = config;
        Ok(Target {
            alloc,
            portal,
            rules: LoginRules {
                name,
                tag,
                chap,
                moved,
            },
            listing,
            units,
            words,
            handle: 1,
            links: Vec::new(alloc),
            broken: false,
        })
    }

    /// Where it listens.
    pub fn portal(&self) -> &Portal
        ensures { result.now ≡ self.now.portal }
    {
        &self.portal
    }

    /// A connection of this number was accepted. It has a number that was not given before.
    pub fn connected(&mut self, connection: u32) -> Result<(), NoMemory>
        ensures { Connects self.old connection result self.new }
    {
        if self.broken {
            return Err(NoMemory);
        }
        self.links.push(Link {
            number: connection,
            splitter: Splitter::new(self.alloc, SEGMENT),
            standing: Standing::LoggingIn(TargetLogin::new(self.alloc)),
        })?;
        Ok(())
    }

    /// A connection is no more. Its session ends, and its reservations stay.
    pub fn gone(&mut self, connection: u32)
        ensures { self.new ≡ with_links self.old (without connection self.old.links) }
    {
        remove_link(&mut self.links, connection);
    }

    /// A discovery is told these targets from now on.
    pub fn list(&mut self, listing: Series<Found>)
        ensures { self.new ≡ record self.old { listing = listing } }
    {
        self.listing = listing;
    }
}
