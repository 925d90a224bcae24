use crate::answer::{Answer, Verdict};
use crate::config::LoginRules;
use crate::progress::Progress;
use crate::turns::turned;
use oi_base::{NoMemory, Serial};
use oi_pdu::{Pdu, write_pdu};
use rand_chacha::ChaCha20Rng;
use std::alloc::Global;
use std::marker::Model;
use std::mem;

/// The target's side of the login of one connection.
#[derive(Debug, Drop)]
pub struct TargetLogin {
    alloc: Global,
    progress: Progress,
}

impl Model for TargetLogin {
    ghost use Rattle.oi_target_login.specs.declared.progress.Progress.{Progress};

    ghost Value = { Progress };

    ghost view = { λ l. l.progress };
}

impl TargetLogin {
    ghost use Rattle.std.specs.Prelude.{◌≡◌, ◌++◌, IfOk, OnErr, OnOk};
    ghost use Rattle.std.specs.List.{flat_map};
    ghost use Rattle.oi_pdu.specs.Wire.{encoding};
    ghost use Rattle.oi_target_login.specs.Grown.{IsGrown};
    ghost use Rattle.oi_target_login.specs.Logins.{fresh, turned};
    ghost use Rattle.oi_target_login.specs.Runs.{pdus_of};

    /// A login of which nothing was said. StatSN begins at 1.
    pub fn new(alloc: Global) -> TargetLogin
        ensures { result ≡ fresh (record { 0 = 1 }) }
    {
        TargetLogin {
            alloc,
            progress: Progress::fresh(alloc, Serial(1)),
        }
    }

    /// What becomes of one PDU. `handle` is that of a session that is opened, and challenges are drawn from `words`.
    pub fn serve(
        &mut self,
        rules: &LoginRules,
        handle: u16,
        words: &mut ChaCha20Rng,
        request: &Pdu,
        out: &mut Vec<u8>,
    ) -> Result<Verdict, NoMemory>
        ensures progress { OnOk result (self.new ≡ (turned rules.now handle self.old request.now words.old).answer.progress) }
        ensures words { OnOk result (words.new ≡ (turned rules.now handle self.old request.now words.old).words) }
        ensures out { OnOk result (out.new.items ≡ out.old.items ++ flat_map encoding (pdus_of (turned rules.now handle self.old request.now words.old).answer.pdu)) }
        ensures verdict { IfOk result (λ v. v ≡ (turned rules.now handle self.old request.now words.old).answer.verdict) }
        ensures kept { OnErr result (IsGrown out.old.items out.new.items) }
    {
        let fresh = Progress::fresh(self.alloc, self.progress.stat);
        let progress = mem::replace(&mut self.progress, fresh);
        let Answer {
            progress,
            pdu,
            verdict,
        } = turned(self.alloc, rules, handle, progress, request, words)?;
        self.progress = progress;
        if let Some(pdu) = pdu {
            write_pdu(&pdu, out)?;
        }
        Ok(verdict)
    }
}
