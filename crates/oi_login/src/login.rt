use crate::config::LoginConfig;
use crate::fault::LoginFault;
use crate::keys::first_text;
use crate::moves::Turn;
use crate::progress::{Progress, Stage};
use crate::request::request_of;
use crate::turns;
use oi_base::{Blob, LoginDone, NoMemory, Serial, Series};
use oi_pdu::Pdu;
use std::alloc::Global;
use std::marker::Model;

/// What is to do after a response.
#[derive(Debug, PartialEq, Eq, Drop)]
pub enum LoginStep {
    /// Send this request, and wait for its response.
    Send(Pdu),
    /// The full feature phase is reached.
    Done(LoginDone),
}

/// A login of which the first request was sent.
#[derive(Debug, Drop)]
pub struct Login {
    alloc: Global,
    config: LoginConfig,
    progress: Option<Progress>,
}

impl Model for Login {
    ghost use Rattle.oi_login.specs.Configs.{IsSendable};
    ghost use Rattle.oi_login.specs.States.{LoginState, state_at};

    ghost Value = { LoginState };

    ghost view = { λ l. state_at l.config l.progress };

    ghost invariant = { λ l. IsSendable l.config };
}

impl Login {
    ghost use Rattle.std.specs.Prelude.{◌≡◌, Some, IfOk};
    ghost use Rattle.oi_login.specs.Configs.{IsValidConfig};
    ghost use Rattle.oi_pdu.specs.Wire.{Encodable};
    ghost use Rattle.oi_login.specs.States.{Answers, CanBeSent, first_request, opening, state_at};

    /// Begins a login, and answers the first request.
    pub fn start(alloc: Global, config: LoginConfig) -> Result<(Login, Pdu), NoMemory>
        requires { IsValidConfig config }
        ensures login { IfOk result (λ r. r.0 ≡ state_at config (Some (opening config))) }
        ensures request { IfOk result (λ r. r.1 ≡ first_request config) }
        ensures encodable { IfOk result (λ r. Encodable r.1) }
    {
        let transit = config.auth.is_none();
        let text = first_text(alloc, &config)?;
        let request = request_of(
            config.isid,
            Stage::Opening,
            transit,
            Serial(0),
            Blob::from_vec(text),
        );
        let progress = Progress {
            stage: Stage::Opening,
            transit,
            text: Blob::new(alloc),
            pairs: Series::new(alloc),
            turns: 0,
        };
        let login = Login {
            alloc,
            config,
            progress: Some(progress),
        };
        Ok((login, request))
    }

    /// Takes the response to the last request. After Done and after every fault the login is over.
    pub fn next(&mut self, response: &Pdu) -> Result<LoginStep, LoginFault>
        ensures answer { Answers self.old response.now result self.new }
        ensures encodable { IfOk result CanBeSent }
    {
        let Some(progress) = self.progress.take() else {
            return Err(LoginFault::Over);
        };
        match turns::take(self.alloc, &self.config, progress, response) {
            Ok(Turn::Asks { progress, request }) => {
                self.progress = Some(progress);
                Ok(LoginStep::Send(request))
            }
            Ok(Turn::Reaches(done)) => Ok(LoginStep::Done(done)),
            Ok(Turn::Fails(fault)) => Err(fault),
            Err(NoMemory) => Err(LoginFault::Memory),
        }
    }
}
