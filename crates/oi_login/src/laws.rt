ghost use Rattle.std.specs.Prelude.{◌≡◌, ◌≤◌, ◌++◌, length, ◌∷◌, [], Some, None, List, Result, Option};
ghost use Rattle.oi_base.specs.declared.login.LoginDone.{LoginDone};
ghost use Rattle.oi_base.specs.declared.login.Mutual.{Mutual};
ghost use Rattle.oi_names.specs.declared.portal.Portal.{Portal};
ghost use Rattle.oi_pdu.specs.declared.codec.Pdu.{Pdu};
ghost use Rattle.oi_login.specs.Exchanges.{AnswersAll, ComesTo, Hop, LoginExchange, LoginJourney, Outcome, Going, Done, Failed, hop_of, onward, sent_in};
ghost use Rattle.oi_login.specs.Mutual.{ShowsItself};
ghost use Rattle.oi_login.specs.States.{LoginState, first_request, opening, state_at};
ghost use Rattle.oi_login.specs.Turns.{Turns};
ghost use Rattle.oi_login.specs.declared.config.LoginAuth.{LoginAuth};
ghost use Rattle.oi_login.specs.declared.config.LoginConfig.{LoginConfig};
ghost use Rattle.oi_login.specs.declared.fault.LoginFault.{LoginFault};
ghost use Rattle.oi_login.specs.declared.login.LoginStep.{LoginStep};
ghost use Rattle.oi_login.specs.declared.moves.Turn.TheVariants.{Asks, Reaches, Fails};
ghost use Rattle.oi_login.specs.declared.progress.Progress.{Progress};

/// The machine is the login exchange: whatever responses come, the requests that it has sent and what it has answered are those
/// of the definition. Besides, how the exchange grows by one response, and that settings and responses determine it. The function
/// does nothing.
pub fn login_exact()
    ensures whole { (c : LoginConfig) (responses : List Pdu) (answers : List (Result LoginStep LoginFault)) (new : LoginState) (outcome : Outcome)
        → AnswersAll (state_at c (Some (opening c))) responses answers new → ComesTo new.at answers outcome
        → LoginExchange c responses (first_request c ∷ sent_in answers) outcome }
    ensures first { (c : LoginConfig) → LoginExchange c [] (first_request c ∷ []) (Going (opening c)) }
    ensures sends { (c : LoginConfig) (responses requests : List Pdu) (p q : Progress) (response request : Pdu)
        → LoginExchange c responses requests (Going p) → Turns c p response (Asks q request)
        → LoginExchange c (responses ++ response ∷ []) (requests ++ request ∷ []) (Going q) }
    ensures done { (c : LoginConfig) (responses requests : List Pdu) (p : Progress) (response : Pdu) (done : LoginDone)
        → LoginExchange c responses requests (Going p) → Turns c p response (Reaches done)
        → LoginExchange c (responses ++ response ∷ []) requests (Done done) }
    ensures failed { (c : LoginConfig) (responses requests : List Pdu) (p : Progress) (response : Pdu) (fault : LoginFault)
        → LoginExchange c responses requests (Going p) → Turns c p response (Fails fault)
        → LoginExchange c (responses ++ response ∷ []) requests (Failed fault) }
    ensures one { (c : LoginConfig) (responses requests others : List Pdu) (outcome other : Outcome)
        → LoginExchange c responses requests outcome → LoginExchange c responses others other → (requests ≡ others) × (outcome ≡ other) }
{}

/// With mutual CHAP a login is done only where the target has shown who it is: it gave its name, and the right response to this
/// initiator's challenge, in answer to the request with that challenge. The function does nothing.
pub fn target_shows_itself()
    ensures { (c : LoginConfig) (auth : LoginAuth) (wanted : Mutual) (responses requests : List Pdu) (done : LoginDone)
        → c.auth ≡ Some auth → auth.mutual ≡ Some wanted → LoginExchange c responses requests (Done done)
        → ShowsItself auth wanted requests responses }
{}

/// How a login journey grows: it begins as one exchange, its last exchange may go on, and where it goes on to another portal the
/// exchange there is a further hop. It has one to five hops. The function does nothing.
pub fn login_journeys_grow()
    ensures first { (c : LoginConfig) (from : Portal) (responses requests : List Pdu) (outcome : Outcome)
        → LoginExchange c responses requests outcome → LoginJourney c from (hop_of from responses requests ∷ []) outcome }
    ensures last { (c : LoginConfig) (from : Portal) (hops : List Hop) (hop : Hop) (responses requests : List Pdu) (before after : Outcome)
        → LoginJourney c from (hops ++ hop ∷ []) before → LoginExchange c responses requests after
        → LoginJourney c from (hops ++ hop_of hop.portal responses requests ∷ []) after }
    ensures further { (c : LoginConfig) (from next : Portal) (hops : List Hop) (responses requests : List Pdu) (before after : Outcome)
        → LoginJourney c from hops before → onward c hops before ≡ Some next → LoginExchange c responses requests after
        → LoginJourney c from (hops ++ hop_of next responses requests ∷ []) after }
    ensures bounds { (c : LoginConfig) (from : Portal) (hops : List Hop) (outcome : Outcome)
        → LoginJourney c from hops outcome → (1 ≤ length hops) × (length hops ≤ 5) }
{}
