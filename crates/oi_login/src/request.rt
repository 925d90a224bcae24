ghost use Rattle.std.specs.Prelude.{◌≡◌};
ghost use Rattle.oi_login.specs.Requests.{request_of};

use crate::progress::{Stage, next_number, stage_number};
use oi_base::{Blob, Serial, Tag};
use oi_pdu::{Header, LoginRequest, Pdu};

/// A request of a stage, with its T bit, its ExpStatSN and its text.
pub fn request_of(isid: [u8; 6], stage: Stage, transit: bool, exp_stat: Serial, text: Blob) -> Pdu
    ensures { result ≡ request_of isid stage transit exp_stat.0 text }
{
    let nsg = if transit { next_number(stage) } else { 0 };
    Pdu {
        head: Header::LoginRequest(LoginRequest {
            transit,
            more: false,
            csg: stage_number(stage),
            nsg,
            isid,
            tsih: 0,
            tag: Tag(0),
            cid: 0,
            cmdsn: Serial(1),
            exp_stat,
        }),
        payload: text,
    }
}
