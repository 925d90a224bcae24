ghost use Rattle.std.specs.Prelude.{◌≡◌};
ghost use Rattle.oi_target_login.specs.Logins.{next_stat, response};

use crate::status::Status;
use oi_base::{Blob, Serial};
use oi_pdu::{Header, LoginRequest, LoginResponse, Pdu};

/// A request, and what its response needs besides.
#[derive(Clone, Copy, Debug, PartialEq, Eq)]
pub struct Call {
    pub head: LoginRequest,
    /// The StatSN of the response.
    pub stat: Serial,
    /// The requests before this one.
    pub turns: u32,
    /// The handle of a session that is opened.
    pub handle: u16,
}

impl Call {
    /// The StatSN behind that of the response.
    pub fn next_stat(self) -> Serial
        ensures { result ≡ next_stat self }
    {
        self.stat.next()
    }

    /// The response (RFC 7143, section 11.13).
    pub fn response(self, status: Status, transit: bool, tsih: u16, text: Blob) -> Pdu
        ensures { result ≡ response self status transit tsih text }
    {
        let head = self.head;
        Pdu {
            head: Header::LoginResponse(LoginResponse {
                transit,
                more: false,
                csg: head.csg,
                nsg: if transit { head.nsg } else { 0 },
                isid: head.isid,
                tsih,
                tag: head.tag,
                stat: self.stat,
                exp: head.cmdsn,
                max: Serial(head.cmdsn.0.wrapping_add(31)),
                class: status.class,
                detail: status.detail,
            }),
            payload: text,
        }
    }
}
