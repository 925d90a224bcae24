ghost use Rattle.std.specs.Prelude.{◌≡◌, OnOk, IfOk, IfErr, Some};
ghost use Rattle.oi_pdu.specs.Table.{header_of, bad_header, names_stage_two, nop_out_of, scsi_command_of, task_management_of, login_request_of, text_request_of, data_out_of, logout_request_of, nop_in_of, scsi_response_of, task_response_of, login_response_of, text_response_of, data_in_of, logout_response_of, r2t_of, async_of, reject_of};
ghost use Rattle.oi_pdu.specs.Widths.{EncodableHeader, NopOutWidths, ScsiCommandWidths, TaskManagementWidths, LoginRequestWidths, TextRequestWidths, DataOutWidths, LogoutRequestWidths, NopInWidths, ScsiResponseWidths, TaskResponseWidths, LoginResponseWidths, TextResponseWidths, DataInWidths, LogoutResponseWidths, R2tWidths, AsyncWidths, RejectWidths};

use crate::basic::{BasicHeader, half_at, is_set, word_at};
use crate::codec::BadHeader;
use crate::header::{
    Async, DataIn, DataOut, Header, LoginRequest, LoginResponse, LogoutRequest, LogoutResponse,
    NopIn, NopOut, R2t, Reject, ScsiCommand, ScsiResponse, TaskManagement, TaskResponse,
    TextRequest, TextResponse,
};
use oi_base::{Serial, Tag};

/// The header at these places.
#[tactic(auto, unfolding(crate::specs::Table::header_of, crate::specs::Table::bad_header))]
pub fn header_from(b: BasicHeader) -> Result<Header, BadHeader>
    ensures good { OnOk result (bad_header b ≡ None) }
    ensures header { IfOk result (λ h. h ≡ header_of b) }
    ensures encodable { IfOk result (λ h. EncodableHeader h) }
    ensures bad { IfErr result (λ e. bad_header b ≡ Some e.place) }
{
    match b.first % 0x40 {
        0x00 => Ok(Header::NopOut(nop_out_at(b))),
        0x01 => Ok(Header::ScsiCommand(scsi_command_at(b))),
        0x02 => Ok(Header::TaskManagement(task_management_at(b))),
        0x03 => {
            let h = login_request_at(b);
            if names_stage_two(h.transit, h.csg, h.nsg) {
                return Err(BadHeader { place: 1 });
            }
            Ok(Header::LoginRequest(h))
        }
        0x04 => Ok(Header::TextRequest(text_request_at(b))),
        0x05 => Ok(Header::DataOut(data_out_at(b))),
        0x06 => Ok(Header::LogoutRequest(logout_request_at(b))),
        0x20 => Ok(Header::NopIn(nop_in_at(b))),
        0x21 => Ok(Header::ScsiResponse(scsi_response_at(b))),
        0x22 => Ok(Header::TaskResponse(task_response_at(b))),
        0x23 => {
            let h = login_response_at(b);
            if names_stage_two(h.transit, h.csg, h.nsg) {
                return Err(BadHeader { place: 1 });
            }
            Ok(Header::LoginResponse(h))
        }
        0x24 => Ok(Header::TextResponse(text_response_at(b))),
        0x25 => Ok(Header::DataIn(data_in_at(b))),
        0x26 => Ok(Header::LogoutResponse(logout_response_at(b))),
        0x31 => Ok(Header::R2t(r2t_at(b))),
        0x32 => Ok(Header::Async(async_at(b))),
        0x3f => Ok(Header::Reject(reject_at(b))),
        _ => Err(BadHeader { place: 0 }),
    }
}

// Stage 2 is not defined; the next stage counts only with T set.
fn names_stage_two(transit: bool, csg: u8, nsg: u8) -> bool
    ensures { result ≡ names_stage_two transit csg nsg }
{
    csg == 2 || (transit && nsg == 2)
}

fn nop_out_at(b: BasicHeader) -> NopOut
    ensures row { result ≡ nop_out_of b }
    ensures widths { NopOutWidths result }
{
    let lun = b.lun;
    NopOut {
        immediate: is_set(b.first, 0x40),
        lun,
        tag: Tag(b.tag),
        ttt: b.word20,
        cmdsn: Serial(b.word24),
        exp_stat: Serial(b.word28),
    }
}

fn scsi_command_at(b: BasicHeader) -> ScsiCommand
    ensures row { result ≡ scsi_command_of b }
    ensures widths { ScsiCommandWidths result }
{
    let lun = b.lun;
    let cdb = b.tail;
    ScsiCommand {
        immediate: is_set(b.first, 0x40),
        last: is_set(b.flags, 0x80),
        reads: is_set(b.flags, 0x40),
        writes: is_set(b.flags, 0x20),
        attr: b.flags % 8,
        lun,
        tag: Tag(b.tag),
        length: b.word20,
        cmdsn: Serial(b.word24),
        exp_stat: Serial(b.word28),
        cdb,
    }
}

fn task_management_at(b: BasicHeader) -> TaskManagement
    ensures row { result ≡ task_management_of b }
    ensures widths { TaskManagementWidths result }
{
    let lun = b.lun;
    TaskManagement {
        immediate: is_set(b.first, 0x40),
        function: b.flags % 128,
        lun,
        tag: Tag(b.tag),
        referenced: Tag(b.word20),
        cmdsn: Serial(b.word24),
        exp_stat: Serial(b.word28),
        ref_cmdsn: Serial(word_at(&b.tail, 0)),
    }
}

fn login_request_at(b: BasicHeader) -> LoginRequest
    ensures row { result ≡ login_request_of b }
    ensures widths { LoginRequestWidths result }
{
    let mut isid = [0u8; 6];
    isid.copy_from_slice(&b.lun[..6]);
    LoginRequest {
        transit: is_set(b.flags, 0x80),
        more: is_set(b.flags, 0x40),
        csg: b.flags / 4 % 4,
        nsg: b.flags % 4,
        isid,
        tsih: half_at(&b.lun, 6),
        tag: Tag(b.tag),
        cid: (b.word20 / 0x1_0000) as u16,
        cmdsn: Serial(b.word24),
        exp_stat: Serial(b.word28),
    }
}

fn text_request_at(b: BasicHeader) -> TextRequest
    ensures row { result ≡ text_request_of b }
    ensures widths { TextRequestWidths result }
{
    let lun = b.lun;
    TextRequest {
        immediate: is_set(b.first, 0x40),
        last: is_set(b.flags, 0x80),
        more: is_set(b.flags, 0x40),
        lun,
        tag: Tag(b.tag),
        ttt: b.word20,
        cmdsn: Serial(b.word24),
        exp_stat: Serial(b.word28),
    }
}

fn data_out_at(b: BasicHeader) -> DataOut
    ensures row { result ≡ data_out_of b }
    ensures widths { DataOutWidths result }
{
    let lun = b.lun;
    DataOut {
        last: is_set(b.flags, 0x80),
        lun,
        tag: Tag(b.tag),
        ttt: b.word20,
        exp_stat: Serial(b.word28),
        number: word_at(&b.tail, 4),
        offset: word_at(&b.tail, 8),
    }
}

fn logout_request_at(b: BasicHeader) -> LogoutRequest
    ensures row { result ≡ logout_request_of b }
    ensures widths { LogoutRequestWidths result }
{
    LogoutRequest {
        immediate: is_set(b.first, 0x40),
        reason: b.flags % 128,
        tag: Tag(b.tag),
        cid: (b.word20 / 0x1_0000) as u16,
        cmdsn: Serial(b.word24),
        exp_stat: Serial(b.word28),
    }
}

fn nop_in_at(b: BasicHeader) -> NopIn
    ensures row { result ≡ nop_in_of b }
    ensures widths { NopInWidths result }
{
    let lun = b.lun;
    NopIn {
        lun,
        tag: Tag(b.tag),
        ttt: b.word20,
        stat: Serial(b.word24),
        exp: Serial(b.word28),
        max: Serial(word_at(&b.tail, 0)),
    }
}

fn scsi_response_at(b: BasicHeader) -> ScsiResponse
    ensures row { result ≡ scsi_response_of b }
    ensures widths { ScsiResponseWidths result }
{
    ScsiResponse {
        over: is_set(b.flags, 0x04),
        under: is_set(b.flags, 0x02),
        response: b.two,
        status: b.three,
        tag: Tag(b.tag),
        stat: Serial(b.word24),
        exp: Serial(b.word28),
        max: Serial(word_at(&b.tail, 0)),
        exp_number: word_at(&b.tail, 4),
        residual: word_at(&b.tail, 12),
    }
}

fn task_response_at(b: BasicHeader) -> TaskResponse
    ensures row { result ≡ task_response_of b }
    ensures widths { TaskResponseWidths result }
{
    TaskResponse {
        response: b.two,
        tag: Tag(b.tag),
        stat: Serial(b.word24),
        exp: Serial(b.word28),
        max: Serial(word_at(&b.tail, 0)),
    }
}

fn login_response_at(b: BasicHeader) -> LoginResponse
    ensures row { result ≡ login_response_of b }
    ensures widths { LoginResponseWidths result }
{
    let mut isid = [0u8; 6];
    isid.copy_from_slice(&b.lun[..6]);
    let word36 = word_at(&b.tail, 4);
    LoginResponse {
        transit: is_set(b.flags, 0x80),
        more: is_set(b.flags, 0x40),
        csg: b.flags / 4 % 4,
        nsg: b.flags % 4,
        isid,
        tsih: half_at(&b.lun, 6),
        tag: Tag(b.tag),
        stat: Serial(b.word24),
        exp: Serial(b.word28),
        max: Serial(word_at(&b.tail, 0)),
        class: (word36 / 0x100_0000) as u8,
        detail: (word36 / 0x1_0000 % 0x100) as u8,
    }
}

fn text_response_at(b: BasicHeader) -> TextResponse
    ensures row { result ≡ text_response_of b }
    ensures widths { TextResponseWidths result }
{
    let lun = b.lun;
    TextResponse {
        last: is_set(b.flags, 0x80),
        more: is_set(b.flags, 0x40),
        lun,
        tag: Tag(b.tag),
        ttt: b.word20,
        stat: Serial(b.word24),
        exp: Serial(b.word28),
        max: Serial(word_at(&b.tail, 0)),
    }
}

fn data_in_at(b: BasicHeader) -> DataIn
    ensures row { result ≡ data_in_of b }
    ensures widths { DataInWidths result }
{
    let lun = b.lun;
    DataIn {
        last: is_set(b.flags, 0x80),
        over: is_set(b.flags, 0x04),
        under: is_set(b.flags, 0x02),
        ends: is_set(b.flags, 0x01),
        status: b.three,
        lun,
        tag: Tag(b.tag),
        ttt: b.word20,
        stat: Serial(b.word24),
        exp: Serial(b.word28),
        max: Serial(word_at(&b.tail, 0)),
        number: word_at(&b.tail, 4),
        offset: word_at(&b.tail, 8),
        residual: word_at(&b.tail, 12),
    }
}

fn logout_response_at(b: BasicHeader) -> LogoutResponse
    ensures row { result ≡ logout_response_of b }
    ensures widths { LogoutResponseWidths result }
{
    let word40 = word_at(&b.tail, 8);
    LogoutResponse {
        response: b.two,
        tag: Tag(b.tag),
        stat: Serial(b.word24),
        exp: Serial(b.word28),
        max: Serial(word_at(&b.tail, 0)),
        time2wait: (word40 / 0x1_0000) as u16,
        time2retain: (word40 % 0x1_0000) as u16,
    }
}

fn r2t_at(b: BasicHeader) -> R2t
    ensures row { result ≡ r2t_of b }
    ensures widths { R2tWidths result }
{
    let lun = b.lun;
    R2t {
        lun,
        tag: Tag(b.tag),
        ttt: b.word20,
        stat: Serial(b.word24),
        exp: Serial(b.word28),
        max: Serial(word_at(&b.tail, 0)),
        number: word_at(&b.tail, 4),
        offset: word_at(&b.tail, 8),
        length: word_at(&b.tail, 12),
    }
}

fn async_at(b: BasicHeader) -> Async
    ensures row { result ≡ async_of b }
    ensures widths { AsyncWidths result }
{
    let lun = b.lun;
    let word36 = word_at(&b.tail, 4);
    let word40 = word_at(&b.tail, 8);
    Async {
        lun,
        stat: Serial(b.word24),
        exp: Serial(b.word28),
        max: Serial(word_at(&b.tail, 0)),
        event: (word36 / 0x100_0000) as u8,
        vendor: (word36 / 0x1_0000 % 0x100) as u8,
        first: (word36 % 0x1_0000) as u16,
        second: (word40 / 0x1_0000) as u16,
        third: (word40 % 0x1_0000) as u16,
    }
}

fn reject_at(b: BasicHeader) -> Reject
    ensures row { result ≡ reject_of b }
    ensures widths { RejectWidths result }
{
    Reject {
        reason: b.two,
        stat: Serial(b.word24),
        exp: Serial(b.word28),
        max: Serial(word_at(&b.tail, 0)),
    }
}
