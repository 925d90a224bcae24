ghost use Rattle.std.specs.Prelude.{◌≡◌, ◌++◌};
ghost use Rattle.std.specs.Int.{w16, to_be_bytes};
ghost use Rattle.oi_pdu.specs.Table.{layout, nop_out, scsi_command, task_management, login_request, text_request, data_out, logout_request, nop_in, scsi_response, task_response, login_response, text_response, data_in, logout_response, r2t, async, reject};

use crate::basic::{BasicHeader, flag, words};
use crate::header::{
    Async, DataIn, DataOut, Header, LoginRequest, LoginResponse, LogoutRequest, LogoutResponse,
    NopIn, NopOut, R2t, Reject, ScsiCommand, ScsiResponse, TaskManagement, TaskResponse,
    TextRequest, TextResponse,
};
use oi_base::Tag;

/// The places at which a header is written.
#[tactic(auto, unfolding(crate::specs::Table::layout))]
pub fn layout_of(head: Header) -> BasicHeader
    ensures { result ≡ layout head }
{
    match head {
        Header::NopOut(h) => nop_out_layout(h),
        Header::ScsiCommand(h) => scsi_command_layout(h),
        Header::TaskManagement(h) => task_management_layout(h),
        Header::LoginRequest(h) => login_request_layout(h),
        Header::TextRequest(h) => text_request_layout(h),
        Header::DataOut(h) => data_out_layout(h),
        Header::LogoutRequest(h) => logout_request_layout(h),
        Header::NopIn(h) => nop_in_layout(h),
        Header::ScsiResponse(h) => scsi_response_layout(h),
        Header::TaskResponse(h) => task_response_layout(h),
        Header::LoginResponse(h) => login_response_layout(h),
        Header::TextResponse(h) => text_response_layout(h),
        Header::DataIn(h) => data_in_layout(h),
        Header::LogoutResponse(h) => logout_response_layout(h),
        Header::R2t(h) => r2t_layout(h),
        Header::Async(h) => async_layout(h),
        Header::Reject(h) => reject_layout(h),
    }
}

fn nop_out_layout(h: NopOut) -> BasicHeader
    ensures { result ≡ nop_out h }
{
    let lun = h.lun;
    BasicHeader {
        first: flag(h.immediate, 0x40),
        flags: 0x80,
        two: 0,
        three: 0,
        lun,
        tag: h.tag.0,
        word20: h.ttt,
        word24: h.cmdsn.0,
        word28: h.exp_stat.0,
        tail: [0; 16],
    }
}

fn scsi_command_layout(h: ScsiCommand) -> BasicHeader
    ensures { result ≡ scsi_command h }
{
    let lun = h.lun;
    let tail = h.cdb;
    BasicHeader {
        first: flag(h.immediate, 0x40) + 0x01,
        flags: flag(h.last, 0x80) + flag(h.reads, 0x40) + flag(h.writes, 0x20) + h.attr % 8,
        two: 0,
        three: 0,
        lun,
        tag: h.tag.0,
        word20: h.length,
        word24: h.cmdsn.0,
        word28: h.exp_stat.0,
        tail,
    }
}

fn task_management_layout(h: TaskManagement) -> BasicHeader
    ensures { result ≡ task_management h }
{
    let lun = h.lun;
    BasicHeader {
        first: flag(h.immediate, 0x40) + 0x02,
        flags: 0x80 + h.function % 128,
        two: 0,
        three: 0,
        lun,
        tag: h.tag.0,
        word20: h.referenced.0,
        word24: h.cmdsn.0,
        word28: h.exp_stat.0,
        tail: words(h.ref_cmdsn.0, 0, 0, 0),
    }
}

fn login_request_layout(h: LoginRequest) -> BasicHeader
    ensures { result ≡ login_request h }
{
    let lun = session_bytes(h.isid, h.tsih);
    BasicHeader {
        first: 0x43,
        flags: flag(h.transit, 0x80) + flag(h.more, 0x40) + h.csg % 4 * 4 + h.nsg % 4,
        two: 0,
        three: 0,
        lun,
        tag: h.tag.0,
        word20: h.cid as u32 * 0x1_0000,
        word24: h.cmdsn.0,
        word28: h.exp_stat.0,
        tail: [0; 16],
    }
}

fn text_request_layout(h: TextRequest) -> BasicHeader
    ensures { result ≡ text_request h }
{
    let lun = h.lun;
    BasicHeader {
        first: flag(h.immediate, 0x40) + 0x04,
        flags: flag(h.last, 0x80) + flag(h.more, 0x40),
        two: 0,
        three: 0,
        lun,
        tag: h.tag.0,
        word20: h.ttt,
        word24: h.cmdsn.0,
        word28: h.exp_stat.0,
        tail: [0; 16],
    }
}

fn data_out_layout(h: DataOut) -> BasicHeader
    ensures { result ≡ data_out h }
{
    let lun = h.lun;
    BasicHeader {
        first: 0x05,
        flags: flag(h.last, 0x80),
        two: 0,
        three: 0,
        lun,
        tag: h.tag.0,
        word20: h.ttt,
        word24: 0,
        word28: h.exp_stat.0,
        tail: words(0, h.number, h.offset, 0),
    }
}

fn logout_request_layout(h: LogoutRequest) -> BasicHeader
    ensures { result ≡ logout_request h }
{
    BasicHeader {
        first: flag(h.immediate, 0x40) + 0x06,
        flags: 0x80 + h.reason % 128,
        two: 0,
        three: 0,
        lun: [0; 8],
        tag: h.tag.0,
        word20: h.cid as u32 * 0x1_0000,
        word24: h.cmdsn.0,
        word28: h.exp_stat.0,
        tail: [0; 16],
    }
}

fn nop_in_layout(h: NopIn) -> BasicHeader
    ensures { result ≡ nop_in h }
{
    let lun = h.lun;
    BasicHeader {
        first: 0x20,
        flags: 0x80,
        two: 0,
        three: 0,
        lun,
        tag: h.tag.0,
        word20: h.ttt,
        word24: h.stat.0,
        word28: h.exp.0,
        tail: words(h.max.0, 0, 0, 0),
    }
}

fn scsi_response_layout(h: ScsiResponse) -> BasicHeader
    ensures { result ≡ scsi_response h }
{
    BasicHeader {
        first: 0x21,
        flags: 0x80 + flag(h.over, 0x04) + flag(h.under, 0x02),
        two: h.response,
        three: h.status,
        lun: [0; 8],
        tag: h.tag.0,
        word20: 0,
        word24: h.stat.0,
        word28: h.exp.0,
        tail: words(h.max.0, h.exp_number, 0, h.residual),
    }
}

fn task_response_layout(h: TaskResponse) -> BasicHeader
    ensures { result ≡ task_response h }
{
    BasicHeader {
        first: 0x22,
        flags: 0x80,
        two: h.response,
        three: 0,
        lun: [0; 8],
        tag: h.tag.0,
        word20: 0,
        word24: h.stat.0,
        word28: h.exp.0,
        tail: words(h.max.0, 0, 0, 0),
    }
}

fn login_response_layout(h: LoginResponse) -> BasicHeader
    ensures { result ≡ login_response h }
{
    let lun = session_bytes(h.isid, h.tsih);
    BasicHeader {
        first: 0x23,
        flags: flag(h.transit, 0x80) + flag(h.more, 0x40) + h.csg % 4 * 4 + h.nsg % 4,
        two: 0,
        three: 0,
        lun,
        tag: h.tag.0,
        word20: 0,
        word24: h.stat.0,
        word28: h.exp.0,
        tail: words(
            h.max.0,
            h.class as u32 * 0x100_0000 + h.detail as u32 * 0x1_0000,
            0,
            0,
        ),
    }
}

fn text_response_layout(h: TextResponse) -> BasicHeader
    ensures { result ≡ text_response h }
{
    let lun = h.lun;
    BasicHeader {
        first: 0x24,
        flags: flag(h.last, 0x80) + flag(h.more, 0x40),
        two: 0,
        three: 0,
        lun,
        tag: h.tag.0,
        word20: h.ttt,
        word24: h.stat.0,
        word28: h.exp.0,
        tail: words(h.max.0, 0, 0, 0),
    }
}

fn data_in_layout(h: DataIn) -> BasicHeader
    ensures { result ≡ data_in h }
{
    let lun = h.lun;
    BasicHeader {
        first: 0x25,
        flags: flag(h.last, 0x80) + flag(h.over, 0x04) + flag(h.under, 0x02) + flag(h.ends, 0x01),
        two: 0,
        three: h.status,
        lun,
        tag: h.tag.0,
        word20: h.ttt,
        word24: h.stat.0,
        word28: h.exp.0,
        tail: words(h.max.0, h.number, h.offset, h.residual),
    }
}

fn logout_response_layout(h: LogoutResponse) -> BasicHeader
    ensures { result ≡ logout_response h }
{
    BasicHeader {
        first: 0x26,
        flags: 0x80,
        two: h.response,
        three: 0,
        lun: [0; 8],
        tag: h.tag.0,
        word20: 0,
        word24: h.stat.0,
        word28: h.exp.0,
        tail: words(
            h.max.0,
            0,
            h.time2wait as u32 * 0x1_0000 + h.time2retain as u32,
            0,
        ),
    }
}

fn r2t_layout(h: R2t) -> BasicHeader
    ensures { result ≡ r2t h }
{
    let lun = h.lun;
    BasicHeader {
        first: 0x31,
        flags: 0x80,
        two: 0,
        three: 0,
        lun,
        tag: h.tag.0,
        word20: h.ttt,
        word24: h.stat.0,
        word28: h.exp.0,
        tail: words(h.max.0, h.number, h.offset, h.length),
    }
}

fn async_layout(h: Async) -> BasicHeader
    ensures { result ≡ async h }
{
    let lun = h.lun;
    BasicHeader {
        first: 0x32,
        flags: 0x80,
        two: 0,
        three: 0,
        lun,
        tag: Tag::RESERVED.0,
        word20: 0,
        word24: h.stat.0,
        word28: h.exp.0,
        tail: words(
            h.max.0,
            h.event as u32 * 0x100_0000 + h.vendor as u32 * 0x1_0000 + h.first as u32,
            h.second as u32 * 0x1_0000 + h.third as u32,
            0,
        ),
    }
}

fn reject_layout(h: Reject) -> BasicHeader
    ensures { result ≡ reject h }
{
    BasicHeader {
        first: 0x3f,
        flags: 0x80,
        two: h.reason,
        three: 0,
        lun: [0; 8],
        tag: Tag::RESERVED.0,
        word20: 0,
        word24: h.stat.0,
        word28: h.exp.0,
        tail: words(h.max.0, 0, 0, 0),
    }
}

// Bytes 8 to 15 of a login PDU.
fn session_bytes(isid: [u8; 6], tsih: u16) -> [u8; 8]
    ensures { result ≡ isid ++ to_be_bytes w16 tsih }
{
    let [high, low] = tsih.to_be_bytes();
    [
        isid[0], isid[1], isid[2], isid[3], isid[4], isid[5], high, low,
    ]
}
