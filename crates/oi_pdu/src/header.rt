use oi_base::{Serial, Tag};

/// NOP-Out: a ping, or the answer to a ping of the target. RFC 7143, section 11.18.
#[derive(Clone, Copy, Debug, PartialEq, Eq)]
pub struct NopOut {
    /// The I bit: the command number does not advance.
    pub immediate: bool,
    /// Logical unit number, 8 bytes as SAM has it.
    pub lun: [u8; 8],
    /// Initiator task tag.
    pub tag: Tag,
    /// Target transfer tag; ffffffff is none.
    pub ttt: u32,
    /// CmdSN.
    pub cmdsn: Serial,
    /// ExpStatSN.
    pub exp_stat: Serial,
}

/// SCSI Command; its payload is immediate data. RFC 7143, section 11.3.
#[derive(Clone, Copy, Debug, PartialEq, Eq)]
pub struct ScsiCommand {
    /// The I bit: the command number does not advance.
    pub immediate: bool,
    /// The F bit: the last PDU of its sequence.
    pub last: bool,
    /// The R bit: data are expected from the target.
    pub reads: bool,
    /// The W bit: data are expected from the initiator.
    pub writes: bool,
    /// Task attribute, 3 bits.
    pub attr: u8,
    /// Logical unit number, 8 bytes as SAM has it.
    pub lun: [u8; 8],
    /// Initiator task tag.
    pub tag: Tag,
    /// Expected data transfer length in bytes.
    pub length: u32,
    /// CmdSN.
    pub cmdsn: Serial,
    /// ExpStatSN.
    pub exp_stat: Serial,
    /// SCSI command, padded with zeros.
    pub cdb: [u8; 16],
}

/// Task Management Function Request. RFC 7143, section 11.5.
#[derive(Clone, Copy, Debug, PartialEq, Eq)]
pub struct TaskManagement {
    /// The I bit: the command number does not advance.
    pub immediate: bool,
    /// Function, 7 bits.
    pub function: u8,
    /// Logical unit number, 8 bytes as SAM has it.
    pub lun: [u8; 8],
    /// Initiator task tag.
    pub tag: Tag,
    /// Initiator task tag of the task that the function is about.
    pub referenced: Tag,
    /// CmdSN.
    pub cmdsn: Serial,
    /// ExpStatSN.
    pub exp_stat: Serial,
    /// CmdSN of that task.
    pub ref_cmdsn: Serial,
}

/// Login Request. It is always immediate; its versions are written as zero. RFC 7143, section 11.12.
#[derive(Clone, Copy, Debug, PartialEq, Eq)]
pub struct LoginRequest {
    /// The T bit: the sender is ready to go to stage `nsg`.
    pub transit: bool,
    /// The C bit: the text goes on in the next PDU.
    pub more: bool,
    /// Current stage, 2 bits.
    pub csg: u8,
    /// Next stage, 2 bits; counts only with `transit`.
    pub nsg: u8,
    /// The initiator's session number.
    pub isid: [u8; 6],
    /// The target's session handle, 0 for a new session.
    pub tsih: u16,
    /// Initiator task tag.
    pub tag: Tag,
    /// Connection number.
    pub cid: u16,
    /// CmdSN.
    pub cmdsn: Serial,
    /// ExpStatSN.
    pub exp_stat: Serial,
}

/// Text Request. RFC 7143, section 11.10.
#[derive(Clone, Copy, Debug, PartialEq, Eq)]
pub struct TextRequest {
    /// The I bit: the command number does not advance.
    pub immediate: bool,
    /// The F bit: the last PDU of its sequence.
    pub last: bool,
    /// The C bit: the text goes on in the next PDU.
    pub more: bool,
    /// Logical unit number, 8 bytes as SAM has it.
    pub lun: [u8; 8],
    /// Initiator task tag.
    pub tag: Tag,
    /// Target transfer tag; ffffffff is none.
    pub ttt: u32,
    /// CmdSN.
    pub cmdsn: Serial,
    /// ExpStatSN.
    pub exp_stat: Serial,
}

/// SCSI Data-Out: data of a write. RFC 7143, section 11.7.
#[derive(Clone, Copy, Debug, PartialEq, Eq)]
pub struct DataOut {
    /// The F bit: the last PDU of its sequence.
    pub last: bool,
    /// Logical unit number, 8 bytes as SAM has it.
    pub lun: [u8; 8],
    /// Initiator task tag.
    pub tag: Tag,
    /// Target transfer tag; ffffffff is none.
    pub ttt: u32,
    /// ExpStatSN.
    pub exp_stat: Serial,
    /// DataSN.
    pub number: u32,
    /// Buffer offset in bytes.
    pub offset: u32,
}

/// Logout Request. RFC 7143, section 11.14.
#[derive(Clone, Copy, Debug, PartialEq, Eq)]
pub struct LogoutRequest {
    /// The I bit: the command number does not advance.
    pub immediate: bool,
    /// Reason, 7 bits.
    pub reason: u8,
    /// Initiator task tag.
    pub tag: Tag,
    /// Connection number.
    pub cid: u16,
    /// CmdSN.
    pub cmdsn: Serial,
    /// ExpStatSN.
    pub exp_stat: Serial,
}

/// NOP-In: a ping of the target, or the answer to a ping. RFC 7143, section 11.19.
#[derive(Clone, Copy, Debug, PartialEq, Eq)]
pub struct NopIn {
    /// Logical unit number, 8 bytes as SAM has it.
    pub lun: [u8; 8],
    /// Initiator task tag.
    pub tag: Tag,
    /// Target transfer tag; ffffffff is none.
    pub ttt: u32,
    /// StatSN.
    pub stat: Serial,
    /// ExpCmdSN.
    pub exp: Serial,
    /// MaxCmdSN.
    pub max: Serial,
}

/// SCSI Response; its payload is the sense data with its length before it. RFC 7143, section 11.4.
#[derive(Clone, Copy, Debug, PartialEq, Eq)]
pub struct ScsiResponse {
    /// The O bit: `residual` counts bytes that did not fit.
    pub over: bool,
    /// The U bit: `residual` counts bytes that were not transferred.
    pub under: bool,
    /// Response code.
    pub response: u8,
    /// SCSI status.
    pub status: u8,
    /// Initiator task tag.
    pub tag: Tag,
    /// StatSN.
    pub stat: Serial,
    /// ExpCmdSN.
    pub exp: Serial,
    /// MaxCmdSN.
    pub max: Serial,
    /// ExpDataSN: the number of Data-In and R2T PDUs of the command.
    pub exp_number: u32,
    /// Residual count in bytes.
    pub residual: u32,
}

/// Task Management Function Response. RFC 7143, section 11.6.
#[derive(Clone, Copy, Debug, PartialEq, Eq)]
pub struct TaskResponse {
    /// Response code.
    pub response: u8,
    /// Initiator task tag.
    pub tag: Tag,
    /// StatSN.
    pub stat: Serial,
    /// ExpCmdSN.
    pub exp: Serial,
    /// MaxCmdSN.
    pub max: Serial,
}

/// Login Response. RFC 7143, section 11.13.
#[derive(Clone, Copy, Debug, PartialEq, Eq)]
pub struct LoginResponse {
    /// The T bit: the sender is ready to go to stage `nsg`.
    pub transit: bool,
    /// The C bit: the text goes on in the next PDU.
    pub more: bool,
    /// Current stage, 2 bits.
    pub csg: u8,
    /// Next stage, 2 bits; counts only with `transit`.
    pub nsg: u8,
    /// The initiator's session number.
    pub isid: [u8; 6],
    /// The target's session handle, 0 for a new session.
    pub tsih: u16,
    /// Initiator task tag.
    pub tag: Tag,
    /// StatSN.
    pub stat: Serial,
    /// ExpCmdSN.
    pub exp: Serial,
    /// MaxCmdSN.
    pub max: Serial,
    /// Status class.
    pub class: u8,
    /// Status detail.
    pub detail: u8,
}

/// Text Response. RFC 7143, section 11.11.
#[derive(Clone, Copy, Debug, PartialEq, Eq)]
pub struct TextResponse {
    /// The F bit: the last PDU of its sequence.
    pub last: bool,
    /// The C bit: the text goes on in the next PDU.
    pub more: bool,
    /// Logical unit number, 8 bytes as SAM has it.
    pub lun: [u8; 8],
    /// Initiator task tag.
    pub tag: Tag,
    /// Target transfer tag; ffffffff is none.
    pub ttt: u32,
    /// StatSN.
    pub stat: Serial,
    /// ExpCmdSN.
    pub exp: Serial,
    /// MaxCmdSN.
    pub max: Serial,
}

/// SCSI Data-In: data of a read, and with `ends` the status of the command. Its A bit is ignored. RFC 7143, section 11.7.
#[derive(Clone, Copy, Debug, PartialEq, Eq)]
pub struct DataIn {
    /// The F bit: the last PDU of its sequence.
    pub last: bool,
    /// The O bit: `residual` counts bytes that did not fit.
    pub over: bool,
    /// The U bit: `residual` counts bytes that were not transferred.
    pub under: bool,
    /// The S bit: the PDU carries the status of its command.
    pub ends: bool,
    /// SCSI status.
    pub status: u8,
    /// Logical unit number, 8 bytes as SAM has it.
    pub lun: [u8; 8],
    /// Initiator task tag.
    pub tag: Tag,
    /// Target transfer tag; ffffffff is none.
    pub ttt: u32,
    /// StatSN.
    pub stat: Serial,
    /// ExpCmdSN.
    pub exp: Serial,
    /// MaxCmdSN.
    pub max: Serial,
    /// DataSN.
    pub number: u32,
    /// Buffer offset in bytes.
    pub offset: u32,
    /// Residual count in bytes.
    pub residual: u32,
}

/// Logout Response. RFC 7143, section 11.15.
#[derive(Clone, Copy, Debug, PartialEq, Eq)]
pub struct LogoutResponse {
    /// Response code.
    pub response: u8,
    /// Initiator task tag.
    pub tag: Tag,
    /// StatSN.
    pub stat: Serial,
    /// ExpCmdSN.
    pub exp: Serial,
    /// MaxCmdSN.
    pub max: Serial,
    /// Seconds to wait before the next connection.
    pub time2wait: u16,
    /// Seconds for which the tasks are kept.
    pub time2retain: u16,
}

/// Ready To Transfer: the target asks for a part of the data of a write. RFC 7143, section 11.8.
#[derive(Clone, Copy, Debug, PartialEq, Eq)]
pub struct R2t {
    /// Logical unit number, 8 bytes as SAM has it.
    pub lun: [u8; 8],
    /// Initiator task tag.
    pub tag: Tag,
    /// Target transfer tag; ffffffff is none.
    pub ttt: u32,
    /// StatSN.
    pub stat: Serial,
    /// ExpCmdSN.
    pub exp: Serial,
    /// MaxCmdSN.
    pub max: Serial,
    /// R2TSN.
    pub number: u32,
    /// Buffer offset in bytes.
    pub offset: u32,
    /// Desired data transfer length in bytes.
    pub length: u32,
}

/// Asynchronous Message. RFC 7143, section 11.9.
#[derive(Clone, Copy, Debug, PartialEq, Eq)]
pub struct Async {
    /// Logical unit number, 8 bytes as SAM has it.
    pub lun: [u8; 8],
    /// StatSN.
    pub stat: Serial,
    /// ExpCmdSN.
    pub exp: Serial,
    /// MaxCmdSN.
    pub max: Serial,
    /// What happened.
    pub event: u8,
    /// Code of the vendor for event 255.
    pub vendor: u8,
    /// Parameter1, by event.
    pub first: u16,
    /// Parameter2: seconds to wait, by event.
    pub second: u16,
    /// Parameter3: seconds of retention, by event.
    pub third: u16,
}

/// Reject; its payload is the header that the target rejected. RFC 7143, section 11.17.
#[derive(Clone, Copy, Debug, PartialEq, Eq)]
pub struct Reject {
    /// Reason.
    pub reason: u8,
    /// StatSN.
    pub stat: Serial,
    /// ExpCmdSN.
    pub exp: Serial,
    /// MaxCmdSN.
    pub max: Serial,
}

/// The header of a PDU: one variant an opcode. Where RFC 7143 has a field that the struct lacks, it is treated as
/// reserved: written as zero, and ignored when read.
#[derive(Clone, Copy, Debug, PartialEq, Eq)]
pub enum Header {
    /// Opcode 00.
    NopOut(NopOut),
    /// Opcode 01.
    ScsiCommand(ScsiCommand),
    /// Opcode 02.
    TaskManagement(TaskManagement),
    /// Opcode 03.
    LoginRequest(LoginRequest),
    /// Opcode 04.
    TextRequest(TextRequest),
    /// Opcode 05.
    DataOut(DataOut),
    /// Opcode 06.
    LogoutRequest(LogoutRequest),
    /// Opcode 20.
    NopIn(NopIn),
    /// Opcode 21.
    ScsiResponse(ScsiResponse),
    /// Opcode 22.
    TaskResponse(TaskResponse),
    /// Opcode 23.
    LoginResponse(LoginResponse),
    /// Opcode 24.
    TextResponse(TextResponse),
    /// Opcode 25.
    DataIn(DataIn),
    /// Opcode 26.
    LogoutResponse(LogoutResponse),
    /// Opcode 31.
    R2t(R2t),
    /// Opcode 32.
    Async(Async),
    /// Opcode 3f.
    Reject(Reject),
}
