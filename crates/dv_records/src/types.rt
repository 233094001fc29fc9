//! The types of records (Dovecot's `enum mail_transaction_type`).

/// `MAIL_TRANSACTION_EXPUNGE` without `MAIL_TRANSACTION_EXPUNGE_PROT`.
pub const UNGUARDED_EXPUNGE: u32 = 0x1;

pub const APPEND: u32 = 0x2;

pub const FLAG_UPDATE: u32 = 0x4;

pub const HEADER_UPDATE: u32 = 0x20;

pub const EXT_INTRO: u32 = 0x40;

pub const EXT_RESET: u32 = 0x80;

pub const EXT_HEADER_UPDATE: u32 = 0x100;

pub const EXT_RECORD_UPDATE: u32 = 0x200;

pub const KEYWORD_UPDATE: u32 = 0x400;

pub const KEYWORD_RESET: u32 = 0x800;
/// `MAIL_TRANSACTION_EXPUNGE_GUID` without `MAIL_TRANSACTION_EXPUNGE_PROT`.
pub const UNGUARDED_EXPUNGE_GUID: u32 = 0x2000;

pub const EXPUNGE: u32 = 0xcd91;

pub const EXPUNGE_GUID: u32 = 0xed90;
