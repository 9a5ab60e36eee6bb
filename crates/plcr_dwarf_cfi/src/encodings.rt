//! Encodings of pointers, by their names in the standard (Linux Standard Base Core, "DWARF
//! Exception Header Encoding").

pub const DW_EH_PE_absptr: u8 = 0x00;

pub const DW_EH_PE_uleb128: u8 = 0x01;

pub const DW_EH_PE_udata2: u8 = 0x02;

pub const DW_EH_PE_udata4: u8 = 0x03;

pub const DW_EH_PE_udata8: u8 = 0x04;

pub const DW_EH_PE_sleb128: u8 = 0x09;

pub const DW_EH_PE_sdata2: u8 = 0x0a;

pub const DW_EH_PE_sdata4: u8 = 0x0b;

pub const DW_EH_PE_sdata8: u8 = 0x0c;

/// The pointer counts from its own address. The bits below tell its format.
pub const DW_EH_PE_pcrel: u8 = 0x10;

/// The pointer is at the address that is told. The bits below tell how that is told.
pub const DW_EH_PE_indirect: u8 = 0x80;

/// No pointer is there.
pub const DW_EH_PE_omit: u8 = 0xff;
