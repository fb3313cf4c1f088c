//! What stands before the metadata: the headers of the file, of its one section and of the common language (ECMA-335 II.25).

ghost use Rattle.std.specs.Prelude.{◌≡◌, ◌+◌, ◌-◌, ◌<◌, ◌^◌, ◌++◌, OnOk};
ghost use Rattle.md_bytes.specs.Padding.{up, zeros};
ghost use Rattle.winmd_image.specs.Spelled.{dos_header, file_header, standard_fields, windows_fields, directories, optional_header, section_header, cli_header};

use md_bytes::{put_number, put_numbers, put_zeros};
use std::alloc::AllocError;

/// A length rounded up to a multiple.
pub fn rounded(length: u64, multiple: u64) -> u64
    requires below { length < 2 ^ 63 + 72 }
    requires whole { 0 < multiple }
    requires small { multiple < 2 ^ 32 }
    ensures { result ≡ up length multiple }
{
    (length + (multiple - 1)) / multiple * multiple
}

/// The MS-DOS header (II.25.2.1).
#[tactic(auto, unfolding(crate::specs::Spelled::dos_header))]
fn put_dos_header(out: &mut Vec<u8>) -> Result<(), AllocError>
    ensures { OnOk result (out.new.items ≡ out.old.items ++ dos_header) }
{
    out.extend_from_slice(b"MZ")?;
    put_zeros(out, 0x3A)?;
    put_number(out, 4, 0x80)?;
    put_zeros(out, 0x40)?;
    Ok(())
}

/// The PE signature and the PE file header (II.25.2.2).
#[tactic(auto, unfolding(crate::specs::Spelled::file_header))]
fn put_file_header(out: &mut Vec<u8>) -> Result<(), AllocError>
    ensures { OnOk result (out.new.items ≡ out.old.items ++ file_header) }
{
    out.extend_from_slice(b"PE\0\0")?;
    put_numbers(out, 2, &[0x14C, 1])?;
    put_numbers(out, 4, &[0, 0, 0])?;
    put_numbers(out, 2, &[0xE0, 0x2102])?;
    Ok(())
}

/// The standard fields of the PE optional header (II.25.2.3.1).
#[tactic(auto, unfolding(crate::specs::Spelled::standard_fields))]
fn put_standard_fields(out: &mut Vec<u8>, raw_size: u64) -> Result<(), AllocError>
    ensures { OnOk result (out.new.items ≡ out.old.items ++ standard_fields raw_size) }
{
    put_number(out, 2, 0x10B)?;
    out.extend_from_slice(&[11, 0])?;
    put_numbers(out, 4, &[raw_size, 0, 0, 0, 0x2000, 0])
}

/// Its fields for Windows (II.25.2.3.2).
#[tactic(auto, unfolding(crate::specs::Spelled::windows_fields))]
fn put_windows_fields(out: &mut Vec<u8>, image_size: u64) -> Result<(), AllocError>
    ensures { OnOk result (out.new.items ≡ out.old.items ++ windows_fields image_size) }
{
    put_numbers(out, 4, &[0x40_0000, 0x2000, 0x200])?;
    put_numbers(out, 2, &[6, 2, 0, 0, 6, 2])?;
    put_numbers(out, 4, &[0, image_size, 0x200, 0])?;
    put_numbers(out, 2, &[3, 0x0540])?;
    put_numbers(out, 4, &[0x10_0000, 0x1000, 0x10_0000, 0x1000, 0, 16])
}

/// Its directories (II.25.2.3.3).
#[tactic(auto, unfolding(crate::specs::Spelled::directories))]
fn put_directories(out: &mut Vec<u8>) -> Result<(), AllocError>
    ensures { OnOk result (out.new.items ≡ out.old.items ++ directories) }
{
    put_zeros(out, 112)?;
    put_numbers(out, 4, &[0x2000, 72])?;
    put_zeros(out, 8)
}

/// The PE optional header for a section of so many bytes (II.25.2.3).
fn put_optional_header(out: &mut Vec<u8>, size: u64) -> Result<(), AllocError>
    requires { size < 2 ^ 63 + 72 }
    ensures { OnOk result (out.new.items ≡ out.old.items ++ optional_header size) }
{
    put_standard_fields(out, rounded(size, 0x200))?;
    put_windows_fields(out, 0x2000 + rounded(size, 0x2000))?;
    put_directories(out)
}

/// The header of the section `.text`, of so many bytes (II.25.3).
#[tactic(auto, unfolding(crate::specs::Spelled::section_header))]
fn put_section_header(out: &mut Vec<u8>, size: u64) -> Result<(), AllocError>
    requires { size < 2 ^ 63 + 72 }
    ensures { OnOk result (out.new.items ≡ out.old.items ++ section_header size) }
{
    out.extend_from_slice(b".text")?;
    put_zeros(out, 3)?;
    put_numbers(out, 4, &[size, 0x2000, rounded(size, 0x200), 0x200])?;
    put_zeros(out, 12)?;
    put_number(out, 4, 0x6000_0020)?;
    Ok(())
}

/// The CLI header for so many bytes of metadata (II.25.3.3).
#[tactic(auto, unfolding(crate::specs::Spelled::cli_header))]
fn put_cli_header(out: &mut Vec<u8>, metadata: u64) -> Result<(), AllocError>
    ensures { OnOk result (out.new.items ≡ out.old.items ++ cli_header metadata) }
{
    put_number(out, 4, 72)?;
    put_numbers(out, 2, &[2, 5])?;
    put_numbers(out, 4, &[0x2048, metadata, 1])?;
    put_zeros(out, 52)?;
    Ok(())
}

/// All headers before so many bytes of metadata.
pub fn put_headers(out: &mut Vec<u8>, metadata: u64) -> Result<(), AllocError>
    requires { metadata < 2 ^ 63 }
    ensures { OnOk result (out.new.items ≡ out.old.items ++ (dos_header ++ file_header ++ optional_header (72 + metadata)
        ++ section_header (72 + metadata) ++ zeros 0x60 ++ cli_header metadata)) }
{
    let size = 72 + metadata;
    put_dos_header(out)?;
    put_file_header(out)?;
    put_optional_header(out, size)?;
    put_section_header(out, size)?;
    put_zeros(out, 0x60)?;
    put_cli_header(out, metadata)?;
    Ok(())
}

/// Zeros behind so many bytes of a section, up to its end.
pub fn put_section_end(out: &mut Vec<u8>, size: u64) -> Result<(), AllocError>
    requires { size < 2 ^ 63 + 72 }
    ensures { OnOk result (out.new.items ≡ out.old.items ++ zeros (up size 0x200 - size)) }
{
    put_zeros(out, rounded(size, 0x200) - size)
}
