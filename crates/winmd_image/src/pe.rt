//! The headers of the file, its sections and the CLI header (ECMA-335 II.25): where the metadata stands.

ghost use Rattle.std.specs.Prelude.{◌≡◌, ◌<◌, ◌≤◌, ◌^◌, IfOk, IfSome};
ghost use Rattle.md_schema.specs.Given.{Gives};
ghost use Rattle.winmd_image.specs.Pe as pe_as;
ghost use Rattle.winmd_image.specs.Seen.{range_seen, sections_seen};

use crate::faults::{checked, fault};
use crate::fields::{begins, field, number_at};
use md_schema::{ImageFault, ImageKind};

/// A part of the image, or of its addresses: where it begins, and how many bytes it has.
#[derive(Clone, Copy, Debug)]
pub struct Range {
    pub offset: u64,
    pub size: u64,
}

/// The section headers: how many there are, and where the first stands (II.25.3).
#[derive(Clone, Copy, Debug)]
pub struct Sections {
    pub count: u64,
    pub first: u64,
}

/// Where a range of addresses stands in the image, if the section of a header holds it, with all of its bytes.
fn held(image: &[u8], header: u64, address: u64, size: u64) -> Option<u64>
    requires header { header < 2 ^ 40 }
    requires address { address < 2 ^ 32 }
    requires size { size < 2 ^ 32 }
    ensures exact { result ≡ pe_as.held_at image.now header address size }
    ensures small { IfSome result (λ at. at < 2 ^ 33) }
{
    let start = number_at(image, header + 12, 4) as u64;
    let raw_size = number_at(image, header + 16, 4) as u64;
    let raw = number_at(image, header + 20, 4) as u64;
    if start <= address && address + size <= start + raw_size {
        let at = raw + (address - start);
        if at + size <= image.len() as u64 {
            return Some(at);
        }
    }
    None
}

/// Where a range of addresses stands in the image, by the first section that holds it. A cell gives its address.
fn placed(image: &[u8], sections: &Sections, cell: u64, range: &Range) -> Result<u64, ImageFault>
    requires count { sections.now.count < 2 ^ 32 }
    requires first { sections.now.first < 2 ^ 34 }
    requires address { range.now.offset < 2 ^ 32 }
    requires size { range.now.size < 2 ^ 32 }
    ensures exact { Gives (λ at. at) result (pe_as.placed image.now (sections_seen sections.now) cell range.now.offset range.now.size) }
    ensures small { IfOk result (λ at. at < 2 ^ 33) }
{
    for i in 0..sections.count {
        if let Some(at) = held(image, sections.first + 40 * i, range.offset, range.size) {
            return Ok(at);
        }
    }
    Err(fault(ImageKind::BadRva, cell))
}

/// Where the PE signature stands (II.25.2.1, II.25.2.2).
fn signature_of(image: &[u8]) -> Result<u64, ImageFault>
    ensures exact { Gives (λ at. at) result (pe_as.signature_of image.now) }
    ensures small { IfOk result (λ at. at < 2 ^ 32) }
{
    checked(begins(image, 0, b"MZ"), ImageKind::NotPe, 0)?;
    let pe = field(image, ImageKind::NotPe, 0x3C, 4)?;
    checked(begins(image, pe, b"PE\0\0"), ImageKind::NotPe, pe)?;
    Ok(pe)
}

/// The section headers stand behind the optional header, whose size the file header gives.
fn sections_of(image: &[u8], pe: u64) -> Result<Sections, ImageFault>
    requires { pe < 2 ^ 32 }
    ensures exact { Gives (λ x. sections_seen x) result (pe_as.sections_of image.now pe) }
    ensures count { IfOk result (λ x. x.count < 2 ^ 32) }
    ensures first { IfOk result (λ x. x.first < 2 ^ 34) }
{
    let count = field(image, ImageKind::NotPe, pe + 6, 2)?;
    let size = field(image, ImageKind::NotPe, pe + 20, 2)?;
    Ok(Sections {
        count,
        first: pe + 24 + size,
    })
}

/// How far behind the signature's headers directory 14 is, which stands 16 bytes further where addresses have eight bytes (II.25.2.3.3).
fn directory_of(image: &[u8], pe: u64) -> Result<u64, ImageFault>
    requires { pe < 2 ^ 32 }
    ensures exact { Gives (λ at. at) result (pe_as.directory_of image.now pe) }
    ensures small { IfOk result (λ at. at < 2 ^ 33) }
{
    let magic = field(image, ImageKind::NotPe, pe + 24, 2)?;
    checked(magic == 0x10B || magic == 0x20B, ImageKind::NotPe, pe + 24)?;
    Ok(pe + 24 + if magic == 0x10B { 208 } else { 224 })
}

/// All section headers are there.
fn are_whole(image: &[u8], sections: &Sections) -> Result<bool, ImageFault>
    requires count { sections.now.count < 2 ^ 32 }
    requires first { sections.now.first < 2 ^ 34 }
    ensures { Gives (λ b. b) result (pe_as.are_whole image.now (sections_seen sections.now)) }
{
    let length = image.len() as u64;
    let end = sections.first + 40 * sections.count;
    let there = length.saturating_sub(sections.first);
    checked(
        end <= length,
        ImageKind::NotPe,
        sections.first + 40 * (there / 40),
    )
}

/// The range of the CLI header, by directory 14.
fn directory_range(image: &[u8], sections: &Sections, directory: u64) -> Result<Range, ImageFault>
    requires count { sections.now.count < 2 ^ 32 }
    requires first { sections.now.first < 2 ^ 34 }
    requires directory { directory < 2 ^ 33 }
    ensures exact { Gives (λ x. range_seen x) result (pe_as.directory_range image.now (sections_seen sections.now) directory) }
    ensures address { IfOk result (λ x. x.offset < 2 ^ 32) }
    ensures size { IfOk result (λ x. x.size < 2 ^ 32) }
{
    let offset = field(image, ImageKind::NotPe, directory, 4)?;
    let size = field(image, ImageKind::NotPe, directory + 4, 4)?;
    are_whole(image, sections)?;
    Ok(Range { offset, size })
}

/// How many bytes the CLI header has (II.25.3.3).
const CLI_SIZE: u64 = 72;

/// Where the CLI header stands.
fn cli_of(image: &[u8], sections: &Sections, directory: u64) -> Result<u64, ImageFault>
    requires count { sections.now.count < 2 ^ 32 }
    requires first { sections.now.first < 2 ^ 34 }
    requires directory { directory < 2 ^ 33 }
    ensures exact { Gives (λ at. at) result (pe_as.cli_of image.now (sections_seen sections.now) directory) }
    ensures small { IfOk result (λ at. at < 2 ^ 33) }
{
    let range = directory_range(image, sections, directory)?;
    checked(CLI_SIZE <= range.size, ImageKind::NoCli, directory + 4)?;
    placed(image, sections, directory, &range)
}

/// The range of the metadata, by the CLI header, which begins with its own size (II.25.3.3).
fn metadata_range(image: &[u8], cli: u64) -> Result<Range, ImageFault>
    requires { cli < 2 ^ 33 }
    ensures exact { Gives (λ x. range_seen x) result (pe_as.metadata_range image.now cli) }
    ensures address { IfOk result (λ x. x.offset < 2 ^ 32) }
    ensures size { IfOk result (λ x. x.size < 2 ^ 32) }
{
    let size = field(image, ImageKind::NoCli, cli, 4)?;
    checked(size == CLI_SIZE, ImageKind::NoCli, cli)?;
    let offset = field(image, ImageKind::NoCli, cli + 8, 4)?;
    let length = field(image, ImageKind::NoCli, cli + 12, 4)?;
    Ok(Range {
        offset,
        size: length,
    })
}

/// Where the metadata stands.
fn metadata_of(image: &[u8], sections: &Sections, cli: u64) -> Result<Range, ImageFault>
    requires count { sections.now.count < 2 ^ 32 }
    requires first { sections.now.first < 2 ^ 34 }
    requires cli { cli < 2 ^ 33 }
    ensures exact { Gives (λ x. range_seen x) result (pe_as.metadata_of image.now (sections_seen sections.now) cli) }
    ensures offset { IfOk result (λ x. x.offset < 2 ^ 33) }
    ensures size { IfOk result (λ x. x.size < 2 ^ 32) }
{
    let range = metadata_range(image, cli)?;
    let offset = placed(image, sections, cli + 8, &range)?;
    Ok(Range {
        offset,
        size: range.size,
    })
}

/// Where the metadata stands, by all headers before it.
pub fn root_of(image: &[u8]) -> Result<Range, ImageFault>
    ensures exact { Gives (λ x. range_seen x) result (pe_as.root_of image.now) }
    ensures offset { IfOk result (λ x. x.offset < 2 ^ 33) }
    ensures size { IfOk result (λ x. x.size < 2 ^ 32) }
{
    let pe = signature_of(image)?;
    let sections = sections_of(image, pe)?;
    let directory = directory_of(image, pe)?;
    let cli = cli_of(image, &sections, directory)?;
    metadata_of(image, &sections, cli)
}
