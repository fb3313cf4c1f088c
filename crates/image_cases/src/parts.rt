//! Images with other tables than those of the image of `Shop.Size`, which is the one that is edited. The stream `#~` stands behind the metadata of that image, at
//! 0x494, and behind it stand `#Strings` and `#Blob` of that image, each with further entries behind its own.

use crate::images::write;
use md_schema::Table;
use std::alloc::{AllocError, Global};

/// Where `#Strings` and `#Blob` of the image of `Shop.Size` begin and end.
const TEXTS: (usize, usize) = (0x3A0, 0x450);

const BLOBS: (usize, usize) = (0x464, END);

/// Where the metadata begins, and where it ends.
const ROOT: usize = 0x248;

const END: usize = 0x494;

/// What an image is built from.
#[derive(Debug, Drop)]
pub struct Parts {
    /// Which indices into heaps have four bytes, and Valid (ECMA-335 II.24.2.6).
    pub bits: u8,
    valid: u64,
    /// The row counts, and the rows, of the tables so far.
    counts: Vec<u8>,
    rows: Vec<u8>,
    /// The further entries of `#Strings`, from the index 0xB0 on, and of `#Blob`, from the index 0x30 on.
    pub texts: Vec<u8>,
    pub blobs: Vec<u8>,
}

// A number in so many bytes, low byte first.
fn put(out: &mut Vec<u8>, number: u64, width: u32) -> Result<(), AllocError> {
    let mut rest = number;
    for _ in 0..width {
        out.push((rest % 256) as u8)?;
        rest /= 256;
    }
    Ok(())
}

// A number in four bytes.
fn four(number: usize) -> [u8; 4] {
    let [a, b, c, d, _, _, _, _] = (number as u64).to_le_bytes();
    [a, b, c, d]
}

// Bytes of the image of `Shop.Size`.
fn part(shop: &[u8], place: (usize, usize)) -> &[u8] {
    shop.get(place.0..place.1).unwrap_or(&[])
}

// The place in the metadata and the size of a stream, in its header.
fn write_header(image: &mut [u8], header: usize, at: usize, length: usize) {
    write(image, header, &four(at));
    write(image, header.saturating_add(4), &four(length));
}

// A stream of two parts, and where it ends in the metadata.
fn put_stream(
    image: &mut Vec<u8>,
    header: usize,
    at: usize,
    first: &[u8],
    second: &[u8],
) -> Result<usize, AllocError> {
    let length = first.len().saturating_add(second.len());
    write_header(image.as_mut_slice(), header, at, length);
    image.extend_from_slice(first)?;
    image.extend_from_slice(second)?;
    Ok(at.saturating_add(length))
}

impl Parts {
    /// No table, and the heaps of the image of `Shop.Size`.
    pub fn new(alloc: Global) -> Parts {
        Parts {
            bits: 0,
            valid: 0,
            counts: Vec::new(alloc),
            rows: Vec::new(alloc),
            texts: Vec::new(alloc),
            blobs: Vec::new(alloc),
        }
    }

    /// Begins a table with so many rows. Tables are begun in the order of their numbers.
    pub fn begin(&mut self, table: Table, count: usize) -> Result<(), AllocError> {
        self.valid |= 1u64 << table.number();
        put(&mut self.counts, count as u64, 4)
    }

    /// A row of the table that was begun last.
    pub fn row(&mut self, bytes: &[u8]) -> Result<(), AllocError> {
        self.rows.extend_from_slice(bytes)
    }

    /// The stream `#~`.
    fn put_tables(&self, stream: &mut Vec<u8>) -> Result<(), AllocError> {
        stream.extend_from_slice(&[0, 0, 0, 0, 2, 0, self.bits, 1])?;
        put(stream, self.valid, 8)?;
        put(stream, 0, 8)?;
        stream.extend_from_slice(&self.counts)?;
        stream.extend_from_slice(&self.rows)
    }

    fn tables(&self, alloc: Global) -> Result<Vec<u8>, AllocError> {
        let mut stream = Vec::new(alloc);
        self.put_tables(&mut stream)?;
        Ok(stream)
    }

    // The three streams, and where they end in the metadata.
    fn put_streams(
        &self,
        image: &mut Vec<u8>,
        base: &[u8],
        tables: &[u8],
    ) -> Result<usize, AllocError> {
        let at = put_stream(image, 0x270, END - ROOT, tables, &[])?;
        let at = put_stream(image, 0x27C, at, part(base, TEXTS), &self.texts)?;
        put_stream(image, 0x2AC, at, part(base, BLOBS), &self.blobs)
    }

    fn extend(&self, image: &mut Vec<u8>, base: &[u8]) -> Result<(), AllocError> {
        let tables = self.tables(*image.allocator())?;
        let size = self.put_streams(image, base, &tables)?;
        // The size of the metadata, and that of the section, which begins with the CLI header of 72 bytes.
        write(image.as_mut_slice(), 0x20C, &four(size));
        write(image.as_mut_slice(), 0x188, &four(size.saturating_add(72)));
        Ok(())
    }

    /// The image.
    pub fn image(&self, alloc: Global, base: &[u8]) -> Result<Vec<u8>, AllocError> {
        let mut image = base.to_vec(alloc)?;
        image.truncate(END);
        self.extend(&mut image, base)?;
        Ok(image)
    }
}
