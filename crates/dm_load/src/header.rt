//! The words of an MZ header, and which files can be loaded.
ghost use Rattle.std.specs.Prelude.{◌≡◌, ◌↔◌, ℕ, ◌+◌, ◌*◌, ◌%◌, ◌<◌, ◌≤◌, IsTrue, MatchResult, length};
ghost use Rattle.dm_load.specs.Image.{word, with_word, is_mz, file_kind, IsGood, IsGoodMz, file_size, file_pages, entry, target};

use crate::format::{BadFormat, Kind};
use byteorder::{ByteOrder, LittleEndian};

/// The size in bytes of the largest COM file: a segment without the prefix of 100h bytes and the
/// first word of the stack.
const LARGEST_COM: usize = 65_278;
/// The size in bytes of the part of an MZ header that each file has.
const HEADER: usize = 28;

/// The size in bytes of a page, in which an MZ header counts.
const PAGE: usize = 512;

/// The little-endian word at an offset of a file or an image.
pub(crate) fn word(bytes: &[u8], at: usize) -> u16
    requires { at + 2 ≤ length bytes.now }
    ensures { result ≡ Rattle.dm_load.specs.Image.word bytes.now at }
{
    LittleEndian::read_u16(&bytes[at..])
}

/// Makes a relocation: adds `by` to the little-endian word at an offset of an image, modulo 65,536; the other bytes
/// stay.
pub(crate) fn add_to_word(bytes: &mut [u8], at: usize, by: u16)
    requires { at + 2 ≤ length bytes.old }
    ensures { bytes.new ≡ with_word bytes.old at ((Rattle.dm_load.specs.Image.word bytes.old at + by) % 65536) }
{
    let sum = word(bytes, at).wrapping_add(by);
    let [low, high] = sum.to_le_bytes();
    bytes[at] = low;
    bytes[at + 1] = high;
}

/// Whether the file begins with `MZ` or `ZM`.
#[tactic(auto, unfolding(crate::specs::Image::is_mz))]
fn is_mz(file: &[u8]) -> bool
    ensures { result ≡ Rattle.dm_load.specs.Image.is_mz file.now }
{
    file.starts_with(b"MZ") || file.starts_with(b"ZM")
}

/// The number of bytes of header and image of an MZ file, by the header's page counts.
#[tactic(auto, unfolding(crate::specs::Image::file_size))]
pub(crate) fn size(file: &[u8]) -> usize
    requires header { 28 ≤ length file.now }
    requires pages { 0 < file_pages file.now }
    ensures value { result ≡ Rattle.dm_load.specs.Image.file_size file.now }
    ensures few { result ≤ 0x1FF_FE00 }
{
    let last = word(file, 0x02) as usize % PAGE;
    let pages = word(file, 0x04) as usize;
    if last == 0 {
        pages * PAGE
    } else {
        (pages - 1) * PAGE + last
    }
}

/// The offset in the image, in bytes, of the word that relocation `index` of an MZ file changes; 0 is the first one.
pub(crate) fn target(file: &[u8], index: usize) -> usize
    requires header { 28 ≤ length file.now }
    requires there { entry file.now (index + 1) ≤ length file.now }
    ensures value { result ≡ Rattle.dm_load.specs.Image.target file.now index }
    ensures reach { result + 2 ≤ 0x110000 }
{
    let entry = word(file, 0x18) as usize + 4 * index;
    word(file, entry + 2) as usize * 16 + word(file, entry) as usize
}

/// States that the word of each relocation lies in the first 110000h bytes of the image. It does
/// nothing.
pub(crate) fn targets_reach(file: &[u8])
    ensures { (k : ℕ) → Rattle.dm_load.specs.Image.target file.now k + 2 ≤ 0x110000 }
{}

/// Whether the words of the first `count` relocations of an MZ file lie wholly in an image of
/// `room` bytes.
fn targets_fit(file: &[u8], count: usize, room: usize) -> bool
    requires header { 28 ≤ length file.now }
    requires table { 0 < count → entry file.now count ≤ length file.now }
    ensures { IsTrue result ↔ ((k : ℕ) → k < count → Rattle.dm_load.specs.Image.target file.now k + 2 ≤ room) }
{
    for index in 0..count {
        if target(file, index) + 2 > room {
            return false;
        }
    }
    true
}

/// Whether an MZ file can be loaded: it has at least 28 bytes and one page; header and image, and a relocation table
/// that has an entry, lie in the file, and the word of each relocation lies in the image.
fn is_good_mz(file: &[u8]) -> bool
    ensures { IsTrue result ↔ IsGoodMz file.now }
{
    if file.len() < HEADER || word(file, 0x04) == 0 {
        return false;
    }
    let size = size(file);
    let header = word(file, 0x08) as usize * 16;
    let count = word(file, 0x06) as usize;
    let table_end = word(file, 0x18) as usize + 4 * count;
    if size > file.len() || header > size || count > 0 && table_end > file.len() {
        return false;
    }
    targets_fit(file, count, size - header)
}

/// What kind of program a file is: MZ where it begins with `MZ` or `ZM`, else COM.
///
/// # Errors
///
/// `BadFormat` exactly where the file can't be loaded. A COM file: over 65,278 bytes. An MZ file: under 28 bytes, no
/// pages, a file that ends before its pages or before the end of a relocation table that has an entry, a header longer
/// than the pages, or a relocation of a word that is not wholly in the image.
pub fn kind(file: &[u8]) -> Result<Kind, BadFormat>
    ensures { MatchResult result (λ k. (k ≡ file_kind file.now) × IsGood file.now) (λ _. IsGood file.now → ⊥) }
{
    let kind = if is_mz(file) { Kind::Mz } else { Kind::Com };
    let good = match kind {
        Kind::Com => file.len() <= LARGEST_COM,
        Kind::Mz => is_good_mz(file),
    };
    if good { Ok(kind) } else { Err(BadFormat) }
}
