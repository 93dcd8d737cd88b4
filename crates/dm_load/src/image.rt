//! A program file that can be loaded: its image, its relocations, and the words of its header.
ghost use Rattle.std.specs.Prelude.{◌≡◌, ℕ, ◌+◌, ◌*◌, ◌<◌, ◌≤◌, length, take, drop, min, true, MatchResult};
ghost use Rattle.dm_load.specs.Image.{word, is_mz, file_kind, IsGood, entry, target, image, relocations, relocated, minimum, maximum, start_pointer, stack};

use crate::format::{BadFormat, FarPointer, Kind};
use crate::header::{add_to_word, kind, size, target, targets_reach, word};
use std::marker::Model;

/// A file that can be loaded. Contracts see its bytes.
#[derive(Drop)]
pub struct Image<'a> {
    kind: Kind,
    file: &'a [u8],
}

impl<'a> Model for Image<'a> {
    ghost use Rattle.std.specs.Prelude.{List, ℕ, ◌≡◌};
    ghost use Rattle.dm_load.specs.Image.{IsGoodAs, file_kind};

    ghost Value = { List ℕ };

    ghost view = { λ s. s.file.now };

    ghost invariant = { λ s. (s.kind ≡ file_kind s.file.now) × IsGoodAs s.kind s.file.now };
}

impl<'a> Image<'a> {
    /// A program file as one that can be loaded. Nothing is copied.
    ///
    /// # Errors
    ///
    /// `BadFormat` exactly where `kind` returns it.
    pub fn of(file: &'a [u8]) -> Result<Image<'a>, BadFormat>
        ensures { MatchResult result (λ i. (i ≡ file.now) × IsGood file.now) (λ _. IsGood file.now → ⊥) }
    {
        match kind(file) {
            Ok(kind) => Ok(Image { kind, file }),
            Err(BadFormat) => Err(BadFormat),
        }
    }

    /// What kind of program the file is.
    pub fn kind(&self) -> Kind
        ensures kind { result ≡ file_kind self.now }
        ensures good { IsGood self.now }
    {
        self.kind
    }

    /// The bytes of the image, before any relocation: a COM file's, or an MZ file's from the
    /// header's end to the end of the pages.
    #[tactic(auto, unfolding(crate::specs::Image::image))]
    pub fn bytes(&self) -> &[u8]
        ensures value { result.now ≡ image self.now }
        ensures few { length result.now ≤ 0x1FF_FE00 }
    {
        match self.kind {
            Kind::Com => self.file,
            Kind::Mz => &self.file[word(self.file, 0x08) as usize * 16..size(self.file)],
        }
    }

    /// The number of relocations: word 06h of an MZ file, 0 for a COM file.
    #[tactic(auto, unfolding(crate::specs::Image::relocations))]
    fn relocations(&self) -> usize
        ensures { result ≡ relocations self.now }
    {
        match self.kind {
            Kind::Com => 0,
            Kind::Mz => word(self.file, 0x06) as usize,
        }
    }

    /// Where an MZ program starts (CS:IP), the segment counted from that of the image.
    pub fn start_pointer(&self) -> FarPointer
        requires { is_mz self.now ≡ true }
        ensures { result ≡ start_pointer self.now }
    {
        FarPointer {
            segment: word(self.file, 0x16),
            offset: word(self.file, 0x14),
        }
    }

    /// Where an MZ program's stack starts (SS:SP), the segment counted from that of the image.
    pub fn stack(&self) -> FarPointer
        requires { is_mz self.now ≡ true }
        ensures { result ≡ stack self.now }
    {
        FarPointer {
            segment: word(self.file, 0x0E),
            offset: word(self.file, 0x10),
        }
    }

    /// The number of paragraphs that an MZ program needs after its image.
    pub fn minimum(&self) -> u16
        requires { is_mz self.now ≡ true }
        ensures { result ≡ minimum self.now }
    {
        word(self.file, 0x0A)
    }

    /// The number of paragraphs that an MZ program asks for after its image.
    pub fn maximum(&self) -> u16
        requires { is_mz self.now ≡ true }
        ensures { result ≡ maximum self.now }
    {
        word(self.file, 0x0C)
    }

    /// Fills `bytes` with the image, relocated by the segment `start`: each relocation, in the order of
    /// the table, adds the segment to a word, modulo 65,536. The slice has the length of the image,
    /// or 110000h bytes if the image is longer: no relocation changes a word after these.
    pub fn relocated(&self, start: u16, bytes: &mut [u8])
        requires { length bytes.old ≡ min (length (image self.now)) 0x110000 }
        ensures { bytes.new ≡ take 0x110000 (relocated self.now start) }
    {
        bytes.copy_from_slice(&self.bytes()[..bytes.len()]);
        for index in 0..self.relocations() {
            add_to_word(bytes, target(self.file, index), start);
        }
    }

    /// The bytes of the image after the first 110000h. No relocation changes them.
    pub fn rest(&self) -> &[u8]
        ensures bytes { (start : ℕ) → result.now ≡ drop 0x110000 (relocated self.now start) }
        ensures few { length result.now ≤ 0x1FF_FE00 }
    {
        targets_reach(self.file);
        let bytes = self.bytes();
        &bytes[bytes.len().min(0x11_0000)..]
    }
}
