//! A reader of the fields of an image.

ghost use Rattle.std.specs.Prelude.{◌≡◌, ◌≤◌, ◌/◌, ◌==◌, length, is_some, IfSome, IfOk};
ghost use Rattle.std.specs.Simd.{first_chunks};
ghost use Rattle.std.specs.Int.{w16, w32, w64};
ghost use Rattle.ifs_image.specs.Reading.{bytes_at, byte_at, number_at, number_within, length_at};
ghost use Rattle.ifs_image.specs.Reading.{is_text, text_sized, text_at, instruction_at, byte_within, kind_at};
ghost use Rattle.ifs_image.specs.Answers.{Gives, GivesAtOnce, GivesAtOnceBy};

use crate::fault::ImageFault;
use crate::lent::LentText;
use crate::limits;
use ifs_base::{Kind, Op, decode_kind, decode_op};
use std::marker::Model;

/// The bytes of an image that are still unread, and the offset of the first of them.
#[derive(Drop)]
pub struct Reader<'a> {
    rest: &'a [u8],
    at: usize,
}

impl<'a> Model for Reader<'a> {
    ghost use Rattle.std.specs.Prelude.{◌+◌, ◌^◌, ◌<◌, length};
    ghost use Rattle.ifs_image.specs.Reading.{Cursor, cursor};

    ghost Value = { Cursor };

    ghost view = { λ r. cursor r.at r.rest.now };

    ghost invariant = { λ r. r.at + length r.rest.now < 2 ^ 64 };
}

impl<'a> Reader<'a> {
    ghost use Rattle.ifs_image.specs.Reading.{cursor};

    /// A reader at the first byte.
    pub fn new(bytes: &'a [u8]) -> Self
        ensures { result ≡ cursor 0 bytes.now }
    {
        Reader { rest: bytes, at: 0 }
    }

    /// A reader at the same byte.
    pub fn again(&self) -> Self
        ensures { result ≡ self.now }
    {
        Reader {
            rest: self.rest,
            at: self.at,
        }
    }

    /// The offset of the next byte.
    pub fn at(&self) -> usize
        ensures { result ≡ self.now.at }
    {
        self.at
    }

    /// Whether no byte is left.
    pub fn is_at_end(&self) -> bool
        ensures { result ≡ (length self.now.left == 0) }
    {
        self.rest.is_empty()
    }

    /// The next `count` bytes; I1 if fewer are left.
    #[tactic(auto, unfolding(crate::specs::Reading::bytes_at))]
    pub fn take(&mut self, count: usize) -> Result<&'a [u8], ImageFault>
        ensures given { GivesAtOnceBy (λ bytes. bytes.now) result self.new (bytes_at count self.old) }
        ensures count { IfOk result (λ bytes. length bytes.now ≡ count) }
    {
        if self.rest.len() < count {
            return Err(ImageFault::Truncated { at: self.at });
        }
        let (front, rest) = self.rest.split_at(count);
        self.rest = rest;
        self.at += count;
        Ok(front)
    }

    /// A number of one byte.
    #[tactic(auto, unfolding(crate::specs::Reading::byte_at))]
    pub fn u8(&mut self) -> Result<u8, ImageFault>
        ensures { GivesAtOnce result self.new (byte_at self.old) }
    {
        let bytes = self.take(1)?;
        Ok(bytes[0])
    }

    /// A number of two bytes, the high one first.
    #[tactic(auto, unfolding(crate::specs::Reading::number_at))]
    pub fn u16(&mut self) -> Result<u16, ImageFault>
        ensures { GivesAtOnce result self.new (number_at w16 self.old) }
    {
        let bytes = self.take(2)?;
        Ok(u16::from_be_bytes([bytes[0], bytes[1]]))
    }

    /// A number of four bytes, the high one first.
    #[tactic(auto, unfolding(crate::specs::Reading::number_at))]
    pub fn u32(&mut self) -> Result<u32, ImageFault>
        ensures { GivesAtOnce result self.new (number_at w32 self.old) }
    {
        let bytes = self.take(4)?;
        Ok(u32::from_be_bytes([bytes[0], bytes[1], bytes[2], bytes[3]]))
    }

    /// A number of eight bytes, the high one first.
    #[tactic(auto, unfolding(crate::specs::Reading::number_at))]
    pub fn u64(&mut self) -> Result<u64, ImageFault>
        ensures { GivesAtOnce result self.new (number_at w64 self.old) }
    {
        let bytes = self.take(8)?;
        let [a, b, c, d] = [bytes[0], bytes[1], bytes[2], bytes[3]];
        let [e, f, g, h] = [bytes[4], bytes[5], bytes[6], bytes[7]];
        Ok(u64::from_be_bytes([a, b, c, d, e, f, g, h]))
    }

    /// A number of one byte, up to `most`; I4 above it.
    #[tactic(auto, unfolding(crate::specs::Reading::byte_within))]
    pub fn u8_within(&mut self, most: u8) -> Result<u8, ImageFault>
        ensures given { GivesAtOnce result self.new (byte_within most self.old) }
        ensures within { IfOk result (λ number. number ≤ most) }
    {
        let at = self.at;
        let number = self.u8()?;
        if most < number {
            return Err(ImageFault::OutOfLimit { at });
        }
        Ok(number)
    }

    /// A number of two bytes from `least` to `most`; I4 outside.
    #[tactic(auto, unfolding(crate::specs::Reading::number_within))]
    pub fn u16_within(&mut self, least: u16, most: u16) -> Result<u16, ImageFault>
        ensures given { GivesAtOnce result self.new (number_within w16 least most self.old) }
        ensures within { IfOk result (λ number. number ≤ most) }
    {
        let at = self.at;
        let number = self.u16()?;
        if number < least || most < number {
            return Err(ImageFault::OutOfLimit { at });
        }
        Ok(number)
    }

    /// A number of four bytes from `least` to `most`; I4 outside.
    #[tactic(auto, unfolding(crate::specs::Reading::number_within))]
    pub fn u32_within(&mut self, least: u32, most: u32) -> Result<u32, ImageFault>
        ensures { GivesAtOnce result self.new (number_within w32 least most self.old) }
    {
        let at = self.at;
        let number = self.u32()?;
        if number < least || most < number {
            return Err(ImageFault::OutOfLimit { at });
        }
        Ok(number)
    }

    /// The length of a text, in bytes; I5 if it is 0 or over its limit.
    #[tactic(auto, unfolding(crate::specs::Reading::length_at))]
    pub fn text_length(&mut self) -> Result<u16, ImageFault>
        ensures { Gives result self.new (length_at self.old) }
    {
        let at = self.at;
        let length = self.u16()?;
        if length == 0 || limits::TEXT < length {
            return Err(ImageFault::BadText { at });
        }
        Ok(length)
    }

    /// A text of `length` bytes; I5 if it is not UTF-8 or has a NUL.
    #[tactic(auto, unfolding(crate::specs::Reading::text_sized))]
    pub fn text_sized(&mut self, length: u16) -> Result<LentText<'a>, ImageFault>
        ensures { Gives result self.new (text_sized length self.old) }
    {
        let at = self.at;
        let bytes = self.take(usize::from(length))?;
        let Some(text) = text_in(bytes) else {
            return Err(ImageFault::BadText { at });
        };
        Ok(LentText::new(text))
    }

    /// A length and a text of that many bytes.
    #[tactic(auto, unfolding(crate::specs::Reading::text_at))]
    pub fn text(&mut self) -> Result<LentText<'a>, ImageFault>
        ensures { Gives result self.new (text_at self.old) }
    {
        let length = self.text_length()?;
        let text = self.text_sized(length)?;
        Ok(text)
    }

    /// The unread bytes in words of four, without what remains.
    pub fn words(&self) -> &'a [[u8; 4]]
        ensures { result.now ≡ first_chunks 4 (length self.now.left / 4) self.now.left }
    {
        let rest = self.rest;
        rest.as_chunks::<4>().0
    }

    /// A kind of values; I4 if the byte is none.
    #[tactic(auto, unfolding(crate::specs::Reading::kind_at))]
    pub fn kind(&mut self) -> Result<Kind, ImageFault>
        ensures { GivesAtOnce result self.new (kind_at self.old) }
    {
        let at = self.at;
        match decode_kind(self.u8()?) {
            Some(kind) => Ok(kind),
            None => Err(ImageFault::OutOfLimit { at }),
        }
    }

    /// An instruction; I8 if the four bytes spell none.
    #[tactic(auto, unfolding(crate::specs::Reading::instruction_at))]
    pub fn op(&mut self) -> Result<Op, ImageFault>
        ensures { Gives result self.new (instruction_at self.old) }
    {
        let at = self.at;
        let bytes = self.take(4)?;
        match decode_op([bytes[0], bytes[1], bytes[2], bytes[3]]) {
            Some(op) => Ok(op),
            None => Err(ImageFault::NoInstruction { at }),
        }
    }
}

/// The bytes as a text, if they are UTF-8 without a NUL.
#[tactic(auto, unfolding(crate::specs::Reading::is_text))]
fn text_in(bytes: &[u8]) -> Option<&str>
    ensures test { is_some result ≡ is_text bytes.now }
    ensures same { IfSome result (λ text. text.now ≡ bytes.now) }
{
    match str::from_utf8(bytes) {
        Ok(_) if bytes.contains(&0) => None,
        Ok(text) => Some(text),
        Err(_) => None,
    }
}
