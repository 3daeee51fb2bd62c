// Reading an image field by field: its bytes and a place in them are one value, and a field that breaks its rule is an error.
#![tactic(auto)]

ghost use Rattle.std.specs.Prelude.{◌≡◌, ◌*◌, ◌≤◌, ◌<◌, ◌+◌, ℕ, IfOk, IfSome, length};
ghost use Rattle.meaning.specs.Bits.{field_at};
ghost use Rattle.meaning.specs.Numbers.{bad_number};
ghost use Rattle.meaning.specs.Read.{field, must};
ghost use Rattle.meaning.specs.Reasons.{number_of};
ghost use Rattle.meaning.specs.Image.{a_type, anything, between};
ghost use Rattle.layout.specs.Walks.{in_range};
ghost use Rattle.read_ranges.specs.Reading.{told, told_or, Follows};

mod sizes;

use meaning::{Reason, Refusal};
pub use sizes::Sizes;
use std::marker::Model;

/// The bytes of an image of at most 65,536 bytes, and the bit that is read next, at most its end.
#[derive(Drop)]
pub struct Reader<'a> {
    image: &'a [u8],
    at: usize,
}

impl<'a> Model for Reader<'a> {
    ghost use Rattle.std.specs.Prelude.{◌*◌, ◌≤◌, length};
    ghost use Rattle.read_ranges.specs.Cursors.{Cursor};

    ghost Value = { Cursor };

    ghost view = { λ r. record { image = r.image.now; at = r.at } };

    ghost invariant = { λ r. (length r.image.now ≤ 65536) × (r.at ≤ 8 * length r.image.now) };
}

impl<'a> Reader<'a> {
    /// Begins at the first bit of an image.
    pub fn new(image: &'a [u8]) -> Reader<'a>
        requires { length image.now ≤ 65536 }
        ensures { result ≡ record { image = image.now; at = 0 } }
    {
        Reader { image, at: 0 }
    }

    /// Goes on at a bit of an image, or at its end.
    pub fn resume(image: &'a [u8], at: usize) -> Reader<'a>
        requires { (length image.now ≤ 65536) × (at ≤ 8 * length image.now) }
        ensures { result ≡ record { image = image.now; at = at } }
    {
        Reader { image, at }
    }

    /// The bit that is read next, at most the end, which is bit 524,288 at most.
    pub fn at(&self) -> usize
        ensures value { result ≡ self.now.at }
        ensures inside { (result ≤ 8 * length self.now.image) × (length self.now.image ≤ 65536) }
    {
        self.at
    }

    /// The bit after the image's last.
    pub fn end(&self) -> usize
        ensures { result ≡ 8 * length self.now.image }
    {
        8 * self.image.len()
    }

    /// The next bits, which are not read yet; those past the image's end are zeros.
    pub fn ahead(&self, width: usize) -> u16
        requires { width ≤ 16 }
        ensures { result ≡ field_at self.now.image self.now.at width }
    {
        read_fields::bits(self.image, self.at, width)
    }

    /// A field of any value. One that is not wholly there is refused where it begins.
    pub fn field(&mut self, width: usize) -> Result<u16, Refusal>
        requires { width ≤ 16 }
        ensures value { told result self.new ≡ field width anything self.old.image self.old.at }
        ensures follows { Follows self.old self.new }
    {
        match read_fields::field_at(self.image, self.at, width) {
            Some(value) => {
                self.at += width;
                Ok(value)
            }
            None => Err(Refusal {
                reason: Reason::NotThere,
                at: self.at,
            }),
        }
    }

    /// A field, and whether it is from `low` to below `end`: its value, or none where it lies outside.
    pub fn ranged(&mut self, width: usize, low: u16, end: u16) -> Result<Option<u16>, Refusal>
        requires { width ≤ 16 }
        ensures value { (number : ℕ) → 0 < number → told_or number self.old.at result self.new
            ≡ field width (must number (in_range low end)) self.old.image self.old.at }
        ensures follows { Follows self.old self.new }
        ensures bounds { IfOk result (λ v. IfSome v (λ n. (low ≤ n) × (n < end))) }
    {
        let value = self.field(width)?;
        if value < low || end <= value {
            return Ok(None);
        }
        Ok(Some(value))
    }

    /// A field from `low` to below `end`; a value outside is refused for that reason, where the field begins.
    pub fn within(
        &mut self,
        width: usize,
        low: u16,
        end: u16,
        reason: Reason,
    ) -> Result<u16, Refusal>
        requires { width ≤ 16 }
        ensures value { told result self.new ≡ field width (must (number_of reason) (in_range low end)) self.old.image self.old.at }
        ensures follows { Follows self.old self.new }
        ensures bounds { IfOk result (λ n. (low ≤ n) × (n < end)) }
    {
        let at = self.at;
        self.ranged(width, low, end)?.ok_or(Refusal { reason, at })
    }

    /// A version, count or kind from `low` to `high`.
    pub fn count(&mut self, width: usize, low: u16, high: u16) -> Result<u16, Refusal>
        requires { (width ≤ 16) × (high < 65535) }
        ensures value { told result self.new ≡ field width (must bad_number (between low high)) self.old.image self.old.at }
        ensures follows { Follows self.old self.new }
        ensures bounds { IfOk result (λ n. (low ≤ n) × (n ≤ high)) }
    {
        self.within(width, low, high + 1, Reason::BadNumber)
    }

    /// A type from `least` (0 or 1) to the last of `types`.
    pub fn type_at(&mut self, types: &[u16], least: u16) -> Result<u16, Refusal>
        requires { (least ≤ 1) × (0 < length types.now) }
        ensures value { told result self.new ≡ field 6 (must bad_number (a_type types.now least)) self.old.image self.old.at }
        ensures follows { Follows self.old self.new }
        ensures declared { IfOk result (λ k. k < length types.now) }
    {
        let refusal = Refusal {
            reason: Reason::BadNumber,
            at: self.at,
        };
        let k = self.field(6)?;
        match k {
            0 => {
                if 0 < least {
                    return Err(refusal);
                }
            }
            1..=63 => {
                if types.len() <= k as usize {
                    return Err(refusal);
                }
            }
            _ => {
                return Err(refusal);
            }
        }
        Ok(k)
    }
}
