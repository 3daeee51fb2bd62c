// Packed fields: 1 to 16 bits, most significant bit first, at any bit position of an image.
#![tactic(auto)]

ghost use Rattle.std.specs.Prelude.{◌≡◌, ◌+◌, ◌*◌, ◌^◌, ◌≤◌, ◌<◌, length, get_or};
ghost use Rattle.meaning.specs.Bits.{field_at};
ghost use Rattle.laws.specs.BitsLaws.{window};
ghost use Rattle.read_fields.specs.Field.{FetchMet};

// The byte at i, and 0 past the end.
fn byte_or_zero(bytes: &[u8], i: usize) -> u32
    ensures { (result ≡ get_or bytes.now i 0) × (result < 256) }
{
    if i < bytes.len() { bytes[i] as u32 } else { 0 }
}

// Three bytes as one number, the first the most significant. It is lent these three, and so can read no other.
fn joined(bytes: &[u8]) -> u32
    requires { length bytes.now ≡ 3 }
    ensures { (result ≡ window bytes.now 0) × (get_or bytes.now 1 0 < 256) × (get_or bytes.now 2 0 < 256) }
{
    ((bytes[0] as u32) << 16) | ((bytes[1] as u32) << 8) | bytes[2] as u32
}

// The same of the last bytes of an image, two at most, and zeros after them.
fn joined_last(bytes: &[u8]) -> u32
    requires { length bytes.now ≤ 2 }
    ensures { (result ≡ window bytes.now 0) × (get_or bytes.now 1 0 < 256) × (get_or bytes.now 2 0 < 256) }
{
    let first = byte_or_zero(bytes, 0);
    let second = byte_or_zero(bytes, 1);
    (first << 16) | (second << 8)
}

// The three bytes from i on as one number, those past the end as zeros; by one look at the image's length where all are there.
fn three_bytes(image: &[u8], i: usize) -> u32
    requires { i ≤ 2 ^ 29 }
    ensures { (result ≡ window image.now i) × (get_or image.now (i + 1) 0 < 256) × (get_or image.now (i + 2) 0 < 256) }
{
    if i + 2 < image.len() {
        return joined(&image[i..i + 3]);
    }
    if i < image.len() {
        return joined_last(&image[i..]);
    }
    0
}

/// The bits from `at` on, out of the three bytes that hold them: fetched, shifted and cut. Bytes past the end count as zeros.
pub fn bits(image: &[u8], at: usize, width: usize) -> u16
    requires { (width ≤ 16) × (at ≤ 2 ^ 32) }
    ensures { result ≡ field_at image.now at width }
{
    let skipped = at % 8;
    let bytes = three_bytes(image, at / 8);
    ((bytes >> (24 - skipped - width)) & ((1u32 << width) - 1)) as u16
}

/// The field of `width` bits at bit `at`, if it is wholly there. (Where the three bytes that can hold it are all there, so is the field.)
pub fn field_at(image: &[u8], at: usize, width: usize) -> Option<u16>
    requires { (width ≤ 16) × (at ≤ 2 ^ 32) × (length image.now ≤ 65536) }
    ensures { FetchMet result image.now at width }
{
    if image.len() <= at / 8 + 2 {
        if 8 * image.len() < at + width {
            return None;
        }
    }
    Some(bits(image, at, width))
}
