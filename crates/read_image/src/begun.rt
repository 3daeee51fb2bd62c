// An image of any length and content whose header is read.
ghost use Rattle.std.specs.Prelude.{◌≡◌, ◌*◌, ◌≤◌, IfOk, length};
ghost use Rattle.read_image.specs.Whole.{begun_read, header_of, InBounds, Fitting, Begins};

use layout::Plan;
use meaning::{Reason, Refusal};
use read_ranges::Reader;
use std::marker::Model;

/// The bytes of an image whose header is read, where reading goes on, and the plan that the header makes.
#[derive(Clone, Drop)]
pub struct Begun<'a> {
    image: &'a [u8],
    at: usize,
    plan: Plan,
}

impl<'a> Model for Begun<'a> {
    ghost use Rattle.read_image.specs.Whole.{Started, Begins};

    ghost Value = { Started };

    ghost view = { λ b. record { image = b.image.now; at = b.at; plan = b.plan } };

    ghost invariant = { λ b. Begins b.image.now b.at b.plan };
}

impl<'a> Begun<'a> {
    /// An image whose header was read up to a bit, as a plan.
    pub fn new(image: &'a [u8], at: usize, plan: Plan) -> Begun<'a>
        requires { Begins image.now at plan }
        ensures { result ≡ record { image = image.now; at = at; plan = plan } }
    {
        Begun { image, at, plan }
    }

    /// The plan: at most 256 rules, as long as they need, and with room on the largest tape.
    pub fn plan(&self) -> Plan
        ensures value { result ≡ self.now.plan }
        ensures in_bounds { InBounds result }
        ensures fitting { Fitting result }
    {
        self.plan
    }

    /// Reading goes on after the header.
    pub fn reader(&self) -> Reader<'a>
        ensures value { result ≡ record { image = self.now.image; at = self.now.at } }
        ensures begins { Begins self.now.image self.now.at self.now.plan }
    {
        Reader::resume(self.image, self.at)
    }
}

/// Begins an image of any length and content: reads its header, as a plan with places for a store if one is lent. An image of over 65,536 bytes is refused first.
pub fn begin(image: &[u8], learns: bool) -> Result<Begun, Refusal>
    ensures reads { begun_read result ≡ header_of image.now }
    ensures begun { IfOk result (λ b. (b.image ≡ image.now) × (b.plan.learns ≡ learns)) }
{
    if 65536 < image.len() {
        return Err(Refusal {
            reason: Reason::TooLong,
            at: 0,
        });
    }
    let mut reader = Reader::new(image);
    let plan = read_opening::header(&mut reader, learns)?;
    let at = reader.at();
    Ok(Begun { image, at, plan })
}
