// What the rules of an image are read by: how many buffers there are, and the slot count of each type.
ghost use Rattle.std.specs.Prelude.{◌≡◌, ◌≤◌, ◌<◌, length};
ghost use Rattle.layout.specs.Rows.{sizes};

use std::marker::Model;

/// At most 8 buffers, and the slot counts of one type at least.
#[derive(Drop)]
pub struct Sizes<'a> {
    buffers: u16,
    types: &'a [u16],
}

impl<'a> Model for Sizes<'a> {
    ghost use Rattle.std.specs.Prelude.{◌≤◌, ◌<◌, length};
    ghost use Rattle.meaning.specs.Model.{Sizes};

    ghost Value = { Sizes };

    ghost view = { λ s. record { buffers = s.buffers; types = s.types.now } };

    ghost invariant = { λ s. (s.buffers ≤ 8) × (0 < length s.types.now) };
}

impl<'a> Sizes<'a> {
    pub fn new(buffers: u16, types: &'a [u16]) -> Sizes<'a>
        requires { (buffers ≤ 8) × (0 < length types.now) }
        ensures { result ≡ sizes buffers types.now }
    {
        Sizes { buffers, types }
    }

    /// How many buffers there are, 8 at most.
    pub fn buffers(&self) -> u16
        ensures value { result ≡ self.now.buffers }
        ensures few { result ≤ 8 }
    {
        self.buffers
    }

    /// The slot count of each type, nil's first.
    pub fn types(&self) -> &'a [u16]
        ensures value { result.now ≡ self.now.types }
        ensures one { 0 < length result.now }
    {
        self.types
    }
}
