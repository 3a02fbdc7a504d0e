//! Ranges of damaged bytes.
ghost use Rattle.std.specs.Prelude.{◌≡◌, ◌<◌, length, slice_index_or};

use std::marker::Model;

/// The bytes from `first` up to `past`. Where they are kept they are so many access units, of which the presentation has so many
/// frames of so many channels, at a rate in hertz. Where they are lost these numbers are 0.
#[derive(Clone, Copy, Debug, PartialEq, Eq)]
pub struct Span {
    pub first: u64,
    pub past: u64,
    pub kept: bool,
    pub units: u64,
    pub frames: u64,
    pub channels: u8,
    pub rate: u32,
}

/// The kept intervals and the lost ranges of some bytes, in order. To a contract it is the list of its spans.
#[derive(Drop)]
pub struct Spans {
    pub(crate) items: Vec<Span>,
}

impl Model for Spans {
    ghost use Rattle.std.specs.Prelude.{List};
    ghost use Rattle.mlp_recover.specs.declared.span.Span.{Span};

    ghost Value = { List Span };

    ghost view = { λ s. s.items.items };
}

impl Spans {
    /// The number of spans.
    pub fn len(&self) -> usize
        ensures { result ≡ length self.now }
    {
        self.items.len()
    }

    /// The span of number `i`, counted from 0.
    pub fn at(&self, i: usize) -> Span
        requires { i < length self.now }
        ensures { result ≡ slice_index_or self.now i result }
    {
        self.items[i]
    }
}
