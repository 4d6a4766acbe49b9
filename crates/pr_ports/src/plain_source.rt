// A source that never fails.
ghost use Rattle.std.specs.Prelude.{◌≡◌, Some};

use crate::copying::give;
use crate::{Failed, Source};
use std::marker::Model;

/// Gives the bytes of a list, as many a call as fit, and never fails: its count of faults is 0.
#[derive(Drop)]
pub struct PlainSource {
    bytes: Vec<u8>,
    at: usize,
}

impl Model for PlainSource {
    ghost use Rattle.std.specs.Prelude.{◌≤◌, List, drop, vec_len, ℕ};

    ghost Value = { List ℕ };

    ghost view = { λ s. drop s.at s.bytes.items };

    ghost invariant = { λ s. s.at ≤ vec_len s.bytes };
}

impl PlainSource {
    pub fn new(bytes: Vec<u8>) -> Self
        ensures { result ≡ bytes.items }
    {
        PlainSource { bytes, at: 0 }
    }
}

impl Source for PlainSource {
    ghost left = { λ s. Some s };

    ghost faults = { λ s. 0 };

    fn read(&mut self, buf: &mut [u8]) -> Result<usize, Failed> {
        let n = give(&self.bytes[self.at..], usize::MAX, buf);
        self.at += n;
        Ok(n)
    }
}
