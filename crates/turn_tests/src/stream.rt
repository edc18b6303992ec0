//! Octets that come one after the other, and go from the first on.
use std::alloc::{AllocError, Global};

/// Octets, of which the first ones are gone.
#[derive(Drop)]
pub struct Stream {
    octets: Vec<u8>,
    gone: usize,
}

impl Stream {
    /// None came.
    pub fn new(alloc: Global) -> Stream {
        Stream {
            octets: Vec::new(alloc),
            gone: 0,
        }
    }

    /// Those that came and are not gone.
    pub fn rest(&self) -> &[u8] {
        let octets = self.octets.as_slice();
        &octets[self.gone.min(octets.len())..]
    }

    /// Whether all are gone.
    pub fn is_empty(&self) -> bool {
        self.rest().is_empty()
    }

    /// Further ones come.
    pub fn add(&mut self, octets: &[u8]) -> Result<(), AllocError> {
        if self.is_empty() {
            self.octets.clear();
            self.gone = 0;
        }
        self.octets.extend_from_slice(octets)
    }

    /// So many go.
    pub fn pass(&mut self, count: usize) {
        self.gone = self.gone.saturating_add(count);
    }
}

/// The first octets, at most so many.
pub fn front(octets: &[u8], most: usize) -> &[u8] {
    &octets[..most.min(octets.len())]
}

/// How long the first line is, with its end.
pub fn line_len(octets: &[u8]) -> Option<usize> {
    match octets.iter().position(|octet| *octet == b'\n') {
        Some(place) => Some(place.saturating_add(1)),
        None => None,
    }
}
