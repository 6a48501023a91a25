// A lent slice lies inside a larger array: 64 bytes before it and all bytes behind it are to be kept.
const FENCE: usize = 64;

// Room for the longest slice that is lent.
const SIZE: usize = 65664;

#[derive(Drop)]
pub struct Fenced {
    bytes: [u8; SIZE],
    own: u8,
}

impl Fenced {
    // Likewise made where it is kept.
    #[inline(always)]
    pub(crate) fn new(own: u8) -> Fenced {
        Fenced {
            bytes: [own; SIZE],
            own,
        }
    }

    // Nothing is filled in that does not fit.
    pub(crate) fn fill(&mut self, within: &[u8]) {
        memory::copy(&mut self.bytes, FENCE, within);
    }

    // An input of n bytes, or none where it does not fit.
    pub(crate) fn inside(&self, n: usize) -> &[u8] {
        memory::part(&self.bytes, FENCE, n)
    }

    // A slice of n bytes to be written, or all where it does not fit.
    pub(crate) fn lent(&mut self, n: usize) -> &mut [u8] {
        if n <= SIZE - FENCE {
            &mut self.bytes[FENCE..FENCE + n]
        } else {
            &mut self.bytes
        }
    }

    pub(crate) fn spoil(&mut self, at: usize) {
        if let Some(byte) = self.bytes.get_mut(at) {
            *byte = 1;
        }
    }

    // Whether the array holds its own byte but for what lies inside.
    pub(crate) fn holds(&self, within: &[u8]) -> bool {
        let (before, rest) = self.bytes.split_at(FENCE);
        let Some(behind) = rest.strip_prefix(within) else {
            return false;
        };
        let is_own = |byte: &u8| *byte == self.own;
        before.iter().all(is_own) && behind.iter().all(is_own)
    }
}
