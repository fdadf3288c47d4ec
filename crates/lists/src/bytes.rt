// Bytes that come one after the other, as many as there is room for. No `ArrayVec`: what holds them is Copy.
ghost use Rattle.std.specs.Prelude.{◌≤◌, length};

#[derive(Clone, Copy)]
pub struct Bytes<const N: usize> {
    held: [u8; N],
    used: usize,
}

impl<const N: usize> Bytes<N> {
    pub fn new() -> Self {
        Self {
            held: [0; N],
            used: 0,
        }
    }

    pub fn as_slice(&self) -> &[u8] {
        &self.held[..self.used.min(N)]
    }

    pub fn is_full(&self) -> bool {
        self.used >= N
    }

    pub fn clear(&mut self) {
        self.used = 0;
    }

    // The first of the bytes, as far as there is room. How many they are.
    pub fn extend(&mut self, bytes: &[u8]) -> usize
        ensures { result ≤ length bytes.now }
    {
        let from = self.used.min(N);
        let n = bytes.len().min(N - from);
        let held = &mut self.held[..];
        held[from..from + n].copy_from_slice(&bytes[..n]);
        self.used = from + n;
        n
    }
}
