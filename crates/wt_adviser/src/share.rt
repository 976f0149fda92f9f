// The windows that are tried.
ghost use Rattle.std.specs.Prelude.{◌≡◌, ◌≤◌};
ghost use Rattle.wt_adviser.specs.Small.{hundredths, window_of};

/// Which part of the entries a window holds. Ours: of more windows than these four none was best on
/// the streams that were measured.
#[derive(Clone, Copy, Debug, PartialEq, Eq)]
pub enum Share {
    /// One in a hundred: best if a few keys stay popular.
    Hundredth,
    /// One in ten: where an adviser begins.
    Tenth,
    /// Two in five.
    TwoFifths,
    /// All of them, which is LRU: best if the popular keys change all the time.
    Whole,
}

impl Share {
    // The share in hundredths.
    fn hundredths(self) -> u64
        ensures { result ≡ hundredths self }
    {
        match self {
            Share::Hundredth => 1,
            Share::Tenth => 10,
            Share::TwoFifths => 40,
            Share::Whole => 100,
        }
    }

    /// Returns how many of the entries that window holds, at least one.
    pub fn window_of(self, entries: u32) -> u32
        requires { 1 ≤ entries }
        ensures answer { result ≡ window_of self entries }
        ensures within { (1 ≤ result) × (result ≤ entries) }
    {
        let window = entries as u64 * self.hundredths() / 100;
        window.max(1) as u32
    }
}
