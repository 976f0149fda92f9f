// The errors of the source.

/// Why there is no page. A loader returns it as a code, so that every waiting caller gets a copy.
#[derive(Clone, Copy, Debug)]
pub enum SourceError {
    Missing = 1,
    Offline = 2,
}

impl SourceError {
    /// Returns the error of a code.
    pub fn of(code: u32) -> SourceError {
        match code {
            1 => SourceError::Missing,
            _ => SourceError::Offline,
        }
    }

    /// Returns the text for a reader.
    pub fn text(self) -> &'static str {
        match self {
            SourceError::Missing => "there is no such page",
            SourceError::Offline => "the source can't be asked",
        }
    }
}
