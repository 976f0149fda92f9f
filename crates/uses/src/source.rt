// Where pages come from.
use wt_cache::{Keyed, Loader};

/// A page's words, beside its number.
pub type Page = Keyed<u64, u64>;

/// A source with pages 1 to 99, each with ten words for each number.
#[derive(Drop)]
pub struct Source {}

impl Source {
    /// The source's result for a page that it doesn't have.
    pub const MISSING: u32 = 404;
}

impl Loader<u64, Page> for Source {
    fn load(&self, number: &u64) -> Result<Page, u32> {
        let key = *number;
        if key == 0 || key > 99 {
            return Err(Source::MISSING);
        }
        Ok(Keyed {
            key,
            value: 10 * key,
        })
    }
}
