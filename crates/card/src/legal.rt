// Which contents are within the rules: the count, and every entry where it stands.
ghost use Rattle.std.specs.Prelude.{◌≡◌};
ghost use Rattle.card.specs.Block.{block_legal};

use crate::Block;
use entries::{entry_blank, entry_legal};

impl Block {
    // Whether a content is within the rules: the entries before the count are used, and those from there on are zeros.
    pub fn is_legal(&self) -> bool
        ensures { result ≡ block_legal self.now }
    {
        let count = usize::from(self.count);
        if !(1..=31).contains(&count) {
            return false;
        }
        let (used, unused) = self.entries.split_at(count);
        used.iter().all(|entry| entry_legal(*entry))
            && unused.iter().all(|entry| entry_blank(*entry))
    }
}
