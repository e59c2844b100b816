// What has been filed so far.
use sweeps::Unfiled;

// The directions that were not read: how many, and the first one's place.
#[derive(Clone, Copy)]
pub struct Unread {
    pub count: u64,
    pub place: u64,
}

// How many directions there were, those that were not read too; what of them is refused, and what was not read, where
// something is. A place counts all of them.
#[derive(Clone, Copy, Default)]
pub struct Tally {
    pub count: u64,
    pub refused: Option<Unfiled>,
    pub unread: Option<Unread>,
}

// What two parts come to, the first of h directions; the first alone where a number would be too large: no input lasts
// for so many.
fn join(h: u64, a: Option<Unfiled>, b: Option<Unfiled>) -> Option<Unfiled> {
    let before = a.map_or(0, |part| part.count);
    let (count, place) = b.map_or((0, 0), |part| (part.count, part.place));
    if before.checked_add(count).is_none() || h.checked_add(place).is_none() {
        return a;
    }
    sweeps::join(h, Ok(a), Ok(b))
}

impl Tally {
    // With n directions more, of which these are refused.
    pub fn add_swept(&mut self, n: u64, refused: Option<Unfiled>) {
        self.refused = join(self.count, self.refused, refused);
        self.count = self.count.saturating_add(n);
    }

    // With a direction more that was not read.
    pub fn add_unread(&mut self) {
        self.unread = Some(match self.unread {
            Some(unread) => Unread {
                count: unread.count.saturating_add(1),
                ..unread
            },
            None => Unread {
                count: 1,
                place: self.count,
            },
        });
        self.count = self.count.saturating_add(1);
    }
}
