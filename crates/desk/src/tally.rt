// How many datagrams got which verdict.

use super::verdict_word;
use std::fmt;
use wire::verdict::Verdict;

// The count of each verdict, in the order of their numbers, and of the files that could not be read.
#[derive(Clone, Copy)]
pub struct Tally {
    counts: [(Verdict, u64); verdict_word::COUNT],
    unread: u64,
}

impl Tally {
    // Before the first datagram.
    pub fn new() -> Tally {
        Tally {
            counts: verdict_word::ALL.map(|verdict| (verdict, 0)),
            unread: 0,
        }
    }

    // One datagram more, with a verdict.
    pub fn add(&mut self, verdict: Verdict) {
        for (other, count) in &mut self.counts {
            if *other == verdict {
                *count = count.saturating_add(1);
            }
        }
    }

    // One file more that could not be read.
    pub fn add_unread(&mut self) {
        self.unread = self.unread.saturating_add(1);
    }

    // How many datagrams there are.
    fn shown(&self) -> u64 {
        self.counts
            .iter()
            .fold(0u64, |sum, (_, count)| sum.saturating_add(*count))
    }
}

// The last line.
impl fmt::Display for Tally {
    fn fmt<W: fmt::Write>(&self, f: &mut fmt::Formatter<W>) -> fmt::Result {
        match self.shown() {
            1 => write!(f, "1 datagram")?,
            shown => write!(f, "{shown} datagrams")?,
        }
        let mut mark = ':';
        for (verdict, count) in self.counts.iter().filter(|(_, count)| 0 < *count) {
            write!(
                f,
                "{mark} {count} {} ({})",
                verdict_word::word(*verdict),
                verdict.number()
            )?;
            mark = ',';
        }
        if 0 < self.unread {
            write!(f, "; {} not read", self.unread)?;
        }
        Ok(())
    }
}
