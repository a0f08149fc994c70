// Outcomes in their order, each with how often it arose in a row.

use std::alloc::{AllocError, Global};

#[derive(Drop)]
struct Count {
    label: String,
    times: u64,
}

/// Outcomes in their order.
#[derive(Drop)]
pub(crate) struct Counts {
    counts: Vec<Count>,
    all: u64,
}

impl Counts {
    pub(crate) fn new(alloc: Global) -> Counts {
        Counts {
            counts: Vec::new(alloc),
            all: 0,
        }
    }

    /// One more outcome.
    pub(crate) fn add(&mut self, label: String) -> Result<(), AllocError> {
        self.all = self.all.saturating_add(1);
        if let Some(last) = self.counts.last_mut() {
            if last.label.as_str() == label.as_str() {
                last.times = last.times.saturating_add(1);
                return Ok(());
            }
        }
        Ok(self.counts.push(Count { label, times: 1 })?)
    }

    /// The line that tells them, with a line of its own for each where they are more than two.
    pub(crate) fn told(&self, alloc: Global, what: &str) -> Result<String, AllocError> {
        let (begin, between) = match self.counts.len() {
            0..3 => (" ", "; "),
            _ => ("\n  ", "\n  "),
        };
        let mut text = format!(in alloc; "at each of {} {what}:", self.all)?;
        for (i, count) in self.counts.iter().enumerate() {
            text.push_str(if i == 0 { begin } else { between })?;
            text.push_str(format!(in alloc; "{} {}", count.times, count.label)?.as_str())?;
        }
        text.push('\n')?;
        Ok(text)
    }
}
