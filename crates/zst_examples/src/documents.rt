// A text that stands in an example below the line that takes it, up to a line of a word that the line names, as `<<END`.

use std::alloc::{AllocError, Global};

/// A text of which more is to come.
#[derive(Drop)]
pub(crate) struct Document {
    /// The line that ends it.
    end: String,
    text: String,
}

impl Document {
    /// No text yet, where a line takes one.
    pub(crate) fn begun_by(alloc: Global, line: &str) -> Result<Option<Document>, AllocError> {
        let Some((_, behind)) = line.split_once("<<") else {
            return Ok(None);
        };
        let end = behind.split(' ').next().unwrap_or("");
        Ok(Some(Document {
            end: String::from_str(alloc, end)?,
            text: String::new(alloc),
        }))
    }

    /// Whether a line is the one behind the text.
    pub(crate) fn ends_at(&self, line: &str) -> bool {
        self.end.as_str() == line
    }

    /// One more line.
    pub(crate) fn add(&mut self, line: &str) -> Result<(), AllocError> {
        self.text.push_str(line)?;
        self.text.push('\n')
    }

    pub(crate) fn text(&self) -> &str {
        self.text.as_str()
    }
}
