//! The forms of replies.

use pst_base::NoMemory;
use std::alloc::Global;

/// The forms of the replies so far, each once: the last line of a reply, without its digits.
#[derive(Drop)]
pub struct Forms {
    items: Vec<Vec<u8>>,
}

/// The last line of a text that ends its lines, without digits.
fn form_of(alloc: Global, text: &[u8]) -> Result<Vec<u8>, NoMemory> {
    let mut form = Vec::new(alloc);
    let line = text
        .split(|byte| *byte == b'\n')
        .rev()
        .nth(1)
        .unwrap_or(&[]);
    for byte in line {
        if !byte.is_ascii_digit() {
            form.push(*byte)?;
        }
    }
    Ok(form)
}

impl Forms {
    /// No form.
    pub fn new(alloc: Global) -> Forms {
        Forms {
            items: Vec::new(alloc),
        }
    }

    /// Keeps the form of a reply.
    pub fn keep(&mut self, alloc: Global, text: &[u8]) -> Result<(), NoMemory> {
        let form = form_of(alloc, text)?;
        if !self.has(&form) {
            self.items.push(form)?;
        }
        Ok(())
    }

    /// Whether replies had each of these forms, which stand in lines.
    pub fn has_all(&self, forms: &[u8]) -> bool {
        forms
            .split(|byte| *byte == b'\n')
            .all(|form| self.has(form))
    }

    /// Whether a reply had this form.
    fn has(&self, form: &[u8]) -> bool {
        self.items.iter().any(|item| item.as_slice() == form)
    }
}
