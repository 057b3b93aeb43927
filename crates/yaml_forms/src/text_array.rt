// A JSON array of texts, written text by text (RFC 8259, 5).
ghost use Rattle.std.specs.Prelude.{◌≡◌, ℕ, List, [], ◌∷◌, IfOk, OnOk, encode_utf8_all, string_bytes};
ghost use Rattle.yaml_forms.specs.Prelude.{chars};
ghost use Rattle.yaml_forms.specs.Json.{json_texts};

use crate::json_string::write_json_string;
use std::alloc::{AllocError, Global};
use yaml_writer::Sink;

/// The JSON text of a sequence of texts, which is written text by text, without a tree. Contracts see the bytes of the
/// whole array with further texts, `bytes_with`. After a fault nothing is promised of what it holds.
#[derive(Drop)]
pub struct TextArray {
    json: String,
}

impl TextArray {
    ghost use Rattle.yaml_forms.specs.TextArrays.{array_end, array_lead, bytes_with, is_fresh};

    /// An array without texts. It takes no memory.
    pub fn new(alloc: Global) -> TextArray
        ensures { (values : List (List ℕ)) → bytes_with result values
            ≡ encode_utf8_all (json_texts values) }
    {
        TextArray {
            json: String::new(alloc),
        }
    }

    /// Appends a text as a string. It fails only if memory runs out.
    pub fn push(&mut self, text: &str) -> Result<(), AllocError>
        ensures { OnOk result ((values : List (List ℕ)) → bytes_with self.new values
            ≡ bytes_with self.old (chars text.now ∷ values)) }
    {
        let lead = self.lead();
        self.json.put_char(lead)?;
        write_json_string(text, &mut self.json)
    }

    /// The JSON text of the texts that were pushed. It fails only if memory runs out.
    pub fn finish(self) -> Result<String, AllocError>
        ensures { IfOk result (λ json. string_bytes json ≡ bytes_with self []) }
    {
        let end = self.end();
        let mut json = self.json;
        json.put_text(end)?;
        Ok(json)
    }

    /// What comes before the next text: `[` before the first, and a comma before each other one.
    fn lead(&self) -> char
        ensures { result ≡ array_lead (is_fresh (string_bytes self.now.json)) }
    {
        if self.json.is_empty() { '[' } else { ',' }
    }

    /// What ends the array after the texts that were pushed.
    fn end(&self) -> &'static str
        ensures { result.now ≡ array_end (is_fresh (string_bytes self.now.json)) }
    {
        if self.json.is_empty() { "[]" } else { "]" }
    }
}
