ghost use Rattle.std.specs.Prelude.{IfOk, IfErr};
ghost use Rattle.stix_json.specs.Reading.{IsJsonOf, IsJsonRefusedAs};

use crate::read::read_with;
use crate::{Json, JsonRefusal};
use flow_values::NoMemory;
use json::Scratch;
use std::alloc::Global;

/// Reads JSON texts one after another and reuses its working memory: a buffer for the longest text,
/// and a table of 16 KB. `read_json` allocates these for each text.
#[derive(Drop)]
pub struct JsonReader {
    alloc: Global,
    scratch: Box<Scratch>,
}

impl JsonReader {
    /// A reader with empty working memory.
    pub fn new(alloc: Global) -> Result<JsonReader, NoMemory> {
        let scratch = Box::new(alloc, Scratch::new(alloc))?;
        Ok(JsonReader { alloc, scratch })
    }

    /// Reads a JSON value, exactly as `read_json` does. Earlier texts make no difference.
    pub fn read(&mut self, bytes: &[u8]) -> Result<Json, JsonRefusal>
        ensures ok { IfOk result (λ json. IsJsonOf bytes.now json) }
        ensures err { IfErr result (λ refusal. IsJsonRefusedAs bytes.now refusal) }
    {
        read_with(self.alloc, &mut self.scratch, bytes)
    }
}
