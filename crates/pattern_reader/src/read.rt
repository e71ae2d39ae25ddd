ghost use Rattle.std.specs.Prelude.{◌≡◌, ◌≢◌, ◌<◌, IfOk, IfErr, IsErrAnd, length};
ghost use Rattle.pattern_reader.specs.declared.read.TheConstants.{MAX_TEXT};
ghost use Rattle.pattern_reader.specs.Read.{IsReadAs, IsRefusedAs};
ghost use Rattle.pattern_reader.specs.declared.pattern_refusal.PatternRefusal.TheVariants as PatternRefusal;

use crate::{Meaning, PatternRefusal, meaning_of};
use pattern_grammar::read_tree;
use pattern_lexer::tokens;
use pattern_types::Pattern;
use std::alloc::Global;

/// The greatest length of a pattern's text, in bytes.
pub const MAX_TEXT: usize = 65_536;

/// Reads a pattern of STIX 2.1 (section 9), of at most 65,536 bytes.
///
/// The refusal is the first of these that applies: `TooLong`; the first bad token; `Syntax` or
/// `TooDeep`, whichever comes first in the text; the first bad value; `TooWide`. `NoMemory` may
/// come at any time.
pub fn read_pattern(alloc: Global, text: &str) -> Result<Pattern, PatternRefusal>
    ensures ok { IfOk result (IsReadAs text.now) }
    ensures err { IfErr result (λ refusal. refusal ≢ PatternRefusal.NoMemory
        → IsRefusedAs text.now refusal) }
    // A text that is too long is refused before anything is allocated.
    ensures long { MAX_TEXT < length text.now
        → IsErrAnd result (λ refusal. refusal ≡ PatternRefusal.TooLong) }
{
    if text.len() > MAX_TEXT {
        return Err(PatternRefusal::TooLong);
    }
    let tokens = tokens(alloc, text)??;
    let tree = read_tree(alloc, tokens.as_slice(), text.len())??;
    let meaning = meaning_of(alloc, text, &tree);
    drop(tree);
    match meaning? {
        Meaning::Sound(pattern) => Ok(pattern),
        Meaning::TooWide => Err(PatternRefusal::TooWide),
        Meaning::Refused(refusal) => Err(PatternRefusal::Value(refusal)),
    }
}
