use crate::Rule;
use flow_values::Text;

/// A violation: a rule, and the path to the value that breaks it. The path joins property names and
/// list indices `[n]`, counted from 0, by dots. The path of the whole object is empty.
#[derive(Debug, Drop)]
pub struct Break {
    pub rule: Rule,
    pub path: Text,
}
