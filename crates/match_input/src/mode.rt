/// How an input is divided into bundles.
#[derive(Clone, Copy, Debug, PartialEq, Eq)]
pub enum Mode {
    /// Each line that isn't blank is a bundle.
    Lines,
    /// The whole input is one bundle, reported as line 1.
    Whole,
}
