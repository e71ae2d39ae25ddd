use stix_objects::Break;

/// A violation by an object of a bundle, with the object's position, counted from 0.
#[derive(Debug, Drop)]
pub struct ObjectBreak {
    pub object: u32,
    pub found: Break,
}
